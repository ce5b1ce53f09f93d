//! The words of the command line: the job that they give, or what is wrong with them.
//!
//! | Option | What it does | Its value |
//! |---|---|---|
//! | `--btf_encode_detached=OUT` | stores the types of the files as BTF in OUT | not empty |
//! | `--btf_base=BASE` | goes on from the table in BASE; while encoding, or with `-F btf` | not empty |
//! | `--selfmade=N` | makes an input of this number and encodes it, without files | any number of 64 bits |
//! | `-F FORMAT` | says what the files hold | `dwarf` (default) or `btf` |
//! | `-C NAMES` | shows only types of these names | names between commas, none empty |
//! | `-s` | prints only sizes, one line for each type | none |
//! | `-H N` | shows only types with at least N byte holes | 0 (default, shows all) to 4294967295 |
//! | `-c N` | the size of a cache line in bytes | 1 to 4294967295, by default 64 |
//! | `-jN` | the number of workers | 1 to 256, by default 1 |
//! | `--funcs` | encodes functions, too; while encoding | none |
//! | `--` | makes each later word a file | none |
//!
//! Without `--btf_encode_detached=` and `--selfmade=` the layouts of the types are shown; then no
//! other job's options may be there. Numbers are 1 to 20 decimal digits. A word that doesn't begin
//! with `-` is a file, and so is the word `-`; options and files may be mixed. Each option may
//! stand once. At least one file is needed, and with `-F btf` exactly one.
//!
//! At one word errors come in the order unknown, repeated, value missing, value bad; the first
//! word with one counts. What concerns all words together comes last. The first `--` ends the
//! options, and a second one is a file. An option takes the next word whole, `--` too.
//!
//! The work of each call is linear in the bytes of the words.
#![tactic(auto)]

mod finish;
pub mod job;
mod options;
pub mod scan;
pub mod usage_codes;
mod uses;
mod values;

pub use job::{Format, Job, JobFault, Text, Texts, UsageFault};
pub use scan::job_of;
