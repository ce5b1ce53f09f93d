//! Tables of abbreviations, as `.debug_abbrev` holds them (DWARF 5, section 7.5.3).
//!
//! - A table lies in three vectors, without room to spare: its abbreviations, of 48 bytes each; the
//!   attributes of all of them (`Spec`, 24 bytes), one abbreviation behind the other; and before
//!   each attribute, and before the end of each abbreviation, the values of fixed widths that stand
//!   right before it (`FixedRun`, 8 bytes). An attribute takes 2 bytes of the table at least and 32
//!   of memory, an abbreviation without attributes 5 and 56: so a table takes at most 16 bytes of
//!   memory for each of its own, and at most 20 where the map of the next line holds all codes, with
//!   some 40 bytes for each.
//! - A code finds its abbreviation by itself where the codes are 1, 2, 3 and so on, as compilers
//!   write them. A map holds only the codes that aren't their place, counted from 1. So compilers'
//!   tables are looked up in constant time, and no table takes more work than n log n.
//! - The values of a run are counted apart as bytes, offsets and addresses, so a run is known once a
//!   table, before the widths of a unit are, and an entry's values are passed by one addition for
//!   each run. Another run begins behind a value without a fixed width, which has a byte at least,
//!   and where a count doesn't fit: attributes without bytes cost an entry nothing.
//! - An abbreviation has a byte for each of the fifteen names that readers of types and functions
//!   ask for, with the index of its first attribute of this name; one that doesn't fit the byte is
//!   looked for, and so are other names.
//! - A pair of attribute 0 and a form other than 0 is a pair like any other: only 0, 0 ends the list.
//! - `Abbrev` keeps its runs and indices beside the fields that callers read, and hands out parts of
//!   them (`first_of`, `run_to`, `run_from`).
//!
//! Reading a table takes memory; looking a code up takes none.
#![tactic(auto)]

pub mod abbrevs;
pub mod constants;
pub mod fault;
pub mod law;
mod pieces;
pub mod row;
pub mod runs;
mod shared;
pub mod size;
mod slots;
pub mod spec;

pub use abbrevs::Abbrevs;
pub use fault::AbbrevFault;
pub use row::Abbrev;
pub use runs::FixedRun;
pub use size::Width;
pub use spec::Spec;
