//! The pages of this program.

/// The page of `--help`.
pub fn help() -> &'static str {
    HELP
}

/// The page of `--version`.
pub fn version() -> &'static str {
    VERSION
}

/// The program's version, and the toolchain that it is proved by.
const VERSION: &str = "\
pahole 1.0.0
proved by rattle-kit-13f logic dac8208d650f15bf
";

const HELP: &str = "\
pahole stores C types as BTF, and prints how structures lie in memory.

  pahole --btf_encode_detached=OUT [--btf_base=B] [--funcs] [-jN] FILE ...
  pahole [-C NAMES] [-s] [-H N] [-c N] [-F dwarf] [-jN] FILE ...
  pahole -F btf [-C NAMES] [-s] [-H N] [-c N] [--btf_base=B] [-jN] FILE
  pahole --selfmade=N [-jN]

Options, before, between or behind the files:
  --btf_encode_detached=OUT  store the types of the files as BTF in OUT
  --btf_base=B               store only what the BTF file B lacks; with -F btf,
                             read FILE over B
  --funcs                    store functions, too
  -C NAMES                   print the types of these names alone: NAME,NAME,..
  -s                         print only name, size and number of holes of each
  -H N                       print only types with N holes or more
  -c N                       the size of a cache line in bytes, by default 64
  -F FORMAT                  what FILE is: dwarf (ELF, the default) or btf
  -jN                        N threads, 1 to 256, by default 1
  --selfmade=N               encode a file that is made from the number N
  --                         make each later argument a file

As the only argument:
  --help                     print this page
  --version                  print the version
  --explain=N                print what error N means and what to do; for a
                             usage code, usage1 to usage7

Exit status:
  0  done
  1  a file has an error, or the table of all files has
  2  the command line is wrong
  3  a file is missing, or reading, storing or printing failed
  4  memory ran out
  5  no type that can be shown has a name that -C gives

The manual is `man pahole`; in the repository `man -l docs/man/pahole.1`.
";
