//! BTF files: the table of types that the bytes of a file spell (the Linux kernel's BTF
//! documentation, "BTF Header", "String Encoding" and "Type Encoding").
//!
//! A file is a header of 24 bytes (`struct btf_header`), the types, and the strings, in the byte
//! order that the magic number shows. A type is a row of words of 4 bytes: `name_off`, `info` and
//! `size` or `type` (`struct btf_type`), and what its kind adds to them. A table over a base goes
//! on from the base's ids and string offsets, and without own strings its string section is empty;
//! a table without a base has the empty string at least.
//!
//! Work grows linearly with the bytes of the file and with the types and strings of the base.
#![tactic(auto)]

mod decoded;
pub mod fault;
mod file;
mod format;
pub mod laws;
mod layout;
mod offsets;
mod pieces;
pub mod reader;
mod shared;
pub mod table;
mod words;
pub mod writer;

pub use fault::BtfFault;
pub use laws::{bytes_need_no_memory, spelled_once, stored_is_read, written_is_read};
pub use reader::read;
pub use table::{Table, TableOut};
pub use writer::write;
