//! What entries say of the types of a unit (DWARF 5, sections 4 and 5): names, numbers, flags,
//! references and members' positions, what a type's label is made of, and types without children.
//!
//! - Of the refusals of a unit's types the first counts: by the entry's offset, then by number,
//!   then by what it keeps. So each reader goes on after a refusal, which it notes, and what it
//!   gives back counts only where none is noted in the end.
//! - Bit fields by DW_AT_bit_offset (DWARF 4, section 5.5.6) are read in units of DWARF 4 and 5
//!   alike. DWARF 5 dropped the attribute, but compilers (clang 14 and 15) went on writing it, and
//!   without it layouts are wrong in silence. They also write a negative one, of a field that does
//!   not fit its storage, as the 8 bytes of its two's complement (DW_FORM_data8): so it is read.
//! - In a little-endian file such a bit field counts from the end of its storage, whose size is the
//!   member's own byte_size, else that of its type. At most 64 typedefs, qualifiers and atomic
//!   types are followed to it, since a chain may be a ring. What is wrong on that way only means
//!   that no storage is found, which refuses the member. Only a unit with such a member reads what
//!   its entries say of their sizes.
//!
//! A call whose comment says nothing of its work takes constant time.
#![tactic(auto)]

pub mod attributes;
pub mod base;
pub mod extents;
pub mod fault;
pub mod labels;
pub mod number;
pub mod positions;
pub mod references;
pub mod scope;
mod shared;
pub mod source;
pub mod tags;
