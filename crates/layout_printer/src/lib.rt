//! How structures and unions lie in memory, and the text that shows it.
//!
//! A layout gives each member its first bit, its bits and the bits before it that no earlier member
//! lies below; and the bits behind all members. The text is that of pahole(1), in this project's
//! profile.
//!
//! What was chosen, and why:
//!
//! - **Void counts among the 64 types that a declaration follows**; the next one is written `...`.
//!   Inside parameters every list of parameters is written `...`.
//! - **A type tag is written as an attribute**, `__attribute__((btf_type_tag("NAME")))`: behind the
//!   type part, so between a star and its type, and before the name where what is tagged is a
//!   pointer. Of several tags of one pointer the inner one, which is nearer to its type, stands
//!   first.
//! - **A size is none** in a cycle, for more steps than the table has types, and past 2^60 bytes;
//!   each array on the way is held against 2^60. An array of 0 elements of a type without a size
//!   has none.
//! - **The sizes of a table are found once, before many layouts**: `layout_by_sizes` takes them in
//!   place of a width of pointers, which they keep. Where each member follows its types by itself,
//!   a hostile table with a long chain of typedefs and many members at its end takes members times
//!   types steps; so each type is passed once. A type on the way counts as one without a size
//!   until the way back, so a cycle ends and its types have none. That as many steps as the table
//!   has types are enough is a law of the definitions (`proofs/Chains.antt`): a chain that passes
//!   more would pass a type twice.
//! - **The sum of members is the sum of all their bits, divided by 8 once.** A hole of 12 bits is
//!   one byte and 4 bits.
//! - **A hole behind a bit field is counted from its last bit on**, in whole bytes and bits: 31
//!   bits are a hole of 3 bytes and one of 7 bits. Debian's pahole 1.24 counts them as bits of the
//!   field's type, so it tells fewer holes of bytes there. Sizes are the same.
#![tactic(auto)]

mod declaration;
mod finding;
pub mod laws;
mod lines;
mod lookups;
mod pieces;
pub mod placing;
mod shapes;
pub mod sizes;
pub mod slots;
mod summary;
pub mod texts;

pub use laws::bits_add_up;
pub use placing::{layout, layout_by_sizes};
pub use sizes::{Sizes, pointer_of, sizes_of};
pub use slots::{LayoutFault, Slot, Slots, TypeLayout};
pub use texts::{sizes_line, text};
