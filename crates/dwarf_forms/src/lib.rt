//! Values of attributes, by their forms (DWARF 5, sections 7.5.4 to 7.5.6), and what they stand
//! for.
//!
//! - A value is read by the bytes of its unit alone. A form is looked at before the value's bytes:
//!   an unknown form is refused as such also where no byte is left.
//! - A flag is true for every byte but 0, and the forms data1 to data8 are never signed.
//! - A form that refers into a supplementary file (strp_sup, ref_sup4, ref_sup8, ref_sig8 and the
//!   two forms of GNU) is read by its bytes, and refused only where what it stands for is asked
//!   for: attributes that nobody reads are passed over.
//!
//! `FormCtx::strings` and `FormCtx::line_strings` are `dw_base::TextSection`, and not the bytes
//! alone: the ends of the texts are found once, and then a text costs no look at its bytes. So
//! files whose texts share one long tail stay linear. `TextSection::new` makes one of bytes, without
//! the ends.
//!
//! No call of this crate takes memory: texts, blocks and expressions are slices of their sections.
#![tactic(auto)]

pub mod direct;
pub mod fault;
pub mod given;
pub mod law;
pub mod layout;
pub mod meaning;
pub mod reading;
mod shared;

pub use direct::{byte_offset_at, constant_at, name_at, target_at};
pub use fault::FormFault;
pub use given::{FormCtx, FormValue, Given};
pub use meaning::{byte_offset_of, constant_of, flag_of, name_of, target_of};
pub use reading::{skip, unit_of, value};
