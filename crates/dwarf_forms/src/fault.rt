//! Why a value, or what it stands for, can't be read.
use dw_base::InfoOffset;
use dwarf_abbrev::constants::{DwAt, DwForm};
use thiserror::Error;

/// Why a value can't be read, or isn't what is asked for.
#[derive(Clone, Copy, Debug, PartialEq, Eq, Error)]
pub enum FormFault {
    /// The LEB128 number that begins at this offset of `.debug_info` doesn't fit 64 bits.
    #[error("the number at {0} does not fit 64 bits")]
    LebWide(InfoOffset),
    /// This form is unknown, or is one that an indirect form can't name.
    #[error("the form {0} is unknown")]
    FormUnknown(DwForm),
    /// The value of this attribute passes the end of its unit.
    #[error("the value of the attribute {0} is cut off")]
    ValueTruncated(DwAt),
    /// No text begins at this offset of its section of strings.
    #[error("no string begins at {0}")]
    StringOut(u64),
    /// `.debug_str_offsets` has no number at this index.
    #[error("no string has the index {0}")]
    StrxOut(u64),
    /// This form refers into a supplementary file, which isn't read.
    #[error("the form {0} refers into another file")]
    AltForm(DwForm),
    /// The value of this attribute, of this form, isn't of a class that can be asked for here.
    #[error("the attribute {0} has the form {1}")]
    WrongClass(DwAt, DwForm),
}
