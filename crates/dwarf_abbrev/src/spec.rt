//! Attribute specifications.
use crate::constants::{DwAt, DwForm};

/// One attribute of an abbreviation: its name and the form of its value (DWARF 5, section 7.5.3).
#[derive(Clone, Copy, PartialEq, Eq)]
pub struct Spec {
    /// The code of the attribute, a DW_AT number.
    pub attribute: DwAt,
    /// The code of the form, a DW_FORM number.
    pub form: DwForm,
    /// The value that the abbreviation itself holds where the form is DW_FORM_implicit_const, else
    /// 0.
    pub implicit: i64,
}
