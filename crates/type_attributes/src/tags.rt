//! Tags that compilers write beside those of the standard.
use dwarf_abbrev::constants::DwTag;

/// An annotation, as compilers write it beside the standard: a name and a value for the entry that
/// is its parent.
pub const DW_TAG_GNU_annotation: DwTag = 0x6000;
