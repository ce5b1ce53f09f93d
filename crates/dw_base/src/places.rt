//! Places of faults, and the limits of a run.

/// An offset in bytes from the beginning of `.debug_info`.
pub type InfoOffset = u64;

/// The part of the input or output that an offset counts in.
#[derive(Clone, Copy, PartialEq, Eq)]
pub enum Section {
    /// The file itself.
    Image,
    /// `.debug_info`
    Info,
    /// `.debug_abbrev`
    Abbrev,
    /// `.debug_str`
    Str,
    /// `.debug_line_str`
    LineStr,
    /// `.debug_str_offsets`
    StrOffsets,
    /// A BTF file.
    Btf,
    /// The table of types that is being made.
    Table,
}

/// Where something is wrong: an offset in bytes from the beginning of a section.
#[derive(Clone, Copy, PartialEq, Eq)]
pub struct Place {
    pub section: Section,
    pub at: u64,
}

/// How much a run may load and hold.
#[derive(Clone, Copy, PartialEq, Eq)]
pub struct Limits {
    /// Bytes of one file.
    pub file_bytes: u64,
    /// Bytes of all files together.
    pub all_bytes: u64,
    /// Types of all files and the base together.
    pub nodes: u32,
}

/// The limits of the shipped program: files of 1 GiB, 2 GiB in all, and 8,388,608 types.
pub const SHIPPED: Limits = Limits {
    file_bytes: 1_073_741_824,
    all_bytes: 2_147_483_648,
    nodes: 8_388_608,
};
