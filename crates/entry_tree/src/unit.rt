//! Units of `.debug_info`, and why a header is refused.
use dw_base::{InfoOffset, Listed};
use std::alloc::AllocFailed;
use thiserror::Error;

/// The header of a unit (DWARF 5, section 7.5.1; DWARF 4, section 7.5.1.1). All offsets count from
/// the first byte of `.debug_info`.
#[derive(Clone, Copy, Debug, PartialEq, Eq)]
pub struct Unit {
    /// The offset of the unit's first byte.
    pub at: InfoOffset,
    /// The offset of its first entry.
    pub first: InfoOffset,
    /// The offset after its last byte.
    pub end: InfoOffset,
    /// The offset of its abbreviations in `.debug_abbrev`.
    pub abbrev_at: u64,
    /// How many bytes its addresses have, 4 or 8.
    pub address_bytes: u32,
    /// How many bytes its offsets have, 4 or 8.
    pub offset_bytes: u32,
    /// The version of DWARF, 4 or 5.
    pub version: u16,
    /// A DW_UT number: 1 for a compilation unit, 3 for a partial unit. Headers of version 4 don't
    /// say it; it is 1 there.
    pub unit_type: u8,
}

/// Why there is no list of units. The first number is the offset of the unit's first byte.
#[derive(Clone, Copy, Debug, PartialEq, Eq, Error)]
pub enum UnitFault {
    /// The length is cut off or reserved, the unit passes the section's end, or the header passes
    /// the unit's.
    #[error("the unit at {0} has a wrong length")]
    UnitLength(u64),
    /// The version is neither 4 nor 5.
    #[error("the unit at {0} has the version {1}")]
    UnitVersion(u64, u16),
    /// The unit of version 5 is of a type that is not read.
    #[error("the unit at {0} has the type {1}")]
    UnitType(u64, u8),
    /// The addresses have neither 4 nor 8 bytes.
    #[error("the unit at {0} has addresses of {1} bytes")]
    AddressSize(u64, u8),
    #[error("out of memory")]
    Memory,
}

impl<T: Drop> From<AllocFailed<T>> for UnitFault {
    ghost use Rattle.std.specs.Prelude.{◌≡◌};
    ghost use Rattle.entry_tree.specs.declared.unit.UnitFault.TheVariants.{Memory};

    ghost from_gives = { λ _ e. e ≡ Memory };

    fn from(_e: AllocFailed<T>) -> UnitFault {
        UnitFault::Memory
    }
}

/// The units of a section in the order of its bytes. Contracts see it as the list.
pub type UnitList = Listed<Unit>;
