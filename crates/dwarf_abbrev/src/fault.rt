//! Why a table of abbreviations is refused.
use std::alloc::{AllocError, AllocFailed};
use thiserror::Error;

/// Why a table is refused. Offsets count bytes from the beginning of `.debug_abbrev`.
#[derive(Clone, Copy, Debug, PartialEq, Eq, Error)]
pub enum AbbrevFault {
    /// The section ends before the abbreviation at this offset does.
    #[error("the abbreviation at {0} is cut off")]
    AbbrevTruncated(u64),
    /// The abbreviation at this offset has this code, which an earlier one has too.
    #[error("the abbreviation at {0} has the code {1} again")]
    AbbrevTwice(u64, u64),
    /// The number that begins at this offset doesn't fit 64 bits.
    #[error("the number at {0} does not fit 64 bits")]
    LebWide(u64),
    /// The children byte at this offset is this one, and neither 0 nor 1.
    #[error("the children byte at {0} is {1}")]
    ChildrenByte(u64, u8),
    /// Memory can't be found.
    #[error("out of memory")]
    Memory,
}

impl From<AllocError> for AbbrevFault {
    ghost use Rattle.std.specs.Prelude.{◌≡◌};
    ghost use Rattle.dwarf_abbrev.specs.declared.fault.AbbrevFault.TheVariants.{Memory};

    ghost from_gives = { λ _ e. e ≡ Memory };

    fn from(_e: AllocError) -> AbbrevFault {
        AbbrevFault::Memory
    }
}

impl<T: Drop> From<AllocFailed<T>> for AbbrevFault {
    ghost use Rattle.std.specs.Prelude.{◌≡◌};
    ghost use Rattle.dwarf_abbrev.specs.declared.fault.AbbrevFault.TheVariants.{Memory};

    ghost from_gives = { λ _ e. e ≡ Memory };

    fn from(_e: AllocFailed<T>) -> AbbrevFault {
        AbbrevFault::Memory
    }
}
