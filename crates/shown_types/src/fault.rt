//! Why types are not shown.
ghost use Rattle.std.specs.Prelude.{◌≡◌};
ghost use Rattle.shown_types.specs.declared.fault.ShowFault.TheVariants.{Memory};

use layout_printer::LayoutFault;
use std::alloc::{AllocError, AllocFailed};
use thiserror::Error;

/// Why types are not shown.
#[derive(Clone, Copy, Debug, PartialEq, Eq, Error)]
pub enum ShowFault {
    /// The name in this place of the list, counted from 0, is that of no type that can be shown.
    #[error("no type has the name {0}")]
    NoName(u32),
    /// The type of this id is a member's, and it has no size. 0 is void.
    #[error("type {0} has no size")]
    NoSize(u32),
    #[error("out of memory")]
    Memory,
}

impl From<AllocError> for ShowFault {
    ghost from_gives = { λ _ e. e ≡ Memory };

    fn from(_e: AllocError) -> ShowFault {
        ShowFault::Memory
    }
}

impl<T: Drop> From<AllocFailed<T>> for ShowFault {
    ghost from_gives = { λ _ e. e ≡ Memory };

    fn from(_e: AllocFailed<T>) -> ShowFault {
        ShowFault::Memory
    }
}
