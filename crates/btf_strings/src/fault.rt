//! Why a name gets no offset.
ghost use Rattle.std.specs.Prelude.{◌≡◌};
ghost use Rattle.btf_strings.specs.declared.fault.StringsFault.TheVariants.{Memory};

use std::alloc::{AllocError, AllocFailed};
use thiserror::Error;

/// Why a name was not put.
#[derive(Clone, Copy, Debug, PartialEq, Eq, Error)]
pub enum StringsFault {
    /// The name is new, and the offset that it would have, in bytes from the beginning of the
    /// base's strings, is past `LAST_OFFSET`.
    #[error("the name would stand at {0}")]
    Full(u64),
    /// Memory ran out.
    #[error("out of memory")]
    Memory,
}

impl From<AllocError> for StringsFault {
    ghost from_gives = { λ _ e. e ≡ Memory };

    fn from(_e: AllocError) -> StringsFault {
        StringsFault::Memory
    }
}

impl<T: Drop> From<AllocFailed<T>> for StringsFault {
    ghost from_gives = { λ _ e. e ≡ Memory };

    fn from(_e: AllocFailed<T>) -> StringsFault {
        StringsFault::Memory
    }
}
