//! Why types make no table.
ghost use Rattle.std.specs.Prelude.{◌≡◌};
ghost use Rattle.split_base.specs.declared.fault.TableFault.TheVariants.{Memory};

use std::alloc::AllocError;
use thiserror::Error;

/// Why types make no table.
#[derive(Clone, Copy, Debug, PartialEq, Eq, Error)]
pub enum TableFault {
    /// The graph would have so many nodes, more than it may have.
    #[error("{0} nodes")]
    NodesTooMany(u64),
    /// The table would have so many types, more than there are ids.
    #[error("{0} types")]
    TooManyTypes(u64),
    /// A name would stand at this offset in bytes, past the last that a type can say.
    #[error("a name would stand at {0}")]
    NamesTooLong(u64),
    /// The types and the strings would take so many bytes, more than a header can say.
    #[error("{0} bytes")]
    TableTooLong(u64),
    #[error("out of memory")]
    Memory,
}

impl From<AllocError> for TableFault {
    ghost from_gives = { λ _ e. e ≡ Memory };

    fn from(_e: AllocError) -> TableFault {
        TableFault::Memory
    }
}
