//! Why bytes spell no table.
ghost use Rattle.std.specs.Prelude.{◌≡◌};
ghost use Rattle.btf_codec.specs.declared.fault.BtfFault.TheVariants.{Memory};

use std::alloc::{AllocError, AllocFailed};
use thiserror::Error;

/// The first fault of the bytes, by the order of the reader's checks. The `u64` is the offset of
/// the faulty piece in the file, in bytes; the `u32` after it is the id of the type there.
#[derive(Clone, Copy, Debug, PartialEq, Eq, Error)]
pub enum BtfFault {
    /// The first two bytes are no magic number, or that of a byte order that isn't wanted.
    #[error("the magic number")]
    BtfMagic,
    /// The bytes are fewer than the header's 24, or a field of the header has another value than
    /// in a file of version 1 whose strings follow the types and end the file.
    #[error("the header")]
    BtfHeader,
    /// The section of the types ends inside the type that begins there.
    #[error("cut off at {0}")]
    BtfTruncated(u64),
    /// No kind has the number that the type's info word has in bits 24 to 28.
    #[error("type {1} at {0} has the kind {2}")]
    BtfKind(u64, u32, u8),
    /// The info word sets a bit that has no meaning for the kind, or a word that is 0 in each type
    /// of the kind has another value.
    #[error("the info of type {1} at {0}")]
    BtfInfo(u64, u32),
    /// The last number is the offset of a name, in bytes from the beginning of the base's strings,
    /// past the end of all strings.
    #[error("type {1} at {0} has a name at {2}")]
    BtfName(u64, u32, u32),
    /// The last number is an id past the last type.
    #[error("type {1} at {0} refers to {2}")]
    BtfRef(u64, u32, u32),
    /// The strings don't end with NUL, or without a base they don't begin with one.
    #[error("the strings at {0}")]
    BtfStrings(u64),
    /// Memory ran out.
    #[error("out of memory")]
    Memory,
}

impl From<AllocError> for BtfFault {
    ghost from_gives = { λ _ e. e ≡ Memory };

    fn from(_e: AllocError) -> BtfFault {
        BtfFault::Memory
    }
}

impl<T: Drop> From<AllocFailed<T>> for BtfFault {
    ghost from_gives = { λ _ e. e ≡ Memory };

    fn from(_e: AllocFailed<T>) -> BtfFault {
        BtfFault::Memory
    }
}
