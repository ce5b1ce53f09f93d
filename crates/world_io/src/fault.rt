//! What a call of a world answers in place of success.
use thiserror::Error;

/// Why a file is not loaded.
#[derive(Clone, Copy, Debug, PartialEq, Eq, Error)]
pub enum LoadFault {
    /// The world failed. Its count of failed loads rose.
    #[error("the file cannot be read")]
    Failed,
    /// The world tells its files and has none of the name.
    #[error("there is no such file")]
    Missing,
    /// The file has more bytes than were asked for.
    #[error("the file is too large")]
    TooLarge,
    /// There is no memory for the file's bytes.
    #[error("out of memory")]
    Memory,
}

/// Why bytes are not printed or stored.
#[derive(Clone, Copy, Debug, PartialEq, Eq, Error)]
pub enum OutFault {
    /// The world failed. Its count of that kind of call rose.
    #[error("the bytes cannot be written")]
    Failed,
    /// There is no memory to take the bytes. Nothing was written.
    #[error("out of memory")]
    Memory,
}

/// A complaint did not go out whole. The world's count of failed complaints rose.
#[derive(Clone, Copy, Debug, PartialEq, Eq, Error)]
#[error("the bytes cannot be written")]
pub struct Failed;
