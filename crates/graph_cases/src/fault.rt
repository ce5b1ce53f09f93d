//! Why a case can't be decided.
use split_base::TableFault;
use std::alloc::{AllocError, AllocFailed};
use std::io;
use thiserror::Error;

/// Why a case can't be decided.
#[derive(Clone, Copy, Debug, Error)]
pub enum CaseFault {
    /// A graph is none that types of files and bases make.
    #[error("a graph that is none of types")]
    Unfit,
    /// Two ways to the classes find different ones.
    #[error("classes by rounds and by halves differ")]
    Differs,
    /// A graph has no table, and should have one.
    #[error("a graph without a table: {0}")]
    Table(TableFault),
    #[error("out of memory")]
    Memory,
    #[error("nothing can be printed")]
    Output,
}

impl From<AllocError> for CaseFault {
    fn from(_e: AllocError) -> CaseFault {
        CaseFault::Memory
    }
}

impl<T: Drop> From<AllocFailed<T>> for CaseFault {
    fn from(_e: AllocFailed<T>) -> CaseFault {
        CaseFault::Memory
    }
}

impl From<io::Error> for CaseFault {
    fn from(_e: io::Error) -> CaseFault {
        CaseFault::Output
    }
}
