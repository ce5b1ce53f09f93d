//! A case: a run and its whole answer.
use dw_base::Limits;
use std::alloc::Global;
use world_io::{Files, Stops};

/// A run and its whole answer.
#[derive(Drop)]
pub struct Case {
    /// The words of the command line after the program's name.
    pub words: Vec<String>,
    /// The files that there are.
    pub files: Files,
    /// The calls of the world that fail.
    pub stops: Stops,
    /// The limits of the run.
    pub limits: Limits,
    /// The exit status.
    pub status: u64,
    /// What is complained.
    pub complaint: Vec<u8>,
    /// What is printed.
    pub printed: Vec<u8>,
    /// What is stored under `o`, if anything is.
    pub stored: Option<Vec<u8>>,
}
