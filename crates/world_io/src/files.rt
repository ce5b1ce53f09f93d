//! Files that are held in memory, and the stops of a world in memory.
use dw_base::{Bytes, Listed};

/// A file: its name and its bytes.
#[derive(Drop)]
pub struct HeldFile {
    pub name: Bytes,
    pub bytes: Bytes,
}

/// A list of files. Of two files of one name the first counts. Contracts see it as the list.
pub type Files = Listed<HeldFile>;

/// The call of number `call` fails after it took `takes` bytes. Loads, prints, complaints and
/// stores are counted together, from 0.
#[derive(Clone, Copy, PartialEq, Eq)]
pub struct Stop {
    pub call: u64,
    pub takes: u64,
}

/// A list of stops. Of two stops of one call the first counts. Contracts see it as the list.
pub type Stops = Listed<Stop>;
