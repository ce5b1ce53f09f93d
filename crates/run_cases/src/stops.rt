//! Runs of a case in which one call of the world fails, each call in turn, after each number of
//! bytes.
use crate::case::Case;
use crate::runs::{Ran, is_whole, run_with};
use std::alloc::{AllocError, Global};
use std::thread::Threads;
use world_io::{Stop, Stops};

/// More calls than a run of a case makes, its complaint's pieces among them.
const CALLS: u64 = 64;

/// How often a case was run, and how many of these runs went wrong.
#[derive(Clone, Copy)]
pub struct RunCount {
    pub runs: u64,
    pub differ: u64,
}

impl RunCount {
    /// Nothing was run yet.
    pub fn new() -> RunCount {
        RunCount { runs: 0, differ: 0 }
    }

    /// Counts a run.
    pub fn count(&mut self, right: bool) {
        self.runs = self.runs.saturating_add(1);
        if !right {
            self.differ = self.differ.saturating_add(1);
        }
    }
}

/// Runs a case with each call of the world stopped in turn.
pub fn stop_each<R: Threads + Sync>(
    rt: &R,
    alloc: Global,
    case: &Case,
    tally: &mut RunCount,
) -> Result<(), AllocError> {
    for call in 0..CALLS {
        if !stop_call(rt, alloc, case, call, tally)? {
            return Ok(());
        }
    }
    Ok(())
}

/// Runs a case with one call stopped, after each number of bytes up to one more than it puts out;
/// whether there is such a call.
fn stop_call<R: Threads + Sync>(
    rt: &R,
    alloc: Global,
    case: &Case,
    call: u64,
    tally: &mut RunCount,
) -> Result<bool, AllocError> {
    let mut is_there = false;
    for takes in 0..most_bytes(case).saturating_add(2) {
        let stop = Stops::new(Vec::from_slice(alloc, &[Stop { call, takes }])?);
        let ran = run_with(rt, alloc, case, stop)?;
        let faults = ran.world.faults();
        is_there = is_there
            || faults.loads > 0
            || faults.prints > 0
            || faults.stores > 0
            || faults.complaints > 0;
        tally.count(ends_well(case, call, takes, &ran));
    }
    Ok(is_there)
}

/// The most bytes that a call of a case puts out.
fn most_bytes(case: &Case) -> u64 {
    let stored = match &case.stored {
        Some(bytes) => bytes.len(),
        None => 0,
    };
    stored.max(case.printed.len()).max(case.complaint.len()) as u64
}

/// Whether a run with a stopped call ended as it has to: with status 3, the complaint of that call,
/// and a beginning of the output where it was put out; where a complaint failed, as without a stop,
/// with a beginning of the complaint.
fn ends_well(case: &Case, call: u64, takes: u64, ran: &Ran) -> bool {
    let faults = ran.world.faults();
    let (complained, printed, stored) = (
        ran.world.complained(),
        ran.world.printed(),
        ran.world.stored("o"),
    );
    if faults.loads > 0 {
        return ran.status == 3
            && tells_load(case, call, complained)
            && printed.is_empty()
            && stored.is_none();
    }
    if faults.prints > 0 {
        return ran.status == 3
            && complained == b"pahole: cannot print\n".as_slice()
            && printed == beginning(case.printed.as_slice(), takes)
            && stored.is_none();
    }
    if faults.stores > 0 {
        let wanted = case.stored.as_deref().unwrap_or(&[]);
        return ran.status == 3
            && complained == b"pahole: cannot store o\n".as_slice()
            && printed.is_empty()
            && stored == Some(beginning(wanted, takes));
    }
    if faults.complaints > 0 {
        return ran.status == case.status
            && case.complaint.as_slice().starts_with(complained)
            && printed == case.printed.as_slice()
            && stored == case.stored.as_deref();
    }
    is_whole(case, ran)
}

/// At most so many bytes from the beginning.
fn beginning(bytes: &[u8], most: u64) -> &[u8] {
    if most < bytes.len() as u64 {
        &bytes[..most as usize]
    } else {
        bytes
    }
}

/// Whether the next word is the value of an option.
fn takes_value(word: &str) -> bool {
    matches!(word, "-C" | "-H" | "-c" | "-F")
}

/// Whether a complaint tells that the load of this number failed: the files are loaded in the order
/// of the words, and then the base.
fn tells_load(case: &Case, call: u64, complained: &[u8]) -> bool {
    let Some(rest) = complained.strip_prefix(b"pahole: cannot read ") else {
        return false;
    };
    let Some(name) = rest.strip_suffix(b"\n") else {
        return false;
    };
    let mut load = 0u64;
    let mut is_value = false;
    for word in case.words.iter() {
        let word = word.as_str();
        let is_file = !is_value && !word.starts_with("-");
        is_value = takes_value(word);
        if is_file && load == call {
            return word.as_bytes() == name;
        }
        if is_file {
            load = load.saturating_add(1);
        }
    }
    load == call && name == b"B".as_slice()
}
