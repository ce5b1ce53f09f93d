//! A run of a case over a world in memory.
use crate::case::Case;
use dw_base::{Bytes, Limits, SHIPPED};
use pahole_run::run;
use std::alloc::{AllocError, Global};
use std::thread::Threads;
use world_io::{Files, HeldFile, MemoryWorld, OpenGate, Stops};

/// What a run left, and its status.
#[derive(Drop)]
pub struct Ran {
    pub world: MemoryWorld,
    pub status: u64,
}

/// Copies of files, of each at most so many bytes.
pub fn copies_of(alloc: Global, files: &Files, most: u64) -> Result<Files, AllocError> {
    let mut copies = Vec::new(alloc);
    for file in files.items() {
        let bytes = file.bytes.items();
        let kept = most.min(bytes.len() as u64) as usize;
        copies.push(HeldFile {
            name: Bytes::new(Vec::from_slice(alloc, file.name.items())?),
            bytes: Bytes::new(Vec::from_slice(alloc, &bytes[..kept])?),
        })?;
    }
    Ok(Files::new(copies))
}

/// Runs a case over copies of its files, with these stops. No limit is above the program's own.
pub fn run_with<R: Threads + Sync>(
    rt: &R,
    alloc: Global,
    case: &Case,
    stops: Stops,
) -> Result<Ran, AllocError> {
    let limits = Limits {
        file_bytes: case.limits.file_bytes.min(SHIPPED.file_bytes),
        all_bytes: case.limits.all_bytes.min(SHIPPED.all_bytes),
        nodes: case.limits.nodes,
    };
    let mut world = MemoryWorld::new(alloc, copies_of(alloc, &case.files, u64::MAX)?, stops)?;
    let status = run(
        rt,
        alloc,
        &mut world,
        &OpenGate,
        limits,
        case.words.as_slice(),
    );
    Ok(Ran {
        world,
        status: u64::from(status),
    })
}

/// Whether a run answered all that its case says.
pub fn is_whole(case: &Case, ran: &Ran) -> bool {
    ran.status == case.status
        && ran.world.complained() == case.complaint.as_slice()
        && ran.world.printed() == case.printed.as_slice()
        && ran.world.stored("o") == case.stored.as_deref()
}
