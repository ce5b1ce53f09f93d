//! A world in memory with stops, and the host with a file of this crate.
use crate::objects::{PLAIN, built};
use dw_base::Bytes;
use std::alloc::{AllocError, Global};
use std::test::Fail;
use world_io::fault::LoadFault;
use world_io::files::{Files, HeldFile, Stop, Stops};
use world_io::host::HostWorld;
use world_io::memory::{Faults, MemoryWorld};
use world_io::world::World;

/// The files of the world: `a` of three bytes.
fn files(alloc: Global) -> Result<Files, AllocError> {
    let mut files = Vec::new(alloc);
    files.push(HeldFile {
        name: Bytes::new(Vec::from_slice(alloc, b"a")?),
        bytes: Bytes::new(Vec::from_slice(alloc, b"xyz")?),
    })?;
    Ok(Files::new(files))
}

/// A world with these files, whose call of this number stops.
fn stopping(alloc: Global, call: u64, takes: u64) -> Result<MemoryWorld, AllocError> {
    let files = files(alloc)?;
    let mut stops = Vec::new(alloc);
    stops.push(Stop { call, takes })?;
    MemoryWorld::new(alloc, files, Stops::new(stops))
}

/// Whether a load answers so, and leaves these bytes.
fn loads<W: World>(
    world: &mut W,
    into: &mut Vec<u8>,
    file: (&str, u32),
    wanted: (Result<(), LoadFault>, &[u8]),
) -> bool {
    let answer = world.load(file.0, u64::from(file.1), into);
    answer == wanted.0 && into.as_slice() == wanted.1
}

/// The call that stops, and how many bytes it takes, and what a load, a print, a complaint and a
/// store leave.
struct Stopped {
    call: u64,
    takes: u64,
    loaded: (Result<(), LoadFault>, &'static [u8]),
    printed: &'static [u8],
    complained: &'static [u8],
    stored: &'static [u8],
}

const STOPPED: &[Stopped] = &[
    Stopped {
        call: 9,
        takes: 0,
        loaded: (Ok(()), b"xyz"),
        printed: b"12345",
        complained: b"67",
        stored: b"890",
    },
    Stopped {
        call: 0,
        takes: 2,
        loaded: (Err(LoadFault::Failed), b"xy"),
        printed: b"12345",
        complained: b"67",
        stored: b"890",
    },
    Stopped {
        call: 1,
        takes: 4,
        loaded: (Ok(()), b"xyz"),
        printed: b"1234",
        complained: b"67",
        stored: b"890",
    },
    Stopped {
        call: 2,
        takes: 0,
        loaded: (Ok(()), b"xyz"),
        printed: b"12345",
        complained: b"",
        stored: b"890",
    },
    Stopped {
        call: 3,
        takes: 2,
        loaded: (Ok(()), b"xyz"),
        printed: b"12345",
        complained: b"67",
        stored: b"89",
    },
    Stopped {
        call: 3,
        takes: 9,
        loaded: (Ok(()), b"xyz"),
        printed: b"12345",
        complained: b"67",
        stored: b"890",
    },
];

fn prints(world: &mut MemoryWorld, row: &Stopped) -> bool {
    world.print(b"12345").is_err() == (row.call == 1) && *world.printed() == *row.printed
}

fn complains(world: &mut MemoryWorld, row: &Stopped) -> bool {
    world.complain(b"67").is_err() == (row.call == 2) && *world.complained() == *row.complained
}

fn stores(world: &mut MemoryWorld, row: &Stopped) -> bool {
    let failed = world.store("o", b"890").is_err();
    match world.stored("o") {
        Some(bytes) => failed == (row.call == 3) && *bytes == *row.stored,
        None => false,
    }
}

/// The counts of faults after this call has failed.
fn faults_of(call: u64) -> Faults {
    Faults {
        loads: u64::from(call == 0),
        prints: u64::from(call == 1),
        complaints: u64::from(call == 2),
        stores: u64::from(call == 3),
    }
}

/// Whether a world does as a row says, and then refuses two loads, since there is no such file and
/// since it is too large.
fn is_stopped(world: &mut MemoryWorld, into: &mut Vec<u8>, row: &Stopped) -> bool {
    loads(world, into, ("a", 9), row.loaded)
        && prints(world, row)
        && complains(world, row)
        && stores(world, row)
        && loads(world, into, ("b", 9), (Err(LoadFault::Missing), b""))
        && loads(world, into, ("a", 2), (Err(LoadFault::TooLarge), b"xyz"))
        && world.faults() == faults_of(row.call)
}

/// The first row that a world does not do.
fn first_other(alloc: Global) -> Result<Option<usize>, AllocError> {
    let mut into = Vec::new(alloc);
    for (k, row) in STOPPED.iter().enumerate() {
        let mut world = stopping(alloc, row.call, row.takes)?;
        if !is_stopped(&mut world, &mut into, row) {
            return Ok(Some(k));
        }
    }
    Ok(None)
}

#[test]
fn stops_at_each_call(rt: HostRuntime) -> Result<(), Fail> {
    assert_eq!(rt; first_other(rt.alloc())?, None);
    Ok(())
}

/// Whether a world stores a file, gives its bytes again, refuses one byte less, fails at a file
/// that is not there, and gives a long file again.
fn are_kept<W: World>(world: &mut W, into: &mut Vec<u8>, file: &[u8], long: &[u8]) -> bool {
    world.store("one_int.elf", file).is_ok()
        && loads(world, into, ("one_int.elf", 400), (Ok(()), file))
        && loads(
            world,
            into,
            ("one_int.elf", 399),
            (Err(LoadFault::TooLarge), file),
        )
        && world.load("not_there.elf", 400, into) == Err(LoadFault::Failed)
        && world.store("long", long).is_ok()
        && loads(world, into, ("long", 1_000_000), (Ok(()), long))
}

/// The long file comes in several pieces.
#[test]
fn stores_and_loads_on_the_host(rt: HostRuntime) -> Result<(), Fail> {
    let file = built(rt.alloc(), PLAIN, &[])?;
    let long = vec![in rt.alloc(); 7u8; 200_000]?;
    let mut into = Vec::new(rt.alloc());
    let mut world = HostWorld::new(&rt);
    assert!(rt; are_kept(&mut world, &mut into, &file, &long));
    Ok(())
}
