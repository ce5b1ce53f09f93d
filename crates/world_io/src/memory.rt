//! A world in memory, whose calls fail where they are told to.
ghost use Rattle.std.specs.Prelude.{◌≡◌, ◌≤◌, ◌<◌, ◌+◌, ◌^◌, ◌⊎◌, ◌++◌, [], ◌∷◌, length, take};
ghost use Rattle.std.specs.Prelude.{vec_len, vec_capacity, None, Some, IfOk, OnOk, OnErr, IsErrOf};
ghost use Rattle.std.specs.Prelude.{IsSomeAnd, unwrap_or};
ghost use Rattle.std.specs.Option.{option_copied};
ghost use Rattle.std.specs.Io.{StartsWith};
ghost use Rattle.world_io.specs.Meaning.{file_of};
ghost use Rattle.world_io.specs.Cuts.{stop_at, cut};

use crate::fault::{Failed, LoadFault, OutFault};
use crate::files::{Files, HeldFile, Stop, Stops};
use crate::world::World;
use dw_base::Bytes;
use std::alloc::{AllocError, Global};

/// How many bytes may be complained in all.
const COMPLAINED: usize = 65_536;

/// How many calls of each kind failed.
#[derive(Clone, Copy, PartialEq, Eq)]
pub struct Faults {
    pub loads: u64,
    pub prints: u64,
    pub complaints: u64,
    pub stores: u64,
}

/// A world in memory. It tells all that it holds.
///
/// Its calls of all four kinds are counted from 0. A call that a stop names fails after so many
/// bytes. No other call fails, except a complaint past 65,536 bytes in all: it takes what fits and
/// fails.
#[derive(Drop)]
pub struct MemoryWorld {
    alloc: Global,
    files: Files,
    stops: Stops,
    printed: Vec<u8>,
    complained: Vec<u8>,
    stored: Vec<HeldFile>,
    turn: u64,
    calls: u64,
    faults: Faults,
    ghost room: { 65536 ≤ vec_capacity complained },
    ghost fits: { vec_len complained ≤ 65536 },
}

impl MemoryWorld {
    ghost use Rattle.std.specs.Prelude.{◌≡◌, Some, IfOk};
    ghost use Rattle.std.specs.Option.{option_copied};
    ghost use Rattle.world_io.specs.Memory.{meaning_of, IsNew};
    ghost use Rattle.world_io.specs.Calls.{raised, under};
    ghost use Rattle.world_io.specs.Turns.{Begins, TakesTurn, stop_of};

    /// A world of these files, with nothing printed, complained or stored and all numbers 0. It
    /// takes the memory for complaints.
    pub fn new(alloc: Global, files: Files, stops: Stops) -> Result<MemoryWorld, AllocError>
        ensures new { IfOk result (λ w. IsNew files (meaning_of w)) }
        ensures stops { IfOk result (λ w. Begins stops w) }
    {
        Ok(MemoryWorld {
            alloc,
            files,
            stops,
            printed: Vec::new(alloc),
            complained: Vec::with_capacity(alloc, COMPLAINED)?,
            stored: Vec::new(alloc),
            turn: 0,
            calls: 0,
            faults: Faults {
                loads: 0,
                prints: 0,
                complaints: 0,
                stores: 0,
            },
        })
    }

    /// What was printed.
    pub fn printed(&self) -> &[u8]
        ensures { (meaning_of self.now).printed ≡ Some result.now }
    {
        self.printed.as_slice()
    }

    /// What was complained.
    pub fn complained(&self) -> &[u8]
        ensures { (meaning_of self.now).complained ≡ Some result.now }
    {
        self.complained.as_slice()
    }

    /// What is stored under the name. `None` exactly where nothing is.
    pub fn stored(&self, name: &str) -> Option<&[u8]>
        ensures { under name.now (meaning_of self.now).stored ≡ Some (option_copied result) }
    {
        find(self.stored.as_slice(), name.as_bytes())
    }

    /// How many calls of each kind failed.
    pub fn faults(&self) -> Faults
        ensures loads { result.loads ≡ (meaning_of self.now).loads }
        ensures prints { result.prints ≡ (meaning_of self.now).prints }
        ensures complaints { result.complaints ≡ (meaning_of self.now).complaints }
        ensures stores { result.stores ≡ (meaning_of self.now).stores }
    {
        self.faults
    }
}

impl World for MemoryWorld {
    ghost use Rattle.std.specs.Prelude.{◌<◌, ◌^◌};
    ghost use Rattle.world_io.specs.Memory.{meaning_of};
    ghost use Rattle.world_io.specs.Calls.{Loads, Prints, Complains, Stores};
    ghost use Rattle.world_io.specs.Turns.{StopsLoad, StopsPrint, StopsComplaint, StopsStore};

    ghost meaning = { meaning_of };

    fn load(&mut self, name: &str, most: u64, into: &mut Vec<u8>) -> Result<(), LoadFault>
        requires { most < 2 ^ 32 }
        ensures loads { Loads (meaning_of self.old)
            (meaning_of self.new) name.now most into.new.items result }
        ensures stops { StopsLoad self.old self.new name.now most into.new.items result }
    {
        into.clear();
        self.calls = self.calls.saturating_add(1);
        let stop = takes_at(self.stops.items(), self.turn);
        self.turn = self.turn.saturating_add(1);
        let file = find(self.files.items(), name.as_bytes());
        if stop.is_none() {
            return load_whole(file, most, into);
        }
        if load_part(file, most, stop, into).is_err() {
            return Err(LoadFault::Memory);
        }
        self.faults.loads = self.faults.loads.saturating_add(1);
        Err(LoadFault::Failed)
    }

    fn print(&mut self, piece: &[u8]) -> Result<(), OutFault>
        ensures prints { Prints (meaning_of self.old) (meaning_of self.new) piece.now result }
        ensures stops { StopsPrint self.old self.new piece.now result }
    {
        self.calls = self.calls.saturating_add(1);
        let stop = takes_at(self.stops.items(), self.turn);
        self.turn = self.turn.saturating_add(1);
        if self
            .printed
            .extend_from_slice(part_of(piece, stop))
            .is_err()
        {
            return Err(OutFault::Memory);
        }
        if stop.is_some() {
            self.faults.prints = self.faults.prints.saturating_add(1);
            return Err(OutFault::Failed);
        }
        Ok(())
    }

    fn complain(&mut self, piece: &[u8]) -> Result<(), Failed>
        ensures complains { Complains (meaning_of self.old) (meaning_of self.new) piece.now result }
        ensures stops { StopsComplaint self.old self.new piece.now result }
    {
        let stop = takes_at(self.stops.items(), self.turn);
        self.turn = self.turn.saturating_add(1);
        let part = part_of(piece, stop);
        let room = COMPLAINED - self.complained.len();
        let fits = part.len() <= room;
        let part = if fits { part } else { &part[..room] };
        if self.complained.extend_from_slice(part).is_err() || !fits || stop.is_some() {
            self.faults.complaints = self.faults.complaints.saturating_add(1);
            return Err(Failed);
        }
        Ok(())
    }

    fn store(&mut self, name: &str, bytes: &[u8]) -> Result<(), OutFault>
        ensures stores { Stores (meaning_of self.old) (meaning_of self.new) name.now
            bytes.now result }
        ensures stops { StopsStore self.old self.new name.now bytes.now result }
    {
        self.calls = self.calls.saturating_add(1);
        let stop = takes_at(self.stops.items(), self.turn);
        self.turn = self.turn.saturating_add(1);
        let Ok(file) = new_file(self.alloc, name.as_bytes(), part_of(bytes, stop)) else {
            return Err(OutFault::Memory);
        };
        if put_first(&mut self.stored, file).is_err() {
            return Err(OutFault::Memory);
        }
        if stop.is_some() {
            self.faults.stores = self.faults.stores.saturating_add(1);
            return Err(OutFault::Failed);
        }
        Ok(())
    }
}

/// How many bytes the call of this number takes, where it stops.
fn takes_at(stops: &[Stop], call: u64) -> Option<u64>
    ensures { result ≡ stop_at stops.now call }
{
    for stop in stops {
        if stop.call == call {
            return Some(stop.takes);
        }
    }
    None
}

/// What a call takes of a piece.
fn part_of(piece: &[u8], stop: Option<u64>) -> &[u8]
    ensures part { StartsWith piece.now result.now }
    ensures cut { result.now ≡ cut stop piece.now }
{
    match stop {
        Some(takes) if takes < piece.len() as u64 => &piece[..takes as usize],
        _ => piece,
    }
}

/// The bytes of the first file of a name.
fn find<'f>(files: &'f [HeldFile], name: &[u8]) -> Option<&'f [u8]>
    ensures { option_copied result ≡ file_of name.now files.now }
{
    for file in files {
        if file.name.items() == name {
            return Some(file.bytes.items());
        }
    }
    None
}

/// At most this many bytes of a file, and one more.
fn front(bytes: &[u8], most: u64) -> &[u8]
    requires { most < 2 ^ 32 }
    ensures { result.now ≡ take (most + 1) bytes.now }
{
    if bytes.len() as u64 <= most {
        bytes
    } else {
        &bytes[..most as usize + 1]
    }
}

/// Copies a file's bytes, where there is no stop.
fn load_whole(file: Option<&[u8]>, most: u64, into: &mut Vec<u8>) -> Result<(), LoadFault>
    requires most { most < 2 ^ 32 }
    requires empty { into.old.items ≡ [] }
    ensures few { OnOk result (length into.new.items ≤ most) }
    ensures told { OnOk result (option_copied file.entry ≡ Some into.new.items) }
    ensures failed { result ≡ Err LoadFault.Failed → ⊥ }
    ensures missing { IsErrOf result LoadFault.Missing
        → (option_copied file.entry ≡ None) × (into.new.items ≡ []) }
    ensures too_large { IsErrOf result LoadFault.TooLarge → length into.new.items ≡ most + 1 }
    ensures large { IsErrOf result LoadFault.TooLarge
        → IsSomeAnd (option_copied file.entry) (λ bs. most < length bs) }
    ensures part { OnErr result (StartsWith (unwrap_or (option_copied file.entry) [])
        into.new.items) }
    ensures always_missing { option_copied file.entry ≡ None → IsErrOf result LoadFault.Missing }
    ensures always_too_large { IsSomeAnd (option_copied file.entry) (λ bs. most < length bs)
        → IsErrOf result LoadFault.TooLarge ⊎ IsErrOf result LoadFault.Memory }
{
    let Some(bytes) = file else {
        return Err(LoadFault::Missing);
    };
    if into.extend_from_slice(front(bytes, most)).is_err() {
        return Err(LoadFault::Memory);
    }
    if bytes.len() as u64 <= most {
        Ok(())
    } else {
        Err(LoadFault::TooLarge)
    }
}

/// Copies what a load takes before it fails.
fn load_part(
    file: Option<&[u8]>,
    most: u64,
    stop: Option<u64>,
    into: &mut Vec<u8>,
) -> Result<(), AllocError>
    requires most { most < 2 ^ 32 }
    requires empty { into.old.items ≡ [] }
    ensures ok { OnOk result
        (into.new.items ≡ cut stop (take (most + 1) (unwrap_or (option_copied file.entry) []))) }
    ensures err { OnErr result (into.new.items ≡ []) }
    ensures part { StartsWith (unwrap_or (option_copied file.entry) []) into.new.items }
{
    match file {
        Some(bytes) => into.extend_from_slice(part_of(front(bytes, most), stop)),
        None => Ok(()),
    }
}

/// A file made of copies.
fn new_file(alloc: Global, name: &[u8], bytes: &[u8]) -> Result<HeldFile, AllocError>
    ensures { IfOk result (λ f. (f.name ≡ name.now) × (f.bytes ≡ bytes.now)) }
{
    Ok(HeldFile {
        name: Bytes::new(Vec::from_slice(alloc, name)?),
        bytes: Bytes::new(Vec::from_slice(alloc, bytes)?),
    })
}

/// Puts a file before the others, so that it counts.
fn put_first(files: &mut Vec<HeldFile>, file: HeldFile) -> Result<(), AllocError>
    ensures ok { OnOk result (files.new.items ≡ file ∷ files.old.items) }
    ensures err { OnErr result (files.new.items ≡ files.old.items) }
{
    files.insert(0, file)?;
    Ok(())
}
