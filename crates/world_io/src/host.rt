//! The world of the host. It tells no content, so it never answers `Missing`.
ghost use Rattle.std.specs.Prelude.{◌≡◌, ◌<◌, ◌≤◌, ◌+◌, ◌^◌, vec_len, OnOk, IsErrOf, ◌≢◌};

use crate::fault::{Failed, LoadFault, OutFault};
use crate::world::World;
use std::fs;
use std::io::{Read, Write};

/// How many bytes one read asks for.
const PIECE: usize = 65_536;

/// The host's files, standard output and standard error, by the runtime that `main` is handed.
#[derive(Drop)]
pub struct HostWorld<'r, R> {
    rt: &'r R,
    loads: u64,
    prints: u64,
    complaints: u64,
    stores: u64,
}

impl<'r, R> HostWorld<'r, R> {
    /// The host, with no fault counted. It takes no memory.
    pub fn new(rt: &'r R) -> HostWorld<'r, R>
        ensures { (result.loads ≡ 0) × (result.prints ≡ 0) × (result.complaints ≡ 0)
            × (result.stores ≡ 0) }
    {
        HostWorld {
            rt,
            loads: 0,
            prints: 0,
            complaints: 0,
            stores: 0,
        }
    }
}

impl<'r> World for HostWorld<'r, HostRuntime> {
    ghost use Rattle.std.specs.Prelude.{None};

    ghost meaning = { λ s.
        record {
          files = None;
          printed = None;
          complained = None;
          stored = None;
          calls = None;
          loads = s.loads;
          prints = s.prints;
          complaints = s.complaints;
          stores = s.stores;
        } };

    fn load(&mut self, name: &str, most: u64, into: &mut Vec<u8>) -> Result<(), LoadFault> {
        into.clear();
        let answer = match fs::open(self.rt, name) {
            Ok(mut file) => {
                if let Ok(about) = file.metadata() {
                    make_room(about.len(), most, into);
                }
                fill(&mut file, most, into)
            }
            Err(_) => Err(LoadFault::Failed),
        };
        if let Err(LoadFault::Failed) = answer {
            self.loads = self.loads.saturating_add(1);
        }
        answer
    }

    fn print(&mut self, piece: &[u8]) -> Result<(), OutFault> {
        match pour(&mut self.rt.stdout(), piece) {
            Ok(()) => Ok(()),
            Err(_) => {
                self.prints = self.prints.saturating_add(1);
                Err(OutFault::Failed)
            }
        }
    }

    fn complain(&mut self, piece: &[u8]) -> Result<(), Failed> {
        match pour(&mut self.rt.stderr(), piece) {
            Ok(()) => Ok(()),
            Err(_) => {
                self.complaints = self.complaints.saturating_add(1);
                Err(Failed)
            }
        }
    }

    fn store(&mut self, name: &str, bytes: &[u8]) -> Result<(), OutFault> {
        let answer = match fs::create(self.rt, name) {
            Ok(mut file) => pour(&mut file, bytes),
            Err(_) => Err(Failed),
        };
        match answer {
            Ok(()) => Ok(()),
            Err(_) => {
                self.stores = self.stores.saturating_add(1);
                Err(OutFault::Failed)
            }
        }
    }
}

/// Makes room for a file of so many bytes at once, where there is memory for it.
fn make_room(size: u64, most: u64, into: &mut Vec<u8>)
    requires { most < 2 ^ 32 }
    ensures { vec_len into.new ≡ vec_len into.old }
{
    let _ = into.reserve_exact(size.min(most + 1) as usize);
}

/// Reads a file to its end, but at most one byte more than `most`. A read of no bytes is the end;
/// each other one takes at least one byte.
fn fill<F: Read>(file: &mut F, most: u64, into: &mut Vec<u8>) -> Result<(), LoadFault>
    requires most { most < 2 ^ 32 }
    requires empty { vec_len into.old ≡ 0 }
    ensures few { OnOk result (vec_len into.new ≤ most) }
    ensures too_large { IsErrOf result LoadFault.TooLarge → vec_len into.new ≡ most + 1 }
    ensures missing { result ≢ Err LoadFault.Missing }
{
    let mut piece = [0u8; PIECE];
    for _ in 0..=most {
        let want = (most + 1 - into.len() as u64).min(PIECE as u64) as usize;
        let count = match file.read(&mut piece[..want]) {
            Ok(count) => count,
            Err(_) => return Err(LoadFault::Failed),
        };
        if count == 0 {
            return Ok(());
        }
        if into.extend_from_slice(&piece[..count]).is_err() {
            return Err(LoadFault::Memory);
        }
        if into.len() as u64 > most {
            return Err(LoadFault::TooLarge);
        }
    }
    Err(LoadFault::Failed)
}

/// Writes all bytes. A write that takes none of them is a fault; each other one takes at least one
/// byte.
fn pour<F: Write>(file: &mut F, bytes: &[u8]) -> Result<(), Failed> {
    let mut at = 0;
    for _ in 0..bytes.len() {
        if at >= bytes.len() {
            return Ok(());
        }
        match file.write(&bytes[at..]) {
            Ok(0) | Err(_) => return Err(Failed),
            Ok(count) => at += count,
        }
    }
    if at < bytes.len() {
        Err(Failed)
    } else {
        Ok(())
    }
}
