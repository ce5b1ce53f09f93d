//! Coarsest partitions compared with a plain program over pairs: of worked graphs, of made graphs,
//! and of graphs at the limits of size.
#![tactic(auto)]

mod compared;
mod fault;
mod limits;
mod made;
mod merged;
mod packed;
mod plain;
mod rows;
mod shapes;
mod sizes;
mod tables;
mod told;
mod trials;
mod worked;

use fault::CaseFault;
use limits::{empty_holds, fours_hold, ints_hold, name_holds, ring_holds};
use packed::{labels_hold, lists_hold};
use split_base::TableFault;
use std::alloc::Global;
use std::process::ExitCode;
use std::thread::Threads;
use tables::joined;
use told::tell_found;
use trials::{made_agree, shapes_agree, worked_agree};

fn main(rt: HostRuntime) -> ExitCode {
    match all_hold(&rt, rt.alloc()) {
        Ok(true) => ExitCode::SUCCESS,
        Ok(false) => ExitCode::from(1),
        Err(error) => {
            let _ = println!(rt; "{error}");
            ExitCode::from(1)
        }
    }
}

/// What is tried. Some say what is printed of them, and what is wanted.
#[derive(Clone, Copy)]
enum Batch {
    Worked,
    Shapes,
    /// The graph of a base and a file, of at most so many nodes.
    Joined(&'static str, u32, Result<bool, TableFault>),
    Made,
    Empty,
    Ring,
    Fours,
    Ints,
    /// A table with a last name behind one of so many bytes.
    LastName(&'static str, usize, Result<usize, TableFault>),
    Labels,
    Lists,
}

/// A base and a file with a node too many.
const FEW: &str = "2 types of a base and 3 of a file, at most 4 nodes";

/// All that is tried, in its order.
const BATCHES: &[Batch] = &[
    Batch::Worked,
    Batch::Shapes,
    Batch::Joined(FEW, 4, Err(TableFault::NodesTooMany(5))),
    Batch::Joined("the same, at most 5 nodes", 5, Ok(true)),
    Batch::Made,
    Batch::Empty,
    Batch::Ring,
    Batch::Fours,
    Batch::Ints,
    Batch::LastName("a last name at 16777215", 16_777_213, Ok(2)),
    Batch::LastName("a last name at 16777216", 16_777_214, FAR),
    Batch::Labels,
    Batch::Lists,
];

/// Why a name that stands too far behind has no table.
const FAR: Result<usize, TableFault> = Err(TableFault::NamesTooLong(16_777_216));

/// Whether a batch is as it should be.
fn batch_holds<R: Print + Threads + Sync>(
    rt: &R,
    alloc: Global,
    batch: Batch,
) -> Result<bool, CaseFault> {
    match batch {
        Batch::Worked => worked_agree(rt, alloc),
        Batch::Shapes => shapes_agree(rt, alloc),
        Batch::Joined(what, most, wanted) => join_holds(rt, alloc, what, most, wanted),
        Batch::Made => made_agree(rt, alloc),
        Batch::Empty => empty_holds(rt, alloc),
        Batch::Ring => ring_holds(rt, alloc),
        Batch::Fours => fours_hold(rt, alloc),
        Batch::Ints => ints_hold(rt, alloc),
        Batch::LastName(what, bytes, wanted) => name_holds(rt, alloc, what, bytes, wanted),
        Batch::Labels => labels_hold(rt, alloc),
        Batch::Lists => lists_hold(rt, alloc),
    }
}

/// Whether all graphs are as they should be.
fn all_hold<R: Print + Threads + Sync>(rt: &R, alloc: Global) -> Result<bool, CaseFault> {
    let mut hold = true;
    for batch in BATCHES {
        hold &= batch_holds(rt, alloc, *batch)?;
    }
    Ok(hold)
}

/// Whether the graph of a base and a file, of at most so many nodes, is as it is wanted.
fn join_holds<R: Print>(
    rt: &R,
    alloc: Global,
    what: &str,
    most: u32,
    wanted: Result<bool, TableFault>,
) -> Result<bool, CaseFault> {
    tell_found(rt, what, &joined(alloc, most)?, &wanted)
}
