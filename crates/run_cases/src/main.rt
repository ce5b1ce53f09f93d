//! Runs each case of `data/` over a world in memory and compares its status, its complaint, what it
//! prints and what it stores with what the case's folder says (`data/README.md`). Cases that
//! `stopped` names are run again with each call of the world stopped, and those of `cuts` with
//! their file cut off.
#![tactic(auto)]

mod case;
mod cuts;
mod hex;
mod read;
mod runs;
mod stops;

use case::Case;
use cuts::{cut_each, cut_of};
use read::{case_of, lines_of};
use runs::{is_whole, run_with};
use std::alloc::{AllocError, Global};
use std::process::ExitCode;
use std::thread::Threads;
use stops::{RunCount, stop_each};
use world_io::{HostWorld, Stops, World};

fn main(rt: HostRuntime) -> ExitCode {
    let alloc = rt.alloc();
    let mut host = HostWorld::new(&rt);
    let mut wrong = Vec::new(alloc);
    let Ok(tallies) = run_lists(&rt, alloc, &mut host, &mut wrong) else {
        return ExitCode::from(1);
    };
    for name in wrong.iter() {
        let _ = println!(rt; "{} differs", name.as_str());
    }
    for (list, tally) in LISTS.iter().zip(&tallies) {
        let _ = println!(rt; "{} {}, {} differ", tally.runs, list.runs, tally.differ);
    }
    ExitCode::from(if wrong.is_empty() { 0 } else { 1 })
}

/// How a line of a list is run.
#[derive(Clone, Copy)]
enum RunWay {
    /// It names a case, which is run as it is.
    Whole,
    /// It names a case, which is run with each call of the world stopped.
    Stopped,
    /// It says to which lengths the file of a case is cut.
    Cut,
}

/// A list of `data/`.
#[derive(Clone, Copy)]
struct List {
    file: &'static str,
    way: RunWay,
    /// What its runs are called.
    runs: &'static str,
}

const LISTS: &[List] = &[
    List {
        file: "list",
        way: RunWay::Whole,
        runs: "cases",
    },
    List {
        file: "stopped",
        way: RunWay::Stopped,
        runs: "runs with a call stopped",
    },
    List {
        file: "cuts",
        way: RunWay::Cut,
        runs: "runs of files cut off",
    },
];

/// Runs all lists; lines of which a run differs are wrong.
fn run_lists<R: Threads + Sync, W: World>(
    rt: &R,
    alloc: Global,
    host: &mut W,
    wrong: &mut Vec<String>,
) -> Result<Vec<RunCount>, AllocError> {
    let mut tallies = Vec::new(alloc);
    for &list in LISTS {
        tallies.push(run_list(rt, alloc, host, list, wrong)?)?;
    }
    Ok(tallies)
}

/// Runs each line of a list; lines of which a run differs are wrong.
fn run_list<R: Threads + Sync, W: World>(
    rt: &R,
    alloc: Global,
    host: &mut W,
    list: List,
    wrong: &mut Vec<String>,
) -> Result<RunCount, AllocError> {
    let mut tally = RunCount::new();
    for line in lines_of(alloc, host, list.file)?.iter() {
        let before = tally.differ;
        run_line(rt, alloc, host, list.way, line.as_str(), &mut tally)?;
        if tally.differ > before {
            wrong.push(String::from_str(alloc, line.as_str())?)?;
        }
    }
    Ok(tally)
}

/// Runs what a line says.
fn run_line<R: Threads + Sync, W: World>(
    rt: &R,
    alloc: Global,
    host: &mut W,
    way: RunWay,
    line: &str,
    tally: &mut RunCount,
) -> Result<(), AllocError> {
    match way {
        RunWay::Whole => run_whole(rt, alloc, &case_of(alloc, host, line)?, tally),
        RunWay::Stopped => stop_each(rt, alloc, &case_of(alloc, host, line)?, tally),
        RunWay::Cut => match cut_of(line) {
            Some(cut) => cut_each(rt, alloc, &case_of(alloc, host, cut.case)?, &cut, tally),
            None => Ok(()),
        },
    }
}

/// Runs a case with the stops of its own.
fn run_whole<R: Threads + Sync>(
    rt: &R,
    alloc: Global,
    case: &Case,
    tally: &mut RunCount,
) -> Result<(), AllocError> {
    let stops = Stops::new(Vec::from_slice(alloc, case.stops.items())?);
    let ran = run_with(rt, alloc, case, stops)?;
    tally.count(is_whole(case, &ran));
    Ok(())
}
