//! The program: it does what its words ask for, and ends with the status of that run.
//!
//! `--help`, `--version` and `--explain=N` are the program's own where one of them is the only
//! word: `answer` of `pahole_help` prints what it asks for, and `run`, which knows none of them, is
//! not called. All other words are those of `run`.
#![tactic(auto)]

ghost use Rattle.std.specs.Prelude.{◌≡◌, ◌≢◌};

use dw_base::SHIPPED;
use pahole_help::{Pages, answer, explanation_tables, help, version};
use pahole_run::run;
use std::env;
use std::io::ErrorKind;
use std::process::ExitCode;
use world_io::{HostWorld, OpenGate};

/// The words could not be handed over as text.
const NO_TEXT: u8 = 2;

/// There is no memory for the words.
const NO_MEMORY: u8 = 4;

fn main(rt: HostRuntime) -> ExitCode {
    let alloc = rt.alloc();
    let args = match env::args(&rt) {
        Ok(args) => args,
        Err(error) => return ExitCode::from(status_without_words(error.kind())),
    };
    let mut words = Vec::new(alloc);
    for word in args.skip(1) {
        if words.push(word).is_err() {
            return ExitCode::from(NO_MEMORY);
        }
    }
    let mut world = HostWorld::new(&rt);
    let tables = explanation_tables();
    let pages = Pages {
        help: help(),
        version: version(),
        explanations: &tables,
    };
    if let Some(status) = answer(&mut world, &pages, words.as_slice()) {
        return ExitCode::from(status);
    }
    ExitCode::from(run(&rt, alloc, &mut world, &OpenGate, SHIPPED, words.as_slice()))
}

/// The status where the runtime does not hand the words over.
fn status_without_words(kind: ErrorKind) -> u8
    ensures memory { kind ≡ ErrorKind.OutOfMemory → result ≡ NO_MEMORY }
    ensures text { kind ≢ ErrorKind.OutOfMemory → result ≡ NO_TEXT }
{
    if kind == ErrorKind::OutOfMemory {
        NO_MEMORY
    } else {
        NO_TEXT
    }
}
