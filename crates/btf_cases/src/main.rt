//! Reads each case of `data/` and writes what was read again, and compares the answers with what
//! the case says (`data/README.md`).
#![tactic(auto)]

mod case;
mod lines;
mod members;
mod ready;
mod shown;
mod trial;

use anyhow::Error;
use case::Case;
use dw_base::Order;
use lines::take_lines;
use members::case_of_most_members;
use std::alloc::Global;
use std::fs;
use std::process::ExitCode;
use std::rt::Files;
use trial::answer_of;

fn main(rt: HostRuntime) -> ExitCode {
    let alloc = rt.alloc();
    let passed = all_cases(&rt, alloc).and_then(|cases| all_pass(&rt, alloc, &cases));
    match passed {
        Ok(true) => ExitCode::SUCCESS,
        Ok(false) => ExitCode::from(1),
        Err(error) => {
            let _ = println!(rt; "{error}");
            ExitCode::from(1)
        }
    }
}

/// The cases of the files that `list` names, and those of the most members.
fn all_cases<R: Files + Alloc>(rt: &R, alloc: Global) -> Result<Vec<Case>, Error> {
    let mut cases = Vec::new(alloc);
    let list = fs::read_to_string(rt, "list")?;
    for name in list.lines() {
        let text = fs::read_to_string(rt, name)?;
        take_lines(alloc, &mut cases, text.as_str())?;
    }
    for order in [Order::Little, Order::Big] {
        cases.push(case_of_most_members(alloc, order)?)?;
    }
    Ok(cases)
}

/// Whether each case is answered as it says. Names those that are not, with their answers.
fn all_pass<R: Print>(rt: &R, alloc: Global, cases: &[Case]) -> Result<bool, Error> {
    let mut differ = 0u64;
    for case in cases {
        let had = answer_of(alloc, cases, case)?;
        if had.as_str() != case.answer.as_str() {
            println!(rt; "{} differs:\n{}", case.name.as_str(), had.as_str())?;
            differ = differ.saturating_add(1);
        }
    }
    println!(rt; "{} cases, {} differ", cases.len(), differ)?;
    Ok(differ == 0)
}
