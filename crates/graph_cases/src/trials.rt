//! The graphs that both programs decide: worked ones, shapes, and made ones.
use crate::compared::{Occurrences, Occurs, agrees, class_count};
use crate::fault::CaseFault;
use crate::made::{Draws, made_table};
use crate::merged::{RefinedGraph, merged_table};
use crate::rows::CaseTypes;
use crate::shapes::{GraphShape, SHAPES, Shaped, shaped};
use crate::tables::{built, is_table, written};
use crate::told::{tell, tell_number};
use crate::worked::{Worked, based_graphs, forward_graphs, plain_graphs, table_of};
use btf_codec::TableOut;
use small_graphs::same::is_one_relation;
use std::alloc::Global;
use std::thread::Threads;

/// How many graphs are made.
const MADE: u64 = 300;

/// Tells how many graphs there are, and whether some differ; and whether none does.
fn tell_verdict<R: Print>(
    rt: &R,
    what: &str,
    count: u64,
    differ: u64,
    none: &str,
) -> Result<bool, CaseFault> {
    let agree = differ == 0;
    tell_number(rt, what, count, if agree { none } else { ", some differ" })?;
    Ok(agree)
}

/// 1 for a graph that is not as it should be, which is named, else 0.
fn note<R: Print>(rt: &R, name: &str, agrees: bool) -> Result<u64, CaseFault> {
    if agrees {
        return Ok(0);
    }
    tell(rt, name, "it differs")?;
    Ok(1)
}

/// The table of a graph's classes over the strings of a base.
fn table_over<'a>(
    alloc: Global,
    found: &RefinedGraph<'a>,
    base_names: Option<&'a [u8]>,
) -> Result<TableOut<'a>, CaseFault> {
    match built(alloc, &found.graph, &found.refined.classes, base_names)? {
        Ok(table) => Ok(table),
        Err(fault) => Err(CaseFault::Table(fault)),
    }
}

/// Whether the classes and the table of a graph are those that are written beside it.
fn is_as_written(
    alloc: Global,
    found: &RefinedGraph<'static>,
    worked: &Worked,
) -> Result<bool, CaseFault> {
    if !is_one_relation(found.refined.classes.numbers(), worked.classes) {
        return Ok(false);
    }
    let types = written(alloc, worked)?;
    let table = table_over(alloc, found, worked.base_names)?;
    Ok(is_table(&table, &types, worked))
}

/// What is wanted of a graph beside that both programs find one relation.
#[derive(Clone, Copy)]
enum Expected<'w> {
    Nothing,
    /// So many classes.
    Classes(usize),
    /// The classes and the table that are written beside it.
    Written(&'w Worked),
}

/// Whether a graph is as it is wanted.
fn is_wanted(
    alloc: Global,
    found: &RefinedGraph<'static>,
    wanted: Expected<'_>,
) -> Result<bool, CaseFault> {
    match wanted {
        Expected::Nothing => Ok(true),
        Expected::Classes(count) => {
            Ok(class_count(alloc, found.refined.classes.numbers())? == count)
        }
        Expected::Written(worked) => is_as_written(alloc, found, worked),
    }
}

/// Whether the plain program finds the classes that were found of a table, and these are as they
/// are wanted.
fn is_decided(
    alloc: Global,
    table: &CaseTypes,
    found: &RefinedGraph<'static>,
    wanted: Expected<'_>,
    tally: &mut Occurrences,
) -> Result<bool, CaseFault> {
    if !agrees(alloc, table, found.refined.classes.numbers(), tally)? {
        return Ok(false);
    }
    is_wanted(alloc, found, wanted)
}

/// Whether both programs find one relation for a table, which is as it is wanted.
fn both_agree<R: Threads + Sync>(
    rt: &R,
    alloc: Global,
    table: &CaseTypes,
    wanted: Expected<'_>,
    tally: &mut Occurrences,
) -> Result<bool, CaseFault> {
    let found = merged_table(rt, alloc, table)?;
    is_decided(alloc, table, &found, wanted, tally)
}

/// Whether both programs find the classes that are written beside a graph, and the table is the one
/// there.
fn worked_agrees<R: Threads + Sync>(
    rt: &R,
    alloc: Global,
    worked: &Worked,
    tally: &mut Occurrences,
) -> Result<bool, CaseFault> {
    let table = table_of(alloc, worked.base, worked.types)?;
    both_agree(rt, alloc, &table, Expected::Written(worked), tally)
}

/// How many of these graphs have other classes or another table than are written beside them. Names
/// them.
fn differing<R: Print + Threads + Sync>(
    rt: &R,
    alloc: Global,
    graphs: &[Worked],
) -> Result<u64, CaseFault> {
    let mut differ = 0u64;
    let mut tally = Occurrences::default();
    for worked in graphs {
        let agrees = worked_agrees(rt, alloc, worked, &mut tally)?;
        differ = differ.saturating_add(note(rt, worked.name, agrees)?);
    }
    Ok(differ)
}

/// The worked graphs: classes and tables are what is written beside them.
pub fn worked_agree<R: Print + Threads + Sync>(rt: &R, alloc: Global) -> Result<bool, CaseFault> {
    let mut count = 0usize;
    let mut differ = 0u64;
    for graphs in [plain_graphs(), forward_graphs(), based_graphs()] {
        count = count.saturating_add(graphs.len());
        differ = differ.saturating_add(differing(rt, alloc, graphs)?);
    }
    let what = "worked graphs with their tables";
    tell_verdict(rt, what, count as u64, differ, ", as expected")
}

/// Whether both programs find one relation for a shape, with so many classes.
fn shape_agrees<R: Threads + Sync>(
    rt: &R,
    alloc: Global,
    shape: &GraphShape,
    classes: usize,
    tally: &mut Occurrences,
) -> Result<bool, CaseFault> {
    let table = shaped(alloc, shape)?;
    both_agree(rt, alloc, &table, Expected::Classes(classes), tally)
}

/// How many of these shapes have other classes than both programs find, or another number of them.
/// Names them.
fn shapes_differing<R: Print + Threads + Sync>(
    rt: &R,
    alloc: Global,
    shapes: &[Shaped],
) -> Result<u64, CaseFault> {
    let mut differ = 0u64;
    let mut tally = Occurrences::default();
    for (name, shape, classes) in shapes {
        let agrees = shape_agrees(rt, alloc, shape, *classes, &mut tally)?;
        differ = differ.saturating_add(note(rt, name, agrees)?);
    }
    Ok(differ)
}

/// The shapes: both programs find one relation, with as many classes as are written beside each.
pub fn shapes_agree<R: Print + Threads + Sync>(rt: &R, alloc: Global) -> Result<bool, CaseFault> {
    let differ = shapes_differing(rt, alloc, SHAPES)?;
    let what = "shapes with their numbers of classes";
    tell_verdict(rt, what, SHAPES.len() as u64, differ, ", as expected")
}

/// Whether both programs find one relation for the next made graph.
fn made_agrees<R: Threads + Sync>(
    rt: &R,
    alloc: Global,
    draws: &mut Draws,
    tally: &mut Occurrences,
) -> Result<bool, CaseFault> {
    let table = made_table(alloc, draws)?;
    both_agree(rt, alloc, &table, Expected::Nothing, tally)
}

/// For how many of so many made graphs both programs find different relations. Tells their numbers.
fn made_differing<R: Print + Threads + Sync>(
    rt: &R,
    alloc: Global,
    count: u64,
    tally: &mut Occurrences,
) -> Result<u64, CaseFault> {
    let mut draws = Draws::new(2026);
    let mut differ = 0u64;
    for number in 0..count {
        if !made_agrees(rt, alloc, &mut draws, tally)? {
            tell_number(rt, "made graph", number, " differs")?;
            differ = differ.saturating_add(1);
        }
    }
    Ok(differ)
}

/// The made graphs: both programs find one relation.
pub fn made_agree<R: Print + Threads + Sync>(rt: &R, alloc: Global) -> Result<bool, CaseFault> {
    let mut tally = Occurrences::default();
    let differ = made_differing(rt, alloc, MADE, &mut tally)?;
    let agree = tell_verdict(rt, "made graphs", MADE, differ, ", none differs")?;
    tell_tally(rt, &tally)?;
    Ok(agree)
}

/// What occurs in the tables of made graphs.
const OCCURS: &[(&str, Occurs)] = &[
    ("  pairs of different types that are related", Occurs::Pairs),
    ("  forwards without a definition", Occurs::Undefined),
    ("  forwards that the base closes", Occurs::Closed),
    ("  open forwards of one definition", Occurs::OfOne),
    (
        "  open forwards of several definitions, all of one class",
        Occurs::OfEquals,
    ),
    (
        "  open forwards of several classes of definitions",
        Occurs::Apart,
    ),
];

/// Tells what occurs in tables.
fn tell_tally<R: Print>(rt: &R, tally: &Occurrences) -> Result<(), CaseFault> {
    for (what, occurs) in OCCURS {
        tell_number(rt, what, tally.of(*occurs), "")?;
    }
    Ok(())
}
