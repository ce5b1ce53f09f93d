//! Graphs at the limits of size.
use crate::compared::class_count;
use crate::fault::CaseFault;
use crate::merged::{RefinedGraph, merged};
use crate::rows::{CaseType, FWD, INT, bare};
use crate::tables::built;
use c_model::{CType, Label, Parts, Refs};
use class_refine::Refined;
use dw_base::Name;
use small_graphs::ring::{STRUCTURE, ring, ring_classes};
use small_graphs::rows::{POINTER, type_of};
use small_graphs::same::is_one_relation;
use split_base::TableFault;
use std::alloc::{AllocError, Global};
use std::thread::Threads;

/// The number of rounds, where there are no classes.
fn rounds_of_nothing(refined: &Refined) -> Option<u32> {
    if refined.classes.numbers().is_empty() {
        Some(refined.rounds())
    } else {
        None
    }
}

/// The number of rounds of the empty graph, which has no classes.
pub fn empty_rounds<R: Threads + Sync>(rt: &R, alloc: Global) -> Result<Option<u32>, CaseFault> {
    let found = merged(rt, alloc, Vec::new(alloc), Vec::new(alloc))?;
    Ok(rounds_of_nothing(&found.refined))
}

/// Large graphs, whose types are computed from their places.
#[derive(Clone, Copy)]
pub enum Large {
    /// Four types again and again: a structure that refers to a pointer; the pointer, to a
    /// declaration of the structure; that, or behind the first few a pointer to the structure, as
    /// the one before; and an INT of a size of its own.
    Fours,
    /// INTs of sizes from 0 on.
    Ints,
}

/// How many of the structures of fours are declared.
const DECLARED: u32 = 20;

/// A type of fours.
fn four_row(x: u32) -> CaseType {
    let place = x % 4;
    let first = x - place;
    let declared = first < 4 * DECLARED;
    match place {
        0 => CaseType::new(STRUCTURE, &[first.saturating_add(1)]),
        1 if declared => CaseType::new(POINTER, &[first.saturating_add(2)]),
        2 if declared => CaseType::new(bare(FWD, b"ring", 0), &[]),
        1 | 2 => CaseType::new(POINTER, &[first]),
        _ => CaseType::new(bare(INT, b"int", first), &[]),
    }
}

/// The type in a place of a large graph.
fn large_row(large: Large, x: u32) -> CaseType {
    match large {
        Large::Fours => four_row(x),
        Large::Ints => CaseType::new(bare(INT, b"int", x), &[]),
    }
}

/// The types of a large graph of so many.
fn large_types(alloc: Global, large: Large, count: u32) -> Result<Vec<CType<'static>>, AllocError> {
    let mut types = Vec::new(alloc);
    for x in 0..count {
        let row = large_row(large, x);
        types.push(type_of(alloc, &row.head, row.targets())?)?;
    }
    Ok(types)
}

/// A large graph of so many types, merged.
pub fn merged_large<R: Threads + Sync>(
    rt: &R,
    alloc: Global,
    large: Large,
    count: u32,
) -> Result<RefinedGraph<'static>, CaseFault> {
    merged(
        rt,
        alloc,
        Vec::new(alloc),
        large_types(alloc, large, count)?,
    )
}

/// Whether types have the classes of these numbers.
fn are_classes<R: Threads + Sync>(
    rt: &R,
    alloc: Global,
    types: Vec<CType<'static>>,
    wanted: &[u32],
) -> Result<bool, CaseFault> {
    let found = merged(rt, alloc, Vec::new(alloc), types)?;
    Ok(is_one_relation(found.refined.classes.numbers(), wanted))
}

/// Whether a ring of so many pointers among equal structures has two classes.
pub fn ring_has_two_classes<R: Threads + Sync>(
    rt: &R,
    alloc: Global,
    pointers: u32,
) -> Result<bool, CaseFault> {
    let count = pointers.saturating_mul(2);
    let wanted = ring_classes(alloc, count)?;
    are_classes(rt, alloc, ring(alloc, count)?, &wanted)
}

/// How many classes so many times four types have, which are so many that workers share them.
pub fn classes_of_fours<R: Threads + Sync>(
    rt: &R,
    alloc: Global,
    fours: u32,
) -> Result<usize, CaseFault> {
    let found = merged_large(rt, alloc, Large::Fours, fours.saturating_mul(4))?;
    Ok(class_count(alloc, found.refined.classes.numbers())?)
}

/// An INT of a name and a size.
fn int<'a>(alloc: Global, name: &'a [u8], size: u32) -> CType<'a> {
    CType {
        label: Label {
            kind: INT,
            name: Name::new(name),
            flag: false,
            size,
            extra: 0,
            parts: Parts::new(Vec::new(alloc)),
        },
        targets: Refs::new(Vec::new(alloc)),
    }
}

/// Whether no two of these numbers are equal.
pub fn all_differ(alloc: Global, numbers: &[u32]) -> Result<bool, AllocError> {
    Ok(class_count(alloc, numbers)? == numbers.len())
}

/// The number of types of a graph's table, or why there is none.
pub fn table_len(
    alloc: Global,
    found: &RefinedGraph<'_>,
) -> Result<Result<usize, TableFault>, CaseFault> {
    match built(alloc, &found.graph, &found.refined.classes, None)? {
        Ok(table) => Ok(Ok(table.types.items().len())),
        Err(fault) => Ok(Err(fault)),
    }
}

/// Two INTs, the first of this name.
fn two_ints<'a>(alloc: Global, name: &'a [u8]) -> Result<Vec<CType<'a>>, AllocError> {
    let mut types = Vec::new(alloc);
    types.push(int(alloc, name, 4))?;
    types.push(int(alloc, b"last", 4))?;
    Ok(types)
}

/// The number of types of the table of these types, or why there is none.
fn table_of_types<R: Threads + Sync>(
    rt: &R,
    alloc: Global,
    types: Vec<CType<'_>>,
) -> Result<Result<usize, TableFault>, CaseFault> {
    let found = merged(rt, alloc, Vec::new(alloc), types)?;
    let table = table_len(alloc, &found)?;
    Ok(table)
}

/// The table of two INTs, the first with a name of so many bytes.
pub fn long_name_table<R: Threads + Sync>(
    rt: &R,
    alloc: Global,
    bytes: usize,
) -> Result<Result<usize, TableFault>, CaseFault> {
    let name = vec![in alloc; b'n'; bytes]?;
    let table = table_of_types(rt, alloc, two_ints(alloc, name.as_slice())?)?;
    Ok(table)
}
