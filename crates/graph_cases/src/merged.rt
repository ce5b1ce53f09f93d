//! The partition that the proved program finds.
ghost use Rattle.std.specs.Prelude.{◌≡◌, ◌<◌, ◌≤◌, ◌+◌, ◌*◌, ◌^◌, ◌++◌, ℕ, length, take, IfOk};
ghost use Rattle.std.specs.Prelude.{OnOk};
ghost use Rattle.c_model.specs.Graph.{references};
ghost use Rattle.c_model.specs.Partition.{IsCoarsest};
ghost use Rattle.c_model.specs.Forwards.{IsIndexOf, HasFittingForwards};

use crate::fault::CaseFault;
use crate::rows::{CaseTypes, types_of};
use c_model::laws::nothing_open_is_plain;
use c_model::{CType, Classes, Graph, TypeGraph};
use class_halves::{classes_by_halves, split_by_halves};
use class_refine::{Refined, classes};
use dw_base::Steps;
use forward_rule::FwdIndex;
use packed_graph::{PackedGraph, packed};
use small_graphs::fitting::{graph_from, is_fitting};
use small_graphs::same::is_one_relation;
use std::alloc::{AllocError, Global};
use std::marker::Brand;
use std::sync::ledger::{Blank, Ledger};
use std::thread::Threads;

/// A graph and its coarsest partition.
#[derive(Drop)]
pub struct RefinedGraph<'a> {
    pub graph: Graph<'a>,
    pub refined: Refined,
}

/// The coarsest plain agreement of a graph.
fn plain_classes<R: Threads + Sync, L: Ledger>(
    rt: &R,
    alloc: Global,
    graph: &Graph<'_>,
    steps: &mut Steps<L>,
) -> Result<Classes, AllocError>
    requires { HasFittingForwards graph.now }
    ensures { IfOk result (λ c. IsCoarsest graph.now.nodes c) }
{
    nothing_open_is_plain();
    let closed = FwdIndex::plain(graph);
    let refined = classes(rt, alloc, graph, &closed, steps)?;
    Ok(refined.classes)
}

/// The types, and behind them others.
fn followed_by<'a>(types: Vec<CType<'a>>, own: Vec<CType<'a>>) -> Result<Vec<CType<'a>>, AllocError>
    ensures { IfOk result (λ nodes. nodes.items ≡ types.entry.items ++ own.entry.items) }
{
    let mut nodes = types;
    for t in own {
        nodes.push(t)?;
    }
    Ok(nodes)
}

/// The graph of these types, the first `base` of them those of a base, where its forwards fit.
fn fitting_graph<'a>(base: u32, nodes: Vec<CType<'a>>) -> Result<Graph<'a>, CaseFault>
    ensures base { IfOk result (λ g. g.base ≡ base) }
    ensures nodes { IfOk result (λ g. g.nodes ≡ nodes.entry.items) }
    ensures fitting { IfOk result (λ g. HasFittingForwards g) }
{
    let Some(graph) = graph_from(base, nodes) else {
        return Err(CaseFault::Unfit);
    };
    if !is_fitting(&graph) {
        return Err(CaseFault::Unfit);
    }
    Ok(graph)
}

/// The graph of a base alone.
fn base_graph<'a>(types: Vec<CType<'a>>) -> Result<Graph<'a>, CaseFault>
    ensures { IfOk result (λ g. HasFittingForwards g) }
{
    let Ok(count) = u32::try_from(types.len()) else {
        return Err(CaseFault::Unfit);
    };
    let graph = fitting_graph(count, types)?;
    Ok(graph)
}

/// The graph of a base and of types behind it.
fn joined<'a>(alone: Graph<'a>, own: Vec<CType<'a>>) -> Result<Graph<'a>, CaseFault>
    ensures base { IfOk result (λ g. take g.base g.nodes ≡ alone.entry.nodes) }
    ensures fitting { IfOk result (λ g. HasFittingForwards g) }
{
    let base = alone.len();
    let nodes = followed_by(alone.into_nodes().into_items(), own)?;
    let graph = fitting_graph(base, nodes)?;
    Ok(graph)
}

/// How many nodes a graph has at most whose classes are compared pair by pair.
const COMPARED_AT_MOST: u32 = 4_096;

/// How many nodes a graph has at most, of those with more, whose classes are found by several
/// numbers of workers.
const SHARED_AT_MOST: u32 = 100_000;

/// Whether classes have the same numbers, or are few and the same.
fn are_same_classes(numbers: &[u32], wanted: &[u32]) -> bool {
    numbers == wanted
        || (numbers.len() <= COMPARED_AT_MOST as usize && is_one_relation(numbers, wanted))
}

/// A way to find classes by halves.
#[derive(Clone, Copy)]
enum HalvesWay {
    /// Split from labels on.
    Split,
    /// Behind a guess, by so many workers.
    Guessed(u32),
}

/// The ways that are tried of a graph of so many nodes. A large one is found by several numbers of
/// workers, and of one that is too large no way is tried.
fn ways_for(nodes: u32) -> &'static [HalvesWay] {
    if nodes <= COMPARED_AT_MOST {
        &[HalvesWay::Split, HalvesWay::Guessed(2)]
    } else if nodes <= SHARED_AT_MOST {
        &[HalvesWay::Guessed(1), HalvesWay::Guessed(7)]
    } else {
        &[]
    }
}

/// The classes that a way finds. Where a graph has fewer than 2^d nodes, it takes at most 2 d steps
/// for each reference.
fn found_by<R: Threads + Sync, L: Ledger>(
    rt: &R,
    alloc: Global,
    way: HalvesWay,
    graph: &PackedGraph<'_>,
    forwards: &FwdIndex,
    steps: &mut Steps<L>,
) -> Result<Classes, AllocError>
    requires index { IsIndexOf graph.now forwards.now }
    requires fitting { HasFittingForwards graph.now }
    ensures cost { OnOk result ((d : ℕ) → length graph.now.nodes < 2 ^ d
        → steps.new ≤ steps.old + 2 * (references graph.now.nodes * d)) }
{
    match way {
        HalvesWay::Split => split_by_halves(alloc, graph, forwards, steps),
        HalvesWay::Guessed(workers) => classes_by_halves(
            rt, alloc, workers, graph, forwards, steps,
        ),
    }
}

/// Whether each of these ways finds the same classes.
fn ways_agree<R: Threads + Sync, L: Ledger>(
    rt: &R,
    alloc: Global,
    ways: &[HalvesWay],
    graph: &PackedGraph<'_>,
    forwards: &FwdIndex,
    wanted: &[u32],
    steps: &mut Steps<L>,
) -> Result<bool, AllocError>
    requires index { IsIndexOf graph.now forwards.now }
    requires fitting { HasFittingForwards graph.now }
{
    for way in ways {
        let found = found_by(rt, alloc, *way, graph, forwards, steps)?;
        if !are_same_classes(found.numbers(), wanted) {
            return Ok(false);
        }
    }
    Ok(true)
}

/// Whether all ways find the same classes of a graph, which is packed for them.
fn all_agree<R: Threads + Sync, L: Ledger>(
    rt: &R,
    alloc: Global,
    graph: &Graph<'_>,
    forwards: &FwdIndex,
    wanted: &[u32],
    steps: &mut Steps<L>,
) -> Result<bool, AllocError>
    requires index { IsIndexOf graph.now forwards.now }
    requires fitting { HasFittingForwards graph.now }
{
    let ways = ways_for(graph.len());
    if ways.is_empty() {
        return Ok(true);
    }
    let kept_once = packed(alloc, graph)?;
    ways_agree(rt, alloc, ways, &kept_once, forwards, wanted, steps)
}

/// The coarsest partition of a graph with these open forwards, where all ways find the same.
fn classes_with<R: Threads + Sync, L: Ledger>(
    rt: &R,
    alloc: Global,
    graph: &Graph<'_>,
    forwards: &FwdIndex,
    steps: &mut Steps<L>,
) -> Result<Refined, CaseFault>
    requires index { IsIndexOf graph.now forwards.now }
    requires fitting { HasFittingForwards graph.now }
{
    let refined = classes(rt, alloc, graph, forwards, steps)?;
    if !all_agree(rt, alloc, graph, forwards, refined.classes.numbers(), steps)? {
        return Err(CaseFault::Differs);
    }
    Ok(refined)
}

/// A graph and its coarsest partition, where `kept` is that of its base alone.
fn found_over<'a, R: Threads + Sync, L: Ledger>(
    rt: &R,
    alloc: Global,
    graph: Graph<'a>,
    kept: &Classes,
    steps: &mut Steps<L>,
) -> Result<RefinedGraph<'a>, CaseFault>
    requires kept { IsCoarsest (take graph.base graph.nodes) kept.now }
    requires fitting { HasFittingForwards graph }
{
    let forwards = FwdIndex::build(alloc, &graph, kept)?;
    let refined = classes_with(rt, alloc, &graph, &forwards, steps)?;
    Ok(RefinedGraph { graph, refined })
}

/// The coarsest partition of a base's graph and of types behind it.
fn merged_behind<'a, R: Threads + Sync, L: Ledger>(
    rt: &R,
    alloc: Global,
    alone: Graph<'a>,
    own: Vec<CType<'a>>,
    steps: &mut Steps<L>,
) -> Result<RefinedGraph<'a>, CaseFault>
    requires { HasFittingForwards alone }
{
    let kept = plain_classes(rt, alloc, &alone, steps)?;
    found_over(rt, alloc, joined(alone, own)?, &kept, steps)
}

/// The coarsest partition of a table's graph.
pub fn merged_table<R: Threads + Sync>(
    rt: &R,
    alloc: Global,
    table: &CaseTypes,
) -> Result<RefinedGraph<'static>, CaseFault> {
    let Some((base, own)) = table.rows.as_slice().split_at_checked(table.base) else {
        return Err(CaseFault::Unfit);
    };
    let base = types_of(alloc, base)?;
    merged(rt, alloc, base, types_of(alloc, own)?)
}

/// The coarsest partition of a base and of types behind it.
pub fn merged<'a, R: Threads + Sync>(
    rt: &R,
    alloc: Global,
    base: Vec<CType<'a>>,
    own: Vec<CType<'a>>,
) -> Result<RefinedGraph<'a>, CaseFault> {
    merged_over::<R, Brand>(rt, alloc, base, own, Blank::new(1))
}

/// The same over a counter of steps, which nobody reads here.
fn merged_over<'a, R: Threads + Sync, L: Ledger>(
    rt: &R,
    alloc: Global,
    base: Vec<CType<'a>>,
    own: Vec<CType<'a>>,
    blank: Blank,
) -> Result<RefinedGraph<'a>, CaseFault>
    requires name { blank.name ≡ L.name }
    requires parts { blank.parts ≡ L.parts }
    requires some { 0 < L.parts }
{
    let mut steps = Steps::<L>::new(blank);
    merged_behind(rt, alloc, base_graph(base)?, own, &mut steps)
}
