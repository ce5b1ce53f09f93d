//! The classes of graphs. The steps of their search are counted for its bound, and nobody reads them
//! here.
ghost use Rattle.std.specs.Prelude.{◌≡◌, ◌<◌, take, IfOk};
ghost use Rattle.c_model.specs.Forwards.{HasFittingForwards};
ghost use Rattle.c_model.specs.Partition.{IsCoarsest};
ghost use Rattle.file_graph.specs.Files.{IsOfFiles};
ghost use Rattle.split_base.specs.Graphs.{IsBase};
ghost use Rattle.split_base.specs.Merged.{IsPartedBy};

use btf_codec::Table;
use c_model::laws::nothing_open_is_plain;
use c_model::{Classes, Numbers};
use class_halves::classes_by_halves;
use dw_base::Steps;
use forward_rule::FwdIndex;
use packed_graph::PackedGraph;
use split_base::graph_of;
use std::alloc::{AllocError, Global};
use std::marker::Brand;
use std::sync::ledger::{Blank, Ledger};
use std::thread::Threads;

/// The classes of the base's types: their coarsest plain agreement. They are found by halves, by
/// `jobs` workers at most. The graph that they are found on is gone afterwards.
pub fn base_classes<R: Threads + Sync>(
    rt: &R,
    alloc: Global,
    jobs: u32,
    base: &Table<'_>,
) -> Result<Classes, AllocError>
    requires alone { base.now.base ≡ 0 }
    requires base { IsBase base.now.types base.now.names.now }
    ensures { IfOk result (λ c. IsCoarsest base.now.types c) }
{
    count_base_classes::<R, Brand>(rt, alloc, jobs, base, Blank::new(1))
}

/// The classes of the base's types, with a counter of steps.
fn count_base_classes<R: Threads + Sync, L: Ledger>(
    rt: &R,
    alloc: Global,
    jobs: u32,
    base: &Table<'_>,
    blank: Blank,
) -> Result<Classes, AllocError>
    requires name { blank.name ≡ L.name }
    requires parts { blank.parts ≡ L.parts }
    requires some { 0 < L.parts }
    requires alone { base.now.base ≡ 0 }
    requires base { IsBase base.now.types base.now.names.now }
    ensures { IfOk result (λ c. IsCoarsest base.now.types c) }
{
    nothing_open_is_plain();
    let graph = graph_of(alloc, base)?;
    let closed = FwdIndex::plain(&graph);
    let mut steps = Steps::<L>::new(blank);
    classes_by_halves(rt, alloc, jobs, &graph, &closed, &mut steps)
}

/// The classes of a graph over a base with these classes, found by `jobs` workers at most.
pub fn classes_over<'a, R: Threads + Sync>(
    rt: &R,
    alloc: Global,
    jobs: u32,
    graph: &PackedGraph<'a>,
    kept: &Classes,
) -> Result<Classes, AllocError>
    requires kept { IsCoarsest (take graph.now.base graph.now.nodes) kept.now }
    requires fitting { HasFittingForwards graph.now }
    ensures parted { IfOk result (λ c. IsPartedBy graph.now c) }
{
    count_classes_over::<R, Brand>(rt, alloc, jobs, graph, kept, Blank::new(1))
}

/// The classes of a graph over a base with these classes, with a counter of steps.
fn count_classes_over<'a, R: Threads + Sync, L: Ledger>(
    rt: &R,
    alloc: Global,
    jobs: u32,
    graph: &PackedGraph<'a>,
    kept: &Classes,
    blank: Blank,
) -> Result<Classes, AllocError>
    requires name { blank.name ≡ L.name }
    requires parts { blank.parts ≡ L.parts }
    requires some { 0 < L.parts }
    requires kept { IsCoarsest (take graph.now.base graph.now.nodes) kept.now }
    requires fitting { HasFittingForwards graph.now }
    ensures parted { IfOk result (λ c. IsPartedBy graph.now c) }
{
    let forwards = FwdIndex::build(alloc, graph, kept)?;
    let mut steps = Steps::<L>::new(blank);
    classes_by_halves(rt, alloc, jobs, graph, &forwards, &mut steps)
}

/// The classes of a graph of files without a base, found by `jobs` workers at most.
pub fn classes_alone<'a, R: Threads + Sync>(
    rt: &R,
    alloc: Global,
    jobs: u32,
    graph: &PackedGraph<'a>,
) -> Result<Classes, AllocError>
    requires files { IsOfFiles graph.now }
    ensures parted { IfOk result (λ c. IsPartedBy graph.now c) }
{
    let none = Classes::new(Numbers::new(Vec::new(alloc)));
    classes_over(rt, alloc, jobs, graph, &none)
}
