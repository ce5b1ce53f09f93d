//! A small graph: its classes, the references to its nodes, and the members of its classes. Rings,
//! chains, trees and forwards are compared with the plain program in `graph_cases`.
ghost use Rattle.std.specs.Prelude.{◌≡◌, ◌<◌, ◌≤◌, ◌∷◌, [], length, IfOk, OnOk};
ghost use Rattle.c_model.specs.Forwards.{HasFittingForwards};

use crate::rows::{FilePart, FileType, btf, graph_of};
use c_model::{Classes, Graph, Nodes, Numbers};
use class_halves::{Incoming, Members, classes_by_halves, split_by_halves};
use dw_base::Steps;
use forward_rule::FwdIndex;
use small_graphs::fitting::is_fitting;
use std::alloc::{AllocError, Global};
use std::marker::Brand;
use std::sync::ledger::{Blank, Ledger};
use std::test::Fail;
use std::thread::Threads;

/// A node that refers to itself at both positions, one that refers to it at both, one that refers
/// to two nodes, and one that refers to none. All are structures of two members.
const FOUR_NODES: &[FileType] = &[
    (4, b"s", 8, MEMBERS, &[1, 1]),
    (4, b"s", 8, MEMBERS, &[1, 1]),
    (4, b"s", 8, MEMBERS, &[4, 1]),
    (4, b"s", 8, MEMBERS, &[0, 0]),
];

const MEMBERS: &[FilePart] = &[(b"", 0), (b"", 32)];

/// Whether four nodes have three classes, of which the first has two nodes.
fn are_three(classes: &[u32]) -> bool {
    match classes {
        [a, b, c, d] => a == b && a != c && a != d && c != d,
        _ => false,
    }
}

/// Whether a graph has three classes, split from labels on and behind a guess.
fn has_three_both_ways<R: Threads + Sync, L: Ledger>(
    rt: &R,
    alloc: Global,
    graph: &Graph<'_>,
    blank: Blank,
) -> Result<bool, AllocError>
    requires name { blank.name ≡ L.name }
    requires parts { blank.parts ≡ L.parts }
    requires some { 0 < L.parts }
    requires fitting { HasFittingForwards graph.now }
{
    let mut steps = Steps::<L>::new(blank);
    let fwd = FwdIndex::plain(graph);
    let split = split_by_halves(alloc, graph, &fwd, &mut steps)?;
    let guessed = classes_by_halves(rt, alloc, 2, graph, &fwd, &mut steps)?;
    Ok(are_three(split.numbers()) && are_three(guessed.numbers()))
}

/// Whether a graph has forwards that fit, and three classes.
fn has_three<R: Threads + Sync>(
    rt: &R,
    alloc: Global,
    graph: &Graph<'_>,
) -> Result<bool, AllocError> {
    if !is_fitting(graph) {
        return Ok(false);
    }
    has_three_both_ways::<R, Brand>(rt, alloc, graph, Blank::new(1))
}

/// Whether the graph of four nodes that bytes spell has three classes.
fn four_from<R: Threads + Sync>(rt: &R, alloc: Global, bytes: &[u8]) -> Result<bool, Fail> {
    let graph = graph_of(alloc, 0, bytes)?;
    Ok(has_three(rt, alloc, &graph)?)
}

#[test]
fn four_nodes_have_three_classes(rt: HostRuntime) -> Result<(), Fail> {
    let bytes = btf(rt.alloc(), FOUR_NODES)?;
    let are_three = four_from(&rt, rt.alloc(), &bytes)?;
    assert!(rt; are_three);
    Ok(())
}

/// To split a graph without nodes takes no steps.
fn split_of_nothing<L: Ledger>(
    alloc: Global,
    graph: &Graph<'_>,
    steps: &mut Steps<L>,
) -> Result<Classes, AllocError>
    requires { length graph.now.nodes ≡ 0 }
    ensures { OnOk result (steps.new ≤ steps.old) }
{
    let fwd = FwdIndex::plain(graph);
    split_by_halves(alloc, graph, &fwd, steps)
}

/// The classes of a graph without nodes take no steps.
fn of_nothing<R: Threads + Sync, L: Ledger>(
    rt: &R,
    alloc: Global,
    graph: &Graph<'_>,
    steps: &mut Steps<L>,
) -> Result<Classes, AllocError>
    requires nothing { length graph.now.nodes ≡ 0 }
    requires fitting { HasFittingForwards graph.now }
    ensures { OnOk result (steps.new ≤ steps.old) }
{
    let fwd = FwdIndex::plain(graph);
    classes_by_halves(rt, alloc, 2, graph, &fwd, steps)
}

/// The numbers of classes of a graph without nodes, split from labels on and behind a guess.
fn classes_of_nothing<R: Threads + Sync, L: Ledger>(
    rt: &R,
    alloc: Global,
    graph: &Graph<'_>,
    blank: Blank,
) -> Result<(usize, usize), AllocError>
    requires name { blank.name ≡ L.name }
    requires parts { blank.parts ≡ L.parts }
    requires some { 0 < L.parts }
    requires nothing { length graph.now.nodes ≡ 0 }
    requires fitting { HasFittingForwards graph.now }
{
    let mut steps = Steps::<L>::new(blank);
    let split = split_of_nothing(alloc, graph, &mut steps)?;
    let guessed = of_nothing(rt, alloc, graph, &mut steps)?;
    Ok((split.numbers().len(), guessed.numbers().len()))
}

/// The same of the graph without nodes, with a counter of its own.
fn counts_of_nothing<R: Threads + Sync>(
    rt: &R,
    alloc: Global,
) -> Result<(usize, usize), AllocError> {
    let graph = Graph::new(0, Nodes::new(Vec::new(alloc)));
    if !is_fitting(&graph) {
        return Ok((1, 1));
    }
    classes_of_nothing::<R, Brand>(rt, alloc, &graph, Blank::new(1))
}

#[test]
fn nothing_has_no_classes(rt: HostRuntime) -> Result<(), Fail> {
    let counts = counts_of_nothing(&rt, rt.alloc())?;
    assert_eq!(rt; counts, (0, 0));
    Ok(())
}

/// Whether the references to a node are these, in their order.
fn is_referred_to<L: Ledger>(
    incoming: &Incoming,
    x: u32,
    wanted: &[(u32, u64)],
    steps: &mut Steps<L>,
) -> bool
    requires { x < length incoming.now }
{
    let count = incoming.count(x);
    let mut place = 0u64;
    for reference in wanted {
        if place >= count || incoming.get(x, place, steps) != *reference {
            return false;
        }
        place = place.saturating_add(1);
    }
    place == count
}

/// Whether the references to a node of a graph are these, in their order.
fn are_references<L: Ledger>(
    alloc: Global,
    graph: &Graph<'_>,
    x: u32,
    wanted: &[(u32, u64)],
    blank: Blank,
) -> Result<bool, AllocError>
    requires name { blank.name ≡ L.name }
    requires parts { blank.parts ≡ L.parts }
    requires some { 0 < L.parts }
    requires node { x < length graph.now.nodes }
{
    let mut steps = Steps::<L>::new(blank);
    let incoming = Incoming::build(alloc, graph)?;
    Ok(is_referred_to(&incoming, x, wanted, &mut steps))
}

/// A node, and the references to it.
type Referred = (u32, &'static [(u32, u64)]);

const REFERENCES: &[Referred] = &[
    (0, &[(0, 0), (0, 1), (1, 0), (1, 1), (2, 1)]),
    (3, &[(2, 0)]),
    (1, &[]),
];

/// Whether the references to the nodes of a graph are these.
fn have_references(
    alloc: Global,
    graph: &Graph<'_>,
    referred: &[Referred],
) -> Result<bool, AllocError> {
    for (x, wanted) in referred {
        if *x >= graph.len() || !are_references::<Brand>(alloc, graph, *x, wanted, Blank::new(1))? {
            return Ok(false);
        }
    }
    Ok(true)
}

/// Whether the graph that bytes spell has these references.
fn references_hold(alloc: Global, bytes: &[u8]) -> Result<bool, Fail> {
    let graph = graph_of(alloc, 0, bytes)?;
    Ok(have_references(alloc, &graph, REFERENCES)?)
}

#[test]
fn references_in_their_order(rt: HostRuntime) -> Result<(), Fail> {
    let bytes = btf(rt.alloc(), FOUR_NODES)?;
    let hold = references_hold(rt.alloc(), &bytes)?;
    assert!(rt; hold);
    Ok(())
}

/// Members of the classes 0, 0, 1 and 2, of which node 1 goes to a new class, and node 3 to class
/// 0.
fn moved<L: Ledger>(alloc: Global, blank: Blank) -> Result<Members, AllocError>
    requires name { blank.name ≡ L.name }
    requires parts { blank.parts ≡ L.parts }
    requires some { 0 < L.parts }
    ensures { IfOk result (λ m. m ≡ 0 ∷ 3 ∷ 1 ∷ 0 ∷ []) }
{
    let mut steps = Steps::<L>::new(blank);
    let classes = Classes::new(Numbers::new(Vec::from_slice(alloc, &[0, 0, 1, 2])?));
    let mut members = Members::new(alloc, &classes)?;
    members.put(1, 3, &mut steps);
    members.put(3, 0, &mut steps);
    Ok(members)
}

/// Whether the members are where they were put.
fn are_moved(members: &Members) -> bool
    requires { members.now ≡ 0 ∷ 3 ∷ 1 ∷ 0 ∷ [] }
{
    members.numbers() == [0, 3, 1, 0].as_slice()
        && (members.of(1), members.size(0), members.size(2)) == (3, 2, 0)
}

/// Whether the members of class 0 are listed.
fn are_listed(alloc: Global, members: &Members) -> Result<bool, AllocError>
    requires { members.now ≡ 0 ∷ 3 ∷ 1 ∷ 0 ∷ [] }
{
    let mut nodes = Vec::new(alloc);
    members.list(0, &mut nodes)?;
    nodes.sort_unstable();
    Ok(nodes.as_slice() == [0, 3].as_slice())
}

/// Whether members that are put into other classes are there, and listed.
fn members_hold(alloc: Global) -> Result<bool, AllocError> {
    let members = moved::<Brand>(alloc, Blank::new(1))?;
    Ok(are_moved(&members) && are_listed(alloc, &members)?)
}

#[test]
fn members_of_classes(rt: HostRuntime) -> Result<(), Fail> {
    let hold = members_hold(rt.alloc())?;
    assert!(rt; hold);
    Ok(())
}
