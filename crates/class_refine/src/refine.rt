//! Rounds, until nothing is split any more.
ghost use Rattle.std.specs.Prelude.{◌≡◌, ◌<◌, ℕ, List, ◌≤◌, ◌+◌, ◌*◌, length, nat_eq, IfOk, OnErr};
ghost use Rattle.std.specs.Set.{distinct_count};
ghost use Rattle.c_model.specs.Forwards.{IsIndexOf, HasFittingForwards, IsCoarsestWith};
ghost use Rattle.c_model.specs.Forwards.{KeepsForwards};
ghost use Rattle.c_model.specs.Graph.{references};
ghost use Rattle.c_model.specs.Numberings.{IsNumbering};
ghost use Rattle.type_signature.specs.Placing.{IsAbove};
ghost use Rattle.type_signature.specs.Signatures.{signature_at};

use crate::keys::keys_between;
use c_model::{Classes, Graph, TypeGraph};
use dw_base::Steps;
use forward_rule::FwdIndex;
use packed_graph::unpack::unpacked;
use std::alloc::{AllocError, Global};
use std::sync::ledger::Ledger;
use std::thread::Threads;
use type_signature::placing::partition;
use type_signature::{Guess, Numbered, Numbering, guess_classes};

/// How many keys are made before they are numbered.
const PART: u32 = 65_536;

/// A partition of the nodes of a graph, and the number of rounds that found it.
#[derive(Drop)]
pub struct Refined {
    pub classes: Classes,
    number: u32,
}

impl Refined {
    /// How many rounds split a class. It is at most the number of classes.
    pub fn rounds(&self) -> u32
        ensures { result ≡ self.now.number }
    {
        self.number
    }
}

/// One round: numbers of the nodes by their signatures under `now`.
fn round<R: Threads + Sync, L: Ledger>(
    rt: &R,
    alloc: Global,
    graph: &Graph<'_>,
    fwd: &FwdIndex,
    now: &Classes,
    steps: &mut Steps<L>,
) -> Result<Numbered, AllocError>
    requires index { IsIndexOf graph.now fwd.now }
    requires covers { length now.now ≡ length graph.now.nodes }
    ensures numbers { IfOk result (λ r. IsNumbering (signature_at graph.now.nodes fwd.now now.now)
        (length graph.now.nodes) r.numbers.items) }
    ensures count { IfOk result (λ r. distinct_count nat_eq r.numbers.items ≡ r.count) }
    ensures cost { steps.new ≤ steps.old + (length graph.now.nodes + references graph.now.nodes) }
{
    let mut numbering = Numbering::new(alloc)?;
    let mut numbers = Vec::with_capacity(alloc, graph.len() as usize)?;
    let mut from = 0;
    while from < graph.len() {
        let end = from + PART.min(graph.len() - from);
        for made in keys_between(rt, alloc, graph, fwd, now, from, end)? {
            let key = made?;
            let place = numbering.take(key, steps)?;
            numbers.push(place)?;
        }
        from = end;
    }
    let count = numbering.len();
    Ok(Numbered { numbers, count })
}

/// Rounds from a partition on that no agreeing one is coarser than, until a round splits nothing.
fn rounds_from<R: Threads + Sync, L: Ledger>(
    rt: &R,
    alloc: Global,
    graph: &Graph<'_>,
    fwd: &FwdIndex,
    first: u32,
    classes: Classes,
    steps: &mut Steps<L>,
) -> Result<Refined, AllocError>
    requires index { IsIndexOf graph.now fwd.now }
    requires fitting { HasFittingForwards graph.now }
    requires above { (raw : List ℕ) × IsAbove graph.now fwd.now raw classes
        × (distinct_count nat_eq raw ≡ first) }
    ensures coarsest { IfOk result (λ r. IsCoarsestWith graph.now fwd.now r.classes) }
    ensures forwards { IfOk result (λ r. KeepsForwards graph.now fwd.now r.classes) }
    ensures rounds { IfOk result (λ r. r.number ≤ distinct_count nat_eq r.classes) }
    ensures cost { IfOk result (λ r. steps.new
        ≤ steps.old + (length graph.now.nodes + references graph.now.nodes) * (r.number + 1)) }
    ensures bound { OnErr result (steps.new ≤ steps.old
        + (length graph.now.nodes + references graph.now.nodes) * (length graph.now.nodes + 1)) }
{
    // For the proof: there are fewer than 2^32 nodes, and each reference is to one of them.
    let _nodes = graph.len();
    let mut count = first;
    let mut now = classes;
    let mut number = 0;
    loop {
        let next = round(rt, alloc, graph, fwd, &now, steps)?;
        if next.count == count {
            return Ok(Refined {
                classes: now,
                number,
            });
        }
        count = next.count;
        now = partition(alloc, graph, fwd, &next.numbers)?;
        number += 1;
    }
}

/// How many workers mix hashes.
const HASHING: u32 = 1;

/// The coarsest agreeing partition of a graph: each pair of one class has a licence, and every
/// partition of which that is true relates only pairs that it relates. A guess by hashes is
/// compared first; where it is right there are no rounds. Hashes are mixed by one worker. Else
/// rounds split its classes by the classes of their targets, until a round splits nothing. Keys are
/// made by as many workers as there are processors, and numbered in node order; the counter rises
/// by the numbers of all keys that are numbered. After want of memory it has risen by no more than
/// as many rounds as there are nodes would make it.
///
/// Behind the guess the work grows with (nodes + references) * (rounds + 1).
pub fn classes<'a, R: Threads + Sync, G: TypeGraph<'a>, L: Ledger>(
    rt: &R,
    alloc: Global,
    graph: &G,
    fwd: &FwdIndex,
    steps: &mut Steps<L>,
) -> Result<Refined, AllocError>
    requires index { IsIndexOf (G.shape graph.now) fwd.now }
    requires fitting { HasFittingForwards (G.shape graph.now) }
    ensures coarsest { IfOk result (λ r. IsCoarsestWith (G.shape graph.now) fwd.now r.classes) }
    ensures forwards { IfOk result (λ r. KeepsForwards (G.shape graph.now) fwd.now r.classes) }
    ensures rounds { IfOk result (λ r. r.number ≤ distinct_count nat_eq r.classes) }
    ensures cost { let g = G.shape graph.now in IfOk result
        (λ r. steps.new ≤ steps.old + (length g.nodes + references g.nodes) * (r.number + 1)) }
    ensures bound { let g = G.shape graph.now in OnErr result
        (steps.new ≤ steps.old + (length g.nodes + references g.nodes) * (length g.nodes + 1)) }
{
    let most = graph.len();
    let Guess {
        first,
        classes,
        is_settled,
    } = guess_classes(rt, alloc, HASHING, graph, fwd, most)?;
    if is_settled {
        return Ok(Refined { classes, number: 0 });
    }
    let whole = unpacked(alloc, graph)?;
    let refined = rounds_from(rt, alloc, &whole, fwd, first.count, classes, steps)?;
    Ok(refined)
}
