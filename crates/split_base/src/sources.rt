//! The nodes that give the own classes their types.
ghost use Rattle.std.specs.Prelude.{◌≡◌, ◌<◌, ◌≤◌, ◌+◌, ◌-◌, ℕ, All, EachIndex, length, map};
ghost use Rattle.std.specs.Prelude.{slice_index, is_some, IfOk, Some, None, if◌then◌else◌};
ghost use Rattle.std.specs.Option.{option_or};
ghost use Rattle.c_model.specs.Forwards.{forward_at};
ghost use Rattle.split_base.specs.Building.{IsNoted, source_by};

use crate::places::ClassPlaces;
use c_model::TypeGraph;
use forward_rule::FwdIndex;
use std::alloc::{AllocError, Global};

/// The node that gives each own class its type: its first that is no forward, else its first.
pub fn sources_of<'a, G: TypeGraph<'a>>(
    alloc: Global,
    graph: &G,
    places: &ClassPlaces,
) -> Result<Vec<u32>, AllocError>
    requires covers { length places.now.nodes.items ≡ length (G.shape graph.now).nodes }
    requires within { All (λ place.
        place < (G.shape graph.now).base + length places.now.firsts.items) places.now.nodes.items }
    requires firsts { EachIndex places.now.firsts.items
        (λ i. slice_index places.now.nodes.items (slice_index places.now.firsts.items i)
        ≡ (G.shape graph.now).base + i) }
    ensures { IfOk result (λ s. s.items
        ≡ map (source_by (G.shape graph.now) places.now.nodes.items) places.now.firsts.items) }
{
    let plain = plain_nodes(alloc, graph, &places.nodes, places.firsts.len())?;
    let mut sources = Vec::with_capacity(alloc, places.firsts.len())?;
    for i in 0..places.firsts.len() {
        sources.push(plain[i].unwrap_or(places.firsts[i]))?;
    }
    Ok(sources)
}

/// The first node of each own class that is no forward. `None` where all are.
fn plain_nodes<'a, G: TypeGraph<'a>>(
    alloc: Global,
    graph: &G,
    places: &[u32],
    own: usize,
) -> Result<Vec<Option<u32>>, AllocError>
    requires covers { length places.now ≡ length (G.shape graph.now).nodes }
    requires within { All (λ place. place < (G.shape graph.now).base + own) places.now }
    ensures len { IfOk result (λ v. length v.items ≡ own) }
    ensures noted { IfOk result
        (λ v. IsNoted (G.shape graph.now) places.now (length (G.shape graph.now).nodes) v.items) }
{
    let mut plain = vec![in alloc; None; own]?;
    for x in 0..graph.len() {
        note_node(graph, places, x, &mut plain);
    }
    Ok(plain)
}

/// Notes a node, if it is the first of an own class that is no forward.
fn note_node<'a, G: TypeGraph<'a>>(graph: &G, places: &[u32], x: u32, plain: &mut [Option<u32>])
    requires covers { length places.now ≡ length (G.shape graph.now).nodes }
    requires node { x < length (G.shape graph.now).nodes }
    requires within { slice_index places.now x < (G.shape graph.now).base + length plain.old }
    requires before { IsNoted (G.shape graph.now) places.now x plain.old }
    ensures { IsNoted (G.shape graph.now) places.now (x + 1) plain.new }
{
    let base = graph.base();
    let place = places[x as usize];
    if place < base {
        return;
    }
    let i = (place - base) as usize;
    plain[i] = first_plain(graph, x, plain[i]);
}

/// The first node of a class that is no forward, where `known` is that among the nodes before `x`,
/// which is of the class too.
fn first_plain<'a, G: TypeGraph<'a>>(graph: &G, x: u32, known: Option<u32>) -> Option<u32>
    requires { x < length (G.shape graph.now).nodes }
    ensures { result
        ≡ option_or known (if is_some (forward_at (G.shape graph.now) x) then None else Some x) }
{
    if known.is_some() || FwdIndex::is_forward(graph, x) {
        return known;
    }
    Some(x)
}
