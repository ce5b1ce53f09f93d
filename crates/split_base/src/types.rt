//! The types of a table.
ghost use Rattle.std.specs.Prelude.{◌≡◌, ◌<◌, ◌≤◌, ◌+◌, ◌++◌, Some, All, length, map, slice_index};
ghost use Rattle.std.specs.Prelude.{slice_get, take, filter_map, IfOk};
ghost use Rattle.c_model.specs.Graph.{IsBelow};
ghost use Rattle.c_model.specs.Partition.{targets_at};
ghost use Rattle.split_base.specs.Building.{type_by};
ghost use Rattle.split_base.specs.Table.{renamed};

use c_model::{CType, Ref, Refs, TypeGraph, copy_of_label};
use packed_graph::node_of;
use std::alloc::{AllocError, Global};

/// The base's types as they are, and behind them a type for each source, by the places of the
/// classes of all nodes.
pub fn types_of<'a, G: TypeGraph<'a>>(
    alloc: Global,
    graph: &G,
    places: &[u32],
    sources: &[u32],
) -> Result<Vec<CType<'a>>, AllocError>
    requires covers { length places.now ≡ length (G.shape graph.now).nodes }
    requires sources { All (λ s. s < length (G.shape graph.now).nodes) sources.now }
    ensures { IfOk result (λ v. v.items ≡ take (G.shape graph.now).base (G.shape graph.now).nodes
        ++ filter_map (type_by (G.shape graph.now) places.now) sources.now) }
{
    let mut types = base_types(alloc, graph, sources.len())?;
    for source in sources {
        types.push(renamed_node(alloc, graph, places, *source)?)?;
    }
    Ok(types)
}

/// The base's types as they are, in memory that has room for so many more.
fn base_types<'a, G: TypeGraph<'a>>(
    alloc: Global,
    graph: &G,
    more: usize,
) -> Result<Vec<CType<'a>>, AllocError>
    ensures { IfOk result (λ v. v.items ≡ take (G.shape graph.now).base (G.shape graph.now).nodes) }
{
    // For the proof: there are fewer than 2^32 nodes, and each reference is to one of them.
    let _ = graph.len();
    let base = graph.base();
    let mut types = Vec::with_capacity(alloc, (base as usize).saturating_add(more))?;
    for x in 0..base {
        types.push(node_of(alloc, graph, x)?)?;
    }
    Ok(types)
}

/// A node as a type of the table: its label, and its targets as the types of their classes.
fn renamed_node<'a, G: TypeGraph<'a>>(
    alloc: Global,
    graph: &G,
    places: &[u32],
    x: u32,
) -> Result<CType<'a>, AllocError>
    requires covers { length places.now ≡ length (G.shape graph.now).nodes }
    requires node { x < length (G.shape graph.now).nodes }
    ensures { IfOk result (λ t. type_by (G.shape graph.now) places.now x ≡ Some t) }
{
    // For the proof: there are fewer than 2^32 nodes, and each reference is to one of them.
    let _ = graph.len();
    let count = graph.target_count(x);
    let mut targets = Vec::with_capacity(alloc, count)?;
    for i in 0..count {
        targets.push(renamed_target(places, graph.target(x, i)))?;
    }
    Ok(CType {
        label: copy_of_label(alloc, graph.label(x))?,
        targets: Refs::new(targets),
    })
}

fn renamed_target(places: &[u32], target: Ref) -> Ref
    requires { IsBelow (length places.now) target }
    ensures { result ≡ renamed (slice_index places.now) target }
{
    match target {
        Ref::Void => Ref::Void,
        Ref::Node(x) => Ref::Node(places[x as usize]),
    }
}
