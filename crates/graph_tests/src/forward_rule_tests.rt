//! A declared structure and its definition, as in C's `struct t; struct t { .. };`.
ghost use Rattle.std.specs.Prelude.{◌≡◌, ◌<◌, length};

use crate::rows::{GraphRow, forwards_of, types_of};
use c_model::kinds::{BTF_KIND_FWD, BTF_KIND_PTR, BTF_KIND_STRUCT};
use c_model::{Graph, Ref};
use forward_rule::FwdIndex;
use small_graphs::fitting::graph_from;
use std::alloc::{AllocError, Global};
use std::test::Fail;

/// A forward, a pointer to it, and a structure of that name.
const DECLARED_AND_DEFINED: &[GraphRow] = &[
    (BTF_KIND_FWD, b"t", 0, &[], &[]),
    (BTF_KIND_PTR, b"", 0, &[], &[Ref::Node(0)]),
    (BTF_KIND_STRUCT, b"t", 4, &[], &[]),
];

/// Of each node whether it is a forward, and its definitions, where it is open.
type WantedForward = (bool, &'static [u32]);

const OPENED: &[WantedForward] = &[(true, &[2]), (false, &[]), (false, &[])];

/// The same where no forward is open.
const CLOSED: &[WantedForward] = &[(true, &[]), (false, &[]), (false, &[])];

/// Whether a node is as it is wanted.
fn is_as_wanted(graph: &Graph<'_>, index: &FwdIndex, x: u32, wanted: &WantedForward) -> bool
    requires node { x < length graph.now.nodes }
    requires index { x < length index.now }
{
    FwdIndex::is_forward(graph, x) == wanted.0
        && index.definitions(x) == wanted.1
        && index.is_open(x) != wanted.1.is_empty()
}

/// Whether all nodes are as they are wanted.
fn are_as_wanted(graph: &Graph<'_>, index: &FwdIndex, wanted: &[WantedForward]) -> bool
    requires { length index.now ≡ length graph.now.nodes }
{
    let mut x = 0u32;
    for node in wanted {
        if x >= graph.len() || !is_as_wanted(graph, index, x, node) {
            return false;
        }
        x = x.saturating_add(1);
    }
    graph.len() as usize == wanted.len()
}

/// Whether the index that opens no forward is as it is wanted.
fn is_closed(graph: &Graph<'_>) -> bool {
    let closed = FwdIndex::plain(graph);
    are_as_wanted(graph, &closed, CLOSED)
}

/// Whether the index of a graph opens its forward.
fn is_opened(alloc: Global, graph: &Graph<'_>) -> Result<bool, AllocError>
    requires { graph.now.base ≡ 0 }
{
    let index = forwards_of(alloc, graph)?;
    Ok(are_as_wanted(graph, &index, OPENED))
}

/// Whether the types make a graph whose forward is opened by one index, and by the other not.
fn opens_its_forward(alloc: Global) -> Result<bool, AllocError> {
    match graph_from(0, types_of(alloc, DECLARED_AND_DEFINED)?) {
        Some(graph) if is_closed(&graph) => is_opened(alloc, &graph),
        _ => Ok(false),
    }
}

#[test]
fn a_defined_structure_opens_its_forward(rt: HostRuntime) -> Result<(), Fail> {
    let opens = opens_its_forward(rt.alloc())?;
    assert!(rt; opens);
    Ok(())
}
