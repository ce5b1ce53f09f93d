//! A base that declares a structure and points to it, beside a file that defines it, as in C's
//! `struct foo; struct foo *p;` and `struct foo { int x; } *q;`.
use crate::rows::{FileType, btf, graph_of, table_of};
use c_model::{Graph, Ref};
use split_base::{TableFault, with_base};
use std::alloc::Global;
use std::test::Fail;

/// A forward `foo` and a pointer to it.
const DECLARES: &[FileType] = &[(7, b"foo", 0, &[], &[]), (2, b"", 0, &[], &[1])];

/// `int`, a structure `foo` of a member `x`, and a pointer to it.
const DEFINES: &[FileType] = &[
    (1, b"int", 4, &[], &[]),
    (4, b"foo", 4, &[(b"x", 0)], &[1]),
    (2, b"", 0, &[], &[2]),
];

/// The kind of each node, and what it refers to.
const WANTED: &[(u8, &[Ref])] = &[
    (7, &[]),
    (2, &[Ref::Node(0)]),
    (1, &[]),
    (4, &[Ref::Node(2)]),
    (2, &[Ref::Node(3)]),
];

/// Whether a graph has two base nodes, and these nodes.
fn has_nodes(graph: &Graph<'_>, wanted: &[(u8, &[Ref])]) -> bool {
    for (node, (kind, targets)) in graph.nodes().iter().zip(wanted) {
        if node.label.kind != *kind || node.targets.items() != *targets {
            return false;
        }
    }
    graph.base() == 2 && graph.nodes().len() == wanted.len()
}

/// Whether the graph of the base that bytes spell has these nodes.
fn has_alone(alloc: Global, below: &[u8], wanted: &[(u8, &[Ref])]) -> Result<bool, Fail> {
    let table = table_of(alloc, below)?;
    let alone = split_base::graph_of(alloc, &table)?;
    Ok(has_nodes(&alone, wanted))
}

/// The graph of the base and the file that bytes spell, where it has no more than `most` nodes.
fn whole<'a>(
    alloc: Global,
    below: &'a [u8],
    most: u32,
    bytes: &'a [u8],
) -> Result<Result<Graph<'a>, TableFault>, Fail> {
    let graph = graph_of(alloc, 0, bytes)?;
    let table = table_of(alloc, below)?;
    Ok(with_base(alloc, &table, most, graph))
}

/// Whether there is a graph of base and file with the nodes that are wanted, or it is refused so.
fn is_joined(
    alloc: Global,
    below: &[u8],
    most: u32,
    bytes: &[u8],
    refused: Option<TableFault>,
) -> Result<bool, Fail> {
    match whole(alloc, below, most, bytes)? {
        Ok(graph) => Ok(refused.is_none() && has_nodes(&graph, WANTED)),
        Err(fault) => Ok(refused == Some(fault)),
    }
}

/// Whether base nodes come first in the graph of the base, and in that of base and file, which has
/// at most five nodes.
fn come_first(alloc: Global, below: &[u8], bytes: &[u8]) -> Result<bool, Fail> {
    let too_many = Some(TableFault::NodesTooMany(5));
    Ok(
        has_alone(alloc, below, &WANTED[..2])?
            && is_joined(alloc, below, 5, bytes, None)?
            && is_joined(alloc, below, 4, bytes, too_many)?,
    )
}

#[test]
fn base_nodes_come_first(rt: HostRuntime) -> Result<(), Fail> {
    let below = btf(rt.alloc(), DECLARES)?;
    let bytes = btf(rt.alloc(), DEFINES)?;
    let holds = come_first(rt.alloc(), &below, &bytes)?;
    assert!(rt; holds);
    Ok(())
}
