//! Two units that describe the same: a pointer to itself, or the head of a list.
ghost use Rattle.std.specs.Prelude.{◌≡◌, ◌<◌, length};

use crate::rows::{FilePart, FileType, btf, graph_of};
use c_model::{Classes, Graph};
use dw_base::Steps;
use forward_rule::FwdIndex;
use std::alloc::{AllocError, Global};
use std::marker::Brand;
use std::sync::ledger::{Blank, Ledger};
use std::test::Fail;
use type_signature::{NodeKey, Numbering, key, key_uncounted, label_classes};

/// Two pointers to themselves.
const POINTERS: &[FileType] = &[(2, b"", 0, &[], &[1]), (2, b"", 0, &[], &[2])];

/// Twice `struct list_head { struct list_head *next, *prev; }` and its pointer.
const LIST_HEADS: &[FileType] = &[
    (4, b"list_head", 16, LINKS, &[2, 2]),
    (2, b"", 0, &[], &[1]),
    (4, b"list_head", 16, LINKS, &[4, 4]),
    (2, b"", 0, &[], &[3]),
];

const LINKS: &[FilePart] = &[(b"next", 0), (b"prev", 64)];

/// The keys of two nodes, in these classes.
fn keys_of<L: Ledger>(
    alloc: Global,
    graph: &Graph<'_>,
    now: &Classes,
    nodes: (u32, u32),
    steps: &mut Steps<L>,
) -> Result<(NodeKey, NodeKey), AllocError>
    requires first { nodes.0 < length graph.now.nodes }
    requires second { nodes.1 < length graph.now.nodes }
    requires classes { length now.now ≡ length graph.now.nodes }
{
    let fwd = FwdIndex::plain(graph);
    let first = key(alloc, graph, &fwd, now, nodes.0, steps)?;
    Ok((first, key_uncounted(alloc, graph, &fwd, now, nodes.1)?))
}

/// The numbers of these keys.
fn numbers_of<L: Ledger>(
    alloc: Global,
    first: NodeKey,
    second: NodeKey,
    steps: &mut Steps<L>,
) -> Result<(u32, u32), AllocError> {
    let mut numbering = Numbering::new(alloc)?;
    let place = numbering.take(first, steps)?;
    Ok((place, numbering.take(second, steps)?))
}

/// The numbers of two nodes' keys where each label is a class.
fn numbers_by_labels<L: Ledger>(
    alloc: Global,
    graph: &Graph<'_>,
    nodes: (u32, u32),
    blank: Blank,
) -> Result<(u32, u32), AllocError>
    requires name { blank.name ≡ L.name }
    requires parts { blank.parts ≡ L.parts }
    requires some { 0 < L.parts }
    requires first { nodes.0 < length graph.now.nodes }
    requires second { nodes.1 < length graph.now.nodes }
{
    let mut steps = Steps::<L>::new(blank);
    let now = label_classes(alloc, graph)?;
    let (first, second) = keys_of(alloc, graph, &now, nodes, &mut steps)?;
    numbers_of(alloc, first, second, &mut steps)
}

/// The numbers of the keys of two of the nodes that bytes spell.
fn numbers_from(alloc: Global, bytes: &[u8], nodes: (u32, u32)) -> Result<(u32, u32), Fail> {
    let graph = graph_of(alloc, 0, bytes)?;
    if nodes.0 >= graph.len() || nodes.1 >= graph.len() {
        return Err(Fail::from("fewer nodes"));
    }
    Ok(numbers_by_labels::<Brand>(alloc, &graph, nodes, Blank::new(1))?)
}

/// Types, two of their nodes, and the numbers of these nodes' keys.
type Numbered = (&'static [FileType], (u32, u32), (u32, u32));

const NUMBERS: &[Numbered] = &[
    (POINTERS, (0, 1), (0, 0)),
    (LIST_HEADS, (0, 2), (0, 0)),
    (LIST_HEADS, (3, 1), (0, 0)),
    (LIST_HEADS, (0, 3), (0, 1)),
];

#[test]
fn equal_types_have_one_key(rt: HostRuntime) -> Result<(), Fail> {
    let alloc = rt.alloc();
    for &(types, nodes, wanted) in NUMBERS {
        let bytes = btf(alloc, types)?;
        let numbers = numbers_from(alloc, &bytes, nodes)?;
        assert_eq!(rt; numbers, wanted);
    }
    Ok(())
}
