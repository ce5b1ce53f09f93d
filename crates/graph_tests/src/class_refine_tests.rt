//! Graphs whose classes are known. More of them are compared with the plain program over pairs in
//! `graph_cases`.
ghost use Rattle.std.specs.Prelude.{◌≡◌, ◌<◌};
ghost use Rattle.c_model.specs.Forwards.{IsIndexOf, HasFittingForwards};

use crate::rows::{GraphRow, forwards_of, types_of};
use c_model::Ref::{Node, Void};
use c_model::kinds::{
    BTF_KIND_ENUM, BTF_KIND_FWD, BTF_KIND_INT, BTF_KIND_PTR, BTF_KIND_STRUCT, BTF_KIND_UNION,
};
use c_model::{CType, Classes, Graph};
use class_refine::classes;
use dw_base::Steps;
use forward_rule::FwdIndex;
use small_graphs::fitting::{graph_from, is_fitting};
use small_graphs::ring::{ring, ring_classes};
use small_graphs::rows::PartRow;
use small_graphs::same::is_one_relation;
use std::alloc::{AllocError, Global};
use std::marker::Brand;
use std::sync::ledger::{Blank, Ledger};
use std::test::Fail;
use std::thread::Threads;

/// A member at offset 0.
const FIRST: &[PartRow] = &[(b"", 0)];

/// A member at offset 1.
const SECOND: &[PartRow] = &[(b"", 1)];

/// Structures that refer to each other, first through declarations, then defined.
const THROUGH_DECLARATIONS: &[GraphRow] = &[
    (BTF_KIND_STRUCT, b"A", 8, FIRST, &[Node(1)]),
    (BTF_KIND_PTR, b"", 0, &[], &[Node(2)]),
    (BTF_KIND_FWD, b"B", 0, &[], &[]),
    (BTF_KIND_STRUCT, b"B", 8, SECOND, &[Node(4)]),
    (BTF_KIND_PTR, b"", 0, &[], &[Node(5)]),
    (BTF_KIND_FWD, b"A", 0, &[], &[]),
    (BTF_KIND_STRUCT, b"A", 8, FIRST, &[Node(7)]),
    (BTF_KIND_PTR, b"", 0, &[], &[Node(8)]),
    (BTF_KIND_STRUCT, b"B", 8, SECOND, &[Node(9)]),
    (BTF_KIND_PTR, b"", 0, &[], &[Node(6)]),
];

/// Two members of 32 bits.
const HALVES: &[PartRow] = &[(b"", 0), (b"", 32)];

/// A declaration with two definitions that differ.
const TWO_DEFINITIONS: &[GraphRow] = &[
    (BTF_KIND_INT, b"int", 4, &[], &[]),
    (BTF_KIND_STRUCT, b"B", 8, FIRST, &[Node(0)]),
    (BTF_KIND_PTR, b"", 0, &[], &[Node(1)]),
    (BTF_KIND_STRUCT, b"A", 8, FIRST, &[Node(2)]),
    (BTF_KIND_INT, b"int", 4, &[], &[]),
    (BTF_KIND_STRUCT, b"B", 8, HALVES, &[Node(4), Node(4)]),
    (BTF_KIND_PTR, b"", 0, &[], &[Node(5)]),
    (BTF_KIND_STRUCT, b"A", 8, FIRST, &[Node(6)]),
    (BTF_KIND_FWD, b"B", 0, &[], &[]),
    (BTF_KIND_PTR, b"", 0, &[], &[Node(8)]),
    (BTF_KIND_STRUCT, b"A", 8, FIRST, &[Node(9)]),
];

/// Two members of 64 bits.
const LINKS: &[PartRow] = &[(b"", 0), (b"", 64)];

/// The same structure with its pointer in two units, and pointers to themselves.
const IN_TWO_UNITS: &[GraphRow] = &[
    (BTF_KIND_STRUCT, b"list_head", 8, LINKS, &[Node(1), Node(1)]),
    (BTF_KIND_PTR, b"", 0, &[], &[Node(0)]),
    (BTF_KIND_STRUCT, b"list_head", 8, LINKS, &[Node(3), Node(3)]),
    (BTF_KIND_PTR, b"", 0, &[], &[Node(2)]),
    (BTF_KIND_PTR, b"", 0, &[], &[Node(4)]),
    (BTF_KIND_PTR, b"", 0, &[], &[Node(5)]),
];

/// An enumeration declared and defined, one more of that name, and a structure declared beside a
/// union.
const ENUMERATIONS_AND_UNIONS: &[GraphRow] = &[
    (BTF_KIND_ENUM, b"e", 4, &[], &[]),
    (BTF_KIND_ENUM, b"e", 4, FIRST, &[]),
    (BTF_KIND_FWD, b"t", 0, &[], &[]),
    (BTF_KIND_PTR, b"", 0, &[], &[Node(2)]),
    (BTF_KIND_STRUCT, b"t", 8, &[], &[]),
    (BTF_KIND_UNION, b"t", 8, &[], &[]),
    (BTF_KIND_FWD, b"u", 0, &[], &[]),
    (BTF_KIND_FWD, b"u", 0, &[], &[]),
    (BTF_KIND_UNION, b"u", 4, &[(b"", 3)], &[Void]),
    (BTF_KIND_UNION, b"u", 4, &[(b"", 5)], &[Void]),
];

/// Types, and numbers that relate those of one class.
type KnownClasses = (&'static [GraphRow], &'static [u32]);

const KNOWN: &[KnownClasses] = &[
    (THROUGH_DECLARATIONS, &[0, 1, 2, 2, 3, 0, 0, 1, 2, 3]),
    (TWO_DEFINITIONS, &[0, 1, 2, 3, 0, 4, 5, 6, 7, 8, 9]),
    (IN_TWO_UNITS, &[0, 1, 0, 1, 2, 2]),
    (ENUMERATIONS_AND_UNIONS, &[0, 0, 1, 2, 1, 3, 4, 4, 5, 6]),
    (&[], &[]),
];

/// The coarsest partition of a graph.
fn classes_of<R: Threads + Sync, L: Ledger>(
    rt: &R,
    alloc: Global,
    graph: &Graph<'_>,
    fwd: &FwdIndex,
    blank: Blank,
) -> Result<Classes, AllocError>
    requires name { blank.name ≡ L.name }
    requires parts { blank.parts ≡ L.parts }
    requires some { 0 < L.parts }
    requires index { IsIndexOf graph.now fwd.now }
    requires fitting { HasFittingForwards graph.now }
{
    let mut steps = Steps::<L>::new(blank);
    let refined = classes(rt, alloc, graph, fwd, &mut steps)?;
    Ok(refined.classes)
}

/// Whether the coarsest partition of a graph relates exactly the nodes that `want` gives one
/// number.
fn is_related<R: Threads + Sync>(
    rt: &R,
    alloc: Global,
    graph: &Graph<'_>,
    fwd: &FwdIndex,
    want: &[u32],
) -> Result<bool, AllocError>
    requires index { IsIndexOf graph.now fwd.now }
    requires fitting { HasFittingForwards graph.now }
{
    let found = classes_of::<R, Brand>(rt, alloc, graph, fwd, Blank::new(1))?;
    Ok(is_one_relation(found.numbers(), want))
}

/// The same with the graph's open forwards.
fn is_related_opened<R: Threads + Sync>(
    rt: &R,
    alloc: Global,
    graph: &Graph<'_>,
    want: &[u32],
) -> Result<bool, AllocError>
    requires base { graph.now.base ≡ 0 }
    requires fitting { HasFittingForwards graph.now }
{
    let fwd = forwards_of(alloc, graph)?;
    is_related(rt, alloc, graph, &fwd, want)
}

/// Whether the types make a graph whose forwards fit, and its coarsest partition relates exactly
/// those that `want` gives one number.
fn relates<R: Threads + Sync>(
    rt: &R,
    alloc: Global,
    types: Vec<CType<'_>>,
    want: &[u32],
) -> Result<bool, AllocError> {
    match graph_from(0, types) {
        Some(graph) if is_fitting(&graph) => is_related_opened(rt, alloc, &graph, want),
        _ => Ok(false),
    }
}

/// The same of the types of these rows.
fn relates_rows<R: Threads + Sync>(
    rt: &R,
    alloc: Global,
    rows: &[GraphRow],
    want: &[u32],
) -> Result<bool, AllocError> {
    relates(rt, alloc, types_of(alloc, rows)?, want)
}

/// How many of these graphs stand before the first that has other classes.
fn right_count<R: Threads + Sync>(
    rt: &R,
    alloc: Global,
    known: &[KnownClasses],
) -> Result<usize, AllocError> {
    let mut count = 0usize;
    for graph in known {
        if !relates_rows(rt, alloc, graph.0, graph.1)? {
            break;
        }
        count = count.saturating_add(1);
    }
    Ok(count)
}

#[test]
fn known_graphs_have_their_classes(rt: HostRuntime) -> Result<(), Fail> {
    let count = right_count(&rt, rt.alloc(), KNOWN)?;
    assert_eq!(rt; count, KNOWN.len());
    Ok(())
}

/// Whether a ring of 1000 pointers among equal structures has two classes.
fn ring_has_two_classes<R: Threads + Sync>(rt: &R, alloc: Global) -> Result<bool, AllocError> {
    let want = ring_classes(alloc, 2000)?;
    relates(rt, alloc, ring(alloc, 2000)?, &want)
}

#[test]
fn a_ring_has_two_classes(rt: HostRuntime) -> Result<(), Fail> {
    let is_right = ring_has_two_classes(&rt, rt.alloc())?;
    assert!(rt; is_right);
    Ok(())
}
