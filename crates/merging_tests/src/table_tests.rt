//! Tables of small graphs and partitions: of declarations beside definitions, and beside a base.
ghost use Rattle.std.specs.Prelude.{◌≡◌, All, length};
ghost use Rattle.c_model.specs.Kinds.{IsWellFormed};

use crate::rows::{FilePart, FileType, are_of, btf, graph_of};
use btf_codec::TableOut;
use c_model::{Classes, Graph, Numbers};
use small_graphs::fitting::is_base;
use split_base::build;
use std::alloc::{AllocError, Global};
use std::test::Fail;

/// A graph, a partition of it, and the table that is wanted of them.
struct Case {
    /// How many nodes are the base's.
    base: u32,
    /// The strings of the base.
    names: Option<&'static [u8]>,
    nodes: &'static [FileType],
    classes: &'static [u32],
    /// The own types.
    own: &'static [FileType],
    /// The own strings.
    strings: &'static [u8],
}

const X: FilePart = (b"x", 0);

const Y: FilePart = (b"y", 32);

const B: FilePart = (b"b", 0);

const LINKS: &[FilePart] = &[(b"next", 0), (b"prev", 64)];

const CASES: &[Case] = &[
    // One type for each class.
    Case {
        base: 0,
        names: None,
        nodes: &[(1, b"int", 4, &[], &[]), (1, b"int", 8, &[], &[])],
        classes: &[0, 1],
        own: &[(1, b"int", 4, &[], &[]), (1, b"int", 8, &[], &[])],
        strings: b"\0int\0",
    },
    // C's `struct foo; struct foo *p;`, and `struct foo {};` in another unit.
    Case {
        base: 0,
        names: None,
        nodes: &[
            (7, b"foo", 0, &[], &[]),
            (2, b"", 0, &[], &[1]),
            (4, b"foo", 0, &[], &[]),
        ],
        classes: &[7, 9, 7],
        own: &[(4, b"foo", 0, &[], &[]), (2, b"", 0, &[], &[1])],
        strings: b"\0foo\0",
    },
    // A declaration of two definitions.
    Case {
        base: 0,
        names: None,
        nodes: &[
            (1, b"int", 4, &[], &[]),
            (4, b"B", 4, &[X], &[1]),
            (2, b"", 0, &[], &[2]),
            (4, b"A", 8, &[B], &[3]),
            (1, b"int", 4, &[], &[]),
            (4, b"B", 8, &[X, Y], &[5, 5]),
            (2, b"", 0, &[], &[6]),
            (4, b"A", 8, &[B], &[7]),
            (7, b"B", 0, &[], &[]),
            (2, b"", 0, &[], &[9]),
            (4, b"A", 8, &[B], &[10]),
        ],
        classes: &[0, 1, 2, 3, 0, 4, 5, 6, 7, 8, 9],
        own: &[
            (1, b"int", 4, &[], &[]),
            (4, b"B", 4, &[X], &[1]),
            (2, b"", 0, &[], &[2]),
            (4, b"A", 8, &[B], &[3]),
            (4, b"B", 8, &[X, Y], &[1, 1]),
            (2, b"", 0, &[], &[5]),
            (4, b"A", 8, &[B], &[6]),
            (7, b"B", 0, &[], &[]),
            (2, b"", 0, &[], &[8]),
            (4, b"A", 8, &[B], &[9]),
        ],
        strings: b"\0int\0B\0x\0A\0b\0y\0",
    },
    // Types beside a base.
    Case {
        base: 2,
        names: Some(b"\0foo\0"),
        nodes: &[
            (7, b"foo", 0, &[], &[]),
            (2, b"", 0, &[], &[1]),
            (1, b"int", 4, &[], &[]),
            (4, b"foo", 4, &[X], &[3]),
            (2, b"", 0, &[], &[4]),
        ],
        classes: &[0, 1, 2, 3, 4],
        own: &[
            (1, b"int", 4, &[], &[]),
            (4, b"foo", 4, &[X], &[3]),
            (2, b"", 0, &[], &[4]),
        ],
        strings: b"int\0x\0",
    },
    // The base's own definitions of `foo` are different types, so that the file's forward is the
    // base's.
    Case {
        base: 4,
        names: Some(b"\0foo\0"),
        nodes: &[
            (4, b"foo", 4, &[], &[]),
            (4, b"foo", 8, &[], &[]),
            (7, b"foo", 0, &[], &[]),
            (2, b"", 0, &[], &[3]),
            (7, b"foo", 0, &[], &[]),
            (2, b"", 0, &[], &[5]),
        ],
        classes: &[0, 1, 2, 3, 2, 3],
        own: &[],
        strings: b"",
    },
    // A base's type keeps its id.
    Case {
        base: 2,
        names: Some(b"\0list_head\0next\0prev\0"),
        nodes: &[
            (4, b"list_head", 16, LINKS, &[2, 2]),
            (2, b"", 0, &[], &[1]),
            (4, b"list_head", 16, LINKS, &[4, 4]),
            (2, b"", 0, &[], &[3]),
            (8, b"lh", 0, &[], &[3]),
            (4, b"list_head", 16, LINKS, &[7, 7]),
            (2, b"", 0, &[], &[6]),
        ],
        classes: &[0, 1, 0, 1, 2, 0, 1],
        own: &[(8, b"lh", 0, &[], &[1])],
        strings: b"lh\0",
    },
];

/// Whether the own types and the own strings are these.
fn has_own(table: &TableOut<'_>, own: &[FileType], strings: &[u8]) -> bool {
    match table.types.items().get(table.base as usize..) {
        Some(types) => are_of(types, own) && table.strings.bytes() == strings,
        None => false,
    }
}

/// Whether the table that is wanted is made of a graph and its classes.
fn is_made(alloc: Global, case: &Case, graph: &Graph<'_>, classes: &Classes) -> bool
    requires covers { length classes.now ≡ length graph.now.nodes }
    requires well { All IsWellFormed graph.now.nodes }
{
    if !is_base(case.names) {
        return false;
    }
    match build(alloc, graph, classes, case.names) {
        Ok(table) => has_own(&table, case.own, case.strings),
        Err(_) => false,
    }
}

/// Whether the table that is wanted is made of a graph.
fn is_made_of(alloc: Global, case: &Case, graph: &Graph<'_>) -> Result<bool, AllocError>
    requires { All IsWellFormed graph.now.nodes }
{
    let classes = Classes::new(Numbers::new(Vec::from_slice(alloc, case.classes)?));
    Ok(classes.numbers().len() == graph.nodes().len() && is_made(alloc, case, graph, &classes))
}

/// Whether the table that is wanted is made of the nodes that bytes spell.
fn is_made_from(alloc: Global, case: &Case, bytes: &[u8]) -> Result<bool, Fail> {
    let graph = graph_of(alloc, case.base, bytes)?;
    Ok(is_made_of(alloc, case, &graph)?)
}

/// How many of these cases stand before the first whose table is not as it is wanted.
fn right_count(alloc: Global, cases: &[Case]) -> Result<usize, Fail> {
    let mut count = 0usize;
    for case in cases {
        if !is_made_from(alloc, case, &btf(alloc, case.nodes)?)? {
            break;
        }
        count = count.saturating_add(1);
    }
    Ok(count)
}

#[test]
fn tables_of_classes(rt: HostRuntime) -> Result<(), Fail> {
    let count = right_count(rt.alloc(), CASES)?;
    assert_eq!(rt; count, CASES.len());
    Ok(())
}
