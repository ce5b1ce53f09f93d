//! Which functions are chosen of small graphs made by hand, without a base and behind one.
ghost use Rattle.std.specs.Prelude.{◌≡◌, All, IfSome};
ghost use Rattle.base_merge.specs.Merging.{CanBeBase};
ghost use Rattle.c_model.specs.Kinds.{IsWellFormed};

use crate::fitting::{are_named, are_no_funcs, are_protos};
use crate::functions::{Function, GLOBAL, LOCAL, entries, has_funcs};
use crate::rows::{FileType, btf, graph_of, table_of};
use base_merge::PartedGraph;
use btf_codec::Table;
use c_model::Graph;
use func_merge::choose_over;
use func_types::{FileProtos, Funcs, Protos};
use packed_graph::packed;
use small_graphs::fitting::is_fitting;
use split_base::TableFault;
use std::alloc::{AllocError, Global};
use std::test::Fail;
use std::thread::Threads;

/// Files behind a base, and what is chosen of them.
#[derive(Clone, Copy)]
struct Case {
    /// The types of the base; there is none where it has none.
    base: &'static [FileType],
    /// The most nodes.
    most: u32,
    /// The types of the files, with the prototypes behind the first `plain`.
    types: &'static [FileType],
    plain: u32,
    rows: &'static [Function],
    wanted: Result<&'static [Function], TableFault>,
}

const INT: FileType = (1, b"int", 4, &[], &[]);

const F: &[u8] = b"f";

const G: &[u8] = b"g";

/// Two prototypes that return `int`, and one that returns nothing.
const PROTOS: &[FileType] = &[
    INT,
    (13, b"", 0, &[], &[1]),
    (13, b"", 0, &[], &[1]),
    (13, b"", 0, &[], &[0]),
];

/// Two prototypes that return pointers to `foo`, where it is defined and where it is only declared.
const POINTERS: &[FileType] = &[
    (4, b"foo", 4, &[], &[]),
    (7, b"foo", 0, &[], &[]),
    (2, b"", 0, &[], &[1]),
    (2, b"", 0, &[], &[2]),
    (13, b"", 0, &[], &[3]),
    (13, b"", 0, &[], &[4]),
];

const OF_POINTERS: &[Function] = &[(F, GLOBAL, 4), (F, GLOBAL, 5)];

/// A prototype that returns `int`.
const ONE: &[FileType] = &[INT, (13, b"", 0, &[], &[1])];

/// A case without a base, of entries of three prototypes.
const BY_PROTOS: Case = Case {
    base: &[],
    most: 0,
    types: PROTOS,
    plain: 1,
    rows: &[],
    wanted: Ok(&[]),
};

/// Entries, and the functions that are chosen of them.
const ALONE: &[Case] = &[
    // No functions, and one.
    BY_PROTOS,
    Case {
        rows: &[(F, GLOBAL, 1)],
        wanted: Ok(&[(F, GLOBAL, 1)]),
        ..BY_PROTOS
    },
    // A static and an external function of one name; prototypes of one class; and prototypes that
    // differ.
    Case {
        rows: &[(F, LOCAL, 1), (F, GLOBAL, 2)],
        ..BY_PROTOS
    },
    Case {
        rows: &[(F, LOCAL, 2), (F, LOCAL, 1)],
        wanted: Ok(&[(F, LOCAL, 2)]),
        ..BY_PROTOS
    },
    Case {
        rows: &[(F, GLOBAL, 1), (F, GLOBAL, 3)],
        ..BY_PROTOS
    },
    Case {
        rows: &[(G, GLOBAL, 3), (F, LOCAL, 1), (G, LOCAL, 3), (F, LOCAL, 2)],
        wanted: Ok(&[(F, LOCAL, 1)]),
        ..BY_PROTOS
    },
];

/// A case of pointers, behind a base or without one.
const BY_POINTERS: Case = Case {
    base: &[],
    most: 8,
    types: POINTERS,
    plain: 4,
    rows: OF_POINTERS,
    wanted: Ok(&[(F, GLOBAL, 4)]),
};

/// A base with the same definition changes nothing; one with two definitions leaves the declaration
/// alone.
const BEHIND: &[Case] = &[
    BY_POINTERS,
    Case {
        base: &[INT, (4, b"foo", 4, &[], &[])],
        ..BY_POINTERS
    },
    Case {
        base: &[(4, b"foo", 4, &[], &[]), (4, b"foo", 8, &[], &[])],
        wanted: Ok(&[]),
        ..BY_POINTERS
    },
];

/// A case of a base that has the prototype; base and files have four nodes together.
const BY_ONE: Case = Case {
    base: ONE,
    most: 4,
    types: ONE,
    plain: 1,
    rows: &[(F, LOCAL, 1)],
    wanted: Ok(&[(F, LOCAL, 1)]),
};

/// As many nodes as there may be, and too many.
const LIMITED: &[Case] = &[
    BY_ONE,
    Case {
        most: 3,
        wanted: Err(TableFault::NodesTooMany(4)),
        ..BY_ONE
    },
    Case {
        most: 0,
        wanted: Err(TableFault::NodesTooMany(4)),
        ..BY_ONE
    },
];

/// What is chosen of a graph of types and prototypes.
fn choose<'a, R: Threads + Sync>(
    rt: &R,
    alloc: Global,
    base: Option<&Table<'a>>,
    case: &Case,
    graph: &Graph<'a>,
) -> Result<Result<PartedGraph<'a>, TableFault>, Fail>
    requires base { IfSome base (λ b. CanBeBase b.now) }
    requires alone { graph.now.base ≡ 0 }
    requires well { All IsWellFormed graph.now.nodes }
{
    let funcs = entries(alloc, case.rows)?;
    if !are_protos(graph, case.plain, &funcs)
        || !are_named(&funcs)
        || !are_no_funcs(graph.nodes())
        || !is_fitting(graph)
    {
        return Err(Fail::from("no graph of prototypes and entries"));
    }
    let protos = Protos {
        graph: packed(alloc, graph)?,
        plain: case.plain,
        funcs: Funcs::new(funcs),
    };
    let protos = FileProtos::new(protos);
    Ok(choose_over(rt, alloc, 2, base, case.most, protos))
}

/// Whether a case comes out as it is wanted of a graph. The classes are known exactly where there
/// is no base.
fn chooses_of<'a, R: Threads + Sync>(
    rt: &R,
    alloc: Global,
    base: Option<&Table<'a>>,
    case: &Case,
    graph: &Graph<'a>,
) -> Result<bool, Fail>
    requires base { IfSome base (λ b. CanBeBase b.now) }
    requires alone { graph.now.base ≡ 0 }
    requires well { All IsWellFormed graph.now.nodes }
{
    match choose(rt, alloc, base, case, graph)? {
        Ok(chosen) => Ok(is_wanted(alloc, chosen, base.is_none(), case, graph)?),
        Err(fault) => Ok(case.wanted.err() == Some(fault)),
    }
}

/// Whether a case comes out as it is wanted over a base, where there is one.
fn chooses_over<'a, R: Threads + Sync>(
    rt: &R,
    alloc: Global,
    base: Option<&Table<'a>>,
    case: &Case,
    bytes: &'a [u8],
) -> Result<bool, Fail>
    requires { IfSome base (λ b. CanBeBase b.now) }
{
    let graph = graph_of(alloc, 0, bytes)?;
    chooses_of(rt, alloc, base, case, &graph)
}

/// Whether the chosen functions are those that are wanted.
fn is_wanted(
    alloc: Global,
    chosen: PartedGraph<'_>,
    is_alone: bool,
    case: &Case,
    graph: &Graph<'_>,
) -> Result<bool, AllocError> {
    let Ok(rows) = case.wanted else {
        return Ok(false);
    };
    let (chosen, classes) = chosen.into_parts();
    let made = chosen.packed().unpack(alloc)?;
    let has_all = has_funcs(made.nodes(), graph.nodes(), case.plain, rows);
    Ok(has_all && classes.is_some() == is_alone)
}

/// Whether a case comes out as it is wanted, with the base that bytes spell, where there are types.
fn chooses_from<R: Threads + Sync>(
    rt: &R,
    alloc: Global,
    case: &Case,
    below: &[u8],
    bytes: &[u8],
) -> Result<bool, Fail> {
    if case.base.is_empty() {
        return chooses_over(rt, alloc, None, case, bytes);
    }
    let base = table_of(alloc, below)?;
    chooses_over(rt, alloc, Some(&base), case, bytes)
}

/// Whether a case comes out as it is wanted.
fn chooses<R: Threads + Sync>(rt: &R, alloc: Global, case: &Case) -> Result<bool, Fail> {
    let below = btf(alloc, case.base)?;
    let bytes = btf(alloc, case.types)?;
    chooses_from(rt, alloc, case, &below, &bytes)
}

/// How many of these cases stand before the first that does not come out as it is wanted.
fn right_count<R: Threads + Sync>(rt: &R, alloc: Global, cases: &[Case]) -> Result<usize, Fail> {
    let mut count = 0usize;
    for case in cases {
        if !chooses(rt, alloc, case)? {
            break;
        }
        count = count.saturating_add(1);
    }
    Ok(count)
}

#[test]
fn without_a_base(rt: HostRuntime) -> Result<(), Fail> {
    let count = right_count(&rt, rt.alloc(), ALONE)?;
    assert_eq!(rt; count, ALONE.len());
    Ok(())
}

#[test]
fn behind_a_base(rt: HostRuntime) -> Result<(), Fail> {
    let count = right_count(&rt, rt.alloc(), BEHIND)?;
    assert_eq!(rt; count, BEHIND.len());
    Ok(())
}

#[test]
fn as_many_nodes_as_there_may_be(rt: HostRuntime) -> Result<(), Fail> {
    let count = right_count(&rt, rt.alloc(), LIMITED)?;
    assert_eq!(rt; count, LIMITED.len());
    Ok(())
}
