//! Which names of a list of function entries are chosen. Each prototype is told from the others by
//! the number of its parameters.
ghost use Rattle.std.specs.Prelude.{◌≡◌, ◌<◌, ◌≤◌, ◌+◌, ◌*◌, ◌^◌, All, length};
ghost use Rattle.c_model.specs.Graph.{RefersWithin};

use crate::fitting::are_protos;
use crate::functions::{Function, GLOBAL, LOCAL, entries, has_funcs};
use crate::rows::{FilePart, FileType, btf, graph_of};
use c_model::{Classes, Graph, Numbers};
use func_types::{Func, Funcs, Protos, chosen};
use std::alloc::{AllocError, Global};
use std::test::Fail;

/// A parameter.
const PART: FilePart = (b"x", 0);

/// `int`, and prototypes that return it.
const TYPES: [FileType; 5] = [
    (1, b"int", 4, &[], &[]),
    (13, b"", 0, &[PART], &[1, 0]),
    (13, b"", 0, &[PART, PART], &[1, 0, 0]),
    (13, b"", 0, &[PART, PART, PART], &[1, 0, 0, 0]),
    (13, b"", 0, &[PART, PART, PART, PART], &[1, 0, 0, 0, 0]),
];

/// The nodes of a base; the classes of its nodes, of `int`, and of each prototype; the entries; and
/// the functions that are chosen.
type Case = (
    u32,
    &'static [u32],
    &'static [Function],
    &'static [Function],
);

const F: &[u8] = b"f";

const G: &[u8] = b"g";

const H: &[u8] = b"ff";

/// A function twice, the second time by another prototype.
const TWICE: &[Function] = &[(F, LOCAL, 1), (F, LOCAL, 2)];

const MANY: &[Function] = &[
    (H, GLOBAL, 2),
    (G, LOCAL, 3),
    (F, GLOBAL, 1),
    (G, LOCAL, 1),
    (H, GLOBAL, 4),
    (F, GLOBAL, 2),
];

const CASES: &[Case] = &[
    // No functions, and one.
    (0, &[0], &[], &[]),
    (0, &[0, 1], &[(F, GLOBAL, 1)], &[(F, GLOBAL, 1)]),
    // A function twice, the second time by another prototype of its class; behind a base too.
    (0, &[0, 1, 1], TWICE, &[(F, LOCAL, 1)]),
    (2, &[7, 1, 0, 5, 5], TWICE, &[(F, LOCAL, 1)]),
    // Prototypes that differ, and a name with two linkages.
    (0, &[0, 1, 2], TWICE, &[]),
    (0, &[0, 1], &[(F, GLOBAL, 1), (F, LOCAL, 1)], &[]),
    // Chosen names stand in the order of their first entries, each with its first prototype.
    (0, &[0, 1, 1, 2, 1], MANY, &[(H, GLOBAL, 2), (F, GLOBAL, 1)]),
    (
        0,
        &[9, 4, 4, 4, 4],
        MANY,
        &[(H, GLOBAL, 2), (G, LOCAL, 3), (F, GLOBAL, 1)],
    ),
    // Only the last entry of a name is unlike.
    (
        0,
        &[0, 1, 2],
        &[
            (F, GLOBAL, 1),
            (G, GLOBAL, 1),
            (F, GLOBAL, 1),
            (F, GLOBAL, 2),
        ],
        &[(G, GLOBAL, 1)],
    ),
];

/// Whether exactly the wanted functions are chosen by these classes, behind so many nodes.
fn has_chosen(
    alloc: Global,
    base: u32,
    protos: &Protos<'_>,
    classes: &Classes,
    wanted: &[Function],
) -> Result<bool, AllocError>
    requires alone { protos.now.graph.base ≡ 0 }
    requires plain { protos.now.plain ≤ length protos.now.graph.nodes }
    requires within { RefersWithin protos.now.plain protos.now.graph.nodes }
    requires protos { All (λ f. f.proto < length protos.now.graph.nodes) protos.now.funcs }
    requires room { protos.now.plain + 2 * length protos.now.funcs < 2 ^ 32 }
    requires few { base + length protos.now.graph.nodes < 2 ^ 32 }
    requires covers { length classes.now ≡ base + length protos.now.graph.nodes }
{
    let made = chosen(alloc, base, protos, classes)?;
    Ok(has_funcs(made.nodes(), protos.graph.nodes(), protos.plain, wanted))
}

/// Whether exactly the wanted functions of a case are chosen of these types and entries.
fn chooses_of<'a>(
    alloc: Global,
    case: &Case,
    graph: Graph<'a>,
    funcs: Vec<Func<'a>>,
) -> Result<bool, AllocError>
    requires { graph.base ≡ 0 }
{
    let (base, numbers, _, wanted) = *case;
    if base > 100 || !are_protos(&graph, 1, &funcs) {
        return Ok(false);
    }
    if numbers.len() != base as usize + graph.len() as usize {
        return Ok(false);
    }
    let protos = Protos {
        graph,
        plain: 1,
        funcs: Funcs::new(funcs),
    };
    let classes = Classes::new(Numbers::new(Vec::from_slice(alloc, numbers)?));
    has_chosen(alloc, base, &protos, &classes, wanted)
}

/// Whether exactly the wanted functions of a case are chosen of the types that bytes spell.
fn chooses_from(alloc: Global, case: &Case, bytes: &[u8]) -> Result<bool, Fail> {
    let funcs = entries(alloc, case.2)?;
    Ok(chooses_of(alloc, case, graph_of(alloc, 0, bytes)?, funcs)?)
}

/// Whether exactly the wanted functions of a case are chosen.
fn chooses(alloc: Global, case: &Case) -> Result<bool, Fail> {
    let count = case.1.len().saturating_sub(case.0 as usize);
    match TYPES.get(..count) {
        Some(types) => chooses_from(alloc, case, &btf(alloc, types)?),
        None => Ok(false),
    }
}

/// How many of these cases stand before the first of which other functions are chosen.
fn right_count(alloc: Global, cases: &[Case]) -> Result<usize, Fail> {
    let mut count = 0usize;
    for case in cases {
        if !chooses(alloc, case)? {
            break;
        }
        count = count.saturating_add(1);
    }
    Ok(count)
}

#[test]
fn names_that_agree_are_chosen(rt: HostRuntime) -> Result<(), Fail> {
    let count = right_count(rt.alloc(), CASES)?;
    assert_eq!(rt; count, CASES.len());
    Ok(())
}
