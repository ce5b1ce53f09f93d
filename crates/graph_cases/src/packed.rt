//! Packed lists of types: labels that differ in one thing alone, and lists that follow one another.
use crate::fault::CaseFault;
use crate::rows::{STRUCT, UNION};
use crate::told::tell_holds;
use c_model::Ref;
use packed_graph::PackedNodes;
use small_graphs::packed::{TypeRow, are_joined, listed, push_types};
use small_graphs::rows::{POINTER, PartRow, TypeHead};
use std::alloc::{AllocError, Global};

const A: PartRow = (b"a", 0);

const B: PartRow = (b"b", 32);

/// The members of a structure.
const PAIR: &[PartRow] = &[A, B];

/// Its members with another name of the last.
const RENAMED: &[PartRow] = &[A, (b"c", 32)];

/// Its members with another place of the last.
const MOVED: &[PartRow] = &[A, (b"b", 64)];

/// Its members with names that are the same bytes when they are put together.
const REGROUPED: &[PartRow] = &[(b"ab", 0), (b"", 32)];

/// A name whose second eight bytes are the multiplier of std's hash: the eight before them make no
/// difference to it.
const HIDDEN: &[u8] = b"the_name\x15\x7c\x4a\x7f\xb9\x79\x37\x9e_of_both";

/// Another name of the same hash.
const HIDDEN_TOO: &[u8] = b"an_other\x15\x7c\x4a\x7f\xb9\x79\x37\x9e_of_both";

/// A structure of two members.
const S: TypeHead = TypeHead {
    kind: STRUCT,
    name: b"s",
    size: 8,
    pieces: PAIR,
    ..POINTER
};

/// A structure of two members, and labels that each differ from one before in one thing, of types
/// that refer to nothing.
const LABELS: &[TypeRow] = &[
    (S, &[]),
    (TypeHead { kind: UNION, ..S }, &[]),
    (TypeHead { name: b"t", ..S }, &[]),
    (TypeHead { flag: true, ..S }, &[]),
    (TypeHead { size: 4, ..S }, &[]),
    (TypeHead { extra: 1, ..S }, &[]),
    (
        TypeHead {
            pieces: RENAMED,
            ..S
        },
        &[],
    ),
    (TypeHead { pieces: MOVED, ..S }, &[]),
    (
        TypeHead {
            pieces: REGROUPED,
            ..S
        },
        &[],
    ),
    (
        TypeHead {
            pieces: &[B, A],
            ..S
        },
        &[],
    ),
    (TypeHead { pieces: &[A], ..S }, &[]),
    (
        TypeHead {
            pieces: &[A, B, B],
            ..S
        },
        &[],
    ),
    (TypeHead { name: HIDDEN, ..S }, &[]),
    (
        TypeHead {
            name: HIDDEN_TOO,
            ..S
        },
        &[],
    ),
];

/// Whether numbers count up from 0 to below `count` again and again.
fn count_up(numbers: &[u32], count: usize) -> bool {
    let mut wanted = 0usize;
    for number in numbers {
        if *number as usize != wanted {
            return false;
        }
        let next = wanted.saturating_add(1);
        wanted = if next < count { next } else { 0 };
    }
    true
}

/// Whether there are two types of each of so many labels, which are numbered in order, twice.
fn are_told(nodes: &PackedNodes<'_>, count: usize) -> bool {
    nodes.len() == count.saturating_mul(2) && count_up(nodes.numbers(), count)
}

/// Whether labels that differ in one thing are told apart, and are known again: all are listed
/// twice.
fn labels_are_told(alloc: Global) -> Result<bool, AllocError> {
    let mut nodes = listed(alloc, LABELS)?;
    push_types(alloc, &mut nodes, LABELS)?;
    Ok(are_told(&nodes, LABELS.len()))
}

/// Labels that differ in one thing are told apart.
pub fn labels_hold<R: Print>(rt: &R, alloc: Global) -> Result<bool, CaseFault> {
    let what = "labels that differ in one thing are told apart";
    tell_holds(rt, what, labels_are_told(alloc)?)
}

/// Two types of one name, the first of which refers to the last and the last to the first.
const FIRST: &[TypeRow] = &[(OF_FIRST, &[Ref::Node(1)]), (OF_FIRST, &[Ref::Node(0)])];

/// Two such types of another name.
const SECOND: &[TypeRow] = &[(OF_SECOND, &[Ref::Node(1)]), (OF_SECOND, &[Ref::Node(0)])];

/// A structure of one member.
const OF_FIRST: TypeHead = TypeHead {
    name: b"first",
    pieces: &[A],
    ..S
};

/// The same of another name.
const OF_SECOND: TypeHead = TypeHead {
    name: b"second",
    ..OF_FIRST
};

/// Lists that follow one another, with empty ones before, between and behind them.
const LISTS: &[&[TypeRow]] = &[&[], &[], FIRST, &[], SECOND, &[]];

/// What the types of the lists refer to when they are one list.
const CROSSED: &[Ref] = &[Ref::Node(1), Ref::Node(0), Ref::Node(3), Ref::Node(2)];

/// Whether lists that follow one another are one list, with the references moved.
pub fn lists_hold<R: Print>(rt: &R, alloc: Global) -> Result<bool, CaseFault> {
    let what = "lists that follow one another are one, references moved";
    let follow = are_joined(alloc, LISTS, &[0, 0, 1, 1], CROSSED)?;
    tell_holds(rt, what, follow)
}
