//! Graphs in shapes that are hard to split: rings, chains and trees, references of one node at many
//! positions, and declarations whose definitions part late.
use crate::rows::{CaseType, CaseTypes, FWD, NONE, STRUCT, X, X_AND_Y, bare, push_row};
use small_graphs::rows::{POINTER, parted};
use std::alloc::{AllocError, Global};

/// A shape of graphs.
#[derive(Clone, Copy)]
pub enum GraphShape {
    /// For each word a ring of structures, one for each letter, which gives its size. Each refers
    /// to the next, the last to the first.
    Rings(&'static [&'static str]),
    /// The same without the last reference.
    Chains(&'static [&'static str]),
    /// Structures of two members: their sizes, and the numbers of what they refer to. Behind them
    /// come leaves: the sizes of structures whose two members are void.
    Pairs(&'static [Pair], &'static [u32]),
    /// Chains, and for each tag a declaration, a pointer to it, and for each chain a definition
    /// that refers to its first structure.
    Tags {
        tags: &'static [&'static str],
        ends: &'static [&'static str],
    },
}

/// The size of a structure of two members, and the numbers of what they refer to.
pub type Pair = (u32, [u32; 2]);

/// What a shape is called, the shape, and how many classes it has.
pub type Shaped = (&'static str, GraphShape, usize);

/// The shapes that are tried.
pub const SHAPES: &[Shaped] = &[
    (
        "a ring of equal nodes",
        GraphShape::Rings(&["aaaaaaaaa"]),
        1,
    ),
    (
        "rings of two lengths",
        GraphShape::Rings(&["aaaaa", "aaa", "a"]),
        1,
    ),
    (
        "a ring with one other node",
        GraphShape::Rings(&["baaaaaaaa"]),
        9,
    ),
    (
        "rings of a period",
        GraphShape::Rings(&["abab", "ababab", "ba"]),
        2,
    ),
    (
        "a ring that halves badly",
        GraphShape::Rings(&["abaababaabaab"]),
        13,
    ),
    ("a chain", GraphShape::Chains(&["aaaaaaaaaaaaaaaa"]), 16),
    (
        "chains of two lengths",
        GraphShape::Chains(&["aaaaaaaaa", "aaaaa"]),
        9,
    ),
    (
        "chains of two ends",
        GraphShape::Chains(&["aaaaab", "aaaaac"]),
        12,
    ),
    (
        "chains of one end",
        GraphShape::Chains(&["aaaab", "aab", "cb"]),
        6,
    ),
    ("a tree", GraphShape::Pairs(TREE, &[4, 4, 4, 4]), 3),
    (
        "a tree with one other leaf",
        GraphShape::Pairs(TREE, &[4, 4, 4, 2]),
        5,
    ),
    (
        "nodes that refer to themselves",
        GraphShape::Pairs(SELVES, &[4]),
        4,
    ),
    (
        "nodes with one target twice",
        GraphShape::Pairs(TWICE, &[]),
        10,
    ),
    (
        "a tag whose definitions part late",
        GraphShape::Tags {
            tags: &["s"],
            ends: &["aaaa", "aaab"],
        },
        12,
    ),
    (
        "a tag whose definitions never part",
        GraphShape::Tags {
            tags: &["s"],
            ends: &["aaab", "aaab"],
        },
        6,
    ),
    (
        "tags that part at once",
        GraphShape::Tags {
            tags: &["s", "t", "u"],
            ends: &["aaaa", "aaab"],
        },
        20,
    ),
    (
        "tags of three equal definitions",
        GraphShape::Tags {
            tags: &["s", "t", "u"],
            ends: &["ab", "ab", "ab"],
        },
        8,
    ),
    (
        "tags of which one definition parts",
        GraphShape::Tags {
            tags: &["s", "t"],
            ends: &["aab", "aab", "aac"],
        },
        14,
    ),
];

/// Two levels above four leaves.
const TREE: &[Pair] = &[(8, [1, 2]), (8, [3, 4]), (8, [5, 6])];

/// Five nodes that are one by all that they reach, one with a void member, and one that reaches a
/// leaf.
const SELVES: &[Pair] = &[
    (8, [0, 0]),
    (8, [1, 1]),
    (8, [2, 0]),
    (8, [4, 4]),
    (8, [3, 3]),
    (8, [5, NONE]),
    (8, [6, 7]),
];

/// Two chains of three that differ at the end, and all pairs of their first nodes, one of them
/// twice.
const TWICE: &[Pair] = &[
    (8, [1, NONE]),
    (8, [2, NONE]),
    (4, [NONE, NONE]),
    (8, [4, NONE]),
    (8, [5, NONE]),
    (2, [NONE, NONE]),
    (8, [0, 0]),
    (8, [0, 3]),
    (8, [3, 0]),
    (8, [3, 3]),
    (8, [0, 0]),
];

/// The number of the next row.
fn next_row(rows: &[CaseType]) -> u32 {
    u32::try_from(rows.len()).unwrap_or(NONE)
}

/// Appends a structure for each letter of a word. Each refers to the next, and the last one to
/// `end`.
fn push_word(rows: &mut Vec<CaseType>, word: &str, end: u32) -> Result<(), AllocError> {
    let mut left = word.len();
    for letter in word.bytes() {
        left = left.saturating_sub(1);
        let next = next_row(rows).saturating_add(1);
        let target = if left == 0 { end } else { next };
        let head = parted(STRUCT, b"w", u32::from(letter), X);
        push_row(rows, head, &[target])?;
    }
    Ok(())
}

/// Appends words, the last structure of each referring to the first where they are closed.
fn push_words(
    rows: &mut Vec<CaseType>,
    words: &[&'static str],
    closed: bool,
) -> Result<(), AllocError> {
    for word in words {
        let end = if closed { next_row(rows) } else { NONE };
        push_word(rows, word, end)?;
    }
    Ok(())
}

/// The first row of each of these words, which are the first rows.
fn first_rows(alloc: Global, words: &[&'static str]) -> Result<Vec<u32>, AllocError> {
    let mut firsts = Vec::new(alloc);
    let mut next = 0u32;
    for word in words {
        firsts.push(next)?;
        next = next.saturating_add(u32::try_from(word.len()).unwrap_or(NONE));
    }
    Ok(firsts)
}

/// Appends a declaration of a tag, a pointer to it, and its definitions, which refer to these rows.
fn push_tag(rows: &mut Vec<CaseType>, tag: &'static str, heads: &[u32]) -> Result<(), AllocError> {
    let declared = next_row(rows);
    push_row(rows, bare(FWD, tag.as_bytes(), 0), &[])?;
    push_row(rows, POINTER, &[declared])?;
    let definition = parted(STRUCT, tag.as_bytes(), 8, X);
    for head in heads {
        push_row(rows, definition, &[*head])?;
    }
    Ok(())
}

/// Appends chains, and tags whose definitions refer to their first structures.
fn push_tags(
    alloc: Global,
    rows: &mut Vec<CaseType>,
    tags: &[&'static str],
    ends: &[&'static str],
) -> Result<(), AllocError> {
    let heads = first_rows(alloc, ends)?;
    push_words(rows, ends, false)?;
    for tag in tags {
        push_tag(rows, tag, &heads)?;
    }
    Ok(())
}

/// Appends a structure of two members.
fn push_pair(rows: &mut Vec<CaseType>, size: u32, members: [u32; 2]) -> Result<(), AllocError> {
    push_row(rows, parted(STRUCT, b"p", size, X_AND_Y), &members)
}

/// Appends structures of two members.
fn push_pairs(rows: &mut Vec<CaseType>, pairs: &[Pair]) -> Result<(), AllocError> {
    for (size, members) in pairs {
        push_pair(rows, *size, *members)?;
    }
    Ok(())
}

/// Appends structures of two members, which are void.
fn push_leaves(rows: &mut Vec<CaseType>, sizes: &[u32]) -> Result<(), AllocError> {
    for size in sizes {
        push_pair(rows, *size, [NONE, NONE])?;
    }
    Ok(())
}

/// Appends structures of two members, and leaves behind them.
fn push_all_pairs(
    rows: &mut Vec<CaseType>,
    pairs: &[Pair],
    leaves: &[u32],
) -> Result<(), AllocError> {
    push_pairs(rows, pairs)?;
    push_leaves(rows, leaves)
}

/// Appends the rows of a shape to no rows.
fn push_shape(
    alloc: Global,
    rows: &mut Vec<CaseType>,
    shape: &GraphShape,
) -> Result<(), AllocError> {
    match shape {
        GraphShape::Rings(words) => push_words(rows, words, true),
        GraphShape::Chains(words) => push_words(rows, words, false),
        GraphShape::Pairs(pairs, leaves) => push_all_pairs(rows, pairs, leaves),
        GraphShape::Tags { tags, ends } => push_tags(alloc, rows, tags, ends),
    }
}

/// A graph of a shape.
pub fn shaped(alloc: Global, shape: &GraphShape) -> Result<CaseTypes, AllocError> {
    let mut rows = Vec::new(alloc);
    push_shape(alloc, &mut rows, shape)?;
    Ok(CaseTypes { base: 0, rows })
}
