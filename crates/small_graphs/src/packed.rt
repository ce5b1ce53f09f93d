//! Packed lists of types made of rows, and what their types refer to.
ghost use Rattle.std.specs.Prelude.{◌<◌, length};

use crate::fitting::are_below;
use crate::rows::{TypeHead, label_of};
use c_model::Ref;
use packed_graph::PackedNodes;
use std::alloc::{AllocError, Global};

/// What a type says of itself, and what it refers to.
pub type TypeRow = (TypeHead, &'static [Ref]);

/// Appends the types of these rows, those alone whose references are void or can be nodes.
pub fn push_types(
    alloc: Global,
    nodes: &mut PackedNodes<'static>,
    rows: &[TypeRow],
) -> Result<(), AllocError> {
    for (head, targets) in rows {
        if are_below(u32::MAX, targets) {
            nodes.push(label_of(alloc, head)?, targets)?;
        }
    }
    Ok(())
}

/// The types of these rows.
pub fn listed(alloc: Global, rows: &[TypeRow]) -> Result<PackedNodes<'static>, AllocError> {
    let mut nodes: PackedNodes<'static> = PackedNodes::new(alloc)?;
    push_types(alloc, &mut nodes, rows)?;
    Ok(nodes)
}

/// A list of types, and behind it those of these rows.
fn followed(
    alloc: Global,
    nodes: PackedNodes<'static>,
    rows: &[TypeRow],
) -> Result<PackedNodes<'static>, AllocError> {
    let other = listed(alloc, rows)?;
    nodes.followed_by(alloc, &other)
}

/// Lists of types that follow one another.
fn joined(alloc: Global, lists: &[&[TypeRow]]) -> Result<PackedNodes<'static>, AllocError> {
    let Some((first, others)) = lists.split_first() else {
        return PackedNodes::new(alloc);
    };
    let mut nodes = listed(alloc, first)?;
    for rows in others {
        nodes = followed(alloc, nodes, rows)?;
    }
    Ok(nodes)
}

/// Whether a type refers to this alone.
fn refers_to(nodes: &PackedNodes<'_>, x: u32, target: Ref) -> bool
    requires { x < length nodes.now }
{
    nodes.target_count(x) == 1 && nodes.target(x, 0) == target
}

/// Whether each type refers to one of these alone, in order.
fn refer_to(nodes: &PackedNodes<'_>, wanted: &[Ref]) -> bool {
    let mut x = 0u32;
    for target in wanted {
        if x as usize >= nodes.len() || !refers_to(nodes, x, *target) {
            return false;
        }
        x = x.saturating_add(1);
    }
    nodes.len() == wanted.len()
}

/// Whether the labels of lists that follow one another have these numbers, and each type refers to
/// one of these alone.
pub fn are_joined(
    alloc: Global,
    lists: &[&[TypeRow]],
    numbers: &[u32],
    targets: &[Ref],
) -> Result<bool, AllocError> {
    let nodes = joined(alloc, lists)?;
    Ok(refer_to(&nodes, targets) && nodes.numbers() == numbers)
}
