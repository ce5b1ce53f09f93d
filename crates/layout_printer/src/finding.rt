//! How the sizes of all types of a table are found, each in one step: types that have their sizes
//! from other ones are followed to one whose size is known, and from there back.
ghost use Rattle.std.specs.Prelude.{◌≡◌, ◌<◌, ℕ, [], length, IfOk, OnOk};
ghost use Rattle.c_model.specs.declared.graph.Ref.TheVariants.{Node};
ghost use Rattle.layout_printer.specs.Finding.{AreFound, IsKnown, IsWay, StaysKnown, behind};
ghost use Rattle.layout_printer.specs.Finding.{known_size, size_over, unknown_at};

use crate::lookups::target_at;
use crate::sizes::{SizeRule, checked_size, size_rule};
use c_model::{CType, Ref};
use std::alloc::{AllocError, Global};

/// The types from one to the first that has its size from none or from one whose size is known.
#[derive(Drop)]
pub struct Way {
    /// The types, by their numbers. Each has its size from the next.
    pub path: Vec<u32>,
    /// The size that the last has its own from.
    pub size: Option<u64>,
}

/// Finds the size of a type, and those of all types on the way from it.
pub fn find(
    alloc: Global,
    types: &[CType<'_>],
    pointer: u32,
    found: &mut [Option<Option<u64>>],
    x: u32,
) -> Result<(), AllocError>
    requires { AreFound types.now pointer [] found.old }
    ensures found { OnOk result (AreFound types.now pointer [] found.new) }
    ensures stays { OnOk result (StaysKnown found.old found.new) }
    ensures known { OnOk result (x < length types.now → IsKnown found.new x) }
{
    let way = follow(alloc, types, found, x)?;
    go_back(types, pointer, found, way);
    Ok(())
}

/// Follows the types from one on. Those on the way are known to have no size until it is found, so
/// that a cycle ends.
fn follow(
    alloc: Global,
    types: &[CType<'_>],
    found: &mut [Option<Option<u64>>],
    x: u32,
) -> Result<Way, AllocError>
    requires { length found.old ≡ length types.now }
    ensures way { IfOk result (λ way. (pointer : ℕ) → AreFound types.now pointer [] found.old →
        IsWay types.now pointer found.new way) }
    ensures stays { OnOk result (StaysKnown found.old found.new) }
    ensures known { OnOk result (x < length types.now → IsKnown found.new x) }
{
    let mut path = Vec::new(alloc);
    let mut at = Ref::Node(x);
    while let Some(y) = unknown_at(found, at) {
        found[y as usize] = Some(None);
        path.push(y)?;
        at = behind(&types[y as usize]);
    }
    let size = known_size(found, at);
    Ok(Way { path, size })
}

/// Finds the sizes of the types of a way, from the last to the first.
fn go_back(types: &[CType<'_>], pointer: u32, found: &mut [Option<Option<u64>>], way: Way)
    requires { IsWay types.now pointer found.old way }
    ensures found { AreFound types.now pointer [] found.new }
    ensures stays { StaysKnown found.old found.new }
{
    let Way { mut path, mut size } = way;
    while let Some(y) = path.pop() {
        size = size_over(pointer, size, &types[y as usize]);
        found[y as usize] = Some(size);
    }
}

/// The number of what a reference is to, where nothing is known of its size.
fn unknown_at(found: &[Option<Option<u64>>], at: Ref) -> Option<u32>
    ensures { result ≡ unknown_at found.now at }
{
    match at {
        Ref::Void => None,
        Ref::Node(y) => match found.get(y as usize) {
            Some(None) => Some(y),
            _ => None,
        },
    }
}

/// The size of what a reference is to, as far as it is known.
fn known_size(found: &[Option<Option<u64>>], at: Ref) -> Option<u64>
    ensures { result ≡ known_size found.now at }
{
    match at {
        Ref::Void => None,
        Ref::Node(y) => match found.get(y as usize) {
            Some(Some(size)) => *size,
            _ => None,
        },
    }
}

/// The type that a type has its size from; void where it has it from none.
fn behind(t: &CType<'_>) -> Ref
    ensures { result ≡ behind t.now }
{
    match size_rule(t.label.kind) {
        SizeRule::Elements | SizeRule::Target => target_at(t.targets.items(), 0),
        SizeRule::Stated | SizeRule::Pointer | SizeRule::Unsized => Ref::Void,
    }
}

/// The size of a type, given that of the type behind it.
fn size_over(pointer: u32, size: Option<u64>, t: &CType<'_>) -> Option<u64>
    ensures { result ≡ size_over pointer size t.now }
{
    match size_rule(t.label.kind) {
        SizeRule::Stated => checked_size(u128::from(t.label.size)),
        SizeRule::Pointer => checked_size(u128::from(pointer)),
        SizeRule::Elements => match size {
            None => None,
            Some(size) => checked_size(u128::from(t.label.extra) * u128::from(size)),
        },
        SizeRule::Target => match size {
            None => None,
            Some(size) => checked_size(u128::from(size)),
        },
        SizeRule::Unsized => None,
    }
}
