//! Which types can be shown.
ghost use Rattle.std.specs.Prelude.{◌≡◌, ◌++◌, ◌<◌, ◌^◌, length, IfOk, OnOk, [], ◌∷◌};
ghost use Rattle.std.specs.Prelude.{if◌then◌else◌};
ghost use Rattle.btf_codec.specs.Fields.{target_at};
ghost use Rattle.shown_types.specs.Listed.{is_structure, is_named, nameless_at, structure_by};
ghost use Rattle.shown_types.specs.Listed.{structure_at, is_listed, structures_from};

use c_model::kinds::{BTF_KIND_STRUCT, BTF_KIND_TYPEDEF, BTF_KIND_UNION};
use c_model::{CType, Ref};
use std::alloc::{AllocError, Global};

fn is_structure(t: &CType<'_>) -> bool
    ensures { result ≡ is_structure t.now }
{
    t.label.kind == BTF_KIND_STRUCT || t.label.kind == BTF_KIND_UNION
}

fn is_named(t: &CType<'_>) -> bool
    ensures { result ≡ is_named t.now }
{
    !t.label.name.bytes().is_empty()
}

fn first_target(t: &CType<'_>) -> Ref
    ensures { result ≡ target_at t.now.targets 0 }
{
    match t.targets.items().get(0) {
        Some(r) => *r,
        None => Ref::Void,
    }
}

/// The place of a structure or union without a name.
fn nameless_at(types: &[CType<'_>], r: Ref) -> Option<u32>
    ensures { result ≡ nameless_at types.now r }
{
    match r {
        Ref::Void => None,
        Ref::Node(y) => match types.get(y as usize) {
            None => None,
            Some(t) => {
                if is_structure(t) && !is_named(t) {
                    Some(y)
                } else {
                    None
                }
            }
        },
    }
}

fn structure_by(types: &[CType<'_>], x: u32, t: &CType<'_>) -> Option<u32>
    ensures { result ≡ structure_by types.now x t.now }
{
    if is_structure(t) {
        return if is_named(t) { Some(x) } else { None };
    }
    if t.label.kind == BTF_KIND_TYPEDEF {
        return nameless_at(types, first_target(t));
    }
    None
}

/// The place of the structure or union that the type in a place shows: its own, or that of its
/// target.
pub fn structure_at(types: &[CType<'_>], x: u32) -> Option<u32>
    ensures { result ≡ structure_at types.now x }
{
    match types.get(x as usize) {
        None => None,
        Some(t) => structure_by(types, x, t),
    }
}

/// Adds a place where a condition holds.
fn push_if(all: &mut Vec<u32>, holds: bool, x: u32) -> Result<(), AllocError>
    ensures { OnOk result (all.new.items ≡ all.old.items ++ (if holds then x ∷ [] else [])) }
{
    if holds {
        all.push(x)?;
    }
    Ok(())
}

/// The places of all types from one on that can be shown.
pub fn structures_from(
    alloc: Global,
    types: &[CType<'_>],
    from: u32,
) -> Result<Vec<u32>, AllocError>
    requires { length types.now < 2 ^ 32 }
    ensures { IfOk result (λ v. v.items ≡ structures_from types.now from) }
{
    let mut all = Vec::new(alloc);
    for x in from..types.len() as u32 {
        push_if(&mut all, structure_at(types, x).is_some(), x)?;
    }
    Ok(all)
}
