//! Types by their references.
ghost use Rattle.std.specs.Prelude.{◌≡◌, ◌-◌, ◌^◌};
ghost use Rattle.std.specs.Option.{option_copied};
ghost use Rattle.c_model.specs.Graph.{IsBelow};
ghost use Rattle.btf_codec.specs.Fields.{id_of, target_at};
ghost use Rattle.layout_printer.specs.Sizes.{ref_of, type_of};

use c_model::{CType, Ref};

/// The type that a reference is to; `None` for void.
#[inline(always)]
pub fn type_of<'t, 'a>(types: &'t [CType<'a>], r: Ref) -> Option<&'t CType<'a>>
    ensures { option_copied result ≡ type_of types.now r }
{
    match r {
        Ref::Void => None,
        Ref::Node(x) => types.get(x as usize),
    }
}

/// The reference of an id: 0 is void.
pub fn ref_of(id: u32) -> Ref
    ensures { result ≡ ref_of id }
{
    if id == 0 {
        Ref::Void
    } else {
        Ref::Node(id - 1)
    }
}

/// The reference at a place; void past the last.
#[inline(always)]
pub fn target_at(targets: &[Ref], place: usize) -> Ref
    ensures { result ≡ target_at targets.now place }
{
    match targets.get(place) {
        Some(r) => *r,
        None => Ref::Void,
    }
}

/// The id that a reference is to: void is 0.
pub fn id_of(r: Ref) -> u32
    requires { IsBelow (2 ^ 32 - 1) r }
    ensures { result ≡ id_of r }
{
    match r {
        Ref::Void => 0,
        Ref::Node(x) => x + 1,
    }
}
