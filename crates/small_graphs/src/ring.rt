//! A ring of pointers among equal structures, and its classes.
ghost use Rattle.std.specs.Prelude.{◌≡◌, ◌<◌, IfOk};
ghost use Rattle.small_graphs.specs.Made.{ring_type, ring_types, classes_in_ring};

use crate::rows::{POINTER, TypeHead, type_of};
use c_model::kinds::BTF_KIND_STRUCT;
use c_model::{CType, Ref};
use std::alloc::{AllocError, Global};

/// A structure of a pointer.
pub const STRUCTURE: TypeHead = TypeHead {
    kind: BTF_KIND_STRUCT,
    name: b"ring",
    size: 8,
    pieces: &[(b"next", 0)],
    ..POINTER
};

/// A type of a ring of so many: a structure at an even place, a pointer at an odd one, each of
/// which refers to the next, the last to the first.
fn type_at(alloc: Global, count: u32, x: u32) -> Result<CType<'static>, AllocError>
    requires { x < count }
    ensures { IfOk result (λ t. t ≡ ring_type count x) }
{
    let next = [Ref::Node((x + 1) % count)];
    if x % 2 == 0 {
        type_of(alloc, &STRUCTURE, &next)
    } else {
        type_of(alloc, &POINTER, &next)
    }
}

/// So many types, structures and pointers in turn. Each refers to the next, the last to the first.
#[tactic(auto, using(crate::proofs::Ranges::map_range_more))]
pub fn ring(alloc: Global, count: u32) -> Result<Vec<CType<'static>>, AllocError>
    ensures { IfOk result (λ types. types.items ≡ ring_types count) }
{
    let mut types = Vec::new(alloc);
    for x in 0..count {
        types.push(type_at(alloc, count, x)?)?;
    }
    Ok(types)
}

/// For each type of a ring of so many the number of its class, where they are an even number.
#[tactic(auto, using(crate::proofs::Ranges::map_range_more))]
pub fn ring_classes(alloc: Global, count: u32) -> Result<Vec<u32>, AllocError>
    ensures { IfOk result (λ numbers. numbers.items ≡ classes_in_ring count) }
{
    let mut numbers = Vec::new(alloc);
    for x in 0..count {
        numbers.push(x % 2)?;
    }
    Ok(numbers)
}
