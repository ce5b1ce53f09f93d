//! Sizes of types.
ghost use Rattle.std.specs.Prelude.{◌≡◌, ◌<◌, ◌≤◌, ◌^◌, List, IfOk, IfSome, length, map};
ghost use Rattle.std.specs.Option.{option_flatten};
ghost use Rattle.c_model.specs.declared.graph.CType.{CType};
ghost use Rattle.layout_printer.specs.Finding.{size_at};
ghost use Rattle.layout_printer.specs.Sizes.{AreSizes, checked_size, is_long, pointer_of, size_of};
ghost use Rattle.layout_printer.specs.Sizes.{size_rule};

use crate::finding::find;
use btf_codec::Table;
use c_model::kinds::{
    BTF_KIND_ARRAY, BTF_KIND_CONST, BTF_KIND_DATASEC, BTF_KIND_ENUM, BTF_KIND_ENUM64,
    BTF_KIND_FLOAT, BTF_KIND_INT, BTF_KIND_PTR, BTF_KIND_RESTRICT, BTF_KIND_STRUCT,
    BTF_KIND_TYPE_TAG, BTF_KIND_TYPEDEF, BTF_KIND_UNION, BTF_KIND_VAR, BTF_KIND_VOLATILE,
};
use c_model::{CType, Ref};
use std::alloc::{AllocError, Global};

/// The largest size in bytes, 2^60.
const MOST: u128 = 1 << 60;

/// What gives a type its size.
#[derive(Clone, Copy)]
pub enum SizeRule {
    /// Its own size word.
    Stated,
    /// The width of pointers.
    Pointer,
    /// Its number of elements, and the size of one.
    Elements,
    /// The size of the type that it refers to.
    Target,
    /// Nothing.
    Unsized,
}

/// The sizes of the types of a table, in bytes.
#[derive(Drop)]
pub struct Sizes {
    /// How many bytes pointers have.
    pub pointer: u32,
    /// The size of each type, in the order of the types; `None` where it has none.
    pub items: Vec<Option<u64>>,
}

impl Sizes {
    /// The size of what a reference is to; `None` where it has none.
    pub fn of(&self, r: Ref) -> Option<u64>
        ensures value { (types : List CType) → AreSizes types self.now
            → result ≡ size_of types self.now.pointer r }
        ensures fits { (types : List CType) → AreSizes types self.now
            → IfSome result (λ s. s ≤ 2 ^ 60) }
    {
        size_at(&self.items, r)
    }
}

/// The size of what a reference is to, among those of all types.
fn size_at(sizes: &[Option<u64>], r: Ref) -> Option<u64>
    ensures { result ≡ size_at sizes.now r }
{
    match r {
        Ref::Void => None,
        Ref::Node(x) => match sizes.get(x as usize) {
            Some(size) => *size,
            None => None,
        },
    }
}

/// How many bytes the pointers of a table have: the size of its first INT of 4 or 8 bytes that is
/// named `long`, `long int`, `unsigned long` or `long unsigned int`, and 8 where it has none. It
/// takes at most as many steps as there are types.
pub fn pointer_of(table: &Table<'_>) -> u32
    ensures { result ≡ pointer_of table.now.types }
{
    for t in table.types.items() {
        if is_long(t) {
            return t.label.size;
        }
    }
    8
}

fn is_long(t: &CType<'_>) -> bool
    ensures { result ≡ is_long t.now }
{
    let name = t.label.name.bytes();
    t.label.kind == BTF_KIND_INT
        && (t.label.size == 4 || t.label.size == 8)
        && (name == b"long".as_slice()
            || name == b"long int".as_slice()
            || name == b"unsigned long".as_slice()
            || name == b"long unsigned int".as_slice())
}

/// What gives a type of a kind its size.
pub fn size_rule(kind: u8) -> SizeRule
    ensures { result ≡ size_rule kind }
{
    match kind {
        BTF_KIND_INT
        | BTF_KIND_STRUCT
        | BTF_KIND_UNION
        | BTF_KIND_ENUM
        | BTF_KIND_DATASEC
        | BTF_KIND_FLOAT
        | BTF_KIND_ENUM64 => SizeRule::Stated,
        BTF_KIND_PTR => SizeRule::Pointer,
        BTF_KIND_ARRAY => SizeRule::Elements,
        BTF_KIND_TYPEDEF
        | BTF_KIND_VOLATILE
        | BTF_KIND_CONST
        | BTF_KIND_RESTRICT
        | BTF_KIND_VAR
        | BTF_KIND_TYPE_TAG => SizeRule::Target,
        _ => SizeRule::Unsized,
    }
}

/// The sizes in bytes of all types of a table, where pointers have `pointer` bytes. It takes as
/// many steps as there are types, each of which is passed once.
pub fn sizes_of(alloc: Global, table: &Table<'_>, pointer: u32) -> Result<Sizes, AllocError>
    requires { length table.now.types < 2 ^ 32 }
    ensures pointer { IfOk result (λ s. s.pointer ≡ pointer) }
    ensures sizes { IfOk result (AreSizes table.now.types) }
{
    let types = table.types.items();
    let mut found = vec![in alloc; None; types.len()]?;
    for x in 0..types.len() as u32 {
        find(alloc, types, pointer, &mut found, x)?;
    }
    let items = all_sizes(alloc, &found)?;
    Ok(Sizes { pointer, items })
}

/// The sizes that are found.
fn all_sizes(alloc: Global, found: &[Option<Option<u64>>]) -> Result<Vec<Option<u64>>, AllocError>
    ensures { IfOk result (λ v. v.items ≡ map option_flatten found.now) }
{
    let mut items = Vec::with_capacity(alloc, found.len())?;
    for size in found {
        items.push(size.flatten())?;
    }
    Ok(items)
}

/// A size, where it does not pass 2^60.
pub fn checked_size(size: u128) -> Option<u64>
    ensures { result ≡ checked_size size }
{
    if size > MOST { None } else { Some(size as u64) }
}
