//! What a type says of itself in a row, made into a type of a graph.
ghost use Rattle.std.specs.Prelude.{◌≡◌, false, IfOk};
ghost use Rattle.small_graphs.specs.Made.{parts_in, label_in, type_in};

use c_model::kinds::BTF_KIND_PTR;
use c_model::{CType, Label, Part, Parts, Ref, Refs};
use dw_base::Name;
use std::alloc::{AllocError, Global};

/// A member or an enumerator: its name and its value.
pub type PartRow<'a> = (&'a [u8], u64);

/// What a type says of itself, apart from what it refers to.
#[derive(Clone, Copy)]
pub struct TypeHead {
    pub kind: u8,
    pub name: &'static [u8],
    pub flag: bool,
    pub size: u32,
    /// The last word of an INT, the number of elements of an ARRAY.
    pub extra: u32,
    pub pieces: &'static [PartRow<'static>],
}

/// What a pointer says of itself. Other rows are written as what differs from it.
pub const POINTER: TypeHead = TypeHead {
    kind: BTF_KIND_PTR,
    name: b"",
    flag: false,
    size: 0,
    extra: 0,
    pieces: &[],
};

/// What a type with these parts says of itself.
pub fn parted(
    kind: u8,
    name: &'static [u8],
    size: u32,
    pieces: &'static [PartRow<'static>],
) -> TypeHead
    ensures { label_in result ≡ record {
      kind = kind;
      name = name.now;
      flag = false;
      size = size;
      extra = 0;
      parts = parts_in pieces.now;
    } }
{
    TypeHead {
        kind,
        name,
        size,
        pieces,
        ..POINTER
    }
}

/// The parts of a label.
pub fn parts_of<'a>(alloc: Global, pieces: &[PartRow<'a>]) -> Result<Parts<'a>, AllocError>
    ensures { IfOk result (λ parts. parts ≡ parts_in pieces.now) }
{
    let mut parts = Vec::new(alloc);
    for (name, value) in pieces {
        parts.push(Part {
            name: Name::new(name),
            value: *value,
        })?;
    }
    Ok(Parts::new(parts))
}

/// The label of a row.
pub fn label_of(alloc: Global, head: &TypeHead) -> Result<Label<'static>, AllocError>
    ensures { IfOk result (λ label. label ≡ label_in head.now) }
{
    let parts = parts_of(alloc, head.pieces)?;
    Ok(Label {
        kind: head.kind,
        name: Name::new(head.name),
        flag: head.flag,
        size: head.size,
        extra: head.extra,
        parts,
    })
}

/// The type of a row that refers to these.
pub fn type_of(
    alloc: Global,
    head: &TypeHead,
    targets: &[Ref],
) -> Result<CType<'static>, AllocError>
    ensures { IfOk result (λ t. t ≡ type_in head.now targets.now) }
{
    let label = label_of(alloc, head)?;
    let targets = Vec::from_slice(alloc, targets)?;
    Ok(CType {
        label,
        targets: Refs::new(targets),
    })
}
