//! What the calls ask of a type, tested.
ghost use Rattle.std.specs.Prelude.{IsTrue};
ghost use Rattle.layout_printer.specs.Layout.{IsStructure};

use c_model::CType;
use c_model::kinds::{BTF_KIND_STRUCT, BTF_KIND_UNION};

/// Whether an id is a structure's or a union's.
pub fn is_structure(types: &[CType<'_>], id: u32) -> bool
    ensures { IsTrue result → IsStructure types.now id }
{
    if id == 0 {
        return false;
    }
    match types.get(id as usize - 1) {
        None => false,
        Some(t) => t.label.kind == BTF_KIND_STRUCT || t.label.kind == BTF_KIND_UNION,
    }
}
