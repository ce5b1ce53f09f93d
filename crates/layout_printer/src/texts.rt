//! The lines of layouts.
ghost use Rattle.std.specs.Prelude.{◌≡◌, ◌++◌, ◌<◌, IfOk, OnOk};
ghost use Rattle.layout_printer.specs.Sizes.{ref_of};
ghost use Rattle.layout_printer.specs.Declarations.{kind_of};
ghost use Rattle.layout_printer.specs.Text.{foot_text, head_text, name_of, sizes_line};
ghost use Rattle.layout_printer.specs.Text.{structure_word, text_of};

use crate::lines::put_members;
use crate::lookups::{ref_of, type_of};
use crate::pieces::{LinePiece, put};
use crate::shapes::kind_of;
use crate::slots::TypeLayout;
use crate::summary::put_summary;
use btf_codec::Table;
use c_model::kinds::{BTF_KIND_TYPEDEF, BTF_KIND_UNION};
use c_model::{CType, Ref};
use dw_base::Bytes;
use std::alloc::{AllocError, Global};

/// The line of an id: its name, a tab, its size in bytes, a tab, the number of its holes with whole
/// bytes. `shown` is the layout of the id, or of the structure that it is a typedef of. It takes as
/// many steps as there are members and bytes of the name.
pub fn sizes_line(
    alloc: Global,
    table: &Table<'_>,
    id: u32,
    shown: &TypeLayout,
) -> Result<Bytes, AllocError>
    ensures { IfOk result (λ b. b ≡ sizes_line table.now.types id shown.now) }
{
    let mut out = Vec::new(alloc);
    put(
        &mut out,
        &[
            LinePiece::Text(name_of(table.types.items(), ref_of(id))),
            LinePiece::Text(b"\t"),
            LinePiece::Number(u64::from(shown.size)),
            LinePiece::Text(b"\t"),
            LinePiece::Number(shown.byte_holes() as u64),
            LinePiece::Text(b"\n"),
        ],
    )?;
    Ok(Bytes::new(out))
}

/// The name of what a reference is to; empty for void.
pub fn name_of<'t, 'a>(types: &'t [CType<'a>], r: Ref) -> &'a [u8]
    ensures { result.now ≡ name_of types.now r }
{
    match type_of(types, r) {
        None => b"",
        Some(t) => t.label.name.bytes(),
    }
}

/// The text of an id, where cache lines have `line` bytes. `shown` is the layout of the id, or of
/// the structure that it is a typedef of. A declaration follows at most 64 types, and so does each
/// parameter in it; at each it looks past as many, and copies what it has of the name. So it takes
/// as many steps as there are members, and 64 times the bytes of the text.
pub fn text(
    alloc: Global,
    table: &Table<'_>,
    id: u32,
    shown: &TypeLayout,
    line: u32,
) -> Result<Bytes, AllocError>
    requires { 0 < line }
    ensures { IfOk result (λ b. b ≡ text_of table.now.types id shown.now line) }
{
    let types = table.types.items();
    let mut out = Vec::new(alloc);
    put_head(&mut out, types, id, shown.id)?;
    put_members(
        alloc,
        &mut out,
        types,
        ref_of(shown.id),
        line,
        shown.slots.items(),
    )?;
    put_summary(&mut out, line, shown)?;
    put_foot(&mut out, types, id)?;
    Ok(Bytes::new(out))
}

/// The keyword of a structure or union.
fn structure_word(types: &[CType<'_>], id: u32) -> &'static [u8]
    ensures { result.now ≡ structure_word types.now id }
{
    match kind_of(types, ref_of(id)) {
        BTF_KIND_UNION => b"union",
        _ => b"struct",
    }
}

/// Appends the first line.
fn put_head(
    out: &mut Vec<u8>,
    types: &[CType<'_>],
    id: u32,
    structure: u32,
) -> Result<(), AllocError>
    ensures { OnOk result (out.new.items ≡ out.old.items ++ head_text types.now id structure) }
{
    let r = ref_of(id);
    let word = structure_word(types, structure);
    if kind_of(types, r) == BTF_KIND_TYPEDEF {
        put(
            out,
            &[
                LinePiece::Text(b"typedef "),
                LinePiece::Text(word),
                LinePiece::Text(b" {\n"),
            ],
        )
    } else {
        put(
            out,
            &[
                LinePiece::Text(word),
                LinePiece::Text(b" "),
                LinePiece::Text(name_of(types, r)),
                LinePiece::Text(b" {\n"),
            ],
        )
    }
}

/// Appends the last line.
fn put_foot(out: &mut Vec<u8>, types: &[CType<'_>], id: u32) -> Result<(), AllocError>
    ensures { OnOk result (out.new.items ≡ out.old.items ++ foot_text types.now id) }
{
    let r = ref_of(id);
    if kind_of(types, r) == BTF_KIND_TYPEDEF {
        put(
            out,
            &[
                LinePiece::Text(b"} "),
                LinePiece::Text(name_of(types, r)),
                LinePiece::Text(b";\n"),
            ],
        )
    } else {
        put(out, &[LinePiece::Text(b"};\n")])
    }
}
