//! The writer of BTF files.
ghost use Rattle.std.specs.Prelude.{◌≡◌, ◌<◌, ◌≤◌, ◌+◌, ◌*◌, ◌-◌, ◌^◌, ◌∷◌, ◌++◌, ℕ, List, []};
ghost use Rattle.std.specs.Prelude.{length, drop, None, OnOk, IfOk, All};
ghost use Rattle.std.specs.List.{flat_map};
ghost use Rattle.c_model.specs.Graph.{IsBelow, RefersWithin};
ghost use Rattle.c_model.specs.Kinds.{IsWellFormed};
ghost use Rattle.btf_codec.specs.Fields.{fields_of, id_of, info_of, part_fields, parts_fields};
ghost use Rattle.btf_codec.specs.Fields.{rest_fields, vlen_of};
ghost use Rattle.btf_codec.specs.Spells.{Spells, header_bytes, words_bytes};
ghost use Rattle.btf_codec.specs.Spelling.{HasOffsets, base_of, spelling_of, types_words, words_of};
ghost use Rattle.btf_strings.specs.Names.{own_section};
ghost use Rattle.c_model.specs.declared.graph.CType.{CType};
ghost use Rattle.c_model.specs.declared.label.Part.{Part};
ghost use Rattle.c_model.specs.declared.graph.Ref.{Ref};

use crate::format::{BTF_MAGIC, BTF_MAX_VLEN, BTF_VERSION, HEADER_LEN, KINDS};
use crate::layout::{KindLayout, PartLayout, layout_of};
use crate::table::TableOut;
use crate::words::{
    after_first, half_bytes, high_half, id_at, info, low_half, offset_in, put_words,
};
use btf_strings::Strings;
use c_model::{CType, Part, Ref};
use dw_base::{Bytes, Order};
use std::alloc::{AllocError, Global};

/// The bytes of a table's own types and own strings, behind a header (the kernel's BTF
/// documentation, "BTF Header"). Where the own types are well formed, the bytes spell the table,
/// each name at the offset that the strings give it, and no other table.
///
/// Each name of an own type and of its parts has been put into the table's strings, references are
/// below the number of types, and own types and strings together have fewer than 2^32 bytes.
pub fn write(alloc: Global, table: &TableOut<'_>, order: Order) -> Result<Bytes, AllocError>
    requires few { length table.now.types < 2 ^ 32 }
    requires base { table.now.base ≤ length table.now.types }
    requires offsets { All (HasOffsets table.now.strings) (drop table.now.base table.now.types) }
    requires within { RefersWithin (length table.now.types) (drop table.now.base table.now.types) }
    requires length { 4 * length (flat_map fields_of (drop table.now.base table.now.types))
        + length (own_section table.now.strings) < 2 ^ 32 }
    ensures bytes { IfOk result (λ b. All IsWellFormed (drop table.now.base table.now.types) →
        b ≡ spelling_of order table.now.strings (drop table.now.base table.now.types)) }
    // A table over base types has strings over the base's.
    ensures spells { IfOk result (λ b. All IsWellFormed (drop table.now.base table.now.types) →
        (table.now.strings.base ≡ None → table.now.base ≡ 0) →
        Spells (base_of table.now.base table.now.strings.base) order
        (drop table.now.base table.now.types)
        (own_section table.now.strings) b) }
    // The bytes spell no other table over that base.
    ensures only { IfOk result (λ b. All IsWellFormed (drop table.now.base table.now.types) →
        (table.now.strings.base ≡ None → table.now.base ≡ 0)
        → (types : List CType) (names : List ℕ) →
        Spells (base_of table.now.base table.now.strings.base) order types names b →
        (types ≡ drop table.now.base table.now.types) × (names ≡ own_section table.now.strings)) }
{
    let own = &table.types.items()[table.base as usize..];
    let names = table.strings.bytes();
    let types = 4 * word_count(own);
    let mut out = Vec::with_capacity(alloc, HEADER_LEN + types as usize + names.len())?;
    put_header(&mut out, order, types, names.len() as u32)?;
    put_types(&mut out, order, &table.strings, own)?;
    out.extend_from_slice(names)?;
    Ok(Bytes::new(out))
}

/// The header: magic, version, no flags, its own length, and then the places of types and
/// strings.
fn put_header(out: &mut Vec<u8>, order: Order, types: u32, names: u32) -> Result<(), AllocError>
    ensures { OnOk result (out.new.items ≡ out.old.items ++ header_bytes order types names) }
{
    out.extend_from_slice(&half_bytes(order, BTF_MAGIC))?;
    out.extend_from_slice(&[BTF_VERSION, 0])?;
    put_words(out, order, &[HEADER_LEN as u32, 0, types, types, names])
}

/// How many words types have.
fn word_count(types: &[CType<'_>]) -> u32
    requires { length (flat_map fields_of types.now) < 2 ^ 32 }
    ensures { result ≡ length (flat_map fields_of types.now) }
{
    let mut count = 0;
    for t in types {
        count += words_of(t);
    }
    count
}

/// How many words a type has.
fn words_of(t: &CType<'_>) -> u32
    requires { length (fields_of t.now) < 2 ^ 32 }
    ensures { result ≡ length (fields_of t.now) }
{
    match layout_of(t.label.kind) {
        None => 2,
        Some(layout) => 2 + words_by(layout, t),
    }
}

/// How many words follow the name and the info word.
fn words_by(layout: KindLayout, t: &CType<'_>) -> u32
    requires { length (rest_fields layout t.now.label t.now.targets) < 2 ^ 32 }
    ensures { result ≡ length (rest_fields layout t.now.label t.now.targets) }
{
    let parts = t.label.parts.items();
    match layout {
        KindLayout::Link => 1,
        KindLayout::Forward => 1,
        KindLayout::Float => 1,
        KindLayout::Int => 2,
        KindLayout::TaggedLink => 2,
        KindLayout::Array => 4,
        KindLayout::Sized(part) => 1 + words_of_parts(part, parts),
        KindLayout::Prototype => 1 + words_of_parts(PartLayout::Parameter, parts),
    }
}

/// How many words parts have.
fn words_of_parts(layout: PartLayout, parts: &[Part<'_>]) -> u32
    requires { length (parts_fields layout parts.now []) < 2 ^ 32 }
    ensures { (rs : List Ref) → result ≡ length (parts_fields layout parts.now rs) }
{
    (words_of_part(layout) as usize * parts.len()) as u32
}

/// How many words a part has.
fn words_of_part(layout: PartLayout) -> u32
    ensures { (p : Part) (r : Ref) → result ≡ length (part_fields layout p r) }
{
    match layout {
        PartLayout::Enumerator | PartLayout::Parameter => 2,
        PartLayout::Member | PartLayout::WideEnumerator | PartLayout::Variable => 3,
    }
}

/// Appends types.
fn put_types(
    out: &mut Vec<u8>,
    order: Order,
    strings: &Strings<'_>,
    types: &[CType<'_>],
) -> Result<(), AllocError>
    requires { RefersWithin (2 ^ 32 - 1) types.now }
    ensures { OnOk result (All IsWellFormed types.now →
        out.new.items ≡ out.old.items ++ words_bytes order (types_words strings.now types.now)) }
{
    for t in types {
        put_type(out, order, strings, t)?;
    }
    Ok(())
}

/// Appends a type.
fn put_type(
    out: &mut Vec<u8>,
    order: Order,
    strings: &Strings<'_>,
    t: &CType<'_>,
) -> Result<(), AllocError>
    requires { All (IsBelow (2 ^ 32 - 1)) t.now.targets }
    ensures { OnOk result (vlen_of t.now.label ≤ BTF_MAX_VLEN → t.now.label.kind < KINDS →
        out.new.items
        ≡ out.old.items ++ words_bytes order (words_of strings.now (fields_of t.now))) }
{
    let name = offset_in(strings, &t.label.name);
    put_words(out, order, &[name, info(&t.label)])?;
    match layout_of(t.label.kind) {
        None => Ok(()),
        Some(layout) => put_rest(out, order, strings, layout, t),
    }
}

/// Appends what follows the name and the info word of a type.
fn put_rest(
    out: &mut Vec<u8>,
    order: Order,
    strings: &Strings<'_>,
    layout: KindLayout,
    t: &CType<'_>,
) -> Result<(), AllocError>
    requires { All (IsBelow (2 ^ 32 - 1)) t.now.targets }
    ensures { OnOk result (out.new.items ≡ out.old.items ++ words_bytes order
        (words_of strings.now (rest_fields layout t.now.label t.now.targets))) }
{
    let label = &t.label;
    let parts = label.parts.items();
    let targets = t.targets.items();
    let first = id_at(targets, 0);
    match layout {
        KindLayout::Int => put_words(out, order, &[label.size, label.extra]),
        KindLayout::Link => put_words(out, order, &[first]),
        KindLayout::Array => {
            let index = id_at(targets, 1);
            put_words(out, order, &[0, first, index, label.extra])
        }
        KindLayout::Forward => put_words(out, order, &[0]),
        KindLayout::TaggedLink => put_words(out, order, &[first, label.extra]),
        KindLayout::Float => put_words(out, order, &[label.size]),
        KindLayout::Sized(part) => {
            put_words(out, order, &[label.size])?;
            put_parts(out, order, strings, part, parts, targets)
        }
        KindLayout::Prototype => {
            put_words(out, order, &[first])?;
            let part = PartLayout::Parameter;
            put_parts(out, order, strings, part, parts, after_first(targets))
        }
    }
}

/// Appends parts with the types that they refer to.
fn put_parts(
    out: &mut Vec<u8>,
    order: Order,
    strings: &Strings<'_>,
    layout: PartLayout,
    parts: &[Part<'_>],
    targets: &[Ref],
) -> Result<(), AllocError>
    requires { All (IsBelow (2 ^ 32 - 1)) targets.now }
    ensures { OnOk result (out.new.items ≡ out.old.items
        ++ words_bytes order (words_of strings.now (parts_fields layout parts.now targets.now))) }
{
    for (i, part) in parts.iter().enumerate() {
        put_part(out, order, strings, layout, part, id_at(targets, i))?;
    }
    Ok(())
}

/// Appends a part, `id` being that of the type that it refers to.
#[inline(always)]
fn put_part(
    out: &mut Vec<u8>,
    order: Order,
    strings: &Strings<'_>,
    layout: PartLayout,
    part: &Part<'_>,
    id: u32,
) -> Result<(), AllocError>
    ensures { OnOk result ((r : Ref) → id ≡ id_of r → out.new.items ≡ out.old.items
        ++ words_bytes order (words_of strings.now (part_fields layout part.now r))) }
{
    let value = low_half(part.value);
    match layout {
        PartLayout::Member => {
            put_words(out, order, &[offset_in(strings, &part.name), id, value])
        }
        PartLayout::Enumerator => {
            put_words(out, order, &[offset_in(strings, &part.name), value])
        }
        PartLayout::WideEnumerator => {
            let high = high_half(part.value);
            put_words(out, order, &[offset_in(strings, &part.name), value, high])
        }
        PartLayout::Parameter => put_words(out, order, &[offset_in(strings, &part.name), id]),
        PartLayout::Variable => put_words(out, order, &[id, value, high_half(part.value)]),
    }
}
