//! The types that the words of a file show.
ghost use Rattle.std.specs.Prelude.{◌≡◌, ◌+◌, ◌*◌, ◌-◌, ◌<◌, ◌≤◌, ◌^◌, ◌++◌, ℕ, List, [], ◌∷◌};
ghost use Rattle.std.specs.Prelude.{Some, length, map, OnOk, IfOk, slice_index};
ghost use Rattle.dw_base.specs.Texts.{text_of};
ghost use Rattle.btf_codec.specs.Fields.{own_targets};
ghost use Rattle.btf_codec.specs.Gives.{EndsWithNul, IsPiece};
ghost use Rattle.btf_codec.specs.Reading.{decoded_part, extra_by, ids_by, name_at, own_ids};
ghost use Rattle.btf_codec.specs.Reading.{part_ids, parts_by};
ghost use Rattle.btf_codec.specs.Reading.{decoded_parts, part_width, places, ref_of, size_by};
ghost use Rattle.btf_codec.specs.Reading.{type_by, decoded_type, type_width, vlen_in, whole_value};
ghost use Rattle.btf_codec.specs.Reading.{word_in, words_at};

use crate::format::{
    ARRAY_INDEX_TYPE, ARRAY_NELEMS, ARRAY_TYPE, BTF_MAX_VLEN, INFO, NAME_OFF, SIZE, TAIL, TYPE,
    TYPE_HEAD,
};
use crate::layout::{
    KindLayout, OwnTargets, PartLayout, has_size, layout_of, own_targets, part_layout,
};
use crate::pieces::{flag_in, kind_in, part_width, vlen_in, word_in};
use c_model::kinds::BTF_KIND_FUNC;
use c_model::{CType, Label, Part, Parts, Ref, Refs};
use dw_base::{Name, Order, TextEnds};
use std::alloc::{AllocError, Global};

/// The strings of a table, with their ends: those of its base, and behind them the own ones.
#[derive(Clone, Copy)]
pub struct TableStrings<'e, 'a> {
    pub base: &'e TextEnds<'a>,
    pub own: &'e TextEnds<'a>,
}

/// The text at an offset.
fn text_in<'a>(texts: TableStrings<'_, 'a>, at: u64) -> Option<Name<'a>>
    requires { EndsWithNul texts.base.now }
    ensures { result ≡ text_of (texts.entry.base.now ++ texts.entry.own.now) at }
{
    let start = texts.base.bytes().len() as u64;
    if at < start {
        return texts.base.text(at);
    }
    texts.own.text(at - start)
}

/// The name at an offset; empty where no text is there.
fn name_at<'a>(texts: TableStrings<'_, 'a>, at: u32) -> Name<'a>
    requires { EndsWithNul texts.base.now }
    ensures { result ≡ name_at (texts.entry.base.now ++ texts.entry.own.now) at }
{
    match text_in(texts, u64::from(at)) {
        Some(name) => name,
        None => Name::new(&[]),
    }
}

/// The reference of an id.
fn ref_of(id: u32) -> Ref
    ensures { result ≡ ref_of id }
{
    if id == 0 {
        Ref::Void
    } else {
        Ref::Node(id - 1)
    }
}

/// The low and the high 32 bits in two words.
fn whole_value(order: Order, piece: &[u8], at: usize) -> u64
    requires { 4 * at + 12 ≤ length piece.now }
    ensures { result ≡ whole_value (word_in order piece.now) at }
{
    let low = word_in(order, piece, at + 1);
    let high = word_in(order, piece, at + 2);
    u64::from(low) + 0x1_0000_0000 * u64::from(high)
}

/// The part at a place.
fn decoded_part<'a>(
    layout: PartLayout,
    texts: TableStrings<'_, 'a>,
    order: Order,
    piece: &[u8],
    at: usize,
) -> Part<'a>
    requires ends { EndsWithNul texts.base.now }
    requires room { 4 * (at + part_width layout) ≤ length piece.now }
    ensures { result ≡ decoded_part layout (texts.entry.base.now ++ texts.entry.own.now)
        (word_in order piece.now) at }
{
    match layout {
        PartLayout::Member => Part {
            name: name_at(texts, word_in(order, piece, at)),
            value: u64::from(word_in(order, piece, at + 2)),
        },
        PartLayout::Enumerator => Part {
            name: name_at(texts, word_in(order, piece, at)),
            value: u64::from(word_in(order, piece, at + 1)),
        },
        PartLayout::WideEnumerator => Part {
            name: name_at(texts, word_in(order, piece, at)),
            value: whole_value(order, piece, at),
        },
        PartLayout::Parameter => Part {
            name: name_at(texts, word_in(order, piece, at)),
            value: 0,
        },
        PartLayout::Variable => Part {
            name: Name::new(&[]),
            value: whole_value(order, piece, at),
        },
    }
}

/// So many parts.
fn decoded_parts<'a>(
    alloc: Global,
    layout: PartLayout,
    texts: TableStrings<'_, 'a>,
    order: Order,
    piece: &[u8],
    n: u32,
) -> Result<Vec<Part<'a>>, AllocError>
    requires ends { EndsWithNul texts.base.now }
    requires few { n ≤ BTF_MAX_VLEN }
    requires room { 4 * (TYPE_HEAD + part_width layout * n) ≤ length piece.now }
    ensures { IfOk result (λ v. v.items ≡ decoded_parts layout
        (texts.entry.base.now ++ texts.entry.own.now) (word_in order piece.now) n) }
{
    let width = part_width(layout);
    let mut parts = Vec::new(alloc);
    for i in 0..n {
        let at = TYPE_HEAD + width * i as usize;
        parts.push(decoded_part(layout, texts, order, piece, at))?;
    }
    Ok(parts)
}

/// Appends so many references, each `width` words behind the one before.
fn push_refs(
    out: &mut Vec<Ref>,
    order: Order,
    piece: &[u8],
    at: usize,
    width: usize,
    n: u32,
) -> Result<(), AllocError>
    requires few { n ≤ BTF_MAX_VLEN }
    requires near { at ≤ 4 }
    requires width { width ≤ 3 }
    requires some { 1 ≤ width }
    requires room { 4 * (at + width * n) ≤ length piece.now + 4 * (width - 1) }
    ensures { OnOk result (out.new.items
        ≡ out.old.items ++ map ref_of (words_at (word_in order piece.now) at width n)) }
{
    for i in 0..n {
        out.push(ref_of(word_in(order, piece, at + width * i as usize)))?;
    }
    Ok(())
}

/// The references of a type that stand in no part.
fn own_refs(
    alloc: Global,
    layout: KindLayout,
    order: Order,
    piece: &[u8],
    vlen: u32,
) -> Result<Vec<Ref>, AllocError>
    requires { length piece.now ≡ 4 * type_width layout vlen }
    ensures { IfOk result
        (λ v. v.items ≡ map ref_of (own_ids (own_targets layout) (word_in order piece.now))) }
{
    let mut refs = Vec::new(alloc);
    match own_targets(layout) {
        OwnTargets::NoTarget => {}
        OwnTargets::OneTarget => refs.push(ref_of(word_in(order, piece, TYPE)))?,
        OwnTargets::ArrayTargets => {
            refs.push(ref_of(word_in(order, piece, ARRAY_TYPE)))?;
            refs.push(ref_of(word_in(order, piece, ARRAY_INDEX_TYPE)))?;
        }
    }
    Ok(refs)
}

/// Appends the references of parts.
fn push_part_refs(
    out: &mut Vec<Ref>,
    layout: PartLayout,
    order: Order,
    piece: &[u8],
    vlen: u32,
) -> Result<(), AllocError>
    requires few { vlen ≤ BTF_MAX_VLEN }
    requires room { 4 * (TYPE_HEAD + part_width layout * vlen) ≤ length piece.now }
    ensures { OnOk result (out.new.items ≡ out.old.items
        ++ map ref_of (part_ids layout (word_in order piece.now) TYPE_HEAD vlen)) }
{
    match layout {
        PartLayout::Member => push_refs(out, order, piece, TYPE_HEAD + 1, 3, vlen),
        PartLayout::Parameter => push_refs(out, order, piece, TYPE_HEAD + 1, 2, vlen),
        PartLayout::Variable => push_refs(out, order, piece, TYPE_HEAD, 3, vlen),
        PartLayout::Enumerator | PartLayout::WideEnumerator => Ok(()),
    }
}

/// The references of a type.
fn refs_by(
    alloc: Global,
    layout: KindLayout,
    order: Order,
    piece: &[u8],
    vlen: u32,
) -> Result<Vec<Ref>, AllocError>
    requires few { vlen ≤ BTF_MAX_VLEN }
    requires long { length piece.now ≡ 4 * type_width layout vlen }
    ensures { IfOk result
        (λ v. v.items ≡ map ref_of (ids_by (Some layout) (word_in order piece.now) vlen)) }
{
    let mut refs = own_refs(alloc, layout, order, piece, vlen)?;
    if let Some(part) = part_layout(layout) {
        push_part_refs(&mut refs, part, order, piece, vlen)?;
    }
    Ok(refs)
}

/// The parts of a type.
fn parts_by<'a>(
    alloc: Global,
    layout: KindLayout,
    texts: TableStrings<'_, 'a>,
    order: Order,
    piece: &[u8],
    vlen: u32,
) -> Result<Vec<Part<'a>>, AllocError>
    requires ends { EndsWithNul texts.base.now }
    requires few { vlen ≤ BTF_MAX_VLEN }
    requires long { length piece.now ≡ 4 * type_width layout vlen }
    ensures { IfOk result (λ v. v.items ≡ parts_by (Some layout)
        (texts.entry.base.now ++ texts.entry.own.now) (word_in order piece.now) vlen) }
{
    match part_layout(layout) {
        Some(part) => decoded_parts(alloc, part, texts, order, piece, vlen),
        None => Ok(Vec::new(alloc)),
    }
}

/// The size of a type; 0 where its kind has none.
fn size_by(layout: KindLayout, order: Order, piece: &[u8]) -> u32
    requires { 4 * TYPE_HEAD ≤ length piece.now }
    ensures { result ≡ size_by (Some layout) (word_in order piece.now) }
{
    if has_size(layout) {
        word_in(order, piece, SIZE)
    } else {
        0
    }
}

/// What a type has besides: the word of an INT, the linkage of a FUNC or VAR, the elements of an
/// ARRAY, the index of a DECL_TAG; else 0.
fn extra_by(layout: KindLayout, order: Order, piece: &[u8], vlen: u32) -> u32
    requires { length piece.now ≡ 4 * type_width layout vlen }
    ensures { vlen ≡ vlen_in (word_in order piece.now INFO)
        → result ≡ extra_by (Some layout) (word_in order piece.now) }
{
    match layout {
        KindLayout::Int | KindLayout::TaggedLink => word_in(order, piece, TAIL),
        KindLayout::Array => word_in(order, piece, ARRAY_NELEMS),
        KindLayout::Link if kind_in(word_in(order, piece, INFO)) == BTF_KIND_FUNC => vlen,
        _ => 0,
    }
}

/// The type that a piece of a known layout shows.
fn type_by<'a>(
    alloc: Global,
    layout: KindLayout,
    texts: TableStrings<'_, 'a>,
    order: Order,
    piece: &[u8],
) -> Result<CType<'a>, AllocError>
    requires ends { EndsWithNul texts.base.now }
    requires long { length piece.now
        ≡ 4 * type_width layout (vlen_in (word_in order piece.now INFO)) }
    requires head { 4 * TYPE_HEAD ≤ length piece.now }
    ensures { IfOk result (λ t. t ≡ type_by (Some layout)
        (texts.entry.base.now ++ texts.entry.own.now) (word_in order piece.now)) }
{
    let info = word_in(order, piece, INFO);
    let vlen = vlen_in(info);
    let parts = parts_by(alloc, layout, texts, order, piece, vlen)?;
    let refs = refs_by(alloc, layout, order, piece, vlen)?;
    let label = Label {
        kind: kind_in(info),
        name: name_at(texts, word_in(order, piece, NAME_OFF)),
        flag: flag_in(info),
        size: size_by(layout, order, piece),
        extra: extra_by(layout, order, piece, vlen),
        parts: Parts::new(parts),
    };
    Ok(CType {
        label,
        targets: Refs::new(refs),
    })
}

/// The type that a piece shows.
pub fn decoded_type<'a>(
    alloc: Global,
    texts: TableStrings<'_, 'a>,
    order: Order,
    piece: &[u8],
) -> Result<CType<'a>, AllocError>
    requires ends { EndsWithNul texts.base.now }
    requires piece { IsPiece order piece.now }
    ensures { IfOk result (λ t.
        t ≡ decoded_type (texts.entry.base.now ++ texts.entry.own.now) (word_in order piece.now)) }
{
    match layout_of(kind_in(word_in(order, piece, INFO))) {
        Some(layout) => type_by(alloc, layout, texts, order, piece),
        None => unreachable!(),
    }
}
