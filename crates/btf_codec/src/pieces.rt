//! The words of a type in a file.
ghost use Rattle.std.specs.Prelude.{◌≡◌, ◌+◌, ◌*◌, ◌-◌, ◌/◌, ◌%◌, ◌<◌, ◌≤◌, ◌^◌, ◌&&◌, ◌||◌, ℕ};
ghost use Rattle.std.specs.Prelude.{List, None, Some, Ok, Err, length, map, nat_lt, not};
ghost use Rattle.std.specs.Prelude.{if◌then◌else◌};
ghost use Rattle.std.specs.Option.{option_map, option_or};
ghost use Rattle.btf_codec.specs.Fields.{layout_of};
ghost use Rattle.btf_codec.specs.Reading.{first_past, flag_in, head_of, ids_by, ids_in};
ghost use Rattle.btf_codec.specs.Reading.{is_clean, is_info, is_third, is_vlen, kind_in, may_flag};
ghost use Rattle.btf_codec.specs.Reading.{checked_width, part_width, places, type_width};
ghost use Rattle.btf_codec.specs.Reading.{vlen_in, word_in, words_at, words_fault};

use crate::fault::BtfFault;
use crate::format::{BTF_MAX_VLEN, INFO, KIND_FLAG_BIT, KIND_SHIFT, KINDS, SIZE, TYPE_HEAD};
use crate::layout::{KindLayout, PartLayout, layout_of};
use c_model::kinds::{
    BTF_KIND_DECL_TAG, BTF_KIND_ENUM, BTF_KIND_ENUM64, BTF_KIND_FUNC, BTF_KIND_FWD,
    BTF_KIND_STRUCT, BTF_KIND_TYPE_TAG, BTF_KIND_UNION,
};
use dw_base::Order;

/// The word at a place, counted in words.
#[inline(always)]
pub fn word_in(order: Order, piece: &[u8], i: usize) -> u32
    requires { 4 * i + 4 ≤ length piece.now }
    ensures { result ≡ word_in order piece.now i }
{
    let at = 4 * i;
    let bytes = [piece[at], piece[at + 1], piece[at + 2], piece[at + 3]];
    match order {
        Order::Little => u32::from_le_bytes(bytes),
        Order::Big => u32::from_be_bytes(bytes),
    }
}

/// The kind in an info word: bits 24 to 28.
pub fn kind_in(info: u32) -> u8
    ensures { result ≡ kind_in info }
{
    ((info >> KIND_SHIFT) % KINDS) as u8
}

/// Whether kind_flag, bit 31 of an info word, is set.
pub fn flag_in(info: u32) -> bool
    ensures { result ≡ flag_in info }
{
    info >= 1 << KIND_FLAG_BIT
}

/// vlen in an info word: bits 0 to 15.
pub fn vlen_in(info: u32) -> u32
    ensures { result ≡ vlen_in info }
{
    info % (BTF_MAX_VLEN + 1)
}

/// How many words a part has.
pub fn part_width(layout: PartLayout) -> usize
    ensures value { result ≡ part_width layout }
    ensures few { result ≤ 3 }
{
    match layout {
        PartLayout::Member => 3,
        PartLayout::Enumerator => 2,
        PartLayout::WideEnumerator => 3,
        PartLayout::Parameter => 2,
        PartLayout::Variable => 3,
    }
}

/// How many words a type has.
pub fn type_width(layout: KindLayout, vlen: u32) -> usize
    requires { vlen ≤ BTF_MAX_VLEN }
    ensures { result ≡ type_width layout vlen }
{
    match layout {
        KindLayout::Int => 4,
        KindLayout::Link => 3,
        KindLayout::Array => 6,
        KindLayout::Forward => 3,
        KindLayout::TaggedLink => 4,
        KindLayout::Float => 3,
        KindLayout::Sized(parts) => TYPE_HEAD + part_width(parts) * vlen as usize,
        KindLayout::Prototype => TYPE_HEAD + 2 * vlen as usize,
    }
}

/// Whether the bits of an info word that no field has are clear: 16 to 23, 29 and 30.
fn is_clean(info: u32) -> bool
    ensures { result ≡ is_clean info }
{
    info / 0x1_0000 % 256 == 0 && info / 0x2000_0000 % 4 == 0
}

/// Whether kind_flag may be set on a kind.
fn may_flag(kind: u8) -> bool
    ensures { result ≡ may_flag kind }
{
    matches!(
        kind,
        BTF_KIND_STRUCT
            | BTF_KIND_UNION
            | BTF_KIND_ENUM
            | BTF_KIND_FWD
            | BTF_KIND_DECL_TAG
            | BTF_KIND_TYPE_TAG
            | BTF_KIND_ENUM64
    )
}

/// Whether a kind allows a vlen: a FUNC has its linkage there, other kinds the number of their
/// parts, or 0.
fn is_vlen(layout: KindLayout, kind: u8, vlen: u32) -> bool
    ensures { result ≡ is_vlen layout kind vlen }
{
    match layout {
        KindLayout::Sized(_) => true,
        KindLayout::Prototype => true,
        KindLayout::Link => {
            if kind == BTF_KIND_FUNC {
                vlen < 3
            } else {
                vlen == 0
            }
        }
        KindLayout::Int => vlen == 0,
        KindLayout::Array => vlen == 0,
        KindLayout::Forward => vlen == 0,
        KindLayout::TaggedLink => vlen == 0,
        KindLayout::Float => vlen == 0,
    }
}

/// Whether a layout allows the third word of a type: that of an ARRAY and of a FWD is 0.
fn is_third(layout: KindLayout, third: u32) -> bool
    ensures { result ≡ is_third layout third }
{
    match layout {
        KindLayout::Array => third == 0,
        KindLayout::Forward => third == 0,
        KindLayout::Int => true,
        KindLayout::Link => true,
        KindLayout::TaggedLink => true,
        KindLayout::Float => true,
        KindLayout::Sized(_) => true,
        KindLayout::Prototype => true,
    }
}

/// Whether a layout allows an info word and the third word of a type.
fn is_info(layout: KindLayout, info: u32, third: u32) -> bool
    ensures { result ≡ is_info layout info third }
{
    is_clean(info)
        && (!flag_in(info) || may_flag(kind_in(info)))
        && is_vlen(layout, kind_in(info), vlen_in(info))
        && is_third(layout, third)
}

/// The checks of the type that begins the rest of the types: how many words it has.
pub fn head_of(order: Order, place: u64, id: u32, rest: &[u8]) -> Result<usize, BtfFault>
    ensures { result ≡ head_of place id (word_in order rest.now) (length rest.now / 4) }
{
    let left = rest.len() / 4;
    if left < TYPE_HEAD {
        return Err(BtfFault::BtfTruncated(place));
    }
    let info = word_in(order, rest, INFO);
    let third = word_in(order, rest, SIZE);
    match layout_of(kind_in(info)) {
        None => Err(BtfFault::BtfKind(place, id, kind_in(info))),
        Some(layout) => checked_width(layout, place, id, info, third, left),
    }
}

/// How many words a type of a known layout has, of which `left` are there, if it is as it should.
fn checked_width(
    layout: KindLayout,
    place: u64,
    id: u32,
    info: u32,
    third: u32,
    left: usize,
) -> Result<usize, BtfFault>
    ensures { result ≡ checked_width place id info third left (Some layout) }
{
    if !is_info(layout, info, third) {
        return Err(BtfFault::BtfInfo(place, id));
    }
    let width = type_width(layout, vlen_in(info));
    if left < width {
        return Err(BtfFault::BtfTruncated(place));
    }
    Ok(width)
}
