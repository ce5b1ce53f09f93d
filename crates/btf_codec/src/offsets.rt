//! Offsets of names and ids that lead nowhere.
ghost use Rattle.std.specs.Prelude.{◌≡◌, ◌+◌, ◌*◌, ◌-◌, ◌<◌, ◌≤◌, ◌^◌, ℕ, List, Some, [], ◌∷◌};
ghost use Rattle.std.specs.Prelude.{length, map, find, nat_le};
ghost use Rattle.std.specs.Option.{option_map, option_or};
ghost use Rattle.btf_codec.specs.Fields.{own_targets};
ghost use Rattle.btf_codec.specs.Gives.{IsPiece};
ghost use Rattle.btf_codec.specs.Reading.{first_past, ids_by, ids_in, names_by, names_in};
ghost use Rattle.btf_codec.specs.Reading.{own_ids, part_ids, part_names, part_width};
ghost use Rattle.btf_codec.specs.Reading.{type_width, vlen_in, word_in, words_at, words_fault};

use crate::fault::BtfFault;
use crate::format::{ARRAY_INDEX_TYPE, ARRAY_TYPE, BTF_MAX_VLEN, INFO, NAME_OFF, TYPE, TYPE_HEAD};
use crate::layout::{KindLayout, OwnTargets, PartLayout, layout_of, own_targets, part_layout};
use crate::pieces::{kind_in, part_width, vlen_in, word_in};
use dw_base::Order;

/// Whether a word isn't below a limit.
#[inline(always)]
fn is_past(word: u32, limit: u64) -> bool
    ensures { result ≡ nat_le limit word }
{
    u64::from(word) >= limit
}

/// The first of so many words, each `width` words behind the one before, that isn't below a limit.
fn first_past(
    order: Order,
    piece: &[u8],
    at: usize,
    width: usize,
    n: u32,
    limit: u64,
) -> Option<u32>
    requires few { n ≤ BTF_MAX_VLEN }
    requires near { at ≤ 4 }
    requires width { width ≤ 3 }
    requires some { 1 ≤ width }
    requires room { 4 * (at + width * n) ≤ length piece.now + 4 * (width - 1) }
    ensures { result ≡ first_past limit (words_at (word_in order piece.now) at width n) }
{
    for i in 0..n {
        let word = word_in(order, piece, at + width * i as usize);
        if is_past(word, limit) {
            return Some(word);
        }
    }
    None
}

/// The word at a place, if it isn't below a limit.
fn word_past(order: Order, piece: &[u8], at: usize, limit: u64) -> Option<u32>
    requires { 4 * at + 4 ≤ length piece.now }
    ensures { result ≡ first_past limit (word_in order piece.now at ∷ []) }
{
    let word = word_in(order, piece, at);
    if is_past(word, limit) {
        Some(word)
    } else {
        None
    }
}

/// The first offset of a part's name that isn't below a limit.
fn part_name_past(
    layout: PartLayout,
    order: Order,
    piece: &[u8],
    vlen: u32,
    limit: u64,
) -> Option<u32>
    requires few { vlen ≤ BTF_MAX_VLEN }
    requires room { 4 * (TYPE_HEAD + part_width layout * vlen) ≤ length piece.now }
    ensures { result
        ≡ first_past limit (part_names layout (word_in order piece.now) TYPE_HEAD vlen) }
{
    match layout {
        PartLayout::Variable => None,
        _ => first_past(order, piece, TYPE_HEAD, part_width(layout), vlen, limit),
    }
}

/// The first offset of a name that isn't below a limit.
fn name_past(layout: KindLayout, order: Order, piece: &[u8], vlen: u32, limit: u64) -> Option<u32>
    requires few { vlen ≤ BTF_MAX_VLEN }
    requires long { length piece.now ≡ 4 * type_width layout vlen }
    ensures { result ≡ first_past limit (names_by (Some layout) (word_in order piece.now) vlen) }
{
    let own = word_in(order, piece, NAME_OFF);
    if is_past(own, limit) {
        return Some(own);
    }
    match part_layout(layout) {
        Some(part) => part_name_past(part, order, piece, vlen, limit),
        None => None,
    }
}

/// The first id outside of parts that isn't below a limit.
fn own_id_past(layout: KindLayout, order: Order, piece: &[u8], vlen: u32, limit: u64) -> Option<u32>
    requires { length piece.now ≡ 4 * type_width layout vlen }
    ensures { result
        ≡ first_past limit (own_ids (own_targets layout) (word_in order piece.now)) }
{
    match own_targets(layout) {
        OwnTargets::NoTarget => None,
        OwnTargets::OneTarget => word_past(order, piece, TYPE, limit),
        OwnTargets::ArrayTargets => {
            let element = word_in(order, piece, ARRAY_TYPE);
            if is_past(element, limit) {
                return Some(element);
            }
            word_past(order, piece, ARRAY_INDEX_TYPE, limit)
        }
    }
}

/// The first id of a part that isn't below a limit.
fn part_id_past(
    layout: PartLayout,
    order: Order,
    piece: &[u8],
    vlen: u32,
    limit: u64,
) -> Option<u32>
    requires few { vlen ≤ BTF_MAX_VLEN }
    requires room { 4 * (TYPE_HEAD + part_width layout * vlen) ≤ length piece.now }
    ensures { result ≡ first_past limit (part_ids layout (word_in order piece.now) TYPE_HEAD vlen) }
{
    match layout {
        PartLayout::Member => first_past(order, piece, TYPE_HEAD + 1, 3, vlen, limit),
        PartLayout::Parameter => first_past(order, piece, TYPE_HEAD + 1, 2, vlen, limit),
        PartLayout::Variable => first_past(order, piece, TYPE_HEAD, 3, vlen, limit),
        PartLayout::Enumerator | PartLayout::WideEnumerator => None,
    }
}

/// The first id that isn't below a limit.
fn id_past(layout: KindLayout, order: Order, piece: &[u8], vlen: u32, limit: u64) -> Option<u32>
    requires few { vlen ≤ BTF_MAX_VLEN }
    requires long { length piece.now ≡ 4 * type_width layout vlen }
    ensures { result ≡ first_past limit (ids_by (Some layout) (word_in order piece.now) vlen) }
{
    if let Some(id) = own_id_past(layout, order, piece, vlen, limit) {
        return Some(id);
    }
    match part_layout(layout) {
        Some(part) => part_id_past(part, order, piece, vlen, limit),
        None => None,
    }
}

/// The first offset of a name past the strings, and after it the first id past the table.
pub fn words_fault(
    order: Order,
    piece: &[u8],
    place: u64,
    id: u32,
    limit: u64,
    count: u32,
) -> Option<BtfFault>
    requires { IsPiece order piece.now }
    ensures { result ≡ words_fault place id limit count (word_in order piece.now) }
{
    let info = word_in(order, piece, INFO);
    let vlen = vlen_in(info);
    let layout = layout_of(kind_in(info))?;
    if let Some(name) = name_past(layout, order, piece, vlen, limit) {
        return Some(BtfFault::BtfName(place, id, name));
    }
    let target = id_past(layout, order, piece, vlen, u64::from(count) + 1)?;
    Some(BtfFault::BtfRef(place, id, target))
}
