//! Words of 4 bytes.
ghost use Rattle.std.specs.Prelude.{◌≡◌, ◌<◌, ◌≤◌, ◌+◌, ◌-◌, ◌^◌, ◌%◌, ◌/◌, ◌++◌, ℕ, OnOk, All};
ghost use Rattle.std.specs.Prelude.{drop, unwrap_or};
ghost use Rattle.c_model.specs.Graph.{IsBelow};
ghost use Rattle.btf_codec.specs.Fields.{bit_of, high_of, id_of, info_of, low_of, target_at};
ghost use Rattle.btf_codec.specs.Fields.{vlen_of};
ghost use Rattle.btf_codec.specs.Spells.{half_bytes, word_bytes, words_bytes};
ghost use Rattle.btf_strings.specs.Names.{offset_of};

use crate::format::{BTF_MAX_VLEN, KIND_FLAG_BIT, KIND_SHIFT, KINDS};
use btf_strings::Strings;
use c_model::kinds::BTF_KIND_FUNC;
use c_model::{Label, Ref};
use dw_base::{Name, Order};
use std::alloc::AllocError;

/// The bytes of a number of 2 bytes.
pub fn half_bytes(order: Order, half: u16) -> [u8; 2]
    ensures { result ≡ half_bytes order half }
{
    match order {
        Order::Little => half.to_le_bytes(),
        Order::Big => half.to_be_bytes(),
    }
}

/// The bytes of a word.
#[inline(always)]
pub fn word_bytes(order: Order, word: u32) -> [u8; 4]
    ensures { result ≡ word_bytes order word }
{
    match order {
        Order::Little => word.to_le_bytes(),
        Order::Big => word.to_be_bytes(),
    }
}

/// Appends words.
#[inline(always)]
pub fn put_words(out: &mut Vec<u8>, order: Order, words: &[u32]) -> Result<(), AllocError>
    ensures { OnOk result (out.new.items ≡ out.old.items ++ words_bytes order words.now) }
{
    for word in words {
        out.extend_from_slice(&word_bytes(order, *word))?;
    }
    Ok(())
}

/// The offset that the strings give a name; 0 where they give none.
pub fn offset_in(strings: &Strings<'_>, name: &Name<'_>) -> u32
    ensures { result ≡ unwrap_or (offset_of strings.now name.now) 0 }
{
    strings.offset_of(name.again()).unwrap_or(0)
}

/// The id of the type that the reference at a place refers to; 0 past the last.
#[inline(always)]
pub fn id_at(targets: &[Ref], place: usize) -> u32
    requires { All (IsBelow (2 ^ 32 - 1)) targets.now }
    ensures { result ≡ id_of (target_at targets.now place) }
{
    match targets.get(place) {
        Some(Ref::Node(number)) => *number + 1,
        _ => 0,
    }
}

/// All references but the first.
pub fn after_first(targets: &[Ref]) -> &[Ref]
    ensures { result.now ≡ drop 1 targets.now }
{
    if targets.is_empty() {
        targets
    } else {
        &targets[1..]
    }
}

/// The low 32 bits.
#[inline(always)]
pub fn low_half(value: u64) -> u32
    ensures { result ≡ low_of value }
{
    (value % 0x1_0000_0000) as u32
}

/// The high 32 bits.
#[inline(always)]
pub fn high_half(value: u64) -> u32
    ensures { result ≡ high_of value }
{
    (value / 0x1_0000_0000) as u32
}

/// The info word of a label: vlen in bits 0 to 15, the kind in 24 to 28, kind_flag in 31.
pub fn info(label: &Label<'_>) -> u32
    ensures { vlen_of label.now ≤ BTF_MAX_VLEN → label.now.kind < KINDS
        → result ≡ info_of label.now }
{
    let vlen = if label.kind == BTF_KIND_FUNC {
        label.extra.min(BTF_MAX_VLEN)
    } else {
        label.parts.items().len().min(BTF_MAX_VLEN as usize) as u32
    };
    let kind = u32::from(label.kind) % KINDS;
    let flag = if label.flag { 1 << KIND_FLAG_BIT } else { 0 };
    vlen + (kind << KIND_SHIFT) + flag
}
