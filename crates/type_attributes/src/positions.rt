//! The positions of members in bits.
ghost use Rattle.std.specs.Prelude.{◌≡◌, ◌≤◌, ◌<ℤ◌, ◌≤ℤ◌, ◌+ℤ◌, neg_ℤ, pos, ◌^◌, ◌++◌, OnOk};
ghost use Rattle.std.specs.Prelude.{IfSome, false, true};
ghost use Rattle.dwarf_forms.specs.Meanings.{Fits64};
ghost use Rattle.entry_tree.specs.Reads.{value_with};
ghost use Rattle.entry_tree.specs.Rising.{Rises};
ghost use Rattle.type_attributes.specs.Scopes.{scope};
ghost use Rattle.type_attributes.specs.Faults.{noted};
ghost use Rattle.type_attributes.specs.Attributes.{has, constant_attr, offset_attr};
ghost use Rattle.type_attributes.specs.Positions.{position_from, position_by_bits};
ghost use Rattle.type_attributes.specs.Positions.{position_by_bytes};
ghost use Rattle.type_attributes.specs.Positions.{is_stored, location_in, offset_number};
ghost use Rattle.type_attributes.specs.Positions.{has_8_bytes, with_sign, offset_in_storage};
ghost use Rattle.type_attributes.specs.Positions.{storage_in, bytes_of_type, bits_of_bytes};
ghost use Rattle.type_attributes.specs.Positions.{first_bit_big, first_bit_little, first_bit};
ghost use Rattle.type_attributes.specs.Positions.{natural_position, storage_refusals};
ghost use Rattle.type_attributes.specs.Positions.{position_of, is_little, needs_extents};
ghost use Rattle.type_attributes.specs.Rows.{SayExtents, AreKnown, IsReady};

use crate::attributes::{attribute, is_given, offset, signed_constant, type_offset};
use crate::extents::{find_bytes, read_extents};
use crate::fault::{TypeFault, note};
use crate::number::{Number, by_sign, to_integer};
use crate::scope::UnitCtx;
use dw_base::{InfoOffset, Order};
use dwarf_abbrev::constants::{
    DW_AT_bit_offset, DW_AT_bit_size, DW_AT_byte_size, DW_AT_data_bit_offset,
    DW_AT_data_member_location, DW_FORM_data8, DW_TAG_member,
};
use entry_tree::Entry;
use std::alloc::{AllocError, Global};

/// A position in units of so many bits.
fn position_from(
    at: InfoOffset,
    scale: u32,
    number: Number,
    least: &mut Option<TypeFault>,
) -> Option<u128>
    requires { scale ≤ 8 }
    ensures value { result ≡ (position_from at scale number).value }
    ensures noted { least.new ≡ noted least.old (position_from at scale number).refused }
{
    match number {
        Number::Natural(n) => Some(u128::from(scale) * u128::from(n)),
        Number::Negative(_) => {
            note(least, TypeFault::MemberPlace(at));
            None
        }
    }
}

/// The position that a number of bits gives.
fn position_by_bits(
    at: InfoOffset,
    bits: Option<Number>,
    least: &mut Option<TypeFault>,
) -> Option<u128>
    ensures value { result ≡ (position_by_bits at bits).value }
    ensures noted { least.new ≡ noted least.old (position_by_bits at bits).refused }
{
    match bits {
        None => None,
        Some(number) => position_from(at, 1, number, least),
    }
}

/// The position that an offset in bytes gives, 0 where the member has no attribute for it.
fn position_by_bytes(
    at: InfoOffset,
    present: bool,
    bytes: Option<Option<i128>>,
    least: &mut Option<TypeFault>,
) -> Option<u128>
    requires { IfSome bytes (λ o. IfSome o Fits64) }
    ensures value { result ≡ (position_by_bytes at present bytes).value }
    ensures noted { least.new ≡ noted least.old (position_by_bytes at present bytes).refused }
{
    match bytes {
        None => { if present { None } else { Some(0) } }
        Some(None) => {
            note(least, TypeFault::MemberPlace(at));
            None
        }
        Some(Some(z)) => position_from(at, 8, by_sign(z), least),
    }
}

/// Whether a member stands in a storage from which its bits are counted.
fn stands_in_storage(ctx: &UnitCtx<'_, '_>, member: &Entry<'_, '_>) -> bool
    ensures { result ≡ is_stored (scope ctx.now) member.now }
{
    (ctx.version == 4 || ctx.version == 5)
        && is_given(member, DW_AT_bit_offset)
        && is_given(member, DW_AT_bit_size)
}

/// A number of bytes, where an offset is a constant.
fn constant_offset(bytes: Option<Option<i128>>) -> Option<Number>
    requires { IfSome bytes (λ o. IfSome o Fits64) }
    ensures { result ≡ offset_number bytes }
{
    match bytes {
        Some(Some(z)) => Some(by_sign(z)),
        _ => None,
    }
}

/// The bytes before the storage of a member; none where they are computed at run time.
fn location(member: &Entry<'_, '_>, least: &mut Option<TypeFault>) -> Option<Number>
    ensures value { result ≡ location_in member.now }
    ensures noted { least.new
        ≡ noted least.old (offset_attr DW_AT_data_member_location member.now).refused }
{
    let bytes = offset(member, DW_AT_data_member_location, least);
    if is_given(member, DW_AT_data_member_location) {
        constant_offset(bytes)
    } else {
        Some(Number::Natural(0))
    }
}

/// The bytes that the objects of a type of the unit have.
fn type_bytes(ctx: &UnitCtx<'_, '_>, to: Option<u128>) -> Option<Number>
    requires { AreKnown (scope ctx.now) ctx.now.extents }
    ensures { result ≡ bytes_of_type (scope ctx.now) to }
{
    match to {
        None => None,
        Some(at) => match &ctx.extents {
            None => None,
            Some(extents) => find_bytes(extents.rows.as_slice(), at),
        },
    }
}

/// The bytes of the storage of a member, in a little-endian file.
fn storage(
    ctx: &UnitCtx<'_, '_>,
    member: &Entry<'_, '_>,
    least: &mut Option<TypeFault>,
) -> Option<Number>
    requires { has DW_AT_byte_size member.now ≡ false
        → AreKnown (scope ctx.now) ctx.now.extents }
    ensures value { result ≡ storage_in (scope ctx.now) member.now }
    ensures noted { least.new ≡ noted least.old
        (constant_attr DW_AT_byte_size member.now).refused }
{
    if is_given(member, DW_AT_byte_size) {
        return signed_constant(member, DW_AT_byte_size, least);
    }
    type_bytes(ctx, type_offset(&ctx.form, member))
}

/// Whether the bit_offset of a member is given by 8 bytes.
fn is_wide(member: &Entry<'_, '_>) -> bool
    ensures { result ≡ has_8_bytes (value_with DW_AT_bit_offset member.now.values) }
{
    match attribute(member, DW_AT_bit_offset) {
        Some(given) => given.form == DW_FORM_data8,
        None => false,
    }
}

/// A number, which is one in two's complement where it was unsigned and of 8 bytes.
fn with_sign(wide: bool, number: Number) -> Number
    ensures { result ≡ with_sign wide number }
{
    match number {
        Number::Natural(n) => {
            if wide && n >= 1 << 63 {
                Number::Negative(u64::MAX - n)
            } else {
                number
            }
        }
        Number::Negative(_) => number,
    }
}

/// The bits from the most significant bit of its storage to that of a member.
fn storage_offset(member: &Entry<'_, '_>, least: &mut Option<TypeFault>) -> Option<Number>
    ensures value { result ≡ offset_in_storage member.now }
    ensures noted { least.new ≡ noted least.old
        (constant_attr DW_AT_bit_offset member.now).refused }
{
    match signed_constant(member, DW_AT_bit_offset, least) {
        Some(number) => Some(with_sign(is_wide(member), number)),
        None => None,
    }
}

/// A number of bytes in bits.
fn bits_of_bytes(bytes: Number) -> i128
    ensures value { result ≡ bits_of_bytes bytes }
    ensures low { neg_ℤ (pos (2 ^ 67)) ≤ℤ result }
    ensures high { result <ℤ pos (2 ^ 67) }
{
    8 * to_integer(bytes)
}

/// The first bit of a bit field in a big-endian file: the bits count from the first bit of the
/// storage.
fn first_in_big(location: Option<Number>, offset: Option<Number>) -> Option<i128>
    ensures { result ≡ first_bit_big location offset }
{
    match (location, offset) {
        (Some(location), Some(offset)) => Some(bits_of_bytes(location) + to_integer(offset)),
        _ => None,
    }
}

/// The bit behind a storage.
fn storage_end(location: Number, storage: Number) -> i128
    ensures value { result ≡ bits_of_bytes location +ℤ bits_of_bytes storage }
    ensures low { neg_ℤ (pos (2 ^ 68)) ≤ℤ result }
    ensures high { result <ℤ pos (2 ^ 68) }
{
    bits_of_bytes(location) + bits_of_bytes(storage)
}

/// The first bit of a bit field in a little-endian file: the bits count back from the last bit of
/// the storage.
fn first_in_little(
    location: Option<Number>,
    storage: Option<Number>,
    offset: Option<Number>,
    size: Option<Number>,
) -> Option<i128>
    ensures { result ≡ first_bit_little location storage offset size }
{
    match (location, storage, offset, size) {
        (Some(location), Some(storage), Some(offset), Some(size)) => {
            Some(storage_end(location, storage) - to_integer(offset) - to_integer(size))
        }
        _ => None,
    }
}

/// A position that is known and doesn't lie before the structure.
fn natural_position(
    at: InfoOffset,
    bits: Option<i128>,
    least: &mut Option<TypeFault>,
) -> Option<u128>
    ensures value { result ≡ (natural_position at bits).value }
    ensures noted { least.new ≡ noted least.old (natural_position at bits).refused }
{
    match bits {
        Some(z) if z >= 0 => Some(z as u128),
        _ => {
            note(least, TypeFault::MemberPlace(at));
            None
        }
    }
}

/// The first bit of a bit field in its storage.
#[tactic(auto, using(crate::proofs::Noting::noted_append))]
fn first_in_storage(
    ctx: &UnitCtx<'_, '_>,
    member: &Entry<'_, '_>,
    least: &mut Option<TypeFault>,
) -> Option<i128>
    requires { is_little ctx.now.form.order ≡ true → has DW_AT_byte_size member.now ≡ false
        → AreKnown (scope ctx.now) ctx.now.extents }
    ensures value { result ≡ first_bit ctx.now.form.order (scope ctx.now) member.now }
    ensures noted { least.new ≡ noted least.old ((offset_attr DW_AT_data_member_location
        member.now).refused ++ ((constant_attr DW_AT_bit_offset member.now).refused
        ++ storage_refusals ctx.now.form.order member.now)) }
{
    let location = location(member, least);
    let offset = storage_offset(member, least);
    match ctx.form.order {
        Order::Big => first_in_big(location, offset),
        Order::Little => {
            let storage = storage(ctx, member, least);
            // the bit size is refused for itself
            let mut ignored = None;
            let size = signed_constant(member, DW_AT_bit_size, &mut ignored);
            first_in_little(location, storage, offset, size)
        }
    }
}

/// The position of a member: the bits from the start of its structure to its first bit; none where
/// it is refused, which is noted. It is the DW_AT_data_bit_offset, else, of a bit field with a
/// DW_AT_bit_offset in a unit of version 4 or 5, that in its storage, else the
/// DW_AT_data_member_location.
///
/// Its work is that of a few calls of `Entry::attr`; in a storage whose size the type says, also at
/// most 64 times the logarithm of the number of entries of the unit.
#[tactic(auto, using(crate::proofs::Noting::noted_append))]
pub fn position(
    ctx: &UnitCtx<'_, '_>,
    member: &Entry<'_, '_>,
    least: &mut Option<TypeFault>,
) -> Option<u128>
    requires member { member.now.tag ≡ DW_TAG_member }
    requires ready { IsReady ctx.now member.now }
    ensures value { result ≡ (position_of (scope ctx.now) member.now).value }
    ensures noted { least.new
        ≡ noted least.old (position_of (scope ctx.now) member.now).refused }
{
    if is_given(member, DW_AT_data_bit_offset) {
        let bits = signed_constant(member, DW_AT_data_bit_offset, least);
        return position_by_bits(member.at(), bits, least);
    }
    if stands_in_storage(ctx, member) {
        let bits = first_in_storage(ctx, member, least);
        return natural_position(member.at(), bits, least);
    }
    let bytes = offset(member, DW_AT_data_member_location, least);
    position_by_bytes(
        member.at(),
        is_given(member, DW_AT_data_member_location),
        bytes,
        least,
    )
}

/// Whether a file is little-endian.
fn is_little_endian(order: Order) -> bool
    ensures { result ≡ is_little order }
{
    match order {
        Order::Little => true,
        Order::Big => false,
    }
}

/// Whether the position of a member is found by what other entries say of their extents.
fn needs_extents(ctx: &UnitCtx<'_, '_>, member: &Entry<'_, '_>) -> bool
    ensures { result ≡ needs_extents (scope ctx.now) member.now }
{
    member.tag() == DW_TAG_member
        && stands_in_storage(ctx, member)
        && !is_given(member, DW_AT_data_bit_offset)
        && !is_given(member, DW_AT_byte_size)
        && is_little_endian(ctx.form.order)
}

/// The extents of the unit's entries are read, where an entry is the first whose position is found
/// by them.
///
/// Once a unit at most its work is that of `read_extents`, else it takes constant time.
pub fn prepare(
    alloc: Global,
    ctx: &mut UnitCtx<'_, '_>,
    entry: &Entry<'_, '_>,
) -> Result<(), AllocError>
    requires known { IfSome ctx.old.extents (λ x. SayExtents (scope ctx.old) x.rows.items) }
    requires rising { Rises ctx.old.start.entries }
    ensures form { ctx.new.form ≡ ctx.old.form }
    ensures version { ctx.new.version ≡ ctx.old.version }
    ensures start { ctx.new.start ≡ ctx.old.start }
    ensures known { IfSome ctx.new.extents (λ x. SayExtents (scope ctx.new) x.rows.items) }
    ensures ready { OnOk result (IsReady ctx.new entry.now) }
{
    if ctx.extents.is_some() || !needs_extents(ctx, entry) {
        return Ok(());
    }
    let extents = read_extents(alloc, &ctx.form, ctx.start.copy())?;
    ctx.extents = Some(extents);
    Ok(())
}
