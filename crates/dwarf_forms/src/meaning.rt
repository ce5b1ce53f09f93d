//! What values stand for.
ghost use Rattle.std.specs.Prelude.{◌≡◌, IfOk, IfSome};
ghost use Rattle.dw_base.specs.Sections.{bytes_of};
ghost use Rattle.dwarf_forms.specs.Values.{given as shown};
ghost use Rattle.dwarf_forms.specs.Meanings.{sections, string_at, indexed_at, name_in, constant_in};
ghost use Rattle.dwarf_forms.specs.Meanings.{flag_in, target_in, operand_of, offset_in, Fits64};

use crate::fault::FormFault;
use crate::given::{FormCtx, FormValue, Given};
use dw_base::{Name, TextSection, number, uleb};
use dwarf_abbrev::constants::{DW_OP_plus_uconst, DwAt};

/// The text at an offset of a section of strings.
#[inline(always)]
pub(crate) fn string<'a>(section: TextSection<'a>, offset: u64) -> Result<Name<'a>, FormFault>
    ensures { result ≡ string_at (bytes_of section.entry) offset }
{
    match section.text(offset) {
        Some(name) => Ok(name),
        None => Err(FormFault::StringOut(offset)),
    }
}

/// The text at the offset that `.debug_str_offsets` has at an index.
fn indexed<'a>(ctx: &FormCtx<'a>, index: u64) -> Result<Name<'a>, FormFault>
    ensures { result ≡ indexed_at (sections ctx.now) index }
{
    let place = u128::from(ctx.str_base) + u128::from(index) * u128::from(ctx.offset_bytes);
    if place > ctx.str_offsets.len() as u128 {
        return Err(FormFault::StrxOut(index));
    }
    match number(ctx.str_offsets, place as u64, ctx.offset_bytes, ctx.order) {
        Some(offset) => string(ctx.strings, offset),
        None => Err(FormFault::StrxOut(index)),
    }
}

/// The name that a value is or refers to, a slice of its section (DWARF 5, section 7.5.5, class
/// string).
///
/// `StringOut` where its section has no text at its offset, `StrxOut` where `.debug_str_offsets`
/// has no number at its index, `AltForm` where it lies in a supplementary file, and `WrongClass`
/// for every other value.
///
/// The work is constant where the ends of the section's texts are known, else it grows with the
/// bytes of the name.
pub fn name_of<'a>(
    ctx: &FormCtx<'a>,
    attribute: DwAt,
    given: &Given<'a>,
) -> Result<Name<'a>, FormFault>
    ensures { result ≡ name_in (sections ctx.now) attribute (shown given.now) }
{
    match &given.value {
        FormValue::Text(name) => Ok(name.again()),
        FormValue::Strp(offset) => string(ctx.strings, *offset),
        FormValue::LineStrp(offset) => string(ctx.line_strings, *offset),
        FormValue::Strx(index) => indexed(ctx, *index),
        FormValue::Alt(form) => Err(FormFault::AltForm(*form)),
        _ => Err(FormFault::WrongClass(attribute, given.form)),
    }
}

/// The number that a value of class constant is. `WrongClass` for every other value, and for one of
/// 16 bytes. The work is constant.
pub fn constant_of(attribute: DwAt, given: &Given<'_>) -> Result<i128, FormFault>
    ensures value { result ≡ constant_in attribute (shown given.now) }
    ensures small { IfOk result Fits64 }
{
    match &given.value {
        FormValue::Unsigned(n) => Ok(i128::from(*n)),
        FormValue::Signed(z) => Ok(i128::from(*z)),
        _ => Err(FormFault::WrongClass(attribute, given.form)),
    }
}

/// What a flag says. `WrongClass` for every other value. The work is constant.
pub fn flag_of(attribute: DwAt, given: &Given<'_>) -> Result<bool, FormFault>
    ensures { result ≡ flag_in attribute (shown given.now) }
{
    match &given.value {
        FormValue::Flag(flag) => Ok(*flag),
        _ => Err(FormFault::WrongClass(attribute, given.form)),
    }
}

/// The offset in `.debug_info` of the entry that a value refers to; it can pass 2^64. `AltForm`
/// where the value's form refers into a supplementary file, `WrongClass` for every other value. The
/// work is constant.
pub fn target_of(ctx: &FormCtx<'_>, attribute: DwAt, given: &Given<'_>) -> Result<u128, FormFault>
    ensures { result ≡ target_in (sections ctx.now) attribute (shown given.now) }
{
    match &given.value {
        FormValue::UnitRef(offset) => Ok(u128::from(ctx.unit) + u128::from(*offset)),
        FormValue::InfoRef(offset) => Ok(u128::from(*offset)),
        FormValue::Alt(form) => Err(FormFault::AltForm(*form)),
        _ => Err(FormFault::WrongClass(attribute, given.form)),
    }
}

/// The operand of an expression that is one DW_OP_plus_uconst and no more.
#[tactic(auto, unfolding(crate::specs::Meanings::operand_of))]
fn operand(expression: &[u8]) -> Option<i128>
    ensures value { result ≡ operand_of expression.now }
    ensures small { IfSome result Fits64 }
{
    if expression.is_empty() || expression[0] != DW_OP_plus_uconst {
        return None;
    }
    match uleb(expression, 1) {
        Ok((operand, end)) if end == expression.len() as u64 => Some(i128::from(operand)),
        _ => None,
    }
}

/// The offset in bytes that a value gives a member: a constant, or the operand of an expression
/// that is one DW_OP_plus_uconst; `None` exactly for every other expression. `WrongClass` for every
/// other value. The work grows with the bytes of the expression.
pub fn byte_offset_of(attribute: DwAt, given: &Given<'_>) -> Result<Option<i128>, FormFault>
    ensures value { result ≡ offset_in attribute (shown given.now) }
    ensures small { IfOk result (λ o. IfSome o Fits64) }
{
    match &given.value {
        FormValue::Unsigned(n) => Ok(Some(i128::from(*n))),
        FormValue::Signed(z) => Ok(Some(i128::from(*z))),
        FormValue::Expr(expression) => Ok(operand(expression)),
        _ => Err(FormFault::WrongClass(attribute, given.form)),
    }
}
