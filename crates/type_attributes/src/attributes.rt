//! Attributes that a row asks for: what they say, and their refusals.
ghost use Rattle.std.specs.Prelude.{◌≡◌, IfSome};
ghost use Rattle.std.specs.Option.{option_map};
ghost use Rattle.dwarf_forms.specs.Values.{given as shown};
ghost use Rattle.dwarf_forms.specs.Meanings.{sections, Fits64};
ghost use Rattle.entry_tree.specs.Reads.{value_with};
ghost use Rattle.type_attributes.specs.Faults.{noted};
ghost use Rattle.type_attributes.specs.Attributes.{has, text_attr, name_attr, name_in_full};
ghost use Rattle.type_attributes.specs.Attributes.{constant_attr, NotesConstant, number_value};
ghost use Rattle.type_attributes.specs.Attributes.{flag_attr, is_set};
ghost use Rattle.type_attributes.specs.Attributes.{target_attr, target_of_type, offset_attr};

use crate::fault::{TypeFault, note};
use crate::number::{Number, by_sign};
use crate::source::Target;
use dw_base::Name;
use dwarf_abbrev::constants::{DW_AT_name, DW_AT_type, DwAt};
use dwarf_forms::{FormCtx, Given, flag_of};
use entry_tree::Entry;

/// The value of an attribute, of several of one name the first. It works as `Entry::attr`.
#[inline(always)]
pub fn attribute<'a>(entry: &Entry<'_, 'a>, name: DwAt) -> Option<Given<'a>>
    ensures { option_map shown result ≡ value_with name entry.now.values }
{
    match entry.attr(name) {
        Ok(found) => found,
        Err(_) => None,
    }
}

/// Whether an entry has an attribute. Its abbreviation tells, so no value is read. It works as
/// `Entry::has`.
#[inline(always)]
pub fn is_given(entry: &Entry<'_, '_>, name: DwAt) -> bool
    ensures { result ≡ has name entry.now }
{
    entry.has(name)
}

/// The value of a constant that the entry has.
fn read_constant(entry: &Entry<'_, '_>, name: DwAt, least: &mut Option<TypeFault>) -> Option<i128>
    ensures value { result ≡ (constant_attr name entry.now).value }
    ensures small { IfSome result Fits64 }
    ensures noted { NotesConstant name entry.now least.old least.new }
{
    match entry.constant(name) {
        None => None,
        Some(Ok(z)) => Some(z),
        Some(Err(fault)) => {
            note(least, TypeFault::Form(entry.at(), fault));
            None
        }
    }
}

/// The value of a constant, none where the entry has none. One of another class is noted. It works
/// as `Entry::attr`.
#[inline(always)]
pub fn constant(entry: &Entry<'_, '_>, name: DwAt, least: &mut Option<TypeFault>) -> Option<i128>
    ensures value { result ≡ (constant_attr name entry.now).value }
    ensures small { IfSome result Fits64 }
    ensures noted { NotesConstant name entry.now least.old least.new }
{
    if is_given(entry, name) {
        read_constant(entry, name, least)
    } else {
        None
    }
}

/// Whether a flag that is given is true.
fn read_flag(entry: &Entry<'_, '_>, name: DwAt, least: &mut Option<TypeFault>) -> bool
    ensures value { result ≡ is_set (flag_attr name entry.now) }
    ensures noted { least.new ≡ noted least.old (flag_attr name entry.now).refused }
{
    match attribute(entry, name) {
        None => false,
        Some(given) => match flag_of(name, &given) {
            Ok(set) => set,
            Err(fault) => {
                note(least, TypeFault::Form(entry.at(), fault));
                false
            }
        },
    }
}

/// Whether an entry has a flag that is true. One of another class is noted. It works as
/// `Entry::attr`.
#[inline(always)]
pub fn flag(entry: &Entry<'_, '_>, name: DwAt, least: &mut Option<TypeFault>) -> bool
    ensures value { result ≡ is_set (flag_attr name entry.now) }
    ensures noted { least.new ≡ noted least.old (flag_attr name entry.now).refused }
{
    if is_given(entry, name) {
        read_flag(entry, name, least)
    } else {
        false
    }
}

/// A text that is read as a name; the empty one where an entry has none. One of another class or
/// without an end is noted. Its work is that of `Entry::attr`, and grows with the bytes of the
/// text.
#[inline(always)]
pub fn text<'a>(
    ctx: &FormCtx<'a>,
    entry: &Entry<'_, 'a>,
    name: DwAt,
    least: &mut Option<TypeFault>,
) -> Name<'a>
    ensures value { result ≡ name_in_full (text_attr name (sections ctx.now) entry.now) }
    ensures noted { least.new
        ≡ noted least.old (text_attr name (sections ctx.now) entry.now).refused }
{
    match entry.name(ctx, name) {
        None => Name::new(&[]),
        Some(Ok(found)) => found,
        Some(Err(fault)) => {
            note(least, TypeFault::Form(entry.at(), fault));
            Name::new(&[])
        }
    }
}

/// The name of an entry; the empty one where it has none. It works as `text`.
pub fn name<'a>(ctx: &FormCtx<'a>, entry: &Entry<'_, 'a>, least: &mut Option<TypeFault>) -> Name<'a>
    ensures value { result ≡ name_in_full (name_attr (sections ctx.now) entry.now) }
    ensures noted { least.new
        ≡ noted least.old (name_attr (sections ctx.now) entry.now).refused }
{
    text(ctx, entry, DW_AT_name, least)
}

/// The type that an entry refers to; `void` where it refers to none. A reference of another class
/// is noted. It works as `Entry::attr`.
pub fn type_target(
    ctx: &FormCtx<'_>,
    entry: &Entry<'_, '_>,
    least: &mut Option<TypeFault>,
) -> Target
    ensures value { result ≡ target_of_type entry.now.at
        (target_attr (sections ctx.now) entry.now) }
    ensures noted { least.new
        ≡ noted least.old (target_attr (sections ctx.now) entry.now).refused }
{
    match entry.target(ctx, DW_AT_type) {
        None => Target::Void,
        Some(Ok(to)) => Target::Entry {
            from: entry.at(),
            to,
        },
        Some(Err(fault)) => {
            note(least, TypeFault::Form(entry.at(), fault));
            Target::Void
        }
    }
}

/// The offset in `.debug_info` of the type that an entry refers to, where it refers to one. It
/// works as `Entry::attr`.
pub fn type_offset(ctx: &FormCtx<'_>, entry: &Entry<'_, '_>) -> Option<u128>
    ensures { result ≡ (target_attr (sections ctx.now) entry.now).value }
{
    match entry.target(ctx, DW_AT_type) {
        Some(Ok(to)) => Some(to),
        _ => None,
    }
}

/// The offset of a member in bytes; `Some(None)` where it is computed at run time, `None` where the
/// entry has none. One of another class is noted. Its work is that of `Entry::attr`, and grows with
/// the bytes of an expression.
#[inline(always)]
pub fn offset(
    entry: &Entry<'_, '_>,
    name: DwAt,
    least: &mut Option<TypeFault>,
) -> Option<Option<i128>>
    ensures value { result ≡ (offset_attr name entry.now).value }
    ensures small { IfSome result (λ o. IfSome o Fits64) }
    ensures noted { least.new ≡ noted least.old (offset_attr name entry.now).refused }
{
    match entry.byte_offset(name) {
        None => None,
        Some(Ok(found)) => Some(found),
        Some(Err(fault)) => {
            note(least, TypeFault::Form(entry.at(), fault));
            None
        }
    }
}

/// The value of a constant, by its sign. It works as `constant`.
pub fn signed_constant(
    entry: &Entry<'_, '_>,
    name: DwAt,
    least: &mut Option<TypeFault>,
) -> Option<Number>
    ensures value { result ≡ number_value (constant_attr name entry.now) }
    ensures noted { NotesConstant name entry.now least.old least.new }
{
    match constant(entry, name, least) {
        Some(z) => Some(by_sign(z)),
        None => None,
    }
}
