//! Enumerations.
ghost use Rattle.std.specs.Prelude.{◌≡◌, ◌++◌, [], ◌∷◌, ◌||◌, ◌&&◌, ◌==◌, not, None, true, false};
ghost use Rattle.std.specs.Prelude.{OnOk, IfOk, IfSome, if◌then◌else◌};
ghost use Rattle.c_model.specs.declared.kinds.TheConstants.{BTF_KIND_ENUM, BTF_KIND_ENUM64};
ghost use Rattle.dwarf_abbrev.specs.declared.constants.TheConstants.{DW_AT_declaration};
ghost use Rattle.dwarf_forms.specs.Meanings.{Sections, sections, Fits64};
ghost use Rattle.type_attributes.specs.Scopes.{scope};
ghost use Rattle.type_attributes.specs.Faults.{noted};
ghost use Rattle.type_attributes.specs.Labels.{is_empty};
ghost use Rattle.type_attributes.specs.Attributes.{name_attr, name_in_full, flag_attr, is_set};
ghost use Rattle.c_types.specs.Enumerations.{negative, is_negative, top, is_in_range};
ghost use Rattle.c_types.specs.Enumerations.{value_refused, power, residue, residue_in};
ghost use Rattle.c_types.specs.Enumerations.{enumerator_part, enumerator_refused, is_size};
ghost use Rattle.c_types.specs.Enumerations.{fits_size, enum_size_refused, enumeration_label};
ghost use Rattle.c_types.specs.Enumerations.{bare_row, enumeration_row};
ghost use Rattle.c_types.specs.Opened.{enumeration_made, enumeration_refused, ComesTo};
ghost use Rattle.c_types.specs.Opened.{GathersEnumerator};
ghost use Rattle.c_types.specs.declared.open.OpenType.TheVariants.{Enumeration};

use crate::open::{Complete, OpenEnumeration};
use crate::spare::Spare;
use c_model::kinds::{BTF_KIND_ENUM, BTF_KIND_ENUM64};
use c_model::{Label, Part, Parts, copy_of_parts};
use dw_base::Name;
use dwarf_abbrev::constants::{DW_AT_byte_size, DW_AT_const_value, DW_TAG_enumerator};
use dwarf_forms::FormCtx;
use entry_tree::Entry;
use std::alloc::{AllocError, Global};
use type_attributes::attributes::{constant, name, signed_constant};
use type_attributes::fault::{TypeFault, note, note_found, note_if};
use type_attributes::labels::{MOST, is_unnamed, no_targets, size_or_zero};
use type_attributes::number::{Number, by_sign};
use type_attributes::scope::UnitCtx;
use type_attributes::source::SourceType;

fn is_below_zero(value: Option<Number>) -> bool
    ensures { result ≡ negative value }
{
    match value {
        Some(Number::Negative(_)) => true,
        _ => false,
    }
}

fn is_value_in_range(wide: bool, signed: bool, value: Number) -> bool
    ensures { result ≡ is_in_range wide signed value }
{
    match value {
        Number::Natural(n) => u128::from(n) < top_value(wide, signed),
        Number::Negative(n) => signed && u128::from(n) < top_value(wide, signed),
    }
}

/// The number below which the values are.
fn top_value(wide: bool, signed: bool) -> u128
    ensures { result ≡ top wide signed }
{
    if wide {
        if signed {
            9_223_372_036_854_775_808
        } else {
            18_446_744_073_709_551_616
        }
    } else if signed {
        2_147_483_648
    } else {
        4_294_967_296
    }
}

/// Refuses a value that is missing or out of range.
fn note_value(
    least: &mut Option<TypeFault>,
    at: u64,
    wide: bool,
    signed: bool,
    value: Option<Number>,
)
    ensures { least.new ≡ noted least.old (value_refused at wide signed value) }
{
    match value {
        None => note(least, TypeFault::EnumValue(at)),
        Some(n) => note_if(
            least,
            !is_value_in_range(wide, signed, n),
            TypeFault::EnumValue(at),
        ),
    }
}

/// A value modulo 2^32 or 2^64.
fn residue_of(wide: bool, value: Number) -> u64
    ensures { result ≡ residue wide value }
{
    match value {
        Number::Natural(n) => { if wide { n } else { n % 4_294_967_296 } }
        Number::Negative(n) => {
            if wide {
                u64::MAX - n
            } else {
                4_294_967_295 - n % 4_294_967_296
            }
        }
    }
}

fn given_residue(wide: bool, value: Option<Number>) -> u64
    ensures { result ≡ residue_in wide value }
{
    match value {
        None => 0,
        Some(n) => residue_of(wide, n),
    }
}

/// An enumerator of an open enumeration.
#[tactic(auto, using(type_attributes::proofs::Noting::noted_append, crate::proofs::Joining::joined_noted))]
fn meet_enumerator<'a>(
    ctx: &FormCtx<'a>,
    enumerator: &Entry<'_, 'a>,
    parent: &mut OpenEnumeration<'a>,
) -> Result<(), AllocError>
    ensures has_some { OnOk result (parent.new.has_some ≡ true) }
    ensures has_negative { OnOk result (parent.new.has_negative
        ≡ (parent.old.has_negative || is_negative enumerator.now)) }
    ensures parts { OnOk result (parent.new.parts.items ≡ parent.old.parts.items
        ++ enumerator_part (sections ctx.now) parent.old.wide enumerator.now ∷ []) }
    ensures unsigned { OnOk result (parent.new.fault_if_unsigned ≡
        noted parent.old.fault_if_unsigned
        (enumerator_refused (sections ctx.now) parent.old.wide false enumerator.now)) }
    ensures signed { OnOk result (parent.new.fault_if_signed
        ≡ noted parent.old.fault_if_signed
        (enumerator_refused (sections ctx.now) parent.old.wide true enumerator.now)) }
    ensures bare { OnOk result (parent.new.fault_if_bare ≡ parent.old.fault_if_bare) }
    ensures at { OnOk result (parent.new.at ≡ parent.old.at) }
    ensures name { OnOk result (parent.new.name ≡ parent.old.name) }
    ensures size { OnOk result (parent.new.size ≡ parent.old.size) }
    ensures wide { OnOk result (parent.new.wide ≡ parent.old.wide) }
{
    let mut found = None;
    let name = name(ctx, enumerator, &mut found);
    note_if(
        &mut found,
        is_unnamed(&name),
        TypeFault::MissingName(enumerator.at()),
    );
    let value = signed_constant(enumerator, DW_AT_const_value, &mut found);
    let wide = parent.wide;
    note_found(&mut parent.fault_if_unsigned, &found);
    note_value(
        &mut parent.fault_if_unsigned,
        enumerator.at(),
        wide,
        false,
        value,
    );
    note_found(&mut parent.fault_if_signed, &found);
    note_value(
        &mut parent.fault_if_signed,
        enumerator.at(),
        wide,
        true,
        value,
    );
    parent.has_some = true;
    parent.has_negative = parent.has_negative || is_below_zero(value);
    parent.parts.push(Part {
        name,
        value: given_residue(wide, value),
    })?;
    Ok(())
}

/// A child of an open enumeration.
pub(crate) fn meet_enumeration<'a>(
    ctx: &FormCtx<'a>,
    child: &Entry<'_, 'a>,
    parent: &mut OpenEnumeration<'a>,
) -> Result<(), AllocError>
    ensures { OnOk result
        (GathersEnumerator (sections ctx.now) child.now parent.old parent.new) }
{
    if child.tag() == DW_TAG_enumerator {
        return meet_enumerator(ctx, child, parent);
    }
    Ok(())
}

fn is_enum_size(size: Number) -> bool
    ensures { result ≡ fits_size size }
{
    match size {
        Number::Natural(n) => n == 1 || n == 2 || n == 4 || n == 8,
        Number::Negative(_) => false,
    }
}

/// Refuses a size that is missing or not 1, 2, 4 or 8.
fn note_enum_size(least: &mut Option<TypeFault>, at: u64, size: Option<i128>)
    requires { IfSome size Fits64 }
    ensures { least.new ≡ noted least.old (enum_size_refused at size) }
{
    match size {
        None => note(least, TypeFault::MissingSize(at)),
        Some(z) => note_if(least, !is_enum_size(by_sign(z)), TypeFault::EnumSize(at, z)),
    }
}

/// The BTF kind of an enumeration, by whether its values have 64 bits.
fn kind_of(wide: bool) -> u8
    ensures { result ≡ (if wide then BTF_KIND_ENUM64 else BTF_KIND_ENUM) }
{
    if wide { BTF_KIND_ENUM64 } else { BTF_KIND_ENUM }
}

fn make_label<'a>(
    wide: bool,
    name: Name<'a>,
    signed: bool,
    size: u32,
    parts: Parts<'a>,
) -> Label<'a>
    ensures { result ≡ enumeration_label wide name.entry signed size parts.entry }
{
    Label {
        kind: kind_of(wide),
        name,
        flag: signed,
        size,
        extra: 0,
        parts,
    }
}

/// An enumeration of 4 bytes without enumerators.
fn bare_enumeration<'a>(alloc: Global, at: u64, name: Name<'a>) -> SourceType<'a>
    ensures { result ≡ record {
      at = at;
      label = enumeration_label false name.entry false 4 [];
      targets = [];
    } }
{
    SourceType {
        at,
        label: make_label(false, name, false, 4, Parts::new(Vec::new(alloc))),
        targets: no_targets(alloc),
    }
}

/// Whether an enumeration whose children have all come has a name and no enumerators.
fn is_bare(whole: &OpenEnumeration<'_>) -> bool
    ensures { result ≡ (not whole.now.has_some && not (is_empty whole.now.name)) }
{
    !whole.has_some && !is_unnamed(&whole.name)
}

/// The type of an enumeration whose children have all come.
fn enumeration_type<'a>(
    alloc: Global,
    whole: &OpenEnumeration<'a>,
) -> Result<SourceType<'a>, AllocError>
    ensures { IfOk result (λ t. (c : Sections) → t ≡ enumeration_made c whole.now []) }
{
    let name = whole.name.again();
    if is_bare(whole) {
        return Ok(bare_enumeration(alloc, whole.at, name));
    }
    let parts = copy_of_parts(alloc, &whole.parts)?;
    Ok(SourceType {
        at: whole.at,
        label: make_label(whole.wide, name, whole.has_negative, whole.size, parts),
        targets: no_targets(alloc),
    })
}

/// The first refusal of the row of an enumeration whose children have all come.
fn enumeration_fault(whole: &OpenEnumeration<'_>) -> Option<TypeFault>
    ensures { (c : Sections) → result ≡ enumeration_refused c whole.now [] }
{
    if is_bare(whole) {
        return whole.fault_if_bare;
    }
    let mut fault = if whole.has_negative {
        whole.fault_if_signed
    } else {
        whole.fault_if_unsigned
    };
    let count = whole.parts.len() as u64;
    note_if(
        &mut fault,
        count > MOST,
        TypeFault::TooMany(whole.at, count),
    );
    fault
}

/// What an enumeration comes to whose children have all come.
pub(crate) fn complete_enumeration<'a>(
    alloc: Global,
    spare: &mut Spare<'a>,
    whole: Box<OpenEnumeration<'a>>,
) -> Result<Complete<'a>, AllocError>
    ensures source { IfOk result (λ d. (c : Sections) → d.source
        ≡ enumeration_made c whole.entry.value []) }
    ensures fault { IfOk result (λ d. (c : Sections) → d.fault
        ≡ enumeration_refused c whole.entry.value []) }
{
    let source = enumeration_type(alloc, &whole)?;
    let fault = enumeration_fault(&whole);
    let whole = Box::into_inner(whole);
    spare.keep_parts(whole.parts);
    Ok(Complete { source, fault })
}

/// An enumeration begins that isn't declared alone; whether it is, was asked before.
#[tactic(auto, using(type_attributes::proofs::Noting::noted_append))]
pub(crate) fn open_enumeration<'a>(
    alloc: Global,
    spare: &mut Spare<'a>,
    ctx: &UnitCtx<'_, 'a>,
    entry: &Entry<'_, 'a>,
    declared: Option<TypeFault>,
) -> Result<Box<OpenEnumeration<'a>>, AllocError>
    requires defined { is_set (flag_attr DW_AT_declaration entry.now) ≡ false }
    requires declared { declared ≡ noted None (flag_attr DW_AT_declaration entry.now).refused }
    ensures { IfOk result (λ o. ComesTo (scope ctx.now) (Enumeration o)
        (enumeration_row (sections ctx.now.form) entry.now)) }
{
    let at = entry.at();
    let mut fault_if_bare = declared;
    let name = name(&ctx.form, entry, &mut fault_if_bare);
    let mut found = fault_if_bare;
    let size = constant(entry, DW_AT_byte_size, &mut found);
    note_enum_size(&mut found, at, size);
    let size = size_or_zero(size);
    let enumeration = OpenEnumeration {
        at,
        name,
        size,
        wide: size == 8,
        has_some: false,
        has_negative: false,
        parts: spare.parts(alloc),
        fault_if_bare,
        fault_if_unsigned: found,
        fault_if_signed: found,
    };
    Ok(Box::new(alloc, enumeration)?)
}

/// The type of an enumeration that is declared alone.
#[tactic(auto, using(type_attributes::proofs::Noting::noted_append))]
pub(crate) fn declared_enumeration<'a>(
    alloc: Global,
    ctx: &FormCtx<'a>,
    entry: &Entry<'_, 'a>,
    least: &mut Option<TypeFault>,
) -> SourceType<'a>
    ensures made { result ≡ (bare_row (name_in_full (name_attr (sections ctx.now)
        entry.now)) entry.now true).made }
    ensures noted { least.new ≡ noted least.old ((name_attr (sections ctx.now)
        entry.now).refused ++ (bare_row (name_in_full (name_attr (sections ctx.now)
        entry.now)) entry.now true).refused) }
{
    let name = name(ctx, entry, least);
    note_if(
        least,
        is_unnamed(&name),
        TypeFault::UnnamedForward(entry.at()),
    );
    bare_enumeration(alloc, entry.at(), name)
}
