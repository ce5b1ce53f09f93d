//! Arrays.
ghost use Rattle.std.specs.Prelude.{◌≡◌, ◌*◌, ◌^◌, [], ◌∷◌, min, IfOk};
ghost use Rattle.dwarf_forms.specs.Meanings.{sections};
ghost use Rattle.entry_tree.specs.Reads.{value_with};
ghost use Rattle.type_attributes.specs.Scopes.{scope};
ghost use Rattle.c_types.specs.Taking.{made_if};
ghost use Rattle.c_types.specs.Arrays.{bound_in, length_of_count, length_of_bound, subrange_length};
ghost use Rattle.c_types.specs.Arrays.{array_row};
ghost use Rattle.c_types.specs.Lengths.{extended, is_too_long, elements_from};
ghost use Rattle.c_types.specs.Opened.{array_made, array_refused, ComesTo};
ghost use Rattle.c_types.specs.declared.open.OpenType.TheVariants.{Array};

use crate::open::{Complete, OpenArray};
use c_model::kinds::BTF_KIND_ARRAY;
use c_model::{Label, Parts};
use dw_base::Name;
use dwarf_abbrev::constants::{DW_AT_count, DW_AT_type, DW_AT_upper_bound, DW_TAG_subrange_type};
use dwarf_forms::constant_of;
use entry_tree::Entry;
use std::alloc::{AllocError, Global};
use type_attributes::attributes::{attribute, is_given, type_target};
use type_attributes::fault::{TypeFault, note_if};
use type_attributes::number::{Number, by_sign};
use type_attributes::scope::UnitCtx;
use type_attributes::source::{SourceType, Target, Targets};

/// The least length past 32 bits.
const TOO_LONG: u64 = 4_294_967_296;

/// What is known of the lengths of some dimensions.
#[derive(Clone, Copy)]
pub(crate) struct Lengths {
    /// Their product, where that is below 2^32, and else 2^32.
    pub(crate) product: u64,
    /// Whether there is one.
    pub(crate) any: bool,
    /// Whether one of them is negative or past 32 bits.
    pub(crate) long: bool,
}

/// A bound that is a constant.
fn bound(entry: &Entry<'_, '_>, name: u64) -> Option<Number>
    ensures { result ≡ bound_in name (value_with name entry.now.values) }
{
    match attribute(entry, name) {
        None => None,
        Some(given) => match constant_of(name, &given) {
            Ok(z) => Some(by_sign(z)),
            Err(_) => None,
        },
    }
}

/// The length that a count gives; `None` where it is negative.
fn count_length(count: Option<Number>) -> Option<u64>
    ensures { result ≡ length_of_count count }
{
    match count {
        None => Some(0),
        Some(Number::Natural(n)) => Some(if n == u64::MAX { 0 } else { n }),
        Some(Number::Negative(n)) => { if n == 0 { Some(0) } else { None } }
    }
}

/// The length that an upper bound gives; `None` where it is negative.
fn bound_length(bound: Option<Number>) -> Option<u64>
    ensures { result ≡ length_of_bound bound }
{
    match bound {
        None => Some(0),
        Some(Number::Natural(n)) => {
            if n == 4_294_967_295 || n == u64::MAX {
                Some(0)
            } else {
                Some(n + 1)
            }
        }
        Some(Number::Negative(n)) => { if n == 0 { Some(0) } else { None } }
    }
}

/// The length of a subrange; `None` where it is negative.
fn length(entry: &Entry<'_, '_>) -> Option<u64>
    ensures { result ≡ subrange_length entry.now }
{
    if is_given(entry, DW_AT_count) {
        count_length(bound(entry, DW_AT_count))
    } else {
        bound_length(bound(entry, DW_AT_upper_bound))
    }
}

/// A product that stops at 2^32.
fn capped_product(product: u64, n: u64) -> u64
    ensures { result ≡ min (product * n) (2 ^ 32) }
{
    let whole = u128::from(product) * u128::from(n);
    if whole <= u128::from(TOO_LONG) {
        whole as u64
    } else {
        TOO_LONG
    }
}

/// One dimension more.
fn with_length(lengths: Lengths, length: Option<u64>) -> Lengths
    ensures { result ≡ extended lengths (length ∷ []) }
{
    match length {
        None => Lengths {
            product: capped_product(lengths.product, 0),
            any: true,
            long: true,
        },
        Some(n) => Lengths {
            product: capped_product(lengths.product, n),
            any: true,
            long: lengths.long || n >= TOO_LONG,
        },
    }
}

/// One child more.
fn with_child(lengths: Lengths, child: &Entry<'_, '_>) -> Lengths
    ensures { result ≡ extended lengths (made_if DW_TAG_subrange_type subrange_length child.now) }
{
    if child.tag() == DW_TAG_subrange_type {
        with_length(lengths, length(child))
    } else {
        lengths
    }
}

/// Whether the lengths or the number of elements are refused.
fn are_too_long(lengths: Lengths) -> bool
    ensures { result ≡ is_too_long lengths }
{
    lengths.long || (lengths.any && lengths.product >= TOO_LONG)
}

/// The number of elements; 0 where it is refused.
fn elements(lengths: Lengths) -> u32
    ensures { result ≡ elements_from lengths }
{
    if are_too_long(lengths) {
        0
    } else if lengths.any {
        lengths.product as u32
    } else {
        0
    }
}

/// The type of the elements, and that of the indices.
fn two_targets(alloc: Global, target: Target) -> Result<Targets, AllocError>
    ensures { IfOk result (λ ts. ts ≡ target ∷ Target.Index ∷ []) }
{
    let mut items = Vec::with_capacity(alloc, 2)?;
    items.push(target)?;
    items.push(Target::Index)?;
    Ok(Targets::new(items))
}

/// A child of an open array.
pub(crate) fn meet_array(child: &Entry<'_, '_>, parent: &mut OpenArray)
    ensures lengths { parent.new.lengths
        ≡ extended parent.old.lengths (made_if DW_TAG_subrange_type subrange_length child.now) }
    ensures at { parent.new.at ≡ parent.old.at }
    ensures target { parent.new.target ≡ parent.old.target }
    ensures least { parent.new.least ≡ parent.old.least }
{
    parent.lengths = with_child(parent.lengths, child);
}

/// The type of an array whose children have all come.
pub(crate) fn complete_array<'a>(
    alloc: Global,
    whole: Box<OpenArray>,
) -> Result<Complete<'a>, AllocError>
    ensures source { IfOk result (λ d. d.source ≡ array_made whole.value []) }
    ensures fault { IfOk result (λ d. d.fault ≡ array_refused whole.value []) }
{
    let array = Box::into_inner(whole);
    let mut fault = array.least;
    note_if(
        &mut fault,
        are_too_long(array.lengths),
        TypeFault::ArrayLength(array.at),
    );
    let source = SourceType {
        at: array.at,
        label: Label {
            kind: BTF_KIND_ARRAY,
            name: Name::new(&[]),
            flag: false,
            size: 0,
            extra: elements(array.lengths),
            parts: Parts::new(Vec::new(alloc)),
        },
        targets: two_targets(alloc, array.target)?,
    };
    Ok(Complete { source, fault })
}

/// An array begins.
#[tactic(auto, using(type_attributes::proofs::Noting::noted_append))]
pub(crate) fn open_array(
    alloc: Global,
    ctx: &UnitCtx<'_, '_>,
    entry: &Entry<'_, '_>,
) -> Result<Box<OpenArray>, AllocError>
    ensures { IfOk result (λ o. ComesTo (scope ctx.now) (Array o)
        (array_row (sections ctx.now.form) entry.now)) }
{
    let at = entry.at();
    let mut found = None;
    let target = type_target(&ctx.form, entry, &mut found);
    note_if(
        &mut found,
        !is_given(entry, DW_AT_type),
        TypeFault::MissingType(at),
    );
    let array = OpenArray {
        at,
        target,
        lengths: Lengths {
            product: 1,
            any: false,
            long: false,
        },
        least: found,
    };
    Ok(Box::new(alloc, array)?)
}
