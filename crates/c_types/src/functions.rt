//! Subroutine types.
ghost use Rattle.std.specs.Prelude.{◌≡◌, ◌++◌, [], ◌∷◌, ◌||◌, ◌==◌, OnOk, IfOk, true, false, None};
ghost use Rattle.dwarf_forms.specs.Meanings.{Sections, sections};
ghost use Rattle.type_attributes.specs.Scopes.{scope};
ghost use Rattle.type_attributes.specs.Faults.{noted};
ghost use Rattle.c_types.specs.Functions.{parameter_part, parameter_target, parameter_refused};
ghost use Rattle.c_types.specs.Functions.{rest_part, rest_target, function_label, function_row};
ghost use Rattle.c_types.specs.Opened.{function_made, function_refused, ComesTo, GathersParameter};
ghost use Rattle.c_types.specs.Opened.{empty_made, empty_refused, IsNewFunction};
ghost use Rattle.c_types.specs.Walking.{GathersFirst, own_of};
ghost use Rattle.type_attributes.specs.declared.source.Target.TheVariants.{Void};

use crate::open::{Complete, OpenFunction, OpenType};
use crate::spare::Spare;
use c_model::kinds::BTF_KIND_FUNC_PROTO;
use c_model::{Label, Part, copy_of_parts};
use dw_base::Name;
use dwarf_abbrev::constants::{DW_AT_type, DW_TAG_formal_parameter, DW_TAG_unspecified_parameters};
use dwarf_forms::FormCtx;
use entry_tree::Entry;
use std::alloc::{AllocError, Global};
use type_attributes::attributes::{is_given, name, type_target};
use type_attributes::fault::{TypeFault, note_if};
use type_attributes::labels::{MOST, make_label};
use type_attributes::scope::UnitCtx;
use type_attributes::source::{SourceType, Target, Targets};

/// A parameter of an open subroutine type.
#[tactic(auto, using(type_attributes::proofs::Noting::noted_append))]
fn meet_parameter<'a>(
    ctx: &FormCtx<'a>,
    child: &Entry<'_, 'a>,
    parent: &mut OpenFunction<'a>,
) -> Result<(), AllocError>
    ensures parts { OnOk result (parent.new.parts.items ≡ parent.old.parts.items
        ++ parameter_part (sections ctx.now) child.now ∷ []) }
    ensures targets { OnOk result (parent.new.targets.items ≡ parent.old.targets.items
        ++ parameter_target (sections ctx.now) child.now ∷ []) }
    ensures variadic { OnOk result (parent.new.variadic ≡ parent.old.variadic) }
    ensures least { OnOk result (parent.new.least
        ≡ noted parent.old.least (parameter_refused (sections ctx.now) child.now)) }
    ensures at { OnOk result (parent.new.at ≡ parent.old.at) }
{
    let name = name(ctx, child, &mut parent.least);
    let target = type_target(ctx, child, &mut parent.least);
    note_if(
        &mut parent.least,
        !is_given(child, DW_AT_type),
        TypeFault::MissingType(child.at()),
    );
    parent.parts.push(Part { name, value: 0 })?;
    parent.targets.push(target)?;
    Ok(())
}

/// A child of an open subroutine type.
pub(crate) fn meet_function<'a>(
    ctx: &FormCtx<'a>,
    child: &Entry<'_, 'a>,
    parent: &mut OpenFunction<'a>,
) -> Result<(), AllocError>
    ensures { OnOk result
        (GathersParameter (sections ctx.now) child.now parent.old parent.new) }
{
    if child.tag() == DW_TAG_formal_parameter {
        return meet_parameter(ctx, child, parent);
    }
    if child.tag() == DW_TAG_unspecified_parameters {
        parent.variadic = true;
    }
    Ok(())
}

/// A last parameter without name and of `void`, where more parameters may follow.
fn end_parameters(
    variadic: bool,
    parts: &mut Vec<Part<'_>>,
    targets: &mut Vec<Target>,
) -> Result<(), AllocError>
    ensures parts { OnOk result (parts.new.items ≡ parts.old.items ++ rest_part variadic) }
    ensures targets { OnOk result (targets.new.items ≡ targets.old.items ++ rest_target variadic) }
{
    if variadic {
        parts.push(Part {
            name: Name::new(&[]),
            value: 0,
        })?;
        targets.push(Target::Void)?;
    }
    Ok(())
}

/// The subroutine type of some parameters, given the types of its result and of these.
fn function_type<'a>(
    alloc: Global,
    at: u64,
    parts: &[Part<'a>],
    targets: &[Target],
) -> Result<SourceType<'a>, AllocError>
    ensures { IfOk result (λ t. t ≡ record {
      at = at;
      label = function_label parts.now;
      targets = targets.now;
    }) }
{
    let parts = copy_of_parts(alloc, parts)?;
    let targets = Vec::from_slice(alloc, targets)?;
    Ok(SourceType {
        at,
        label: Label {
            kind: BTF_KIND_FUNC_PROTO,
            name: Name::new(&[]),
            flag: false,
            size: 0,
            extra: 0,
            parts,
        },
        targets: Targets::new(targets),
    })
}

/// What a subroutine type comes to whose children have all come.
pub(crate) fn complete_function<'a>(
    alloc: Global,
    spare: &mut Spare<'a>,
    whole: Box<OpenFunction<'a>>,
) -> Result<Complete<'a>, AllocError>
    ensures source { IfOk result (λ d. (c : Sections) → d.source
        ≡ function_made c whole.entry.value []) }
    ensures fault { IfOk result (λ d. (c : Sections) → d.fault
        ≡ function_refused c whole.entry.value []) }
{
    let OpenFunction {
        at,
        parts,
        targets,
        variadic,
        least,
    } = Box::into_inner(whole);
    let mut parts = parts;
    let mut targets = targets;
    end_parameters(variadic, &mut parts, &mut targets)?;
    let source = function_type(alloc, at, &parts, &targets)?;
    let mut fault = least;
    let count = parts.len() as u64;
    note_if(&mut fault, count > MOST, TypeFault::TooMany(at, count));
    spare.keep_parts(parts);
    spare.keep_targets(targets);
    Ok(Complete { source, fault })
}

/// What a subroutine type comes to that has gathered nothing, and whose children have all come.
pub(crate) fn complete_empty<'a>(alloc: Global, at: u64) -> Complete<'a>
    ensures source { (c : Sections) → result.source ≡ empty_made c at [] }
    ensures fault { (c : Sections) → result.fault ≡ empty_refused c at [] }
{
    let source = SourceType {
        at,
        label: make_label(alloc, BTF_KIND_FUNC_PROTO, Name::new(&[]), 0),
        targets: Targets::one(Target::Void),
    };
    Complete {
        source,
        fault: None,
    }
}

/// A subroutine type without parameters so far.
fn new_function<'a>(
    alloc: Global,
    spare: &mut Spare<'a>,
    at: u64,
    target: Target,
    least: Option<TypeFault>,
) -> Result<Box<OpenFunction<'a>>, AllocError>
    ensures { IfOk result (λ o. IsNewFunction at target least o.value) }
{
    let mut targets = spare.targets(alloc);
    targets.push(target)?;
    let function = OpenFunction {
        at,
        parts: spare.parts(alloc),
        targets,
        variadic: false,
        least,
    };
    Ok(Box::new(alloc, function)?)
}

/// Whether entries of a tag are parameters, or say that more may follow.
fn is_parameter(tag: u64) -> bool
    ensures parameter { result ≡ false → (tag == DW_TAG_formal_parameter) ≡ false }
    ensures more { result ≡ false → (tag == DW_TAG_unspecified_parameters) ≡ false }
{
    tag == DW_TAG_formal_parameter || tag == DW_TAG_unspecified_parameters
}

/// A child of a subroutine type that has gathered nothing so far.
pub(crate) fn meet_empty<'a>(
    alloc: Global,
    spare: &mut Spare<'a>,
    ctx: &UnitCtx<'_, 'a>,
    child: &Entry<'_, 'a>,
    at: u64,
) -> Result<OpenType<'a>, AllocError>
    ensures { IfOk result (λ o. GathersFirst (scope ctx.now) at child.now o) }
{
    if !is_parameter(child.tag()) {
        return Ok(OpenType::EmptyFunction(at));
    }
    let mut function = new_function(alloc, spare, at, Target::Void, None)?;
    meet_function(&ctx.form, child, &mut function)?;
    Ok(OpenType::Function(function))
}

/// Whether a result is `void`, and nothing is refused of it.
fn is_bare(target: Target, found: Option<TypeFault>) -> bool
    ensures { result ≡ true → (target ≡ Void) × (found ≡ None) }
{
    match found {
        Some(_) => false,
        None => match target {
            Target::Void => true,
            _ => false,
        },
    }
}

/// A subroutine type begins.
pub(crate) fn open_function<'a>(
    alloc: Global,
    spare: &mut Spare<'a>,
    ctx: &UnitCtx<'_, 'a>,
    entry: &Entry<'_, 'a>,
) -> Result<OpenType<'a>, AllocError>
    ensures comes { IfOk result (λ o. ComesTo (scope ctx.now) o
        (function_row (sections ctx.now.form) entry.now)) }
    ensures own { IfOk result (λ o. own_of o ≡ None) }
{
    let mut found = None;
    let target = type_target(&ctx.form, entry, &mut found);
    if is_bare(target, found) {
        return Ok(OpenType::EmptyFunction(entry.at()));
    }
    let function = new_function(alloc, spare, entry.at(), target, found)?;
    Ok(OpenType::Function(function))
}
