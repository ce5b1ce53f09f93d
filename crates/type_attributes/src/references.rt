//! Qualifiers and typedefs.
ghost use Rattle.std.specs.Prelude.{◌≡◌, IfOk, OnOk};
ghost use Rattle.dwarf_forms.specs.Meanings.{sections};
ghost use Rattle.type_attributes.specs.Faults.{noted};
ghost use Rattle.type_attributes.specs.References.{reference_row, typedef_row};

use crate::attributes::{name, type_target};
use crate::fault::{TypeFault, note_if};
use crate::labels::{is_unnamed, make_label};
use crate::source::{SourceType, Targets};
use c_model::kinds::BTF_KIND_TYPEDEF;
use dw_base::Name;
use dwarf_forms::FormCtx;
use entry_tree::Entry;
use std::alloc::{AllocError, Global};

/// A type of a kind, with a name that doesn't come from the entry, that refers to one type.
///
/// Its work is that of a call of `Entry::attr`.
pub fn reference<'a>(
    alloc: Global,
    ctx: &FormCtx<'a>,
    entry: &Entry<'_, 'a>,
    kind: u8,
    name: Name<'a>,
    least: &mut Option<TypeFault>,
) -> Result<SourceType<'a>, AllocError>
    ensures made { IfOk result
        (λ t. t ≡ (reference_row kind name.entry (sections ctx.now) entry.now).made) }
    ensures noted { OnOk result (least.new ≡ noted least.old
        (reference_row kind name.entry (sections ctx.now) entry.now).refused) }
{
    let target = type_target(ctx, entry, least);
    Ok(SourceType {
        at: entry.at(),
        label: make_label(alloc, kind, name, 0),
        targets: Targets::one(target),
    })
}

/// The type of a typedef. A missing name is noted.
///
/// Its work is that of two calls of `Entry::attr`, and grows with the bytes of the name.
#[tactic(auto, using(crate::proofs::Noting::noted_append))]
pub fn typedef<'a>(
    alloc: Global,
    ctx: &FormCtx<'a>,
    entry: &Entry<'_, 'a>,
    least: &mut Option<TypeFault>,
) -> Result<SourceType<'a>, AllocError>
    ensures made { IfOk result (λ t. t ≡ (typedef_row (sections ctx.now) entry.now).made) }
    ensures noted { OnOk result (least.new
        ≡ noted least.old (typedef_row (sections ctx.now) entry.now).refused) }
{
    let name = name(ctx, entry, least);
    note_if(least, is_unnamed(&name), TypeFault::MissingName(entry.at()));
    let target = type_target(ctx, entry, least);
    Ok(SourceType {
        at: entry.at(),
        label: make_label(alloc, BTF_KIND_TYPEDEF, name, 0),
        targets: Targets::one(target),
    })
}
