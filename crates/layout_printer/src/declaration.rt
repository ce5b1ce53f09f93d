//! C declarations of types.
ghost use Rattle.std.specs.Prelude.{◌≡◌, ◌∷◌, ◌++◌, ◌+◌, ◌==◌, ◌<◌, ◌≤◌, List, [], ℕ, OnOk, IfOk};
ghost use Rattle.std.specs.Prelude.{codes, if◌then◌else◌};
ghost use Rattle.c_model.specs.declared.graph.Ref.{Ref};
ghost use Rattle.layout_printer.specs.Sizes.{type_of};
ghost use Rattle.layout_printer.specs.Declarations.{DeclParts, around, attribute, bound, decl};
ghost use Rattle.layout_printer.specs.Declarations.{decl_at, decl_by, decl_in, ellipsis, leads};
ghost use Rattle.layout_printer.specs.Declarations.{list_at, parameter_at, parameter_decl};
ghost use Rattle.layout_printer.specs.Declarations.{whole_decl};
ghost use Rattle.layout_printer.specs.Declarations.{parameter_text, parameters, part_count};
ghost use Rattle.layout_printer.specs.Declarations.{with_word, shape_of, after_space, tag_name};
ghost use Rattle.layout_printer.specs.Declarations.{tag_word};

use crate::lookups::{target_at, type_of};
use crate::pieces::{LinePiece, put, put_if};
use crate::shapes::{
    Shape, is_void, kind_of, leads_to_list, leads_to_pointer, member_name, member_type, part_count,
    qualifier_word, shape_of, tag_name, tag_word,
};
use c_model::kinds::BTF_KIND_FUNC_PROTO;
use c_model::{CType, Label, Ref};
use std::alloc::{AllocError, Global};

/// How many types a declaration follows, and so each parameter in it.
const DEPTH: u32 = 64;

/// A declaration: what stands for the type, and what stands for the name.
#[derive(Drop)]
pub struct Declaration {
    pub type_part: Vec<u8>,
    pub name_part: Vec<u8>,
}

/// A declaration that is being written: what stands before the type part of what is still to be
/// written, what stands behind it, and what stands for the name.
#[derive(Drop)]
struct Draft {
    front: Vec<u8>,
    back: Vec<u8>,
    name: Vec<u8>,
}

/// The declaration of a name of a type. 64 types are followed, and what is behind them is written
/// `...`.
pub fn declare(
    alloc: Global,
    types: &[CType<'_>],
    r: Ref,
    name: &[u8],
) -> Result<Declaration, AllocError>
    ensures { IfOk result (λ w. record {
      type_part = w.type_part.items;
      name_part = w.name_part.items;
    } ≡ decl types.now r name.now) }
{
    let mut draft = draft_of(alloc, name)?;
    let mut at = r;
    for _ in 0..DEPTH {
        let list = list_at(alloc, types, at)?;
        match follow(alloc, types, &list, at, &mut draft)? {
            None => return finish(draft),
            Some(next) => at = next,
        }
    }
    draft.front.extend_from_slice(b"...")?;
    finish(draft)
}

/// The declaration of a parameter: lists of parameters in it are written `...`.
fn parameter(
    alloc: Global,
    types: &[CType<'_>],
    r: Ref,
    name: &[u8],
) -> Result<Declaration, AllocError>
    ensures { IfOk result (λ w.
        record { type_part = w.type_part.items; name_part = w.name_part.items }
        ≡ parameter_decl types.now r name.now) }
{
    let mut draft = draft_of(alloc, name)?;
    let mut at = r;
    for _ in 0..DEPTH {
        match follow(alloc, types, b"...", at, &mut draft)? {
            None => return finish(draft),
            Some(next) => at = next,
        }
    }
    draft.front.extend_from_slice(b"...")?;
    finish(draft)
}

/// A declaration of a name before any type is written.
fn draft_of(alloc: Global, name: &[u8]) -> Result<Draft, AllocError>
    ensures front { IfOk result (λ w. w.front.items ≡ []) }
    ensures back { IfOk result (λ w. w.back.items ≡ []) }
    ensures name { IfOk result (λ w. w.name.items ≡ name.now) }
{
    Ok(Draft {
        front: Vec::new(alloc),
        back: Vec::new(alloc),
        name: Vec::from_slice(alloc, name)?,
    })
}

/// A declaration whose types are all written.
fn finish(draft: Draft) -> Result<Declaration, AllocError>
    ensures { IfOk result (λ w.
        record { type_part = w.type_part.items; name_part = w.name_part.items }
        ≡ whole_decl draft.front.items draft.name.items draft.back.items) }
{
    let Draft {
        mut front,
        back,
        name,
    } = draft;
    front.extend_from_slice(&back)?;
    Ok(Declaration {
        type_part: front,
        name_part: name,
    })
}

/// Writes a type, and gives the next one that is to be written. `list` is the text of its
/// parameters.
fn follow(
    alloc: Global,
    types: &[CType<'_>],
    list: &[u8],
    r: Ref,
    draft: &mut Draft,
) -> Result<Option<Ref>, AllocError>
    ensures { IfOk result (λ next. (rest : Ref → List ℕ → DeclParts) →
        leads rest draft.new.front.items draft.new.name.items draft.new.back.items next
        ≡ around draft.old.front.items (decl_at rest types.now list.now
        (type_of types.now r) draft.old.name.items) draft.old.back.items) }
{
    match type_of(types, r) {
        None => {
            draft.front.extend_from_slice(b"void")?;
            Ok(None)
        }
        Some(t) => write_type(alloc, types, list, t, draft),
    }
}

fn write_type(
    alloc: Global,
    types: &[CType<'_>],
    list: &[u8],
    t: &CType<'_>,
    draft: &mut Draft,
) -> Result<Option<Ref>, AllocError>
    ensures { IfOk result (λ next. (rest : Ref → List ℕ → DeclParts) →
        leads rest draft.new.front.items draft.new.name.items draft.new.back.items next
        ≡ around draft.old.front.items
        (decl_by rest types.now list.now (shape_of t.now.label.kind) t.now draft.old.name.items)
        draft.old.back.items) }
{
    let target = target_at(t.targets.items(), 0);
    match shape_of(t.label.kind) {
        Shape::Name => {
            draft.front.extend_from_slice(t.label.name.bytes())?;
            Ok(None)
        }
        Shape::Tag => {
            put_tag(&mut draft.front, &t.label)?;
            Ok(None)
        }
        Shape::Other => {
            draft.front.extend_from_slice(b"?")?;
            Ok(None)
        }
        Shape::Annotation => {
            let word = attribute(alloc, t.label.name.bytes())?;
            qualify(alloc, types, &word, true, target, draft)?;
            Ok(Some(target))
        }
        Shape::Pointer => {
            draft.name = pointer_name(alloc, leads_to_list(types, target), &draft.name)?;
            Ok(Some(target))
        }
        Shape::Qualifier => {
            qualify(
                alloc,
                types,
                qualifier_word(t.label.kind),
                false,
                target,
                draft,
            )?;
            Ok(Some(target))
        }
        Shape::Array => {
            put_bound(&mut draft.name, t.label.extra)?;
            Ok(Some(target))
        }
        Shape::Function => {
            put_list(&mut draft.name, list)?;
            Ok(Some(target))
        }
    }
}

/// Appends a tag with its word before it: `struct`, `union` or `enum`.
fn put_tag(out: &mut Vec<u8>, label: &Label<'_>) -> Result<(), AllocError>
    ensures { OnOk result (out.new.items
        ≡ out.old.items ++ (tag_word label.now ++ 32 ∷ tag_name label.now.name)) }
{
    let word = tag_word(label);
    let tag = tag_name(label.name.bytes());
    put(
        out,
        &[
            LinePiece::Text(word),
            LinePiece::Text(b" "),
            LinePiece::Text(tag),
        ],
    )
}

/// Appends the text of the parameters of a function, in parentheses.
fn put_list(out: &mut Vec<u8>, list: &[u8]) -> Result<(), AllocError>
    ensures { OnOk result (out.new.items
        ≡ out.old.items ++ (codes "(" ++ (list.now ++ codes ")"))) }
{
    put(
        out,
        &[
            LinePiece::Text(b"("),
            LinePiece::Text(list),
            LinePiece::Text(b")"),
        ],
    )
}

/// Writes a word that says more of a type, a qualifier or a tag's attribute: before the name where
/// the type is a pointer; else a qualifier before the type part, and an attribute behind it.
fn qualify(
    alloc: Global,
    types: &[CType<'_>],
    word: &[u8],
    is_tag: bool,
    target: Ref,
    draft: &mut Draft,
) -> Result<(), AllocError>
    ensures { OnOk result ((rest : Ref → List ℕ → DeclParts) →
        around draft.new.front.items (rest target draft.new.name.items) draft.new.back.items
        ≡ around draft.old.front.items (with_word is_tag rest types.now word.now target
        draft.old.name.items) draft.old.back.items) }
{
    if leads_to_pointer(types, target) {
        draft.name = qualified_name(alloc, word, &draft.name)?;
    } else if is_tag {
        draft.back = with_attribute(alloc, word, &draft.back)?;
    } else {
        put(
            &mut draft.front,
            &[LinePiece::Text(word), LinePiece::Text(b" ")],
        )?;
    }
    Ok(())
}

/// What stands for the name of a pointer with a word that says more of it.
fn qualified_name(alloc: Global, word: &[u8], name: &[u8]) -> Result<Vec<u8>, AllocError>
    ensures { IfOk result (λ v. v.items ≡ word.now ++ after_space name.now) }
{
    let mut out = Vec::from_slice(alloc, word)?;
    put_after_space(&mut out, name)?;
    Ok(out)
}

/// What stands behind a type part with one attribute more.
fn with_attribute(alloc: Global, word: &[u8], back: &[u8]) -> Result<Vec<u8>, AllocError>
    ensures { IfOk result (λ v. v.items ≡ (32 ∷ word.now) ++ back.now) }
{
    let mut out = Vec::from_slice(alloc, b" ")?;
    out.extend_from_slice(word)?;
    out.extend_from_slice(back)?;
    Ok(out)
}

/// The attribute that a type tag is written as.
fn attribute(alloc: Global, tag: &[u8]) -> Result<Vec<u8>, AllocError>
    ensures { IfOk result (λ v. v.items ≡ attribute tag.now) }
{
    let mut out = Vec::new(alloc);
    put(
        &mut out,
        &[
            LinePiece::Text(b"__attribute__((btf_type_tag(\""),
            LinePiece::Text(tag),
            LinePiece::Text(b"\")))"),
        ],
    )?;
    Ok(out)
}

/// What stands for the name of a pointer; in parentheses before an array or a function.
fn pointer_name(alloc: Global, nested: bool, name: &[u8]) -> Result<Vec<u8>, AllocError>
    ensures { IfOk result (λ v. v.items
        ≡ (if nested then codes "(*" ++ (name.now ++ codes ")") else codes "*" ++ name.now)) }
{
    let mut out = Vec::new(alloc);
    if nested {
        put(
            &mut out,
            &[
                LinePiece::Text(b"(*"),
                LinePiece::Text(name),
                LinePiece::Text(b")"),
            ],
        )?;
    } else {
        put(&mut out, &[LinePiece::Text(b"*"), LinePiece::Text(name)])?;
    }
    Ok(out)
}

/// Appends a space and a text, where it is not empty.
fn put_after_space(out: &mut Vec<u8>, text: &[u8]) -> Result<(), AllocError>
    ensures { OnOk result (out.new.items ≡ out.old.items ++ after_space text.now) }
{
    if text.is_empty() {
        return Ok(());
    }
    put(out, &[LinePiece::Text(b" "), LinePiece::Text(text)])
}

/// Appends the number of an array's elements in brackets.
fn put_bound(out: &mut Vec<u8>, count: u32) -> Result<(), AllocError>
    ensures { OnOk result (out.new.items ≡ out.old.items ++
        (codes "[" ++ (bound count ++ codes "]"))) }
{
    if count == 0 {
        put(out, &[LinePiece::Text(b"[]")])
    } else {
        put(
            out,
            &[
                LinePiece::Text(b"["),
                LinePiece::Number(u64::from(count)),
                LinePiece::Text(b"]"),
            ],
        )
    }
}

/// The text of the parameters of a function; nothing for another type.
fn list_at(alloc: Global, types: &[CType<'_>], r: Ref) -> Result<Vec<u8>, AllocError>
    ensures { IfOk result (λ v. v.items ≡ list_at types.now r) }
{
    if kind_of(types, r) == BTF_KIND_FUNC_PROTO {
        parameters(alloc, types, r)
    } else {
        Ok(Vec::new(alloc))
    }
}

/// The parameters of a function; `void` where there are none.
fn parameters(alloc: Global, types: &[CType<'_>], r: Ref) -> Result<Vec<u8>, AllocError>
    ensures { IfOk result (λ v. v.items ≡ parameters types.now r) }
{
    let count = part_count(types, r);
    if count == 0 {
        return Vec::from_slice(alloc, b"void");
    }
    let mut out = Vec::new(alloc);
    for place in 0..count {
        put_parameter(alloc, &mut out, types, r, place)?;
    }
    Ok(out)
}

/// Appends the parameter in a place.
fn put_parameter(
    alloc: Global,
    out: &mut Vec<u8>,
    types: &[CType<'_>],
    r: Ref,
    place: usize,
) -> Result<(), AllocError>
    requires { place < part_count types.now r }
    ensures { OnOk result (out.new.items ≡ out.old.items ++ parameter_at types.now r place) }
{
    let count = part_count(types, r);
    let name = member_name(types, r, place);
    let target = member_type(types, r, place + 1);
    let last = place + 1 == count;
    put_if(out, place > 0, &[LinePiece::Text(b", ")])?;
    if last && name.is_empty() && is_void(target) {
        return put(out, &[LinePiece::Text(b"...")]);
    }
    let declaration = parameter(alloc, types, target, name)?;
    out.extend_from_slice(&declaration.type_part)?;
    put_after_space(out, &declaration.name_part)
}
