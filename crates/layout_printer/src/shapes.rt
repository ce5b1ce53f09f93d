//! What declarations ask of types.
ghost use Rattle.std.specs.Prelude.{◌≡◌, ◌<◌};
ghost use Rattle.layout_printer.specs.Declarations.{is_passed, is_void, kind_of, leads_to_list};
ghost use Rattle.layout_printer.specs.Declarations.{leads_to_pointer, member_name, member_type};
ghost use Rattle.layout_printer.specs.Declarations.{part_count, past, qualifier_word, shape_of};
ghost use Rattle.layout_printer.specs.Declarations.{tag_name, tag_word};

use crate::lookups::{target_at, type_of};
use c_model::kinds::{
    BTF_KIND_ARRAY, BTF_KIND_CONST, BTF_KIND_ENUM, BTF_KIND_ENUM64, BTF_KIND_FLOAT,
    BTF_KIND_FUNC_PROTO, BTF_KIND_FWD, BTF_KIND_INT, BTF_KIND_PTR, BTF_KIND_RESTRICT,
    BTF_KIND_STRUCT, BTF_KIND_TYPE_TAG, BTF_KIND_TYPEDEF, BTF_KIND_UNION, BTF_KIND_VOLATILE,
};
use c_model::{CType, Label, Ref};

/// How a type is written in a declaration.
#[derive(Clone, Copy)]
pub enum Shape {
    /// Its name.
    Name,
    /// A keyword and a tag.
    Tag,
    Pointer,
    Qualifier,
    Array,
    Function,
    /// As an attribute of what it is of.
    Annotation,
    /// `?`.
    Other,
}

/// How a type of a kind is written.
pub fn shape_of(kind: u8) -> Shape
    ensures { result ≡ shape_of kind }
{
    match kind {
        BTF_KIND_INT | BTF_KIND_TYPEDEF | BTF_KIND_FLOAT => Shape::Name,
        BTF_KIND_PTR => Shape::Pointer,
        BTF_KIND_ARRAY => Shape::Array,
        BTF_KIND_STRUCT | BTF_KIND_UNION | BTF_KIND_ENUM | BTF_KIND_FWD | BTF_KIND_ENUM64 =>
            Shape::Tag,
        BTF_KIND_VOLATILE | BTF_KIND_CONST | BTF_KIND_RESTRICT => Shape::Qualifier,
        BTF_KIND_FUNC_PROTO => Shape::Function,
        BTF_KIND_TYPE_TAG => Shape::Annotation,
        _ => Shape::Other,
    }
}

/// The keyword of a tag.
pub fn tag_word(label: &Label<'_>) -> &'static [u8]
    ensures { result.now ≡ tag_word label.now }
{
    match label.kind {
        BTF_KIND_STRUCT => b"struct",
        BTF_KIND_UNION => b"union",
        BTF_KIND_FWD if label.flag => b"union",
        BTF_KIND_FWD => b"struct",
        _ => b"enum",
    }
}

/// The name of a tag, `{...}` where it has none.
pub fn tag_name<'n>(name: &'n [u8]) -> &'n [u8]
    ensures { result.now ≡ tag_name name.now }
{
    if name.is_empty() { b"{...}" } else { name }
}

/// The word of a qualifier.
pub fn qualifier_word(kind: u8) -> &'static [u8]
    ensures { result.now ≡ qualifier_word kind }
{
    match kind {
        BTF_KIND_VOLATILE => b"volatile",
        BTF_KIND_CONST => b"const",
        _ => b"restrict",
    }
}

/// Whether a reference is to void.
pub fn is_void(r: Ref) -> bool
    ensures { result ≡ is_void r }
{
    match r {
        Ref::Void => true,
        Ref::Node(_) => false,
    }
}

/// The kind of what a reference is to; 0 for void.
pub fn kind_of(types: &[CType<'_>], r: Ref) -> u8
    ensures { result ≡ kind_of types.now r }
{
    match type_of(types, r) {
        None => 0,
        Some(t) => t.label.kind,
    }
}

/// The type in a place of what a reference is to.
pub fn member_type(types: &[CType<'_>], r: Ref, place: usize) -> Ref
    ensures { result ≡ member_type types.now r place }
{
    match type_of(types, r) {
        None => Ref::Void,
        Some(t) => target_at(t.targets.items(), place),
    }
}

/// The name of the part in a place of what a reference is to.
pub fn member_name<'t, 'a>(types: &'t [CType<'a>], r: Ref, place: usize) -> &'a [u8]
    ensures { result.now ≡ member_name types.now r place }
{
    match type_of(types, r) {
        None => b"",
        Some(t) => match t.label.parts.items().get(place) {
            None => b"",
            Some(part) => part.name.bytes(),
        },
    }
}

/// The number of parts of what a reference is to.
pub fn part_count(types: &[CType<'_>], r: Ref) -> usize
    ensures { result ≡ part_count types.now r }
{
    match type_of(types, r) {
        None => 0,
        Some(t) => t.label.parts.items().len(),
    }
}

/// Whether an array or a function stands behind qualifiers and tags.
pub fn leads_to_list(types: &[CType<'_>], r: Ref) -> bool
    ensures { result ≡ leads_to_list types.now r }
{
    let kind = kind_of(types, past(types, r));
    kind == BTF_KIND_ARRAY || kind == BTF_KIND_FUNC_PROTO
}

/// Whether a pointer stands behind qualifiers and tags.
pub fn leads_to_pointer(types: &[CType<'_>], r: Ref) -> bool
    ensures { result ≡ leads_to_pointer types.now r }
{
    kind_of(types, past(types, r)) == BTF_KIND_PTR
}

/// What stands behind at most 64 qualifiers and tags.
fn past(types: &[CType<'_>], r: Ref) -> Ref
    ensures { result ≡ past 64 types.now r }
{
    let mut at = r;
    for _ in 0..64u32 {
        if !is_passed(kind_of(types, at)) {
            return at;
        }
        at = member_type(types, at, 0);
    }
    at
}

fn is_passed(kind: u8) -> bool
    ensures { result ≡ is_passed kind }
{
    kind == BTF_KIND_VOLATILE
        || kind == BTF_KIND_CONST
        || kind == BTF_KIND_RESTRICT
        || kind == BTF_KIND_TYPE_TAG
}
