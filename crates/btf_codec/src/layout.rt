//! How the kinds of types are laid out.
ghost use Rattle.std.specs.Prelude.{◌≡◌};
ghost use Rattle.btf_codec.specs.Fields.{has_size, layout_of, own_targets, part_layout};

use c_model::kinds::{
    BTF_KIND_ARRAY, BTF_KIND_CONST, BTF_KIND_DATASEC, BTF_KIND_DECL_TAG, BTF_KIND_ENUM,
    BTF_KIND_ENUM64, BTF_KIND_FLOAT, BTF_KIND_FUNC, BTF_KIND_FUNC_PROTO, BTF_KIND_FWD,
    BTF_KIND_INT, BTF_KIND_PTR, BTF_KIND_RESTRICT, BTF_KIND_STRUCT, BTF_KIND_TYPE_TAG,
    BTF_KIND_TYPEDEF, BTF_KIND_UNION, BTF_KIND_VAR, BTF_KIND_VOLATILE,
};

/// What follows the name and the info word of a type.
#[derive(Clone, Copy)]
pub enum KindLayout {
    /// The size and the encoding word.
    Int,
    /// One type.
    Link,
    /// 0, the element's type, the index type and the number of elements.
    Array,
    /// 0.
    Forward,
    /// One type, and a linkage or a component index.
    TaggedLink,
    /// The size.
    Float,
    /// The size, and then the parts.
    Sized(PartLayout),
    /// The type of the result, and then the parameters.
    Prototype,
}

/// The words of a part.
#[derive(Clone, Copy)]
pub enum PartLayout {
    /// The name, the type and the offset word.
    Member,
    /// The name and the value.
    Enumerator,
    /// The name, and the low and the high 32 bits of the value.
    WideEnumerator,
    /// The name and the type.
    Parameter,
    /// The type, the offset in the section and the size.
    Variable,
}

/// The layout of a kind. `None` exactly where no kind has that number.
pub fn layout_of(kind: u8) -> Option<KindLayout>
    ensures { result ≡ layout_of kind }
{
    match kind {
        BTF_KIND_INT => Some(KindLayout::Int),
        BTF_KIND_PTR | BTF_KIND_TYPEDEF | BTF_KIND_FUNC | BTF_KIND_TYPE_TAG => {
            Some(KindLayout::Link)
        }
        BTF_KIND_VOLATILE | BTF_KIND_CONST | BTF_KIND_RESTRICT => Some(KindLayout::Link),
        BTF_KIND_ARRAY => Some(KindLayout::Array),
        BTF_KIND_STRUCT | BTF_KIND_UNION => Some(KindLayout::Sized(PartLayout::Member)),
        BTF_KIND_ENUM => Some(KindLayout::Sized(PartLayout::Enumerator)),
        BTF_KIND_FWD => Some(KindLayout::Forward),
        BTF_KIND_FUNC_PROTO => Some(KindLayout::Prototype),
        BTF_KIND_VAR | BTF_KIND_DECL_TAG => Some(KindLayout::TaggedLink),
        BTF_KIND_DATASEC => Some(KindLayout::Sized(PartLayout::Variable)),
        BTF_KIND_FLOAT => Some(KindLayout::Float),
        BTF_KIND_ENUM64 => Some(KindLayout::Sized(PartLayout::WideEnumerator)),
        _ => None,
    }
}

/// Which words of a type are ids, besides those of its parts.
#[derive(Clone, Copy)]
pub enum OwnTargets {
    /// None.
    NoTarget,
    /// The third word.
    OneTarget,
    /// The element's type and the index type of an ARRAY.
    ArrayTargets,
}

/// Whether the third word of a type is its size.
pub fn has_size(layout: KindLayout) -> bool
    ensures { result ≡ has_size layout }
{
    matches!(
        layout,
        KindLayout::Int | KindLayout::Float | KindLayout::Sized(_)
    )
}

/// Which words of a type are ids, besides those of its parts.
pub fn own_targets(layout: KindLayout) -> OwnTargets
    ensures { result ≡ own_targets layout }
{
    match layout {
        KindLayout::Link | KindLayout::TaggedLink | KindLayout::Prototype => OwnTargets::OneTarget,
        KindLayout::Array => OwnTargets::ArrayTargets,
        _ => OwnTargets::NoTarget,
    }
}

/// The layout of a type's parts, where its kind has parts.
pub fn part_layout(layout: KindLayout) -> Option<PartLayout>
    ensures { result ≡ part_layout layout }
{
    match layout {
        KindLayout::Sized(part) => Some(part),
        KindLayout::Prototype => Some(PartLayout::Parameter),
        _ => None,
    }
}
