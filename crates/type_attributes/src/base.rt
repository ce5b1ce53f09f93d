//! Base types and unspecified types.
ghost use Rattle.std.specs.Prelude.{◌≡◌, ◌≤◌, IsTrue};
ghost use Rattle.dwarf_forms.specs.Meanings.{sections};
ghost use Rattle.type_attributes.specs.Faults.{noted};
ghost use Rattle.type_attributes.specs.BaseTypes.{is_integer, is_float, base_of, code_in, is_whole};
ghost use Rattle.type_attributes.specs.BaseTypes.{is_signed, is_unsigned, int_word};
ghost use Rattle.type_attributes.specs.BaseTypes.{base_with, base_label, base_row, unspecified_row};

use crate::attributes::{constant, name, signed_constant};
use crate::fault::{TypeFault, note_if};
use crate::labels::{is_unnamed, make_label, no_targets, note_size, size_or_zero};
use crate::number::Number;
use crate::source::SourceType;
use c_model::kinds::{BTF_KIND_FLOAT, BTF_KIND_INT, BTF_KIND_STRUCT};
use c_model::{Label, Parts};
use dw_base::Name;
use dwarf_abbrev::constants::{
    DW_AT_bit_size, DW_AT_byte_size, DW_AT_encoding, DW_ATE_UTF, DW_ATE_boolean, DW_ATE_float,
    DW_ATE_signed, DW_ATE_signed_char, DW_ATE_unsigned, DW_ATE_unsigned_char,
};
use dwarf_forms::FormCtx;
use entry_tree::Entry;
use std::alloc::Global;

/// An INT with a sign, in the first byte of its word (the kernel's BTF documentation,
/// "BTF_KIND_INT").
pub const BTF_INT_SIGNED: u32 = 1;
/// An INT that is true or false.
pub const BTF_INT_BOOL: u32 = 4;

/// What a base type is to BTF.
#[derive(Clone, Copy)]
pub enum Base {
    /// An INT, with its word of encoding, offset and bits.
    Int(u32),
    /// A FLOAT.
    Float,
    /// Neither of them.
    Opaque,
}

fn is_integer_size(size: u32) -> bool
    ensures test { result ≡ is_integer size }
    ensures small { IsTrue result → size ≤ 16 }
{
    size == 1 || size == 2 || size == 4 || size == 8 || size == 16
}

fn is_float_size(size: u32) -> bool
    ensures { result ≡ is_float size }
{
    size == 2 || size == 4 || size == 8 || size == 12 || size == 16
}

fn is_signed(encoding: u64) -> bool
    ensures { result ≡ is_signed encoding }
{
    encoding == DW_ATE_signed || encoding == DW_ATE_signed_char
}

fn is_unsigned(encoding: u64) -> bool
    ensures { result ≡ is_unsigned encoding }
{
    encoding == DW_ATE_unsigned || encoding == DW_ATE_unsigned_char || encoding == DW_ATE_UTF
}

/// The last word of an INT: how it is encoded, the bit at which it begins, which is 0, and its
/// bits.
fn int_word(encoding: u32, size: u32) -> u32
    requires encoding { encoding ≤ BTF_INT_BOOL }
    requires size { size ≤ 16 }
    ensures { result ≡ int_word encoding size }
{
    encoding * 16_777_216 + 8 * size
}

/// What a size and an encoding make.
fn make_base(size: u32, encoding: u64) -> Base
    ensures { result ≡ base_of size encoding }
{
    if encoding == DW_ATE_boolean && is_integer_size(size) {
        Base::Int(int_word(BTF_INT_BOOL, size))
    } else if encoding == DW_ATE_float && is_float_size(size) {
        Base::Float
    } else if is_signed(encoding) && is_integer_size(size) {
        Base::Int(int_word(BTF_INT_SIGNED, size))
    } else if is_unsigned(encoding) && is_integer_size(size) {
        Base::Int(int_word(0, size))
    } else {
        Base::Opaque
    }
}

fn code(encoding: Option<Number>) -> u64
    ensures { result ≡ code_in encoding }
{
    match encoding {
        Some(Number::Natural(n)) => n,
        _ => 0,
    }
}

fn has_all_bits(size: u32, bits: Option<Number>) -> bool
    ensures { result ≡ is_whole size bits }
{
    match bits {
        None => true,
        Some(Number::Natural(n)) => n == 8 * u64::from(size),
        Some(Number::Negative(_)) => false,
    }
}

fn base_from(size: u32, encoding: Option<Number>, bits: Option<Number>) -> Base
    ensures { result ≡ base_with size encoding bits }
{
    if has_all_bits(size, bits) {
        make_base(size, code(encoding))
    } else {
        Base::Opaque
    }
}

fn base_type_label<'a>(alloc: Global, name: Name<'a>, size: u32, base: Base) -> Label<'a>
    ensures { result ≡ base_label name.entry size base }
{
    match base {
        Base::Int(extra) => Label {
            kind: BTF_KIND_INT,
            name,
            flag: false,
            size,
            extra,
            parts: Parts::new(Vec::new(alloc)),
        },
        Base::Float => make_label(alloc, BTF_KIND_FLOAT, name, size),
        Base::Opaque => make_label(alloc, BTF_KIND_STRUCT, name, size),
    }
}

/// The type of a base type: an INT, a FLOAT, or a structure of its name and size without members.
/// A missing name and a missing or too large size are noted.
///
/// Its work is that of a few calls of `Entry::attr`, and grows with the bytes of the name.
#[tactic(auto, using(crate::proofs::Noting::noted_append))]
pub fn base_type<'a>(
    alloc: Global,
    ctx: &FormCtx<'a>,
    entry: &Entry<'_, 'a>,
    least: &mut Option<TypeFault>,
) -> SourceType<'a>
    ensures made { result ≡ (base_row (sections ctx.now) entry.now).made }
    ensures noted { least.new
        ≡ noted least.old (base_row (sections ctx.now) entry.now).refused }
{
    let name = name(ctx, entry, least);
    note_if(least, is_unnamed(&name), TypeFault::MissingName(entry.at()));
    let size = constant(entry, DW_AT_byte_size, least);
    note_size(least, entry.at(), size);
    let encoding = signed_constant(entry, DW_AT_encoding, least);
    let bits = signed_constant(entry, DW_AT_bit_size, least);
    let size = size_or_zero(size);
    SourceType {
        at: entry.at(),
        label: base_type_label(alloc, name, size, base_from(size, encoding, bits)),
        targets: no_targets(alloc),
    }
}

/// The type of an unspecified type: a structure of its name without members.
///
/// Its work is that of a call of `Entry::attr`, and grows with the bytes of the name.
pub fn unspecified_type<'a>(
    alloc: Global,
    ctx: &FormCtx<'a>,
    entry: &Entry<'_, 'a>,
    least: &mut Option<TypeFault>,
) -> SourceType<'a>
    ensures made { result ≡ (unspecified_row (sections ctx.now) entry.now).made }
    ensures noted { least.new
        ≡ noted least.old (unspecified_row (sections ctx.now) entry.now).refused }
{
    let name = name(ctx, entry, least);
    SourceType {
        at: entry.at(),
        label: make_label(alloc, BTF_KIND_STRUCT, name, 0),
        targets: no_targets(alloc),
    }
}
