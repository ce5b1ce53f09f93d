//! How many bytes a table takes.
ghost use Rattle.std.specs.Prelude.{◌≡◌, ◌≤◌, ◌<◌, ◌+◌, ◌*◌, ◌^◌, ◌⊎◌, None, Some, All, length};
ghost use Rattle.std.specs.Prelude.{IfErr, OnOk};
ghost use Rattle.std.specs.List.{flat_map};
ghost use Rattle.btf_codec.specs.Fields.{fields_of, layout_of};
ghost use Rattle.btf_strings.specs.Names.{own_section};
ghost use Rattle.c_model.specs.Kinds.{IsWellFormed};
ghost use Rattle.split_base.specs.Building.{words_besides, words_each};
ghost use Rattle.split_base.specs.declared.fault.TableFault.TheVariants.{TableTooLong};

use crate::fault::TableFault;
use btf_strings::Strings;
use c_model::CType;
use c_model::kinds::{
    BTF_KIND_ARRAY, BTF_KIND_DATASEC, BTF_KIND_DECL_TAG, BTF_KIND_ENUM, BTF_KIND_ENUM64,
    BTF_KIND_FLOAT, BTF_KIND_FUNC_PROTO, BTF_KIND_INT, BTF_KIND_PTR, BTF_KIND_STRUCT,
    BTF_KIND_TYPE_TAG, BTF_KIND_UNION, BTF_KIND_VAR,
};

/// Counts the bytes of own types and own strings. `TableTooLong`: a header can't say so many.
pub fn check_length(types: &[CType<'_>], strings: &Strings<'_>) -> Result<(), TableFault>
    requires few { length types.now < 2 ^ 20 }
    requires formed { All IsWellFormed types.now }
    ensures accepted { OnOk result
        (4 * length (flat_map fields_of types.now) + length (own_section strings.now) < 2 ^ 32) }
    ensures refusal { IfErr result (λ e.
        (2 ^ 32 ≤ 4 * length (flat_map fields_of types.now) + length (own_section strings.now))
        × (e ≡ TableTooLong
        (4 * length (flat_map fields_of types.now) + length (own_section strings.now)))) }
{
    let bytes = 4 * word_count(types) + strings.bytes().len() as u64;
    if bytes > u64::from(u32::MAX) {
        return Err(TableFault::TableTooLong(bytes));
    }
    Ok(())
}

/// How many words types have.
fn word_count(types: &[CType<'_>]) -> u64
    requires few { length types.now < 2 ^ 20 }
    requires formed { All IsWellFormed types.now }
    ensures count { result ≡ length (flat_map fields_of types.now) }
    ensures bound { result < 2 ^ 38 }
{
    let mut count = 0;
    for t in types {
        count += words_of(t);
    }
    count
}

/// How many words a type has.
fn words_of(t: &CType<'_>) -> u64
    requires { length t.now.label.parts ≤ 65535 }
    ensures count { result ≡ length (fields_of t.now) }
    ensures bound { result < 2 ^ 18 }
{
    let parts = t.label.parts.items().len() as u64;
    words_besides(t.label.kind) + words_each(t.label.kind) * parts
}

/// How many words a type of a kind has besides those of its parts.
fn words_besides(kind: u8) -> u64
    ensures { result ≡ words_besides (layout_of kind) }
{
    match kind {
        BTF_KIND_INT | BTF_KIND_VAR | BTF_KIND_DECL_TAG => 4,
        BTF_KIND_PTR
        | BTF_KIND_STRUCT..=BTF_KIND_FUNC_PROTO
        | BTF_KIND_DATASEC
        | BTF_KIND_FLOAT
        | BTF_KIND_TYPE_TAG
        | BTF_KIND_ENUM64 => 3,
        BTF_KIND_ARRAY => 6,
        _ => 2,
    }
}

/// How many words a part of a type of a kind has.
fn words_each(kind: u8) -> u64
    ensures { result ≡ words_each (layout_of kind) }
{
    match kind {
        BTF_KIND_STRUCT | BTF_KIND_UNION | BTF_KIND_DATASEC | BTF_KIND_ENUM64 => 3,
        BTF_KIND_ENUM | BTF_KIND_FUNC_PROTO => 2,
        _ => 0,
    }
}
