//! What calls ask of a table, tested.
ghost use Rattle.std.specs.Prelude.{◌≡◌, ◌<◌, ◌≤◌, ◌^◌, IsTrue, All, length};
ghost use Rattle.std.specs.List.{flat_map};
ghost use Rattle.btf_codec.specs.Fields.{fields_of};
ghost use Rattle.btf_codec.specs.Gives.{IsBefore};
ghost use Rattle.btf_codec.specs.Spelling.{HasOffset, IsReady, IsReadyType};

use btf_codec::{Table, TableOut};
use btf_strings::Strings;
use c_model::{CType, Part};
use dw_base::Name;
use small_graphs::fitting::{are_below, refer_to_one_another};

/// Whether a table can come before another one.
pub fn is_before(table: &Table<'_>) -> bool
    ensures { IsTrue result → IsBefore table.now }
{
    let names = table.names;
    if names.is_empty() || names.len() > 1_000_000 {
        return false;
    }
    table.base == 0
        && names[0] == 0
        && names[names.len() - 1] == 0
        && refer_to_one_another(table.types.items())
}

/// Whether a table meets the conditions of `write`.
pub fn is_ready(table: &TableOut<'_>) -> bool
    ensures { IsTrue result → IsReady table.now.types table.now.base table.now.strings }
{
    let types = table.types.items();
    let base = table.base as usize;
    if types.len() > 1000 || base > types.len() || table.strings.bytes().len() > 1_000_000 {
        return false;
    }
    let own = &types[base..];
    is_short(own) && are_ready(&table.strings, types.len() as u32, own)
}

/// Whether the words of the types are few.
fn is_short(own: &[CType<'_>]) -> bool
    ensures { IsTrue result → length (flat_map fields_of own.now) < 2 ^ 29 }
{
    let mut count = 0;
    for t in own {
        let parts = t.label.parts.items().len();
        if parts > 65_535 || count > 1_000_000 {
            return false;
        }
        count += 6 + 3 * parts;
    }
    true
}

fn are_ready(strings: &Strings<'_>, count: u32, own: &[CType<'_>]) -> bool
    ensures { IsTrue result → All (IsReadyType strings.now count) own.now }
{
    for t in own {
        if !is_ready_type(strings, count, t) {
            return false;
        }
    }
    true
}

fn is_ready_type(strings: &Strings<'_>, count: u32, t: &CType<'_>) -> bool
    ensures { IsTrue result → IsReadyType strings.now count t.now }
{
    has_offset(strings, &t.label.name)
        && has_offsets(strings, t.label.parts.items())
        && are_below(count, t.targets.items())
}

fn has_offset(strings: &Strings<'_>, name: &Name<'_>) -> bool
    ensures { IsTrue result → HasOffset strings.now name.now }
{
    strings.offset_of(name.again()).is_some()
}

fn has_offsets(strings: &Strings<'_>, parts: &[Part<'_>]) -> bool
    ensures { IsTrue result → All (λ p. HasOffset strings.now p.name) parts.now }
{
    for part in parts {
        if !has_offset(strings, &part.name) {
            return false;
        }
    }
    true
}
