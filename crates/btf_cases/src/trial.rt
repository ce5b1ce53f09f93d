//! A case is tried: its bytes are read, and the table is written again.
ghost use Rattle.std.specs.Prelude.{◌≡◌, IfSome};
ghost use Rattle.std.specs.Option.{option_copied};
ghost use Rattle.btf_codec.specs.Gives.{IsBefore};
ghost use Rattle.btf_strings.specs.Kept.{IsSection};

use crate::case::Case;
use crate::ready::{is_before, is_ready};
use crate::shown::shown;
use anyhow::{Context, Error, ensure};
use btf_codec::{Table, TableOut, read, write};
use btf_strings::{Strings, StringsFault};
use c_model::CType;
use dw_base::Bytes;
use std::alloc::Global;

/// The answer of a case: the fault, or the text of the table, with a line more where it isn't
/// written to the same bytes.
pub fn answer_of(alloc: Global, cases: &[Case], case: &Case) -> Result<String, Error> {
    let Some(place) = case.base else {
        return answered(alloc, case, None);
    };
    let below = cases.get(place).context("there is no base")?;
    let base = read(alloc, below.bytes.as_slice(), None, None)?;
    ensure!(is_before(&base), "nothing can come after this base");
    answered(alloc, case, Some(&base))
}

/// The answer over a base.
fn answered<'a>(alloc: Global, case: &'a Case, base: Option<&Table<'a>>) -> Result<String, Error>
    requires { IfSome base (λ b. IsBefore b.now) }
{
    let table = match read(alloc, case.bytes.as_slice(), case.want, base) {
        Ok(table) => table,
        Err(fault) => return Ok(format!(in alloc; "{fault:?}\n")?),
    };
    let mut answer = shown(alloc, &table)?;
    let section = match base {
        Some(before) => Some(before.names),
        None => None,
    };
    let bytes = written(alloc, table, section)?;
    if bytes.items() != case.bytes.as_slice() {
        answer.push_str("written otherwise\n")?;
    }
    Ok(answer)
}

/// The bytes of a table over a base's strings, its names put in the order of its types.
fn written<'a>(alloc: Global, table: Table<'a>, section: Option<&'a [u8]>) -> Result<Bytes, Error>
    requires { IfSome (option_copied section) IsSection }
{
    let mut strings = Strings::new(alloc, section)?;
    let own = table.types.items().get(table.base as usize..);
    put_names(&mut strings, own.unwrap_or(&[]))?;
    let order = table.order;
    let out = TableOut {
        base: table.base,
        types: table.types,
        strings,
    };
    ensure!(is_ready(&out), "a table that can't be written");
    Ok(write(alloc, &out, order)?)
}

/// Puts the names of types, each type's before those of its parts.
fn put_names<'a>(strings: &mut Strings<'a>, own: &[CType<'a>]) -> Result<(), StringsFault> {
    for t in own {
        strings.put(t.label.name.again())?;
        for part in t.label.parts.items() {
            strings.put(part.name.again())?;
        }
    }
    Ok(())
}
