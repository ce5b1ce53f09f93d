//! The choice of types by name.
ghost use Rattle.std.specs.Prelude.{◌≡◌, ◌<◌, ◌≤◌, ◌^◌, ℕ, length, IfSome, Some};
ghost use Rattle.std.specs.Option.{option_copied};
ghost use Rattle.shown_types.specs.ByName.{AreNamed};
ghost use Rattle.shown_types.specs.Shown.{Chooses};

use crate::by_name::{ByName, by_name, push_named};
use crate::fault::ShowFault;
use crate::listed::structures_from;
use c_model::CType;
use command_line::Text;
use std::alloc::Global;

/// The places of the types that are shown: those of the names, or all from a place on that can be
/// shown.
pub fn choose(
    alloc: Global,
    types: &[CType<'_>],
    from: u32,
    names: Option<&[Text]>,
) -> Result<Vec<u32>, ShowFault>
    requires types { length types.now < 2 ^ 32 }
    requires names { IfSome (option_copied names) (λ ns. length ns < 2 ^ 32) }
    ensures { Chooses types.now from (option_copied names.entry) result }
{
    match names {
        None => Ok(structures_from(alloc, types, from)?),
        Some(names) => choose_named(alloc, types, names),
    }
}

/// Those of the names, which are the same from each place on. It takes as many steps as there are
/// types, names and places of them.
fn choose_named(alloc: Global, types: &[CType<'_>], names: &[Text]) -> Result<Vec<u32>, ShowFault>
    requires types { length types.now < 2 ^ 32 }
    requires names { length names.now < 2 ^ 32 }
    ensures { (from : ℕ) → Chooses types.now from (Some names.now) result }
{
    let by_name = by_name(alloc, types)?;
    choose_by(alloc, types, &by_name, names)
}

/// Those of the names, where the types are known by their names.
fn choose_by(
    alloc: Global,
    types: &[CType<'_>],
    by_name: &ByName<'_>,
    names: &[Text],
) -> Result<Vec<u32>, ShowFault>
    requires types { AreNamed types.now 0 by_name.now.first.entries by_name.now.next.items }
    requires names { length names.now < 2 ^ 32 }
    ensures { (from : ℕ) → Chooses types.now from (Some names.now) result }
{
    let mut all = Vec::new(alloc);
    for i in 0..names.len() {
        let before = all.len();
        push_named(&mut all, types, by_name, names[i].as_str().as_bytes())?;
        if all.len() == before {
            return Err(ShowFault::NoName(i as u32));
        }
    }
    Ok(all)
}
