//! The names of a table.
ghost use Rattle.std.specs.Prelude.{◌≡◌, ◌⊎◌, ◌∷◌, [], None, Some, All, IfOk, IfErr, IfSome, OnOk};
ghost use Rattle.std.specs.Option.{option_copied};
ghost use Rattle.btf_codec.specs.Spelling.{HasOffsets};
ghost use Rattle.btf_strings.specs.Kept.{IsSection};
ghost use Rattle.split_base.specs.Building.{PutsNames};
ghost use Rattle.split_base.specs.Refusals.{names_of_type, names_refusal, strings_of};
ghost use Rattle.split_base.specs.declared.fault.TableFault.TheVariants.{Memory};

use crate::fault::TableFault;
use btf_strings::{Strings, StringsFault};
use c_model::CType;
use dw_base::Name;
use std::alloc::Global;

/// The strings of the names of own types, over the base's section, where there is one.
/// `NamesTooLong` comes at the first name that would get an offset past the last.
pub fn put_names<'a>(
    alloc: Global,
    base: Option<&'a [u8]>,
    types: &[CType<'a>],
) -> Result<Strings<'a>, TableFault>
    requires { IfSome (option_copied base) IsSection }
    ensures strings { IfOk result (λ s. s ≡ strings_of (option_copied base.entry) types.now) }
    ensures offsets { IfOk result (λ s. All (HasOffsets s) types.now) }
    ensures accepted { OnOk result (names_refusal (option_copied base.entry) types.now ≡ None) }
    ensures refusal { IfErr result (λ e. (e ≡ Memory)
        ⊎ (names_refusal (option_copied base.entry) types.now ≡ Some e)) }
{
    let mut strings = Strings::new(alloc, base)?;
    for t in types {
        put_type_names(&mut strings, t)?;
    }
    Ok(strings)
}

/// Puts the names of a type: its own before those of its parts.
fn put_type_names<'a>(strings: &mut Strings<'a>, t: &CType<'a>) -> Result<(), TableFault>
    ensures { PutsNames strings.old (names_of_type t.now) strings.new result }
{
    put_name(strings, t.label.name.again())?;
    for part in t.label.parts.items() {
        put_name(strings, part.name.again())?;
    }
    Ok(())
}

/// Puts one name.
fn put_name<'a>(strings: &mut Strings<'a>, name: Name<'a>) -> Result<(), TableFault>
    ensures { PutsNames strings.old (name.entry ∷ []) strings.new result }
{
    match strings.put(name) {
        Ok(_) => Ok(()),
        Err(StringsFault::Full(offset)) => Err(TableFault::NamesTooLong(offset)),
        Err(StringsFault::Memory) => Err(TableFault::Memory),
    }
}
