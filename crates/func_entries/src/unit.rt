//! The types and the functions of one unit.
ghost use Rattle.std.specs.Prelude.{◌≡◌, ◌+◌, ◌<◌, ◌^◌, IfOk, Ok, []};
ghost use Rattle.elf_sections.specs.Images.{file_of};
ghost use Rattle.entry_tree.specs.Contexts.{IsUnitOf, within_of};
ghost use Rattle.entry_tree.specs.Roots.{root_of};
ghost use Rattle.c_types.specs.Tables.{IsTableAt};
ghost use Rattle.c_types.specs.Types as types;
ghost use Rattle.c_types.specs.Types.{types_of_unit_of, Gives};
ghost use Rattle.func_entries.specs.Units.{after_root, functions_of_unit_of, types_among};

use crate::entries::{FuncEntries, UnitEntries};
use crate::walking::read_entries;
use c_types::unit::{is_other, room_for};
use c_types::{SourceTypes, TypeFault, UnitTypes};
use dwarf_abbrev::Abbrevs;
use elf_sections::Image;
use entry_tree::{Unit, Walk, context, root};
use std::alloc::Global;
use type_attributes::scope::UnitCtx;

/// What a unit has whose language is passed over.
fn no_entries<'a>(alloc: Global) -> UnitEntries<'a>
    ensures types { result.types ≡ types.no_types }
    ensures funcs { result.funcs ≡ Ok [] }
{
    UnitEntries {
        types: UnitTypes {
            read: false,
            has_array: false,
            types: SourceTypes::new(Vec::new(alloc)),
        },
        funcs: Ok(FuncEntries::new(Vec::new(alloc))),
    }
}

/// The types and the functions of a unit whose abbreviations are read.
fn read_unit<'a>(
    alloc: Global,
    image: &Image<'a>,
    unit: &Unit,
    abbrevs: &Abbrevs,
) -> Result<UnitEntries<'a>, TypeFault>
    requires unit { IsUnitOf (file_of image.now) unit.now }
    requires small { unit.now.end < unit.now.at + 2 ^ 32 }
    ensures types { Gives (types_among result) (types.after_root (file_of image.now) unit.now
        abbrevs.now (root_of (within_of (file_of image.now) unit.now) abbrevs.now unit.now.first)) }
    ensures funcs { IfOk result (λ u. u.funcs ≡ after_root (file_of image.now) unit.now
        abbrevs.now (root_of (within_of (file_of image.now) unit.now) abbrevs.now unit.now.first)) }
{
    let root = match root(image, unit, abbrevs) {
        Ok(root) => root,
        Err(fault) => return Err(TypeFault::Walk(fault)),
    };
    if is_other(root.language) {
        return Ok(no_entries(alloc));
    }
    let form = context(image, unit, root.str_base);
    let ctx = UnitCtx {
        form,
        version: unit.version,
        start: Walk::new(unit, abbrevs, &form),
        extents: None,
    };
    read_entries(alloc, ctx, room_for(unit))
}

/// The types of a unit of an image, as `types_of_unit_with` gives them, and its functions in the
/// order of their entries. The table of abbreviations is the one at the unit's place, as
/// `c_types::read_abbrevs` reads it.
///
/// A function is a subprogram (DWARF 5, section 3.3) at any depth with a name that is not empty and
/// without a true declaration. Its prototype is the subroutine type of its own type and its own
/// parameters. References are still offsets in `.debug_info`. A unit of a language that is passed
/// over has no functions.
///
/// What refuses the types refuses the unit. Where they are not refused, the functions can be: the
/// refusal is that of a function or of one of its parameters whose entry has the lowest offset, at
/// one entry the one of the lowest number in the order of the variants, and of two of one number
/// the one that keeps the lower values: `Form` of the function's name, declaration, external or
/// type, or of the parameter's name or type, `MissingType` of the parameter, `TooMany` of the
/// function. Where the name of a subprogram is refused, it counts as one that is not empty, and a
/// declaration that is refused as one that is not true. `Memory` comes only where memory can't be
/// found, and never of the functions alone.
///
/// The work is that of `types_of_unit_with`, and grows with the bytes of functions' names and with
/// parameters.
pub fn entries_of_unit_with<'a>(
    alloc: Global,
    image: &Image<'a>,
    unit: &Unit,
    abbrevs: &Abbrevs,
) -> Result<UnitEntries<'a>, TypeFault>
    requires unit { IsUnitOf (file_of image.now) unit.now }
    requires small { unit.now.end < unit.now.at + 2 ^ 32 }
    requires table { IsTableAt (file_of image.now) unit.now.abbrev_at abbrevs.now }
    ensures types { Gives (types_among result) (types_of_unit_of (file_of image.now) unit.now) }
    ensures funcs { IfOk result
        (λ u. u.funcs ≡ functions_of_unit_of (file_of image.now) unit.now) }
{
    read_unit(alloc, image, unit, abbrevs)
}
