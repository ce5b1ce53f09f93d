//! The first entry of a unit.
ghost use Rattle.std.specs.Prelude.{◌≡◌};
ghost use Rattle.dwarf_forms.specs.Values.{given as shown};
ghost use Rattle.elf_sections.specs.Images.{file_of};
ghost use Rattle.entry_tree.specs.Contexts.{IsUnitOf, within_of};
ghost use Rattle.std.specs.Option.{option_map};
ghost use Rattle.entry_tree.specs.Roots.{base_in, language_in, root_of, IsRoot};
ghost use Rattle.entry_tree.specs.Items.{of_form};

use crate::contexts::context;
use crate::fault::WalkFault;
use crate::unit::Unit;
use crate::walk::first_entry;
use dwarf_abbrev::Abbrevs;
use dwarf_abbrev::constants::{DW_AT_language, DW_AT_str_offsets_base, DwTag};
use dwarf_forms::{FormFault, FormValue, Given, constant_of};
use elf_sections::Image;

/// What the root of a unit says of the whole unit.
#[derive(Clone, Copy, PartialEq, Eq)]
pub struct RootInfo {
    /// DW_TAG_compile_unit or DW_TAG_partial_unit.
    pub tag: DwTag,
    /// The DW_LANG number, where one is given.
    pub language: Option<i128>,
    /// The offset in `.debug_str_offsets` from which the unit's indices count: its
    /// DW_AT_str_offsets_base, or without one the offset after a header of the section.
    pub str_base: u64,
}

/// The language that a root gives.
fn read_language(given: Option<Given<'_>>) -> Result<Option<i128>, FormFault>
    ensures { result ≡ language_in (option_map shown given.entry) }
{
    let Some(given) = given else {
        return Ok(None);
    };
    match constant_of(DW_AT_language, &given) {
        Ok(language) => Ok(Some(language)),
        Err(fault) => Err(fault),
    }
}

/// Where a unit's indices count from.
fn read_base(offset_bytes: u32, given: Option<Given<'_>>) -> Result<u64, FormFault>
    ensures { result ≡ base_in offset_bytes (option_map shown given.entry) }
{
    let Some(given) = given else {
        return Ok(if offset_bytes == 4 { 8 } else { 16 });
    };
    match &given.value {
        FormValue::SecOffset(offset) => Ok(*offset),
        FormValue::Unsigned(offset) => Ok(*offset),
        _ => Err(FormFault::WrongClass(DW_AT_str_offsets_base, given.form)),
    }
}

/// What was read at the root.
fn at_root<T: Copy>(unit: &Unit, read: Result<T, FormFault>) -> Result<T, WalkFault>
    ensures { result ≡ of_form unit.now.first read }
{
    match read {
        Ok(value) => Ok(value),
        Err(fault) => Err(WalkFault::Form(unit.first, fault)),
    }
}

/// The root of a unit, piece by piece.
#[tactic(auto, unfolding(crate::specs::Roots::root_of))]
fn read_root(image: &Image<'_>, unit: &Unit, abbrevs: &Abbrevs) -> Result<RootInfo, WalkFault>
    requires { IsUnitOf (file_of image.now) unit.now }
    ensures { result ≡ root_of (within_of (file_of image.now) unit.now) abbrevs.now unit.now.first }
{
    let ctx = context(image, unit, 0);
    let entry = first_entry(&ctx, abbrevs, unit.first)?;
    let language = at_root(unit, read_language(entry.attr(DW_AT_language)?))?;
    let base = read_base(unit.offset_bytes, entry.attr(DW_AT_str_offsets_base)?);
    let str_base = at_root(unit, base)?;
    Ok(RootInfo {
        tag: entry.tag,
        language,
        str_base,
    })
}

/// Reads the first entry of a unit of an image. `abbrevs` is the table of the unit's abbreviations.
///
/// It is refused by the first of these: `UnitRoot` with tag 0 where the first entry is missing or
/// null; `Form` where its code is cut off or doesn't fit 64 bits; `AbbrevMissing`; `UnitRoot` where
/// it is neither a compilation unit nor a partial unit; `Form` for the first value that can't be
/// read; then `Form` with `WrongClass` where the language is no constant, and where the base of
/// string offsets is neither an offset of a section nor a constant. Language and base are read
/// whatever the unit's language is, and nothing behind the first entry is.
///
/// Its work grows as that of `Walk::next` at the first entry and of `Entry::attr`, twice.
pub fn root(image: &Image<'_>, unit: &Unit, abbrevs: &Abbrevs) -> Result<RootInfo, WalkFault>
    requires { IsUnitOf (file_of image.now) unit.now }
    ensures gives { result
        ≡ root_of (within_of (file_of image.now) unit.now) abbrevs.now unit.now.first }
    ensures tree { IsRoot (within_of (file_of image.now) unit.now) abbrevs.now unit.now.first
        result }
{
    read_root(image, unit, abbrevs)
}
