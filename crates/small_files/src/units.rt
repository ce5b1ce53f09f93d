//! The units of files, as those calls want them that read the units of several files.
ghost use Rattle.std.specs.Prelude.{◌≡◌, ◌++◌, ◌⊎◌, [], ◌∷◌, map, All, IfOk, IfErr, OnOk};
ghost use Rattle.elf_sections.specs.Images.{file_of as bytes_of};
ghost use Rattle.entry_tree.specs.Contexts.{IsUnitOf};
ghost use Rattle.unit_graph.specs.Sources.{IsReadable};
ghost use Rattle.unit_graph.specs.Tables.{AreOfFiles};
ghost use Rattle.small_files.specs.Units.{HasUnits, IsWhy};
ghost use Rattle.unit_graph.specs.Files.{unit_in, units_in};

use elf_sections::{ElfFault, Image};
use entry_tree::{Unit, UnitFault, units};
use std::alloc::{AllocError, Global};
use thiserror::Error;
use unit_graph::UnitAt;

/// Why a file has no units.
#[derive(Clone, Copy, Debug, PartialEq, Eq, Error)]
pub enum NoUnits {
    #[error("the file: {0}")]
    File(ElfFault),
    #[error("a header: {0}")]
    Header(UnitFault),
    #[error("a unit has 2^32 bytes or more")]
    Long,
    #[error("out of memory")]
    Memory(AllocError),
}

/// Puts one unit more.
fn push_unit<'a>(
    all: &mut Vec<UnitAt<'a>>,
    file: u32,
    image: Image<'a>,
    unit: Unit,
) -> Result<(), NoUnits>
    requires unit { IsUnitOf (bytes_of image) unit }
    requires readable { All IsReadable all.old.items }
    ensures units { OnOk result
        (all.new.items ≡ all.old.items ++ unit_in file (bytes_of image.entry) unit ∷ []) }
    ensures refused { IfErr result (IsWhy (bytes_of image.entry)) }
    ensures readable { OnOk result (All IsReadable all.new.items) }
{
    if unit.end.saturating_sub(unit.at) >= 1 << 32 {
        return Err(NoUnits::Long);
    }
    match all.push(UnitAt { file, image, unit }) {
        Ok(()) => Ok(()),
        Err(full) => Err(NoUnits::Memory(full.into())),
    }
}

/// Puts units of a file behind others.
fn push_all<'a>(
    all: &mut Vec<UnitAt<'a>>,
    file: u32,
    image: Image<'a>,
    units: &[Unit],
) -> Result<(), NoUnits>
    requires units { All (IsUnitOf (bytes_of image)) units.now }
    requires readable { All IsReadable all.old.items }
    ensures units { OnOk result
        (all.new.items ≡ all.old.items ++ map (unit_in file (bytes_of image.entry)) units.now) }
    ensures refused { IfErr result (IsWhy (bytes_of image.entry)) }
    ensures readable { OnOk result (All IsReadable all.new.items) }
{
    for unit in units {
        push_unit(all, file, image, *unit)?;
    }
    Ok(())
}

/// Puts the units of a file of this number behind others.
pub fn push_units<'a>(
    alloc: Global,
    all: &mut Vec<UnitAt<'a>>,
    file: u32,
    bytes: &'a [u8],
) -> Result<(), NoUnits>
    requires readable { All IsReadable all.old.items }
    ensures units { OnOk result (all.new.items ≡ all.old.items ++ units_in file bytes.now) }
    ensures accepted { OnOk result (HasUnits bytes.now) }
    ensures refused { IfErr result (IsWhy bytes.now) }
    ensures readable { OnOk result (All IsReadable all.new.items) }
{
    let image = match Image::read(bytes) {
        Ok(image) => image,
        Err(fault) => return Err(NoUnits::File(fault)),
    };
    match units(alloc, &image) {
        Ok(list) => push_all(all, file, image, list.items()),
        Err(fault) => Err(NoUnits::Header(fault)),
    }
}

/// The units of one file, which has the number 0.
pub fn units_of<'a>(alloc: Global, bytes: &'a [u8]) -> Result<Vec<UnitAt<'a>>, NoUnits>
    ensures units { IfOk result (λ v. v.items ≡ units_in 0 bytes.now) }
    ensures accepted { OnOk result (HasUnits bytes.now) }
    ensures refused { IfErr result (IsWhy bytes.now) }
    ensures readable { IfOk result (λ v. All IsReadable v.items) }
{
    let mut all = Vec::new(alloc);
    push_units(alloc, &mut all, 0, bytes)?;
    Ok(all)
}

/// The units of two files, which have the numbers 0 and 1.
pub fn units_of_two<'a>(
    alloc: Global,
    first: &'a [u8],
    second: &'a [u8],
) -> Result<Vec<UnitAt<'a>>, NoUnits>
    ensures units { IfOk result (λ v. v.items ≡ units_in 0 first.now ++ units_in 1 second.now) }
    ensures accepted { OnOk result (HasUnits first.now × HasUnits second.now) }
    ensures refused { IfErr result (λ why. IsWhy first.now why
        ⊎ (HasUnits first.now × IsWhy second.now why)) }
    ensures readable { IfOk result (λ v. All IsReadable v.items) }
    ensures files { IfOk result (λ v. AreOfFiles v.items) }
{
    let mut all = Vec::new(alloc);
    push_units(alloc, &mut all, 0, first)?;
    push_units(alloc, &mut all, 1, second)?;
    Ok(all)
}
