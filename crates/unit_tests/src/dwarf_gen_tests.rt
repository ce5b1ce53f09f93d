//! What the readers make of made images, and the sizes that numbers stand for.
mod types;

ghost use Rattle.unit_graph.specs.Sources.{IsReadable};

use c_types::{UnitTypes, types_of_unit};
use dwarf_gen::{elf_of, spec_of};
use small_files::units::units_of;
use std::alloc::Global;
use std::test::Fail;
use unit_graph::UnitAt;

/// The types of a unit.
fn types_of<'a>(alloc: Global, at: &UnitAt<'a>) -> Result<UnitTypes<'a>, Fail>
    requires { IsReadable at.now }
{
    Ok(types_of_unit(alloc, &at.image, &at.unit)?)
}

/// How many units, types and bytes the image has that a number gives.
fn counts(alloc: Global, number: u64) -> Result<[usize; 3], Fail> {
    let file = elf_of(alloc, &spec_of(number))?;
    let all = units_of(alloc, file.items())?;
    let mut types = 0usize;
    for i in 0..all.len() {
        types = types.saturating_add(types_of(alloc, &all[i])?.types.items().len());
    }
    Ok([all.len(), types, file.items().len()])
}

/// Numbers, and how many units, types and bytes their images have.
const COUNTS: &[(u64, [usize; 3])] = &[
    (0, [1, 5, 504]),
    (1, [2, 10, 583]),
    (1 << 10, [1, 7, 541]),
    (1 << 20, [1, 5, 504]),
    (7 << 20, [1, 5, 504]),
    (1_049_602, [3, 21, 773]),
    (12_294, [7, 203, 4086]),
    (7_340_039, [8, 40, 1057]),
    (10 << 10, [1, 25, 874]),
    (101 << 10, [1, 207, 4241]),
    (1023 << 10, [1, 2051, 38355]),
    (1023, [1024, 5120, 81321]),
    (8_388_608, [1, 5, 504]),
    (9_438_210, [3, 21, 773]),
];

#[test]
fn has_so_many_entries(rt: HostRuntime) -> Result<(), Fail> {
    for &(number, wanted) in COUNTS {
        assert_eq!(rt; counts(rt.alloc(), number)?, wanted, "by {number}");
    }
    Ok(())
}

/// The units, structures, variants and version that a number stands for.
fn sizes_by(number: u64) -> [u32; 4] {
    let spec = spec_of(number);
    let version = u32::from(spec.version);
    [spec.units, spec.structs, spec.variants, version]
}

/// Numbers at the edges, and the units, structures, variants and version that they stand for.
const SIZES: &[(u64, [u32; 4])] = &[
    (0, [1, 1, 1, 5]),
    (1023, [1024, 1, 1, 5]),
    (1024, [1, 2, 1, 5]),
    (1_047_552, [1, 1024, 1, 5]),
    (1_048_576, [1, 1, 2, 5]),
    (7_340_032, [1, 1, 8, 5]),
    (8_388_607, [1024, 1024, 8, 5]),
    (8_388_608, [1, 1, 1, 4]),
    (u64::MAX, [1024, 1024, 8, 4]),
    (16_777_216, [1, 1, 1, 5]),
];

#[test]
fn stands_for_sizes(rt: HostRuntime) -> Result<(), Fail> {
    for &(number, wanted) in SIZES {
        assert_eq!(rt; sizes_by(number), wanted, "by {number}");
    }
    Ok(())
}
