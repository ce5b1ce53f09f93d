//! What the reader of types makes of made units, against the stated types, which stand here once
//! more: written from the sizes alone.
use super::{sizes_by, types_of};
use c_model::Label;
use c_types::{SourceType, Target};
use dwarf_gen::{elf_of, spec_of};
use small_files::texts::{append, text_of};
use small_files::units::units_of;
use std::alloc::{AllocError, Global};
use std::test::Fail;

/// Appends an offset, and a label: kind, name, size, what else it tells, and parts.
fn write_label(
    alloc: Global,
    text: &mut String,
    at: u64,
    label: &Label<'_>,
) -> Result<(), AllocError> {
    let (kind, name) = (label.kind, text_of(label.name.bytes()));
    let (size, extra) = (label.size, label.extra);
    append(
        text,
        format!(in alloc; "{at} {kind} {name} {size} {extra}:"),
    )?;
    for part in label.parts.items() {
        let (name, value) = (text_of(part.name.bytes()), part.value);
        append(text, format!(in alloc; "{name} {value},"))?;
    }
    Ok(())
}

/// Appends targets.
fn write_targets(alloc: Global, text: &mut String, targets: &[Target]) -> Result<(), AllocError> {
    for target in targets {
        match target {
            Target::Entry { from, to } => append(text, format!(in alloc; " {from}>{to}"))?,
            _ => text.push_str(" ?")?,
        }
    }
    Ok(())
}

/// Appends the types of a unit, each in a line: its offset, its label and its targets.
fn write_types(
    alloc: Global,
    text: &mut String,
    types: &[SourceType<'_>],
) -> Result<(), AllocError> {
    for source in types {
        write_label(alloc, text, source.at, &source.label)?;
        write_targets(alloc, text, source.targets.items())?;
        text.push_str("\n")?;
    }
    Ok(())
}

/// The types of some units of the image that a number gives, in lines.
fn lines(alloc: Global, sizes: u64, numbers: &[u16]) -> Result<String, Fail> {
    let file = elf_of(alloc, &spec_of(sizes))?;
    let all = units_of(alloc, file.items())?;
    let mut text = String::new(alloc);
    for number in numbers {
        let number = usize::from(*number);
        if number < all.len() {
            write_types(
                alloc,
                &mut text,
                types_of(alloc, &all[number])?.types.items(),
            )?;
        }
    }
    Ok(text)
}

/// 5 units, 2 structures, 3 variants.
const SMALL: u64 = 2 * 1048576 + 1024 + 4;

/// The types of the first of these units.
const FIRST: &str = "14 1 int 4 16777248:\n\
    21 4 s0 16 0:next 0,v0 64, 30>53 42>14\n\
    53 2  0 0: 53>58\n\
    58 4 s1 16 0:next 0,v 64, 67>90 79>14\n\
    90 2  0 0: 90>21\n\
    95 4 g 4 0:n 0, 100>14\n\
    110 2  0 0: 110>95\n";

/// The types of the fifth.
const FIFTH: &str = "478 1 int 4 16777248:\n\
    485 4 s0 16 0:next 0,v1 64, 494>517 506>478\n\
    517 2  0 0: 517>522\n\
    522 4 s1 16 0:next 0,v 64, 531>554 543>478\n\
    554 2  0 0: 554>485\n\
    559 7 g 0 0:\n\
    574 2  0 0: 574>559\n";

/// Numbers, and the types of a unit. The last is of version 4.
const TYPES: &[(u64, u16, &str)] = &[
    (SMALL, 0, FIRST),
    (SMALL, 4, FIFTH),
    (SMALL + (1 << 23), 4, FIFTH),
];

#[test]
fn has_these_types(rt: HostRuntime) -> Result<(), Fail> {
    for &(sizes, unit, wanted) in TYPES {
        assert_eq!(rt; lines(rt.alloc(), sizes, &[unit])?.as_str(), wanted);
    }
    Ok(())
}

/// The place so many bytes behind another.
fn behind(place: u64, bytes: u64) -> u64 {
    place.saturating_add(bytes)
}

/// Where the structure of a number stands in a unit, and `g` behind the last one: each structure
/// takes 32 bytes with its two members, the pointer behind it 5.
fn structure(base: u64, number: u16) -> u64 {
    behind(base, 21 + 37 * u64::from(number))
}

/// Appends the line of a pointer.
fn write_pointer(alloc: Global, text: &mut String, from: u64, to: u64) -> Result<(), AllocError> {
    append(text, format!(in alloc; "{from} 2  0 0: {from}>{to}\n"))
}

/// Appends the lines of the structure `sK`, with `next` of the pointer behind it and a value of the
/// integer type, and of that pointer, to the structure of another number.
fn write_pair(
    alloc: Global,
    text: &mut String,
    base: u64,
    number: u16,
    next: u16,
    value: &str,
) -> Result<(), AllocError> {
    let at = structure(base, number);
    let pointer = behind(at, 32);
    let (link, own, integer) = (behind(at, 9), behind(at, 21), behind(base, 14));
    let line = format!(in alloc;
        "{at} 4 s{number} 16 0:next 0,{value} 64, {link}>{pointer} {own}>{integer}\n"
    );
    append(text, line)?;
    write_pointer(alloc, text, pointer, structure(base, next))
}

/// Appends the lines of so many structures with the pointers behind them, each to the next one and
/// the last to the first. The value of the first has its own name.
fn write_pairs(
    alloc: Global,
    text: &mut String,
    base: u64,
    structs: u16,
    first_value: &str,
) -> Result<(), AllocError> {
    for number in 0..structs {
        let value = if number == 0 { first_value } else { "v" };
        let next = if number == structs - 1 { 0 } else { number + 1 };
        write_pair(alloc, text, base, number, next, value)?;
    }
    Ok(())
}

/// Appends the line of `g`, which the first unit defines and the others declare, and of a pointer
/// to it.
fn write_global(
    alloc: Global,
    text: &mut String,
    base: u64,
    structs: u16,
    unit: u16,
) -> Result<(), AllocError> {
    let global = structure(base, structs);
    let (member, integer) = (behind(global, 5), behind(base, 14));
    let line = if unit == 0 {
        format!(in alloc; "{global} 4 g 4 0:n 0, {member}>{integer}\n")
    } else {
        format!(in alloc; "{global} 7 g 0 0:\n")
    };
    append(text, line)?;
    write_pointer(alloc, text, behind(global, 15), global)
}

/// Appends the stated types of a unit of a made input of so many structures and variants, in lines:
/// `int`, the structures, and `g`.
fn write_stated(
    alloc: Global,
    text: &mut String,
    structs: u16,
    variants: u16,
    unit: u16,
) -> Result<(), AllocError> {
    let base = u64::from(42 + 37 * u32::from(structs)) * u64::from(unit);
    let integer = behind(base, 14);
    append(text, format!(in alloc; "{integer} 1 int 4 16777248:\n"))?;
    let variant = unit.checked_rem(variants).unwrap_or(0);
    let first_value = format!(in alloc; "v{variant}")?;
    write_pairs(alloc, text, base, structs, first_value.as_str())?;
    write_global(alloc, text, base, structs, unit)
}

/// Units, structures, variants and versions of made inputs, the least and the greatest of each
/// among them.
const SPECS: &[[u16; 4]] = &[
    [1, 1, 1, 5],
    [1, 1, 1, 4],
    [2, 1, 1, 5],
    [1, 1, 8, 5],
    [2, 2, 2, 4],
    [5, 2, 3, 5],
    [5, 2, 3, 4],
    [3, 1, 8, 4],
    [7, 13, 7, 5],
    [16, 9, 8, 5],
    [9, 101, 1, 5],
    [17, 100, 5, 4],
    [3, 1024, 1, 4],
    [2, 1024, 8, 5],
    [1024, 1, 1, 5],
    [1024, 3, 8, 4],
];

/// The number that stands for sizes and a version.
fn number_of(sizes: [u16; 4]) -> u64 {
    let [units, structs, variants, version] = sizes;
    let unit_bits = u64::from(units.saturating_sub(1));
    let struct_bits = u64::from(structs.saturating_sub(1)) << 10;
    let variant_bits = u64::from(variants.saturating_sub(1)) << 20;
    let version_bit = u64::from(version == 4) << 23;
    unit_bits | struct_bits | variant_bits | version_bit
}

/// Whether the first unit, one in the middle and the last of a made input have exactly the stated
/// types.
fn has_stated(alloc: Global, sizes: [u16; 4]) -> Result<bool, Fail> {
    let [units, structs, variants, _] = sizes;
    let compared = [0, units / 2, units.saturating_sub(1)];
    let mut wanted = String::new(alloc);
    for unit in compared {
        write_stated(alloc, &mut wanted, structs, variants, unit)?;
    }
    Ok(lines(alloc, number_of(sizes), &compared)? == wanted)
}

#[test]
fn has_the_stated_types(rt: HostRuntime) -> Result<(), Fail> {
    for &sizes in SPECS {
        assert_eq!(rt; sizes_by(number_of(sizes)), sizes.map(u32::from));
        assert!(rt; has_stated(rt.alloc(), sizes)?, "{sizes:?}");
    }
    Ok(())
}
