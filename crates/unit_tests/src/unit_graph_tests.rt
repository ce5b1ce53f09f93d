//! Places, links and tags, by hand and of units in bytes.
use c_model::Ref;
use c_types::Target;
use small_files::bytes::{info_of, plain_file};
use small_files::units::units_of;
use std::alloc::{AllocError, Global};
use std::test::Fail;
use unit_graph::{KeptTables, NodePlace, NodePlaces, Out, find_tag, link_targets, types_by};

/// Rows: the file, the offset and the number. Two begin at one place: the later one counts there.
const ROWS: &[(u32, u64, u32)] = &[(1, 11, 2), (0, 18, 1), (0, 11, 0), (0, 18, 3)];

/// The places of these rows.
fn places(alloc: Global) -> Result<NodePlaces, AllocError> {
    let mut rows = Vec::new(alloc);
    for &(file, at, number) in ROWS {
        rows.push(NodePlace { file, number, at })?;
    }
    NodePlaces::new(rows)
}

/// References of the entry at 40.
const TO_11: Target = Target::Entry { from: 40, to: 11 };

const TO_12: Target = Target::Entry { from: 40, to: 12 };

const TO_13: Target = Target::Entry { from: 40, to: 13 };

const TO_18: Target = Target::Entry { from: 40, to: 18 };

/// An offset that passes 64 bits.
const FAR: u128 = 18_446_744_073_709_551_627;

const TO_FAR: Target = Target::Entry { from: 40, to: FAR };

/// A reference of that entry of a file that names no node.
fn out(file: u32, to: u128) -> Out {
    Out { file, from: 40, to }
}

/// A file, the number of its node of indices, targets, and what they refer to among four nodes, or
/// the file and the offset that name none.
type LinkedTargets = (
    u32,
    u64,
    &'static [Target],
    Result<&'static [Ref], (u32, u128)>,
);

const LINKED: &[LinkedTargets] = &[
    (0, 4, &[], Ok(&[])),
    (0, 4, &[Target::Void, TO_11], Ok(&[Ref::Void, Ref::Node(0)])),
    (1, 4, &[TO_11], Ok(&[Ref::Node(2)])),
    (0, 4, &[TO_18], Ok(&[Ref::Node(3)])),
    (0, 3, &[Target::Index], Ok(&[Ref::Node(3)])),
    (0, 4, &[Target::Index], Ok(&[Ref::Void])),
    (0, 4, &[TO_11, TO_12, TO_13], Err((0, 12))),
    (2, 4, &[TO_11], Err((2, 11))),
    (0, 4, &[TO_FAR], Err((0, FAR))),
];

/// Whether targets refer to what is wanted, or the one that is wanted names no node.
fn is_linked(found: Result<Vec<Ref>, Out>, wanted: Result<&'static [Ref], (u32, u128)>) -> bool {
    match (found, wanted) {
        (Ok(refs), Ok(wanted)) => refs.as_slice() == wanted,
        (Err(fault), Err((file, to))) => fault == out(file, to),
        _ => false,
    }
}

#[test]
fn links(rt: HostRuntime) -> Result<(), Fail> {
    let places = places(rt.alloc())?;
    for &(file, index, targets, wanted) in LINKED {
        let found = link_targets(rt.alloc(), &places, 4, file, index, targets)?;
        assert!(rt; is_linked(found, wanted), "row {file}, {index}");
    }
    Ok(())
}

/// The abbreviations of all cases: the code, the tag, children or none, attributes and forms.
const ABBREVIATIONS: &[u8] = &[
    1, 0x11, 1, 0, 0, // compile_unit
    2, 0x24, 0, 0x03, 0x08, 0x0b, 0x0b, 0x3e, 0x0b, 0, 0, // base_type with name, byte_size, encoding
    3, 0x2e, 0, 0, 0, // subprogram
    4, 0x11, 1, 0x13, 0x0b, 0, 0, // compile_unit with language
    0,
];

/// Three units: a base type and a subprogram at 13 and 18, the same in a unit of Rust, which is
/// passed over, at 34 and 39, and the same again at 54 and 59.
const UNITS: [&[u8]; 3] = [
    b"\x01\x02i\0\x04\x05\x03\0",
    b"\x04\x1c\x02i\0\x04\x05\x03\0",
    b"\x01\x02i\0\x04\x05\x03\0",
];

/// A file of these units.
fn three_units(alloc: Global) -> Result<Vec<u8>, AllocError> {
    plain_file(alloc, &info_of(alloc, &UNITS)?, ABBREVIATIONS)
}

/// The tag at an offset of a file: of a type or not, in the first unit or a later one, and 0 where
/// no entry of a unit that is read begins.
const TAGS: &[(u32, u128, u64)] = &[
    (0, 12, 0x11),
    (0, 13, 0x24),
    (0, 18, 0x2e),
    (0, 14, 0),
    (0, 0, 0),
    (1, 13, 0),
    (0, 34, 0),
    (0, 53, 0x11),
    (0, 54, 0x24),
    (0, 59, 0x2e),
    (0, 18_446_744_073_709_551_629, 0),
];

#[test]
fn tags(rt: HostRuntime) -> Result<(), Fail> {
    let file = three_units(rt.alloc())?;
    let all = units_of(rt.alloc(), file.as_slice())?;
    assert_eq!(rt; all.len(), 3);
    for &(number, to, wanted) in TAGS {
        let tag = find_tag(rt.alloc(), all.as_slice(), number, to)?;
        assert_eq!(rt; tag, wanted, "at {to}");
    }
    Ok(())
}

/// The types of a unit, whose table is kept then.
#[test]
fn tables(rt: HostRuntime) -> Result<(), Fail> {
    let file = three_units(rt.alloc())?;
    let all = units_of(rt.alloc(), file.as_slice())?;
    let Some(unit) = all.first() else {
        return Err(Fail::from("no unit"));
    };
    let mut kept = KeptTables::new(rt.alloc());
    let found = types_by(rt.alloc(), &mut kept, unit)?;
    assert_eq!(rt; found.types.items().len(), 1);
    assert_eq!(rt; kept.tables.len(), 1);
    Ok(())
}
