//! Units in bytes, and their types.
mod bit_offsets;
mod compiled;
mod large;
mod refusals;
mod type_tags;
mod worked;

use c_types::types_of_unit;
use dwarf_forms::FormFault;
use elf_sections::Image;
use entry_tree::units;
use small_files::bytes::{info_of, plain_file};
use small_files::texts::{append, name_of, put_targets};
use std::alloc::{AllocError, Global};
use std::process::Abort;
use std::test::Fail;
use type_attributes::fault::TypeFault;
use type_attributes::source::{SourceType, UnitTypes};

/// The abbreviations of all cases: the code, the tag, children or none, attributes and forms.
const ABBREVIATIONS: &[u8] = &[
    1, 0x11, 1, 0, 0, // compile_unit
    2, 0x24, 0, 0x03, 0x08, 0x0b, 0x0b, 0x3e, 0x0b, 0, 0, // base_type with name, byte_size, encoding
    3, 0x24, 0, 0x0b, 0x0b, 0, 0, // with byte_size
    4, 0x24, 0, 0x03, 0x08, 0, 0, // with name
    5, 0x24, 0, 0x03, 0x08, 0x0b, 0x0d, 0, 0, // with name and signed byte_size
    6, 0x01, 0, 0, 0, // array_type
    7, 0x16, 0, 0, 0, // typedef
    8, 0x13, 1, 0x03, 0x08, 0x0b, 0x0b, 0, 0, // structure_type with name, byte_size
    9, 0x0d, 0, 0x03, 0x08, 0x49, 0x13, 0x38, 0x0d, 0, 0, // member with name, type, location
    10, 0x0d, 0, 0x03, 0x08, 0, 0, // with name
    11, 0x13, 0, 0x3c, 0x19, 0, 0, // structure_type, declared
    12, 0x0d, 0, 0x49, 0x13, 0x0d, 0x0f, 0x6b, 0x0f, 0, 0, // member with type, bit_size, data_bit_offset
    13, 0x01, 1, 0x49, 0x13, 0, 0, // array_type with type
    14, 0x21, 0, 0x37, 0x0d, 0, 0, // subrange_type with count
    15, 0x04, 1, 0x03, 0x08, 0x0b, 0x0b, 0, 0, // enumeration_type with name, byte_size
    16, 0x28, 0, 0x03, 0x08, 0x1c, 0x0d, 0, 0, // enumerator with name, const_value
    17, 0x28, 0, 0x03, 0x08, 0, 0, // with name
    18, 0x24, 0, 0x03, 0x0e, 0, 0, // base_type with name by strp
    19, 0x24, 0, 0x03, 0x25, 0, 0, // by strx1
    20, 0x24, 0, 0x03, 0x1d, 0, 0, // by strp_sup
    21, 0x24, 0, 0x0b, 0x19, 0x03, 0x0b, 0, 0, // with byte_size by flag_present, name by data1
    22, 0x0f, 0, 0x49, 0x17, 0, 0, // pointer_type with type by sec_offset
    23, 0x28, 0, 0x1c, 0x0d, 0, 0, // enumerator with const_value
    24, 0x21, 0, 0x2f, 0x0b, 0, 0, // subrange_type with upper_bound
    25, 0x15, 1, 0, 0, // subroutine_type
    26, 0x05, 0, 0, 0, // formal_parameter
    27, 0x05, 0, 0x49, 0x13, 0, 0, // with type
    28, 0x18, 0, 0, 0, // unspecified_parameters
    29, 0x24, 0, 0, 0, // base_type
    30, 0x11, 1, 0x13, 0x0b, 0, 0, // compile_unit with language
    31, 0x47, 0, 0x49, 0x13, 0, 0, // atomic_type with type
    32, 0x17, 0, 0x03, 0x08, 0x3c, 0x19, 0, 0, // union_type with name, declared
    33, 0x0d, 0, 0x49, 0x11, 0, 0, // member with type by ref1
    34, 0x05, 0, 0x49, 0x11, 0, 0, // formal_parameter with type by ref1
    35, 0x13, 1, 0x03, 0x08, 0x0b, 0x0d, 0, 0, // structure_type with name, signed byte_size
    36, 0x13, 1, 0x0b, 0x21, 8, 0, 0, // structure_type of 8 bytes
    37, 0x0d, 1, 0x49, 0x11, 0, 0, // member with children, type by ref1
    38, 0x24, 0, 0x0b, 0x08, 0, 0, // base_type with byte_size by string
    39, 0x13, 0, 0x3c, 0x0b, 0x03, 0x0b, 0, 0, // structure_type with declaration, name by data1
    40, 0x11, 1, 0x13, 0x05, 0, 0, // compile_unit with language by data2
    41, 0x17, 1, 0, 0, // union_type
    42, 0x04, 1, 0, 0, // enumeration_type
    43, 0x04, 0, 0x3c, 0x19, 0, 0, // enumeration_type, declared
    44, 0x0d, 0, 0x49, 0x11, 0x38, 0x18, 0, 0, // member with type by ref1, location by exprloc
    45, 0x0d, 0, 0x03, 0x1d, 0x49, 0x1c, 0, 0, // with name by strp_sup, type by ref_sup4
    46, 0x0d, 0, 0x49, 0x1c, 0x03, 0x0e, 0, 0, // with type by ref_sup4, name by strp
    47, 0x0d, 0, 0x49, 0x11, 0x0d, 0x0d, 0x6b, 0x0d, 0, 0, // with type by ref1, signed bit_size, data_bit_offset
    48, 0x0d, 0, 0x38, 0x18, 0, 0, // with location by exprloc
    49, 0x24, 0, 0x03, 0x08, 0x0b, 0x07, 0, 0, // base_type with name, byte_size by data8
    50, 0x01, 1, 0, 0, // array_type
    51, 0x28, 0, 0, 0, // enumerator
    52, 0x16, 0, 0x49, 0x0b, 0, 0, // typedef with type by data1
    53, 0x24, 0, 0x03, 0x1f, 0, 0, // base_type with name by line_strp
    54, 0x24, 0, 0x03, 0xa1, 0x3e, 0, 0, // by GNU_strp_alt
    55, 0x0d, 0, 0x49, 0xa0, 0x3e, 0, 0, // member with type by GNU_ref_alt
    56, 0x0d, 0, 0x03, 0x0b, 0x49, 0x1c, 0, 0, // with name by data1, type by ref_sup4
    57, 0x24, 0, 0x03, 0x08, 0x0b, 0x0b, 0x3e, 0x08, 0x0d, 0x08, 0, 0, // base_type with encoding, bit_size by string
    58, 0x0d, 0, 0x38, 0x08, 0, 0, // member with location by string
    59, 0x13, 1, 0, 0, // structure_type
    60, 0x0d, 0, 0x03, 0x1d, 0x49, 0x0b, 0, 0, // member with name by strp_sup, type by data1
    61, 0x0d, 0, 0x49, 0x11, 0x38, 0x18, 0x0d, 0x0b, 0, 0, // with type by ref1, location by exprloc, bit_size
    62, 0x15, 1, 0x49, 0x0b, 0, 0, // subroutine_type with type by data1
    63, 0x0d, 0, 0x49, 0x11, 0x6b, 0x0f, 0, 0, // member with type by ref1, data_bit_offset
    64, 0x21, 0, 0x2f, 0x06, 0, 0, // subrange_type with upper_bound by data4
    65, 0x17, 0, 0x3c, 0x19, 0, 0, // union_type, declared
    66, 0x21, 0, 0x2f, 0x0d, 0, 0, // subrange_type with signed upper_bound
    67, 0x0f, 0, 0, 0, // pointer_type
    68, 0x26, 0, 0, 0, // const_type
    69, 0x35, 0, 0, 0, // volatile_type
    70, 0x37, 0, 0, 0, // restrict_type
    71, 0x3b, 0, 0x03, 0x08, 0, 0, // unspecified_type with name
    72, 0x16, 0, 0x03, 0x08, 0, 0, // typedef with name
    73, 0x24, 0, 0x03, 0x08, 0x0b, 0x0b, 0x3e, 0x0b, 0x0d, 0x0b, 0, 0, // base_type with name, byte_size, encoding, bit_size
    74, 0x34, 0, 0x03, 0x08, 0, 0, // variable with name
    75, 0x0b, 1, 0, 0, // lexical_block
    76, 0x2e, 1, 0, 0, // subprogram
    77, 0x13, 0, 0x0b, 0x0b, 0, 0, // structure_type with byte_size, without children
    78, 0x0f, 1, 0x49, 0x11, 0, 0, // pointer_type with children, type by ref1
    79, 0x80, 0xc0, 1, 0, 0x03, 0x08, 0x1c, 0x08, 0, 0, // GNU_annotation with name, const_value
    80, 0x80, 0xc0, 1, 0, 0x03, 0x08, 0, 0, // with name
    81, 0x80, 0xc0, 1, 0, 0x1c, 0x08, 0, 0, // with const_value
    82, 0x80, 0xc0, 1, 0, 0x03, 0x0b, 0, 0, // with name by data1
    83, 0x80, 0xc0, 1, 0, 0x03, 0x08, 0x1c, 0x0b, 0, 0, // with name, const_value by data1
    84, 0x81, 0xc0, 1, 0, 0x03, 0x08, 0x1c, 0x08, 0, 0, // tag 0x6001 with name, const_value
    85, 0x80, 0xc0, 1, 1, 0x03, 0x08, 0x1c, 0x08, 0, 0, // GNU_annotation with children, name, const_value
    86, 0x0f, 1, 0, 0, // pointer_type with children
    87, 0x0f, 1, 0x49, 0x0b, 0, 0, // with type by data1
    88, 0x80, 0xc0, 1, 0, 0x03, 0x1d, 0, 0, // GNU_annotation with name by strp_sup
    0,
];

/// A file of a unit of these entries, with the abbreviations of all cases.
fn file_of(alloc: Global, entries: &[u8]) -> Result<Vec<u8>, AllocError> {
    plain_file(alloc, &info_of(alloc, &[entries])?, ABBREVIATIONS)
}

/// What a type is, in a line.
fn line(alloc: Global, one: &SourceType<'_>) -> Result<String, Fail> {
    let label = &one.label;
    let (at, name) = (one.at, name_of(label.name.bytes()));
    let mut text = format!(in alloc;
        "{at} {} {name} {} {} {}",
        label.kind, label.flag, label.size, label.extra
    )?;
    for part in label.parts.items() {
        let name = name_of(part.name.bytes());
        append(&mut text, format!(in alloc; " {name}={}", part.value))?;
    }
    put_targets(alloc, &mut text, one.targets.items())?;
    Ok(text)
}

/// The types of the units of a file, or the first refusal.
fn types_in<'a>(
    alloc: Global,
    file: &'a [u8],
) -> Result<Result<Vec<UnitTypes<'a>>, TypeFault>, Fail> {
    let Ok(image) = Image::read(file) else {
        return Ok(Err(TypeFault::Memory));
    };
    let list = units(alloc, &image)?;
    let mut all = Vec::new(alloc);
    for unit in list.items() {
        if unit.end.saturating_sub(unit.at) >= 1 << 32 {
            return Ok(Err(TypeFault::Memory));
        }
        match types_of_unit(alloc, &image, unit) {
            Ok(found) => all.push(found)?,
            Err(fault) => return Ok(Err(fault)),
        }
    }
    Ok(Ok(all))
}

/// What is told of a unit as a whole.
fn heading(unit: &UnitTypes<'_>) -> &'static str {
    if !unit.read {
        "unit passed over"
    } else if unit.has_array {
        "unit with an array"
    } else {
        "unit"
    }
}

/// The lines of the types of a file, where it is asked for behind a heading for each unit, or its
/// refusal.
fn lines_in(
    alloc: Global,
    file: &[u8],
    with_headings: bool,
) -> Result<Result<Vec<String>, TypeFault>, Fail> {
    let found = match types_in(alloc, file)? {
        Ok(found) => found,
        Err(fault) => return Ok(Err(fault)),
    };
    let mut all = Vec::new(alloc);
    for unit in &found {
        if with_headings {
            all.push(format!(in alloc; "{}", heading(unit))?)?;
        }
        for one in unit.types.items() {
            all.push(line(alloc, one)?)?;
        }
    }
    Ok(Ok(all))
}

/// The lines of the types of a unit of these entries, or its refusal.
fn lines(alloc: Global, entries: &[u8]) -> Result<Result<Vec<String>, TypeFault>, Fail> {
    lines_in(alloc, &file_of(alloc, entries)?, false)
}

/// Whether lines are those that are wanted.
fn are_lines(found: &[String], wanted: &[&str]) -> bool {
    for (one, line) in found.iter().zip(wanted.iter()) {
        if one.as_str() != *line {
            return false;
        }
    }
    found.len() == wanted.len()
}

/// Whether what came of a file is what is wanted: its lines, or its first refusal.
fn is_wanted(found: &Result<Vec<String>, TypeFault>, wanted: Result<&[&str], TypeFault>) -> bool {
    match (found, wanted) {
        (Ok(found), Ok(lines)) => are_lines(found.as_slice(), lines),
        (Err(found), Err(fault)) => *found == fault,
        _ => false,
    }
}

/// The entries of a unit: its root, and these, which begin at offset 13.
fn under_root(alloc: Global, entries: &[u8]) -> Result<Vec<u8>, AllocError> {
    [&[1], entries, &[0]].concat(alloc)
}

/// Holds the types of entries behind the root, which begin at offset 13, against lines.
fn compare(rt: &impl Abort, alloc: Global, entries: &[u8], wanted: &[&str]) -> Result<(), Fail> {
    let found = lines(alloc, &under_root(alloc, entries)?)?;
    assert!(rt; is_wanted(&found, Ok(wanted)), "{entries:?}: {found:?}");
    Ok(())
}

/// Entries behind the root, and the lines of their types.
const IN_LINES: &[(&[u8], &[&str])] = &[
    (
        &[67, 68, 69, 70, 71, 0x6e, 0, 72, 0x74, 0, 74, 0x76, 0],
        &[
            "13 2 - false 0 0 void",
            "14 10 - false 0 0 void",
            "15 9 - false 0 0 void",
            "16 11 - false 0 0 void",
            "17 4 n false 0 0",
            "20 8 t false 0 0 void",
        ],
    ),
    (
        &[
            2, 0x62, 0, 1, 2, 2, 0x63, 0, 1, 6, 2, 0x75, 0, 1, 8, 2, 0x77, 0, 4, 16, 2, 0x71, 0,
            16, 7, 2, 0x6c, 0, 16, 4,
        ],
        &[
            "13 1 b false 1 67108872",
            "18 1 c false 1 16777224",
            "23 1 u false 1 8",
            "28 1 w false 4 32",
            "33 1 q false 16 128",
            "38 16 l false 16 0",
        ],
    ),
    (
        &[
            2, 0x7a, 0, 16, 3, 2, 0x70, 0, 3, 5, 73, 0x6e, 0, 4, 5, 32, 73, 0x6d, 0, 4, 5, 31,
        ],
        &[
            "13 4 z false 16 0",
            "18 4 p false 3 0",
            "23 1 n false 4 16777248",
            "29 4 m false 4 0",
        ],
    ),
    (
        &[2, 0x69, 0, 4, 5, 2, 0x66, 0, 4, 4, 2, 0x78, 0, 3, 5],
        &[
            "13 1 i false 4 16777248",
            "18 16 f false 4 0",
            "23 4 x false 3 0",
        ],
    ),
    (
        &[31, 12, 0, 0, 0, 32, 0x75, 0],
        &["13 8 _Atomic false 0 0 13:12", "18 7 u true 0 0"],
    ),
    (
        &[
            8, 0x73, 0, 8, 9, 0x6d, 0, 13, 0, 0, 0, 4, 12, 13, 0, 0, 0, 3, 33, 0,
        ],
        &["13 4 s true 8 0 m=32 -=50331681 17:13 25:13"],
    ),
    (
        &[8, 0x73, 0, 8, 44, 13, 2, 0x23, 4, 0],
        &["13 4 s false 8 0 -=32 17:13"],
    ),
    (
        &[
            8, 0x73, 0, 8, 8, 0x74, 0, 4, 0, 9, 0x6d, 0, 13, 0, 0, 0, 4, 0,
        ],
        &["13 4 s false 8 0 m=32 22:13", "17 4 t false 4 0"],
    ),
    (
        &[
            13, 13, 0, 0, 0, 24, 4, 24, 5, 0, 13, 13, 0, 0, 0, 0, 13, 13, 0, 0, 0, 14, 0x7f, 0,
        ],
        &[
            "13 3 - false 0 30 13:13 index",
            "23 3 - false 0 0 23:13 index",
            "29 3 - false 0 0 29:13 index",
        ],
    ),
    (
        &[25, 27, 13, 0, 0, 0, 28, 0],
        &["13 13 - false 0 0 -=0 -=0 void 14:13 void"],
    ),
    (
        &[15, 0x65, 0, 4, 16, 0x41, 0, 0x7f, 16, 0x42, 0, 1, 0],
        &["13 6 e true 4 0 A=4294967295 B=1"],
    ),
    (
        &[15, 0x65, 0, 8, 16, 0x41, 0, 0x7e, 0],
        &["13 19 e true 8 0 A=18446744073709551614"],
    ),
    (
        &[
            8, 0x73, 0, 8, 9, 0x6d, 0, 13, 0, 0, 0, 0, 76, 75, 33, 13, 0, 0, 36, 33, 13, 0, 72,
            0x74, 0, 9, 0x6e, 0, 13, 0, 0, 0, 4, 0,
        ],
        &[
            "13 4 s false 8 0 m=0 n=32 17:13 38:13",
            "31 4 - false 8 0 -=0 32:13",
            "35 8 t false 0 0 void",
        ],
    ),
    (
        &[13, 13, 0, 0, 0, 14, 3, 13, 13, 0, 0, 0, 14, 5, 0, 14, 2, 0],
        &[
            "13 3 - false 0 6 13:13 index",
            "20 3 - false 0 5 20:13 index",
        ],
    ),
    (
        &[76, 75, 15, 0x65, 0, 4, 16, 0x41, 0, 1, 0, 0, 0, 72, 0x74, 0],
        &["15 6 e false 4 0 A=1", "26 8 t false 0 0 void"],
    ),
    (&[77, 4, 33, 13], &["13 4 - false 4 0"]),
    (&[15, 0x65, 0, 2, 0], &["13 6 e false 4 0"]),
    (&[15, 0, 2, 0], &["13 6 - false 2 0"]),
];

/// The types of entries: offset, kind, name, flag, size, last word, parts, and what they refer to.
#[test]
fn types_in_lines(rt: HostRuntime) -> Result<(), Fail> {
    for &(entries, wanted) in IN_LINES {
        compare(&rt, rt.alloc(), entries, wanted)?;
    }
    Ok(())
}

/// A unit of a language that is passed over has no types, whatever stands behind its root; one of C
/// is read.
#[test]
fn other_languages(rt: HostRuntime) -> Result<(), Fail> {
    for language in [0x04, 0x16, 0x19, 0x1a, 0x1c, 0x21] {
        let found = lines(rt.alloc(), &[30, language, 29, 0])?;
        assert!(rt; found.is_ok(), "{language}");
    }
    assert!(rt; lines(rt.alloc(), &[40, 1, 0x80, 29, 0])?.is_ok());
    for language in [0x01, 0x02, 0x0c, 0x1d, 0x2c] {
        let found = lines(rt.alloc(), &[30, language, 29, 0])?;
        assert!(rt; found.is_err(), "{language}");
    }
    Ok(())
}
