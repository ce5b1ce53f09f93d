//! Units in bytes, and their functions.
use c_model::Part;
use c_types::{TypeFault, read_abbrevs};
use dwarf_forms::FormFault;
use elf_sections::Image;
use entry_tree::{WalkFault, units};
use func_entries::{FuncEntries, FuncEntry, entries_of_unit_with};
use small_files::bytes::{info_of, plain_file};
use small_files::texts::{append, name_of, put_targets};
use std::alloc::{AllocError, Global};
use std::process::Abort;
use std::test::Fail;

/// The abbreviations of all cases: the code, the tag, children or none, attributes and forms.
const ABBREVIATIONS: &[u8] = &[
    1, 0x11, 1, 0, 0, // compile_unit
    2, 0x24, 0, 0x03, 0x08, 0x0b, 0x0b, 0x3e, 0x0b, 0, 0, // base_type with name, byte_size, encoding
    3, 0x2e, 1, 0x03, 0x08, 0x3f, 0x19, 0x49, 0x11, 0, 0, // subprogram with children, name, external, type by ref1
    4, 0x2e, 1, 0x03, 0x08, 0, 0, // with children, name
    5, 0x2e, 0, 0x03, 0x08, 0, 0, // with name
    6, 0x2e, 1, 0x03, 0x08, 0x3c, 0x19, 0, 0, // with children, name, declared
    7, 0x2e, 0, 0x47, 0x11, 0x31, 0x11, 0, 0, // with specification, abstract_origin
    8, 0x05, 0, 0x03, 0x08, 0x49, 0x11, 0, 0, // formal_parameter with name, type by ref1
    9, 0x05, 0, 0x03, 0x08, 0, 0, // with name
    10, 0x18, 0, 0, 0, // unspecified_parameters
    11, 0x0b, 1, 0, 0, // lexical_block
    12, 0x2e, 0, 0x03, 0x08, 0x3f, 0x0b, 0, 0, // subprogram with name, external by data1
    13, 0x2e, 0, 0x03, 0x0b, 0, 0, // with name by data1
    14, 0x2e, 0, 0x3c, 0x0b, 0x03, 0x0b, 0, 0, // with declaration, name by data1
    15, 0x11, 1, 0x13, 0x0b, 0, 0, // compile_unit with language
    16, 0x2e, 1, 0x03, 0x08, 0x20, 0x0b, 0, 0, // subprogram with children, name, inline
    17, 0x2e, 0, 0x03, 0x08, 0x49, 0x0b, 0, 0, // with name, type by data1
    18, 0x05, 0, 0x03, 0x0b, 0x49, 0x11, 0, 0, // formal_parameter with name by data1, type by ref1
    19, 0x0f, 1, 0x49, 0x11, 0, 0, // pointer_type with children, type by ref1
    20, 0x80, 0xc0, 1, 0, 0x03, 0x08, 0x1c, 0x08, 0, 0, // GNU_annotation with name, const_value
    21, 0x01, 0, 0x49, 0x11, 0, 0, // array_type with type by ref1
    22, 0x13, 1, 0x0b, 0x0b, 0, 0, // structure_type with children, byte_size
    23, 0x2e, 0, 0x3c, 0x19, 0x03, 0x0b, 0, 0, // subprogram, declared, with name by data1
    24, 0x2e, 0, 0x03, 0x08, 0x3c, 0x0c, 0, 0, // with name, declaration
    25, 0x2e, 0, 0x03, 0x08, 0x3f, 0x0c, 0, 0, // with name, external
    26, 0x05, 0, 0x49, 0x0b, 0, 0, // formal_parameter with type by data1
    27, 0x05, 0, 0x49, 0x11, 0, 0, // with type by ref1
    28, 0x2e, 0, 0x03, 0x08, 0x3c, 0x0b, 0, 0, // subprogram with name, declaration by data1
    29, 0x1d, 1, 0x03, 0x08, 0, 0, // inlined_subroutine with children, name
    0,
];

/// A file with a unit of these entries and their abbreviations.
fn unit_file(alloc: Global, entries: &[u8]) -> Result<Vec<u8>, AllocError> {
    plain_file(alloc, &info_of(alloc, &[entries])?, ABBREVIATIONS)
}

/// Puts the names of a function's parameters.
fn put_parameters(alloc: Global, text: &mut String, parts: &[Part<'_>]) -> Result<(), AllocError> {
    for part in parts {
        append(text, format!(in alloc; " {}", name_of(part.name.bytes())))?;
    }
    Ok(())
}

/// A function in a line: offset, name, whether it is external, kind, parameters, and what they
/// refer to.
fn line(alloc: Global, one: &FuncEntry<'_>) -> Result<String, AllocError> {
    let (at, name, external) = (one.proto.at, name_of(one.name.bytes()), one.external);
    let label = &one.proto.label;
    let mut text = format!(in alloc; "{at} {name} {external} {}", label.kind)?;
    put_parameters(alloc, &mut text, label.parts.items())?;
    put_targets(alloc, &mut text, one.proto.targets.items())?;
    Ok(text)
}

/// The functions of the first unit of a file, or the first refusal.
fn functions_in<'a>(alloc: Global, file: &'a [u8]) -> Result<FuncEntries<'a>, TypeFault> {
    let Ok(image) = Image::read(file) else {
        return Err(TypeFault::Memory);
    };
    let Ok(list) = units(alloc, &image) else {
        return Err(TypeFault::Memory);
    };
    if list.items().is_empty() {
        return Err(TypeFault::Memory);
    }
    let unit = &list.items()[0];
    if unit.end.saturating_sub(unit.at) >= 1 << 32 {
        return Err(TypeFault::Memory);
    }
    let abbrevs = read_abbrevs(alloc, &image, unit)?;
    entries_of_unit_with(alloc, &image, unit, &abbrevs)?.funcs
}

/// The functions are these lines.
fn check_lines(
    rt: &impl Abort,
    alloc: Global,
    funcs: &[FuncEntry<'_>],
    wanted: &[&str],
) -> Result<(), AllocError> {
    assert_eq!(rt; funcs.len(), wanted.len(), "{wanted:?}");
    for (one, text) in funcs.iter().zip(wanted) {
        assert_eq!(rt; line(alloc, one)?.as_str(), *text);
    }
    Ok(())
}

/// Holds the functions of a unit of these entries against lines.
fn compare(rt: &impl Abort, alloc: Global, entries: &[u8], wanted: &[&str]) -> Result<(), Fail> {
    let mut bytes = Vec::from_slice(alloc, &[1])?;
    bytes.extend_from_slice(entries)?;
    bytes.push(0)?;
    let file = unit_file(alloc, &bytes)?;
    let found = functions_in(alloc, &file)?;
    check_lines(rt, alloc, found.items(), wanted)?;
    Ok(())
}

/// Entries behind the root, which begin at offset 13, and their functions.
const LINES: &[(&[u8], &[&str])] = &[
    (
        &[2, 0x6e, 0, 4, 5, 3, 0x66, 0, 13, 8, 0x61, 0, 13, 0],
        &["18 f true 13 a 18:13 22:13"],
    ),
    // nested in a function, and in a block of one; what stands in a block is no parameter
    (
        &[
            4, 0x66, 0, 11, 4, 0x67, 0, 8, 0x70, 0, 13, 0, 8, 0x62, 0, 13, 0, 4, 0x68, 0, 0, 8,
            0x71, 0, 14, 0, 5, 0x6b, 0,
        ],
        &[
            "13 f false 13 q void 34:14",
            "17 g false 13 p void 20:13",
            "30 h false 13 void",
            "39 k false 13 void",
        ],
    ),
    // one that is declared only is none, and one that is not declared is
    (
        &[
            6, 0x64, 0, 9, 0x78, 0, 4, 0x67, 0, 0, 0, 24, 0x65, 0, 1, 24, 0x68, 0, 0,
        ],
        &["19 g false 13 void", "28 h false 13 void"],
    ),
    // one that was inlined only is one; one that has its name through another entry is none
    (
        &[16, 0x69, 0, 1, 8, 0x61, 0, 13, 0, 7, 13, 13, 29, 0x6a, 0, 0],
        &["13 i false 13 a void 17:13"],
    ),
    // an unspecified parameter comes last, wherever it stands
    (
        &[3, 0x76, 0, 13, 10, 8, 0x61, 0, 13, 27, 14, 0],
        &["13 v true 13 a - - 13:13 18:13 22:14 void"],
    ),
    // an empty name is none, and its parameters are not looked at
    (&[4, 0, 9, 0x78, 0, 0, 5, 0], &[]),
    (
        &[25, 0x73, 0, 0, 25, 0x74, 0, 1, 23, 7],
        &["13 s false 13 void", "17 t true 13 void"],
    ),
    // a function within a structure is one, and within a pointer
    (
        &[22, 4, 5, 0x6d, 0, 0, 19, 13, 5, 0x6e, 0, 0],
        &["15 m false 13 void", "21 n false 13 void"],
    ),
    // type tags stand under pointers alone
    (
        &[
            19, 13, 20, 0x62, 0x74, 0x66, 0x5f, 0x74, 0x79, 0x70, 0x65, 0x5f, 0x74, 0x61, 0x67, 0,
            0x61, 0, 20, 0x6f, 0, 0x61, 0, 22, 0, 20, 0x62, 0x74, 0x66, 0x5f, 0x74, 0x79, 0x70,
            0x65, 0x5f, 0x74, 0x61, 0x67, 0, 0x62, 0, 19, 13, 0, 0, 20, 0x62, 0x74, 0x66, 0x5f,
            0x74, 0x79, 0x70, 0x65, 0x5f, 0x74, 0x61, 0x67, 0, 0x63, 0, 0, 21, 13,
        ],
        &[],
    ),
    (&[21, 13, 5, 0x66, 0], &["15 f false 13 void"]),
    (&[], &[]),
];

/// The functions of entries behind the root.
#[test]
fn functions_in_lines(rt: HostRuntime) -> Result<(), Fail> {
    for &(entries, wanted) in LINES {
        compare(&rt, rt.alloc(), entries, wanted)?;
    }
    Ok(())
}

/// How many functions a unit has, or its refusal.
fn count(alloc: Global, entries: &[u8]) -> Result<usize, TypeFault> {
    let Ok(file) = unit_file(alloc, entries) else {
        return Err(TypeFault::Memory);
    };
    Ok(functions_in(alloc, &file)?.items().len())
}

/// Units, and how many functions they have, or their refusals.
const COUNTS: &[(&[u8], Result<usize, TypeFault>)] = &[
    (
        &[1, 12, 0x66, 0, 1, 0],
        Err(TypeFault::Form(13, FormFault::WrongClass(0x3f, 0x0b))),
    ),
    (
        &[1, 28, 0x66, 0, 1, 0],
        Err(TypeFault::Form(13, FormFault::WrongClass(0x3c, 0x0b))),
    ),
    (
        &[1, 13, 7, 0],
        Err(TypeFault::Form(13, FormFault::WrongClass(0x03, 0x0b))),
    ),
    // of two values at one entry, the one of the lower attribute
    (
        &[1, 14, 1, 7, 0],
        Err(TypeFault::Form(13, FormFault::WrongClass(0x03, 0x0b))),
    ),
    // one that is declared is none, whatever its name
    (&[1, 23, 7, 0], Ok(0)),
    (
        &[1, 17, 0x66, 0, 7, 0],
        Err(TypeFault::Form(13, FormFault::WrongClass(0x49, 0x0b))),
    ),
    (
        &[1, 4, 0x66, 0, 18, 7, 13, 0, 0],
        Err(TypeFault::Form(16, FormFault::WrongClass(0x03, 0x0b))),
    ),
    (
        &[1, 4, 0x66, 0, 26, 7, 0, 0],
        Err(TypeFault::Form(16, FormFault::WrongClass(0x49, 0x0b))),
    ),
    (
        &[1, 4, 0x66, 0, 9, 0x78, 0, 0, 0],
        Err(TypeFault::MissingType(16)),
    ),
    // two, in both orders
    (
        &[1, 4, 0x66, 0, 9, 0x78, 0, 0, 12, 0x67, 0, 1, 0],
        Err(TypeFault::MissingType(16)),
    ),
    (
        &[1, 12, 0x67, 0, 1, 4, 0x66, 0, 9, 0x78, 0, 0, 0],
        Err(TypeFault::Form(13, FormFault::WrongClass(0x3f, 0x0b))),
    ),
    // of an inner function and of a later parameter of the outer one
    (
        &[1, 4, 0x66, 0, 4, 0x67, 0, 26, 7, 0, 9, 0x78, 0, 0, 0],
        Err(TypeFault::Form(19, FormFault::WrongClass(0x49, 0x0b))),
    ),
    (
        &[1, 4, 0x66, 0, 9, 0x78, 0, 4, 0x67, 0, 26, 7, 0, 0, 0],
        Err(TypeFault::MissingType(16)),
    ),
    // the entries come before all functions
    (
        &[1, 13, 7, 99],
        Err(TypeFault::Walk(WalkFault::AbbrevMissing(15, 99))),
    ),
    // units of C++ have none, those of C have
    (&[15, 0x04, 13, 7, 0], Ok(0)),
    (&[15, 0x0c, 5, 0x66, 0, 0], Ok(1)),
];

/// Of the refusals of a unit's functions the one of the lowest offset is told.
#[test]
fn refusals(rt: HostRuntime) {
    for &(entries, wanted) in COUNTS {
        assert_eq!(rt; count(rt.alloc(), entries), wanted, "{entries:?}");
    }
}

/// Too many parameters.
const MANY: Result<usize, TypeFault> = Err(TypeFault::TooMany(13, 65_536));

/// How many parameters, what stands behind them, and how many functions there are.
const PARAMETERS: &[(u32, &[u8], Result<usize, TypeFault>)] = &[
    (65_535, &[0, 0], Ok(1)),
    (65_536, &[0, 0], MANY),
    (65_534, &[10, 0, 0], Ok(1)),
    (65_535, &[10, 0, 0], MANY),
    (65_535, &[9, 0x78, 0, 0, 0], MANY),
];

/// A unit of a function of so many parameters.
fn with_parameters(alloc: Global, times: u32, end: &[u8]) -> Result<Vec<u8>, AllocError> {
    let mut entries = Vec::from_slice(alloc, &[1, 4, 0x66, 0])?;
    for _ in 0..times {
        entries.extend_from_slice(&[27, 13])?;
    }
    entries.extend_from_slice(end)?;
    Ok(entries)
}

/// A function has at most 65,535 parameters, an unspecified one among them. More are refused at the
/// function, and so before what is refused within it.
#[test]
fn many_parameters(rt: HostRuntime) -> Result<(), Fail> {
    for &(times, end, wanted) in PARAMETERS {
        let entries = with_parameters(rt.alloc(), times, end)?;
        assert_eq!(rt; count(rt.alloc(), &entries), wanted, "{times}");
    }
    Ok(())
}
