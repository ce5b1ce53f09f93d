//! Bit fields with a bit_offset, which stand in a storage.
use super::{types_in, under_root};
use dw_base::Order;
use dwarf_forms::FormFault;
use small_files::bytes::{Sections, file_of, put, put_unit};
use std::alloc::{AllocError, Global};
use std::process::Abort;
use std::test::Fail;
use type_attributes::fault::TypeFault;

/// The abbreviations of all cases: the code, the tag, children or none, attributes and forms.
const ABBREVIATIONS: &[u8] = &[
    1, 0x11, 1, 0, 0, // compile_unit
    2, 0x24, 0, 0x03, 0x08, 0x0b, 0x0b, 0x3e, 0x0b, 0, 0, // base_type with name, byte_size, encoding
    3, 0x13, 1, 0x03, 0x08, 0x0b, 0x0b, 0, 0, // structure_type with name, byte_size
    4, 0x0d, 0, 0x49, 0x11, 0x0b, 0x0b, 0x0d, 0x0b, 0x0c, 0x0b, 0x38, 0x0b, 0, 0, // member with type, byte_size, bit_size, bit_offset, location
    5, 0x0d, 0, 0x49, 0x11, 0x0d, 0x0b, 0x0c, 0x0b, 0, 0, // with type, bit_size, bit_offset
    6, 0x16, 0, 0x03, 0x08, 0x49, 0x12, 0, 0, // typedef with name, type by ref2
    7, 0x0d, 0, 0x49, 0x11, 0x0b, 0x08, 0x0d, 0x0b, 0x0c, 0x0b, 0, 0, // member with byte_size by string
    8, 0x16, 0, 0x03, 0x08, 0x0b, 0x08, 0x49, 0x11, 0, 0, // typedef with name, byte_size by string, type
    9, 0x16, 0, 0x03, 0x08, 0x0b, 0x0b, 0x49, 0x11, 0, 0, // with name, byte_size, type
    10, 0x0d, 0, 0x49, 0x11, 0x0d, 0x0b, 0x0c, 0x0d, 0, 0, // member with bit_size, signed bit_offset
    11, 0x26, 0, 0x49, 0x11, 0, 0, // const_type with type
    12, 0x35, 0, 0x49, 0x11, 0, 0, // volatile_type with type
    13, 0x37, 0, 0x49, 0x11, 0, 0, // restrict_type with type
    14, 0x47, 0, 0x49, 0x11, 0, 0, // atomic_type with type
    15, 0x0f, 0, 0x49, 0x11, 0, 0, // pointer_type with type
    16, 0x0d, 0, 0x49, 0x11, 0x0c, 0x0b, 0x38, 0x0b, 0, 0, // member with type, bit_offset, location
    17, 0x0d, 0, 0x49, 0x11, 0x6b, 0x0b, 0x0d, 0x0b, 0x0c, 0x08, 0, 0, // with data_bit_offset, bit_size, bit_offset by string
    18, 0x0d, 0, 0x49, 0x11, 0x0b, 0x0b, 0x0d, 0x0b, 0x0c, 0x0b, 0x38, 0x18, 0, 0, // with location by exprloc
    19, 0x0d, 0, 0x49, 0x0b, 0x0d, 0x0b, 0x0c, 0x0b, 0, 0, // with type by data1, bit_size, bit_offset
    20, 0x16, 0, 0x03, 0x08, 0x49, 0x0b, 0, 0, // typedef with name, type by data1
    21, 0x0d, 0, 0x49, 0x11, 0x0d, 0x0b, 0x0c, 0x08, 0x38, 0x0b, 0, 0, // member with bit_offset by string
    22, 0x0d, 0, 0x49, 0x11, 0x0b, 0x0b, 0x0d, 0x0b, 0x0c, 0x07, 0, 0, // with type, byte_size, bit_size, bit_offset by data8
    23, 0x0d, 0, 0x49, 0x11, 0x0b, 0x0b, 0x0d, 0x0b, 0x0c, 0x0d, 0, 0, // the same, bit_offset by sdata
    24, 0x0d, 0, 0x49, 0x11, 0x0b, 0x0b, 0x0d, 0x0b, 0x0c, 0x0f, 0, 0, // the same, bit_offset by udata
    25, 0x0d, 0, 0x49, 0x11, 0x6b, 0x0b, 0x0d, 0x0b, 0x0c, 0x0b, 0, 0, // with data_bit_offset, bit_size, bit_offset
    0,
];

/// A file with a unit of these entries behind its root. They begin at offset 12 in version 4, and at
/// 13 in version 5.
fn unit_file(
    alloc: Global,
    order: Order,
    version: u16,
    entries: &[u8],
) -> Result<Vec<u8>, AllocError> {
    let mut info = Vec::new(alloc);
    put_unit(&mut info, order, version, 0, &under_root(alloc, entries)?)?;
    let sections = Sections {
        info: &info,
        abbrev: ABBREVIATIONS,
        text: &[],
        line_text: &[],
    };
    file_of(alloc, order, sections)
}

/// The words of the members of the first structure of a unit, or the first refusal.
fn words(
    alloc: Global,
    order: Order,
    version: u16,
    entries: &[u8],
) -> Result<Result<Vec<u64>, TypeFault>, Fail> {
    let file = unit_file(alloc, order, version, entries)?;
    let found = match types_in(alloc, file.as_slice())? {
        Ok(found) => found,
        Err(fault) => return Ok(Err(fault)),
    };
    let mut all = Vec::new(alloc);
    for unit in &found {
        for one in unit.types.items() {
            if one.label.kind == 4 {
                for part in one.label.parts.items() {
                    all.push(part.value)?;
                }
            }
        }
    }
    Ok(Ok(all))
}

/// What the members of a structure come to, in a file of an order and a unit of a version.
type Case = (Order, u16, &'static [u8], Result<&'static [u64], TypeFault>);

/// Whether the words of members, or the first refusal, are those that are wanted.
fn is_wanted(found: &Result<Vec<u64>, TypeFault>, wanted: &Result<&[u64], TypeFault>) -> bool {
    match (found, wanted) {
        (Ok(words), Ok(values)) => words.as_slice() == *values,
        (Err(found), Err(fault)) => found == fault,
        _ => false,
    }
}

/// Holds the words of members, or the first refusal, against those that are wanted.
fn places(rt: &impl Abort, alloc: Global, cases: &[Case]) -> Result<(), Fail> {
    for (order, version, entries, wanted) in cases {
        let found = words(alloc, *order, *version, entries)?;
        assert!(rt; is_wanted(&found, wanted), "{entries:?}: {found:?}");
    }
    Ok(())
}

/// Three bit fields of an `unsigned int` in both orders, and what a big-endian file doesn't read.
const ORDERS: &[Case] = &[
    (
        Order::Little,
        4,
        &[
            2, 0x69, 0, 4, 7, 3, 0x73, 0, 4, 4, 12, 4, 3, 29, 0, 4, 12, 4, 5, 24, 0, 4, 12, 4, 17,
            7, 0, 0,
        ],
        Ok(&[50_331_648, 83_886_083, 285_212_680]),
    ),
    (
        Order::Big,
        4,
        &[
            2, 0x69, 0, 4, 7, 3, 0x73, 0, 4, 4, 12, 4, 3, 0, 0, 4, 12, 4, 5, 3, 0, 4, 12, 4, 17, 8,
            0, 0,
        ],
        Ok(&[50_331_648, 83_886_083, 285_212_680]),
    ),
    (
        Order::Big,
        4,
        &[2, 0x69, 0, 4, 7, 3, 0x73, 0, 4, 7, 13, 0, 3, 5, 0],
        Ok(&[50_331_653]),
    ),
    (
        Order::Little,
        4,
        &[2, 0x69, 0, 4, 7, 3, 0x73, 0, 4, 4, 12, 4, 3, 29, 1, 0],
        Ok(&[50_331_656]),
    ),
    (
        Order::Big,
        4,
        &[2, 0x69, 0, 4, 7, 3, 0x73, 0, 4, 4, 12, 4, 3, 29, 1, 0],
        Ok(&[50_331_685]),
    ),
];

#[test]
fn both_orders(rt: HostRuntime) -> Result<(), Fail> {
    places(&rt, rt.alloc(), ORDERS)
}

/// Where the storage comes from: the member, or the entry that its type names.
const STORAGES: &[Case] = &[
    (
        Order::Little,
        4,
        &[2, 0x69, 0, 4, 7, 3, 0x73, 0, 4, 5, 12, 3, 29, 0],
        Ok(&[50_331_648]),
    ),
    (
        Order::Little,
        4,
        &[3, 0x73, 0, 4, 5, 21, 3, 29, 0, 2, 0x69, 0, 4, 7],
        Ok(&[50_331_648]),
    ),
    (
        Order::Little,
        4,
        &[2, 0x69, 0, 4, 7, 3, 0x73, 0, 4, 4, 12, 2, 3, 13, 0, 0],
        Ok(&[50_331_648]),
    ),
    (
        Order::Little,
        4,
        &[
            6, 0x74, 0, 17, 0, 2, 0x69, 0, 4, 7, 3, 0x73, 0, 4, 5, 12, 3, 29, 0,
        ],
        Ok(&[50_331_648]),
    ),
    (
        Order::Little,
        4,
        &[
            2, 0x69, 0, 4, 7, 9, 0x74, 0, 2, 12, 3, 0x73, 0, 4, 5, 17, 3, 13, 0,
        ],
        Ok(&[50_331_648]),
    ),
    (
        Order::Little,
        4,
        &[
            2, 0x69, 0, 4, 7, 11, 12, 12, 17, 13, 19, 14, 21, 3, 0x73, 0, 4, 5, 23, 3, 29, 0,
        ],
        Ok(&[50_331_648]),
    ),
    (
        Order::Little,
        4,
        &[2, 0x69, 0, 4, 7, 15, 12, 3, 0x73, 0, 4, 5, 17, 3, 29, 0],
        Err(TypeFault::MemberPlace(23)),
    ),
    (
        Order::Little,
        4,
        &[2, 0x69, 0, 4, 7, 3, 0x73, 0, 4, 5, 13, 3, 29, 0],
        Err(TypeFault::MemberPlace(21)),
    ),
    (
        Order::Little,
        4,
        &[6, 0x74, 0, 12, 0, 3, 0x73, 0, 4, 5, 12, 3, 29, 0],
        Err(TypeFault::MemberPlace(21)),
    ),
    (
        Order::Little,
        4,
        &[
            2, 0x69, 0, 4, 7, 8, 0x74, 0, 0, 12, 3, 0x73, 0, 4, 5, 17, 3, 29, 0,
        ],
        Err(TypeFault::MemberPlace(26)),
    ),
    (
        Order::Little,
        4,
        &[
            2, 0x69, 0, 4, 7, 3, 0x73, 0, 4, 5, 26, 3, 29, 0, 20, 0x74, 0, 12,
        ],
        Err(TypeFault::MemberPlace(21)),
    ),
];

#[test]
fn storages(rt: HostRuntime) -> Result<(), Fail> {
    places(&rt, rt.alloc(), STORAGES)
}

/// Which numbers place a bit field, and those that are refused.
const NUMBERS: &[Case] = &[
    (
        Order::Little,
        4,
        &[2, 0x69, 0, 4, 7, 3, 0x73, 0, 4, 10, 12, 3, 0x7f, 0],
        Ok(&[50_331_678]),
    ),
    (
        Order::Little,
        4,
        &[2, 0x69, 0, 4, 7, 3, 0x73, 0, 4, 5, 12, 3, 0xff, 0],
        Err(TypeFault::MemberPlace(21)),
    ),
    (
        Order::Little,
        4,
        &[2, 0x69, 0, 4, 7, 3, 0x73, 0, 4, 4, 12, 4, 3, 30, 0, 0],
        Err(TypeFault::MemberPlace(21)),
    ),
    (
        Order::Little,
        4,
        &[
            2, 0x69, 0, 4, 7, 3, 0x73, 0, 4, 18, 12, 4, 3, 29, 2, 0x23, 1, 0,
        ],
        Ok(&[50_331_656]),
    ),
    (
        Order::Little,
        4,
        &[
            2, 0x69, 0, 4, 7, 3, 0x73, 0, 4, 18, 12, 4, 3, 29, 1, 0x30, 0,
        ],
        Err(TypeFault::MemberPlace(21)),
    ),
    (
        Order::Little,
        4,
        &[2, 0x69, 0, 4, 7, 3, 0x73, 0, 4, 16, 12, 29, 1, 0],
        Ok(&[8]),
    ),
    (
        Order::Little,
        4,
        &[2, 0x69, 0, 4, 7, 3, 0x73, 0, 4, 17, 12, 5, 3, 0, 0],
        Ok(&[50_331_653]),
    ),
    (
        Order::Little,
        4,
        &[2, 0x69, 0, 4, 7, 3, 0x73, 0, 4, 5, 12, 0, 32, 0],
        Err(TypeFault::BitSize(21, 0)),
    ),
    (
        Order::Little,
        4,
        &[2, 0x69, 0, 4, 7, 3, 0x73, 0, 4, 5, 12, 0, 33, 0],
        Err(TypeFault::MemberPlace(21)),
    ),
    (
        Order::Little,
        4,
        &[2, 0x69, 0, 4, 7, 3, 0x73, 0, 4, 7, 12, 0, 3, 29, 0],
        Err(TypeFault::Form(21, FormFault::WrongClass(0x0b, 0x08))),
    ),
    (
        Order::Little,
        4,
        &[2, 0x69, 0, 4, 7, 3, 0x73, 0, 4, 19, 12, 3, 29, 0],
        Err(TypeFault::Form(21, FormFault::WrongClass(0x49, 0x0b))),
    ),
    (
        Order::Little,
        4,
        &[2, 0x69, 0, 4, 7, 3, 0x73, 0, 4, 21, 12, 3, 0, 0, 0],
        Err(TypeFault::Form(21, FormFault::WrongClass(0x0c, 0x08))),
    ),
];

#[test]
fn numbers(rt: HostRuntime) -> Result<(), Fail> {
    places(&rt, rt.alloc(), NUMBERS)
}

/// Bit fields of units of version 5 with a bit_offset, as in version 4; a data_bit_offset comes first.
const VERSION_5: &[Case] = &[
    (
        Order::Little,
        5,
        &[
            2, 0x69, 0, 4, 7, 3, 0x73, 0, 4, 4, 13, 4, 3, 29, 0, 4, 13, 4, 5, 24, 0, 4, 13, 4, 17,
            7, 0, 0,
        ],
        Ok(&[50_331_648, 83_886_083, 285_212_680]),
    ),
    (
        Order::Little,
        5,
        &[2, 0x69, 0, 4, 7, 3, 0x73, 0, 4, 4, 13, 4, 3, 29, 1, 0],
        Ok(&[50_331_656]),
    ),
    (
        Order::Little,
        5,
        &[2, 0x69, 0, 4, 7, 3, 0x73, 0, 4, 5, 13, 3, 29, 0],
        Ok(&[50_331_648]),
    ),
    (
        Order::Little,
        5,
        &[2, 0x69, 0, 4, 7, 3, 0x73, 0, 4, 25, 13, 5, 3, 29, 0],
        Ok(&[50_331_653]),
    ),
    (
        Order::Little,
        5,
        &[2, 0x69, 0, 4, 7, 3, 0x73, 0, 4, 21, 13, 3, 0, 1, 0],
        Err(TypeFault::Form(22, FormFault::WrongClass(0x0c, 0x08))),
    ),
];

#[test]
fn version_5(rt: HostRuntime) -> Result<(), Fail> {
    places(&rt, rt.alloc(), VERSION_5)
}

/// A bit_offset of -1, by 8 bytes of ones and as a signed number; by another form ones are 2^64 - 1.
const NEGATIVE: &[Case] = &[
    (
        Order::Little,
        4,
        &[
            2, 0x69, 0, 4, 7, 3, 0x73, 0, 5, 22, 12, 4, 30, 255, 255, 255, 255, 255, 255, 255, 255,
            0,
        ],
        Ok(&[503_316_483]),
    ),
    (
        Order::Little,
        4,
        &[2, 0x69, 0, 4, 7, 3, 0x73, 0, 5, 23, 12, 4, 30, 0x7f, 0],
        Ok(&[503_316_483]),
    ),
    (
        Order::Little,
        5,
        &[
            2, 0x69, 0, 4, 7, 3, 0x73, 0, 5, 22, 13, 4, 30, 255, 255, 255, 255, 255, 255, 255, 255,
            0,
        ],
        Ok(&[503_316_483]),
    ),
    (
        Order::Little,
        4,
        &[
            2, 0x69, 0, 4, 7, 3, 0x73, 0, 5, 24, 12, 4, 30, 255, 255, 255, 255, 255, 255, 255, 255,
            255, 1, 0,
        ],
        Err(TypeFault::MemberPlace(21)),
    ),
];

#[test]
fn negative(rt: HostRuntime) -> Result<(), Fail> {
    places(&rt, rt.alloc(), NEGATIVE)
}

/// 64 typedefs are followed to the storage, and no more.
#[test]
fn chains(rt: HostRuntime) -> Result<(), Fail> {
    for count in [64u64, 65] {
        let mut entries = Vec::new(rt.alloc());
        for k in 0..count {
            entries.extend_from_slice(&[6, 0x74, 0])?;
            put(
                &mut entries,
                Order::Little,
                12u64.wrapping_add(5u64.wrapping_mul(k.wrapping_add(1))),
                2,
            )?;
        }
        entries.extend_from_slice(&[2, 0x69, 0, 4, 7, 3, 0x73, 0, 4, 5, 12, 3, 29, 0])?;
        let found = words(rt.alloc(), Order::Little, 4, entries.as_slice())?;
        if count == 64 {
            assert!(rt; found.is_ok());
        } else {
            assert_eq!(rt; found.err(), Some(TypeFault::MemberPlace(346)));
        }
    }
    Ok(())
}
