//! Units that were written out by hand, entry by entry, and the types that the rules give them. The
//! types were written down from the entries, before the bytes were read.
use super::{is_wanted, lines_in};
use dw_base::Order;
use small_files::bytes::{Sections, file_of, put_unit};
use std::alloc::{AllocError, Global};
use std::test::Fail;
use type_attributes::fault::TypeFault;

/// Units, each with its entries in order.
type Units = &'static [&'static [&'static [u8]]];

const LIST: &[&[u8]] = &[
    b"\x01\x1d",
    b"\x02list_head\0\x10",
    b"\x03next\0\x31\0\0\0\0",
    b"\x03prev\0\x31\0\0\0\x08",
    b"\0",
    b"\x04\x0e\0\0\0",
    b"\0",
];

const LISTS: Units = &[LIST, LIST];

const LISTS_ABBREVIATIONS: &[u8] = &[
    1, 0x11, 1, 0x13, 0x0b, 0, 0, // compile_unit with language
    2, 0x13, 1, 0x03, 0x08, 0x0b, 0x0b, 0, 0, // structure_type with name, byte_size
    3, 0x0d, 0, 0x03, 0x08, 0x49, 0x13, 0x38, 0x0b, 0, 0, // member with name, type, location
    4, 0x0f, 0, 0x49, 0x13, 0, 0, // pointer_type with type
    0,
];

const UNIONS: Units = &[
    &[
        b"\x01\x1d",
        b"\x02int\0\x04\x05",
        b"\x03\x04",
        b"\x04a\0\x0e\0\0\0\x03\0",
        b"\0",
        b"\0",
    ],
    &[
        b"\x01\x1d",
        b"\x02int\0\x04\x05",
        b"\x03\x04",
        b"\x04a\0\x0e\0\0\0\x03\x05",
        b"\0",
        b"\0",
    ],
];

const UNIONS_ABBREVIATIONS: &[u8] = &[
    1, 0x11, 1, 0x13, 0x0b, 0, 0, // compile_unit with language
    2, 0x24, 0, 0x03, 0x08, 0x0b, 0x0b, 0x3e, 0x0b, 0, 0, // base_type
    3, 0x17, 1, 0x0b, 0x0b, 0, 0, // union_type with byte_size
    4, 0x0d, 0, 0x03, 0x08, 0x49, 0x13, 0x0d, 0x0b, 0x6b, 0x0f, 0, 0, // member
    0,
];

const DECLARATIONS: Units = &[
    &[
        b"\x01\x1d",
        b"\x02A\0\x08",
        b"\x03b\0\x1b\0\0\0\0",
        b"\0",
        b"\x04\x20\0\0\0",
        b"\x05B\0",
        b"\0",
    ],
    &[
        b"\x01\x1d",
        b"\x02B\0\x08",
        b"\x03a\0\x1b\0\0\0\0",
        b"\0",
        b"\x04\x20\0\0\0",
        b"\x05A\0",
        b"\0",
    ],
    &[
        b"\x01\x1d",
        b"\x02A\0\x08",
        b"\x03b\0\x1b\0\0\0\0",
        b"\0",
        b"\x04\x20\0\0\0",
        b"\x02B\0\x08",
        b"\x03a\0\x2d\0\0\0\0",
        b"\0",
        b"\x04\x0e\0\0\0",
        b"\0",
    ],
];

const DECLARATIONS_ABBREVIATIONS: &[u8] = &[
    1, 0x11, 1, 0x13, 0x0b, 0, 0, // compile_unit with language
    2, 0x13, 1, 0x03, 0x08, 0x0b, 0x0b, 0, 0, // structure_type with name, byte_size
    3, 0x0d, 0, 0x03, 0x08, 0x49, 0x13, 0x38, 0x0b, 0, 0, // member with name, type, location
    4, 0x0f, 0, 0x49, 0x13, 0, 0, // pointer_type with type
    5, 0x13, 0, 0x03, 0x08, 0x3c, 0x19, 0, 0, // structure_type with name, declaration
    0,
];

const BIT_FIELDS: Units = &[&[
    b"\x01\x1d",
    b"\x02unsigned int\0\x04\x07",
    b"\x03f\0\x04",
    b"\x04a\0\x0e\0\0\0\x03\0",
    b"\x04b\0\x0e\0\0\0\x05\x03",
    b"\x04c\0\x0e\0\0\0\x11\x08",
    b"\0",
    b"\0",
]];

const BIT_FIELDS_ABBREVIATIONS: &[u8] = &[
    1, 0x11, 1, 0x13, 0x0b, 0, 0, // compile_unit with language
    2, 0x24, 0, 0x03, 0x08, 0x0b, 0x0b, 0x3e, 0x0b, 0, 0, // base_type
    3, 0x13, 1, 0x03, 0x08, 0x0b, 0x0b, 0, 0, // structure_type with name, byte_size
    4, 0x0d, 0, 0x03, 0x08, 0x49, 0x13, 0x0d, 0x0b, 0x6b, 0x0f, 0, 0, // member
    0,
];

const FARTHEST: Units = &[&[
    b"\x01\x1d",
    b"\x02int\0\x04\x05",
    b"\x03big\0\x04\0\x20\0",
    b"\x04z\0\x0e\0\0\0\x01\xff\xff\xff\x07",
    b"\0",
    b"\0",
]];

const FARTHEST_ABBREVIATIONS: &[u8] = &[
    1, 0x11, 1, 0x13, 0x0b, 0, 0, // compile_unit with language
    2, 0x24, 0, 0x03, 0x08, 0x0b, 0x0b, 0x3e, 0x0b, 0, 0, // base_type
    3, 0x13, 1, 0x03, 0x08, 0x0b, 0x06, 0, 0, // structure_type with name, byte_size
    4, 0x0d, 0, 0x03, 0x08, 0x49, 0x13, 0x0d, 0x0b, 0x6b, 0x0f, 0, 0, // member
    0,
];

const TOO_FAR: Units = &[&[
    b"\x01\x1d",
    b"\x02int\0\x04\x05",
    b"\x03big\0\x04\0\x20\0",
    b"\x04z\0\x0e\0\0\0\x01\x80\x80\x80\x08",
    b"\0",
    b"\0",
]];

const BOUNDS: Units = &[&[
    b"\x01\x1d",
    b"\x02int\0\x04\x05",
    b"\x03\x0e\0\0\0",
    b"\x04\x04",
    b"\x04\x05",
    b"\0",
    b"\0",
]];

const BOUNDS_ABBREVIATIONS: &[u8] = &[
    1, 0x11, 1, 0x13, 0x0b, 0, 0, // compile_unit with language
    2, 0x24, 0, 0x03, 0x08, 0x0b, 0x0b, 0x3e, 0x0b, 0, 0, // base_type
    3, 0x01, 1, 0x49, 0x13, 0, 0, // array_type with type
    4, 0x21, 0, 0x2f, 0x0b, 0, 0, // subrange_type with upper_bound
    0,
];

const NO_BOUND: Units = &[&[
    b"\x01\x1d",
    b"\x02int\0\x04\x05",
    b"\x03\x0e\0\0\0",
    b"\x04",
    b"\0",
    b"\0",
]];

const NO_BOUND_ABBREVIATIONS: &[u8] = &[
    1, 0x11, 1, 0x13, 0x0b, 0, 0, // compile_unit with language
    2, 0x24, 0, 0x03, 0x08, 0x0b, 0x0b, 0x3e, 0x0b, 0, 0, // base_type
    3, 0x01, 1, 0x49, 0x13, 0, 0, // array_type with type
    4, 0x21, 0, 0, 0, // subrange_type
    0,
];

const COUNTS: Units = &[&[
    b"\x01\x1d",
    b"\x02int\0\x04\x05",
    b"\x03\x0e\0\0\0",
    b"\x04\0\0\x01\0",
    b"\x04\0\0\x01\0",
    b"\0",
    b"\0",
]];

const COUNTS_ABBREVIATIONS: &[u8] = &[
    1, 0x11, 1, 0x13, 0x0b, 0, 0, // compile_unit with language
    2, 0x24, 0, 0x03, 0x08, 0x0b, 0x0b, 0x3e, 0x0b, 0, 0, // base_type
    3, 0x01, 1, 0x49, 0x13, 0, 0, // array_type with type
    4, 0x21, 0, 0x37, 0x06, 0, 0, // subrange_type with count
    0,
];

const REGISTRY: Units = &[
    &[
        b"\x01\0\0\0\0\x1d\0\0\0\0\x04\0\0\0\0\0\0\0",
        b"\x02\x01\x06\x0b\0\0\0",
        b"\x03\x48\x02\x1e\0\0\0",
        b"\x04\x10\0\0\0\x03\x1e\0\0\0\0",
        b"\x04\x14\0\0\0\x03\x71\0\0\0\x08",
        b"\x04\x1a\0\0\0\x03\x82\0\0\0\x10",
        b"\x04\x20\0\0\0\x03\x8c\0\0\0\x18",
        b"\x05\x25\0\0\0\x03\x94\0\0\0\0\x02",
        b"\x06\x2a\0\0\0\x03\x94\0\0\0\x01\x02",
        b"\0",
        b"\x07\x08\x05long long int\0",
        b"\x08\x87\0\0\0",
        b"\x09\x2f\0\0\0",
        b"\x0a\x1e\0\0\0",
        b"\x0b\x27",
        b"\0",
        b"\x02\x04\x07\x34\0\0\0",
        b"\x0c\x41\0\0\0\x09\x25\0\0\0",
        b"\0",
    ],
    &[b"\x0d\0\0\0\0\x08\0\0\0\x01\x80"],
];

const REGISTRY_ABBREVIATIONS: &[u8] = &[
    1, 0x11, 1, 0x25, 0x0e, 0x13, 0x0b, 0x03, 0x1f, 0x1b, 0x1f, 0x10, 0x17, 0, 0, // compile_unit
    2, 0x24, 0, 0x0b, 0x0b, 0x3e, 0x0b, 0x03, 0x0e, 0, 0, // base_type
    3, 0x13, 1, 0x0b, 0x0b, 0x3a, 0x21, 1, 0x3b, 0x0b, 0x01, 0x13, 0, 0, // structure_type
    4, 0x0d, 0, 0x03, 0x0e, 0x3a, 0x21, 1, 0x3b, 0x0b, 0x49, 0x13, 0x38, 0x0b, 0, 0, // member
    5, 0x0d, 0, 0x03, 0x0e, 0x3a, 0x21, 1, 0x3b, 0x0b, 0x49, 0x13, 0x0d, 0x21, 1, 0x6b, 0x05, 0, 0, // member
    6, 0x0d, 0, 0x03, 0x0e, 0x3a, 0x21, 1, 0x3b, 0x0b, 0x49, 0x13, 0x0d, 0x21, 3, 0x6b, 0x05, 0, 0, // member
    7, 0x24, 0, 0x0b, 0x0b, 0x3e, 0x0b, 0x03, 0x08, 0, 0, // base_type
    8, 0x0f, 0, 0x0b, 0x21, 8, 0x49, 0x13, 0, 0, // pointer_type with byte_size, type
    9, 0x13, 0, 0x03, 0x0e, 0x3c, 0x19, 0, 0, // structure_type with name, declaration
    10, 0x01, 1, 0x49, 0x13, 0, 0, // array_type with type
    11, 0x21, 0, 0x2f, 0x0b, 0, 0, // subrange_type with upper_bound
    12, 0x16, 0, 0x03, 0x0e, 0x3a, 0x21, 1, 0x3b, 0x0b, 0x49, 0x13, 0, 0, // typedef with name, type
    13, 0x11, 0, 0x10, 0x17, 0x03, 0x1f, 0x13, 0x05, 0, 0, // compile_unit with name, language
    0,
];

const REGISTRY_STRINGS: &[u8] =
    b"GNU C17 12\0char\0tag\0count\0first\0name\0live\0kind\0node\0unsigned int\0registry\0";

const REGISTRY_LINE_STRINGS: &[u8] = b"r.c\0src\0x.s\0";

const NEGATIVE: Units = &[&[
    b"\x01\x1d",
    b"\x02e\0\x04",
    b"\x03A\0\x7f",
    b"\x04B\0\x01",
    b"\0",
    b"\0",
]];

const NEGATIVE_ABBREVIATIONS: &[u8] = &[
    1, 0x11, 1, 0x13, 0x0b, 0, 0, // compile_unit with language
    2, 0x04, 1, 0x03, 0x08, 0x0b, 0x0b, 0, 0, // enumeration_type with name, byte_size
    3, 0x28, 0, 0x03, 0x08, 0x1c, 0x0d, 0, 0, // enumerator with name, const_value
    4, 0x28, 0, 0x03, 0x08, 0x1c, 0x0b, 0, 0, // enumerator with name, const_value
    0,
];

const TYPE_OF_ROOT: Units = &[&[b"\x01\x1d", b"\x02t\0\x0c\0\0\0", b"\0"]];

const TYPE_OF_ROOT_ABBREVIATIONS: &[u8] = &[
    1, 0x11, 1, 0x13, 0x0b, 0, 0, // compile_unit with language
    2, 0x16, 0, 0x03, 0x08, 0x49, 0x13, 0, 0, // typedef with name, type
    0,
];

/// A base type, of the abbreviations of `BOUNDS`.
const INT: &[&[u8]] = &[b"\x01\x1d", b"\x02int\0\x04\x05", b"\0"];

/// `.debug_str` and `.debug_line_str`.
type StringSections = (&'static [u8], &'static [u8]);

/// Where all names stand in `.debug_info`.
const INLINE: StringSections = (&[], &[]);

/// Some units and what they are, `.debug_abbrev`, the strings, and a heading for each unit and a
/// line for each of its types, or the first refusal.
type Case = (
    &'static str,
    Units,
    &'static [u8],
    StringSections,
    Result<&'static [&'static str], TypeFault>,
);

const CASES: &[Case] = &[
    (
        "a structure of pointers to itself, in two units",
        LISTS,
        LISTS_ABBREVIATIONS,
        INLINE,
        Ok(&[
            "unit",
            "14 4 list_head false 16 0 next=0 prev=64 26:49 37:49",
            "49 2 - false 0 0 49:14",
            "unit",
            "69 4 list_head false 16 0 next=0 prev=64 81:104 92:104",
            "104 2 - false 0 0 104:69",
        ]),
    ),
    (
        "unions with a bit field at the bit 0, and at the bit 5",
        UNIONS,
        UNIONS_ABBREVIATIONS,
        INLINE,
        Ok(&[
            "unit",
            "14 1 int false 4 16777248",
            "21 5 - true 4 0 a=50331648 23:14",
            "unit",
            "48 1 int false 4 16777248",
            "55 5 - true 4 0 a=50331653 57:48",
        ]),
    ),
    (
        "structures with pointers to each other, declared and defined",
        DECLARATIONS,
        DECLARATIONS_ABBREVIATIONS,
        INLINE,
        Ok(&[
            "unit",
            "14 4 A false 8 0 b=0 18:27",
            "27 2 - false 0 0 27:32",
            "32 7 B false 0 0",
            "unit",
            "50 4 B false 8 0 a=0 54:63",
            "63 2 - false 0 0 63:68",
            "68 7 A false 0 0",
            "unit",
            "86 4 A false 8 0 b=0 90:99",
            "99 2 - false 0 0 99:104",
            "104 4 B false 8 0 a=0 108:117",
            "117 2 - false 0 0 117:86",
        ]),
    ),
    (
        "three bit fields",
        BIT_FIELDS,
        BIT_FIELDS_ABBREVIATIONS,
        INLINE,
        Ok(&[
            "unit",
            "14 1 unsigned int false 4 32",
            "30 4 f true 4 0 a=50331648 b=83886083 c=285212680 34:14 43:14 52:14",
        ]),
    ),
    (
        "a bit field at the last bit",
        FARTHEST,
        FARTHEST_ABBREVIATIONS,
        INLINE,
        Ok(&[
            "unit",
            "14 1 int false 4 16777248",
            "21 4 big true 2097156 0 z=33554431 30:14",
        ]),
    ),
    (
        "a bit field one bit behind the last",
        TOO_FAR,
        FARTHEST_ABBREVIATIONS,
        INLINE,
        Err(TypeFault::MemberFar(30, 16_777_216)),
    ),
    (
        "an array with the upper bounds 4 and 5",
        BOUNDS,
        BOUNDS_ABBREVIATIONS,
        INLINE,
        Ok(&[
            "unit with an array",
            "14 1 int false 4 16777248",
            "21 3 - false 0 30 21:14 index",
        ]),
    ),
    (
        "an array with a subrange without a bound",
        NO_BOUND,
        NO_BOUND_ABBREVIATIONS,
        INLINE,
        Ok(&[
            "unit with an array",
            "14 1 int false 4 16777248",
            "21 3 - false 0 0 21:14 index",
        ]),
    ),
    (
        "an array of 65,536 times 65,536 elements",
        COUNTS,
        COUNTS_ABBREVIATIONS,
        INLINE,
        Err(TypeFault::ArrayLength(21)),
    ),
    (
        "the forms that gcc uses, and a unit of an assembler",
        REGISTRY,
        REGISTRY_ABBREVIATIONS,
        (REGISTRY_STRINGS, REGISTRY_LINE_STRINGS),
        Ok(&[
            "unit with an array",
            "30 1 char false 1 16777224",
            "37 4 - true 72 0 tag=0 count=64 first=128 name=192 live=16777728 kind=50332161 44:30 55:113 66:130 77:140 88:148 100:148",
            "113 1 long long int false 8 16777280",
            "130 2 - false 0 0 130:135",
            "135 7 node false 0 0",
            "140 3 - false 0 40 140:30 index",
            "148 1 unsigned int false 4 32",
            "155 8 registry false 0 0 155:37",
            "unit passed over",
        ]),
    ),
    (
        "an enumeration with the values -1 and 1",
        NEGATIVE,
        NEGATIVE_ABBREVIATIONS,
        INLINE,
        Ok(&["unit", "14 6 e true 4 0 A=4294967295 B=1"]),
    ),
    (
        "a typedef whose type is the unit's root, which only who links refuses",
        TYPE_OF_ROOT,
        TYPE_OF_ROOT_ABBREVIATIONS,
        INLINE,
        Ok(&["unit", "14 8 t false 0 0 14:12"]),
    ),
];

/// The bytes of these units of version 5, whose abbreviations stand at offset 0.
fn info_of(alloc: Global, order: Order, units: &[&[&[u8]]]) -> Result<Vec<u8>, AllocError> {
    let mut info = Vec::new(alloc);
    for entries in units {
        put_unit(&mut info, order, 5, 0, &entries.concat(alloc)?)?;
    }
    Ok(info)
}

/// What comes of the units of a file.
fn found_in(
    alloc: Global,
    order: Order,
    units: &[&[&[u8]]],
    abbrev: &[u8],
    strings: StringSections,
) -> Result<Result<Vec<String>, TypeFault>, Fail> {
    let info = info_of(alloc, order, units)?;
    let sections = Sections {
        info: &info,
        abbrev,
        text: strings.0,
        line_text: strings.1,
    };
    let file = file_of(alloc, order, sections)?;
    lines_in(alloc, file.as_slice(), true)
}

/// The types of units of little-endian files.
#[test]
fn worked_units(rt: HostRuntime) -> Result<(), Fail> {
    for &(name, units, abbreviations, strings, wanted) in CASES {
        let found = found_in(rt.alloc(), Order::Little, units, abbreviations, strings)?;
        assert!(rt; is_wanted(&found, wanted), "{name}: {found:?}");
    }
    Ok(())
}

/// The types of a unit of a big-endian file.
#[test]
fn big_endian_unit(rt: HostRuntime) -> Result<(), Fail> {
    let wanted: &[&str] = &["unit", "14 1 int false 4 16777248"];
    let found = found_in(rt.alloc(), Order::Big, &[INT], BOUNDS_ABBREVIATIONS, INLINE)?;
    assert!(rt; is_wanted(&found, Ok(wanted)), "{found:?}");
    Ok(())
}
