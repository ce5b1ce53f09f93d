//! Tag entries under pointers, and annotations that are none.
use super::{compare, is_wanted, lines, under_root};
use dwarf_forms::FormFault;
use std::alloc::Global;
use std::test::Fail;
use type_attributes::fault::TypeFault;

/// The name of type tags, as a value of form string.
const TAG: &[u8] = b"btf_type_tag\0";

/// Entries in pieces, and the lines of their types.
const TAGGED: &[(&[&[u8]], &[&str])] = &[
    (
        &[&[2, 0x69, 0, 4, 5, 78, 13, 79], TAG, b"u\0", &[0]],
        &[
            "13 1 i false 4 16777248",
            "18 2 - false 0 0 18:20",
            "20 18 u false 0 0 18:13",
        ],
    ),
    (
        &[
            &[2, 0x69, 0, 4, 5, 78, 13, 79],
            TAG,
            b"p\0",
            &[79],
            TAG,
            b"q\0",
            &[0],
        ],
        &[
            "13 1 i false 4 16777248",
            "18 2 - false 0 0 18:20",
            "20 18 p false 0 0 20:36",
            "36 18 q false 0 0 18:13",
        ],
    ),
    // with and without a tag; the list of children may be empty
    (
        &[&[78, 13, 79], TAG, b"u\0", &[0, 78, 13, 0, 67]],
        &[
            "13 2 - false 0 0 13:15",
            "15 18 u false 0 0 13:13",
            "32 2 - false 0 0 32:13",
            "35 2 - false 0 0 void",
        ],
    ),
    // a structure between, with a pointer of its own
    (
        &[
            &[2, 0x69, 0, 4, 5, 78, 13, 8, 0x73, 0, 4, 78, 13, 79],
            TAG,
            b"b\0",
            &[0, 0, 79],
            TAG,
            b"a\0",
            &[0],
        ],
        &[
            "13 1 i false 4 16777248",
            "18 2 - false 0 0 18:44",
            "20 4 s false 4 0",
            "24 2 - false 0 0 24:26",
            "26 18 b false 0 0 24:13",
            "44 18 a false 0 0 18:13",
        ],
    ),
    // under a structure, a member, and at the unit's level nothing is read of an annotation
    (
        &[&[8, 0x73, 0, 4, 82, 7, 37, 13, 80], TAG, &[0, 0, 80], TAG],
        &["13 4 s false 4 0 -=0 19:13"],
    ),
    // other annotations of a pointer, and entries of the tag 0x6001
    (
        &[
            &[78, 13, 79],
            b"btf_decl_tag\0u\0",
            &[81],
            b"u\0",
            &[84],
            TAG,
            b"u\0",
            &[0],
        ],
        &["13 2 - false 0 0 13:13"],
    ),
    // a pointer to void; a tag entry that is referred to from elsewhere
    (
        &[&[86, 79], TAG, b"u\0", &[0, 31, 14, 0, 0, 0]],
        &[
            "13 2 - false 0 0 13:14",
            "14 18 u false 0 0 void",
            "31 8 _Atomic false 0 0 31:14",
        ],
    ),
    // what stands in a tag entry is not the pointer's
    (
        &[
            &[78, 13, 85],
            TAG,
            b"u\0",
            &[72, 0x74, 0, 80],
            TAG,
            &[0, 79],
            TAG,
            b"w\0",
            &[0],
        ],
        &[
            "13 2 - false 0 0 13:15",
            "15 18 u false 0 0 15:49",
            "31 8 t false 0 0 void",
            "49 18 w false 0 0 13:13",
        ],
    ),
    // an entry that is no type, at the depth of a pointer that is over
    (
        &[&[78, 13, 0, 75, 79], TAG, b"u\0", &[0]],
        &["13 2 - false 0 0 13:13"],
    ),
];

/// The types of entries behind the root, which begin at offset 13.
#[test]
fn type_tags(rt: HostRuntime) -> Result<(), Fail> {
    for &(pieces, wanted) in TAGGED {
        compare(&rt, rt.alloc(), &pieces.concat(rt.alloc())?, wanted)?;
    }
    Ok(())
}

/// Entries in pieces, and the first refusal.
const REFUSED: &[(&[&[u8]], TypeFault)] = &[
    (&[&[78, 13, 80], TAG, &[0]], TypeFault::MissingName(15)),
    (
        &[&[78, 13, 79], TAG, b"\0", &[0]],
        TypeFault::MissingName(15),
    ),
    (
        &[&[78, 13, 83], TAG, &[9, 0]],
        TypeFault::Form(15, FormFault::WrongClass(0x1c, 0x0b)),
    ),
    (
        &[&[78, 13, 82, 7, 0]],
        TypeFault::Form(15, FormFault::WrongClass(0x03, 0x0b)),
    ),
    (
        &[&[78, 13, 88, 0, 0, 0, 0, 0]],
        TypeFault::Form(15, FormFault::AltForm(0x1d)),
    ),
    (
        &[&[87, 1, 80], TAG, &[0]],
        TypeFault::Form(13, FormFault::WrongClass(0x49, 0x0b)),
    ),
];

/// The first refusals of entries behind the root, which begin at offset 13.
#[test]
fn tag_refusals(rt: HostRuntime) -> Result<(), Fail> {
    for &(pieces, fault) in REFUSED {
        let entries = pieces.concat(rt.alloc())?;
        let found = lines(rt.alloc(), &under_root(rt.alloc(), &entries)?)?;
        assert!(rt;
            is_wanted(&found, Err(fault)),
            "{pieces:?}: {found:?}, no {fault:?}"
        );
    }
    Ok(())
}
