//! Refusals: the least entries that have each, which of two comes first, and the last values that
//! are accepted.
use super::{compare, is_wanted, lines, lines_in, under_root};
use dwarf_abbrev::AbbrevFault;
use dwarf_forms::FormFault;
use entry_tree::WalkFault;
use small_files::bytes::{info_of, plain_file};
use std::alloc::Global;
use std::process::Abort;
use std::test::Fail;
use type_attributes::fault::TypeFault;

/// Entries behind the root, and their first refusal.
type Refused = (&'static [u8], TypeFault);

/// Holds the first refusal of entries behind the root, which begin at offset 13, against the one
/// that is wanted.
fn refuses(rt: &impl Abort, alloc: Global, cases: &[Refused]) -> Result<(), Fail> {
    for (entries, fault) in cases {
        let found = lines(alloc, &under_root(alloc, entries)?)?;
        assert!(rt;
            is_wanted(&found, Err(*fault)),
            "{entries:?}: {found:?}, no {fault:?}"
        );
    }
    Ok(())
}

const NAME: FormFault = FormFault::WrongClass(0x03, 0x0b);

const SIZE: FormFault = FormFault::WrongClass(0x0b, 0x08);

/// Values that aren't what the attribute needs.
const VALUES: &[Refused] = &[
    (
        &[18, 9, 0, 0, 0],
        TypeFault::Form(13, FormFault::StringOut(9)),
    ),
    (
        &[53, 0, 0, 0, 0],
        TypeFault::Form(13, FormFault::StringOut(0)),
    ),
    (&[19, 1], TypeFault::Form(13, FormFault::StrxOut(1))),
    (
        &[20, 0, 0, 0, 0],
        TypeFault::Form(13, FormFault::AltForm(0x1d)),
    ),
    (
        &[54, 0, 0, 0, 0],
        TypeFault::Form(13, FormFault::AltForm(0x1f21)),
    ),
    (
        &[8, 0x73, 0, 4, 55, 0, 0, 0, 0, 0],
        TypeFault::Form(17, FormFault::AltForm(0x1f20)),
    ),
    (&[21, 7], TypeFault::Form(13, NAME)),
    (&[39, 1, 7], TypeFault::Form(13, NAME)),
    (
        &[22, 0, 0, 0, 0],
        TypeFault::Form(13, FormFault::WrongClass(0x49, 0x17)),
    ),
    (&[38, 0], TypeFault::Form(13, SIZE)),
];

#[test]
fn values(rt: HostRuntime) -> Result<(), Fail> {
    refuses(&rt, rt.alloc(), VALUES)
}

/// Names, sizes and types that are missing.
const MISSING: &[Refused] = &[
    (&[29], TypeFault::MissingName(13)),
    (&[3, 4], TypeFault::MissingName(13)),
    (&[4, 0, 3, 4], TypeFault::MissingName(13)),
    (&[2, 0x69, 0, 4, 5, 3, 4], TypeFault::MissingName(18)),
    (&[7], TypeFault::MissingName(13)),
    (&[15, 0x65, 0, 4, 23, 1, 0], TypeFault::MissingName(17)),
    (&[4, 0x69, 0], TypeFault::MissingSize(13)),
    (&[59, 0], TypeFault::MissingSize(13)),
    (&[41, 0], TypeFault::MissingSize(13)),
    (&[42, 0], TypeFault::MissingSize(13)),
    (&[6], TypeFault::MissingType(13)),
    (&[8, 0x73, 0, 4, 10, 0x6d, 0, 0], TypeFault::MissingType(17)),
    (&[25, 26, 0], TypeFault::MissingType(14)),
    (&[11], TypeFault::UnnamedForward(13)),
    (&[65], TypeFault::UnnamedForward(13)),
    (&[43], TypeFault::UnnamedForward(13)),
];

#[test]
fn missing(rt: HostRuntime) -> Result<(), Fail> {
    refuses(&rt, rt.alloc(), MISSING)
}

/// Places and bit sizes of members.
const MEMBERS: &[Refused] = &[
    (
        &[8, 0x73, 0, 4, 9, 0x6d, 0, 13, 0, 0, 0, 0x7f, 0],
        TypeFault::MemberPlace(17),
    ),
    (
        &[8, 0x73, 0, 4, 44, 13, 1, 0x30, 0],
        TypeFault::MemberPlace(17),
    ),
    (
        &[8, 0x73, 0, 4, 47, 13, 1, 0x7f, 0],
        TypeFault::MemberPlace(17),
    ),
    (
        &[8, 0x73, 0, 4, 12, 13, 0, 0, 0, 0, 0, 0],
        TypeFault::BitSize(17, 0),
    ),
    (
        &[8, 0x73, 0, 4, 12, 13, 0, 0, 0, 0x80, 2, 0, 0],
        TypeFault::BitSize(17, 256),
    ),
    (
        &[8, 0x73, 0, 4, 47, 13, 0x7f, 0, 0],
        TypeFault::BitSize(17, -1),
    ),
    (
        &[8, 0x73, 0, 4, 12, 13, 0, 0, 0, 1, 0x80, 0x80, 0x80, 8, 0],
        TypeFault::MemberFar(17, 16_777_216),
    ),
    (
        &[
            8, 0x73, 0, 4, 9, 0x6d, 0, 13, 0, 0, 0, 0x80, 0x80, 0x80, 0x80, 2, 0,
        ],
        TypeFault::MemberFar(17, 4_294_967_296),
    ),
    (
        &[8, 0x73, 0, 4, 63, 13, 0x80, 0x80, 0x80, 0x80, 16, 0],
        TypeFault::MemberFar(17, 4_294_967_296),
    ),
    (
        &[
            8, 0x73, 0, 4, 63, 13, 0x80, 0x80, 0x80, 8, 12, 13, 0, 0, 0, 1, 0, 0,
        ],
        TypeFault::MemberFar(17, 16_777_216),
    ),
];

#[test]
fn members(rt: HostRuntime) -> Result<(), Fail> {
    refuses(&rt, rt.alloc(), MEMBERS)
}

/// Lengths, sizes and values out of range. Too many parts are among the large units.
const RANGES: &[Refused] = &[
    (&[13, 13, 0, 0, 0, 14, 0x7e, 0], TypeFault::ArrayLength(13)),
    (&[13, 13, 0, 0, 0, 66, 0x7e, 0], TypeFault::ArrayLength(13)),
    (
        &[13, 13, 0, 0, 0, 14, 0x80, 0x80, 4, 14, 0x80, 0x80, 4, 0],
        TypeFault::ArrayLength(13),
    ),
    (
        &[13, 13, 0, 0, 0, 14, 0, 14, 0x80, 0x80, 0x80, 0x80, 16, 0],
        TypeFault::ArrayLength(13),
    ),
    (
        &[15, 0x65, 0, 3, 17, 0x41, 0, 0],
        TypeFault::EnumSize(13, 3),
    ),
    (
        &[15, 0x65, 0, 16, 16, 0x41, 0, 0, 0],
        TypeFault::EnumSize(13, 16),
    ),
    (&[15, 0x65, 0, 4, 17, 0x41, 0, 0], TypeFault::EnumValue(17)),
    (
        &[
            15, 0x65, 0, 4, 16, 0x41, 0, 0x7f, 16, 0x42, 0, 0x80, 0x80, 0x80, 0x80, 8, 0,
        ],
        TypeFault::EnumValue(21),
    ),
    (
        &[15, 0x65, 0, 4, 16, 0x41, 0, 0xff, 0xff, 0xff, 0xff, 0x77, 0],
        TypeFault::EnumValue(17),
    ),
    (
        &[15, 0x65, 0, 4, 16, 0x41, 0, 0x80, 0x80, 0x80, 0x80, 16, 0],
        TypeFault::EnumValue(17),
    ),
    (&[5, 0x69, 0, 0x7f], TypeFault::SizeLarge(13, -1)),
    (&[35, 0x73, 0, 0x7f, 0], TypeFault::SizeLarge(13, -1)),
    (
        &[49, 0x69, 0, 0, 0, 0, 0, 1, 0, 0, 0],
        TypeFault::SizeLarge(13, 4_294_967_296),
    ),
];

#[test]
fn ranges(rt: HostRuntime) -> Result<(), Fail> {
    refuses(&rt, rt.alloc(), RANGES)
}

/// Two refusals of one entry: the lower number counts, and of two of one number the one that keeps
/// the lower value. In the first eight the one that counts is found first, in the rest later.
const AT_ONE_ENTRY: &[Refused] = &[
    (&[29], TypeFault::MissingName(13)),
    (&[50, 14, 0x7e, 0], TypeFault::MissingType(13)),
    (
        &[8, 0x73, 0, 4, 12, 13, 0, 0, 0, 0, 0x80, 0x80, 0x80, 8, 0],
        TypeFault::BitSize(17, 0),
    ),
    (
        &[8, 0x73, 0, 4, 61, 13, 1, 0x30, 0, 0],
        TypeFault::MemberPlace(17),
    ),
    (&[8, 0x73, 0, 4, 48, 1, 0x30, 0], TypeFault::MissingType(17)),
    (&[15, 0x65, 0, 4, 51, 0], TypeFault::MissingName(17)),
    (
        &[8, 0x73, 0, 4, 60, 0, 0, 0, 0, 7, 0],
        TypeFault::Form(17, FormFault::AltForm(0x1d)),
    ),
    (
        &[8, 0x73, 0, 4, 46, 0, 0, 0, 0, 9, 0, 0, 0, 0],
        TypeFault::Form(17, FormFault::StringOut(9)),
    ),
    (
        &[38, 0],
        TypeFault::Form(13, FormFault::WrongClass(0x0b, 0x08)),
    ),
    (
        &[52, 7],
        TypeFault::Form(13, FormFault::WrongClass(0x49, 0x0b)),
    ),
    (
        &[8, 0x73, 0, 4, 56, 7, 0, 0, 0, 0, 0],
        TypeFault::Form(17, FormFault::AltForm(0x1c)),
    ),
    (
        &[8, 0x73, 0, 4, 45, 0, 0, 0, 0, 0, 0, 0, 0, 0],
        TypeFault::Form(17, FormFault::AltForm(0x1c)),
    ),
    (
        &[57, 0x69, 0, 4, 0, 0],
        TypeFault::Form(13, FormFault::WrongClass(0x0d, 0x08)),
    ),
    (
        &[8, 0x73, 0, 4, 58, 0, 0],
        TypeFault::Form(17, FormFault::WrongClass(0x38, 0x08)),
    ),
];

#[test]
fn two_at_one_entry(rt: HostRuntime) -> Result<(), Fail> {
    refuses(&rt, rt.alloc(), AT_ONE_ENTRY)
}

/// Refusals of two entries: that of the earlier entry counts, whatever their numbers are and
/// whichever is found first.
const AT_TWO_ENTRIES: &[Refused] = &[
    (&[59, 10, 0x6d, 0, 0], TypeFault::MissingSize(13)),
    (
        &[35, 0x73, 0, 0x7f, 10, 0x6d, 0, 0],
        TypeFault::SizeLarge(13, -1),
    ),
    (&[15, 0x65, 0, 3, 51, 0], TypeFault::EnumSize(13, 3)),
    (
        &[62, 7, 26, 0],
        TypeFault::Form(13, FormFault::WrongClass(0x49, 0x0b)),
    ),
    (
        &[8, 0x73, 0, 4, 59, 0, 10, 0x6d, 0, 0],
        TypeFault::MissingSize(17),
    ),
    (
        &[8, 0x73, 0, 4, 10, 0x6d, 0, 59, 0, 0],
        TypeFault::MissingType(17),
    ),
    (
        &[8, 0x73, 0, 4, 10, 0x6d, 0, 29, 0],
        TypeFault::MissingType(17),
    ),
    (
        &[29, 8, 0x73, 0, 4, 10, 0x6d, 0, 0],
        TypeFault::MissingName(13),
    ),
    (
        &[8, 0x73, 0, 4, 29, 10, 0x6d, 0, 0],
        TypeFault::MissingName(17),
    ),
    (
        &[13, 13, 0, 0, 0, 29, 14, 0x7e, 0],
        TypeFault::ArrayLength(13),
    ),
];

#[test]
fn at_two_entries(rt: HostRuntime) -> Result<(), Fail> {
    refuses(&rt, rt.alloc(), AT_TWO_ENTRIES)
}

/// A fault of the walk comes before every refusal of a type.
const WALKS: &[Refused] = &[
    (&[29, 99], TypeFault::Walk(WalkFault::AbbrevMissing(14, 99))),
    (&[29, 59], TypeFault::Walk(WalkFault::TreeOpen(16))),
    (&[36, 36, 33, 13], TypeFault::Walk(WalkFault::TreeOpen(18))),
    (&[29, 0, 29], TypeFault::Walk(WalkFault::AfterRoot(15))),
];

#[test]
fn walk_first(rt: HostRuntime) -> Result<(), Fail> {
    refuses(&rt, rt.alloc(), WALKS)
}

/// Tables of abbreviations of a unit whose root is a null entry, and the first fault.
const TABLES: &[(&[u8], TypeFault)] = &[
    (
        &[1, 0x24, 2, 0, 0, 0],
        TypeFault::Abbrev(AbbrevFault::ChildrenByte(2, 2)),
    ),
    (
        &[1, 0x24, 0],
        TypeFault::Abbrev(AbbrevFault::AbbrevTruncated(0)),
    ),
    (
        &[1, 0x24, 0, 0, 0, 0],
        TypeFault::Walk(WalkFault::UnitRoot(12, 0)),
    ),
];

/// A fault of the abbreviations comes before one of the root.
#[test]
fn abbreviations_first(rt: HostRuntime) -> Result<(), Fail> {
    let info = info_of(rt.alloc(), &[&[0]])?;
    for &(table, fault) in TABLES {
        let file = plain_file(rt.alloc(), &info, table)?;
        let found = lines_in(rt.alloc(), file.as_slice(), false)?;
        assert!(rt;
            is_wanted(&found, Err(fault)),
            "{table:?}: {found:?}, no {fault:?}"
        );
    }
    Ok(())
}

/// Entries behind the root, and the lines of their types.
const ACCEPTED: &[(&[u8], &[&str])] = &[
    (
        &[
            8, 0x73, 0, 8, 12, 13, 0, 0, 0, 0xff, 1, 0xff, 0xff, 0xff, 7, 0,
        ],
        &["13 4 s true 8 0 -=4294967295 17:13"],
    ),
    (
        &[8, 0x73, 0, 8, 63, 13, 0xff, 0xff, 0xff, 0xff, 15, 0],
        &["13 4 s false 8 0 -=4294967295 17:13"],
    ),
    (
        &[13, 13, 0, 0, 0, 14, 0xff, 0xff, 0xff, 0xff, 15, 0],
        &["13 3 - false 0 4294967295 13:13 index"],
    ),
    (
        &[13, 13, 0, 0, 0, 64, 0xfe, 0xff, 0xff, 0xff, 0],
        &["13 3 - false 0 4294967295 13:13 index"],
    ),
    (
        &[13, 13, 0, 0, 0, 64, 0xff, 0xff, 0xff, 0xff, 0],
        &["13 3 - false 0 0 13:13 index"],
    ),
    (
        &[49, 0x78, 0, 0xff, 0xff, 0xff, 0xff, 0, 0, 0, 0],
        &["13 4 x false 4294967295 0"],
    ),
    (
        &[15, 0x65, 0, 1, 16, 0x41, 0, 0, 0],
        &["13 6 e false 1 0 A=0"],
    ),
    (
        &[15, 0x65, 0, 2, 16, 0x41, 0, 0, 0],
        &["13 6 e false 2 0 A=0"],
    ),
    (
        &[15, 0x65, 0, 8, 16, 0x41, 0, 0, 0],
        &["13 19 e false 8 0 A=0"],
    ),
    (
        &[
            15, 0x65, 0, 4, 16, 0x41, 0, 0x80, 0x80, 0x80, 0x80, 0x78, 16, 0x42, 0, 0xff, 0xff,
            0xff, 0xff, 7, 0,
        ],
        &["13 6 e true 4 0 A=2147483648 B=2147483647"],
    ),
    (
        &[15, 0x65, 0, 4, 16, 0x41, 0, 0xff, 0xff, 0xff, 0xff, 15, 0],
        &["13 6 e false 4 0 A=4294967295"],
    ),
];

/// The last bit size and bits, lengths, sizes and values that are accepted, and bounds that are
/// none.
#[test]
fn last_accepted(rt: HostRuntime) -> Result<(), Fail> {
    for &(entries, wanted) in ACCEPTED {
        compare(&rt, rt.alloc(), entries, wanted)?;
    }
    Ok(())
}
