//! Entries of units by hand, of damaged ones, of a deep one, and of one that gcc wrote.
ghost use Rattle.elf_sections.specs.Images.{file_of as bytes_of};
ghost use Rattle.entry_tree.specs.Contexts.{IsUnitOf};

use dw_base::Order;
use dwarf_abbrev::{AbbrevFault, Abbrevs};
use dwarf_forms::{FormCtx, FormFault, name_of};
use elf_sections::{Image, Kind};
use entry_tree::{Entry, RootInfo, Unit, UnitFault, Walk, WalkFault, context, root, units};
use small_files::bytes::{Sections, UnitHeader, file_of, info_of, plain_file, put_all, put_header};
use std::alloc::{AllocError, Global};
use std::process::Abort;
use std::test::Fail;

const REAL_INFO: [u8; 342] =
    *b"\x52\x01\x00\x00\x05\x00\x01\x08\x00\x00\x00\x00\x05\x1a\x00\x00\x00\x1d\x0a\x00\x00\x00\x00\x00\
      \x00\x00\x0c\x01\x40\x00\x00\x00\x00\x00\x11\x00\x00\x00\x00\x00\x00\x00\x00\x00\x00\x00\x06\xa8\
      \x00\x00\x00\x18\x01\x01\x08\x6b\x00\x00\x00\x02\x76\x00\x00\x00\x1c\x6b\x00\x00\x00\x00\x02\x00\
      \x00\x00\x00\x2e\x70\x00\x00\x00\x08\x07\x7b\x00\x00\x00\x01\x01\x3d\x81\x00\x00\x00\x03\x80\x02\
      \x0e\x00\x00\x00\x4b\x88\x00\x00\x00\x14\x00\x03\x2e\x00\x00\x00\x03\x7c\x00\x00\x00\x01\x01\x06\
      \x9d\x00\x00\x00\x08\x75\x00\x00\x00\x01\x04\x07\x90\x00\x00\x00\x09\x9e\x00\x00\x00\x97\x00\x00\
      \x00\x0a\x97\x00\x00\x00\x00\x01\x08\x07\x8b\x00\x00\x00\x0b\x04\x05\x69\x6e\x74\x00\x0c\x6a\x00\
      \x00\x00\x05\x04\x9e\x00\x00\x00\x01\x02\x06\xc4\x00\x00\x00\x0d\x52\x45\x44\x00\x7f\x0e\x80\x00\
      \x00\x00\x02\x00\x0f\x13\x00\x00\x00\x08\x01\x03\x07\xe6\x00\x00\x00\x04\x70\x00\x00\x00\x15\xe6\
      \x00\x00\x00\x04\x6a\x00\x00\x00\x27\xa5\x00\x00\x00\x00\x01\x08\x05\x05\x00\x00\x00\x10\x9e\x00\
      \x00\x00\xfd\x00\x00\x00\x11\x6b\x00\x00\x00\x12\x00\x13\xad\x00\x00\x00\x01\x04\x0e\x09\x01\x00\
      \x00\x03\xed\x00\x00\x00\x14\xa2\x00\x00\x00\x01\x05\x0e\xc4\x00\x00\x00\x09\x03\x00\x10\x40\x00\
      \x00\x00\x00\x00\x15\x86\x00\x00\x00\x01\x06\x05\x9e\x00\x00\x00\x0c\x01\x40\x00\x00\x00\x00\x00\
      \x11\x00\x00\x00\x00\x00\x00\x00\x01\x9c\x16\x6e\x00\x01\x06\x17\x6b\x00\x00\x00\x10\x00\x00\x00\
      \x0c\x00\x00\x00\x00\x00";

const REAL_ABBREV: [u8; 307] =
    *b"\x01\x24\x00\x0b\x0b\x3e\x0b\x03\x0e\x00\x00\x02\x0d\x00\x03\x0e\x3a\x21\x01\x3b\x21\x01\x39\x0b\
      \x49\x13\x38\x0b\x00\x00\x03\x0f\x00\x0b\x21\x08\x49\x13\x00\x00\x04\x0d\x00\x03\x0e\x3a\x21\x01\
      \x3b\x21\x03\x39\x0b\x49\x13\x00\x00\x05\x11\x01\x25\x0e\x13\x0b\x03\x1f\x1b\x1f\x11\x01\x12\x07\
      \x10\x17\x00\x00\x06\x13\x01\x03\x0e\x0b\x0b\x3a\x0b\x3b\x0b\x39\x0b\x01\x13\x00\x00\x07\x0d\x00\
      \x03\x0e\x3a\x0b\x3b\x0b\x39\x0b\x49\x13\x0d\x0b\x6b\x0b\x00\x00\x08\x26\x00\x49\x13\x00\x00\x09\
      \x01\x01\x49\x13\x01\x13\x00\x00\x0a\x21\x00\x49\x13\x00\x00\x0b\x24\x00\x0b\x0b\x3e\x0b\x03\x08\
      \x00\x00\x0c\x04\x01\x03\x0e\x3e\x0b\x0b\x0b\x49\x13\x3a\x0b\x3b\x0b\x39\x0b\x01\x13\x00\x00\x0d\
      \x28\x00\x03\x08\x1c\x0d\x00\x00\x0e\x28\x00\x03\x0e\x1c\x0b\x00\x00\x0f\x17\x01\x03\x0e\x0b\x0b\
      \x3a\x0b\x3b\x0b\x39\x0b\x01\x13\x00\x00\x10\x15\x01\x27\x19\x49\x13\x01\x13\x00\x00\x11\x05\x00\
      \x49\x13\x00\x00\x12\x18\x00\x00\x00\x13\x34\x00\x03\x0e\x3a\x0b\x3b\x0b\x39\x0b\x49\x13\x00\x00\
      \x14\x34\x00\x03\x0e\x3a\x0b\x3b\x0b\x39\x0b\x49\x13\x3f\x19\x02\x18\x00\x00\x15\x2e\x01\x3f\x19\
      \x03\x0e\x3a\x0b\x3b\x0b\x39\x0b\x27\x19\x49\x13\x11\x01\x12\x07\x40\x18\x7a\x19\x00\x00\x16\x05\
      \x00\x03\x08\x3a\x0b\x3b\x0b\x39\x0b\x49\x13\x02\x17\xb7\x42\x17\x00\x00\x00";

const REAL_STR: [u8; 179] =
    *b"\x6e\x61\x6d\x65\x00\x6c\x6f\x6e\x67\x20\x69\x6e\x74\x00\x6d\x6f\x72\x65\x00\x65\x69\x74\x68\x65\
      \x72\x00\x47\x4e\x55\x20\x43\x31\x37\x20\x31\x32\x2e\x32\x2e\x30\x20\x2d\x6d\x74\x75\x6e\x65\x3d\
      \x67\x65\x6e\x65\x72\x69\x63\x20\x2d\x6d\x61\x72\x63\x68\x3d\x78\x38\x36\x2d\x36\x34\x20\x2d\x67\
      \x20\x2d\x4f\x73\x20\x2d\x66\x61\x73\x79\x6e\x63\x68\x72\x6f\x6e\x6f\x75\x73\x2d\x75\x6e\x77\x69\
      \x6e\x64\x2d\x74\x61\x62\x6c\x65\x73\x00\x63\x6f\x6c\x6f\x72\x00\x77\x68\x6f\x6c\x65\x00\x6e\x65\
      \x78\x74\x00\x6b\x69\x6e\x64\x00\x47\x52\x45\x45\x4e\x00\x77\x61\x6c\x6b\x00\x6c\x6f\x6e\x67\x20\
      \x75\x6e\x73\x69\x67\x6e\x65\x64\x20\x69\x6e\x74\x00\x63\x68\x61\x72\x00\x66\x69\x72\x73\x74\x00\
      \x6e\x6f\x64\x65\x00\x76\x69\x73\x69\x74\x00";

const REAL_LINE_STR: [u8; 14] = *b"\x2f\x74\x6d\x70\x2f\x72\x65\x61\x6c\x00\x75\x2e\x63\x00";

/// An entry: its offset, depth, tag and name.
type NamedEntry = (u64, u32, u64, &'static str);

/// The entries of that unit as `readelf --debug-dump=info` lists them.
const REAL_ENTRIES: [NamedEntry; 30] = [
    (12, 0, 0x11, "u.c"),
    (46, 1, 0x13, "node"),
    (59, 2, 0xd, "next"),
    (70, 2, 0xd, "name"),
    (81, 2, 0xd, "kind"),
    (95, 2, 0xd, "more"),
    (107, 1, 0xf, ""),
    (112, 1, 0xf, ""),
    (117, 1, 0x24, "char"),
    (124, 1, 0x26, ""),
    (129, 1, 0x24, "unsigned int"),
    (136, 1, 0x1, ""),
    (145, 2, 0x21, ""),
    (151, 1, 0x24, "long unsigned int"),
    (158, 1, 0x24, "int"),
    (165, 1, 0x4, "color"),
    (183, 2, 0x28, "RED"),
    (189, 2, 0x28, "GREEN"),
    (196, 1, 0x17, "either"),
    (209, 2, 0xd, "whole"),
    (219, 2, 0xd, "color"),
    (230, 1, 0x24, "long int"),
    (237, 1, 0x15, ""),
    (246, 2, 0x5, ""),
    (251, 2, 0x18, ""),
    (253, 1, 0x34, "visit"),
    (265, 1, 0xf, ""),
    (270, 1, 0x34, "first"),
    (292, 1, 0x2e, "walk"),
    (322, 2, 0x5, "n"),
];

/// A value of an entry: the entry's offset, the attribute, its form, and the value.
type Valued = (u64, u64, u64, &'static str);

/// Values of that unit as the same listing has them, of each form that it uses.
const REAL_VALUES: &[Valued] = &[
    (12, 0x25, 0x0e, "Strp(26)"),
    (12, 0x13, 0x0b, "Unsigned(29)"),
    (12, 0x1b, 0x1f, "LineStrp(0)"),
    (12, 0x11, 0x01, "Address(4194572)"),
    (12, 0x12, 0x07, "Unsigned(17)"),
    (12, 0x10, 0x17, "SecOffset(0)"),
    (46, 0x01, 0x13, "UnitRef(107)"),
    (59, 0x3a, 0x21, "Signed(1)"),
    (81, 0x6b, 0x0b, "Unsigned(128)"),
    (
        158,
        0x03,
        0x08,
        "Text(Name { bytes: [105, 110, 116], digest: 0 })",
    ),
    (183, 0x1c, 0x0d, "Signed(-1)"),
    (189, 0x1c, 0x0b, "Unsigned(2)"),
    (270, 0x3f, 0x19, "Flag(true)"),
    (270, 0x02, 0x18, "Expr([3, 0, 16, 64, 0, 0, 0, 0, 0])"),
    (292, 0x40, 0x18, "Expr([156])"),
    (322, 0x02, 0x17, "SecOffset(16)"),
    (322, 0x2137, 0x17, "SecOffset(12)"),
];

/// One unit with a base type `int`, and its abbreviations.
const PLAIN_INFO: [u8; 22] = [
    18, 0, 0, 0, 5, 0, 1, 8, 0, 0, 0, 0, 1, 29, 2, 105, 110, 116, 0, 4, 5, 0,
];

const PLAIN_ABBREV: [u8; 19] = [
    1, 17, 1, 19, 11, 0, 0, 2, 36, 0, 3, 8, 11, 11, 62, 11, 0, 0, 0,
];

/// A file of the unit of gcc.
fn real_file(alloc: Global) -> Result<Vec<u8>, AllocError> {
    let sections = Sections {
        info: &REAL_INFO,
        abbrev: &REAL_ABBREV,
        text: &REAL_STR,
        line_text: &REAL_LINE_STR,
    };
    file_of(alloc, Order::Little, sections)
}

/// Why a file's first unit can't be walked whole.
#[derive(Clone, Copy, Debug, PartialEq, Eq)]
enum Outcome {
    NoImage,
    NoUnit,
    Header(UnitFault),
    Table(AbbrevFault),
    Tree(WalkFault),
    Untold,
}

/// What is told of each entry besides its place.
#[derive(Clone, Copy)]
enum AskedOf {
    Nothing,
    /// Its name, empty where it has none.
    Name,
    /// The form and the value of an attribute.
    Value(u64),
    /// Whether it has a name and a size, its first size, and its value.
    Attributes,
}

/// An entry: its offset, depth and tag, and what is told of it.
#[derive(Drop)]
struct ToldEntry {
    at: u64,
    depth: u32,
    tag: u64,
    text: String,
}

/// The name of an entry.
fn name_text(alloc: Global, ctx: &FormCtx<'_>, entry: &Entry<'_, '_>) -> Option<String> {
    let mut text = String::new(alloc);
    if let Some(given) = entry.attr(3).ok()? {
        for byte in name_of(ctx, 3, &given).ok()?.bytes() {
            text.push(char::from(*byte)).ok()?;
        }
    }
    Some(text)
}

/// The form and the value of an attribute of an entry; nothing where it has none.
fn value_text(alloc: Global, entry: &Entry<'_, '_>, attribute: u64) -> Option<String> {
    match entry.attr(attribute).ok()? {
        Some(given) => format!(in alloc; "{} {:?}", given.form, given.value).ok(),
        None => Some(String::new(alloc)),
    }
}

/// Whether an entry has a name and a size, its first size, and its value.
fn attributes_text(alloc: Global, entry: &Entry<'_, '_>) -> Option<String> {
    let (name, size) = (entry.has(3), entry.has(0x0b));
    let first = entry.attr(0x0b).ok()?;
    let value = entry.attr(0x1c).ok()?;
    format!(in alloc; "{name} {size} {first:?} {value:?}").ok()
}

/// What is asked of an entry.
fn text_of(
    alloc: Global,
    ctx: &FormCtx<'_>,
    entry: &Entry<'_, '_>,
    asked: AskedOf,
) -> Option<String> {
    match asked {
        AskedOf::Nothing => Some(String::new(alloc)),
        AskedOf::Name => name_text(alloc, ctx, entry),
        AskedOf::Value(attribute) => value_text(alloc, entry, attribute),
        AskedOf::Attributes => attributes_text(alloc, entry),
    }
}

/// Puts an entry behind others, if it can be told.
fn push_told(
    entries: &mut Vec<ToldEntry>,
    alloc: Global,
    ctx: &FormCtx<'_>,
    entry: &Entry<'_, '_>,
    asked: AskedOf,
) -> Option<()> {
    let text = text_of(alloc, ctx, entry, asked)?;
    let (at, depth, tag) = (entry.at, entry.depth, entry.tag);
    entries
        .push(ToldEntry {
            at,
            depth,
            tag,
            text,
        })
        .ok()
}

/// A fault, if the walk tells it again.
fn told_again(walk: &mut Walk<'_, '_>, fault: WalkFault) -> Outcome {
    match walk.next() {
        Err(again) if again == fault => Outcome::Tree(fault),
        _ => Outcome::Untold,
    }
}

/// The entries of a walk over at most so many.
fn entries_of(
    alloc: Global,
    ctx: &FormCtx<'_>,
    walk: &mut Walk<'_, '_>,
    most: u64,
    asked: AskedOf,
) -> Result<Vec<ToldEntry>, Outcome> {
    let mut entries = Vec::new(alloc);
    for _ in 0..=most {
        match walk.next() {
            Ok(None) => return Ok(entries),
            Ok(Some(entry)) => {
                if push_told(&mut entries, alloc, ctx, &entry, asked).is_none() {
                    return Err(Outcome::Untold);
                }
            }
            Err(fault) => return Err(told_again(walk, fault)),
        }
    }
    Err(Outcome::NoUnit)
}

/// What the root of a unit says, and the unit's entries.
type Walked = (RootInfo, Vec<ToldEntry>);

/// The root and the entries of a unit.
fn walked_unit(
    alloc: Global,
    image: &Image<'_>,
    unit: &Unit,
    asked: AskedOf,
) -> Result<Walked, Outcome>
    requires { IsUnitOf (bytes_of image.now) unit.now }
{
    let table = image.section(Kind::Abbrev).unwrap_or(&[]);
    let abbrevs = match Abbrevs::read(alloc, table, unit.abbrev_at) {
        Ok(abbrevs) => abbrevs,
        Err(fault) => return Err(Outcome::Table(fault)),
    };
    let first = match root(image, unit, &abbrevs) {
        Ok(first) => first,
        Err(fault) => return Err(Outcome::Tree(fault)),
    };
    if unit.end.saturating_sub(unit.at) >= 1 << 32 {
        return Err(Outcome::NoUnit);
    }
    let ctx = context(image, unit, first.str_base);
    let mut walk = Walk::new(unit, &abbrevs, &ctx);
    match entries_of(alloc, &ctx, &mut walk, unit.end, asked) {
        Ok(entries) => Ok((first, entries)),
        Err(outcome) => Err(outcome),
    }
}

/// The root and the entries of the only unit of a file.
fn walked(alloc: Global, file: &[u8], asked: AskedOf) -> Result<Walked, Outcome> {
    let Ok(image) = Image::read(file) else {
        return Err(Outcome::NoImage);
    };
    let list = match units(alloc, &image) {
        Ok(list) => list,
        Err(fault) => return Err(Outcome::Header(fault)),
    };
    if list.items().len() != 1 {
        return Err(Outcome::NoUnit);
    }
    walked_unit(alloc, &image, &list.items()[0], asked)
}

/// The entries are these.
fn check_entries(rt: &impl Abort, found: &[ToldEntry], wanted: &[NamedEntry]) {
    assert_eq!(rt; found.len(), wanted.len());
    for (one, want) in found.iter().zip(wanted) {
        assert_eq!(rt; (one.at, one.depth, one.tag, one.text.as_str()), *want);
    }
}

/// The entries of a file are these, where nothing is asked of them.
fn check_walk(
    rt: &impl Abort,
    alloc: Global,
    file: &[u8],
    wanted: &[NamedEntry],
) -> Result<(), Outcome> {
    let (_, entries) = walked(alloc, file, AskedOf::Nothing)?;
    check_entries(rt, &entries, wanted);
    Ok(())
}

/// A file of these entries and abbreviations is refused.
fn check_refused(
    rt: &impl Abort,
    alloc: Global,
    info: &[u8],
    abbrev: &[u8],
    want: Outcome,
) -> Result<(), AllocError> {
    let file = plain_file(alloc, info, abbrev)?;
    assert_eq!(rt; walked(alloc, &file, AskedOf::Nothing).err(), Some(want));
    Ok(())
}

/// Bytes, one of which is changed.
fn damaged(alloc: Global, whole: &[u8], at: usize, byte: u8) -> Result<Vec<u8>, AllocError> {
    let mut bytes = Vec::from_slice(alloc, whole)?;
    if at < bytes.len() {
        bytes[at] = byte;
    }
    Ok(bytes)
}

/// A byte of the plain unit that is changed, what it becomes, and the fault.
const DAMAGED_INFO: &[(usize, u8, Outcome)] = &[
    (0, 19, Outcome::Header(UnitFault::UnitLength(0))),
    (4, 3, Outcome::Header(UnitFault::UnitVersion(0, 3))),
    (4, 4, Outcome::Header(UnitFault::AddressSize(0, 0))),
    (6, 2, Outcome::Header(UnitFault::UnitType(0, 2))),
    (7, 2, Outcome::Header(UnitFault::AddressSize(0, 2))),
    (0, 7, Outcome::Header(UnitFault::UnitLength(0))),
    (0, 1, Outcome::Header(UnitFault::UnitLength(0))),
    (8, 19, Outcome::Table(AbbrevFault::AbbrevTruncated(19))),
    (12, 2, Outcome::Tree(WalkFault::UnitRoot(12, 36))),
    (12, 0, Outcome::Tree(WalkFault::UnitRoot(12, 0))),
    (12, 3, Outcome::Tree(WalkFault::AbbrevMissing(12, 3))),
    (14, 3, Outcome::Tree(WalkFault::AbbrevMissing(14, 3))),
    (
        21,
        2,
        Outcome::Tree(WalkFault::Form(21, FormFault::ValueTruncated(3))),
    ),
    (
        21,
        0x80,
        Outcome::Tree(WalkFault::Form(21, FormFault::ValueTruncated(0))),
    ),
];

/// One byte of the plain unit is changed.
#[test]
fn damaged_units(rt: HostRuntime) -> Result<(), Fail> {
    for &(at, byte, want) in DAMAGED_INFO {
        let info = damaged(rt.alloc(), &PLAIN_INFO, at, byte)?;
        check_refused(&rt, rt.alloc(), &info, &PLAIN_ABBREV, want)?;
    }
    Ok(())
}

/// The same of the abbreviations.
const DAMAGED_ABBREV: &[(usize, u8, Outcome)] = &[
    (
        11,
        0x7f,
        Outcome::Tree(WalkFault::Form(14, FormFault::FormUnknown(127))),
    ),
    (11, 0x0b, Outcome::Tree(WalkFault::AfterRoot(19))),
    (
        4,
        0x18,
        Outcome::Tree(WalkFault::Form(12, FormFault::ValueTruncated(0x13))),
    ),
    (
        4,
        0x17,
        Outcome::Tree(WalkFault::Form(12, FormFault::WrongClass(0x13, 0x17))),
    ),
];

/// One byte of the plain unit's abbreviations is changed.
#[test]
fn damaged_abbreviations(rt: HostRuntime) -> Result<(), Fail> {
    for &(at, byte, want) in DAMAGED_ABBREV {
        let abbrev = damaged(rt.alloc(), &PLAIN_ABBREV, at, byte)?;
        check_refused(&rt, rt.alloc(), &PLAIN_INFO, &abbrev, want)?;
    }
    Ok(())
}

/// Units of a root and one entry, and where the root stands: of a length of 8 bytes, with padded
/// nulls, also behind the root's end, and of version 4.
const BY_HAND: &[(&[u8], u64)] = &[
    (
        b"\xff\xff\xff\xff\x17\0\0\0\0\0\0\0\x05\0\x03\x08\0\0\0\0\0\0\0\0\x01\x1d\x02int\0\x04\x05\x80\0",
        24,
    ),
    (
        b"\x17\0\0\0\x05\0\x01\x08\0\0\0\0\x01\x1d\x02int\0\x04\x05\x80\0\0\x80\x80\0",
        12,
    ),
    (
        b"\x11\0\0\0\x04\0\0\0\0\0\x08\x01\x1d\x02int\0\x04\x05\0",
        11,
    ),
];

/// Headers of 8-byte lengths, padded nulls, also behind the root's end.
#[test]
fn units_by_hand(rt: HostRuntime) -> Result<(), Fail> {
    for &(info, first) in BY_HAND {
        let file = plain_file(rt.alloc(), info, &PLAIN_ABBREV)?;
        let wanted = [(first, 0, 0x11, ""), (first + 2, 1, 0x24, "")];
        check_walk(&rt, rt.alloc(), &file, &wanted)?;
    }
    Ok(())
}

/// A unit with a list left open, none, and what is cut off in its length.
const NO_UNITS: &[(&[u8], Outcome)] = &[
    (
        b"\x11\0\0\0\x05\0\x01\x08\0\0\0\0\x01\x1d\x02int\0\x04\x05",
        Outcome::Tree(WalkFault::TreeOpen(21)),
    ),
    (&[], Outcome::NoUnit),
    (b"\0\0\0", Outcome::Header(UnitFault::UnitLength(0))),
    (
        b"\xf0\xff\xff\xff\0\0\0\0",
        Outcome::Header(UnitFault::UnitLength(0)),
    ),
];

/// Lists left open, and no unit at all.
#[test]
fn no_units(rt: HostRuntime) -> Result<(), Fail> {
    for &(info, want) in NO_UNITS {
        check_refused(&rt, rt.alloc(), info, &PLAIN_ABBREV, want)?;
    }
    Ok(())
}

/// A root over so many nested blocks.
fn nested_unit(alloc: Global, blocks: u32) -> Result<Vec<u8>, AllocError> {
    let mut entries = Vec::from_slice(alloc, &[1])?;
    for _ in 0..blocks {
        entries.push(2)?;
    }
    for _ in 0..=blocks {
        entries.push(0)?;
    }
    info_of(alloc, &[&entries])
}

/// A root over 100,000 nested blocks.
#[test]
fn deep_nesting(rt: HostRuntime) -> Result<(), Fail> {
    let info = nested_unit(rt.alloc(), 100_000)?;
    let file = plain_file(rt.alloc(), &info, b"\x01\x11\x01\0\0\x02\x0b\x01\0\0\0")?;
    let mut wanted = Vec::from_slice(rt.alloc(), &[(12, 0, 0x11, "")])?;
    for depth in 1..=100_000u32 {
        wanted.push((12 + u64::from(depth), depth, 0x0b, ""))?;
    }
    check_walk(&rt, rt.alloc(), &file, &wanted)?;
    Ok(())
}

/// The entries of a unit of gcc, against readelf's listing.
#[test]
fn a_real_unit(rt: HostRuntime) -> Result<(), Fail> {
    let file = real_file(rt.alloc())?;
    let (first, entries) = walked(rt.alloc(), &file, AskedOf::Name)?;
    assert_eq!(rt; (first.language, first.str_base), (Some(29), 8));
    check_entries(&rt, &entries, &REAL_ENTRIES);
    Ok(())
}

/// What is told of the entry at an offset.
fn text_at(entries: &[ToldEntry], at: u64) -> &str {
    for one in entries {
        if one.at == at {
            return one.text.as_str();
        }
    }
    ""
}

/// Values of the entries of a unit of gcc, one or more of each form.
#[test]
fn the_values_of_a_real_unit(rt: HostRuntime) -> Result<(), Fail> {
    let file = real_file(rt.alloc())?;
    for (at, attribute, form, text) in REAL_VALUES {
        let (_, entries) = walked(rt.alloc(), &file, AskedOf::Value(*attribute))?;
        let wanted = format!(in rt.alloc(); "{form} {text}")?;
        assert_eq!(rt; text_at(&entries, *at), wanted.as_str());
    }
    Ok(())
}

/// A root; strp, addr, data2, flag_present and implicit_const; two attributes of one name, without
/// bytes.
const SIZED_ABBREV: &[u8] =
    b"\x01\x11\x01\x13\x0b\0\0\x02\x34\0\x03\x0e\x02\x01\x0b\x05\x3c\x19\x1c\x21\x7e\0\0\x03\x34\0\x0b\x21\x05\x0b\x21\x06\0\0\0";

/// The entries of a unit with offsets and addresses of these bytes.
fn put_sized(
    entries: &mut Vec<u8>,
    offset_bytes: u32,
    address_bytes: u32,
) -> Result<(), AllocError> {
    let numbers = [
        (1, 1),
        (29, 1),
        (2, 1),
        (0, 2),
        (0, offset_bytes),
        (0, address_bytes),
        (2, 1),
        (0, 2),
        (0, offset_bytes),
        (0, address_bytes),
        (3, 1),
        (0, 1),
    ];
    put_all(entries, Order::Little, &numbers)
}

/// A file of a unit with offsets and addresses of these bytes, of whose entries so many bytes are
/// kept.
fn sized_file(
    alloc: Global,
    offset_bytes: u32,
    address_bytes: u8,
    kept: usize,
) -> Result<Vec<u8>, AllocError> {
    let mut entries = Vec::new(alloc);
    put_sized(&mut entries, offset_bytes, u32::from(address_bytes))?;
    let end = kept.min(entries.len());
    let header = UnitHeader {
        version: 5,
        offset_bytes,
        unit_type: 1,
        address_size: address_bytes,
        size: (end as u64)
            .wrapping_add(4)
            .wrapping_add(u64::from(offset_bytes)),
        abbrev_at: 0,
    };
    let mut info = Vec::new(alloc);
    put_header(&mut info, Order::Little, header)?;
    info.extend_from_slice(&entries[..end])?;
    plain_file(alloc, &info, SIZED_ABBREV)
}

/// Bytes of offsets and of addresses, and where the entries stand.
const SIZED: &[(u32, u8, [u64; 4])] = &[
    (4, 4, [12, 14, 25, 36]),
    (4, 8, [12, 14, 29, 44]),
    (8, 4, [24, 26, 41, 56]),
    (8, 8, [24, 26, 45, 64]),
];

/// Entries of fixed size, with offsets and addresses of 4 and 8 bytes.
#[test]
fn entries_of_fixed_size(rt: HostRuntime) -> Result<(), Fail> {
    for &(offset_bytes, address_bytes, [first, second, third, fourth]) in SIZED {
        let file = sized_file(rt.alloc(), offset_bytes, address_bytes, 1000)?;
        let wanted = [
            (first, 0, 0x11, ""),
            (second, 1, 0x34, ""),
            (third, 1, 0x34, ""),
            (fourth, 1, 0x34, ""),
        ];
        check_walk(&rt, rt.alloc(), &file, &wanted)?;
    }
    Ok(())
}

/// How many bytes of the entries are kept, and the fault.
const CUT: &[(usize, WalkFault)] = &[
    (18, WalkFault::Form(29, FormFault::ValueTruncated(3))),
    (21, WalkFault::Form(29, FormFault::ValueTruncated(3))),
    (22, WalkFault::Form(29, FormFault::ValueTruncated(2))),
    (29, WalkFault::Form(29, FormFault::ValueTruncated(2))),
    (31, WalkFault::Form(29, FormFault::ValueTruncated(0x0b))),
    (32, WalkFault::TreeOpen(44)),
    (33, WalkFault::TreeOpen(45)),
];

/// An entry of fixed size that is cut in each of its values.
#[test]
fn entries_cut_off(rt: HostRuntime) -> Result<(), Fail> {
    for &(kept, want) in CUT {
        let file = sized_file(rt.alloc(), 4, 8, kept)?;
        let found = walked(rt.alloc(), &file, AskedOf::Nothing).err();
        assert_eq!(rt; found, Some(Outcome::Tree(want)), "{kept} bytes");
    }
    Ok(())
}

/// Entries, and whether they have a name and a size, their first size, and their value.
const ATTRIBUTES: &[(usize, &str)] = &[
    (0, "false false None None"),
    (
        1,
        "true true Some(Given { form: 5, value: Unsigned(0) }) Some(Given { form: 33, value: Signed(-2) })",
    ),
    (
        3,
        "false true Some(Given { form: 33, value: Signed(5) }) None",
    ),
];

/// The first of two attributes of one name counts; a value can stand in the abbreviation.
#[test]
fn first_attributes(rt: HostRuntime) -> Result<(), Fail> {
    let file = sized_file(rt.alloc(), 4, 8, 1000)?;
    let (_, entries) = walked(rt.alloc(), &file, AskedOf::Attributes)?;
    for &(index, text) in ATTRIBUTES {
        let found = entries.get(index).map_or("", |one| one.text.as_str());
        assert_eq!(rt; found, text);
    }
    Ok(())
}
