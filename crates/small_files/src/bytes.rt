//! Numbers, headers of units, and ELF files of a few sections, in bytes.
ghost use Rattle.std.specs.Prelude.{◌≡◌, ◌++◌, [], OnOk, IfOk};
ghost use Rattle.std.specs.List.{flat_map};
ghost use Rattle.small_files.specs.Bytes.{number_bytes, all_bytes, header_bytes, unit_bytes};
ghost use Rattle.small_files.specs.Bytes.{length_bytes, kind_bytes, section_bytes, start_bytes};
ghost use Rattle.small_files.specs.Bytes.{headers_from, optional_of, file_bytes};
ghost use Rattle.small_files.specs.declared.bytes.TheConstants.{INFO_AT};
ghost use Rattle.dw_base.specs.declared.numbers.Order.TheVariants.{Little};

use dw_base::Order;
use std::alloc::{AllocError, Global};
use std::marker::Model;

/// Puts the lowest bytes of a number, so many, at most eight.
#[tactic(auto, unfolding(crate::specs::Bytes::number_bytes))]
pub fn put(bytes: &mut Vec<u8>, order: Order, number: u64, width: u32) -> Result<(), AllocError>
    ensures { OnOk result (bytes.new.items ≡ bytes.old.items ++ number_bytes order number width) }
{
    let width = width as usize;
    match order {
        Order::Little => bytes.extend_from_slice(&number.to_le_bytes()[..8.min(width)]),
        Order::Big => bytes.extend_from_slice(
            &number.to_be_bytes()[8usize.saturating_sub(width)..],
        ),
    }
}

/// Puts numbers, each with how many bytes it has.
pub fn put_all(bytes: &mut Vec<u8>, order: Order, numbers: &[(u64, u32)]) -> Result<(), AllocError>
    ensures { OnOk result (bytes.new.items ≡ bytes.old.items ++ all_bytes order numbers.now) }
{
    for (number, width) in numbers {
        put(bytes, order, *number, *width)?;
    }
    Ok(())
}

/// What the header of a unit says.
#[derive(Clone, Copy)]
pub struct UnitHeader {
    pub version: u16,
    pub offset_bytes: u32,
    pub unit_type: u8,
    pub address_size: u8,
    /// How many bytes of it and behind it its length counts.
    pub size: u64,
    /// The offset of the abbreviations.
    pub abbrev_at: u64,
}

/// Puts the length of a unit.
fn put_length(bytes: &mut Vec<u8>, order: Order, header: &UnitHeader) -> Result<(), AllocError>
    ensures { OnOk result (bytes.new.items ≡ bytes.old.items ++ length_bytes order header.now) }
{
    if header.offset_bytes == 8 {
        put(bytes, order, 0xffff_ffff, 4)?;
    }
    put(bytes, order, header.size, header.offset_bytes)
}

/// Puts the fields behind the version.
fn put_kind(bytes: &mut Vec<u8>, order: Order, header: &UnitHeader) -> Result<(), AllocError>
    ensures { OnOk result (bytes.new.items ≡ bytes.old.items ++ kind_bytes order header.now) }
{
    if header.version == 4 {
        put(bytes, order, header.abbrev_at, header.offset_bytes)?;
        bytes.push(header.address_size)?;
        Ok(())
    } else {
        bytes.push(header.unit_type)?;
        bytes.push(header.address_size)?;
        put(bytes, order, header.abbrev_at, header.offset_bytes)
    }
}

/// Puts a header by the order of its fields in its version (DWARF 4 and 5, section 7.5.1.1).
#[tactic(auto, unfolding(crate::specs::Bytes::header_bytes))]
pub fn put_header(bytes: &mut Vec<u8>, order: Order, header: UnitHeader) -> Result<(), AllocError>
    ensures { OnOk result (bytes.new.items ≡ bytes.old.items ++ header_bytes order header) }
{
    put_length(bytes, order, &header)?;
    put(bytes, order, u64::from(header.version), 2)?;
    put_kind(bytes, order, &header)
}

/// Puts a unit of this version and these entries, with offsets of 4 bytes, whose abbreviations
/// stand at this offset.
#[tactic(auto, unfolding(crate::specs::Bytes::unit_bytes))]
pub fn put_unit(
    bytes: &mut Vec<u8>,
    order: Order,
    version: u16,
    abbrev_at: u64,
    entries: &[u8],
) -> Result<(), AllocError>
    ensures { OnOk result
        (bytes.new.items ≡ bytes.old.items ++ unit_bytes order version abbrev_at entries.now) }
{
    let fields = if version == 4 { 7 } else { 8 };
    let header = UnitHeader {
        version,
        offset_bytes: 4,
        unit_type: 1,
        address_size: 8,
        size: entries.len() as u64 + fields,
        abbrev_at,
    };
    put_header(bytes, order, header)?;
    bytes.extend_from_slice(entries)
}

/// The bytes of little-endian units of version 5 of these entries, whose abbreviations stand at
/// offset 0.
pub fn info_of(alloc: Global, units: &[&[u8]]) -> Result<Vec<u8>, AllocError>
    ensures { IfOk result (λ v. v.items ≡ flat_map (λ u. unit_bytes Little 5 0 u.now) units.now) }
{
    let mut bytes = Vec::new(alloc);
    for entries in units {
        put_unit(&mut bytes, Order::Little, 5, 0, entries)?;
    }
    Ok(bytes)
}

/// The names of the sections.
pub const NAMES: &[u8] = b"\0.debug_info\0.debug_abbrev\0.debug_str\0.debug_line_str\0";

/// How many bytes the header of a file has, and that of a section (ELF-64).
const HEADER_BYTES: u64 = 64;

/// How many sections a file has, with the empty one and that of the names, which is the last.
const SECTIONS: u64 = 6;

/// Where the first section stands in a file.
pub const INFO_AT: usize = 448;

/// The fields of a file's header behind the 16 bytes that tell what it is, up to the number of
/// section headers and of the section of names, and the first section header, which is empty.
const FILE_HEADER: [(u64, u32); 21] = [
    (2, 2),
    (62, 2),
    (1, 4),
    (0, 8),
    (0, 8),
    (HEADER_BYTES, 8),
    (0, 4),
    (HEADER_BYTES, 2),
    (0, 2),
    (0, 2),
    (HEADER_BYTES, 2),
    (SECTIONS, 2),
    (SECTIONS - 1, 2),
    (0, 8),
    (0, 8),
    (0, 8),
    (0, 8),
    (0, 8),
    (0, 8),
    (0, 8),
    (0, 8),
];

/// The sections of a file. Of the others than `info` those without bytes are left out.
#[derive(Clone, Copy)]
pub struct Sections<'s> {
    /// `.debug_info`
    pub info: &'s [u8],
    /// `.debug_abbrev`
    pub abbrev: &'s [u8],
    /// `.debug_str`
    pub text: &'s [u8],
    /// `.debug_line_str`
    pub line_text: &'s [u8],
}

/// A section as its header tells it.
#[derive(Drop)]
struct SectionRow<'s> {
    /// Where its name stands among the names.
    name: u64,
    /// Whether it is there: SHT_PROGBITS or SHT_NULL.
    kind: u64,
    bytes: &'s [u8],
}

impl<'s> Model for SectionRow<'s> {
    ghost use Rattle.small_files.specs.Bytes.{Section};

    ghost Value = { Section };

    ghost view = { λ s. record { name = s.name; kind = s.kind; bytes = s.bytes.now } };
}

/// A section that is left out where it has no bytes.
fn optional(name: u64, bytes: &[u8]) -> SectionRow<'_>
    ensures { result ≡ optional_of name bytes.now }
{
    let kind = u64::from(!bytes.is_empty());
    SectionRow { name, kind, bytes }
}

/// Puts the header of a section.
#[tactic(auto, unfolding(crate::specs::Bytes::section_bytes))]
fn put_section(
    file: &mut Vec<u8>,
    order: Order,
    at: u64,
    section: &SectionRow<'_>,
) -> Result<(), AllocError>
    ensures { OnOk result (file.new.items ≡ file.old.items ++ section_bytes order at section.now) }
{
    let numbers = [
        (section.name, 4),
        (section.kind, 4),
        (0, 8),
        (0, 8),
        (at, 8),
        (section.bytes.len() as u64, 8),
        (0, 8),
        (0, 8),
        (0, 8),
    ];
    put_all(file, order, &numbers)
}

/// Puts what a file of 64 bits begins with.
#[tactic(auto, unfolding(crate::specs::Bytes::start_bytes))]
fn put_start(file: &mut Vec<u8>, order: Order) -> Result<(), AllocError>
    ensures { OnOk result (file.new.items ≡ file.old.items ++ start_bytes order) }
{
    file.extend_from_slice(b"\x7fELF\x02")?;
    file.push(if order == Order::Little { 1 } else { 2 })?;
    file.extend_from_slice(b"\x01\0\0\0\0\0\0\0\0\0")?;
    put_all(file, order, &FILE_HEADER)
}

/// Puts the headers of sections, of which the first begins at `INFO_AT`, and then the sections.
fn put_sections(
    alloc: Global,
    file: &mut Vec<u8>,
    order: Order,
    sections: &[SectionRow<'_>],
) -> Result<(), AllocError>
    ensures { OnOk result (file.new.items ≡ file.old.items
        ++ (headers_from order INFO_AT sections.now ++ flat_map (λ s. s.bytes) sections.now)) }
{
    let mut content = Vec::new(alloc);
    for section in sections {
        put_section(file, order, INFO_AT as u64 + content.len() as u64, section)?;
        content.extend_from_slice(section.bytes)?;
    }
    file.extend_from_slice(&content)
}

/// A file of 64 bits with these sections: its headers, and then the sections in this order and
/// their names.
#[tactic(auto, unfolding(crate::specs::Bytes::file_bytes))]
pub fn file_of(alloc: Global, order: Order, sections: Sections<'_>) -> Result<Vec<u8>, AllocError>
    ensures { IfOk result (λ file. file.items ≡ file_bytes order
        sections.entry.info.now sections.entry.abbrev.now sections.entry.text.now
        sections.entry.line_text.now) }
{
    let mut file = Vec::new(alloc);
    put_start(&mut file, order)?;
    let info = SectionRow {
        name: 1,
        kind: 1,
        bytes: sections.info,
    };
    let rows = [
        info,
        optional(13, sections.abbrev),
        optional(27, sections.text),
        optional(38, sections.line_text),
        optional(0, NAMES),
    ];
    put_sections(alloc, &mut file, order, &rows)?;
    Ok(file)
}

/// A little-endian file of units and their abbreviations alone.
pub fn plain_file(alloc: Global, info: &[u8], abbrev: &[u8]) -> Result<Vec<u8>, AllocError>
    ensures { IfOk result (λ file. file.items ≡ file_bytes Little info.now abbrev.now [] []) }
{
    let sections = Sections {
        info,
        abbrev,
        text: &[],
        line_text: &[],
    };
    file_of(alloc, Order::Little, sections)
}
