//! Headers of units.
//!
//! Units of DWARF 4 and 5 are read, in one file too. A header of version 4 says no unit type and is
//! taken for that of a compilation unit: type units of version 4 stand in a section of their own
//! (`.debug_types`), which is not read, and a partial unit of version 4 shows by its root alone.
//! Versions 2 and 3 differ in more than the header, and are refused.
ghost use Rattle.std.specs.Prelude.{◌≡◌, ◌≤◌, ◌<◌, ◌^◌, ◌+◌, length, get_or, IfOk, All};
ghost use Rattle.dw_base.specs.Numbers.{number_of};
ghost use Rattle.entry_tree.specs.Units.{extent_of, extent_at, fields_of, check_type, type_in};
ghost use Rattle.entry_tree.specs.Units.{check_address, offset_in, unit_at, units_of, IsInside};
ghost use Rattle.entry_tree.specs.Units.{Gives, Reads};
ghost use Rattle.entry_tree.specs.Images.{info_of};
ghost use Rattle.entry_tree.specs.Contexts.{IsUnitOf};
ghost use Rattle.elf_sections.specs.Images.{file_of};
ghost use Rattle.elf_sections.specs.Header.{order_of};
ghost use Rattle.elf_sections.specs.Sections.{section_bytes};
ghost use Rattle.dwarf_forms.specs.Forms.{HasWidth};

use crate::unit::{Unit, UnitFault, UnitList};
use dw_base::{Order, number};
use dwarf_abbrev::constants::{DW_UT_compile, DW_UT_partial};
use elf_sections::{Image, Kind};
use std::alloc::Global;

/// The length that escapes to lengths of 8 bytes (section 7.4).
const LONG: u64 = 0xffff_ffff;

/// The first reserved length.
const RESERVED: u64 = 0xffff_fff0;

/// How far a unit goes: the offset after its length, the offset after its last byte, and how many
/// bytes its offsets have.
#[derive(Clone, Copy)]
struct UnitSpan {
    after: u64,
    end: u64,
    offset_bytes: u32,
}

/// Where the fields behind the version stand, and the unit's first entry. Headers of version 4 have
/// no unit type.
#[derive(Clone, Copy)]
struct Fields {
    unit_type_at: Option<u64>,
    address_size_at: u64,
    abbrev_at: u64,
    first: u64,
}

/// The version, where its two bytes lie in the unit.
fn read_version(unit: &[u8], order: Order, at: u64) -> Option<u16>
    ensures { result ≡ number_of unit.now at 2 order }
{
    match number(unit, at, 2, order) {
        Some(version) => Some(version as u16),
        None => None,
    }
}

/// A byte of the header, and 0 where it does not lie in the unit.
fn read_byte(unit: &[u8], at: u64) -> u8
    ensures { result ≡ get_or unit.now at 0 }
{
    match unit.get(at as usize) {
        Some(byte) => *byte,
        None => 0,
    }
}

/// An offset of the header, and 0 where it does not lie in the unit.
fn read_offset(unit: &[u8], order: Order, at: u64, width: u32) -> u64
    requires { (1 ≤ width) × (width ≤ 8) }
    ensures { result ≡ offset_in unit.now order at width }
{
    number(unit, at, width, order).unwrap_or(0)
}

/// A unit of `size` bytes behind its length.
fn make_extent(
    info: &[u8],
    at: u64,
    offset_bytes: u32,
    after: u64,
    size: u64,
) -> Result<UnitSpan, UnitFault>
    requires after { after ≤ length info.now }
    requires width { HasWidth offset_bytes }
    ensures extent { result ≡ extent_of info.now at offset_bytes after size }
    ensures inside { IfOk result (IsInside info.now) }
{
    if size > info.len() as u64 - after {
        return Err(UnitFault::UnitLength(at));
    }
    Ok(UnitSpan {
        after,
        end: after + size,
        offset_bytes,
    })
}

/// How far the unit at a place goes.
#[tactic(auto, using(dw_base::proofs::Numbering::number_within), unfolding(crate::specs::Units::extent_at))]
fn read_extent(info: &[u8], order: Order, at: u64) -> Result<UnitSpan, UnitFault>
    requires { at ≤ length info.now }
    ensures extent { result ≡ extent_at info.now order at }
    ensures inside { IfOk result (IsInside info.now) }
{
    let Some(short) = number(info, at, 4, order) else {
        return Err(UnitFault::UnitLength(at));
    };
    if short == LONG {
        let Some(long) = number(info, at + 4, 8, order) else {
            return Err(UnitFault::UnitLength(at));
        };
        return make_extent(info, at, 8, at + 12, long);
    }
    if short < RESERVED {
        make_extent(info, at, 4, at + 4, short)
    } else {
        Err(UnitFault::UnitLength(at))
    }
}

/// Where the fields of a version stand.
fn read_fields(at: u64, version: u16, after: u64, offset_bytes: u32) -> Result<Fields, UnitFault>
    requires after { after + 16 < 2 ^ 64 }
    requires width { offset_bytes ≤ 8 }
    ensures { result ≡ fields_of at version after offset_bytes }
{
    let offset_bytes = u64::from(offset_bytes);
    match version {
        4 => Ok(Fields {
            unit_type_at: None,
            address_size_at: after + offset_bytes,
            abbrev_at: after,
            first: after + offset_bytes + 1,
        }),
        5 => Ok(Fields {
            unit_type_at: Some(after),
            address_size_at: after + 1,
            abbrev_at: after + 2,
            first: after + 2 + offset_bytes,
        }),
        _ => Err(UnitFault::UnitVersion(at, version)),
    }
}

fn check_unit_type(at: u64, unit_type: u8) -> Result<u8, UnitFault>
    ensures { result ≡ check_type at unit_type }
{
    if unit_type == DW_UT_compile || unit_type == DW_UT_partial {
        Ok(unit_type)
    } else {
        Err(UnitFault::UnitType(at, unit_type))
    }
}

/// The type of the unit: a compilation unit where its header has none.
fn read_unit_type(unit: &[u8], at: u64, place: Option<u64>) -> Result<u8, UnitFault>
    ensures { result ≡ type_in unit.now at place }
{
    match place {
        Some(place) => check_unit_type(at, read_byte(unit, place)),
        None => Ok(DW_UT_compile),
    }
}

fn check_address_size(at: u64, size: u8) -> Result<u8, UnitFault>
    ensures { result ≡ check_address at size }
{
    if size == 4 || size == 8 {
        Ok(size)
    } else {
        Err(UnitFault::AddressSize(at, size))
    }
}

/// The header of the unit at a place.
#[tactic(auto, unfolding(crate::specs::Units::unit_at))]
fn read_unit(info: &[u8], order: Order, at: u64) -> Result<Unit, UnitFault>
    requires { at ≤ length info.now }
    ensures { result ≡ unit_at info.now order at }
{
    let extent = read_extent(info, order, at)?;
    let unit = &info[..extent.end as usize];
    let Some(version) = read_version(unit, order, extent.after) else {
        return Err(UnitFault::UnitLength(at));
    };
    let fields = read_fields(at, version, extent.after + 2, extent.offset_bytes)?;
    if fields.first > extent.end {
        return Err(UnitFault::UnitLength(at));
    }
    let unit_type = read_unit_type(unit, at, fields.unit_type_at)?;
    let address_bytes = check_address_size(at, read_byte(unit, fields.address_size_at))?;
    Ok(Unit {
        at,
        first: fields.first,
        end: extent.end,
        abbrev_at: read_offset(unit, order, fields.abbrev_at, extent.offset_bytes),
        address_bytes: u32::from(address_bytes),
        offset_bytes: extent.offset_bytes,
        version,
        unit_type,
    })
}

/// The units of a section.
fn read_units(alloc: Global, info: &[u8], order: Order) -> Result<UnitList, UnitFault>
    ensures { Gives result (units_of info.now order) }
{
    let mut units = Vec::new(alloc);
    let mut at = 0;
    for _ in 0..info.len() {
        if at >= info.len() as u64 {
            return Ok(UnitList::new(units));
        }
        let unit = read_unit(info, order, at)?;
        at = unit.end;
        units.push(unit)?;
    }
    Ok(UnitList::new(units))
}

/// The headers of all units of an image, in the order of `.debug_info`. They follow one another
/// from 0 to the section's end.
///
/// The first header that fails refuses the image, by the first of these checks: `UnitLength` where
/// its length is cut off or reserved, where the unit passes the section's end, or where its version
/// is cut off; `UnitVersion` where that is neither 4 nor 5; `UnitLength` where the header of that
/// version passes the unit's end; `UnitType` where a unit of version 5 is neither a compilation
/// unit nor a partial unit; `AddressSize` where addresses have neither 4 nor 8 bytes.
///
/// Its work grows with the number of units.
pub fn units(alloc: Global, image: &Image<'_>) -> Result<UnitList, UnitFault>
    ensures gives { Gives result (units_of (info_of (file_of image.now))
        (order_of (file_of image.now))) }
    ensures reads { Reads (info_of (file_of image.now)) (order_of (file_of image.now)) result }
    ensures each { IfOk result (λ units. All (IsUnitOf (file_of image.now)) units) }
{
    read_units(alloc, bytes_of(image, Kind::Info), image.order())
}

/// The bytes of a section; none where it is absent.
pub(crate) fn bytes_of<'a>(image: &Image<'a>, kind: Kind) -> &'a [u8]
    ensures { result.now ≡ section_bytes kind (file_of image.now) }
{
    match image.section(kind) {
        Some(bytes) => bytes,
        None => &[],
    }
}
