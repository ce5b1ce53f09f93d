//! Headers of units of DWARF 4 and 5, by hand, in files of both byte orders.
use dw_base::Order;
use elf_sections::Image;
use entry_tree::{Unit, UnitFault, UnitList, units};
use small_files::bytes::{Sections, UnitHeader, file_of, put, put_header};
use std::alloc::{AllocError, Global};
use std::process::Abort;
use std::test::Fail;

/// The offset of the abbreviations in each header.
const ABBREV_AT: u64 = 0x0102_0304;

/// A version, the bytes of its offsets, and the bytes behind the length of such a header.
type HeaderSize = (u16, u32, u64);

const SIZES: &[HeaderSize] = &[(4, 4, 7), (4, 8, 11), (5, 4, 8), (5, 8, 12)];

const ORDERS: &[Order] = &[Order::Little, Order::Big];

/// The units of a file.
fn units_of(rt: &impl Abort, alloc: Global, file: &[u8]) -> Result<UnitList, UnitFault> {
    let Ok(image) = Image::read(file) else {
        panic!(rt; "no image")
    };
    units(alloc, &image)
}

/// The units of a section are these.
fn check_units(
    rt: &impl Abort,
    alloc: Global,
    order: Order,
    info: &[u8],
    want: Result<&[Unit], UnitFault>,
) -> Result<(), AllocError> {
    let sections = Sections {
        info,
        abbrev: &[],
        text: &[],
        line_text: &[],
    };
    let file = file_of(alloc, order, sections)?;
    match units_of(rt, alloc, &file) {
        Ok(list) => assert_eq!(rt; Ok(list.items()), want),
        Err(found) => assert_eq!(rt; Err(found), want),
    }
    Ok(())
}

/// A whole header of a version, with some bytes behind it.
fn plain(size: HeaderSize, behind: u64) -> UnitHeader {
    let (version, offset_bytes, fields) = size;
    UnitHeader {
        version,
        offset_bytes,
        unit_type: 1,
        address_size: 8,
        size: fields.wrapping_add(behind),
        abbrev_at: ABBREV_AT,
    }
}

/// What a header at a place is read as.
fn read_as(header: UnitHeader, at: u64, fields: u64) -> Unit {
    let after = at.wrapping_add(if header.offset_bytes == 8 { 12 } else { 4 });
    Unit {
        at,
        first: after.wrapping_add(fields),
        end: after.wrapping_add(header.size),
        abbrev_at: ABBREV_AT,
        address_bytes: u32::from(header.address_size),
        offset_bytes: header.offset_bytes,
        version: header.version,
        unit_type: header.unit_type,
    }
}

/// A section of this header and of null bytes behind it is read as the unit of the header.
fn check_header(
    rt: &impl Abort,
    alloc: Global,
    order: Order,
    header: UnitHeader,
    fields: u64,
) -> Result<(), AllocError> {
    let mut info = Vec::new(alloc);
    put_header(&mut info, order, header)?;
    let behind = header.size.saturating_sub(fields).min(8);
    put(&mut info, order, 0, behind as u32)?;
    check_units(rt, alloc, order, &info, Ok(&[read_as(header, 0, fields)]))
}

/// Headers of both versions with both widths of offsets, one that ends its unit and one with bytes
/// behind it.
#[test]
fn headers_of_both_versions(rt: HostRuntime) -> Result<(), Fail> {
    for &order in ORDERS {
        for &size in SIZES {
            for (unit_type, address_size, behind) in [(1, 8, 0), (1, 4, 3), (3, 8, 3)] {
                let mut header = plain(size, behind);
                header.address_size = address_size;
                header.unit_type = if size.0 == 4 { 1 } else { unit_type };
                check_header(&rt, rt.alloc(), order, header, size.2)?;
            }
        }
    }
    Ok(())
}

/// Each beginning of a section, which is cut off, is refused.
fn check_cut_section(
    rt: &impl Abort,
    alloc: Global,
    order: Order,
    size: HeaderSize,
) -> Result<(), AllocError> {
    let mut whole = Vec::new(alloc);
    put_header(&mut whole, order, plain(size, 0))?;
    for end in 1..whole.len() {
        let fault = UnitFault::UnitLength(0);
        check_units(rt, alloc, order, &whole[..end], Err(fault))?;
    }
    Ok(())
}

/// Each unit that ends in its header is refused.
fn check_cut_unit(
    rt: &impl Abort,
    alloc: Global,
    order: Order,
    size: HeaderSize,
) -> Result<(), AllocError> {
    for kept in 0..size.2 {
        let (version, offset_bytes, fields) = size;
        let mut info = Vec::new(alloc);
        put_header(&mut info, order, plain((version, offset_bytes, kept), 0))?;
        let missing = fields.saturating_sub(kept) as usize;
        let end = info.len().saturating_sub(missing);
        check_units(
            rt,
            alloc,
            order,
            &info[..end],
            Err(UnitFault::UnitLength(0)),
        )?;
    }
    Ok(())
}

/// A section that is cut off in a header, and a unit that ends in its header.
#[test]
fn headers_cut_off(rt: HostRuntime) -> Result<(), Fail> {
    for &order in ORDERS {
        for &size in SIZES {
            check_cut_section(&rt, rt.alloc(), order, size)?;
            check_cut_unit(&rt, rt.alloc(), order, size)?;
        }
    }
    Ok(())
}

/// A version, a type, the bytes of addresses, the unit's length, and the fault.
const REFUSED: &[(u16, u8, u8, u64, UnitFault)] = &[
    (3, 2, 2, 8, UnitFault::UnitVersion(0, 3)),
    (3, 2, 2, 2, UnitFault::UnitVersion(0, 3)),
    (6, 1, 8, 8, UnitFault::UnitVersion(0, 6)),
    (4, 2, 2, 6, UnitFault::UnitLength(0)),
    (4, 2, 2, 7, UnitFault::AddressSize(0, 2)),
    (5, 2, 2, 7, UnitFault::UnitLength(0)),
    (5, 2, 2, 8, UnitFault::UnitType(0, 2)),
    (5, 1, 2, 8, UnitFault::AddressSize(0, 2)),
];

/// The first check that fails refuses a header: its version before its end, its end before its
/// type, and its type before the size of its addresses.
#[test]
fn headers_refused(rt: HostRuntime) -> Result<(), Fail> {
    for &order in ORDERS {
        for &(version, unit_type, address_size, size, fault) in REFUSED {
            let header = UnitHeader {
                version,
                offset_bytes: 4,
                unit_type,
                address_size,
                size,
                abbrev_at: ABBREV_AT,
            };
            let mut info = Vec::new(rt.alloc());
            put_header(&mut info, order, header)?;
            check_units(&rt, rt.alloc(), order, &info, Err(fault))?;
        }
    }
    Ok(())
}

/// The sizes of two headers behind one another.
const PAIRS: &[(HeaderSize, HeaderSize)] = &[
    ((4, 4, 7), (5, 4, 8)),
    ((5, 4, 8), (4, 4, 7)),
    ((4, 8, 11), (5, 4, 8)),
    ((5, 8, 12), (4, 4, 7)),
];

/// Units of both versions behind one another, in both orders.
#[test]
fn both_versions_in_one_section(rt: HostRuntime) -> Result<(), Fail> {
    for &order in ORDERS {
        for &(first, second) in PAIRS {
            let (one, other) = (plain(first, 1), plain(second, 0));
            let mut info = Vec::new(rt.alloc());
            put_header(&mut info, order, one)?;
            info.push(0)?;
            put_header(&mut info, order, other)?;
            let before = read_as(one, 0, first.2);
            let want = [before, read_as(other, before.end, second.2)];
            check_units(&rt, rt.alloc(), order, &info, Ok(&want))?;
        }
    }
    Ok(())
}
