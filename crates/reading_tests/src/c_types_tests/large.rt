//! Units with many parts and with deep nests. Each would take hours, were every structure to read
//! all that stands deeper than its members.
use super::{file_of, types_in};
use std::alloc::{AllocError, Global};
use std::test::Fail;
use type_attributes::fault::TypeFault;

/// Puts bytes behind others, so many times.
fn put_times(entries: &mut Vec<u8>, bytes: &[u8], times: u32) -> Result<(), AllocError> {
    for _ in 0..times {
        entries.extend_from_slice(bytes)?;
    }
    Ok(())
}

/// How many types a unit of these entries has, and how many parts these have together; or its
/// refusal.
fn counts(alloc: Global, entries: &[u8]) -> Result<Result<(usize, usize), TypeFault>, Fail> {
    let file = file_of(alloc, entries)?;
    let found = match types_in(alloc, file.as_slice())? {
        Ok(found) => found,
        Err(fault) => return Ok(Err(fault)),
    };
    let mut types: usize = 0;
    let mut parts: usize = 0;
    for unit in &found {
        for one in unit.types.items() {
            types = types.wrapping_add(1);
            parts = parts.wrapping_add(one.label.parts.items().len());
        }
    }
    Ok(Ok((types, parts)))
}

/// What comes of a type at 13 with one part too many.
const TOO_MANY: Result<(usize, usize), TypeFault> = Err(TypeFault::TooMany(13, 65_536));

/// A member, an enumerator and a parameter.
const MEMBER: &[u8] = &[33, 13];

const ENUMERATOR: &[u8] = &[16, 0x41, 0, 1];

const PARAMETER: &[u8] = &[34, 13];

/// A structure, an enumeration and a subroutine type, and how the last ends where it takes further
/// arguments of any type.
const STRUCTURE: &[u8] = &[8, 0x73, 0, 4];

const ENUMERATION: &[u8] = &[15, 0x65, 0, 4];

const SUBROUTINE: &[u8] = &[25];

const REST: &[u8] = &[28, 0];

/// What a type begins with, one of its parts, how many there are, what stands behind them, and what
/// comes of it.
type Parted = (
    &'static [u8],
    &'static [u8],
    u32,
    &'static [u8],
    Result<(usize, usize), TypeFault>,
);

const MANY_PARTS: &[Parted] = &[
    (STRUCTURE, MEMBER, 65_535, &[0], Ok((1, 65_535))),
    (STRUCTURE, MEMBER, 65_536, &[0], TOO_MANY),
    (ENUMERATION, ENUMERATOR, 65_535, &[0], Ok((1, 65_535))),
    (ENUMERATION, ENUMERATOR, 65_536, &[0], TOO_MANY),
    (&[15, 0x65, 0, 3], ENUMERATOR, 65_536, &[0], TOO_MANY),
    (SUBROUTINE, PARAMETER, 65_535, &[0], Ok((1, 65_535))),
    (SUBROUTINE, PARAMETER, 65_536, &[0], TOO_MANY),
    (SUBROUTINE, PARAMETER, 65_534, REST, Ok((1, 65_535))),
    (SUBROUTINE, PARAMETER, 65_535, REST, TOO_MANY),
    (STRUCTURE, &[10, 0x6d, 0], 65_536, &[0], TOO_MANY),
    (&[35, 0x73, 0, 0x7f], MEMBER, 65_536, &[0], TOO_MANY),
];

/// A type has at most 65,535 parts. Too many of them are refused at the type, before a refusal of a
/// part and before those of higher numbers.
#[test]
fn many_parts(rt: HostRuntime) -> Result<(), Fail> {
    for &(head, part, times, tail, wanted) in MANY_PARTS {
        let mut entries = Vec::from_slice(rt.alloc(), &[1])?;
        entries.extend_from_slice(head)?;
        put_times(&mut entries, part, times)?;
        entries.extend_from_slice(tail)?;
        entries.push(0)?;
        assert!(rt;
            counts(rt.alloc(), entries.as_slice())? == wanted,
            "{head:?} {times}"
        );
    }
    Ok(())
}

/// The entries of a unit with so many structures in each other, each with a member.
fn nest(alloc: Global, times: u32) -> Result<Vec<u8>, AllocError> {
    let mut entries = Vec::from_slice(alloc, &[1])?;
    put_times(&mut entries, &[36, 33, 13], times)?;
    put_times(&mut entries, &[0], times)?;
    entries.push(0)?;
    Ok(entries)
}

/// Structures in each other, up to 50,000.
#[test]
fn nested_structures(rt: HostRuntime) -> Result<(), Fail> {
    for times in [1, 2, 1_000, 50_000] {
        let entries = nest(rt.alloc(), times)?;
        let count = times as usize;
        assert!(rt;
            counts(rt.alloc(), entries.as_slice())? == Ok((count, count)),
            "{times}"
        );
    }
    Ok(())
}

/// 20,000 structures in each other, and in the innermost 300 members that hold 300 structures each.
#[test]
fn deep_and_wide(rt: HostRuntime) -> Result<(), Fail> {
    let mut entries = Vec::from_slice(rt.alloc(), &[1])?;
    put_times(&mut entries, &[36], 20_000)?;
    for _ in 0..300u32 {
        entries.extend_from_slice(&[37, 13])?;
        put_times(&mut entries, &[36, 33, 13, 0], 300)?;
        entries.push(0)?;
    }
    put_times(&mut entries, &[0], 20_001)?;
    assert!(rt; counts(rt.alloc(), entries.as_slice())? == Ok((110_000, 90_300)));
    Ok(())
}
