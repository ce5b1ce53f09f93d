//! Tables in bytes, and what reading them answers.
use dwarf_abbrev::constants::{DW_AT_name, DW_FORM_data1, DW_FORM_flag_present};
use dwarf_abbrev::{Abbrev, AbbrevFault, Abbrevs, FixedRun, Spec};
use std::alloc::{AllocError, Global};

/// A section, the place of a table in it, and why this table is refused.
const REFUSED: &[(&[u8], u64, AbbrevFault)] = &[
    (&[1, 0x11, 2, 0, 0, 0], 0, AbbrevFault::ChildrenByte(2, 2)),
    (
        &[1, 0x11, 0, 0, 0, 1, 0x24, 0, 0, 0, 0],
        0,
        AbbrevFault::AbbrevTwice(5, 1),
    ),
    (&[1, 0x11, 1, 0x13], 0, AbbrevFault::AbbrevTruncated(0)),
    (&[0, 1, 0x11, 1, 0, 0], 1, AbbrevFault::AbbrevTruncated(6)),
    (&[0], 1, AbbrevFault::AbbrevTruncated(1)),
    (&[0], 7, AbbrevFault::AbbrevTruncated(7)),
    (
        &[
            1, 0xff, 0xff, 0xff, 0xff, 0xff, 0xff, 0xff, 0xff, 0xff, 0x02,
        ],
        0,
        AbbrevFault::LebWide(1),
    ),
    (
        &[1, 0xff, 0xff, 0xff, 0xff, 0xff, 0xff, 0xff, 0xff, 0xff],
        0,
        AbbrevFault::AbbrevTruncated(0),
    ),
    (
        &[
            1, 0x11, 0, 0x1c, 0x21, 0xff, 0xff, 0xff, 0xff, 0xff, 0xff, 0xff, 0xff, 0xff, 0x01, 0,
            0, 0,
        ],
        0,
        AbbrevFault::LebWide(5),
    ),
];

/// The first table that is not refused so.
fn first_other_fault(alloc: Global) -> Option<usize> {
    for (k, (bytes, at, fault)) in REFUSED.iter().enumerate() {
        if Abbrevs::read(alloc, bytes, *at).err() != Some(*fault) {
            return Some(k);
        }
    }
    None
}

#[test]
fn tables_are_refused_for_their_first_wrong_piece(rt: HostRuntime) {
    assert_eq!(rt; first_other_fault(rt.alloc()), None);
}

/// A table with codes out of order: 2 with a padded number and an implicit_const of -2, then 1.
const TWO: &[u8] = &[
    0x82, 0x00, 0x24, 0x00, 0x1c, 0x21, 0x7e, 0x03, 0x08, 0x00, 0x00, 0x01, 0x11, 0x01, 0x00, 0x00,
    0x00,
];

/// What an abbreviation says: its tag, whether children follow, its attributes, and the run of fixed
/// widths before the end of all values of its entries.
struct Said {
    tag: u64,
    children: bool,
    specs: &'static [Spec],
    last: FixedRun,
}

/// The place of a table in TWO, a code, and what its abbreviation says.
const SAID: &[(u64, u64, Option<Said>)] = &[
    (
        0,
        2,
        Some(Said {
            tag: 0x24,
            children: false,
            specs: &[
                Spec {
                    attribute: 0x1c,
                    form: 0x21,
                    implicit: -2,
                },
                Spec {
                    attribute: 3,
                    form: 8,
                    implicit: 0,
                },
            ],
            last: NO_VALUES,
        }),
    ),
    (
        0,
        1,
        Some(Said {
            tag: 0x11,
            children: true,
            specs: &[],
            last: NO_VALUES,
        }),
    ),
    (0, 0, None),
    (0, 3, None),
    (16, 1, None),
];

const NO_VALUES: FixedRun = FixedRun {
    values: 0,
    bytes: 0,
    offsets: 0,
    addresses: 0,
};

/// Whether the abbreviation of a code says this, or there is none.
fn is_said(table: &Abbrevs, code: u64, wanted: &Option<Said>) -> bool {
    match (table.get(code), wanted) {
        (None, None) => true,
        (Some(found), Some(said)) => {
            found.code == code
                && found.tag == said.tag
                && found.children == said.children
                && found.specs == said.specs
                && found.run_to(found.specs.len()) == Some(said.last)
        }
        _ => false,
    }
}

/// The first row whose abbreviation says something else.
fn first_other(alloc: Global) -> Result<Option<usize>, AbbrevFault> {
    for (k, (at, code, wanted)) in SAID.iter().enumerate() {
        let table = Abbrevs::read(alloc, TWO, *at)?;
        if !is_said(&table, *code, wanted) {
            return Ok(Some(k));
        }
    }
    Ok(None)
}

#[test]
fn a_code_finds_its_abbreviation(rt: HostRuntime) -> Result<(), AbbrevFault> {
    assert_eq!(rt; first_other(rt.alloc())?, None);
    Ok(())
}

/// Abbreviations with: strp, data2, addr, strp, flag; implicit_const and flag_present; an indirect
/// form; a form that is unknown; data16 and udata.
const SIZED: &[u8] = &[
    1, 0x2e, 0, 3, 0x0e, 0x0b, 0x05, 0x11, 0x01, 0x6e, 0x0e, 0x3f, 0x0c, 0, 0, // 1
    2, 0x2e, 0, 0x0b, 0x21, 0x7e, 0x3c, 0x19, 0, 0, // 2
    3, 0x2e, 0, 0x0b, 0x0b, 0x3c, 0x16, 0, 0, // 3
    4, 0x2e, 0, 0x0b, 0x0b, 0x3c, 0x02, 0, 0, // 4
    5, 0x2e, 0, 0x1c, 0x1e, 0x0b, 0x0f, 0, 0, // 5
    6, 0x2e, 0, 0x1c, 0x1e, 0x0b, 0x07, 0, 0, // 6
    0,
];

/// How many values a run has, and how many bytes, offsets and addresses.
type Counts = (u32, u16, u8, u8);

/// The run of such counts.
fn run((values, bytes, offsets, addresses): Counts) -> FixedRun {
    FixedRun {
        values,
        bytes,
        offsets,
        addresses,
    }
}

/// A code of this table, and of its abbreviation the run that begins with the first value, the one
/// before the end of all values, and which attribute is the name.
type Runs = (u64, Counts, Counts, Option<usize>);

const RUNS: &[Runs] = &[
    (1, (5, 3, 2, 1), (5, 3, 2, 1), Some(0)),
    (2, (2, 0, 0, 0), (2, 0, 0, 0), None),
    (3, (1, 1, 0, 0), (0, 0, 0, 0), None),
    (4, (1, 1, 0, 0), (0, 0, 0, 0), None),
    (5, (1, 16, 0, 0), (0, 0, 0, 0), None),
    (6, (2, 24, 0, 0), (2, 24, 0, 0), None),
];

/// Whether an abbreviation is as its row says.
fn has_runs(table: &Abbrevs, row: &Runs) -> bool {
    let (code, first, last, name) = *row;
    let Some(found) = table.get(code) else {
        return false;
    };
    let count = found.specs.len();
    found.run_from(0) == run(first)
        && found.run_to(0) == Some(NO_VALUES)
        && found.run_to(count) == Some(run(last))
        && found.run_to(count.saturating_add(1)).is_none()
        && found.first_of(DW_AT_name) == name
}

/// The first row whose abbreviation is otherwise.
fn first_other_runs(table: &Abbrevs) -> Option<usize> {
    for (k, row) in RUNS.iter().enumerate() {
        if !has_runs(table, row) {
            return Some(k);
        }
    }
    None
}

#[test]
fn an_abbreviation_tells_its_runs(rt: HostRuntime) -> Result<(), AbbrevFault> {
    let table = Abbrevs::read(rt.alloc(), SIZED, 0)?;
    assert_eq!(rt; first_other_runs(&table), None);
    Ok(())
}

/// How many attributes stand before the name.
const BEFORE_THE_NAME: &[usize] = &[0, 1, 2, 5, 253, 254, 255, 256, 70_000];

/// A table of one abbreviation: so many attributes of a form, and behind them the name.
fn behind(alloc: Global, form: u8, count: usize) -> Result<Vec<u8>, AllocError> {
    let mut bytes = Vec::from_slice(alloc, &[1, 0x34, 0])?;
    for _ in 0..count {
        bytes.extend_from_slice(&[0x3b, form])?;
    }
    bytes.extend_from_slice(&[0x03, 0x08, 0, 0, 0])?;
    Ok(bytes)
}

/// How many bytes the values before the name have, where one that is in no run has one byte, and
/// how many runs there are.
fn bytes_before_the_name(found: &Abbrev<'_>) -> (u64, usize) {
    let mut bytes = 0u64;
    let mut reached = 0usize;
    for runs in 1..=found.specs.len() {
        let run = found.run_from(reached);
        reached = reached.saturating_add(run.values as usize);
        bytes = bytes.saturating_add(u64::from(run.bytes));
        if found.first_of(DW_AT_name) == Some(reached) {
            return (bytes, runs);
        }
        reached = reached.saturating_add(1);
        bytes = bytes.saturating_add(1);
    }
    (0, 0)
}

/// Whether the name stands behind so many attributes of a form, and what stands before it has so
/// many bytes in so many runs.
fn is_behind(
    alloc: Global,
    form: u64,
    count: usize,
    before: (u64, usize),
) -> Result<bool, AbbrevFault> {
    let Ok(form) = u8::try_from(form) else {
        return Ok(false);
    };
    let bytes = behind(alloc, form, count)?;
    let table = Abbrevs::read(alloc, bytes.as_slice(), 0)?;
    Ok(match table.get(1) {
        None => false,
        Some(found) => {
            found.first_of(DW_AT_name) == Some(count) && bytes_before_the_name(&found) == before
        }
    })
}

/// The first count of attributes behind which the name is not found.
fn first_not_found(alloc: Global) -> Result<Option<usize>, AbbrevFault> {
    for count in BEFORE_THE_NAME {
        let runs = if *count > 65_535 { 2 } else { 1 };
        let before = (*count as u64, runs);
        if !is_behind(alloc, DW_FORM_data1, *count, before)?
            || !is_behind(alloc, DW_FORM_flag_present, *count, (0, 1))?
        {
            return Ok(Some(*count));
        }
    }
    Ok(None)
}

#[test]
fn a_name_is_found_behind_many_attributes(rt: HostRuntime) -> Result<(), AbbrevFault> {
    assert_eq!(rt; first_not_found(rt.alloc())?, None);
    Ok(())
}
