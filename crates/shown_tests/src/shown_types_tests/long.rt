//! Tests over long tables: many names, and typedefs in long chains and cycles. They end in a
//! moment, since each type and each name is passed once; no name goes over all types, and no member
//! along its chain.
use super::{is_answer, name, shown};
use crate::rows::{TableRow, push, push_typedefs, table_of};
use btf_codec::Table;
use c_model::CType;
use command_line::Text;
use dw_base::Bytes;
use shown_types::ShowFault::{self, NoName, NoSize};
use shown_types::Style;
use std::alloc::{AllocError, Global};
use std::test::Fail;

/// How many names and structures there are.
const MANY: usize = 20_000;

/// The id behind those of 100,000 typedefs.
const END: u32 = 100_003;

/// So many names, of which the k-th is `n` with the number k times `step`.
fn numbered(alloc: Global, count: usize, step: usize) -> Result<Vec<Text>, Fail> {
    let mut names = Vec::new(alloc);
    let mut number = 0usize;
    for _ in 0..count {
        names.push(Text::new(format!(in alloc; "n{number}")?))?;
        number = number.wrapping_add(step) % MANY;
    }
    Ok(names)
}

/// Adds an `int`, and a structure without a name of 12 bytes and a hole.
fn push_first(alloc: Global, types: &mut Vec<CType<'_>>) -> Result<(), AllocError> {
    let members = [(b"x".as_slice(), 0), (b"y".as_slice(), 64)];
    push(alloc, types, TableRow(1, b"int", false, 4, 0, &[], &[]))?;
    push(
        alloc,
        types,
        TableRow(4, b"", false, 12, 0, &members, &[1, 1]),
    )
}

/// Adds a structure of 12 bytes for each name. Its member is of the type of an id.
fn push_structures<'a>(
    alloc: Global,
    types: &mut Vec<CType<'a>>,
    names: &'a [Text],
    id: u32,
) -> Result<(), AllocError> {
    for name in names {
        let bytes = name.as_str().as_bytes();
        push(
            alloc,
            types,
            TableRow(4, bytes, false, 12, 0, &[(b"m", 0)], &[id]),
        )?;
    }
    Ok(())
}

/// Adds a typedef of the structure without a name for each name.
fn push_named_typedefs<'a>(
    alloc: Global,
    types: &mut Vec<CType<'a>>,
    names: &'a [Text],
) -> Result<(), AllocError> {
    for name in names {
        let bytes = name.as_str().as_bytes();
        push(alloc, types, TableRow(8, bytes, false, 0, 0, &[], &[2]))?;
    }
    Ok(())
}

/// Adds typedefs by the name `t`, each of the one before it and the first of the type of the id
/// `first`, and structures of these names whose member is of the last typedef.
fn push_behind_a_chain<'a>(
    alloc: Global,
    types: &mut Vec<CType<'a>>,
    names: &'a [Text],
    first: u32,
) -> Result<(), AllocError> {
    push(alloc, types, TableRow(8, b"t", false, 0, 0, &[], &[first]))?;
    push_typedefs(alloc, types, 3, END - 1)?;
    push_structures(alloc, types, names, END - 1)
}

/// A table with a structure of each name, and then a typedef of each; or with a chain of typedefs
/// whose first is of the type of this id, and a structure of each name behind it.
fn long_table<'a>(
    alloc: Global,
    names: &'a [Text],
    chain: Option<u32>,
) -> Result<Table<'a>, AllocError> {
    let mut types = Vec::new(alloc);
    push_first(alloc, &mut types)?;
    if let Some(first) = chain {
        push_behind_a_chain(alloc, &mut types, names, first)?;
    } else {
        push_structures(alloc, &mut types, names, 1)?;
        push_named_typedefs(alloc, &mut types, names)?;
    }
    Ok(table_of(0, types))
}

/// So many names, of which the k-th is the one with the number k times this step, and one more.
type AskedNames = (usize, usize, Option<&'static str>);

/// The first line, and the endings of further ones: for each list of endings those of all names, of
/// which the k-th is the one with the number k times this step.
type Lines = (&'static [u8], usize, &'static [&'static [&'static str]]);

/// The step of a table's names, what the first of its chain of typedefs is of, if it has a chain,
/// the names that are asked for, or all, and what is shown, or why nothing is.
type Long = (
    usize,
    Option<u32>,
    Option<AskedNames>,
    Result<Lines, ShowFault>,
);

/// The ending of a structure's line, and that of a typedef's.
const OF_BOTH: &[&[&str]] = &[&["\t12\t0\n", "\t12\t1\n"]];

/// All structures, and then all typedefs.
const IN_TURN: &[&[&str]] = &[&["\t12\t0\n"], &["\t12\t1\n"]];

const OF_STRUCTURES: &[&[&str]] = &[&["\t12\t0\n"]];

/// The first typedef of a chain.
const T: &[u8] = b"t\t12\t1\n";

const LONG: &[Long] = &[
    // In order, backwards, one name each time, and four names again and again; and with one more,
    // which nothing has.
    (1, None, Some((20_000, 1, None)), Ok((b"", 1, OF_BOTH))),
    (
        1,
        None,
        Some((20_000, 19_999, None)),
        Ok((b"", 19_999, OF_BOTH)),
    ),
    (1, None, Some((20_000, 0, None)), Ok((b"", 0, OF_BOTH))),
    (
        1,
        None,
        Some((20_000, 5_000, None)),
        Ok((b"", 5_000, OF_BOTH)),
    ),
    (1, None, Some((20_000, 1, Some("n"))), Err(NoName(20_000))),
    (
        1,
        None,
        Some((20_000, 19_999, Some("n"))),
        Err(NoName(20_000)),
    ),
    (1, None, Some((20_000, 0, Some("n"))), Err(NoName(20_000))),
    (
        1,
        None,
        Some((20_000, 5_000, Some("n"))),
        Err(NoName(20_000)),
    ),
    // All types have one name, which is asked for.
    (0, None, Some((1, 0, None)), Ok((b"", 0, IN_TURN))),
    // Behind a long chain: by all names; all types, the first of which is the typedef of a
    // structure; and this one by its name.
    (
        1,
        Some(2),
        Some((20_000, 1, None)),
        Ok((b"", 1, OF_STRUCTURES)),
    ),
    (1, Some(2), None, Ok((T, 1, OF_STRUCTURES))),
    (1, Some(2), Some((0, 0, Some("t"))), Ok((T, 1, &[]))),
    // Behind a long cycle. A name that nothing shown has comes before sizes.
    (1, Some(100_002), None, Err(NoSize(100_002))),
    (
        1,
        Some(100_002),
        Some((20_000, 1, None)),
        Err(NoSize(100_002)),
    ),
    (
        1,
        Some(100_002),
        Some((20_000, 1, Some("t"))),
        Err(NoName(20_000)),
    ),
];

/// The names that are asked for.
fn asked_names(alloc: Global, asked: &AskedNames) -> Result<Vec<Text>, Fail> {
    let (count, step, more) = *asked;
    let mut names = numbered(alloc, count, step)?;
    if let Some(more) = more {
        names.push(name(alloc, more)?)?;
    }
    Ok(names)
}

/// What is shown of the names that are asked for, or of all types.
fn shown_of(
    alloc: Global,
    table: &Table<'_>,
    asked: &Option<AskedNames>,
) -> Result<Result<Bytes, ShowFault>, Fail> {
    let style = Style {
        sizes: true,
        holes: 0,
        line: 64,
    };
    let Some(asked) = asked else {
        return shown(alloc, table, None, style);
    };
    let names = asked_names(alloc, asked)?;
    shown(alloc, table, Some(names.as_slice()), style)
}

/// Appends the lines of a name, one for each ending.
fn push_line(out: &mut Vec<u8>, name: &[u8], endings: &[&str]) -> Result<(), AllocError> {
    for ending in endings {
        out.extend_from_slice(name)?;
        out.extend_from_slice(ending.as_bytes())?;
    }
    Ok(())
}

/// Appends the lines of names.
fn push_lines(out: &mut Vec<u8>, names: &[Text], endings: &[&str]) -> Result<(), AllocError> {
    for name in names {
        push_line(out, name.as_str().as_bytes(), endings)?;
    }
    Ok(())
}

/// The lines that are wanted.
fn bytes_of(alloc: Global, lines: &Lines) -> Result<Vec<u8>, Fail> {
    let (first, step, lists) = *lines;
    let names = numbered(alloc, MANY, step)?;
    let mut out = Vec::from_slice(alloc, first)?;
    for endings in lists {
        push_lines(&mut out, &names, endings)?;
    }
    Ok(out)
}

/// Whether what is shown is what is wanted.
fn is_wanted(
    alloc: Global,
    shown: &Result<Bytes, ShowFault>,
    wanted: &Result<Lines, ShowFault>,
) -> Result<bool, Fail> {
    match wanted {
        Err(fault) => Ok(is_answer(shown, Err(*fault))),
        Ok(lines) => Ok(is_answer(shown, Ok(&bytes_of(alloc, lines)?))),
    }
}

/// What is shown of a long table of these names.
fn shown_in(alloc: Global, names: &[Text], long: &Long) -> Result<Result<Bytes, ShowFault>, Fail> {
    let table = long_table(alloc, names, long.1)?;
    shown_of(alloc, &table, &long.2)
}

/// The first long table of which something else is shown, by its place in the list.
fn first_other(alloc: Global) -> Result<Option<usize>, Fail> {
    for (k, long) in LONG.iter().enumerate() {
        let names = numbered(alloc, MANY, long.0)?;
        let shown = shown_in(alloc, &names, long)?;
        if !is_wanted(alloc, &shown, &long.3)? {
            return Ok(Some(k));
        }
    }
    Ok(None)
}

#[test]
fn long_tables(rt: HostRuntime) -> Result<(), Fail> {
    assert_eq!(rt; first_other(rt.alloc())?, None);
    Ok(())
}
