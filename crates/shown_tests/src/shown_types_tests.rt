//! Which types are shown, over two tables. The small one is of C's `struct a { int x; /* a hole of
//! 4 bytes */ int y; };`, 12 bytes, and `typedef struct { int z; } t;`.
mod long;

use crate::rows::{TableRow, TableRows, table_of, types_of};
use btf_codec::Table;
use command_line::Text;
use dw_base::Bytes;
use shown_types::ShowFault::{self, NoName, NoSize};
use shown_types::{Style, show};
use small_graphs::fitting::refer_to_one_another;
use std::alloc::{AllocError, Global};
use std::test::Fail;

/// Two members of 8 bytes.
const TWO: &[(&[u8], u64)] = &[(b"m", 0), (b"m", 64)];

/// The small table.
const SMALL: TableRows = &[
    TableRow(1, b"int", false, 4, 0, &[], &[]),
    TableRow(4, b"a", false, 12, 0, &[(b"x", 0), (b"y", 64)], &[1, 1]),
    TableRow(4, b"", false, 4, 0, &[(b"z", 0)], &[1]),
    TableRow(8, b"t", false, 0, 0, &[], &[3]),
];

/// The small table, whose member `z` has no type.
const LACKING: TableRows = &[
    TableRow(1, b"int", false, 4, 0, &[], &[]),
    TableRow(4, b"a", false, 12, 0, &[(b"x", 0), (b"y", 64)], &[1, 1]),
    TableRow(4, b"", false, 4, 0, &[(b"z", 0)], &[0]),
    TableRow(8, b"t", false, 0, 0, &[], &[3]),
];

/// A table with a type of every kind, of which those with the ids 2, 4, 7, 22, 23 and 25 can be
/// shown.
const EVERY_KIND: TableRows = &[
    TableRow(1, b"int", false, 4, 0, &[], &[0, 0, 0]),
    TableRow(4, b"a", false, 12, 0, TWO, &[1, 1, 0]),
    TableRow(4, b"", false, 4, 0, &[(b"m", 0)], &[1, 0, 0]),
    TableRow(8, b"t", false, 0, 0, &[], &[3, 0, 0]),
    TableRow(2, b"", false, 0, 0, &[], &[2, 0, 0]),
    TableRow(3, b"", false, 0, 0, &[], &[1, 1, 0]),
    TableRow(5, b"a", false, 16, 0, TWO, &[5, 6, 0]),
    TableRow(6, b"e", false, 4, 0, &[], &[0, 0, 0]),
    TableRow(7, b"f", false, 0, 0, &[], &[0, 0, 0]),
    TableRow(9, b"", false, 0, 0, &[], &[1, 0, 0]),
    TableRow(10, b"", false, 0, 0, &[], &[1, 0, 0]),
    TableRow(11, b"", false, 0, 0, &[], &[5, 0, 0]),
    TableRow(12, b"call", false, 0, 0, &[], &[14, 0, 0]),
    TableRow(13, b"", false, 0, 0, &[], &[0, 0, 0]),
    TableRow(14, b"v", false, 0, 0, &[], &[1, 0, 0]),
    TableRow(15, b".data", false, 4, 0, &[], &[0, 0, 0]),
    TableRow(16, b"double", false, 8, 0, &[], &[0, 0, 0]),
    TableRow(17, b"note", false, 0, 0, &[], &[2, 0, 0]),
    TableRow(18, b"user", false, 0, 0, &[], &[1, 0, 0]),
    TableRow(19, b"w", false, 8, 0, &[], &[0, 0, 0]),
    TableRow(8, b"a", false, 0, 0, &[], &[2, 0, 0]),
    TableRow(
        4,
        b"two",
        false,
        20,
        0,
        &[(b"m", 0), (b"m", 64), (b"m", 128)],
        &[1, 1, 1],
    ),
    TableRow(8, b"u", false, 0, 0, &[], &[24, 0, 0]),
    TableRow(5, b"", false, 4, 0, &[(b"m", 0)], &[1, 0, 0]),
    TableRow(8, b"t", false, 0, 0, &[], &[24, 0, 0]),
];

fn name(alloc: Global, text: &str) -> Result<Text, AllocError> {
    Ok(Text::new(String::from_str(alloc, text)?))
}

/// What is shown of some names, or of all types that can be shown, where the table and the style
/// are as `show` asks.
fn shown(
    alloc: Global,
    table: &Table<'_>,
    names: Option<&[Text]>,
    style: Style,
) -> Result<Result<Bytes, ShowFault>, Fail> {
    if !refer_to_one_another(table.types.items()) || style.line == 0 {
        return Err(Fail::from("no table"));
    }
    match names {
        None => Ok(show(alloc, table, 8, None, style)),
        Some(names) if names.len() <= 1_000_000 => Ok(show(alloc, table, 8, Some(names), style)),
        Some(_) => Err(Fail::from("many names")),
    }
}

/// Words, or none.
type Words = Option<&'static [&'static str]>;

/// The same by words.
fn shown_by(
    alloc: Global,
    table: &Table<'_>,
    words: Words,
    style: Style,
) -> Result<Result<Bytes, ShowFault>, Fail> {
    let Some(words) = words else {
        return shown(alloc, table, None, style);
    };
    let mut names = Vec::new(alloc);
    for word in words {
        names.push(name(alloc, word)?)?;
    }
    shown(alloc, table, Some(names.as_slice()), style)
}

/// Whether these bytes are shown, or nothing is for this fault.
fn is_answer(shown: &Result<Bytes, ShowFault>, wanted: Result<&[u8], ShowFault>) -> bool {
    match (shown, wanted) {
        (Ok(found), Ok(bytes)) => *found.items() == *bytes,
        (Err(fault), Err(other)) => *fault == other,
        _ => false,
    }
}

/// A table, of which so many types are a base's, names, the least number of holes, and what is
/// shown, or why nothing is.
type Case = (TableRows, u32, Words, u32, Result<&'static [u8], ShowFault>);

/// What is shown in lines of sizes.
const LINES: &[Case] = &[
    (SMALL, 0, None, 0, Ok(b"a\t12\t1\nt\t4\t0\n")),
    (SMALL, 0, None, 1, Ok(b"a\t12\t1\n")),
    (
        SMALL,
        0,
        Some(&["t", "a", "t"]),
        0,
        Ok(b"t\t4\t0\na\t12\t1\nt\t4\t0\n"),
    ),
    (
        EVERY_KIND,
        0,
        None,
        0,
        Ok(b"a\t12\t1\nt\t4\t0\na\t16\t0\ntwo\t20\t2\nu\t4\t0\nt\t4\t0\n"),
    ),
    (EVERY_KIND, 0, None, 1, Ok(b"a\t12\t1\ntwo\t20\t2\n")),
    (EVERY_KIND, 0, None, 2, Ok(b"two\t20\t2\n")),
    (EVERY_KIND, 0, None, 3, Ok(b"")),
    // The types of a base are shown by name alone.
    (
        EVERY_KIND,
        4,
        None,
        0,
        Ok(b"a\t16\t0\ntwo\t20\t2\nu\t4\t0\nt\t4\t0\n"),
    ),
    (EVERY_KIND, 4, Some(&["a"]), 0, Ok(b"a\t12\t1\na\t16\t0\n")),
    // Names that two types have, repeated ones, and all of them with a hole.
    (EVERY_KIND, 0, Some(&["t"]), 0, Ok(b"t\t4\t0\nt\t4\t0\n")),
    (
        EVERY_KIND,
        0,
        Some(&["two", "a", "two"]),
        0,
        Ok(b"two\t20\t2\na\t12\t1\na\t16\t0\ntwo\t20\t2\n"),
    ),
    (EVERY_KIND, 0, Some(&["u", "a"]), 1, Ok(b"a\t12\t1\n")),
    // The structure without a hole is refused too where holes are asked for.
    (LACKING, 0, Some(&["t", "b"]), 0, Err(NoName(1))),
    (LACKING, 0, None, 1, Err(NoSize(0))),
    (EVERY_KIND, 0, Some(&["int", "a"]), 0, Err(NoName(0))),
    (EVERY_KIND, 0, Some(&["a", "e"]), 0, Err(NoName(1))),
    (EVERY_KIND, 0, Some(&["two", "f"]), 0, Err(NoName(1))),
    (EVERY_KIND, 0, Some(&["t", "call"]), 0, Err(NoName(1))),
    (EVERY_KIND, 0, Some(&["v", "w"]), 0, Err(NoName(0))),
    (EVERY_KIND, 0, Some(&["a", "A"]), 0, Err(NoName(1))),
    (EVERY_KIND, 0, Some(&["a", "a "]), 0, Err(NoName(1))),
    (EVERY_KIND, 0, Some(&["tw", "two"]), 0, Err(NoName(0))),
];

/// What is shown in texts: an empty line is between two.
const TEXTS: &[Case] = &[
    (SMALL, 0, Some(&["t"]), 0, Ok(T_TEXT)),
    (SMALL, 0, Some(&["t", "t"]), 0, Ok(T_TEXT_TWICE)),
];

const T_TEXT: &[u8] = b"typedef struct {\n\
    \tint                        z;                    /*     0     4 */\n\
    \n\
    \t/* size: 4, cachelines: 1, members: 1 */\n\
    \t/* last cacheline: 4 bytes */\n\
    } t;\n";

const T_TEXT_TWICE: &[u8] = b"typedef struct {\n\
    \tint                        z;                    /*     0     4 */\n\
    \n\
    \t/* size: 4, cachelines: 1, members: 1 */\n\
    \t/* last cacheline: 4 bytes */\n\
    } t;\n\
    \n\
    typedef struct {\n\
    \tint                        z;                    /*     0     4 */\n\
    \n\
    \t/* size: 4, cachelines: 1, members: 1 */\n\
    \t/* last cacheline: 4 bytes */\n\
    } t;\n";

/// Whether what is shown of a table is what its case says, in lines of sizes or in texts.
fn is_shown(alloc: Global, case: &Case, sizes: bool) -> Result<bool, Fail> {
    let (rows, base, words, holes, wanted) = *case;
    let table = table_of(base, types_of(alloc, rows)?);
    let style = Style {
        sizes,
        holes,
        line: 64,
    };
    let shown = shown_by(alloc, &table, words, style)?;
    Ok(is_answer(&shown, wanted))
}

/// The first case that is shown otherwise, by its place in the list.
fn first_other(alloc: Global, cases: &[Case], sizes: bool) -> Result<Option<usize>, Fail> {
    for (k, case) in cases.iter().enumerate() {
        if !is_shown(alloc, case, sizes)? {
            return Ok(Some(k));
        }
    }
    Ok(None)
}

#[test]
fn lines_and_texts(rt: HostRuntime) -> Result<(), Fail> {
    assert_eq!(rt; first_other(rt.alloc(), LINES, true)?, None);
    assert_eq!(rt; first_other(rt.alloc(), TEXTS, false)?, None);
    Ok(())
}
