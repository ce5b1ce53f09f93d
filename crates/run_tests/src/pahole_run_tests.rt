//! Runs over a world in memory.
ghost use Rattle.std.specs.Prelude.{◌<◌, ◌^◌};

use crate::gates::MeetingGate;
use dw_base::{Bytes, Limits, Order, SHIPPED};
use pahole_run::run;
use small_files::bytes::{INFO_AT, Sections, file_of, put_unit};
use std::alloc::{AllocError, Global};
use std::test::Fail;
use world_io::{Files, HeldFile, MemoryWorld, OpenGate, Stop, Stops};

/// The abbreviations of all files: the code, the tag, children or none, attributes and forms.
const ABBREVIATIONS: &[u8] = &[
    1, 0x11, 1, 0x13, 0x0b, 0, 0, // compile_unit with language
    2, 0x24, 0, 0x03, 0x08, 0x0b, 0x0b, 0x3e, 0x0b, 0, 0, // base_type with name, byte_size, encoding
    3, 0x13, 1, 0x03, 0x08, 0x0b, 0x0b, 0, 0, // structure_type with name, byte_size
    4, 0x0d, 0, 0x03, 0x08, 0x49, 0x13, 0x38, 0x0b, 0, 0, // member with name, type, location
    5, 0x0f, 0, 0x49, 0x13, 0, 0, // pointer_type with type
    6, 0x2e, 1, 0x03, 0x08, 0x3f, 0x19, 0x49, 0x13, 0, 0, // subprogram with name, external, type
    7, 0x05, 0, 0x03, 0x08, 0x49, 0x13, 0, 0, // formal_parameter with name, type
    0,
];

/// A unit of the base type `int`.
const INT: &[u8] = b"\x01\x1d\x02int\0\x04\x05\0";

/// A unit of C's `struct list_head { struct list_head *next, *prev; }`.
const LIST_HEAD: &[u8] =
    b"\x01\x1d\x03list_head\0\x10\x04next\0\x31\0\0\0\0\x04prev\0\x31\0\0\0\x08\0\x05\x0e\0\0\0\0";

/// A unit of `int` and the function `int f(int a)`.
const FUNC: &[u8] = b"\x01\x1d\x02int\0\x04\x05\x06f\0\x0e\0\0\0\x07a\0\x0e\0\0\0\0\0";

/// A file of these units.
fn file_with(alloc: Global, order: Order, units: &[&[u8]]) -> Result<Vec<u8>, AllocError> {
    let mut info = Vec::new(alloc);
    for entries in units {
        put_unit(&mut info, order, 5, 0, entries)?;
    }
    let sections = Sections {
        info: &info,
        abbrev: ABBREVIATIONS,
        text: &[],
        line_text: &[],
    };
    file_of(alloc, order, sections)
}

/// The table of one `int` of 4 bytes.
const ONE_INT_BTF: &[u8] = &[
    0x9f, 0xeb, 1, 0, 0x18, 0, 0, 0, // the header: magic, version, flags and its bytes
    0, 0, 0, 0, 0x10, 0, 0, 0, // the types: offset and bytes
    0x10, 0, 0, 0, 5, 0, 0, 0, // the names: offset and bytes
    1, 0, 0, 0, 0, 0, 0, 1, 4, 0, 0, 0, // INT
    0x20, 0, 0, 1, // its bits
    0, b'i', b'n', b't', 0, // the names
];

/// The same in the other byte order.
const BIG_INT_BTF: &[u8] = &[
    0xeb, 0x9f, 1, 0, 0, 0, 0, 0x18, // the header: magic, version, flags and its bytes
    0, 0, 0, 0, 0, 0, 0, 0x10, // the types: offset and bytes
    0, 0, 0, 0x10, 0, 0, 0, 5, // the names: offset and bytes
    0, 0, 0, 1, 1, 0, 0, 0, 0, 0, 0, 4, // INT
    1, 0, 0, 0x20, // its bits
    0, b'i', b'n', b't', 0, // the names
];

/// The table of one `list_head` and a pointer to it.
const LIST_HEAD_BTF: &[u8] = &[
    0x9f, 0xeb, 1, 0, 0x18, 0, 0, 0, // the header: magic, version, flags and its bytes
    0, 0, 0, 0, 0x30, 0, 0, 0, // the types: offset and bytes
    0x30, 0, 0, 0, 0x15, 0, 0, 0, // the names: offset and bytes
    1, 0, 0, 0, 2, 0, 0, 4, 0x10, 0, 0, 0, // STRUCT
    0x0b, 0, 0, 0, 2, 0, 0, 0, 0, 0, 0, 0, // a member
    0x10, 0, 0, 0, 2, 0, 0, 0, 0x40, 0, 0, 0, // a member
    0, 0, 0, 0, 0, 0, 0, 2, 1, 0, 0, 0, // PTR
    0, b'l', b'i', b's', b't', b'_', b'h', b'e', b'a', b'd', 0, // the names
    b'n', b'e', b'x', b't', 0, b'p', b'r', b'e', b'v', 0, // and more of them
];

/// The table of `int`, the prototype of `f`, and `f`.
const ONE_FUNC_BTF: &[u8] = &[
    0x9f, 0xeb, 1, 0, 0x18, 0, 0, 0, // the header: magic, version, flags and its bytes
    0, 0, 0, 0, 0x30, 0, 0, 0, // the types: offset and bytes
    0x30, 0, 0, 0, 9, 0, 0, 0, // the names: offset and bytes
    1, 0, 0, 0, 0, 0, 0, 1, 4, 0, 0, 0, // INT
    0x20, 0, 0, 1, // its bits
    0, 0, 0, 0, 1, 0, 0, 0x0d, 1, 0, 0, 0, // FUNC_PROTO
    5, 0, 0, 0, 1, 0, 0, 0, // a parameter
    7, 0, 0, 0, 1, 0, 0, 0x0c, 2, 0, 0, 0, // FUNC
    0, b'i', b'n', b't', 0, b'a', 0, b'f', 0, // the names
];

/// Adds a file with some of its bytes changed.
fn add_file<'c>(
    alloc: Global,
    files: &'c mut Vec<HeldFile>,
    name: &'c [u8],
    bytes: &'c [u8],
    changes: &'c [(usize, u8)],
) -> Result<(), AllocError> {
    let mut changed = Vec::from_slice(alloc, bytes)?;
    for change in changes {
        if change.0 < changed.len() {
            changed[change.0] = change.1;
        }
    }
    files.push(HeldFile {
        name: Bytes::new(Vec::from_slice(alloc, name)?),
        bytes: Bytes::new(changed),
    })?;
    Ok(())
}

fn world(
    alloc: Global,
    files: Vec<HeldFile>,
    stop: Option<(u64, u64)>,
) -> Result<MemoryWorld, AllocError> {
    let mut stops = Vec::new(alloc);
    if let Some((call, takes)) = stop {
        stops.push(Stop { call, takes })?;
    }
    MemoryWorld::new(alloc, Files::new(files), Stops::new(stops))
}

fn words(alloc: Global, text: &str) -> Result<Vec<String>, AllocError> {
    let mut all = Vec::new(alloc);
    for word in text.split_whitespace() {
        all.push(String::from_str(alloc, word)?)?;
    }
    Ok(all)
}

const WORDS: &str = "--btf_encode_detached=o a";

/// What the file `a` holds.
#[derive(Clone, Copy)]
enum Content {
    /// There is no such file.
    Absent,
    Bytes(&'static [u8]),
    /// An ELF file of these units.
    Units(Order, &'static [&'static [u8]]),
}

const ONE_INT: Content = Content::Units(Order::Little, &[INT]);

const ONE_FUNC: Content = Content::Units(Order::Little, &[FUNC]);

const INT_TABLE: Content = Content::Bytes(ONE_INT_BTF);

/// The words, the file `a`, a stop of the world, and then the status, the complaint and what is
/// stored under `o`.
type Run = (
    &'static str,
    Content,
    Option<(u64, u64)>,
    u8,
    &'static str,
    Option<&'static [u8]>,
);

const RUNS: &[Run] = &[
    (WORDS, ONE_INT, None, 0, "", Some(ONE_INT_BTF)),
    (
        "a -j4 a --btf_encode_detached=o",
        ONE_INT,
        None,
        0,
        "",
        Some(ONE_INT_BTF),
    ),
    (
        WORDS,
        Content::Units(Order::Big, &[INT]),
        None,
        0,
        "",
        Some(BIG_INT_BTF),
    ),
    (
        WORDS,
        Content::Units(Order::Little, &[LIST_HEAD, LIST_HEAD]),
        None,
        0,
        "",
        Some(LIST_HEAD_BTF),
    ),
    (
        "--funcs --btf_encode_detached=o a",
        ONE_FUNC,
        None,
        0,
        "",
        Some(ONE_FUNC_BTF),
    ),
    (WORDS, ONE_FUNC, None, 0, "", Some(ONE_INT_BTF)),
    (
        WORDS,
        Content::Bytes(b""),
        None,
        1,
        "pahole: a: image 0: error 10\n",
        None,
    ),
    (
        WORDS,
        ONE_INT,
        Some((1, 7)),
        3,
        "pahole: cannot store o\n",
        Some(b"\x9f\xeb\x01\x00\x18\x00\x00"),
    ),
    (
        WORDS,
        ONE_INT,
        Some((0, 7)),
        3,
        "pahole: cannot read a\n",
        None,
    ),
    (
        WORDS,
        Content::Absent,
        None,
        3,
        "pahole: cannot read a\n",
        None,
    ),
    (WORDS, Content::Absent, Some((1, 9)), 3, "pahole: c", None),
    (
        "",
        Content::Absent,
        None,
        2,
        "pahole: word 0: usage 6\n",
        None,
    ),
    (
        "--btf_base=b --btf_encode_detached=o a",
        ONE_INT,
        None,
        3,
        "pahole: cannot read b\n",
        None,
    ),
    (
        "--btf_base=a --btf_encode_detached=o a",
        ONE_INT,
        None,
        1,
        "pahole: a: btf 0: error 90\n",
        None,
    ),
    ("-s a", ONE_INT, None, 0, "", None),
    ("-C b a", ONE_INT, None, 5, "pahole: no type b\n", None),
    (
        "-F btf a",
        ONE_INT,
        None,
        1,
        "pahole: a: btf 0: error 90\n",
        None,
    ),
    ("-F btf a", Content::Bytes(BIG_INT_BTF), None, 0, "", None),
    (
        "-F btf -C int a",
        INT_TABLE,
        None,
        5,
        "pahole: no type int\n",
        None,
    ),
    ("-F btf --btf_base=a a", INT_TABLE, None, 0, "", None),
];

/// The files of a world with at most one, `a`.
fn files_of(alloc: Global, held: Content) -> Result<Vec<HeldFile>, AllocError> {
    let mut files = Vec::new(alloc);
    match held {
        Content::Absent => {}
        Content::Bytes(bytes) => add_file(alloc, &mut files, b"a", bytes, &[])?,
        Content::Units(order, units) => {
            let bytes = file_with(alloc, order, units)?;
            add_file(alloc, &mut files, b"a", &bytes, &[])?;
        }
    }
    Ok(files)
}

#[test]
fn encodes_one_file(rt: HostRuntime) -> Result<(), Fail> {
    let alloc = rt.alloc();
    for &(text, held, stop, status, complaint, stored) in RUNS {
        let mut world = world(alloc, files_of(alloc, held)?, stop)?;
        let words = words(alloc, text)?;
        let answer = run(&rt, alloc, &mut world, &OpenGate, SHIPPED, words.as_slice());
        assert_eq!(rt; answer, status, "{text}");
        assert_eq!(rt; world.complained(), complaint.as_bytes());
        assert_eq!(rt; world.stored("o"), stored);
        assert_eq!(rt; world.printed(), b"".as_slice());
    }
    Ok(())
}

/// The words, the file `a`, a call that fails and how many bytes it takes, and then the status, the
/// whole complaint, and how many of its bytes may be put out.
type CutComplaint = (&'static str, Content, (u64, u64), u8, &'static str, usize);

const CUT_COMPLAINTS: &[CutComplaint] = &[
    (
        "-x a",
        Content::Absent,
        (0, 0),
        2,
        "pahole: word 0: usage 1\n",
        0,
    ),
    (
        WORDS,
        Content::Bytes(b""),
        (1, 9),
        1,
        "pahole: a: image 0: error 10\n",
        9,
    ),
];

/// Where a complaint fails, its beginning is put out, and the status is that of the refusal.
#[test]
fn complains_as_far_as_it_can(rt: HostRuntime) -> Result<(), Fail> {
    let alloc = rt.alloc();
    for &(text, held, stop, status, complaint, most) in CUT_COMPLAINTS {
        let mut world = world(alloc, files_of(alloc, held)?, Some(stop))?;
        let words = words(alloc, text)?;
        let answer = run(&rt, alloc, &mut world, &OpenGate, SHIPPED, words.as_slice());
        assert_eq!(rt; answer, status, "{text}");
        assert!(rt; complaint.as_bytes().starts_with(world.complained()));
        assert!(rt; world.complained().len() <= most, "{text}");
        assert_eq!(rt; world.stored("o"), None);
        assert_eq!(rt; world.printed(), b"".as_slice());
    }
    Ok(())
}

/// The words, a stop of the world, and then the status, the complaint and what is printed.
type Line = (
    &'static str,
    Option<(u64, u64)>,
    u8,
    &'static str,
    &'static str,
);

const LINES: &[Line] = &[
    (
        "--selfmade=0",
        None,
        0,
        "",
        "units 1, entries 5, types 5, bytes 144\n",
    ),
    (
        "-j4 --selfmade=1049602",
        None,
        0,
        "",
        "units 3, entries 21, types 11, bytes 296\n",
    ),
    (
        "--selfmade=0",
        Some((0, 7)),
        3,
        "pahole: cannot print\n",
        "units 1",
    ),
];

/// A made input is neither loaded nor stored, and one line tells of its table.
#[test]
fn tells_of_a_made_input(rt: HostRuntime) -> Result<(), Fail> {
    let alloc = rt.alloc();
    for &(text, stop, status, complaint, printed) in LINES {
        let mut world = world(alloc, Vec::new(alloc), stop)?;
        let words = words(alloc, text)?;
        let answer = run(&rt, alloc, &mut world, &OpenGate, SHIPPED, words.as_slice());
        assert_eq!(rt; answer, status);
        assert_eq!(rt; world.complained(), complaint.as_bytes());
        assert_eq!(rt; world.stored("o"), None);
        assert_eq!(rt; world.printed(), printed.as_bytes());
    }
    Ok(())
}

/// Two workers read two units at the same time: each unit is held until the other has begun.
#[test]
fn reads_units_at_once(rt: HostRuntime) -> Result<(), Fail> {
    let alloc = rt.alloc();
    let gate = MeetingGate::new();
    let held = Content::Units(Order::Little, &[INT, INT]);
    let mut world = world(alloc, files_of(alloc, held)?, None)?;
    let words = words(alloc, "-j2 --btf_encode_detached=o a")?;
    let answer = run(&rt, alloc, &mut world, &gate, SHIPPED, words.as_slice());
    assert!(rt; gate.have_met());
    assert_eq!(rt; answer, 0);
    assert_eq!(rt; world.complained(), b"".as_slice());
    assert_eq!(rt; world.stored("o"), Some(ONE_INT_BTF));
    Ok(())
}

/// Where the one type has no name: its entry is `02 00 04 05`, and null entries follow.
const NAMELESS: [(usize, u8); 6] = [
    (INFO_AT + 15, 0),
    (INFO_AT + 16, 4),
    (INFO_AT + 17, 5),
    (INFO_AT + 18, 0),
    (INFO_AT + 19, 0),
    (INFO_AT + 20, 0),
];
/// The unit has version 3.
const OLD: [(usize, u8); 1] = [(INFO_AT + 4, 3)];
/// The file does not begin as an ELF file.
const NO_ELF: [(usize, u8); 1] = [(3, 0)];

/// What is changed in the file `a`, the byte order of `b`, how many bytes fewer than `a` has a file
/// may have, what is changed in `b`, and the complaint.
type RefusedFiles = (Changes, Order, u64, Changes, &'static str);

/// Places in a file, and the bytes that stand there instead.
type Changes = &'static [(usize, u8)];

const REFUSALS: &[RefusedFiles] = &[
    (
        &NO_ELF,
        Order::Little,
        1,
        &[],
        "pahole: a: image 0: error 110\n",
    ),
    (
        &NO_ELF,
        Order::Little,
        0,
        &OLD,
        "pahole: a: image 0: error 10\n",
    ),
    (
        &OLD,
        Order::Little,
        0,
        &NO_ELF,
        "pahole: b: image 0: error 10\n",
    ),
    (&OLD, Order::Big, 0, &[], "pahole: b: image 4: error 16\n"),
    (
        &NAMELESS,
        Order::Little,
        0,
        &OLD,
        "pahole: b: .debug_info 0: error 21 3\n",
    ),
    (
        &OLD,
        Order::Little,
        0,
        &NAMELESS,
        "pahole: a: .debug_info 0: error 21 3\n",
    ),
    (
        &NAMELESS,
        Order::Little,
        0,
        &NAMELESS,
        "pahole: a: .debug_info 14: error 60\n",
    ),
    (
        &[],
        Order::Little,
        0,
        &NAMELESS,
        "pahole: b: .debug_info 14: error 60\n",
    ),
    (
        &[],
        Order::Little,
        0,
        &[],
        "pahole: -: table 0: error 111 2\n",
    ),
];

/// Limits of so many bytes for a file, below 2^32, and of one node.
fn one_node(file_bytes: u64) -> Limits
    ensures file { result.file_bytes < 2 ^ 32 }
    ensures all { result.all_bytes < 2 ^ 32 }
{
    Limits {
        file_bytes: file_bytes.min(0xffff_ffff),
        all_bytes: SHIPPED.all_bytes,
        nodes: 1,
    }
}

/// The first refusal of two files, each of which may have a fault of its own: the loads come before
/// all images, the images before the comparison of the files, and that before all headers of units,
/// which come before all types.
#[test]
fn refuses_in_order(rt: HostRuntime) -> Result<(), Fail> {
    let alloc = rt.alloc();
    for &(first, order, fewer, changes, complaint) in REFUSALS {
        let one = file_with(alloc, Order::Little, &[INT])?;
        let mut files = Vec::new(alloc);
        add_file(alloc, &mut files, b"a", &one, first)?;
        add_file(
            alloc,
            &mut files,
            b"b",
            &file_with(alloc, order, &[INT])?,
            changes,
        )?;
        let mut world = world(alloc, files, None)?;
        let words = words(alloc, "--btf_encode_detached=o a b")?;
        let limits = one_node((one.len() as u64).saturating_sub(fewer));
        let answer = run(&rt, alloc, &mut world, &OpenGate, limits, words.as_slice());
        assert_eq!(rt; answer, 1);
        assert_eq!(rt; world.complained(), complaint.as_bytes());
        assert_eq!(rt; world.stored("o"), None);
    }
    Ok(())
}
