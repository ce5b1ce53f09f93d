//! Units in bytes, and their graph.
ghost use Rattle.std.specs.Prelude.{◌≤◌, All};
ghost use Rattle.unit_graph.specs.Sources.{IsReadable};

use c_model::Graph;
use c_types::TypeFault;
use dw_base::Order;
use dwarf_abbrev::AbbrevFault;
use small_files::bytes::{info_of, plain_file, put_unit};
use small_files::gates::{HoldingGate, Told};
use small_files::texts::{append, put_refs};
use small_files::units::{push_units, units_of_two};
use std::alloc::{AllocError, Global};
use std::test::Fail;
use std::thread::Threads;
use unit_encoder::{EncodeFault, UnitsToRead, encode, encode_files};
use unit_graph::UnitAt;
use world_io::{Gate, OpenGate};

/// The abbreviations of all cases: the code, the tag, children or none, attributes and forms.
const ABBREVIATIONS: &[u8] = &[
    1, 0x11, 1, 0, 0, // compile_unit
    2, 0x24, 0, 0x03, 0x08, 0x0b, 0x0b, 0x3e, 0x0b, 0, 0, // base_type with name, byte_size, encoding
    3, 0x0f, 0, 0x49, 0x13, 0, 0, // pointer_type with type by ref4
    4, 0x0f, 0, 0x49, 0x10, 0, 0, // by ref_addr
    5, 0x01, 1, 0x49, 0x13, 0, 0, // array_type with type
    6, 0x21, 0, 0x2f, 0x0b, 0, 0, // subrange_type with upper_bound
    7, 0x15, 1, 0, 0, // subroutine_type
    8, 0x05, 0, 0, 0, // formal_parameter
    9, 0x11, 1, 0x13, 0x0b, 0, 0, // compile_unit with language
    10, 0x2e, 0, 0, 0, // subprogram
    11, 0x0f, 0, 0x49, 0x14, 0, 0, // pointer_type with type by ref8
    12, 0x13, 1, 0x03, 0x08, 0x0b, 0x0b, 0, 0, // structure_type with name, byte_size
    13, 0x0d, 0, 0x03, 0x08, 0x49, 0x13, 0x38, 0x0b, 0, 0, // member with name, type by ref4, data_member_location
    14, 0x13, 0, 0x03, 0x08, 0x3c, 0x19, 0, 0, // structure_type with name, declared
    15, 0x16, 0, 0x03, 0x08, 0x49, 0x13, 0, 0, // typedef with name, type by ref4
    0,
];

/// A file with units of these entries and the abbreviations of all cases.
fn file_of(alloc: Global, units: &[&[u8]]) -> Result<Vec<u8>, AllocError> {
    plain_file(alloc, &info_of(alloc, units)?, ABBREVIATIONS)
}

/// The nodes in a line: kind, last word, and what they refer to.
fn line(alloc: Global, graph: &Graph<'_>) -> Result<String, Fail> {
    let mut text = String::new(alloc);
    for x in 0..graph.len() {
        let node = graph.node(x);
        let label = &node.label;
        append(
            &mut text,
            format!(in alloc; "{}:{}", label.kind, label.extra),
        )?;
        put_refs(alloc, &mut text, node.targets.items())?;
        text.push_str(" ")?;
    }
    Ok(text)
}

/// The graph of some units in a line, or why there is none.
fn answer<R: Threads + Sync, G: Gate>(
    rt: &R,
    alloc: Global,
    gate: &G,
    jobs: u32,
    most: u32,
    units: &[UnitAt<'_>],
) -> Result<Result<String, EncodeFault>, Fail>
    requires jobs { 1 ≤ jobs }
    requires readable { All IsReadable units.now }
{
    if units.len() as u64 >= 1 << 32 {
        return Ok(Ok(String::new(alloc)));
    }
    match encode(rt, alloc, gate, jobs, most, units) {
        Ok(graph) => Ok(Ok(line(alloc, &graph)?)),
        Err(fault) => Ok(Err(fault)),
    }
}

/// The graph of the units of files in a line, or why there is none. The files have these numbers.
fn answer_of<R: Threads + Sync, G: Gate>(
    rt: &R,
    alloc: Global,
    gate: &G,
    jobs: u32,
    most: u32,
    numbers: &[u32],
    files: &[Vec<u8>],
) -> Result<Result<String, EncodeFault>, Fail>
    requires jobs { 1 ≤ jobs }
{
    let mut all = Vec::new(alloc);
    for (file, bytes) in numbers.iter().zip(files.iter()) {
        push_units(alloc, &mut all, *file, bytes.as_slice())?;
    }
    answer(rt, alloc, gate, jobs, most, all.as_slice())
}

/// One file of units of these entries.
fn one_file(alloc: Global, units: &[&[u8]]) -> Result<Vec<Vec<u8>>, AllocError> {
    let mut files = Vec::new(alloc);
    files.push(file_of(alloc, units)?)?;
    Ok(files)
}

/// What is wanted: the graph in a line, or why there is none.
type WantedGraph = Result<&'static str, WhyNoGraph>;

/// Why units have no graph.
#[derive(Clone, Copy)]
enum WhyNoGraph {
    /// There are too many nodes, so many with the first unit that has them.
    Nodes(u64),
    /// A reference of a file, from an offset to another, names an entry of this tag, or none (0).
    Out(u32, u64, u128, u64),
    /// A unit of the first file is refused.
    Unit(u32, TypeFault),
}

/// The fault that a reason stands for.
fn fault_of(why: WhyNoGraph) -> EncodeFault {
    match why {
        WhyNoGraph::Nodes(nodes) => EncodeFault::NodesTooMany(nodes),
        WhyNoGraph::Out(file, from, to, tag) => EncodeFault::TypeRefOut {
            file,
            from,
            to,
            tag,
        },
        WhyNoGraph::Unit(unit, fault) => EncodeFault::Unit {
            file: 0,
            unit,
            fault,
        },
    }
}

/// Whether what came of units is what is wanted.
fn is_wanted(found: &Result<String, EncodeFault>, wanted: WantedGraph) -> bool {
    match (found, wanted) {
        (Ok(line), Ok(wanted)) => line.as_str() == wanted,
        (Err(fault), Err(why)) => *fault == fault_of(why),
        _ => false,
    }
}

const INT: &[u8] = b"\x01\x02i\0\x04\x05\0";
/// A pointer to itself, by the offset in its unit.
const ITSELF: &[u8] = b"\x01\x03\x0d\0\0\0\0";
/// A pointer to the first type of the file, by the offset in the file.
const OVER: &[u8] = b"\x01\x04\x0d\0\0\0\0";
/// A pointer to the first type of a second unit, where this is the first.
const AHEAD: &[u8] = b"\x01\x04\x20\0\0\0\0";
/// An array of six of `int`.
const ARRAY: &[u8] = b"\x01\x02i\0\x04\x05\x05\x0d\0\0\0\x06\x04\x06\x05\0\0";
/// A function, and a pointer to it.
const TO_FUNCTION: &[u8] = b"\x01\x0a\x03\x0d\0\0\0\0";
/// A pointer to an offset of 64 bits, all of them set, in its unit.
const FAR: &[u8] = b"\x01\x0b\xff\xff\xff\xff\xff\xff\xff\xff\0";

const FORWARD: &[u8] = b"\x01\x03\x12\0\0\0\x02i\0\x04\x05\0";

const BACKWARD: &[u8] = b"\x01\x02i\0\x04\x05\x03\x0d\0\0\0\0";
/// A pointer to the first type of a file whose first unit is one of another language.
const OVER_OTHER: &[u8] = b"\x01\x04\x0e\0\0\0\0";

const TO_ROOT: &[u8] = b"\x01\x03\x0c\0\0\0\0";
/// A pointer to the middle of an entry.
const TO_MIDDLE: &[u8] = b"\x01\x02i\0\x04\x05\x03\x0e\0\0\0\0";
/// A subroutine type with a parameter without a type.
const UNTYPED: &[u8] = b"\x01\x07\x08\0\0";
/// A unit of another language.
const OTHER: &[u8] = b"\x09\x04\x02i\0\x04\x05\0";

const ROOT: &[u8] = b"\x01\0";
/// The same as `UNTYPED`, behind two base types.
const LATE: &[u8] = b"\x01\x02i\0\x04\x05\x02i\0\x04\x05\x07\x08\0\0";

/// The units of one file, the most nodes, and what comes of them.
const GRAPHS: &[(&[&[u8]], u32, WantedGraph)] = &[
    (&[], 0, Ok("")),
    (&[ROOT], 0, Ok("")),
    (&[FORWARD], 8, Ok("2:0,1 1:16777248 ")),
    (&[BACKWARD], 8, Ok("1:16777248 2:0,0 ")),
    (&[ITSELF, ITSELF], 2, Ok("2:0,0 2:0,1 ")),
    (&[ITSELF, ITSELF], 1, Err(WhyNoGraph::Nodes(2))),
    (&[INT, OVER], 8, Ok("1:16777248 2:0,0 ")),
    (&[OVER, INT], 8, Ok("2:0,0 1:16777248 ")),
    (&[AHEAD, INT], 8, Ok("2:0,1 1:16777248 ")),
    (&[ARRAY], 3, Ok("1:16777248 3:30,0,2 1:32 ")),
    (&[ARRAY], 2, Err(WhyNoGraph::Nodes(3))),
    (
        &[ARRAY, ARRAY],
        6,
        Ok("1:16777248 3:30,0,2 1:32 1:16777248 3:30,3,5 1:32 "),
    ),
    (&[TO_ROOT], 8, Err(WhyNoGraph::Out(0, 13, 12, 0x11))),
    (&[TO_FUNCTION], 8, Err(WhyNoGraph::Out(0, 14, 13, 0x2e))),
    (
        &[AHEAD, TO_FUNCTION],
        8,
        Err(WhyNoGraph::Out(0, 13, 32, 0x2e)),
    ),
    (&[TO_MIDDLE], 8, Err(WhyNoGraph::Out(0, 18, 14, 0))),
    (
        &[FAR],
        8,
        Err(WhyNoGraph::Out(0, 13, 18_446_744_073_709_551_615, 0)),
    ),
    (
        &[ITSELF, FAR],
        8,
        Err(WhyNoGraph::Out(0, 32, 18_446_744_073_709_551_634, 0)),
    ),
    (&[OTHER, OVER_OTHER], 8, Err(WhyNoGraph::Out(0, 33, 14, 0))),
    (&[TO_ROOT, FAR], 1, Err(WhyNoGraph::Nodes(2))),
    (
        &[ITSELF, UNTYPED],
        0,
        Err(WhyNoGraph::Unit(1, TypeFault::MissingType(33))),
    ),
    (
        &[UNTYPED, UNTYPED],
        0,
        Err(WhyNoGraph::Unit(0, TypeFault::MissingType(14))),
    ),
    (
        &[LATE, UNTYPED],
        0,
        Err(WhyNoGraph::Unit(0, TypeFault::MissingType(24))),
    ),
    (
        &[UNTYPED, LATE],
        0,
        Err(WhyNoGraph::Unit(0, TypeFault::MissingType(14))),
    ),
];

#[test]
fn graphs(rt: HostRuntime) -> Result<(), Fail> {
    let alloc = rt.alloc();
    for &(units, most, wanted) in GRAPHS {
        let files = one_file(alloc, units)?;
        for jobs in [1, 2, 4, 256] {
            let found = answer_of(&rt, alloc, &OpenGate, jobs, most, &[0], files.as_slice())?;
            assert!(rt; is_wanted(&found, wanted), "{found:?}");
        }
    }
    Ok(())
}

const TWO: &[u8] = b"\x01\x02i\0\x04\x05\x03\x12\0\0\0\0";
/// A pointer to the second type of `TWO`, which ends behind this unit.
const PAST: &[u8] = b"\x01\x04\x12\0\0\0\0";

/// The number of a file and its unit, those of another, and what comes of them.
const FILES: &[(u32, &[u8], u32, &[u8], WantedGraph)] = &[
    (0, INT, 1, OVER, Ok("1:16777248 2:0,1 ")),
    (1, INT, 0, OVER, Ok("1:16777248 2:0,1 ")),
    (0, TWO, 0, PAST, Ok("1:16777248 2:0,1 2:0,1 ")),
    (0, TWO, 1, PAST, Err(WhyNoGraph::Out(1, 13, 18, 0))),
    (1, PAST, 0, TWO, Err(WhyNoGraph::Out(1, 13, 18, 0))),
    (0, ITSELF, 0, ITSELF, Ok("2:0,1 2:0,1 ")),
];

/// A reference never leaves its file. Files may come in any order, and one may come again: then the
/// last node at a place counts.
#[test]
fn files(rt: HostRuntime) -> Result<(), Fail> {
    let alloc = rt.alloc();
    for &(first, unit, second, other, wanted) in FILES {
        let mut files = one_file(alloc, &[unit])?;
        files.push(file_of(alloc, &[other])?)?;
        let numbers = [first, second];
        let found = answer_of(&rt, alloc, &OpenGate, 1, 8, &numbers, files.as_slice())?;
        assert!(rt; is_wanted(&found, wanted), "{found:?}");
    }
    Ok(())
}

/// Units as compilers write them: a base type, one without a name, a typedef of the unit's root, a
/// structure with pointers to itself, and structures with pointers to each other.
const LONG_INT: &[u8] = b"\x09\x1d\x02int\0\x04\x05\0";

const NAMELESS: &[u8] = b"\x09\x1d\x02\0\x04\x05\0\0\0\0";

const TYPEDEF_OF_ROOT: &[u8] = b"\x09\x1d\x0ft\0\x0c\0\0\0\0";

const LIST_HEAD: &[u8] =
    b"\x09\x1d\x0clist_head\0\x10\x0dnext\0\x31\0\0\0\0\x0dprev\0\x31\0\0\0\x08\0\x03\x0e\0\0\0\0";

const A_TO_DECLARED: &[u8] = b"\x09\x1d\x0cA\0\x08\x0db\0\x1b\0\0\0\0\0\x03\x20\0\0\0\x0eB\0\0";

const B_TO_DECLARED: &[u8] = b"\x09\x1d\x0cB\0\x08\x0da\0\x1b\0\0\0\0\0\x03\x20\0\0\0\x0eA\0\0";

const BOTH: &[u8] =
    b"\x09\x1d\x0cA\0\x08\x0db\0\x1b\0\0\0\0\0\x03\x20\0\0\0\x0cB\0\x08\x0da\0\x2d\0\0\0\0\0\x03\x0e\0\0\0\0";

/// Units, the digits of those that the gate is told, and what comes of them.
const COMPILED: &[(&[&[u8]], u64, WantedGraph)] = &[
    (
        &[LIST_HEAD, LIST_HEAD],
        12,
        Ok("4:0,1,1 2:0,0 4:0,3,3 2:0,2 "),
    ),
    (
        &[A_TO_DECLARED, B_TO_DECLARED, BOTH],
        123,
        Ok("4:0,1 2:0,2 7:0 4:0,4 2:0,5 7:0 4:0,7 2:0,8 4:0,9 2:0,6 "),
    ),
    (
        &[LONG_INT, NAMELESS, LONG_INT, LONG_INT, NAMELESS, LONG_INT],
        12,
        Err(WhyNoGraph::Unit(1, TypeFault::MissingName(36))),
    ),
    (&[TYPEDEF_OF_ROOT], 1, Err(WhyNoGraph::Out(0, 14, 12, 0x11))),
];

#[test]
fn compiled_units(rt: HostRuntime) -> Result<(), Fail> {
    let alloc = rt.alloc();
    for &(units, told, wanted) in COMPILED {
        let gate = Told::new();
        let files = one_file(alloc, units)?;
        let found = answer_of(&rt, alloc, &gate, 1, 10, &[0], files.as_slice())?;
        assert!(rt; is_wanted(&found, wanted), "{found:?}");
        assert_eq!(rt; gate.digits(), told);
    }
    Ok(())
}

/// Two workers read two units at the same time: the first is held until the second has begun.
#[test]
fn two_workers(rt: HostRuntime) -> Result<(), Fail> {
    let alloc = rt.alloc();
    let gate = HoldingGate::new();
    let files = one_file(alloc, &[ITSELF, INT])?;
    let found = answer_of(&rt, alloc, &gate, 2, 8, &[0], files.as_slice())?;
    assert!(rt; gate.has_seen());
    assert!(rt; is_wanted(&found, Ok("2:0,0 1:16777248 ")), "{found:?}");
    Ok(())
}

/// Abbreviations by which the entries of `INT` are a structure.
const AS_STRUCTURE: &[u8] = &[
    1, 0x11, 1, 0, 0, // compile_unit
    2, 0x13, 0, 0x03, 0x08, 0x0b, 0x0b, 0x3e, 0x0b, 0, 0, // structure_type with name, byte_size, encoding
    0,
];

/// The graph of the units of two files in a line, or why there is none.
fn answer_of_two<R: Threads + Sync>(
    rt: &R,
    alloc: Global,
    jobs: u32,
    first: &[u8],
    second: &[u8],
) -> Result<Result<String, EncodeFault>, Fail>
    requires { 1 ≤ jobs }
{
    let all = units_of_two(alloc, first, second)?;
    if all.len() as u64 >= 1 << 32 {
        return Ok(Ok(String::new(alloc)));
    }
    let units = UnitsToRead {
        units: all.as_slice(),
        funcs: false,
    };
    match encode_files(rt, alloc, &OpenGate, jobs, 8, units) {
        Ok(types) => Ok(Ok(line(alloc, &types.graph.packed().unpack(alloc)?)?)),
        Err(fault) => Ok(Err(fault)),
    }
}

/// Units of the entries of `INT`, whose abbreviations stand at these offsets.
fn ints_at(alloc: Global, offsets: &[u64]) -> Result<Vec<u8>, AllocError> {
    let mut info = Vec::new(alloc);
    for at in offsets {
        put_unit(&mut info, Order::Little, 5, *at, INT)?;
    }
    Ok(info)
}

/// The abbreviations of the first files, with the entries of `INT` as those of a base type at 0, and
/// those of the second, with them as those of a structure at 0. The others stand behind them.
fn abbreviations(alloc: Global) -> Result<(Vec<u8>, Vec<u8>), AllocError> {
    let base_type = &ABBREVIATIONS[..16];
    let first = [base_type, &[0], AS_STRUCTURE].concat(alloc)?;
    let second = [AS_STRUCTURE, base_type, &[0]].concat(alloc)?;
    Ok((first, second))
}

/// Where the units of a first file and of a second one have their abbreviations, and what comes of
/// them.
const TABLES: &[(&[u64], &[u64], WantedGraph)] = &[
    (&[0, 0, 0], &[], Ok("1:16777248 1:16777248 1:16777248 ")),
    (&[0, 17, 17, 0], &[], Ok("1:16777248 4:0 4:0 1:16777248 ")),
    (&[0, 0], &[0, 0], Ok("1:16777248 1:16777248 4:0 4:0 ")),
    (&[17, 0], &[0, 17], Ok("4:0 1:16777248 4:0 1:16777248 ")),
    (
        &[0, 0, 999, 0],
        &[0],
        Err(WhyNoGraph::Unit(2, TypeFault::Abbrev(AbbrevFault::AbbrevTruncated(999)))),
    ),
];

/// A table is read by the place that a unit names in its own file.
#[test]
fn tables(rt: HostRuntime) -> Result<(), Fail> {
    let alloc = rt.alloc();
    let (ints_first, structures_first) = abbreviations(alloc)?;
    for &(first, second, wanted) in TABLES {
        let file = plain_file(alloc, &ints_at(alloc, first)?, &ints_first)?;
        let other = plain_file(alloc, &ints_at(alloc, second)?, &structures_first)?;
        for jobs in [1, 2, 256] {
            let found = answer_of_two(&rt, alloc, jobs, file.as_slice(), other.as_slice())?;
            assert!(rt; is_wanted(&found, wanted), "{found:?}");
        }
    }
    Ok(())
}
