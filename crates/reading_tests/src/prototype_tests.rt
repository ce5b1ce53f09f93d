//! Units in bytes, and the prototypes of their functions.
ghost use Rattle.std.specs.Prelude.{All, IfSome};
ghost use Rattle.unit_graph.specs.Links.{IsGraphOf};
ghost use Rattle.unit_graph.specs.Sources.{IsReadable};

use c_model::Graph;
use c_types::TypeFault;
use func_types::{FuncFault, FuncUnit, Protos, prototypes};
use small_files::bytes::{info_of, plain_file};
use small_files::texts::{append, put_refs, text_of};
use small_files::units::units_of_two;
use std::alloc::Global;
use std::test::Fail;
use std::thread::Threads;
use unit_encoder::encode;
use world_io::OpenGate;

/// The abbreviations of all cases: the code, the tag, children or none, attributes and forms.
const ABBREVIATIONS: &[u8] = &[
    1, 0x11, 1, 0, 0, // compile_unit
    2, 0x24, 0, 0x03, 0x08, 0x0b, 0x0b, 0x3e, 0x0b, 0, 0, // base_type with name, byte_size, encoding
    3, 0x2e, 1, 0x03, 0x08, 0x3f, 0x19, 0x49, 0x10, 0, 0, // subprogram with children, name, external, type by ref_addr
    4, 0x2e, 1, 0x03, 0x08, 0, 0, // with children, name
    5, 0x05, 0, 0x03, 0x08, 0x49, 0x10, 0, 0, // formal_parameter with name, type by ref_addr
    6, 0x05, 0, 0x03, 0x08, 0, 0, // with name
    0,
];

/// The graph of the types of some units; none where these are refused.
fn types_of<'a, R: Threads + Sync>(
    rt: &R,
    alloc: Global,
    units: &[FuncUnit<'a>],
) -> Option<Graph<'a>>
    requires { All IsReadable units.now }
    ensures { IfSome result (λ g. IsGraphOf units.now g.nodes) }
{
    if units.len() as u64 >= 1 << 32 {
        return None;
    }
    match encode(rt, alloc, &OpenGate, 1, u32::MAX, units) {
        Ok(graph) => Some(graph),
        Err(_) => None,
    }
}

/// The functions in a line: name, whether it is external, and the number, the kind and the targets
/// of its prototype.
fn line(alloc: Global, protos: &Protos<'_>) -> Result<String, Fail> {
    let mut text = String::new(alloc);
    for func in protos.funcs.items() {
        text.push_str(text_of(func.name.bytes()))?;
        if func.proto >= protos.graph.len() {
            return Ok(text);
        }
        let node = protos.graph.node(func.proto);
        append(
            &mut text,
            format!(in alloc; " {} {}:{}", func.external, func.proto, node.label.kind),
        )?;
        put_refs(alloc, &mut text, node.targets.items())?;
        text.push_str("; ")?;
    }
    Ok(text)
}

/// The functions of two files in a line, or why there are none.
fn answer<R: Threads + Sync>(
    rt: &R,
    alloc: Global,
    most: u32,
    first: &[&[u8]],
    second: &[&[u8]],
) -> Result<Result<String, FuncFault>, Fail> {
    let first = plain_file(alloc, &info_of(alloc, first)?, ABBREVIATIONS)?;
    let second = plain_file(alloc, &info_of(alloc, second)?, ABBREVIATIONS)?;
    let all = units_of_two(alloc, first.as_slice(), second.as_slice())?;
    if all.len() as u64 >= 1 << 32 {
        return Ok(Err(FuncFault::Memory));
    }
    let Some(graph) = types_of(rt, alloc, all.as_slice()) else {
        return Ok(Err(FuncFault::Memory));
    };
    match prototypes(alloc, most, &graph, all.as_slice()) {
        Ok(protos) => Ok(Ok(line(alloc, &protos)?)),
        Err(fault) => Ok(Err(fault)),
    }
}

/// `int` at 13 and a function at 18, which returns the type at 47 and has a parameter of `int`: the
/// first unit of a file.
const FIRST: &[u8] = b"\x01\x02i\0\x04\x05\x03f\0\x2f\0\0\0\x05a\0\x0d\0\0\0\0\0";
/// A type at 47 and a static function of a parameter of the type at 13: the second unit of that
/// file.
const SECOND: &[u8] = b"\x01\x02j\0\x08\x05\x04g\0\x05b\0\x0d\0\0\0\0\0";
/// A type at 13 and a static function of a parameter of that type: the first unit of a file.
const OTHER: &[u8] = b"\x01\x02k\0\x02\x05\x04h\0\x05c\0\x0d\0\0\0\0\0";
/// A function at 13 of a parameter at 16 without a type.
const UNTYPED: &[u8] = b"\x01\x04u\0\x06x\0\0\0";
/// Two functions at 13 and 21, which return themselves.
const OUT: &[u8] = b"\x01\x03p\0\x0d\0\0\0\0\x03q\0\x15\0\0\0\0\0";

/// Why there are no functions.
#[derive(Clone, Copy)]
enum WhyNoFunctions {
    /// There are too many nodes, so many with the first unit that has them.
    Nodes(u64),
    /// The unit of this number, of the second file, is refused by a parameter at 46.
    Unit(u32),
    /// The function at this offset of the second file returns a function there.
    Out(u64),
}

/// The fault that a reason stands for.
fn fault_of(why: WhyNoFunctions) -> FuncFault {
    match why {
        WhyNoFunctions::Nodes(nodes) => FuncFault::NodesTooMany(nodes),
        WhyNoFunctions::Unit(unit) => FuncFault::Unit {
            file: 1,
            unit,
            fault: TypeFault::MissingType(46),
        },
        WhyNoFunctions::Out(at) => FuncFault::TypeRefOut {
            file: 1,
            from: at,
            to: u128::from(at),
            tag: 0x2e,
        },
    }
}

/// Whether what came of units is what is wanted.
fn is_wanted(found: &Result<String, FuncFault>, wanted: Result<&str, WhyNoFunctions>) -> bool {
    match (found, wanted) {
        (Ok(line), Ok(wanted)) => line.as_str() == wanted,
        (Err(fault), Err(why)) => *fault == fault_of(why),
        _ => false,
    }
}

/// The units of two files, the most nodes, and what comes of them.
const PROTOTYPES: &[(&[&[u8]], &[&[u8]], u32, Result<&str, WhyNoFunctions>)] = &[
    (&[], &[], 0, Ok("")),
    (
        &[FIRST, SECOND],
        &[OTHER],
        9,
        Ok("f true 3:13,1,0; g false 4:13,void,0; h false 5:13,void,2; "),
    ),
    (&[FIRST, SECOND], &[OTHER], 8, Err(WhyNoFunctions::Nodes(9))),
    (&[SECOND], &[OUT], 99, Err(WhyNoFunctions::Out(13))),
    (&[SECOND], &[OUT], 6, Err(WhyNoFunctions::Nodes(7))),
    (
        &[FIRST, SECOND],
        &[OTHER, UNTYPED, UNTYPED],
        99,
        Err(WhyNoFunctions::Unit(3)),
    ),
    (&[OUT], &[OTHER, UNTYPED], 0, Err(WhyNoFunctions::Unit(2))),
];

#[test]
fn prototypes_in_lines(rt: HostRuntime) -> Result<(), Fail> {
    for &(first, second, most, wanted) in PROTOTYPES {
        let found = answer(&rt, rt.alloc(), most, first, second)?;
        assert!(rt; is_wanted(&found, wanted), "{found:?}");
    }
    Ok(())
}
