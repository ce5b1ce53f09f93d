//! Types in rows, the BTF files that spell them, and their graphs.
ghost use Rattle.std.specs.Prelude.{◌≡◌, All, IfOk};
ghost use Rattle.base_merge.specs.Merging.{CanBeBase};
ghost use Rattle.c_model.specs.Kinds.{IsWellFormed};

use base_merge::read_base;
use btf_codec::Table;
use c_model::{CType, Graph, Part, Ref};
use small_graphs::fitting::refer_below;
use std::alloc::{AllocError, Global};
use std::test::Fail;

/// A part's name and its value.
pub type FilePart = (&'static [u8], u32);

/// A type: its kind, its name, its size in bytes, its parts, and the ids that it refers to. Ids
/// count from 1; 0 is void.
pub type FileType = (u8, &'static [u8], u32, &'static [FilePart], &'static [u32]);

/// What a BTF file has behind its header.
#[derive(Drop)]
struct TableSections {
    types: Vec<u8>,
    names: Vec<u8>,
}

fn put_word(bytes: &mut Vec<u8>, word: u32) -> Result<(), AllocError> {
    bytes.extend_from_slice(word.to_le_bytes().as_slice())
}

/// Puts a name behind others, and its offset behind the words of types.
fn put_name(sections: &mut TableSections, name: &[u8]) -> Result<(), AllocError> {
    let at = u32::try_from(sections.names.len()).unwrap_or(0);
    put_word(&mut sections.types, at)?;
    sections.names.extend_from_slice(name)?;
    sections.names.push(0)?;
    Ok(())
}

/// Puts the words of a type behind others. The kinds are INT, PTR, STRUCT, FWD, TYPEDEF and
/// FUNC_PROTO.
fn put_type(sections: &mut TableSections, row: &FileType) -> Result<(), AllocError> {
    let (kind, name, size, parts, targets) = *row;
    let count = u32::try_from(parts.len()).unwrap_or(0);
    let first = targets.first().copied().unwrap_or(0);
    put_name(sections, name)?;
    let info = u32::from(kind).wrapping_mul(0x0100_0000);
    put_word(&mut sections.types, info.wrapping_add(count))?;
    let size_or_type = if matches!(kind, 2 | 8 | 13) {
        first
    } else {
        size
    };
    put_word(&mut sections.types, size_or_type)?;
    if kind == 1 {
        put_word(&mut sections.types, bits_of(size))?;
    }
    put_parts(sections, kind, parts, targets)
}

/// The last word of a signed INT of so many bytes.
fn bits_of(size: u32) -> u32 {
    0x0100_0000 + 8 * (size % 16)
}

/// Puts the words of members or parameters behind others. The first target of a FUNC_PROTO is what
/// it returns.
fn put_parts(
    sections: &mut TableSections,
    kind: u8,
    parts: &[FilePart],
    targets: &[u32],
) -> Result<(), AllocError> {
    let before = usize::from(kind == 13);
    for (part, target) in parts.iter().zip(targets.iter().skip(before)) {
        put_name(sections, part.0)?;
        put_word(&mut sections.types, *target)?;
        if kind == 4 {
            put_word(&mut sections.types, part.1)?;
        }
    }
    Ok(())
}

fn sections_of(alloc: Global, rows: &[FileType]) -> Result<TableSections, AllocError> {
    let mut sections = TableSections {
        types: Vec::new(alloc),
        names: Vec::new(alloc),
    };
    sections.names.push(0)?;
    for row in rows {
        put_type(&mut sections, row)?;
    }
    Ok(sections)
}

fn joined(alloc: Global, types: &[u8], names: &[u8]) -> Result<Vec<u8>, AllocError> {
    let types_len = u32::try_from(types.len()).unwrap_or(0);
    let names_len = u32::try_from(names.len()).unwrap_or(0);
    let mut bytes = Vec::new(alloc);
    for word in [0x0001_eb9f, 24, 0, types_len, types_len, names_len] {
        put_word(&mut bytes, word)?;
    }
    for section in [types, names] {
        bytes.extend_from_slice(section)?;
    }
    Ok(bytes)
}

/// A BTF file of these types.
pub fn btf(alloc: Global, rows: &[FileType]) -> Result<Vec<u8>, AllocError> {
    let sections = sections_of(alloc, rows)?;
    joined(alloc, &sections.types, &sections.names)
}

/// The table that bytes spell.
pub fn table_of<'a>(alloc: Global, bytes: &'a [u8]) -> Result<Table<'a>, Fail>
    ensures { IfOk result CanBeBase }
{
    match read_base(alloc, bytes, None) {
        Ok(table) => Ok(table),
        Err(_) => Err(Fail::from("no table")),
    }
}

/// The graph of the types that bytes spell, of which so many are a base's.
pub fn graph_of<'a>(alloc: Global, base: u32, bytes: &'a [u8]) -> Result<Graph<'a>, Fail>
    ensures base { IfOk result (λ g. g.base ≡ base) }
    ensures well { IfOk result (λ g. All IsWellFormed g.nodes) }
{
    let table = table_of(alloc, bytes)?;
    let types = table.types.items();
    if base as usize > types.len() || !refer_below(base, &types[..base as usize]) {
        return Err(Fail::from("no base"));
    }
    Ok(Graph::new(base, table.types))
}

/// Whether the parts have these names and values.
fn has_parts(parts: &[Part<'_>], wanted: &[FilePart]) -> bool {
    for (part, (name, value)) in parts.iter().zip(wanted) {
        if part.name.bytes() != *name || part.value != u64::from(*value) {
            return false;
        }
    }
    parts.len() == wanted.len()
}

/// Whether the references are to these ids.
fn refers_to(targets: &[Ref], ids: &[u32]) -> bool {
    for (target, id) in targets.iter().zip(ids) {
        let is_same = match target {
            Ref::Void => *id == 0,
            Ref::Node(x) => u64::from(*x) + 1 == u64::from(*id),
        };
        if !is_same {
            return false;
        }
    }
    targets.len() == ids.len()
}

/// Whether a type is that of a row.
fn is_of(t: &CType<'_>, row: &FileType) -> bool {
    let (kind, name, size, parts, targets) = *row;
    let label = &t.label;
    let extra = if kind == 1 { bits_of(size) } else { 0 };
    label.kind == kind
        && label.name.bytes() == name
        && label.size == size
        && label.extra == extra
        && has_parts(label.parts.items(), parts)
        && refers_to(t.targets.items(), targets)
}

/// Whether the types are those of these rows.
pub fn are_of(types: &[CType<'_>], rows: &[FileType]) -> bool {
    for (t, row) in types.iter().zip(rows) {
        if !is_of(t, row) {
            return false;
        }
    }
    types.len() == rows.len()
}
