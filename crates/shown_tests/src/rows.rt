//! Tables, made from rows.
use btf_codec::Table;
use c_model::{CType, Label, Nodes, Ref, Refs};
use dw_base::{Name, Order};
use small_graphs::rows::{PartRow, parts_of};
use std::alloc::{AllocError, Global};

/// A type by its kind, its name, its flag, its size, its extra word, its parts, and the ids of its
/// targets, where 0 is void.
#[derive(Clone, Copy)]
pub struct TableRow<'a, 'r>(
    pub u8,
    pub &'a [u8],
    pub bool,
    pub u32,
    pub u32,
    pub &'r [PartRow<'a>],
    pub &'r [u32],
);

/// The rows of a table.
pub type TableRows = &'static [TableRow<'static, 'static>];

/// What an id refers to.
fn ref_of(id: u32) -> Ref {
    if id == 0 {
        Ref::Void
    } else {
        Ref::Node(id - 1)
    }
}

fn refs_of(alloc: Global, ids: &[u32]) -> Result<Refs, AllocError> {
    let mut targets = Vec::new(alloc);
    for id in ids {
        targets.push(ref_of(*id))?;
    }
    Ok(Refs::new(targets))
}

/// The type of a row.
fn type_of<'a>(alloc: Global, row: TableRow<'a, '_>) -> Result<CType<'a>, AllocError> {
    let TableRow(kind, name, flag, size, extra, parts, targets) = row;
    let label = Label {
        kind,
        name: Name::new(name),
        flag,
        size,
        extra,
        parts: parts_of(alloc, parts)?,
    };
    Ok(CType {
        label,
        targets: refs_of(alloc, targets)?,
    })
}

/// Adds the type of a row.
pub fn push<'a>(
    alloc: Global,
    types: &mut Vec<CType<'a>>,
    row: TableRow<'a, '_>,
) -> Result<(), AllocError> {
    types.push(type_of(alloc, row)?)?;
    Ok(())
}

/// Adds a typedef by the name `t` of each type from the id `first` on, before the id `end`.
pub fn push_typedefs(
    alloc: Global,
    types: &mut Vec<CType<'_>>,
    first: u32,
    end: u32,
) -> Result<(), AllocError> {
    for id in first..end {
        push(alloc, types, TableRow(8, b"t", false, 0, 0, &[], &[id]))?;
    }
    Ok(())
}

/// The types of rows.
pub fn types_of<'a>(
    alloc: Global,
    rows: &[TableRow<'a, '_>],
) -> Result<Vec<CType<'a>>, AllocError> {
    let mut types = Vec::new(alloc);
    for row in rows {
        push(alloc, &mut types, *row)?;
    }
    Ok(types)
}

/// The table of types, of which so many are a base's.
pub fn table_of(base: u32, types: Vec<CType<'_>>) -> Table<'_> {
    Table {
        order: Order::Little,
        base,
        types: Nodes::new(types),
        names: b"\0",
    }
}
