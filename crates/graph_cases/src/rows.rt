//! Small graphs as tables: a row for each type.
use c_model::{CType, Ref};
use small_graphs::rows::{PartRow, TypeHead, parted, type_of};
use std::alloc::{AllocError, Global};

pub const INT: u8 = 1;

pub const PTR: u8 = 2;

pub const ARRAY: u8 = 3;

pub const STRUCT: u8 = 4;

pub const UNION: u8 = 5;

pub const ENUM: u8 = 6;

pub const FWD: u8 = 7;

pub const TYPEDEF: u8 = 8;

pub const ENUM64: u8 = 19;

/// No node.
pub const NONE: u32 = u32::MAX;

/// A member `x`.
pub const X: &[PartRow] = &[(b"x", 0)];

/// The same, and a member `y` behind its 32 bits.
pub const X_AND_Y: &[PartRow] = &[(b"x", 0), (b"y", 32)];

/// A type of a table, which refers to three types at most.
#[derive(Clone, Copy)]
pub struct CaseType {
    pub head: TypeHead,
    targets: [Ref; 3],
    count: usize,
}

/// A reference to a node, or to void.
fn reference(number: u32) -> Ref {
    if number == NONE {
        Ref::Void
    } else {
        Ref::Node(number)
    }
}

impl CaseType {
    /// A type that refers to the nodes of these numbers.
    pub fn new(head: TypeHead, numbers: &[u32]) -> CaseType {
        let mut targets = [Ref::Void; 3];
        for (target, number) in targets.iter_mut().zip(numbers) {
            *target = reference(*number);
        }
        CaseType {
            head,
            targets,
            count: numbers.len(),
        }
    }

    /// What it refers to.
    pub fn targets(&self) -> &[Ref] {
        self.targets.get(..self.count).unwrap_or(&[])
    }
}

/// A graph: its types, the first `base` of which are those of a base.
#[derive(Drop)]
pub struct CaseTypes {
    pub base: usize,
    pub rows: Vec<CaseType>,
}

/// What a type without parts says of itself.
pub fn bare(kind: u8, name: &'static [u8], size: u32) -> TypeHead {
    parted(kind, name, size, &[])
}

/// The types of these rows.
pub fn types_of(alloc: Global, rows: &[CaseType]) -> Result<Vec<CType<'static>>, AllocError> {
    let mut types = Vec::new(alloc);
    for row in rows {
        types.push(type_of(alloc, &row.head, row.targets())?)?;
    }
    Ok(types)
}

/// Appends a row that refers to the nodes of these numbers.
pub fn push_row(
    rows: &mut Vec<CaseType>,
    head: TypeHead,
    numbers: &[u32],
) -> Result<(), AllocError> {
    rows.push(CaseType::new(head, numbers))?;
    Ok(())
}
