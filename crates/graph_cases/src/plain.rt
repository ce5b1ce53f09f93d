//! The coarsest agreeing partition of a small graph, straight from its definition: all pairs are
//! related at first, and a pair that has no licence is taken away, until none is. It works on the
//! rows of a table alone.
use crate::rows::{CaseType, CaseTypes, ENUM, ENUM64, FWD, STRUCT, UNION};
use c_model::Ref;
use small_graphs::rows::{PartRow, TypeHead};
use std::alloc::{AllocError, Global};

/// A relation between the rows of a table.
#[derive(Drop)]
pub struct Relation {
    cells: Vec<Vec<bool>>,
}

impl Relation {
    /// The relation of all pairs.
    fn total(alloc: Global, count: usize) -> Result<Relation, AllocError> {
        let mut cells = Vec::new(alloc);
        for _ in 0..count {
            cells.push(vec![in alloc; true; count]?)?;
        }
        Ok(Relation { cells })
    }

    /// Whether it relates two rows.
    pub fn relates(&self, x: usize, y: usize) -> bool {
        match self.cells.get(x) {
            Some(row) => row.get(y).copied() == Some(true),
            None => false,
        }
    }

    /// Takes a pair away.
    fn take_away(&mut self, x: usize, y: usize) {
        if let Some(row) = self.cells.get_mut(x)
            && let Some(cell) = row.get_mut(y)
        {
            *cell = false;
        }
    }
}

/// What sort of type a tag names.
#[derive(Clone, Copy, PartialEq, Eq)]
pub enum Sort {
    Structure,
    Union,
    Enumeration,
}

/// The sort of the tag that a type declares without defining it.
fn declares(head: &TypeHead) -> Option<Sort> {
    if head.kind == FWD {
        return Some(if head.flag {
            Sort::Union
        } else {
            Sort::Structure
        });
    }
    if head.kind == ENUM && head.name.len() != 0 && head.pieces.len() == 0 {
        return Some(Sort::Enumeration);
    }
    None
}

/// The sort of the tag that a type defines.
fn defines(head: &TypeHead) -> Option<Sort> {
    if head.kind == STRUCT {
        return Some(Sort::Structure);
    }
    if head.kind == UNION {
        return Some(Sort::Union);
    }
    if (head.kind == ENUM || head.kind == ENUM64) && head.pieces.len() != 0 {
        return Some(Sort::Enumeration);
    }
    None
}

/// Whether these parts are the same.
fn are_same_pieces(these: &[PartRow], those: &[PartRow]) -> bool {
    for ((name, value), (other, number)) in these.iter().zip(those) {
        if name != other || value != number {
            return false;
        }
    }
    these.len() == those.len()
}

/// Whether two types say the same of themselves.
fn is_same_head(a: &TypeHead, b: &TypeHead) -> bool {
    a.kind == b.kind
        && a.name == b.name
        && a.flag == b.flag
        && a.size == b.size
        && a.extra == b.extra
        && are_same_pieces(a.pieces, b.pieces)
}

/// Whether two references are both void, or to related rows.
fn is_related(relation: &Relation, s: Ref, t: Ref) -> bool {
    match (s, t) {
        (Ref::Void, Ref::Void) => true,
        (Ref::Node(v), Ref::Node(w)) => relation.relates(v as usize, w as usize),
        _ => false,
    }
}

/// Whether these references are all void, or to related rows, at the same places.
fn are_related(relation: &Relation, these: &[Ref], those: &[Ref]) -> bool {
    for (s, t) in these.iter().zip(those) {
        if !is_related(relation, *s, *t) {
            return false;
        }
    }
    these.len() == those.len()
}

/// Whether a row is related to all of these rows that are below `limit`.
fn relates_to_all(relation: &Relation, x: usize, rows: &[usize], limit: usize) -> bool {
    for y in rows {
        if *y < limit && !relation.relates(x, *y) {
            return false;
        }
    }
    true
}

/// Whether all of these rows that are below `limit` are related.
fn are_one_below(relation: &Relation, rows: &[usize], limit: usize) -> bool {
    for x in rows {
        if *x < limit && !relates_to_all(relation, *x, rows, limit) {
            return false;
        }
    }
    true
}

/// The rows of a table, and of each row that is an open forward its definitions.
#[derive(Drop)]
pub struct View<'t> {
    rows: &'t [CaseType],
    base: usize,
    pub definitions: Vec<Vec<usize>>,
}

impl View<'_> {
    /// How many rows there are.
    pub fn len(&self) -> usize {
        self.rows.len()
    }

    /// The sort of the tag of a forward. Types of the base are none.
    pub fn forward(&self, x: usize) -> Option<Sort> {
        if x < self.base {
            return None;
        }
        declares(&self.rows.get(x)?.head)
    }

    /// Whether two rows are forwards of one tag.
    fn are_forwards_of_one_tag(&self, x: usize, y: usize) -> bool {
        let (Some(a), Some(b)) = (self.rows.get(x), self.rows.get(y)) else {
            return false;
        };
        self.forward(x).is_some()
            && self.forward(x) == self.forward(y)
            && a.head.name == b.head.name
    }

    /// Whether two rows say the same of themselves, and refer to related rows.
    fn are_alike(&self, relation: &Relation, x: usize, y: usize) -> bool {
        let (Some(a), Some(b)) = (self.rows.get(x), self.rows.get(y)) else {
            return false;
        };
        is_same_head(&a.head, &b.head) && are_related(relation, a.targets(), b.targets())
    }

    /// The definitions of a row; none where it is no open forward.
    pub fn opened_to(&self, x: usize) -> &[usize] {
        match self.definitions.get(x) {
            Some(found) => found.as_slice(),
            None => &[],
        }
    }

    /// Whether these rows are all related.
    pub fn are_one(relation: &Relation, rows: &[usize]) -> bool {
        are_one_below(relation, rows, usize::MAX)
    }

    /// Whether `x` is an open forward, `d` one of its definitions, and these are of one class.
    fn is_defined_by(&self, relation: &Relation, x: usize, d: usize) -> bool {
        let found = self.opened_to(x);
        found.contains(&d) && View::are_one(relation, found)
    }

    /// Whether a pair has a licence.
    fn is_licensed(&self, relation: &Relation, x: usize, y: usize) -> bool {
        let closed = self.opened_to(x).is_empty() && self.opened_to(y).is_empty();
        (closed && self.are_alike(relation, x, y))
            || self.are_forwards_of_one_tag(x, y)
            || self.is_defined_by(relation, x, y)
            || self.is_defined_by(relation, y, x)
    }

    /// Takes away the pairs of a row that have no licence, and tells whether there was one.
    fn sweep_row(&self, relation: &mut Relation, x: usize) -> bool {
        let mut changed = false;
        for y in 0..self.rows.len() {
            if relation.relates(x, y) && !self.is_licensed(relation, x, y) {
                relation.take_away(x, y);
                changed = true;
            }
        }
        changed
    }

    /// Takes away pairs that have no licence, and tells whether there was one.
    fn sweep(&self, relation: &mut Relation) -> bool {
        let mut changed = false;
        for x in 0..self.rows.len() {
            if self.sweep_row(relation, x) {
                changed = true;
            }
        }
        changed
    }

    /// The greatest relation each pair of which has a licence.
    pub fn coarsest(&self, alloc: Global) -> Result<Relation, AllocError> {
        let mut relation = Relation::total(alloc, self.rows.len())?;
        for _ in 0..u64::MAX {
            if !self.sweep(&mut relation) {
                break;
            }
        }
        Ok(relation)
    }

    /// The rows that define a forward's tag.
    pub fn definitions_of(&self, alloc: Global, x: usize) -> Result<Vec<usize>, AllocError> {
        let mut found = Vec::new(alloc);
        let (Some(sort), Some(forward)) = (self.forward(x), self.rows.get(x)) else {
            return Ok(found);
        };
        for (d, row) in self.rows.iter().enumerate() {
            if defines(&row.head) == Some(sort) && row.head.name == forward.head.name {
                found.push(d)?;
            }
        }
        Ok(found)
    }

    /// The definitions of a row that is an open forward, none of another: a forward is open where
    /// all of its definitions that are of the base are related there.
    fn definitions_opened(
        &self,
        alloc: Global,
        kept: &Relation,
        x: usize,
    ) -> Result<Vec<usize>, AllocError> {
        let found = self.definitions_of(alloc, x)?;
        if are_one_below(kept, &found, self.base) {
            Ok(found)
        } else {
            Ok(Vec::new(alloc))
        }
    }
}

/// The greatest relation of the rows of a table's base alone each pair of which has a licence.
fn kept_of(alloc: Global, table: &CaseTypes) -> Result<Relation, AllocError> {
    let alone = View {
        rows: table.rows.get(..table.base).unwrap_or(&[]),
        base: table.base,
        definitions: Vec::new(alloc),
    };
    alone.coarsest(alloc)
}

/// A table with its open forwards.
pub fn opened<'t>(alloc: Global, table: &'t CaseTypes) -> Result<View<'t>, AllocError> {
    let kept = kept_of(alloc, table)?;
    let mut view = View {
        rows: table.rows.as_slice(),
        base: table.base,
        definitions: Vec::new(alloc),
    };
    for x in 0..table.rows.len() {
        let found = view.definitions_opened(alloc, &kept, x)?;
        view.definitions.push(found)?;
    }
    Ok(view)
}
