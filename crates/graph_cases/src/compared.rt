//! A table decided by both programs.
use crate::plain::{Relation, View, opened};
use crate::rows::CaseTypes;
use std::alloc::{AllocError, Global};

/// Whether numbers are equal exactly where a relation relates their places.
fn is_relation(numbers: &[u32], relation: &Relation) -> bool {
    for x in 0..numbers.len() {
        for y in 0..numbers.len() {
            if (numbers.get(x) == numbers.get(y)) != relation.relates(x, y) {
                return false;
            }
        }
    }
    true
}

/// How many different numbers there are.
pub fn class_count(alloc: Global, numbers: &[u32]) -> Result<usize, AllocError> {
    let mut sorted = Vec::from_slice(alloc, numbers)?;
    sorted.sort_unstable();
    sorted.dedup();
    Ok(sorted.len())
}

/// What occurs in tables.
#[derive(Clone, Copy, Default)]
pub struct Occurrences {
    /// Pairs of different types that are related.
    pairs: u64,
    /// Forwards without a definition.
    undefined: u64,
    /// Forwards that the base closes.
    closed: u64,
    /// Open forwards with one definition.
    of_one: u64,
    /// Open forwards whose definitions are several and of one class.
    of_equals: u64,
    /// Open forwards whose definitions are of several classes.
    apart: u64,
}

/// What a tally counts.
#[derive(Clone, Copy)]
pub enum Occurs {
    Pairs,
    Undefined,
    Closed,
    OfOne,
    OfEquals,
    Apart,
}

fn count(number: &mut u64) {
    *number = number.saturating_add(1);
}

impl Occurrences {
    /// How often something occurs.
    pub fn of(&self, occurs: Occurs) -> u64 {
        match occurs {
            Occurs::Pairs => self.pairs,
            Occurs::Undefined => self.undefined,
            Occurs::Closed => self.closed,
            Occurs::OfOne => self.of_one,
            Occurs::OfEquals => self.of_equals,
            Occurs::Apart => self.apart,
        }
    }

    /// Counts a forward.
    fn take_forward(&mut self, view: &View<'_>, relation: &Relation, x: usize, defined: bool) {
        let found = view.opened_to(x);
        match found {
            [] if defined => count(&mut self.closed),
            [] => count(&mut self.undefined),
            [_] => count(&mut self.of_one),
            _ if View::are_one(relation, found) => count(&mut self.of_equals),
            _ => count(&mut self.apart),
        }
    }

    /// Counts the pairs of a row and the rows before it.
    fn take_pairs(&mut self, relation: &Relation, x: usize) {
        for y in 0..x {
            if relation.relates(x, y) {
                count(&mut self.pairs);
            }
        }
    }

    /// Counts a row, where it is a forward.
    fn take_row(
        &mut self,
        alloc: Global,
        view: &View<'_>,
        relation: &Relation,
        x: usize,
    ) -> Result<(), AllocError> {
        if view.forward(x).is_some() {
            let defined = !view.definitions_of(alloc, x)?.is_empty();
            self.take_forward(view, relation, x, defined);
        }
        Ok(())
    }
}

/// Counts what occurs in a table that the plain program has decided.
fn count_all(
    alloc: Global,
    view: &View<'_>,
    relation: &Relation,
    tally: &mut Occurrences,
) -> Result<(), AllocError> {
    for x in 0..view.len() {
        tally.take_pairs(relation, x);
        tally.take_row(alloc, view, relation, x)?;
    }
    Ok(())
}

/// Whether the plain program finds the relation of these numbers for a table with its open
/// forwards. Counts what occurs in it.
fn agrees_opened(
    alloc: Global,
    view: &View<'_>,
    numbers: &[u32],
    tally: &mut Occurrences,
) -> Result<bool, AllocError> {
    let relation = view.coarsest(alloc)?;
    count_all(alloc, view, &relation, tally)?;
    Ok(numbers.len() == view.len() && is_relation(numbers, &relation))
}

/// Whether the plain program finds the relation of these numbers for a table. Counts what occurs in
/// it.
pub fn agrees(
    alloc: Global,
    table: &CaseTypes,
    numbers: &[u32],
    tally: &mut Occurrences,
) -> Result<bool, AllocError> {
    let view = opened(alloc, table)?;
    agrees_opened(alloc, &view, numbers, tally)
}
