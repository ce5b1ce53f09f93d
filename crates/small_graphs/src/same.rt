//! Whether types are the same, and whether numbers are the same classes.
use c_model::{CType, is_same_label};

/// Whether two types have one label and the same references.
pub fn is_same(t: &CType<'_>, u: &CType<'_>) -> bool {
    is_same_label(&t.label, &u.label) && t.targets.items() == u.targets.items()
}

/// Whether types are the same, each as the other at its place.
pub fn are_same(types: &[CType<'_>], others: &[CType<'_>]) -> bool {
    for (t, u) in types.iter().zip(others) {
        if !is_same(t, u) {
            return false;
        }
    }
    types.len() == others.len()
}

/// Whether two lists of numbers are equal at the same pairs of places.
pub fn is_one_relation(p: &[u32], q: &[u32]) -> bool {
    for x in 0..p.len() {
        for y in 0..x {
            if (p.get(x) == p.get(y)) != (q.get(x) == q.get(y)) {
                return false;
            }
        }
    }
    p.len() == q.len()
}
