//! What a worker meets before it reads a unit.

/// A gate that each worker passes. It promises nothing, and what a run gives does not depend on it.
pub trait Gate: Sync {
    /// Called by a worker before it reads the unit of this number, counted from 0 over all files.
    fn enter(&self, unit: u32);
}

/// A gate that is always open.
#[derive(Clone, Copy)]
pub struct OpenGate;

impl Gate for OpenGate {
    fn enter(&self, unit: u32) {
        let _ = unit;
    }
}
