//! What a reader of a unit's types goes by.
use crate::extents::Extents;
use dwarf_forms::FormCtx;
use entry_tree::Walk;

/// What the types of a unit are read in.
#[derive(Drop)]
pub struct UnitCtx<'w, 'a> {
    /// What its names and references are read in.
    pub form: FormCtx<'a>,
    /// The version of DWARF in its header.
    pub version: u16,
    /// A walk at its first entry.
    pub start: Walk<'w, 'a>,
    /// What its entries say of their extents, once the position of a member needed it.
    pub extents: Option<Extents>,
}
