//! What one walk over a unit finds.
use c_types::{SourceType, TypeFault, UnitTypes};
use dw_base::{Listed, Name};

/// A function of a unit: a subprogram entry that has a name and is no mere declaration.
#[derive(Drop)]
pub struct FuncEntry<'a> {
    /// Its name, which is not empty.
    pub name: Name<'a>,
    /// Whether other units see it.
    pub external: bool,
    /// Its prototype, a subroutine type. Its place is the offset of the function's entry in
    /// `.debug_info`.
    pub proto: SourceType<'a>,
}

/// A list of functions. Contracts see it as the list.
pub type FuncEntries<'a> = Listed<FuncEntry<'a>>;

/// The types and the functions of a unit.
#[derive(Drop)]
pub struct UnitEntries<'a> {
    /// The types.
    pub types: UnitTypes<'a>,
    /// The functions in the order of their entries, or the first refusal of one of them.
    pub funcs: Result<FuncEntries<'a>, TypeFault>,
}
