//! What the definitions say of every unit. Each function does nothing: its contract is the law.
ghost use Rattle.func_entries.specs.Laws.{FunctionsAreFormed, FunctionsAreNamed, FunctionsRise};

/// The prototypes of a unit where nothing is refused are well formed, however their targets are
/// linked.
pub fn functions_are_formed()
    ensures { FunctionsAreFormed }
{}

/// The names of its functions are not empty and have no NUL.
pub fn functions_are_named()
    ensures { FunctionsAreNamed }
{}

/// The functions of a unit stand in the order of their offsets, no two at one, and all of them from
/// the unit's first entry on and before its end.
pub fn functions_rise()
    ensures { FunctionsRise }
{}
