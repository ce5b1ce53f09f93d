//! What the definitions say of every unit. Each function does nothing: its contract is the law.
ghost use Rattle.c_types.specs.Laws.{TypesAreFormed, TypesRise, LeastIsFirst};
ghost use Rattle.c_types.specs.Parents.{ComingDescends, UnitChildrenHaveParent};

/// The types of a unit where nothing is refused are well formed, however their targets are linked,
/// and one that declares a tag says no more than the tag and refers to nothing.
pub fn types_are_formed()
    ensures { TypesAreFormed }
{}

/// The types of a unit stand in the order of their offsets, no two at one, and all of them from the
/// unit's first entry on and before its end.
pub fn types_rise()
    ensures { TypesRise }
{}

/// The refusal that is answered is one of all candidates, and none of them comes before it by the
/// offset of the entry, then the number, then what is kept.
pub fn least_is_first()
    ensures { LeastIsFirst }
{}

/// In a unit each entry is at most one deeper than the one before it, and the first is not deeper
/// than the root.
pub fn entries_descend()
    ensures { ComingDescends }
{}

/// In a unit the children of an entry are the later entries whose parent it is: the last earlier
/// entry whose depth is one less.
pub fn children_have_parent()
    ensures { UnitChildrenHaveParent }
{}
