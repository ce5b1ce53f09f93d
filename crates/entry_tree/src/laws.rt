//! What a walk gives, in the standard's words. Each function does nothing: its contract is the law.
ghost use Rattle.entry_tree.specs.Tree.{EntriesAreTree};
ghost use Rattle.entry_tree.specs.Refusals.{FaultsAreFirst};
ghost use Rattle.entry_tree.specs.Rising.{EntriesRise};
ghost use Rattle.entry_tree.specs.Attributes.{HasByAbbreviation};

/// A walk gives just the entries of the tree that the items of a unit are, with their depths by
/// counting.
pub fn entries_are_tree()
    ensures { EntriesAreTree }
{}

/// A walk ends with a fault exactly where an item can't stand where it stands: the first in the
/// order of the bytes, told by its first wrong piece. What it gave are the entries of the items
/// before.
pub fn faults_are_first()
    ensures { FaultsAreFirst }
{}

/// The entries that a walk gives stand in the order of their offsets, no two at one, each behind
/// the unit's header and before its end.
pub fn entries_rise()
    ensures { EntriesRise }
{}

/// An entry whose values can be read has a value of an attribute exactly where its abbreviation has
/// the attribute.
pub fn attributes_are_abbreviations()
    ensures { HasByAbbreviation }
{}
