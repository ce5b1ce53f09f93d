//! The types of a unit, as they are given back.
ghost use Rattle.std.specs.Prelude.{◌≡◌, ◌∷◌, []};

use c_model::Label;
use dw_base::{InfoOffset, Listed};
use std::marker::Model;

/// What a type refers to, before entries have numbers.
#[derive(Clone, Copy, PartialEq, Eq)]
pub enum Target {
    /// The type `void`.
    Void,
    /// The type of the indices of arrays, of which each unit with an array has one.
    Index,
    /// The entry at the offset `to` of `.debug_info`, which the entry at `from` refers to.
    Entry { from: InfoOffset, to: u128 },
}

/// How a list of targets is kept. Most types have one target, which takes no memory of its own.
#[derive(Drop)]
enum OneOrMany {
    One(Target),
    Many(Vec<Target>),
}

/// A list of targets. Contracts see it as the list.
#[derive(Drop)]
pub struct Targets {
    list: OneOrMany,
}

impl Model for Targets {
    ghost use Rattle.std.specs.Prelude.{List};
    ghost use Rattle.type_attributes.specs.declared.source.Target.{Target};

    ghost Value = { List Target };

    ghost use Rattle.type_attributes.specs.Targets.{targets_in};

    ghost view = { λ s. targets_in s.list };
}

impl Targets {
    /// The list of these targets.
    pub fn new(items: Vec<Target>) -> Targets
        ensures { result ≡ items.items }
    {
        Targets {
            list: OneOrMany::Many(items),
        }
    }

    /// The list of one target.
    pub fn one(target: Target) -> Targets
        ensures { result ≡ target ∷ [] }
    {
        Targets {
            list: OneOrMany::One(target),
        }
    }

    /// The targets as a slice, in constant time.
    #[inline(always)]
    pub fn items(&self) -> &[Target]
        ensures { result.now ≡ self.now }
    {
        match &self.list {
            OneOrMany::One(target) => std::slice::from_ref(target),
            OneOrMany::Many(items) => items.as_slice(),
        }
    }
}

/// The type that an entry is.
#[derive(Drop)]
pub struct SourceType<'a> {
    /// The offset of the entry in `.debug_info`.
    pub at: InfoOffset,
    /// What the type is.
    pub label: Label<'a>,
    /// What it refers to, in order.
    pub targets: Targets,
}

/// A list of types. Contracts see it as the list.
pub type SourceTypes<'a> = Listed<SourceType<'a>>;

/// The types of a unit.
#[derive(Drop)]
pub struct UnitTypes<'a> {
    /// Whether the unit is read: not, where its language is one whose units are passed over.
    pub read: bool,
    /// Whether one of the types is an array.
    pub has_array: bool,
    /// The types in the order of their entries.
    pub types: SourceTypes<'a>,
}
