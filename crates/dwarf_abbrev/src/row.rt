//! Abbreviations, as a table keeps them and as it hands them out.
ghost use Rattle.dwarf_abbrev.specs.ValueMaps.{IsMapOf};

use crate::constants::{DwAt, DwTag};
use crate::runs::{FixedRun, NO_VALUES};
use crate::slots::{FAR, MISSING, SLOTS, search, slot_of};
use crate::spec::Spec;

/// What begins an abbreviation, before its attributes.
#[derive(Clone, Copy)]
pub(crate) struct Head {
    pub(crate) code: u64,
    pub(crate) tag: DwTag,
    pub(crate) children: bool,
}

/// An abbreviation as its table keeps it, with its attributes elsewhere.
#[derive(Clone, Copy)]
pub(crate) struct Row {
    pub(crate) code: u64,
    pub(crate) tag: DwTag,
    /// The index of its first attribute among those of the table.
    pub(crate) from: usize,
    /// The index behind its last one.
    pub(crate) to: usize,
    pub(crate) children: bool,
    /// For each name that has a slot, where its first attribute stands.
    pub(crate) slots: [u8; SLOTS],
}

/// An abbreviation of a table (DWARF 5, section 7.5.3).
#[derive(Clone, Copy)]
pub struct Abbrev<'t> {
    /// The code by which entries name it; never 0.
    pub code: u64,
    /// The tag of its entries, a DW_TAG number.
    pub tag: DwTag,
    /// Whether a list of children follows each of its entries.
    pub children: bool,
    /// Its attributes, in the order in which an entry holds their values.
    pub specs: &'t [Spec],
    /// Before each value, and before the end of all values, the values of fixed widths.
    pub(crate) runs: &'t [FixedRun],
    /// For each name that has a slot, where its first attribute stands.
    pub(crate) slots: &'t [u8; SLOTS],
    ghost mapped: { IsMapOf specs.now runs.now slots.now },
}

impl<'t> Abbrev<'t> {
    ghost use Rattle.std.specs.Prelude.{◌≡◌, ◌+◌, ◌≤◌, ◌↔◌, false, IfSome, IsNone, IsSome, length};
    ghost use Rattle.dwarf_abbrev.specs.ValueMaps.{has_spec, IsFirst, IsRun};

    /// The index of its first attribute of a name. `None` exactly where it has none.
    ///
    /// It takes constant time where the name is one of the fifteen that readers of types and
    /// functions ask for, and the attribute is among the first 254; else it looks at all
    /// attributes.
    #[inline(always)]
    pub fn first_of(&self, name: DwAt) -> Option<usize>
        ensures first { IfSome result (IsFirst name self.now.specs.now) }
        ensures none { IsNone result → has_spec name self.now.specs.now ≡ false }
    {
        let Some(slot) = slot_of(name) else {
            return search(self.specs, name);
        };
        let place = self.slots[slot];
        if place < FAR {
            Some(place as usize)
        } else if place == MISSING {
            None
        } else {
            search(self.specs, name)
        }
    }

    /// The run of values of fixed widths that ends before the value of this index, or before the
    /// end of all values where the index is the number of attributes. `None` exactly where it is
    /// larger.
    ///
    /// It takes constant time.
    #[inline(always)]
    pub fn run_to(&self, index: usize) -> Option<FixedRun>
        ensures run { IfSome result (IsRun self.now.specs.now index) }
        ensures inside { IsSome result ↔ (index ≤ length self.now.specs.now) }
    {
        self.runs.get(index).copied()
    }

    /// The run that `step` values more make longer, where there is one.
    #[inline(always)]
    fn longer_run(&self, start: usize, run: FixedRun, step: usize) -> FixedRun
        requires { IsRun self.now.specs.now (start + run.values) run }
        ensures { IsRun self.now.specs.now (start + result.values) result }
    {
        let end = start
            .saturating_add(run.values as usize)
            .saturating_add(step);
        match self.run_to(end) {
            Some(longer) if longer.values as usize == end - start => longer,
            _ => run,
        }
    }

    /// The run of values of fixed widths that begins with the value of this index: all up to the
    /// next one without a fixed width, where the value before has none.
    ///
    /// Its work grows with the logarithm of the number of attributes.
    pub fn run_from(&self, start: usize) -> FixedRun
        ensures { IsRun self.now.specs.now (start + result.values) result }
    {
        let mut step = 1;
        while step < self.specs.len() {
            step *= 2;
        }
        let mut run = NO_VALUES;
        while step > 0 {
            run = self.longer_run(start, run, step);
            step /= 2;
        }
        run
    }
}
