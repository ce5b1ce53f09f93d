//! Values of fixed widths that follow one another.
ghost use Rattle.std.specs.Prelude.{◌≡◌, ◌<◌, ◌+◌, ◌++◌, ℕ, List, Some, IfOk, IfSome, length};
ghost use Rattle.dwarf_abbrev.specs.Sizes.{bytes_of, width_in, plus, total};
ghost use Rattle.dwarf_abbrev.specs.ValueMaps.{IsRun, AreRunsOf};

use crate::constants::DwForm;
use crate::size::{Width, form_width};
use crate::spec::Spec;
use std::alloc::AllocError;

/// Values of fixed widths that follow one another: how many there are, and how many bytes, offsets
/// and addresses they have.
#[derive(Clone, Copy, PartialEq, Eq)]
pub struct FixedRun {
    /// How many values.
    pub values: u32,
    /// How many bytes, besides those of offsets and addresses.
    pub bytes: u16,
    /// How many offsets.
    pub offsets: u8,
    /// How many addresses.
    pub addresses: u8,
}

/// No values.
pub(crate) const NO_VALUES: FixedRun = FixedRun {
    values: 0,
    bytes: 0,
    offsets: 0,
    addresses: 0,
};

/// One value more. `None` where a count does not fit.
fn with_width(run: FixedRun, width: Width) -> Option<FixedRun>
    ensures values { IfSome result (λ r. r.values ≡ run.values + 1) }
    ensures total { (o a : ℕ) → IfSome result
        (λ r. total o a r ≡ total o a run + width_in o a width) }
{
    let values = run.values.checked_add(1)?;
    match width {
        Width::Bytes(n) => {
            let bytes = run.bytes.checked_add(n)?;
            Some(FixedRun {
                values,
                bytes,
                offsets: run.offsets,
                addresses: run.addresses,
            })
        }
        Width::Offset => {
            let offsets = run.offsets.checked_add(1)?;
            Some(FixedRun {
                values,
                bytes: run.bytes,
                offsets,
                addresses: run.addresses,
            })
        }
        Width::Address => {
            let addresses = run.addresses.checked_add(1)?;
            Some(FixedRun {
                values,
                bytes: run.bytes,
                offsets: run.offsets,
                addresses,
            })
        }
    }
}

/// One value of a form more. `None` where the form has no fixed width, and where a count does not
/// fit.
fn with_form(run: FixedRun, form: DwForm) -> Option<FixedRun>
    ensures values { IfSome result (λ r. r.values ≡ run.values + 1) }
    ensures total { (o a : ℕ) → IfSome result
        (λ r. plus (Some (total o a run)) (bytes_of o a form) ≡ Some (total o a r)) }
{
    let width = form_width(form)?;
    with_width(run, width)
}

/// The run before the next attribute. It begins there where the form has no fixed width, and where
/// a count does not fit.
fn next_run(specs: &[Spec], index: usize, run: FixedRun) -> FixedRun
    requires inside { index < length specs.now }
    requires run { IsRun specs.now index run }
    ensures { IsRun specs.now (index + 1) result }
{
    match with_form(run, specs[index].form) {
        Some(longer) => longer,
        None => NO_VALUES,
    }
}

/// Puts the runs of an abbreviation behind those of others: one before each attribute, and one
/// before the end of all values.
pub(crate) fn push_runs(specs: &[Spec], runs: &mut Vec<FixedRun>) -> Result<(), AllocError>
    ensures { IfOk result (λ _. (more : List FixedRun) × (runs.new.items ≡ runs.old.items ++ more)
        × AreRunsOf specs.now more) }
{
    let mut run = NO_VALUES;
    for index in 0..specs.len() {
        runs.push(run)?;
        run = next_run(specs, index, run);
    }
    runs.push(run)?;
    Ok(())
}
