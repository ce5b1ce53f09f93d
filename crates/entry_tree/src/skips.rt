//! Passing the values of an entry.
ghost use Rattle.std.specs.Prelude.{◌≡◌, ◌+◌, ◌≤◌, ◌<◌, ℕ, Some, Ok, IfSome, take, length};
ghost use Rattle.dwarf_abbrev.specs.Sizes.{total};
ghost use Rattle.dwarf_abbrev.specs.ValueMaps.{IsRun};
ghost use Rattle.dwarf_forms.specs.Values.{within};
ghost use Rattle.entry_tree.specs.Reads.{ends_at};

use dw_base::InfoOffset;
use dwarf_abbrev::{Abbrev, FixedRun, Spec};
use dwarf_forms::{FormCtx, FormFault, skip, unit_of};

/// The place after the values of some pairs, value by value.
fn skip_all(ctx: &FormCtx<'_>, specs: &[Spec], at: InfoOffset) -> Result<InfoOffset, FormFault>
    ensures { result ≡ ends_at (within ctx.now) specs.now at }
{
    let mut at = at;
    for spec in specs {
        at = skip(ctx, spec, at)?;
    }
    Ok(at)
}

/// The bytes of a run.
#[inline(always)]
fn bytes_in(ctx: &FormCtx<'_>, run: FixedRun) -> u64
    ensures { result ≡ total ctx.now.offset_bytes ctx.now.address_bytes run }
{
    u64::from(run.bytes)
        + u64::from(run.offsets) * u64::from(ctx.offset_bytes)
        + u64::from(run.addresses) * u64::from(ctx.address_bytes)
}

/// The place after the values of a run that begins at `at`, by one addition. `None` where they do
/// not all lie in the unit.
#[inline(always)]
fn place_behind_run(ctx: &FormCtx<'_>, run: FixedRun, at: InfoOffset) -> Option<InfoOffset>
    ensures sum { IfSome result
        (λ end. end ≡ at + total ctx.now.offset_bytes ctx.now.address_bytes run) }
    ensures inside { IfSome result (λ end. end ≤ length (within ctx.now).unit) }
{
    let sum = bytes_in(ctx, run);
    let length = unit_of(ctx).len() as u64;
    if at <= length && sum <= length - at {
        Some(at + sum)
    } else {
        None
    }
}

/// The place after a value, where it can be read.
#[inline(always)]
fn place_behind_value(
    ctx: &FormCtx<'_>,
    specs: &[Spec],
    index: usize,
    at: InfoOffset,
) -> Option<InfoOffset>
    ensures { IfSome result (λ end. (from : ℕ)
        → ends_at (within ctx.now) (take index specs.now) from ≡ Ok at
        → ends_at (within ctx.now) (take (index + 1) specs.now) from ≡ Ok end) }
{
    let spec = specs.get(index)?;
    match skip(ctx, spec, at) {
        Ok(end) => Some(end),
        Err(_) => None,
    }
}

/// The run that begins with the value `start`. That is known at once where only the last value
/// before `end` has no fixed width.
fn run_before(abbreviation: &Abbrev<'_>, start: usize, end: usize) -> FixedRun
    requires { start < end }
    ensures { IsRun abbreviation.now.specs.now (start + result.values) result }
{
    match abbreviation.run_to(end - 1) {
        Some(run) if run.values as usize == end - 1 - start => run,
        _ => abbreviation.run_from(start),
    }
}

/// The place after the values of the first `count` pairs: the values without a fixed width are
/// passed one by one, those between them by one addition. `None` where one can't be read.
fn place_behind_runs(
    ctx: &FormCtx<'_>,
    abbreviation: &Abbrev<'_>,
    count: usize,
    from: InfoOffset,
) -> Option<InfoOffset>
    ensures { IfSome result
        (λ end. ends_at (within ctx.now) (take count abbreviation.now.specs.now) from ≡ Ok end) }
{
    let last = abbreviation.run_to(count)?;
    let tail = count - last.values as usize;
    let mut reached = 0;
    let mut at = from;
    'runs: while reached < tail {
        let run = run_before(abbreviation, reached, tail);
        let values = run.values as usize;
        if values >= tail - reached {
            return None;
        }
        let index = reached + values;
        let start = place_behind_run(ctx, run, at)?;
        at = place_behind_value(ctx, abbreviation.specs, index, start)?;
        reached = index + 1;
    }
    if reached != tail {
        return None;
    }
    place_behind_run(ctx, last, at)
}

/// The place after the values of the first `count` pairs, where not all of them have a fixed width
/// or one can't be read. It is refused as the values are, one after the other.
///
/// The abbreviation comes by value: its address would keep it in memory at each caller, too, which
/// mostly needs it in registers alone.
#[inline(never)]
pub(crate) fn place_behind_mixed(
    ctx: &FormCtx<'_>,
    abbreviation: Abbrev<'_>,
    count: usize,
    from: InfoOffset,
) -> Result<InfoOffset, FormFault>
    requires { count ≤ length abbreviation.specs.now }
    ensures { result ≡ ends_at (within ctx.now) (take count abbreviation.entry.specs.now) from }
{
    match place_behind_runs(ctx, &abbreviation, count, from) {
        Some(end) => Ok(end),
        // value by value, for the fault of the first that can't be read
        None => skip_all(ctx, &abbreviation.specs[..count], from),
    }
}

/// The place after the values of the first `count` pairs, where all of them have a fixed width and
/// lie in the unit.
#[inline(always)]
pub(crate) fn place_behind_fixed(
    ctx: &FormCtx<'_>,
    abbreviation: &Abbrev<'_>,
    count: usize,
    from: InfoOffset,
) -> Option<InfoOffset>
    ensures { IfSome result
        (λ end. ends_at (within ctx.now) (take count abbreviation.now.specs.now) from ≡ Ok end) }
{
    let run = abbreviation.run_to(count)?;
    if run.values as usize == count {
        place_behind_run(ctx, run, from)
    } else {
        None
    }
}

/// The place after the values of all pairs. It is refused as the values are, one after the other.
#[inline(always)]
pub(crate) fn skip_values(
    ctx: &FormCtx<'_>,
    abbreviation: &Abbrev<'_>,
    at: InfoOffset,
) -> Result<InfoOffset, FormFault>
    ensures { result ≡ ends_at (within ctx.now) abbreviation.now.specs.now at }
{
    let count = abbreviation.specs.len();
    match place_behind_fixed(ctx, abbreviation, count, at) {
        Some(end) => Ok(end),
        None => place_behind_mixed(ctx, *abbreviation, count, at),
    }
}
