//! A number for each of many places, or whether something holds at each of them, by workers that
//! each have a share of the places.
ghost use Rattle.std.specs.Prelude.{◌≡◌, ◌<◌, ◌≤◌, ◌+◌, ◌*◌, ◌^◌, ℕ, IsTrue, All, IfOk, length};
ghost use Rattle.std.specs.Prelude.{slice_index};

use std::alloc::{AllocError, Global};
use std::thread;
use std::thread::Threads;

/// What has a number for each of some places, where it is whole.
pub(crate) trait NumberAt {
    ghost is_whole: { Self → Type 0 };

    ghost count: { Self → ℕ };

    ghost number: { Self → ℕ → ℕ };

    /// The number of place `x`.
    fn number_at(&self, x: usize) -> u64
        requires whole { is_whole self.now }
        requires place { x < count self.now }
        ensures { result ≡ number self.now x };
}

/// Puts the number of each place there, by so many workers at most.
pub(crate) fn put_all<R: Threads + Sync, N: NumberAt + Sync>(
    rt: &R,
    workers: usize,
    of: &N,
    numbers: &mut Vec<u64>,
)
    requires workers { 0 < workers }
    requires whole { N.is_whole of.now }
    requires places { length numbers.old.items ≡ N.count of.now }
    ensures covers { length numbers.new.items ≡ N.count of.now }
    ensures at { (x : ℕ) → x < N.count of.now
        → slice_index numbers.new.items x ≡ N.number of.now x }
{
    thread::for_each_mut(
        rt,
        numbers.as_mut_slice(),
        workers,
        &|x: usize, number: &mut u64|
            requires { N.is_whole of.now × (x < N.count of.now) }
            ensures { number.new ≡ N.number of.entry.now x }
        { *number = of.number_at(x) },
    );
}

/// What holds or not at each of some places, where it is whole.
pub(crate) trait HoldsAt {
    ghost is_whole: { Self → Type 0 };

    ghost count: { Self → ℕ };

    ghost holds: { Self → ℕ → Type 0 };

    /// Whether it is seen to hold at place `x`.
    fn holds_at(&self, x: usize) -> bool
        requires whole { is_whole self.now }
        requires place { x < count self.now }
        ensures { IsTrue result → holds self.now x };
}

/// Whether it is seen to hold at each place of a share: `size` of the places, or as many as are
/// left for it.
fn holds_in_share<H: HoldsAt>(of: &H, count: usize, size: usize, share: usize) -> bool
    requires whole { H.is_whole of.now }
    requires places { count ≡ H.count of.now }
    ensures { IsTrue result → (x : ℕ) → share * size ≤ x → x < share * size + size → x < count
        → H.holds of.now x }
{
    let from = share.saturating_mul(size).min(count);
    let to = from.saturating_add(size).min(count);
    for x in from..to {
        if !of.holds_at(x) {
            return false;
        }
    }
    true
}

/// Whether all answers are yes.
fn all_yes(answers: &[bool]) -> bool
    ensures { IsTrue result → All (λ b. IsTrue b) answers.now }
{
    for answer in answers {
        if !*answer {
            return false;
        }
    }
    true
}

/// Whether it is seen to hold at each place, by so many workers at most.
pub(crate) fn holds_everywhere<R: Threads + Sync, H: HoldsAt + Sync>(
    rt: &R,
    alloc: Global,
    workers: usize,
    of: &H,
    count: usize,
) -> Result<bool, AllocError>
    requires workers { 0 < workers }
    requires few { count < 2 ^ 32 }
    requires whole { H.is_whole of.now }
    requires places { count ≡ H.count of.now }
    ensures { IfOk result (λ b. IsTrue b → (x : ℕ) → x < count → H.holds of.now x) }
{
    let size = count / workers + 1;
    let answers = thread::map_indices(
        rt,
        alloc,
        workers,
        &|share: usize| -> bool
            requires { H.is_whole of.now × (count ≡ H.count of.now) }
            ensures { IsTrue result → (x : ℕ) → share * size ≤ x → x < share * size + size
                → x < count → H.holds of.entry.now x }
        { holds_in_share(of, count, size, share) },
    )?;
    Ok(all_yes(&answers))
}
