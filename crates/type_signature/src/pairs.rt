//! Nodes told apart by two numbers each.
ghost use Rattle.std.specs.Prelude.{◌≡◌, ◌<◌, ◌^◌, All, IsTrue, Some, length, nat_eq, IfOk};
ghost use Rattle.std.specs.Prelude.{slice_get};
ghost use Rattle.std.specs.Set.{distinct_count};
ghost use Rattle.c_model.specs.Numberings.{IsNumbering, TakesKey};
ghost use Rattle.type_signature.specs.Hashing.{pair_at};

use crate::hashing::{FACTOR, place_among};
use crate::labels::Numbered;
use indexmap::IndexSet;
use std::alloc::{AllocError, Global};
use std::hash::{BuildHasherDefault, DefaultHasher};

/// Different pairs. They are hashed by SipHash: a file's types can be made to collide by the
/// library's default hasher.
type PairSet = IndexSet<(u32, u64), BuildHasherDefault<DefaultHasher>>;

/// How many hints there are at most.
const MOST_HINTS: usize = 65_536;

/// Room for hints of the places of so many pairs. A hint is a place at which a pair may stand.
fn hints_for(alloc: Global, pairs: usize) -> Result<Vec<u32>, AllocError> {
    vec![in alloc; 0; pairs.min(MOST_HINTS)]
}

/// Which of so many hints is a pair's. Other pairs may have the same one.
#[inline(always)]
fn hint_of(pair: (u32, u64), count: usize) -> usize {
    let mixed = u64::from(pair.0).wrapping_mul(FACTOR).wrapping_add(pair.1);
    place_among(mixed.wrapping_mul(FACTOR) >> 32, count as u64) as usize
}

/// Whether a pair stands at this place.
#[inline(always)]
fn stands_at(pairs: &PairSet, place: usize, pair: (u32, u64)) -> bool
    ensures { IsTrue result → slice_get pairs.now.keys place ≡ Some pair }
{
    match pairs.get_index(place) {
        Some(found) => found.0 == pair.0 && found.1 == pair.1,
        None => false,
    }
}

/// The place of a pair by a look-up. One that is not there goes last.
fn looked_up(pairs: &mut PairSet, pair: (u32, u64)) -> Result<usize, AllocError>
    ensures { IfOk result (λ r. TakesKey pairs.old.keys pair pairs.new.keys r) }
{
    let (place, _) = pairs.insert_full(pair)?;
    Ok(place)
}

/// The place of a pair. One that is not there goes last. It is looked up only where it does not
/// stand at its hint, which is then set to its place.
fn place_of(pairs: &mut PairSet, hints: &mut [u32], pair: (u32, u64)) -> Result<usize, AllocError>
    ensures { IfOk result (λ r. TakesKey pairs.old.keys pair pairs.new.keys r) }
{
    let Some(hint) = hints.get_mut(hint_of(pair, hints.len())) else {
        return looked_up(pairs, pair);
    };
    let hinted = *hint as usize;
    if stands_at(pairs, hinted, pair) {
        return Ok(hinted);
    }
    let place = looked_up(pairs, pair)?;
    if let Ok(short) = u32::try_from(place) {
        *hint = short;
    }
    Ok(place)
}

/// Numbers of the pairs of numbers that two lists give each node.
pub(crate) fn paired(alloc: Global, first: &[u32], second: &[u64]) -> Result<Numbered, AllocError>
    requires few { length first.now < 2 ^ 32 }
    requires same { length second.now ≡ length first.now }
    ensures numbers { IfOk result
        (λ r. IsNumbering (pair_at first.now second.now) (length first.now) r.numbers.items) }
    ensures below { IfOk result (λ r. All (λ k. k < length first.now) r.numbers.items) }
    ensures count { IfOk result (λ r. distinct_count nat_eq r.numbers.items ≡ r.count) }
{
    let mut pairs: PairSet = IndexSet::with_hasher(alloc, BuildHasherDefault::new());
    let mut hints = hints_for(alloc, first.len())?;
    let mut numbers = Vec::with_capacity(alloc, first.len())?;
    for x in 0..first.len() {
        let place = place_of(&mut pairs, &mut hints, (first[x], second[x]))?;
        numbers.push(place as u32)?;
    }
    let count = pairs.len() as u32;
    Ok(Numbered { numbers, count })
}
