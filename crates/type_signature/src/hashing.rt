//! Hashes of signatures, by workers.
ghost use Rattle.std.specs.Prelude.{◌≡◌, ◌<◌, ◌≤◌, ◌^◌, ℕ, All, map, length};
ghost use Rattle.std.specs.List.{fold};
ghost use Rattle.c_model.specs.Partition.{class_of, classes_of};
ghost use Rattle.packed_graph.specs.Packed.{ref_of};
ghost use Rattle.type_signature.specs.Hashing.{mixed};
ghost use Rattle.type_signature.specs.Links.{AreWords, IsHashedBy, hash_at};

use crate::links::Links;
use crate::sharing::{NumberAt, put_all};
use forward_rule::FwdIndex;
use std::thread::Threads;

/// A factor of the hash: odd, and without a pattern in its bits.
pub(crate) const FACTOR: u64 = 5_871_781_006_564_002_453;

/// The place of a number of 32 bits among so many, in proportion.
#[inline(always)]
pub(crate) fn place_among(number: u64, count: u64) -> u64 {
    number.wrapping_mul(count) >> 32
}

/// A hash with one more target, which is told by its word.
#[inline(always)]
fn mix(hash: u64, now: &[u64], word: u32) -> u64
    requires { word ≤ length now.now }
    ensures { result ≡ mixed hash (class_of now.now (ref_of word)) }
{
    let number = if word == 0 { 1 } else { now[word as usize - 1] };
    hash.wrapping_mul(FACTOR).wrapping_add(number)
}

/// The hash of a node's own number and its targets.
#[inline(always)]
fn hash_of(own: u64, now: &[u64], words: &[u32]) -> u64
    requires { All (λ w. w ≤ length now.now) words.now }
    ensures { result ≡ fold mixed own (classes_of now.now (map ref_of words.now)) }
{
    let mut hash = own;
    for word in words {
        hash = mix(hash, now, *word);
    }
    hash
}

/// Words of references, which nodes are open forwards, and a number for each node: what tells the
/// hash of the signature of each node under these numbers.
#[derive(Drop)]
struct Hashed<'v> {
    ends: &'v [u32],
    words: &'v [u32],
    fwd: &'v FwdIndex,
    now: &'v [u64],
}

impl<'v> NumberAt for Hashed<'v> {
    ghost is_whole = { λ of. AreWords (length of.fwd.now) of.ends.now of.words.now
        × (length of.now.now ≡ length of.fwd.now) × (length of.fwd.now < 2 ^ 32) };

    ghost count = { λ of. length of.fwd.now };

    ghost number = { λ of x. hash_at of.fwd.now of.ends.now of.words.now of.now.now x };

    #[inline(always)]
    fn number_at(&self, x: usize) -> u64 {
        let own = self.now[x];
        if self.fwd.is_open(x as u32) {
            return own;
        }
        let words = &self.words[self.ends[x] as usize..self.ends[x + 1] as usize];
        hash_of(own, self.now, words)
    }
}

/// Puts the hash of each node's signature under `now` in its place, by so many workers at most.
pub(crate) fn hash_all<R: Threads + Sync>(
    rt: &R,
    workers: usize,
    links: &Links,
    fwd: &FwdIndex,
    now: &[u64],
    hashes: &mut Vec<u64>,
)
    requires workers { 0 < workers }
    requires few { length fwd.now < 2 ^ 32 }
    requires words { AreWords (length fwd.now) links.now.ends.items links.now.words.items }
    requires covers { length now.now ≡ length fwd.now }
    requires places { length hashes.old.items ≡ length fwd.now }
    ensures { IsHashedBy fwd.now links.now.ends.items links.now.words.items now.now
        hashes.new.items }
{
    let of = Hashed {
        ends: &links.ends,
        words: &links.words,
        fwd,
        now,
    };
    put_all(rt, workers, &of, hashes);
}
