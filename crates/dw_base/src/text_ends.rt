//! Where the texts of a section end.
ghost use Rattle.std.specs.Prelude.{◌≡◌, ◌+◌, ◌-◌, ◌*◌, ◌<◌, ◌≤◌, ◌/◌, length, IfOk, take, drop};
ghost use Rattle.dw_base.specs.Texts.{text_of};
ghost use Rattle.dw_base.specs.Ends.{IsFirstNul, HasNulBits, IsBlockOf, AreBlocksOf};
ghost use Rattle.dw_base.specs.Ends.{IsRestAt, AreRestsOf};

use crate::names::{Name, SHORT, digest_before, text_at};
use memchr::memchr;
use std::alloc::{AllocError, Global};
use std::marker::Model;
use std::simd::prelude::*;

/// How many bytes of a section one block is for.
const BLOCK: usize = 64;

/// What is kept of 64 bytes of a section.
#[derive(Clone, Copy)]
pub(crate) struct Block {
    /// Bit k is set exactly where the k-th byte is NUL.
    pub(crate) nul: u64,
    /// The offset in the section of the first NUL behind the block; the section's length where
    /// there is none.
    pub(crate) behind: u64,
}

/// Where the texts of a section end, so that the end of a text is found without a look at its
/// bytes, however long it is. It takes a quarter of the section's bytes. Contracts see it as the
/// section's bytes.
#[derive(Drop)]
pub struct TextEnds<'a> {
    bytes: &'a [u8],
    blocks: Vec<Block>,
    rests: Vec<u64>,
}

impl<'a> Model for TextEnds<'a> {
    ghost use Rattle.std.specs.Prelude.{List, ℕ};
    ghost use Rattle.dw_base.specs.Ends.{AreBlocksOf, AreRestsOf};

    ghost Value = { List ℕ };

    ghost view = { λ e. e.bytes.now };

    ghost invariant = { λ e. AreBlocksOf e.bytes.now e.blocks.items
        × AreRestsOf e.bytes.now e.rests.items };
}

/// The offset of the first NUL at or behind a place; the section's length where there is none.
fn first_nul(bytes: &[u8], from: usize) -> u64
    requires { from ≤ length bytes.now }
    ensures { IsFirstNul bytes.now from result }
{
    match memchr(0, &bytes[from..]) {
        Some(after) => (from + after) as u64,
        None => bytes.len() as u64,
    }
}

/// Which of the 64 bytes from a place on are NUL.
#[inline(always)]
fn nul_bits(bytes: &[u8], from: usize) -> u64
    requires { from + 64 ≤ length bytes.now }
    ensures { HasNulBits bytes.now from result }
{
    u8x64::from_slice(&bytes[from..])
        .simd_eq(u8x64::splat(0))
        .to_bitmask()
}

/// The offset of the first NUL behind the block with a number, by that of the first one from the
/// block's beginning on.
fn first_behind(bytes: &[u8], number: usize, first: u64) -> u64
    requires whole { 64 * number + 64 ≤ length bytes.now }
    requires first { IsFirstNul bytes.now (64 * number) first }
    ensures { IsFirstNul bytes.now (64 * number + 64) result }
{
    let end = (number + 1) * BLOCK;
    if first < end as u64 {
        first_nul(bytes, end)
    } else {
        first
    }
}

/// The blocks of a section, in order, without the bytes behind its last 64.
fn blocks_of(alloc: Global, bytes: &[u8]) -> Result<Vec<Block>, AllocError>
    ensures { IfOk result (λ blocks. AreBlocksOf bytes.now blocks.items) }
{
    let count = bytes.len() / BLOCK;
    let mut blocks = Vec::with_capacity(alloc, count)?;
    let mut behind = first_nul(bytes, 0);
    for number in 0..count {
        behind = first_behind(bytes, number, behind);
        blocks.push(Block {
            nul: nul_bits(bytes, number * BLOCK),
            behind,
        })?;
    }
    Ok(blocks)
}

/// The offset of the first NUL at or behind a place in a block; the section's length where there is
/// none. The section is for the contract alone.
#[inline(always)]
fn end_in(bytes: &[u8], block: Block, at: u64) -> u64
    requires { IsBlockOf bytes.now (at / 64) block }
    ensures { IsFirstNul bytes.now at result }
{
    let bits = block.nul >> (at % BLOCK as u64);
    if bits == 0 {
        block.behind
    } else {
        at + u64::from(bits.trailing_zeros())
    }
}

/// The digest of the text at a place, by that of the text `SHORT` bytes behind it.
fn rest_at(bytes: &[u8], at: usize, behind: u64) -> u64
    requires place { at ≤ length bytes.now }
    requires behind { IsRestAt bytes.now (at + 4096) behind }
    ensures { IsRestAt bytes.now at result }
{
    let end = bytes.len().min(at + SHORT);
    let piece = &bytes[at..end];
    match memchr(0, piece) {
        Some(nul) => digest_before(0, &piece[0..nul]),
        None => digest_before(behind, piece),
    }
}

/// The digests of the texts at each `SHORT` bytes, from the last ones on.
fn rests_of(alloc: Global, bytes: &[u8]) -> Result<Vec<u64>, AllocError>
    ensures { IfOk result (λ rests. AreRestsOf bytes.now rests.items) }
{
    let last = bytes.len() / SHORT;
    let mut rests = Vec::with_capacity(alloc, last + 1)?;
    let mut rest = 0;
    for j in 0..last + 1 {
        rest = rest_at(bytes, (last - j) * SHORT, rest);
        rests.push(rest)?;
    }
    Ok(rests)
}

impl<'a> TextEnds<'a> {
    /// Looks for the ends of the texts of a section. The work is that of the section's bytes.
    pub fn of(alloc: Global, bytes: &'a [u8]) -> Result<TextEnds<'a>, AllocError>
        ensures { IfOk result (λ e. e ≡ bytes.now) }
    {
        let blocks = blocks_of(alloc, bytes)?;
        let rests = rests_of(alloc, bytes)?;
        Ok(TextEnds {
            bytes,
            blocks,
            rests,
        })
    }

    /// The bytes of the section.
    #[inline(always)]
    pub fn bytes(&self) -> &'a [u8]
        ensures { result.now ≡ self.now }
    {
        self.bytes
    }

    /// The text at a place: the bytes from offset `at` to before the next NUL. `None` where no NUL
    /// stands at or after `at`, so too where `at` is past the end. It looks at 4,096 bytes at most,
    /// however long the text is.
    #[inline]
    pub fn text(&self, at: u64) -> Option<Name<'a>>
        ensures { result ≡ text_of self.now at }
    {
        match self.blocks.get((at / BLOCK as u64) as usize) {
            Some(block) => self.text_to(at, end_in(self.bytes, *block, at)),
            None => text_at(self.bytes, at),
        }
    }

    /// The text from one place to before another. `None` where the other is the end of the section.
    #[inline]
    fn text_to(&self, at: u64, end: u64) -> Option<Name<'a>>
        requires { IsFirstNul self.now at end }
        ensures { result ≡ text_of self.now at }
    {
        if end == self.bytes.len() as u64 {
            None
        } else if end - at <= SHORT as u64 {
            Some(Name::new(&self.bytes[at as usize..end as usize]))
        } else {
            Some(self.long_text(at, end))
        }
    }

    /// The long text from one place to before another, by the digest of its bytes from the next
    /// multiple of `SHORT` on.
    fn long_text(&self, at: u64, end: u64) -> Name<'a>
        requires ends { IsFirstNul self.now at end }
        requires long { at + 4096 < end }
        requires within { end < length self.now }
        ensures { result ≡ take (end - at) (drop at self.now) }
    {
        let text = &self.bytes[at as usize..end as usize];
        let chunk = at as usize / SHORT + 1;
        match self.rests.get(self.bytes.len() / SHORT - chunk) {
            Some(rest) => {
                let head = &text[0..chunk * SHORT - at as usize];
                Name::with_digest(text, digest_before(*rest, head))
            }
            None => Name::new(text),
        }
    }
}
