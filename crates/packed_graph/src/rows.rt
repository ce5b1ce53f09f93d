//! Rows of packed lists of nodes.
ghost use Rattle.std.specs.Prelude.{◌≡◌, ◌<◌, ◌≤◌, ◌+◌, ◌-◌, ◌^◌, ◌++◌, All, ℕ, map, length};
ghost use Rattle.std.specs.Prelude.{slice_index, IfOk, OnOk, OnErr, IsOk, vec_len, vec_capacity};
ghost use Rattle.c_model.specs.Graph.{IsBelow};
ghost use Rattle.packed_graph.specs.Packed.{word_of, moved_word};
ghost use Rattle.packed_graph.specs.Rows.{AreNone, AreSame, HasRoom, HasRow, HasRowsOf, AreFirst};

use c_model::Ref;
use std::alloc::{AllocError, Global};

/// The rows of a list of types. Of each type `numbers` has the number of its label, and `ends` the
/// place where its words end, behind a first 0. `words` has the references of all types, one type
/// after the other.
#[derive(Drop)]
pub struct Rows {
    pub(crate) numbers: Vec<u32>,
    pub(crate) ends: Vec<u32>,
    pub(crate) words: Vec<u32>,
}

/// A reference as a word: 0 for void, else 1 more than the node.
#[inline(always)]
pub fn word(target: Ref) -> u32
    requires { IsBelow (2 ^ 32 - 1) target }
    ensures { result ≡ word_of target }
{
    match target {
        Ref::Void => 0,
        Ref::Node(x) => x + 1,
    }
}

/// Appends the words of references, in memory that has room for them.
fn push_words(words: &mut Vec<u32>, targets: &[Ref]) -> Result<(), AllocError>
    requires { All (IsBelow (2 ^ 32 - 1)) targets.now }
    ensures words { IfOk result (λ _. words.new.items ≡ words.old.items ++
        map word_of targets.now) }
    ensures full { OnErr result (vec_capacity words.old < vec_len words.old + length targets.now) }
{
    for target in targets {
        words.push(word(*target))?;
    }
    Ok(())
}

/// Appends numbers, each with `by` more. A sum that does not fit is want of memory.
fn push_raised(list: &mut Vec<u32>, more: &[u32], by: u32) -> Result<(), AllocError>
    ensures { IfOk result (λ _. list.new.items ≡ list.old.items ++ map (λ n. n + by) more.now) }
{
    list.reserve(more.len())?;
    for number in more {
        let Some(raised) = number.checked_add(by) else {
            return Err(AllocError);
        };
        list.push(raised)?;
    }
    Ok(())
}

/// Appends words, with their references moved by `by` nodes. A reference that does not fit is want
/// of memory.
fn push_moved(list: &mut Vec<u32>, more: &[u32], by: u32) -> Result<(), AllocError>
    ensures { IfOk result (λ _. list.new.items ≡ list.old.items ++ map (moved_word by) more.now) }
{
    list.reserve(more.len())?;
    for word in more {
        let moved = if *word == 0 {
            Some(0)
        } else {
            word.checked_add(by)
        };
        let Some(moved) = moved else {
            return Err(AllocError);
        };
        list.push(moved)?;
    }
    Ok(())
}

/// Appends the numbers that stand at these places.
fn push_placed(list: &mut Vec<u32>, more: &[u32], places: &[u32]) -> Result<(), AllocError>
    requires { (x : ℕ) → x < length more.now → slice_index more.now x < length places.now }
    ensures { IfOk result
        (λ _. list.new.items ≡ list.old.items ++ map (slice_index places.now) more.now) }
{
    list.reserve(more.len())?;
    for number in more {
        list.push(places[*number as usize])?;
    }
    Ok(())
}

impl Rows {
    /// No rows.
    pub fn new(alloc: Global) -> Result<Rows, AllocError>
        ensures { IfOk result AreNone }
    {
        Ok(Rows {
            numbers: Vec::new(alloc),
            ends: Vec::from_slice(alloc, &[0])?,
            words: Vec::new(alloc),
        })
    }

    /// Makes room for a row of so many words, and tells where they end. More than 2^32 - 1 words
    /// are want of memory.
    pub fn reserve(&mut self, count: usize) -> Result<u32, AllocError>
        ensures same { AreSame self.old self.new }
        ensures room { IfOk result (λ _. HasRoom count self.new) }
        ensures end { IfOk result (λ end. end ≡ length self.old.words.items + count) }
    {
        let Ok(end) = u32::try_from(self.words.len().saturating_add(count)) else {
            return Err(AllocError);
        };
        self.numbers.reserve(1)?;
        self.ends.reserve(1)?;
        self.words.reserve(count)?;
        Ok(end)
    }

    /// Appends a row, whose words end there, where there is room for it.
    pub fn push(&mut self, number: u32, end: u32, targets: &[Ref]) -> Result<(), AllocError>
        requires targets { All (IsBelow (2 ^ 32 - 1)) targets.now }
        requires room { HasRoom (length targets.now) self.old }
        ensures row { HasRow self.old number end targets.now self.new }
        ensures ok { IsOk result }
    {
        push_words(&mut self.words, targets)?;
        self.ends.push(end)?;
        self.numbers.push(number)?;
        Ok(())
    }

    /// Appends the rows of another list, whose labels are numbered by these places, with their
    /// references moved by the number of rows before. Numbers that do not fit are want of memory.
    pub fn append(&mut self, other: &Rows, places: &[u32]) -> Result<(), AllocError>
        requires ends { 0 < length other.now.ends.items }
        requires places { (x : ℕ) → x < length other.now.numbers.items
            → slice_index other.now.numbers.items x < length places.now }
        ensures { OnOk result (HasRowsOf self.old other.now places.now self.new) }
    {
        let (Ok(count), Ok(end)) = (
            u32::try_from(self.numbers.len()),
            u32::try_from(self.words.len()),
        ) else {
            return Err(AllocError);
        };
        push_placed(&mut self.numbers, &other.numbers, places)?;
        push_raised(&mut self.ends, &other.ends[1..], end)?;
        push_moved(&mut self.words, &other.words, count)
    }

    /// Keeps the first `count` rows alone.
    pub fn truncate(&mut self, count: usize)
        requires { count < length self.old.ends.items }
        ensures { AreFirst count self.old self.new }
    {
        let end = self.ends[count] as usize;
        self.words.truncate(end);
        self.ends.truncate(count + 1);
        self.numbers.truncate(count);
    }
}
