//! The strings of a table.
ghost use Rattle.std.specs.Prelude.{◌≡◌, ◌+◌, ◌<◌, ◌≤◌, ◌^◌, ℕ, List, [], ◌∷◌, ◌++◌, None, Some};
ghost use Rattle.std.specs.Prelude.{Ok, Err, length, IfOk, IfSome, OnOk, OnErr, IsErrOf};
ghost use Rattle.std.specs.Option.{option_copied};
ghost use Rattle.btf_strings.specs.Names.{all_strings, base_offset, first_string};
ghost use Rattle.dw_base.specs.Texts.{HasNoNul, text_of};
ghost use Rattle.btf_strings.specs.Names.{next_offset, offset_of, own_names, own_section};
ghost use Rattle.btf_strings.specs.Names.{with_name};
ghost use Rattle.btf_strings.specs.Kept.{IsSection, IsSound, Notes, value_of};

use crate::fault::StringsFault;
use dw_base::{Name, text_at};
use indexmap::IndexMap;
use std::alloc::{AllocError, Global};
use std::hash::{BuildHasherDefault, DefaultHasher};
use std::marker::Model;

/// The last offset that a new name may have, in bytes from the beginning of the base's strings (the
/// kernel's `BTF_MAX_NAME_OFFSET`).
pub const LAST_OFFSET: u64 = 0x00ff_ffff;

/// Offsets by names. They are hashed by SipHash: a file's names can be made to collide by the
/// library's default hasher.
type Offsets<'a> = IndexMap<Name<'a>, u32, BuildHasherDefault<DefaultHasher>>;

/// No offsets.
fn no_offsets<'a>(alloc: Global) -> Offsets<'a>
    ensures { result.entries ≡ [] }
{
    IndexMap::with_hasher(alloc, BuildHasherDefault::new())
}

/// The names of a table with their string section. Contracts see it as the base's section and the
/// names that have a place in the own section, in order.
#[derive(Drop)]
pub struct Strings<'a> {
    base: Option<&'a [u8]>,
    /// The least offset of each whole string of the base.
    base_offsets: Offsets<'a>,
    own: Vec<u8>,
    /// The own names with their offsets.
    places: Offsets<'a>,
}

impl<'a> Model for Strings<'a> {
    ghost use Rattle.btf_strings.specs.Names.{Names};
    ghost use Rattle.btf_strings.specs.Kept.{IsKept, names_of};
    ghost use Rattle.std.specs.Option.{option_copied};

    ghost Value = { Names };

    ghost view = { λ s. record { base = option_copied s.base; own = names_of s.places.entries } };

    ghost invariant = { λ s. IsKept (option_copied s.base) s.base_offsets.entries s.own.items
        s.places.entries };
}

impl<'a> Strings<'a> {
    /// The strings of a table without names. `base` is the string section of the table that the new
    /// one goes on from, where there is one: offsets then count on from its length.
    pub fn new(alloc: Global, base: Option<&'a [u8]>) -> Result<Strings<'a>, AllocError>
        requires { IfSome (option_copied base) IsSection }
        ensures { IfOk result (λ s. s ≡ record { base = option_copied base.entry; own = [] }) }
    {
        Ok(Strings {
            base,
            base_offsets: offsets_of_base(alloc, base)?,
            own: first_string(alloc, base)?,
            places: no_offsets(alloc),
        })
    }

    /// The offset of a name, in bytes from the beginning of the base's strings. A name without one
    /// is appended to the own section with a NUL. A refused name changes nothing.
    pub fn put(&mut self, name: Name<'a>) -> Result<u32, StringsFault>
        ensures ok { OnOk result (self.new ≡ with_name self.old name.entry) }
        ensures offset { IfOk result (λ at. offset_of self.new name.entry ≡ Some at) }
        // A new name's offset doesn't pass the last.
        ensures room { OnOk result (offset_of self.old name.entry ≡ None
            → next_offset self.old ≤ LAST_OFFSET) }
        ensures full { (at : ℕ) → IsErrOf result (StringsFault.Full at) →
            (offset_of self.old name.entry ≡ None) × (at ≡ next_offset self.old)
            × (LAST_OFFSET < at) }
        ensures err { OnErr result (self.new ≡ self.old) }
        // A name keeps its offset.
        ensures kept { (other : List ℕ) (at : ℕ) → offset_of self.old other ≡ Some at →
            OnOk result (offset_of self.new other ≡ Some at) }
        // Over any list of names that were put: the own names are those of the list.
        ensures list { (names : List (List ℕ)) → self.old.own ≡ own_names self.old.base names →
            OnOk result (self.new.own ≡ own_names self.old.base (names ++ name.entry ∷ [])) }
    {
        if let Some(at) = self.offset_of(name.again()) {
            return Ok(at);
        }
        let at = self.next_offset();
        if at > LAST_OFFSET {
            return Err(StringsFault::Full(at));
        }
        self.append(name, at as u32)?;
        Ok(at as u32)
    }

    /// The offset of a name, in bytes from the beginning of the base's strings. `None` exactly
    /// where the name has none so far.
    pub fn offset_of(&self, name: Name<'_>) -> Option<u32>
        ensures value { result ≡ offset_of self.now name.entry }
        // The text there is the name.
        ensures text { HasNoNul name.entry
            → IfSome result (λ at. text_of (all_strings self.now) at ≡ Some name.entry) }
    {
        // A struct's invariant is known once a field is used.
        let _ = &self.base;
        let bytes = name.bytes();
        if bytes.is_empty() {
            return Some(0);
        }
        match self.base_offsets.get(&name) {
            Some(at) => Some(*at),
            None => self.places.get(&name).copied(),
        }
    }

    /// The own string section.
    pub fn bytes(&self) -> &[u8]
        ensures value { result.now ≡ own_section self.now }
        ensures sound { IsSound self.now }
    {
        self.own.as_slice()
    }

    /// Where the next new name comes.
    fn next_offset(&self) -> u64
        ensures { result ≡ next_offset self.now }
    {
        let before = match self.base {
            Some(section) => section.len() as u64,
            None => 0,
        };
        before + self.own.len() as u64
    }

    /// Appends a new name. Memory is taken before anything changes.
    fn append(&mut self, name: Name<'a>, at: u32) -> Result<(), StringsFault>
        requires new { offset_of self.old name ≡ None }
        requires at { at ≡ next_offset self.old }
        requires room { at ≤ LAST_OFFSET }
        ensures ok { OnOk result (self.new ≡
            record self.old { own = self.old.own ++ name.entry ∷ [] }) }
        ensures err { OnErr result (self.new ≡ self.old) }
        ensures fault { OnErr result (IsErrOf result StringsFault.Memory) }
    {
        let bytes = name.bytes();
        self.own.reserve(bytes.len() + 1)?;
        self.places.insert(name, at)?;
        self.own.extend_from_slice(bytes)?;
        self.own.push(0)?;
        Ok(())
    }
}

/// The own section before the first name.
fn first_string(alloc: Global, base: Option<&[u8]>) -> Result<Vec<u8>, AllocError>
    ensures { IfOk result (λ v. v.items ≡ first_string (option_copied base.entry)) }
{
    let mut own = Vec::new(alloc);
    if base.is_none() {
        own.push(0)?;
    }
    Ok(own)
}

/// The least offset of each whole string of the base's section.
fn offsets_of_base<'a>(alloc: Global, base: Option<&'a [u8]>) -> Result<Offsets<'a>, AllocError>
    requires { IfSome base (λ b. length b.now < 2 ^ 32) }
    ensures { IfOk result (λ m. (name : List ℕ)
        → value_of name m.entries ≡ base_offset (option_copied base.entry) name) }
{
    match base {
        Some(section) => index_of(alloc, section),
        None => Ok(no_offsets(alloc)),
    }
}

/// The least offset of each whole string of a section.
fn index_of<'a>(alloc: Global, section: &'a [u8]) -> Result<Offsets<'a>, AllocError>
    requires { length section.now < 2 ^ 32 }
    ensures { IfOk result
        (λ m. (name : List ℕ) → value_of name m.entries ≡ base_offset (Some section.now) name) }
{
    let mut base_offsets = no_offsets(alloc);
    let mut at: u32 = 0;
    while let Some(name) = text_at(section, u64::from(at)) {
        let text = name.bytes();
        note(&mut base_offsets, name, at)?;
        at += text.len() as u32 + 1;
    }
    Ok(base_offsets)
}

/// Notes a string of the section, unless it was met before.
fn note<'a>(base_offsets: &mut Offsets<'a>, text: Name<'a>, at: u32) -> Result<(), AllocError>
    ensures { OnOk result (Notes base_offsets.old.entries base_offsets.new.entries text.entry at) }
{
    match base_offsets.get(&text) {
        Some(_) => Ok(()),
        None => {
            base_offsets.insert(text, at)?;
            Ok(())
        }
    }
}
