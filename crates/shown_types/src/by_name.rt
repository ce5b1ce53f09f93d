//! The types that can be shown, by their names.
ghost use Rattle.std.specs.Prelude.{◌≡◌, ◌++◌, ◌+◌, ◌<◌, ◌^◌, length, IfOk, OnOk};
ghost use Rattle.std.specs.List.{slice_get};
ghost use Rattle.std.specs.Option.{option_flatten};
ghost use Rattle.shown_types.specs.ByName.{AreNamed, place_of};
ghost use Rattle.shown_types.specs.Listed.{name_at, places_named};

use crate::listed::structure_at;
use c_model::CType;
use dw_base::Name;
use indexmap::IndexMap;
use std::alloc::{AllocError, Global};
use std::hash::{BuildHasherDefault, DefaultHasher};

/// Places by names. They are hashed by SipHash: a file's names can be made to collide by the
/// library's default hasher.
pub type NamePlaces<'a> = IndexMap<Name<'a>, u32, BuildHasherDefault<DefaultHasher>>;

/// The places of the types that can be shown, by their names.
#[derive(Drop)]
pub struct ByName<'a> {
    /// The first place of each name.
    pub first: NamePlaces<'a>,
    /// For each place the next one of its name, where it is a type's that can be shown.
    pub next: Vec<Option<u32>>,
}

/// The types of a table by their names, in one pass over them.
pub fn by_name<'a>(alloc: Global, types: &[CType<'a>]) -> Result<ByName<'a>, AllocError>
    requires { length types.now < 2 ^ 32 }
    ensures { IfOk result (λ b. AreNamed types.now 0 b.first.entries b.next.items) }
{
    let mut first = IndexMap::with_hasher(alloc, BuildHasherDefault::new());
    let mut next = vec![in alloc; None; types.len()]?;
    let mut x = types.len() as u32;
    while x > 0 {
        x -= 1;
        add(&mut first, &mut next, types, x)?;
    }
    Ok(ByName { first, next })
}

/// Adds the type in a place to those behind it.
fn add<'a>(
    first: &mut NamePlaces<'a>,
    next: &mut Vec<Option<u32>>,
    types: &[CType<'a>],
    x: u32,
) -> Result<(), AllocError>
    requires place { x < length types.now }
    requires behind { AreNamed types.now (x + 1) first.old.entries next.old.items }
    ensures { OnOk result (AreNamed types.now x first.new.entries next.new.items) }
{
    if structure_at(types, x).is_some() {
        let name = name_of(types, x);
        let later = first.insert(name, x)?;
        next[x as usize] = later;
    }
    Ok(())
}

/// The name of the type in a place, as a key.
fn name_of<'a>(types: &[CType<'a>], x: u32) -> Name<'a>
    ensures { result ≡ name_at types.now x }
{
    match types.get(x as usize) {
        None => Name::new(b""),
        Some(t) => t.label.name.again(),
    }
}

/// The name of the type in a place.
pub fn name_at<'a>(types: &[CType<'a>], x: u32) -> &'a [u8]
    ensures { result.now ≡ name_at types.now x }
{
    match types.get(x as usize) {
        None => b"",
        Some(t) => t.label.name.bytes(),
    }
}

/// The first place of a name.
fn first_of(first: &NamePlaces<'_>, name: &[u8]) -> Option<u32>
    ensures { result ≡ place_of name.now first.now.entries }
{
    first.get(&Name::new(name)).copied()
}

/// The next place of the name of the type in a place.
fn next_of(next: &[Option<u32>], x: u32) -> Option<u32>
    ensures { result ≡ option_flatten (slice_get next.now x) }
{
    match next.get(x as usize) {
        Some(place) => *place,
        None => None,
    }
}

/// Adds the places of all types of a name that can be shown.
pub fn push_named(
    all: &mut Vec<u32>,
    types: &[CType<'_>],
    by_name: &ByName<'_>,
    name: &[u8],
) -> Result<(), AllocError>
    requires { AreNamed types.now 0 by_name.now.first.entries by_name.now.next.items }
    ensures { OnOk result (all.new.items ≡ all.old.items ++ places_named types.now name.now) }
{
    let mut at = first_of(&by_name.first, name);
    for _ in 0..types.len() {
        match at {
            None => return Ok(()),
            Some(x) => {
                all.push(x)?;
                at = next_of(&by_name.next, x);
            }
        }
    }
    Ok(())
}
