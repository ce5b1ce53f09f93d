//! What the rows of all tags share: labels and sizes.
ghost use Rattle.std.specs.Prelude.{◌≡◌, [], IfSome};
ghost use Rattle.dwarf_forms.specs.Meanings.{Fits64};
ghost use Rattle.type_attributes.specs.Faults.{noted};
ghost use Rattle.type_attributes.specs.Labels.{plain_label, is_empty, fits_word, word_of, size_in};
ghost use Rattle.type_attributes.specs.Labels.{size_refusals};

use crate::fault::{TypeFault, note, note_if};
use crate::number::{Number, by_sign};
use crate::source::Targets;
use c_model::{Label, Parts};
use dw_base::{InfoOffset, Name};
use std::alloc::Global;

/// The most members, enumerators or parameters of a type.
pub const MOST: u64 = 65_535;

/// A label without flag, extra and parts. It takes constant time, as all here.
pub fn make_label<'a>(alloc: Global, kind: u8, name: Name<'a>, size: u32) -> Label<'a>
    ensures { result ≡ plain_label kind name.entry size }
{
    Label {
        kind,
        name,
        flag: false,
        size,
        extra: 0,
        parts: Parts::new(Vec::new(alloc)),
    }
}

/// A list of no target.
pub fn no_targets(alloc: Global) -> Targets
    ensures { result ≡ [] }
{
    Targets::new(Vec::new(alloc))
}

/// Whether a name is missing.
pub fn is_unnamed(name: &Name<'_>) -> bool
    ensures { result ≡ is_empty name.now }
{
    name.bytes().is_empty()
}

/// Whether a size is a number of 32 bits.
fn fits_u32(size: i128) -> bool
    requires { Fits64 size }
    ensures { result ≡ fits_word size }
{
    match by_sign(size) {
        Number::Natural(n) => n < 4_294_967_296,
        Number::Negative(_) => false,
    }
}

/// A size as a number of 32 bits; 0 where it is none.
fn word(size: i128) -> u32
    requires { Fits64 size }
    ensures { result ≡ word_of size }
{
    match by_sign(size) {
        Number::Natural(n) if n < 4_294_967_296 => n as u32,
        _ => 0,
    }
}

/// The size that is given; 0 where it is missing or too large.
pub fn size_or_zero(size: Option<i128>) -> u32
    requires { IfSome size Fits64 }
    ensures { result ≡ size_in size }
{
    match size {
        None => 0,
        Some(z) => word(z),
    }
}

/// Refuses a size that is missing or too large.
pub fn note_size(least: &mut Option<TypeFault>, at: InfoOffset, size: Option<i128>)
    requires { IfSome size Fits64 }
    ensures { least.new ≡ noted least.old (size_refusals at size) }
{
    match size {
        None => note(least, TypeFault::MissingSize(at)),
        Some(z) => note_if(least, !fits_u32(z), TypeFault::SizeLarge(at, z)),
    }
}
