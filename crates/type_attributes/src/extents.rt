//! How many bytes the objects of a unit's types have, as far as the storage of a bit field needs it
//! (DWARF 4, section 5.5.6).
ghost use Rattle.std.specs.Prelude.{◌≡◌, ◌++◌, ◌<◌, OnOk, IfOk};
ghost use Rattle.std.specs.List.Sorted.{IsNonDecreasingBy};
ghost use Rattle.dwarf_forms.specs.Meanings.{sections};
ghost use Rattle.type_attributes.specs.Extents.{stands_for_another, extent_of, bytes_after};
ghost use Rattle.type_attributes.specs.Extents.{most_followed};
ghost use Rattle.type_attributes.specs.Rows.{row_if, rows_of, extent_in};
ghost use Rattle.type_attributes.specs.declared.extents.ExtentRow.{ExtentRow};

use crate::attributes::{is_given, signed_constant, type_offset};
use crate::number::Number;
use dw_base::InfoOffset;
use dwarf_abbrev::constants::{
    DW_AT_byte_size, DW_TAG_atomic_type, DW_TAG_const_type, DW_TAG_restrict_type, DW_TAG_typedef,
    DW_TAG_volatile_type, DwTag,
};
use dwarf_forms::FormCtx;
use entry_tree::{Entry, Walk};
use std::alloc::{AllocError, Global};

/// How many types are followed at most.
const MOST_FOLLOWED: u32 = 64;

/// What an entry says of the number of bytes of its objects.
#[derive(Clone, Copy)]
pub enum Extent {
    /// So many.
    Bytes(Number),
    /// As many as those of the type at this offset of `.debug_info`.
    SameAs(u128),
    /// Nothing.
    Unknown,
}

/// What the entry at an offset of `.debug_info` says.
#[derive(Clone, Copy)]
pub struct ExtentRow {
    pub at: InfoOffset,
    pub extent: Extent,
}

/// What the entries of a unit say, those that say something, in the order of their offsets.
#[derive(Drop)]
pub struct Extents {
    pub rows: Vec<ExtentRow>,
}

/// Whether the types of a tag have the size of the type that they name.
fn is_followed(tag: DwTag) -> bool
    ensures { result ≡ stands_for_another tag }
{
    tag == DW_TAG_typedef
        || tag == DW_TAG_const_type
        || tag == DW_TAG_volatile_type
        || tag == DW_TAG_restrict_type
        || tag == DW_TAG_atomic_type
}

/// What an entry says.
fn read_extent(form: &FormCtx<'_>, entry: &Entry<'_, '_>) -> Extent
    ensures { result ≡ extent_of (sections form.now) entry.now }
{
    if is_given(entry, DW_AT_byte_size) {
        // a value of the wrong class says nothing here
        let mut ignored = None;
        return match signed_constant(entry, DW_AT_byte_size, &mut ignored) {
            Some(bytes) => Extent::Bytes(bytes),
            None => Extent::Unknown,
        };
    }
    if !is_followed(entry.tag()) {
        return Extent::Unknown;
    }
    match type_offset(form, entry) {
        Some(to) => Extent::SameAs(to),
        None => Extent::Unknown,
    }
}

/// One row more, where an entry says something.
fn push_row(rows: &mut Vec<ExtentRow>, at: InfoOffset, extent: Extent) -> Result<(), AllocError>
    ensures { OnOk result (rows.new.items ≡ rows.old.items ++ row_if at extent) }
{
    match extent {
        Extent::Unknown => Ok(()),
        _ => {
            rows.push(ExtentRow { at, extent })?;
            Ok(())
        }
    }
}

/// What the entries of a walk say, up to its end or fault.
///
/// Its work is that of the walk to its end, and of two calls of `Entry::attr` for each entry.
pub fn read_extents(
    alloc: Global,
    form: &FormCtx<'_>,
    walk: Walk<'_, '_>,
) -> Result<Extents, AllocError>
    ensures { IfOk result (λ x. x.rows.items ≡ rows_of (sections form.now) walk.entry.entries) }
{
    let mut walk = walk;
    let mut rows = Vec::new(alloc);
    'entries: loop {
        match walk.next() {
            Ok(Some(entry)) => push_row(&mut rows, entry.at(), read_extent(form, &entry))?,
            _ => return Ok(Extents { rows }),
        }
    }
}

/// What the entry at an offset says, by rows that rise.
fn find_extent(rows: &[ExtentRow], to: u128) -> Extent
    requires { IsNonDecreasingBy (λ (r : ExtentRow). r.at) rows.now }
    ensures { result ≡ extent_in rows.now to }
{
    let k = rows.partition_point(|row| u128::from(row.at) < to);
    if k < rows.len() && u128::from(rows[k].at) == to {
        rows[k].extent
    } else {
        Extent::Unknown
    }
}

/// How many bytes the objects of the type at an offset have, by rows that rise; none where no chain
/// of at most 64 types leads to a size.
///
/// Its work is at most 65 times the logarithm of the number of rows.
pub fn find_bytes(rows: &[ExtentRow], to: u128) -> Option<Number>
    requires { IsNonDecreasingBy (λ (r : ExtentRow). r.at) rows.now }
    ensures { result ≡ bytes_after (extent_in rows.now) most_followed (extent_in rows.now to) }
{
    let mut found = find_extent(rows, to);
    for i in 0..MOST_FOLLOWED {
        match found {
            Extent::Bytes(bytes) => return Some(bytes),
            Extent::SameAs(next) => found = find_extent(rows, next),
            Extent::Unknown => return None,
        }
    }
    match found {
        Extent::Bytes(bytes) => Some(bytes),
        _ => None,
    }
}
