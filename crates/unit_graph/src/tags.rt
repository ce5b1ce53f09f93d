//! The tag of an entry that is referred to and is no type.
ghost use Rattle.std.specs.Prelude.{◌≡◌, All, IfOk};
ghost use Rattle.c_types.specs.Types.{types_of_unit_of};
ghost use Rattle.unit_graph.specs.Sources.{IsReadable};
ghost use Rattle.unit_graph.specs.Tags.{tag_in, entries_in, is_read, tag_at, tag_of};
ghost use Rattle.unit_graph.specs.Unread.{lies_in, unread_by, no_entries_by};

use crate::sources::UnitAt;
use c_types::{TypeFault, abbreviation_bytes, types_of_unit};
use dwarf_abbrev::{AbbrevFault, Abbrevs};
use entry_tree::{Walk, context};
use std::alloc::{AllocError, Global};

/// The tag of the entry at an offset, among the entries of a walk.
fn tag_in_walk(walk: Walk<'_, '_>, to: u128) -> Option<u64>
    ensures { result ≡ tag_in to walk.entry.entries }
{
    let mut walk = walk;
    'entries: loop {
        match walk.next() {
            Ok(Some(entry)) => {
                if u128::from(entry.at()) == to {
                    return Some(entry.tag());
                }
            }
            _ => return None,
        }
    }
}

/// The tag of the entry at an offset, among the entries of a unit.
fn tag_in_unit(alloc: Global, at: &UnitAt<'_>, to: u128) -> Result<Option<u64>, AllocError>
    requires { IsReadable at.now }
    ensures { IfOk result (λ o. o ≡ tag_in to (entries_in at.now)) }
{
    match Abbrevs::read(alloc, abbreviation_bytes(&at.image), at.unit.abbrev_at) {
        Ok(abbrevs) => {
            let form = context(&at.image, &at.unit, 0);
            Ok(tag_in_walk(Walk::new(&at.unit, &abbrevs, &form), to))
        }
        Err(fault) => no_entries(fault),
    }
}

/// A unit without abbreviations has no entries.
fn no_entries(fault: AbbrevFault) -> Result<Option<u64>, AllocError>
    ensures { result ≡ no_entries_by fault }
{
    match fault {
        AbbrevFault::Memory => Err(AllocError),
        _ => Ok(None),
    }
}

/// A unit that is refused isn't read.
fn unread(fault: TypeFault) -> Result<bool, AllocError>
    ensures { result ≡ unread_by fault }
{
    match fault {
        TypeFault::Memory => Err(AllocError),
        _ => Ok(false),
    }
}

/// Whether a unit is read, and not passed over.
fn is_unit_read(alloc: Global, at: &UnitAt<'_>) -> Result<bool, AllocError>
    requires { IsReadable at.now }
    ensures { IfOk result (λ b. b ≡ is_read (types_of_unit_of at.now.bytes at.now.unit)) }
{
    match types_of_unit(alloc, &at.image, &at.unit) {
        Ok(found) => Ok(found.read),
        Err(fault) => unread(fault),
    }
}

/// Whether an offset lies in a unit, behind its header. No other has an entry of it.
fn is_inside(at: &UnitAt<'_>, to: u128) -> bool
    ensures { result ≡ lies_in to at.now.unit }
{
    u128::from(at.unit.first) <= to && to < u128::from(at.unit.end)
}

/// The tag of the entry at an offset of a file, in a unit.
fn tag_of_unit(
    alloc: Global,
    at: &UnitAt<'_>,
    file: u32,
    to: u128,
) -> Result<Option<u64>, AllocError>
    requires { IsReadable at.now }
    ensures { IfOk result (λ o. o ≡ tag_at file to at.now) }
{
    if at.file != file {
        return Ok(None);
    }
    if !is_inside(at, to) {
        return Ok(None);
    }
    if is_unit_read(alloc, at)? {
        tag_in_unit(alloc, at, to)
    } else {
        Ok(None)
    }
}

/// The tag of the entry at an offset of a file; 0 where none of a unit that is read begins there.
pub fn find_tag(alloc: Global, units: &[UnitAt<'_>], file: u32, to: u128) -> Result<u64, AllocError>
    requires { All IsReadable units.now }
    ensures { IfOk result (λ n. n ≡ tag_of file to units.now) }
{
    for i in 0..units.len() {
        if let Some(tag) = tag_of_unit(alloc, &units[i], file, to)? {
            return Ok(tag);
        }
    }
    Ok(0)
}
