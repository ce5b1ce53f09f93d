//! The pieces of an abbreviation, one after the other.
ghost use Rattle.std.specs.Prelude.{◌≡◌};
ghost use Rattle.dwarf_abbrev.specs.Table.{GivesMore, number_at, signed_at, spec_at, specs_of};
ghost use Rattle.dwarf_abbrev.specs.Table.{flag_at};

use crate::constants::DW_FORM_implicit_const;
use crate::fault::AbbrevFault;
use crate::spec::Spec;
use dw_base::{LebFault, sleb, uleb};

/// An unsigned number of the abbreviation that begins at `start`, and the offset after it.
#[inline(always)]
pub(crate) fn read_number(bytes: &[u8], start: u64, at: u64) -> Result<(u64, u64), AbbrevFault>
    ensures { result ≡ number_at bytes.now start at }
{
    match uleb(bytes, at) {
        Ok(found) => Ok(found),
        Err(LebFault::Truncated) => Err(AbbrevFault::AbbrevTruncated(start)),
        Err(LebFault::TooWide) => Err(AbbrevFault::LebWide(at)),
    }
}

/// A signed number of the abbreviation that begins at `start`, and the offset after it.
fn read_signed(bytes: &[u8], start: u64, at: u64) -> Result<(i64, u64), AbbrevFault>
    ensures { result ≡ signed_at bytes.now start at }
{
    match sleb(bytes, at) {
        Ok(found) => Ok(found),
        Err(LebFault::Truncated) => Err(AbbrevFault::AbbrevTruncated(start)),
        Err(LebFault::TooWide) => Err(AbbrevFault::LebWide(at)),
    }
}

/// The children byte, which is 0 or 1, and the offset after it.
#[inline(always)]
pub(crate) fn read_flag(bytes: &[u8], start: u64, at: u64) -> Result<(bool, u64), AbbrevFault>
    ensures { result ≡ flag_at bytes.now start at }
{
    if at >= bytes.len() as u64 {
        return Err(AbbrevFault::AbbrevTruncated(start));
    }
    let byte = bytes[at as usize];
    if byte > 1 {
        return Err(AbbrevFault::ChildrenByte(at, byte));
    }
    Ok((byte == 1, at + 1))
}

/// One pair of an attribute and a form, or `None` for the pair 0, 0 that ends them, and the offset
/// after it.
#[tactic(auto, unfolding(crate::specs::Table::spec_at))]
#[inline(always)]
fn read_spec(bytes: &[u8], start: u64, at: u64) -> Result<(Option<Spec>, u64), AbbrevFault>
    ensures { result ≡ spec_at bytes.now start at }
{
    let (attribute, after) = read_number(bytes, start, at)?;
    let (form, after) = read_number(bytes, start, after)?;
    if form == DW_FORM_implicit_const {
        let (implicit, after) = read_signed(bytes, start, after)?;
        return Ok((
            Some(Spec {
                attribute,
                form,
                implicit,
            }),
            after,
        ));
    }
    if attribute == 0 && form == 0 {
        return Ok((None, after));
    }
    Ok((
        Some(Spec {
            attribute,
            form,
            implicit: 0,
        }),
        after,
    ))
}

/// Puts the pairs up to their end behind those of other abbreviations. The offset after the end.
pub(crate) fn read_specs(
    bytes: &[u8],
    start: u64,
    at: u64,
    specs: &mut Vec<Spec>,
) -> Result<u64, AbbrevFault>
    ensures { GivesMore specs.old.items specs.new.items result (specs_of bytes.now start at) }
{
    let mut at = at;
    for _ in 0..bytes.len() {
        let (found, after) = read_spec(bytes, start, at)?;
        at = after;
        match found {
            None => return Ok(at),
            Some(spec) => specs.push(spec)?,
        }
    }
    Err(AbbrevFault::AbbrevTruncated(start))
}
