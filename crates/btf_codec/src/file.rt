//! The parts of a file: header, types and strings.
ghost use Rattle.std.specs.Prelude.{◌≡◌, ◌+◌, ◌*◌, ◌-◌, ◌/◌, ◌<◌, ◌≤◌, ◌^◌, ◌&&◌, ℕ, List, Ok, Err};
ghost use Rattle.std.specs.Prelude.{length, map, slice_index, IfOk};
ghost use Rattle.btf_codec.specs.Gives.{Gives, IsPiece, map_ok, unless};
ghost use Rattle.btf_codec.specs.Reading.{is_begun, is_ended, is_header, is_same_order, is_wanted};
ghost use Rattle.btf_codec.specs.Reading.{magic_order, order_in, pieces_fault, pieces_of};
ghost use Rattle.btf_codec.specs.Reading.{sections_of, word_in};

use crate::fault::BtfFault;
use crate::format::{
    BTF_VERSION, FLAGS, HDR_LEN, HEADER_LEN, MAGIC_HIGH, MAGIC_LOW, STR_LEN, STR_OFF, TYPE_LEN,
    TYPE_OFF, VERSION,
};
use crate::pieces::{head_of, word_in};
use dw_base::Order;
use std::alloc::Global;

/// The byte at an offset; 0 past the end.
fn byte_at(bytes: &[u8], place: usize) -> u8
    ensures { result ≡ slice_index bytes.now place }
{
    if place < bytes.len() { bytes[place] } else { 0 }
}

/// The byte order that a magic number shows.
fn magic_order(first: u8, second: u8) -> Option<Order>
    ensures { result ≡ magic_order first second }
{
    if first == MAGIC_LOW && second == MAGIC_HIGH {
        Some(Order::Little)
    } else if first == MAGIC_HIGH && second == MAGIC_LOW {
        Some(Order::Big)
    } else {
        None
    }
}

/// Whether two byte orders are the same.
fn is_same_order(a: Order, b: Order) -> bool
    ensures { result ≡ is_same_order a b }
{
    match a {
        Order::Little => match b {
            Order::Little => true,
            Order::Big => false,
        },
        Order::Big => match b {
            Order::Little => false,
            Order::Big => true,
        },
    }
}

/// Whether a byte order is the wanted one, if one is wanted.
fn is_wanted(want: Option<Order>, order: Order) -> bool
    ensures { result ≡ is_wanted want order }
{
    match want {
        None => true,
        Some(want) => is_same_order(want, order),
    }
}

/// The byte order of a file, if it is a wanted one.
pub fn order_in(want: Option<Order>, bytes: &[u8]) -> Result<Order, BtfFault>
    ensures { result ≡ order_in want bytes.now }
{
    match magic_order(byte_at(bytes, 0), byte_at(bytes, 1)) {
        None => Err(BtfFault::BtfMagic),
        Some(order) => {
            if is_wanted(want, order) {
                Ok(order)
            } else {
                Err(BtfFault::BtfMagic)
            }
        }
    }
}

/// Whether the bytes begin with a header: the known version, no flags, its own length, types first
/// and in whole words, then the strings and nothing more.
fn is_header(order: Order, bytes: &[u8]) -> bool
    requires { HEADER_LEN ≤ length bytes.now }
    ensures { result ≡ is_header order bytes.now }
{
    let types = word_in(order, bytes, TYPE_LEN);
    let names = word_in(order, bytes, STR_LEN);
    byte_at(bytes, VERSION) == BTF_VERSION
        && byte_at(bytes, FLAGS) == 0
        && word_in(order, bytes, HDR_LEN) == HEADER_LEN as u32
        && word_in(order, bytes, TYPE_OFF) == 0
        && types % 4 == 0
        && word_in(order, bytes, STR_OFF) == types
        && bytes.len() == HEADER_LEN + types as usize + names as usize
}

/// The bytes of the types and those of the strings. Refused where the header is too short or has
/// another value than it should.
pub fn sections_of(order: Order, bytes: &[u8]) -> Result<(&[u8], &[u8]), BtfFault>
    ensures sections { map_ok (λ x. (x.0.now, x.1.now)) result ≡ sections_of order bytes.now }
    ensures few { IfOk result (λ x. length x.0.now < 2 ^ 32) }
{
    if bytes.len() < HEADER_LEN {
        return Err(BtfFault::BtfHeader);
    }
    if !is_header(order, bytes) {
        return Err(BtfFault::BtfHeader);
    }
    let rest = &bytes[HEADER_LEN..];
    Ok(rest.split_at(word_in(order, bytes, TYPE_LEN) as usize))
}

/// Whether strings begin and end as they should.
pub fn are_strings(based: bool, names: &[u8]) -> bool
    ensures { result ≡ (is_begun based names.now && is_ended names.now) }
{
    if names.is_empty() {
        return based;
    }
    (based || names[0] == 0) && names[names.len() - 1] == 0
}

/// The bytes of each type. The first has the id `first`. Refused at the first type that is cut
/// off, has no kind, or has an info word that its kind doesn't allow.
pub fn pieces_of<'a>(
    alloc: Global,
    order: Order,
    types: &'a [u8],
    first: u32,
) -> Result<Vec<&'a [u8]>, BtfFault>
    requires first { first ≤ 2 ^ 31 }
    requires few { length types.now < 2 ^ 32 }
    ensures { Gives (λ v. map (λ p. p.now) v.items) result
        (pieces_of order (length types.now) HEADER_LEN first types.now) }
{
    let mut pieces = Vec::new(alloc);
    let mut rest = types;
    let mut place = HEADER_LEN as u64;
    let mut id = first;
    for _ in 0..types.len() {
        if rest.is_empty() {
            return Ok(pieces);
        }
        let size = head_of(order, place, id, rest)?;
        let (piece, behind) = rest.split_at(4 * size);
        pieces.push(piece)?;
        rest = behind;
        place += 4 * size as u64;
        id += 1;
    }
    Ok(pieces)
}
