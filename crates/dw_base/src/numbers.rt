//! Numbers of one to eight bytes, in either byte order.
ghost use Rattle.std.specs.Prelude.{◌≡◌, ◌≤◌, ◌<◌, length, slice_index};
ghost use Rattle.dw_base.specs.Numbers.{number_of};

use byteorder::{BigEndian, ByteOrder, LittleEndian};

/// The byte order of a file (System V gABI, the field EI_DATA).
#[derive(Clone, Copy, PartialEq, Eq)]
pub enum Order {
    /// The first byte is the lowest.
    Little,
    /// The first byte is the highest.
    Big,
}

/// The unsigned number in the `width` bytes from offset `at`. `None` exactly where these bytes do
/// not all lie in `bytes`. It takes constant time.
#[inline(always)]
pub fn number(bytes: &[u8], at: u64, width: u32, order: Order) -> Option<u64>
    requires low { 1 ≤ width }
    requires high { width ≤ 8 }
    ensures { result ≡ number_of bytes.now at width order }
{
    let len = bytes.len() as u64;
    if at > len || len - at < u64::from(width) {
        return None;
    }
    if width == 1 {
        return Some(u64::from(bytes[at as usize]));
    }
    let piece = &bytes[at as usize..at as usize + width as usize];
    match order {
        Order::Little => Some(read::<LittleEndian>(piece, width)),
        Order::Big => Some(read::<BigEndian>(piece, width)),
    }
}

/// The number in the first `width` bytes, by the reader of that width where `byteorder` has one.
#[inline(always)]
fn read<T: ByteOrder>(piece: &[u8], width: u32) -> u64
    requires low { 1 ≤ width }
    requires high { width ≤ 8 }
    requires room { width ≤ length piece.now }
    ensures { result ≡ T.number_of width piece.now }
{
    match width {
        2 => u64::from(T::read_u16(piece)),
        4 => u64::from(T::read_u32(piece)),
        8 => T::read_u64(piece),
        _ => T::read_uint(piece, width as usize),
    }
}
