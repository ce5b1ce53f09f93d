//! Objects of ELF as pieces: bytes at their places, and zeros between them.
use std::alloc::{AllocError, Global};

/// The place of a byte, and that byte with some that follow.
pub type PlacedBytes = (usize, &'static [u8]);

/// An object: how many bytes it has, and those that are not 0.
pub struct Object {
    pub len: usize,
    pub pieces: &'static [PlacedBytes],
}

/// Writes bytes from a place on, as far as there is room.
fn put(bytes: &mut [u8], at: usize, piece: &[u8]) {
    for (byte, new) in bytes.iter_mut().skip(at).zip(piece) {
        *byte = *new;
    }
}

/// Writes pieces, one after another.
pub fn put_all(bytes: &mut [u8], pieces: &[PlacedBytes]) {
    for (at, piece) in pieces {
        put(bytes, *at, piece);
    }
}

/// The bytes of an object, with some changed.
pub fn built(
    alloc: Global,
    object: &Object,
    changes: &[PlacedBytes],
) -> Result<Vec<u8>, AllocError> {
    let mut bytes = vec![in alloc; 0u8; object.len]?;
    put_all(&mut bytes, object.pieces);
    put_all(&mut bytes, changes);
    Ok(bytes)
}

/// A file of 64 bits, little-endian, whose one unit holds the base type `int`: `.debug_info` at 64
/// with 22 bytes, `.debug_abbrev` at 86 with 19, `.shstrtab` at 105 with 37, and the section
/// headers from 144 on.
pub const PLAIN: &Object = &Object {
    len: 400,
    pieces: &[
        (0, b"\x7fELF\x02\x01\x01"),
        (16, b"\x02\0\x3e\0\x01"),
        (40, b"\x90"),
        (52, b"\x40"),
        (58, b"\x40\0\x04\0\x03"),
        (64, b"\x12\0\0\0\x05\0\x01\x08"),
        (76, b"\x01\x1d\x02int\0\x04\x05"),
        (
            86,
            b"\x01\x11\x01\x13\x0b\0\0\x02\x24\0\x03\x08\x0b\x0b\x3e\x0b",
        ),
        (106, b".debug_info\0.debug_abbrev\0.shstrtab"),
        // The headers of the sections behind the first.
        (208, b"\x01\0\0\0\x01"),
        (232, b"\x40\0\0\0\0\0\0\0\x16"),
        (272, b"\x0d\0\0\0\x01"),
        (296, b"\x56\0\0\0\0\0\0\0\x13"),
        (336, b"\x1b\0\0\0\x03"),
        (360, b"\x69\0\0\0\0\0\0\0\x25"),
    ],
};
