//! Sections of texts: with their ends each text is as without.
use dw_base::{Name, TextEnds, TextSection, text_at};
use std::alloc::{AllocError, Global};

/// Sections: without bytes, without a NUL, and texts that end in their block, at the ends of blocks
/// and behind several of them.
const SECTIONS: &[&[u8]] = &[
    b"",
    b"a",
    b"\0",
    b"\0a\0\0bc\0rest",
    b"0123456789012345678901234567890123456789012345678901234567890123",
    b"012345678901234567890123456789012345678901234567890123456789012\0",
    b"0123456789012345678901234567890123456789012345678901234567890123\0a\0",
    b"ab\00123456789012345678901234567890123456789012345678901234567890123456789012345678901234567\
89012345678901234567890123456789012345678901234567890123456789012345678901234567890123456789\0c\0\
0123456789012345678901234567890123456789012345678901234567890123456789",
];

fn bytes_of<'a>(name: Option<Name<'a>>) -> Option<&'a [u8]> {
    match name {
        Some(name) => Some(name.bytes()),
        None => None,
    }
}

/// The first place where a section has another text than its bytes have.
fn first_other_place(bytes: &[u8], section: TextSection<'_>) -> Option<u64> {
    for at in 0..bytes.len() as u64 + 2 {
        if bytes_of(section.text(at)) != bytes_of(text_at(bytes, at)) {
            return Some(at);
        }
    }
    None
}

/// The first section in which a text is another one where the ends are known.
fn first_other_section(alloc: Global) -> Result<Option<usize>, AllocError> {
    for (k, bytes) in SECTIONS.iter().enumerate() {
        let ends = TextEnds::of(alloc, bytes)?;
        if first_other_place(bytes, TextSection::with_ends(&ends)).is_some() {
            return Ok(Some(k));
        }
    }
    Ok(None)
}

#[test]
fn ends_of_texts(rt: HostRuntime) -> Result<(), AllocError> {
    assert_eq!(rt; first_other_section(rt.alloc())?, None);
    Ok(())
}
