//! Bytes as lower-case hex.
use std::alloc::{AllocError, Global};

/// The bytes that a text gives in lower-case hex, two digits for each. Other characters are passed
/// over, and so is a last digit that stands alone.
pub fn unhex(alloc: Global, text: &[u8]) -> Result<Vec<u8>, AllocError> {
    let mut bytes = Vec::with_capacity(alloc, text.len() / 2)?;
    let mut first = None;
    for character in text {
        if let Some(digit) = digit_of(*character) {
            match first {
                None => first = Some(digit),
                Some(high) => {
                    bytes.push((high << 4) | digit)?;
                    first = None;
                }
            }
        }
    }
    Ok(bytes)
}

/// The value of a hex digit.
fn digit_of(character: u8) -> Option<u8> {
    match character {
        b'0'..=b'9' => Some(character - b'0'),
        b'a'..=b'f' => Some(character - b'a' + 10),
        _ => None,
    }
}
