//! A structure of as many members as one can have.
use crate::case::Case;
use dw_base::Order;
use std::alloc::{AllocError, Global};

/// The most members.
const MOST: u32 = 65_535;

/// Appends a word.
fn put_word(bytes: &mut Vec<u8>, order: Order, word: u32) -> Result<(), AllocError> {
    match order {
        Order::Little => bytes.extend_from_slice(&word.to_le_bytes()),
        Order::Big => bytes.extend_from_slice(&word.to_be_bytes()),
    }
}

/// Appends words.
fn put_words(bytes: &mut Vec<u8>, order: Order, words: &[u32]) -> Result<(), AllocError> {
    for word in words {
        put_word(bytes, order, *word)?;
    }
    Ok(())
}

/// A file of an INT and a STRUCT whose members are of this INT, one every 32 bits.
pub fn case_of_most_members(alloc: Global, order: Order) -> Result<Case, AllocError> {
    let types = 28 + 12 * MOST;
    let (magic, word) = match order {
        Order::Little => ([0x9f, 0xeb], "little-endian"),
        Order::Big => ([0xeb, 0x9f], "big-endian"),
    };
    let mut case = Case::new(alloc, format!(in alloc; "{MOST} members, {word}")?);
    let answer = &mut case.answer;
    write!(
        answer,
        "{word}, 0 types of a base, names \"\\0int\\0s\\0m\\0\"\n"
    )?;
    write!(
        answer,
        "1 INT \"int\" size 4 extra 0x20\n2 STRUCT \"s\" size 262140 ->"
    )?;
    for _ in 0..MOST {
        answer.push_str(" 1")?;
    }
    answer.push_str(" {")?;
    let bytes = &mut case.bytes;
    bytes.extend_from_slice(&magic)?;
    bytes.extend_from_slice(&[1, 0])?;
    put_words(bytes, order, &[24, 0, types, types, 9])?;
    put_words(bytes, order, &[1, 1 << 24, 4, 32])?;
    put_words(bytes, order, &[5, (4 << 24) + MOST, 4 * MOST])?;
    for i in 0..MOST {
        put_words(bytes, order, &[7, 1, 32 * i])?;
        write!(answer, " \"m\" {:#x}", 32 * i)?;
    }
    bytes.extend_from_slice(b"\0int\0s\0m\0")?;
    answer.push_str(" }\n")?;
    Ok(case)
}
