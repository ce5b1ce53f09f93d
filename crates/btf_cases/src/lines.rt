//! Reads a file of cases (`data/README.md`).
use crate::case::Case;
use anyhow::{Context, Error, bail};
use dw_base::Order;
use std::alloc::{AllocError, Global};

/// Appends the cases of a file.
pub fn take_lines(alloc: Global, cases: &mut Vec<Case>, text: &str) -> Result<(), Error> {
    for line in text.lines() {
        let line = match line.split_once('#') {
            Some((before, _)) => before.trim(),
            None => line.trim(),
        };
        if !line.is_empty() {
            take_line(alloc, cases, line).context(format_args!("{line}"))?;
        }
    }
    Ok(())
}

/// Takes a line: its first word says what it is.
fn take_line(alloc: Global, cases: &mut Vec<Case>, line: &str) -> Result<(), Error> {
    let (word, rest) = line.split_once(' ').context("a line of one word")?;
    let rest = rest.trim();
    match word {
        "case" => {
            let name = String::from_str(alloc, rest)?;
            cases.push(Case::new(alloc, name))?;
        }
        "like" => {
            let like = place_of(cases, rest)?;
            let bytes = bytes_at(alloc, cases, like)?;
            last(cases)?.bytes = bytes;
        }
        "base" => last(cases)?.base = Some(place_of(cases, rest)?),
        "want" => last(cases)?.want = Some(order_of(rest)?),
        "bytes" => push_hex(&mut last(cases)?.bytes, rest)?,
        "put" => put_hex(alloc, &mut last(cases)?.bytes, rest)?,
        "cut" => {
            let bytes = &mut last(cases)?.bytes;
            bytes.truncate(bytes.len().saturating_sub(rest.parse()?));
        }
        "answer" => {
            let answer = &mut last(cases)?.answer;
            answer.push_str(rest)?;
            answer.push('\n')?;
        }
        _ => bail!("an unknown word"),
    }
    Ok(())
}

/// The case that is being read.
fn last(cases: &mut Vec<Case>) -> Result<&mut Case, Error> {
    cases.last_mut().context("a line before any case")
}

/// The place of the case of a name.
fn place_of(cases: &[Case], name: &str) -> Result<usize, Error> {
    cases
        .iter()
        .position(|case| case.name.as_str() == name)
        .context("there is no case of that name")
}

/// The bytes of the case at a place.
fn bytes_at(alloc: Global, cases: &[Case], place: usize) -> Result<Vec<u8>, AllocError> {
    match cases.get(place) {
        Some(case) => case.bytes.to_vec(alloc),
        None => Ok(Vec::new(alloc)),
    }
}

fn order_of(word: &str) -> Result<Order, Error> {
    match word {
        "little" => Ok(Order::Little),
        "big" => Ok(Order::Big),
        _ => bail!("no byte order"),
    }
}

/// Appends bytes in hex, two digits for each, with spaces between them.
fn push_hex(bytes: &mut Vec<u8>, text: &str) -> Result<(), Error> {
    for byte in text.split_whitespace() {
        bytes.push(u8::from_str_radix(byte, 16)?)?;
    }
    Ok(())
}

/// Puts other bytes in hex at a place, which stands before them.
fn put_hex(alloc: Global, bytes: &mut Vec<u8>, text: &str) -> Result<(), Error> {
    let (place, hex) = text.split_once(' ').context("no place")?;
    let place = place.parse::<usize>()?;
    let mut others = Vec::new(alloc);
    push_hex(&mut others, hex)?;
    for (byte, other) in bytes.iter_mut().skip(place).zip(&others) {
        *byte = *other;
    }
    Ok(())
}
