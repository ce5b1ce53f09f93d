//! Pieces of text.
ghost use Rattle.std.specs.Prelude.{◌≡◌, ◌++◌, ◌≤◌, OnOk, length, decimal, replicate};
ghost use Rattle.std.specs.Prelude.{if◌then◌else◌, [], ◌-◌};
ghost use Rattle.layout_printer.specs.Pieces.{count_text, text_of, texts, spaces};

use itoa::Buffer;
use std::alloc::AllocError;

/// A piece of a line.
#[derive(Clone, Copy)]
pub enum LinePiece<'a> {
    /// These bytes.
    Text(&'a [u8]),
    /// These bytes, and spaces up to a width behind them.
    Left(&'a [u8], usize),
    /// A number in decimal.
    Number(u64),
    /// A number in decimal that may pass 64 bits.
    Wide(u128),
    /// A number in decimal, and spaces up to a width before it.
    Right(u64, usize),
}

/// Appends pieces.
pub fn put(out: &mut Vec<u8>, pieces: &[LinePiece<'_>]) -> Result<(), AllocError>
    ensures { OnOk result (out.new.items ≡ out.old.items ++ texts pieces.now) }
{
    for piece in pieces {
        put_piece(out, piece)?;
    }
    Ok(())
}

/// Appends pieces where a condition holds.
pub fn put_if(out: &mut Vec<u8>, holds: bool, pieces: &[LinePiece<'_>]) -> Result<(), AllocError>
    ensures { OnOk result (out.new.items ≡ out.old.items ++
        (if holds then texts pieces.now else [])) }
{
    if holds { put(out, pieces) } else { Ok(()) }
}

/// Appends a count between two texts; nothing where it is 0.
pub fn put_count<'p>(
    out: &mut Vec<u8>,
    before: &'p [u8],
    count: u64,
    after: &'p [u8],
) -> Result<(), AllocError>
    ensures { OnOk result (out.new.items ≡ out.old.items ++ count_text before.now count after.now) }
{
    put_if(
        out,
        count > 0,
        &[
            LinePiece::Text(before),
            LinePiece::Number(count),
            LinePiece::Text(after),
        ],
    )
}

fn put_piece(out: &mut Vec<u8>, piece: &LinePiece<'_>) -> Result<(), AllocError>
    ensures { OnOk result (out.new.items ≡ out.old.items ++ text_of piece.now) }
{
    match piece {
        LinePiece::Text(bytes) => out.extend_from_slice(bytes),
        LinePiece::Left(bytes, width) => {
            out.extend_from_slice(bytes)?;
            put_spaces(out, width.saturating_sub(bytes.len()))
        }
        LinePiece::Number(number) => put_number(out, *number),
        LinePiece::Wide(number) => put_wide(out, *number),
        LinePiece::Right(number, width) => put_right(out, *number, *width),
    }
}

fn put_number(out: &mut Vec<u8>, number: u64) -> Result<(), AllocError>
    ensures { OnOk result (out.new.items ≡ out.old.items ++ decimal number) }
{
    let mut buffer = Buffer::new();
    out.extend_from_slice(buffer.format(number).as_bytes())
}

fn put_wide(out: &mut Vec<u8>, number: u128) -> Result<(), AllocError>
    ensures { OnOk result (out.new.items ≡ out.old.items ++ decimal number) }
{
    let mut buffer = Buffer::new();
    out.extend_from_slice(buffer.format(number).as_bytes())
}

fn put_right(out: &mut Vec<u8>, number: u64, width: usize) -> Result<(), AllocError>
    ensures { OnOk result (out.new.items
        ≡ out.old.items ++ (spaces (width - length (decimal number)) ++ decimal number)) }
{
    let mut buffer = Buffer::new();
    let digits = buffer.format(number).as_bytes();
    put_spaces(out, width.saturating_sub(digits.len()))?;
    out.extend_from_slice(digits)
}

fn put_spaces(out: &mut Vec<u8>, count: usize) -> Result<(), AllocError>
    ensures { OnOk result (out.new.items ≡ out.old.items ++ spaces count) }
{
    for _ in 0..count {
        out.push(b' ')?;
    }
    Ok(())
}
