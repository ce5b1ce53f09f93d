//! The lines behind the members.
ghost use Rattle.std.specs.Prelude.{◌≡◌, ◌++◌, ◌<◌, OnOk};
ghost use Rattle.layout_printer.specs.Text.{last_line_text, padding_text, size_text, summary_text};
ghost use Rattle.layout_printer.specs.Totals.{AreTotals, sums_text};

use crate::pieces::{LinePiece, put, put_count, put_if};
use crate::slots::{Slot, TypeLayout};
use std::alloc::AllocError;

/// Sums over all members.
#[derive(Clone, Copy)]
pub struct Totals {
    /// The bits of the members.
    pub bits: u128,
    /// How many holes have whole bytes, and these bytes.
    pub byte_holes: u128,
    pub hole_bytes: u128,
    /// How many holes have further bits, and these bits.
    pub bit_holes: u128,
    pub hole_bits: u128,
}

/// The sums over all members.
pub fn sum_up(slots: &[Slot]) -> Totals
    ensures { AreTotals slots.now result }
{
    let mut all = Totals {
        bits: 0,
        byte_holes: 0,
        hole_bytes: 0,
        bit_holes: 0,
        hole_bits: 0,
    };
    for slot in slots {
        let bytes = u128::from(slot.hole / 8);
        let bits = u128::from(slot.hole % 8);
        all = Totals {
            bits: all.bits + u128::from(slot.bits),
            byte_holes: all.byte_holes + u128::from(bytes > 0),
            hole_bytes: all.hole_bytes + bytes,
            bit_holes: all.bit_holes + u128::from(bits > 0),
            hole_bits: all.hole_bits + bits,
        };
    }
    all
}

/// Appends the lines behind the members.
pub fn put_summary(out: &mut Vec<u8>, line: u32, shown: &TypeLayout) -> Result<(), AllocError>
    requires { 0 < line }
    ensures { OnOk result (out.new.items ≡ out.old.items ++ summary_text line shown.now) }
{
    put_size(out, line, shown)?;
    put_holes(out, sum_up(shown.slots.items()))?;
    put_padding(out, shown.padding)?;
    put_last_line(out, line, shown.size)
}

/// Appends the line of the size.
fn put_size(out: &mut Vec<u8>, line: u32, shown: &TypeLayout) -> Result<(), AllocError>
    requires { 0 < line }
    ensures { OnOk result (out.new.items ≡ out.old.items ++ size_text line shown.now) }
{
    let line = u64::from(line);
    let lines = (u64::from(shown.size) + line - 1) / line;
    let members = shown.slots.items().len();
    put(
        out,
        &[
            LinePiece::Text(b"\n\t/* size: "),
            LinePiece::Number(u64::from(shown.size)),
            LinePiece::Text(b", cachelines: "),
            LinePiece::Number(lines),
            LinePiece::Text(b", members: "),
            LinePiece::Number(members as u64),
            LinePiece::Text(b" */\n"),
        ],
    )
}

/// Appends the lines of the holes.
fn put_holes(out: &mut Vec<u8>, all: Totals) -> Result<(), AllocError>
    ensures { OnOk result (out.new.items ≡ out.old.items ++ sums_text all) }
{
    put_if(
        out,
        all.byte_holes > 0,
        &[
            LinePiece::Text(b"\t/* sum members: "),
            LinePiece::Wide(all.bits / 8),
            LinePiece::Text(b", holes: "),
            LinePiece::Wide(all.byte_holes),
            LinePiece::Text(b", sum holes: "),
            LinePiece::Wide(all.hole_bytes),
            LinePiece::Text(b" */\n"),
        ],
    )?;
    put_if(
        out,
        all.bit_holes > 0,
        &[
            LinePiece::Text(b"\t/* bit holes: "),
            LinePiece::Wide(all.bit_holes),
            LinePiece::Text(b", sum bit holes: "),
            LinePiece::Wide(all.hole_bits),
            LinePiece::Text(b" bits */\n"),
        ],
    )
}

/// Appends the lines of the padding, in bits.
fn put_padding(out: &mut Vec<u8>, padding: u64) -> Result<(), AllocError>
    ensures { OnOk result (out.new.items ≡ out.old.items ++ padding_text padding) }
{
    put_count(out, b"\t/* padding: ", padding / 8, b" */\n")?;
    put_count(out, b"\t/* bit_padding: ", padding % 8, b" bits */\n")
}

/// Appends the line of the last cache line, where it is not full.
fn put_last_line(out: &mut Vec<u8>, line: u32, size: u32) -> Result<(), AllocError>
    requires { 0 < line }
    ensures { OnOk result (out.new.items ≡ out.old.items ++ last_line_text line size) }
{
    let rest = u64::from(size % line);
    put_count(out, b"\t/* last cacheline: ", rest, b" bytes */\n")
}
