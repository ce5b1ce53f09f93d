//! The lines of members.
ghost use Rattle.std.specs.Prelude.{◌≡◌, ◌++◌, ◌<◌, ◌/◌, ◌*◌, ◌≤◌, List, IfOk, OnOk, max};
ghost use Rattle.layout_printer.specs.declared.slots.Slot.{Slot};
ghost use Rattle.layout_printer.specs.Text.{ago_text, boundary_line, boundary_text};
ghost use Rattle.layout_printer.specs.Text.{declaration_text};
ghost use Rattle.layout_printer.specs.Text.{hole_text, is_in_bits, line_of, member_decl};
ghost use Rattle.layout_printer.specs.Text.{members_text, name_text, place_text, slot_text};
ghost use Rattle.layout_printer.specs.Lines.{greatest_line};

use crate::declaration::{Declaration, declare};
use crate::pieces::{LinePiece, put, put_count, put_if};
use crate::shapes::{member_name, member_type};
use crate::slots::Slot;
use c_model::{CType, Ref};
use std::alloc::{AllocError, Global};

/// Appends the lines of all members of what a reference is to.
pub fn put_members(
    alloc: Global,
    out: &mut Vec<u8>,
    types: &[CType<'_>],
    r: Ref,
    line: u32,
    slots: &[Slot],
) -> Result<(), AllocError>
    requires { 0 < line }
    ensures { OnOk result (out.new.items ≡ out.old.items ++
        members_text types.now r line slots.now) }
{
    let mut greatest = 0;
    for (place, slot) in slots.iter().enumerate() {
        let declaration = declare_member(alloc, types, r, place)?;
        put_member(alloc, out, line, greatest, &declaration, slot)?;
        greatest = later_line(greatest, line_of(line, slot));
    }
    Ok(())
}

/// The declaration of the member in a place.
fn declare_member(
    alloc: Global,
    types: &[CType<'_>],
    r: Ref,
    place: usize,
) -> Result<Declaration, AllocError>
    ensures { IfOk result (λ w. record {
      type_part = w.type_part.items;
      name_part = w.name_part.items;
    } ≡ member_decl types.now r place) }
{
    let name = member_name(types, r, place);
    declare(alloc, types, member_type(types, r, place), name)
}

/// Appends the lines of a member by its declaration. Of the earlier ones `greatest` is the last
/// cache line that one begins in.
fn put_member(
    alloc: Global,
    out: &mut Vec<u8>,
    line: u32,
    greatest: u64,
    declaration: &Declaration,
    slot: &Slot,
) -> Result<(), AllocError>
    requires { 0 < line }
    ensures { OnOk result ((earlier : List Slot) → greatest ≡ greatest_line line earlier →
        out.new.items ≡ out.old.items ++ slot_text line earlier (record {
          type_part = declaration.now.type_part.items;
          name_part = declaration.now.name_part.items;
        }) slot.now) }
{
    put_hole(out, slot.hole)?;
    put_boundary(out, line, greatest, slot)?;
    let name = name_text(alloc, &declaration.name_part, slot)?;
    put_declaration(out, &declaration.type_part, &name, slot)
}

fn put_hole(out: &mut Vec<u8>, hole: u64) -> Result<(), AllocError>
    ensures { OnOk result (out.new.items ≡ out.old.items ++ hole_text hole) }
{
    let bits = hole % 8;
    let bytes = hole / 8;
    put_if(out, hole > 0, &[LinePiece::Text(b"\n")])?;
    put_count(out, b"\t/* XXX ", bits, b" bits hole, try to pack */\n")?;
    put_count(out, b"\t/* XXX ", bytes, b" bytes hole, try to pack */\n")?;
    put_if(out, hole > 0, &[LinePiece::Text(b"\n")])
}

/// Appends the line of a boundary of cache lines, where the member is the first that begins behind
/// it.
fn put_boundary(out: &mut Vec<u8>, line: u32, greatest: u64, slot: &Slot) -> Result<(), AllocError>
    requires { 0 < line }
    ensures { OnOk result ((earlier : List Slot) → greatest ≡ greatest_line line earlier →
        out.new.items ≡ out.old.items ++ boundary_text line earlier slot.now) }
{
    let byte = slot.start / 8;
    let number = line_of(line, slot);
    if number <= greatest {
        return Ok(());
    }
    put_boundary_line(out, number, number * u64::from(line), byte)
}

/// Appends the line of a boundary at byte `boundary`, before a member at byte `byte`.
fn put_boundary_line(
    out: &mut Vec<u8>,
    number: u64,
    boundary: u64,
    byte: u64,
) -> Result<(), AllocError>
    requires { boundary ≤ byte }
    ensures { OnOk result (out.new.items ≡ out.old.items ++ boundary_line number boundary byte) }
{
    put(
        out,
        &[
            LinePiece::Text(b"\t/* --- cacheline "),
            LinePiece::Number(number),
            LinePiece::Text(b" boundary ("),
            LinePiece::Number(boundary),
            LinePiece::Text(b" bytes) "),
        ],
    )?;
    put_count(out, b"was ", byte - boundary, b" bytes ago ")?;
    put(out, &[LinePiece::Text(b"--- */\n")])
}

/// The name part of a member, with the width of a bit field.
fn name_text(alloc: Global, name: &[u8], slot: &Slot) -> Result<Vec<u8>, AllocError>
    ensures { IfOk result (λ v. v.items ≡ name_text name.now slot.now) }
{
    let mut out = Vec::from_slice(alloc, name)?;
    put_if(
        &mut out,
        slot.field,
        &[LinePiece::Text(b":"), LinePiece::Number(slot.bits)],
    )?;
    out.push(b';')?;
    Ok(out)
}

/// Appends the line of a declaration.
fn put_declaration<'p>(
    out: &mut Vec<u8>,
    type_part: &'p [u8],
    name: &'p [u8],
    slot: &Slot,
) -> Result<(), AllocError>
    ensures { OnOk result
        (out.new.items ≡ out.old.items ++ declaration_text type_part.now name.now slot.now) }
{
    put(
        out,
        &[
            LinePiece::Text(b"\t"),
            LinePiece::Left(type_part, 26),
            LinePiece::Text(b" "),
            LinePiece::Left(name, 21),
            LinePiece::Text(b" "),
        ],
    )?;
    put_place(out, slot)
}

fn put_place(out: &mut Vec<u8>, slot: &Slot) -> Result<(), AllocError>
    ensures { OnOk result (out.new.items ≡ out.old.items ++ place_text slot.now) }
{
    let byte = slot.start / 8;
    let bit = slot.start % 8;
    if slot.field || bit > 0 {
        put(
            out,
            &[
                LinePiece::Text(b"/* "),
                LinePiece::Right(byte, 5),
                LinePiece::Text(b":"),
                LinePiece::Number(bit),
                LinePiece::Text(b" "),
                LinePiece::Right(slot.bits, 3),
                LinePiece::Text(b" */\n"),
            ],
        )
    } else {
        put(
            out,
            &[
                LinePiece::Text(b"/* "),
                LinePiece::Right(byte, 5),
                LinePiece::Text(b" "),
                LinePiece::Right(slot.bits / 8, 5),
                LinePiece::Text(b" */\n"),
            ],
        )
    }
}

/// The cache line that a member begins in.
fn line_of(line: u32, slot: &Slot) -> u64
    requires { 0 < line }
    ensures value { result ≡ line_of line slot.now }
    ensures within { result * line ≤ slot.now.start / 8 }
{
    slot.start / 8 / u64::from(line)
}

fn later_line(a: u64, b: u64) -> u64
    ensures { result ≡ max a b }
{
    if a < b { b } else { a }
}
