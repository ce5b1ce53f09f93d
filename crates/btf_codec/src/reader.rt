//! The reader of BTF files.
ghost use Rattle.std.specs.Prelude.{◌≡◌, ◌+◌, ◌*◌, ◌-◌, ◌/◌, ◌<◌, ◌≤◌, ◌^◌, ◌++◌, ℕ, List, Ok, Err};
ghost use Rattle.std.specs.Prelude.{length, map, take, drop, slice_index_or, is_some, All, IfOk};
ghost use Rattle.std.specs.Prelude.{IsTrue, MatchResult, OnOk, IfSome};
ghost use Rattle.std.specs.Option.{option_map};
ghost use Rattle.btf_codec.specs.Gives.{EndsWithNul, Gives, IsBefore, IsPiece, base_seen};
ghost use Rattle.btf_codec.specs.Gives.{before_of, decoded_of, table_over, unless};
ghost use Rattle.btf_codec.specs.Reading.{file_of, is_wanted, names_before, pieces_fault, table_of};
ghost use Rattle.btf_codec.specs.Reading.{decoded_type, types_before, types_of, word_in};
ghost use Rattle.btf_codec.specs.Spells.{Spells};
ghost use Rattle.btf_codec.specs.declared.fault.BtfFault.TheVariants.{Memory};
ghost use Rattle.btf_codec.specs.declared.table.Table.{Table};
ghost use Rattle.c_model.specs.declared.graph.CType.{CType};
ghost use Rattle.dw_base.specs.declared.numbers.Order.{Order};
ghost use denote.Bor.{Bor};

use crate::decoded::{TableStrings, decoded_type};
use crate::fault::BtfFault;
use crate::file::{are_strings, order_in, pieces_of, sections_of};
use crate::format::HEADER_LEN;
use crate::offsets::words_fault;
use crate::table::Table;
use c_model::{CType, Nodes, copy_of_types};
use dw_base::{Order, TextEnds};
use std::alloc::{AllocError, Global};

/// Nothing, or the first fault of the offsets of names and the ids in the types.
fn check_words(
    order: Order,
    pieces: &[&[u8]],
    first: u32,
    limit: u64,
    count: u32,
) -> Result<(), BtfFault>
    requires first { first ≤ 2 ^ 31 }
    requires few { length pieces.now < 2 ^ 30 }
    requires each { (k : ℕ) (d : Bor (List ℕ)) → k < length pieces.now
        → IsPiece order (slice_index_or pieces.now k d).now }
    requires short { (k : ℕ) (d : Bor (List ℕ)) → k < length pieces.now
        → length (slice_index_or pieces.now k d).now < 2 ^ 32 }
    ensures { result ≡ unless (pieces_fault order HEADER_LEN first limit count
        (map (λ p. p.now) pieces.now)) }
{
    let mut place = HEADER_LEN as u64;
    let mut id = first;
    for piece in pieces {
        if let Some(fault) = words_fault(order, piece, place, id, limit, count) {
            return Err(fault);
        }
        place += piece.len() as u64;
        id += 1;
    }
    Ok(())
}

/// Appends the types that pieces show.
fn push_types<'a>(
    alloc: Global,
    all: &mut Vec<CType<'a>>,
    texts: TableStrings<'_, 'a>,
    order: Order,
    pieces: &[&[u8]],
) -> Result<(), AllocError>
    requires ends { EndsWithNul texts.base.now }
    requires each { (k : ℕ) (d : Bor (List ℕ)) → k < length pieces.now
        → IsPiece order (slice_index_or pieces.now k d).now }
    ensures { OnOk result (all.new.items ≡ all.old.items ++ types_of
        (texts.entry.base.now ++ texts.entry.own.now) order (map (λ p. p.now) pieces.now)) }
{
    for piece in pieces {
        all.push(decoded_type(alloc, texts, order, piece)?)?;
    }
    Ok(())
}

/// The types of the table before, and how many they are.
fn types_of<'a>(alloc: Global, base: Option<&Table<'a>>) -> Result<Vec<CType<'a>>, AllocError>
    ensures { IfOk result (λ v. v.items ≡ types_before
        (option_map (λ b. before_of b.now) base.entry)) }
{
    match base {
        Some(table) => copy_of_types(alloc, table.types.items(), 0),
        None => Ok(Vec::new(alloc)),
    }
}

/// The parts of a file: its byte order, the bytes of each type and the strings.
#[derive(Drop)]
struct File<'a> {
    order: Order,
    pieces: Vec<&'a [u8]>,
    names: &'a [u8],
}

/// The parts of a file, or its first fault. `types` types come before, and strings of `limit`
/// bytes.
fn file_of<'a>(
    alloc: Global,
    based: bool,
    types: u32,
    limit: u64,
    want: Option<Order>,
    bytes: &'a [u8],
) -> Result<File<'a>, BtfFault>
    requires types { types < 2 ^ 31 }
    requires limit { limit < 2 ^ 32 }
    ensures gives { Gives (λ f. record {
      order = f.order;
      pieces = map (λ p. p.now) f.pieces.items;
      names = f.names.now;
    }) result
        (file_of based types limit want bytes.now) }
    ensures each { IfOk result (λ f. All (λ p. IsPiece f.order p.now) f.pieces.items) }
    ensures few { IfOk result (λ f. length f.pieces.items < 2 ^ 30) }
{
    let order = order_in(want, bytes)?;
    let (body, names) = sections_of(order, bytes)?;
    if !are_strings(based, names) {
        return Err(BtfFault::BtfStrings((HEADER_LEN + body.len()) as u64));
    }
    let pieces = pieces_of(alloc, order, body, types + 1)?;
    let count = types + pieces.len() as u32;
    check_words(order, &pieces, types + 1, limit + names.len() as u64, count)?;
    Ok(File {
        order,
        pieces,
        names,
    })
}

/// The strings of the table before.
fn strings_of<'a>(base: Option<&Table<'a>>) -> &'a [u8]
    requires { IfSome base (λ b. IsBefore b.now) }
    ensures names { result.now ≡ names_before (option_map (λ b. before_of b.now) base.entry) }
    ensures ends { EndsWithNul result.now }
    ensures short { length result.now < 2 ^ 32 }
{
    match base {
        Some(table) => table.names,
        None => &[],
    }
}

/// Appends the types that the parts of a file show. `strings` are those of the table before.
fn push_file_types<'a>(
    alloc: Global,
    all: &mut Vec<CType<'a>>,
    strings: &'a [u8],
    file: &File<'a>,
) -> Result<(), AllocError>
    requires ends { EndsWithNul strings.now }
    requires each { All (λ p. IsPiece file.now.order p.now) file.now.pieces.items }
    ensures { OnOk result (all.new.items ≡ all.old.items ++ types_of
        (strings.now ++ file.now.names.now) file.now.order
        (map (λ p. p.now) file.now.pieces.items)) }
{
    let base_ends = TextEnds::of(alloc, strings)?;
    let own_ends = TextEnds::of(alloc, file.names)?;
    let texts = TableStrings {
        base: &base_ends,
        own: &own_ends,
    };
    push_types(alloc, all, texts, file.order, &file.pieces)
}

/// The table that the bytes spell over a base, in the wanted byte order if one is wanted (the
/// kernel's BTF documentation). Bytes that spell none are refused with their first fault, by the
/// order of the checks, and none are refused that spell one, unless memory runs out.
pub fn read<'a>(
    alloc: Global,
    bytes: &'a [u8],
    want: Option<Order>,
    base: Option<&Table<'a>>,
) -> Result<Table<'a>, BtfFault>
    requires { IfSome base (λ b. IsBefore b.now) }
    // The table, or the first fault by the order of the checks.
    ensures gives { Gives decoded_of result
        (table_of (option_map (λ b. before_of b.now) base.entry) want bytes.now) }
    // The bytes spell the own types and strings over the base.
    ensures spelled { IfOk result (λ t. Spells (base_seen (option_map
        (λ b. before_of b.now) base.entry)) t.order (drop t.base t.types) t.names.now bytes.now) }
    // The types of the base come first.
    ensures first { IfOk result
        (λ t. take t.base t.types ≡ types_before (option_map (λ b. before_of b.now) base.entry)) }
    ensures base { IfOk result
        (λ t. t.base ≡ length (types_before (option_map (λ b. before_of b.now) base.entry))) }
    ensures wanted { IfOk result (λ t. IsTrue (is_wanted want t.order)) }
    // What is spelled in a wanted byte order is read, unless memory runs out.
    ensures complete { (order : Order) (own : List CType) (names : List ℕ) →
        Spells (base_seen (option_map (λ b. before_of b.now) base.entry)) order own names bytes.now
        → IsTrue (is_wanted want order) →
        MatchResult result (λ t. decoded_of t ≡ table_over
        (option_map (λ b. before_of b.now) base.entry) order own names) (λ e. e ≡ Memory) }
{
    let mut all = types_of(alloc, base)?;
    let before = all.len() as u32;
    let strings = strings_of(base);
    let file = file_of(
        alloc,
        base.is_some(),
        before,
        strings.len() as u64,
        want,
        bytes,
    )?;
    push_file_types(alloc, &mut all, strings, &file)?;
    Ok(Table {
        order: file.order,
        base: before,
        types: Nodes::new(all),
        names: file.names,
    })
}
