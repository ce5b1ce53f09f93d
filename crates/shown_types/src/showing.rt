//! The text of the types that are shown.
ghost use Rattle.std.specs.Prelude.{◌≡◌, ◌++◌, ◌+◌, ◌-◌, ◌⊎◌, ◌<◌, ◌^◌, ℕ, IsTrue, All, length};
ghost use Rattle.std.specs.Prelude.{IfSome, OnOk, Some};
ghost use Rattle.std.specs.Option.{option_copied};
ghost use Rattle.c_model.specs.Graph.{RefersWithin};
ghost use Rattle.layout_printer.specs.Layout.{IsStructure};
ghost use Rattle.shown_types.specs.Listed.{is_listed, name_at, structure_at};
ghost use Rattle.shown_types.specs.Shown.{separator, piece, put_for, IsCounted, IsSource, AreKept};
ghost use Rattle.shown_types.specs.Shown.{LaysOut, ShowsPlace, ShowsPlaces, Shows};

use crate::by_name::name_at;
use crate::choosing::choose;
use crate::counting::{Counted, with_counts};
use crate::fault::ShowFault;
use crate::listed::structure_at;
use btf_codec::Table;
use c_model::CType;
use command_line::Text;
use dw_base::Bytes;
use indexmap::IndexMap;
use layout_printer::{LayoutFault, Sizes, layout_by_sizes, sizes_of, text};
use std::alloc::{AllocError, Global};

/// How types are shown.
#[derive(Clone, Copy)]
pub struct Style {
    /// One line for each type, with its size and its holes, in place of its text.
    pub sizes: bool,
    /// Only types with at least so many holes of whole bytes.
    pub holes: u32,
    /// The size of a cache line in bytes.
    pub line: u32,
}

/// The table whose types are shown, with their sizes, and how they are shown.
#[derive(Clone, Copy)]
struct Source<'e, 'a> {
    table: &'e Table<'a>,
    sizes: &'e Sizes,
    style: Style,
}

/// The whole text of the types that are shown: those of each name in order, or all of the table's
/// own that can be shown. Texts are parted by an empty line, and lines by nothing.
///
/// It is refused by `NoName` at the first name that no type has which can be shown; else by
/// `NoSize` at the first member, in the order of what would be shown, whose type has no size, also
/// where it has too few holes to be shown.
///
/// It takes as many steps as there are types, and bytes of names of those that can be shown and of
/// the names; lays each structure out once, and counts its holes; and for each type that is shown,
/// as often as it is named, makes one look-up, and where it has holes enough its text, or with
/// `sizes` its name and a few bytes.
pub fn show(
    alloc: Global,
    table: &Table<'_>,
    pointer: u32,
    names: Option<&[Text]>,
    style: Style,
) -> Result<Bytes, ShowFault>
    requires few { length table.now.types < 2 ^ 32 }
    requires within { RefersWithin (length table.now.types) table.now.types }
    requires pointer { (pointer ≡ 4) ⊎ (pointer ≡ 8) }
    requires names { IfSome (option_copied names) (λ ns. length ns < 2 ^ 32) }
    requires line { 0 < style.line }
    ensures { Shows table.now.types table.now.base pointer (option_copied names.entry)
        style result }
{
    let places = choose(alloc, table.types.items(), table.base, names)?;
    let sizes = sizes_of(alloc, table, pointer)?;
    let source = Source {
        table,
        sizes: &sizes,
        style,
    };
    show_places(alloc, source, places.as_slice())
}

/// The text of the types in some places, each of which can be shown.
fn show_places(alloc: Global, source: Source<'_, '_>, places: &[u32]) -> Result<Bytes, ShowFault>
    requires source { IsSource source }
    requires listed { All (λ x. IsTrue (is_listed source.table.now.types x)) places.now }
    ensures { ShowsPlaces source.entry.table.now.types source.entry.sizes.now.pointer
        source.entry.style places.now result }
{
    let mut out = Vec::new(alloc);
    let mut layouts = IndexMap::new(alloc);
    for i in 0..places.len() {
        show_place(alloc, &mut out, &mut layouts, source, places[i])?;
    }
    Ok(Bytes::new(out))
}

/// Adds the text of the type in a place as `put_shown` does. Layouts are kept by the places of
/// their structures, so that each structure is laid out once and its members are counted once.
fn show_place(
    alloc: Global,
    out: &mut Vec<u8>,
    layouts: &mut IndexMap<u32, Counted>,
    source: Source<'_, '_>,
    x: u32,
) -> Result<(), ShowFault>
    requires source { IsSource source }
    requires listed { IsTrue (is_listed source.table.now.types x) }
    requires kept { AreKept source.table.now.types source.sizes.now.pointer source.style
        layouts.old.entries }
    ensures shows { ShowsPlace source.entry.table.now.types source.entry.sizes.now.pointer
        source.entry.style x out.old.items out.new.items result }
    ensures kept { OnOk result (AreKept source.entry.table.now.types
        source.entry.sizes.now.pointer source.entry.style layouts.new.entries) }
{
    let structure = structure_at(source.table.types.items(), x).unwrap();
    if let Some(counted) = layouts.get(&structure) {
        return Ok(put_shown(alloc, out, source, x, counted)?);
    }
    let counted = counted_layout(alloc, source, structure)?;
    put_shown(alloc, out, source, x, &counted)?;
    layouts.insert(structure, counted)?;
    Ok(())
}

/// The layout of the structure in a place, with its counts. Its contract is by each place `x` of a
/// type that shows the structure.
fn counted_layout(
    alloc: Global,
    source: Source<'_, '_>,
    structure: u32,
) -> Result<Counted, ShowFault>
    requires source { IsSource source }
    requires structure { IsStructure source.table.now.types (structure + 1) }
    ensures { (x : ℕ) → structure_at source.entry.table.now.types x ≡ Some structure
        → LaysOut source.entry.table.now.types source.entry.sizes.now.pointer source.entry.style
        x result }
{
    match layout_by_sizes(alloc, source.table, structure + 1, source.sizes) {
        Ok(layout) => Ok(with_counts(alloc, source.table, source.style, layout)?),
        Err(LayoutFault::NoSize(id)) => Err(ShowFault::NoSize(id)),
        Err(LayoutFault::Memory) => Err(ShowFault::Memory),
    }
}

fn separator(style: Style) -> &'static [u8]
    ensures { result.now ≡ separator style }
{
    if style.sizes { b"" } else { b"\n" }
}

/// Adds the text of a type, where it has holes enough, and before it what parts it from the text
/// before, where there is one. No text of a type is empty.
fn put_shown(
    alloc: Global,
    out: &mut Vec<u8>,
    source: Source<'_, '_>,
    x: u32,
    counted: &Counted,
) -> Result<(), AllocError>
    requires line { 0 < source.style.line }
    requires few { x < 2 ^ 32 - 1 }
    requires counted { IsCounted source.style counted.now }
    ensures { OnOk result (out.new.items ≡ out.old.items ++ put_for source.entry.table.now.types
        source.entry.style (x, counted.now.layout) out.old.items) }
{
    if counted.holes < source.style.holes as usize {
        return Ok(());
    }
    if !out.is_empty() {
        out.extend_from_slice(separator(source.style))?;
    }
    put_piece(alloc, out, source, x, counted)
}

/// Adds the text of a type.
#[tactic(auto, unfolding(crate::specs::Shown::piece))]
fn put_piece(
    alloc: Global,
    out: &mut Vec<u8>,
    source: Source<'_, '_>,
    x: u32,
    counted: &Counted,
) -> Result<(), AllocError>
    requires line { 0 < source.style.line }
    requires few { x < 2 ^ 32 - 1 }
    requires counted { IsCounted source.style counted.now }
    ensures { OnOk result (out.new.items ≡ out.old.items ++ piece source.entry.table.now.types
        source.entry.style (x, counted.now.layout)) }
{
    if source.style.sizes {
        return put_line(out, source.table.types.items(), x, counted);
    }
    let text = text(
        alloc,
        source.table,
        x + 1,
        &counted.layout,
        source.style.line,
    )?;
    out.extend_from_slice(text.items())
}

/// Adds the line of a type.
fn put_line(
    out: &mut Vec<u8>,
    types: &[CType<'_>],
    x: u32,
    counted: &Counted,
) -> Result<(), AllocError>
    ensures { OnOk result
        (out.new.items ≡ out.old.items ++ (name_at types.now x ++ counted.now.line_end)) }
{
    out.extend_from_slice(name_at(types, x))?;
    out.extend_from_slice(counted.line_end.items())
}
