//! Where the members of a structure or union lie.
ghost use Rattle.std.specs.Prelude.{◌≡◌, ◌<◌, ◌≤◌, ◌-◌, ◌^◌, ◌≢◌, ℕ, List, All, Err, Some, None};
ghost use Rattle.std.specs.Prelude.{IfOk, length, max, ◌+◌, ◌*◌};
ghost use Rattle.c_model.specs.Graph.{IsBelow, RefersWithin};
ghost use Rattle.c_model.specs.declared.graph.CType.{CType};
ghost use Rattle.btf_codec.specs.Fields.{id_of};
ghost use Rattle.layout_printer.specs.Sizes.{AreSizes, ref_of, type_of};
ghost use Rattle.layout_printer.specs.Layout.{AreSlots, IsFirstLacking, IsLayout, IsSlot};
ghost use Rattle.layout_printer.specs.Layout.{IsStructure, bits_of, end_of, start_of, width_of};
ghost use Rattle.layout_printer.specs.Measuring.{farthest};
ghost use Rattle.layout_printer.specs.declared.slots.Slot.{Slot};

use crate::lookups::{id_of, target_at};
use crate::sizes::{Sizes, sizes_of};
use crate::slots::{LayoutFault, Slot, Slots, TypeLayout};
use btf_codec::Table;
use c_model::{CType, Ref};
use std::alloc::Global;

/// The layout of the structure or union of an id, where pointers have `pointer` bytes. It refuses
/// as `layout_by_sizes`. For one layout of a table: it finds the sizes of all its types, and takes
/// as many steps as there are types and members.
pub fn layout(
    alloc: Global,
    table: &Table<'_>,
    id: u32,
    pointer: u32,
) -> Result<TypeLayout, LayoutFault>
    requires structure { IsStructure table.now.types id }
    requires few { length table.now.types < 2 ^ 32 }
    requires within { RefersWithin (length table.now.types) table.now.types }
    ensures ok { IfOk result (IsLayout table.now.types pointer id) }
    ensures no_size { (n : ℕ) (t : CType) → result ≡ Err (LayoutFault.NoSize n) →
        type_of table.now.types (ref_of id) ≡ Some t
        → IsFirstLacking table.now.types pointer t n }
{
    let sizes = sizes_of(alloc, table, pointer)?;
    layout_by_sizes(alloc, table, id, &sizes)
}

/// The layout of the structure or union of an id, by the sizes of the table's types, which
/// `sizes_of` finds once for many layouts. `NoSize` exactly where a member that is no bit field has
/// a type without a size, with the id of the first such type. It takes as many steps as there are
/// members.
pub fn layout_by_sizes(
    alloc: Global,
    table: &Table<'_>,
    id: u32,
    sizes: &Sizes,
) -> Result<TypeLayout, LayoutFault>
    requires structure { IsStructure table.now.types id }
    requires sizes { AreSizes table.now.types sizes.now }
    requires few { length table.now.types < 2 ^ 32 }
    requires within { RefersWithin (length table.now.types) table.now.types }
    ensures ok { IfOk result (IsLayout table.now.types sizes.now.pointer id) }
    ensures no_size { (n : ℕ) (t : CType) → result ≡ Err (LayoutFault.NoSize n) →
        type_of table.now.types (ref_of id) ≡ Some t
        → IsFirstLacking table.now.types sizes.now.pointer t n }
{
    let types = table.types.items();
    let t = &types[id as usize - 1];
    let slots = slots_of(alloc, sizes, t)?;
    let size = t.label.size;
    let end = farthest(&slots);
    let padding = (8 * u128::from(size)).saturating_sub(end) as u64;
    Ok(TypeLayout {
        id,
        size,
        slots: Slots::new(slots),
        padding,
    })
}

/// The slots of all members, by the sizes of the table.
fn slots_of(alloc: Global, sizes: &Sizes, t: &CType<'_>) -> Result<Vec<Slot>, LayoutFault>
    requires { All (IsBelow (2 ^ 32 - 1)) t.now.targets }
    ensures ok { IfOk result (λ v. (types : List CType) → AreSizes types sizes.now →
        AreSlots types sizes.now.pointer t.now v.items) }
    ensures no_size { (n : ℕ) (types : List CType) → result ≡ Err (LayoutFault.NoSize n)
        → AreSizes types sizes.now →
        IsFirstLacking types sizes.now.pointer t.now n }
{
    let parts = t.label.parts.items();
    let mut slots = Vec::with_capacity(alloc, parts.len())?;
    let mut end = 0u128;
    for (k, part) in parts.iter().enumerate() {
        let target = target_at(t.targets.items(), k);
        let slot = slot_of(sizes, t.label.flag, part.value, target, end)?;
        end = later(end, end_of(&slot));
        slots.push(slot)?;
    }
    Ok(slots)
}

/// The slot of a member, where the earlier ones end at `end` at the farthest.
fn slot_of(
    sizes: &Sizes,
    flag: bool,
    value: u64,
    target: Ref,
    end: u128,
) -> Result<Slot, LayoutFault>
    requires { IsBelow (2 ^ 32 - 1) target }
    ensures ok { IfOk result (λ s. (types : List CType) (earlier : List Slot) →
        AreSizes types sizes.now → end ≡ farthest earlier →
        IsSlot types sizes.now.pointer flag earlier value target s) }
    ensures no_size { (n : ℕ) (types : List CType) → result ≡ Err (LayoutFault.NoSize n)
        → AreSizes types sizes.now →
        (bits_of types sizes.now.pointer flag value target ≡ None) × (n ≡ id_of target) }
    ensures no_memory { result ≢ Err LayoutFault.Memory }
{
    let start = start_of(flag, value);
    let width = width_of(flag, value);
    let bits = if width > 0 {
        width
    } else {
        match sizes.of(target) {
            None => return Err(LayoutFault::NoSize(id_of(target))),
            Some(size) => bits_in(size),
        }
    };
    Ok(Slot {
        start,
        bits,
        field: width > 0,
        hole: u128::from(start).saturating_sub(end) as u64,
    })
}

/// The bits of so many bytes, at most 2^60.
fn bits_in(bytes: u64) -> u64
    ensures { bytes ≤ 2 ^ 60 → result ≡ 8 * bytes }
{
    bytes.saturating_mul(8)
}

/// The first bit by an offset word.
fn start_of(flag: bool, value: u64) -> u64
    ensures { result ≡ start_of flag value }
{
    if flag { value % (1 << 24) } else { value }
}

/// The width of a bit field by an offset word; 0 where it is none.
fn width_of(flag: bool, value: u64) -> u64
    ensures { result ≡ width_of flag value }
{
    if flag { value / (1 << 24) } else { 0 }
}

/// The bit behind the last one.
fn end_of(slot: &Slot) -> u128
    ensures { result ≡ end_of slot.now }
{
    u128::from(slot.start) + u128::from(slot.bits)
}

/// The farthest end of members.
fn farthest(slots: &[Slot]) -> u128
    ensures { result ≡ farthest slots.now }
{
    let mut end = 0;
    for slot in slots {
        end = later(end, end_of(slot));
    }
    end
}

/// The greater of two bits.
fn later(a: u128, b: u128) -> u128
    ensures { result ≡ max a b }
{
    if a < b { b } else { a }
}
