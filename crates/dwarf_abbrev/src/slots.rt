//! Where an abbreviation has its first attribute of a name.
ghost use Rattle.std.specs.Prelude.{◌≡◌, ◌<◌, ◌+◌, false, IfSome, IsNone, length};
ghost use Rattle.dwarf_abbrev.specs.ValueMaps.{slot_of as slot_among, has_spec, IsFirst, ArePlaces};
ghost use Rattle.dwarf_abbrev.specs.ValueMaps.{IsPlaceOf};

use crate::constants::{
    DW_AT_bit_offset, DW_AT_bit_size, DW_AT_byte_size, DW_AT_const_value, DW_AT_count,
    DW_AT_data_bit_offset, DW_AT_data_member_location, DW_AT_declaration, DW_AT_encoding,
    DW_AT_external, DW_AT_language, DW_AT_name, DW_AT_str_offsets_base, DW_AT_type,
    DW_AT_upper_bound, DwAt,
};
use crate::spec::Spec;

/// How many names of attributes have a slot.
pub(crate) const SLOTS: usize = 15;

/// What a slot says where no attribute has its name.
pub(crate) const MISSING: u8 = 255;

/// What a slot says where the index of the first attribute of its name is not below this number.
pub(crate) const FAR: u8 = 254;

/// The slot of an attribute's name. Those have one that readers of types and functions ask for.
#[tactic(auto, unfolding(crate::specs::ValueMaps::slot_of))]
#[inline(always)]
pub(crate) fn slot_of(name: DwAt) -> Option<usize>
    ensures slot { result ≡ slot_among name }
    ensures small { IfSome result (λ k. k < 15) }
{
    match name {
        DW_AT_name => Some(0),
        DW_AT_type => Some(1),
        DW_AT_byte_size => Some(2),
        DW_AT_data_member_location => Some(3),
        DW_AT_declaration => Some(4),
        DW_AT_bit_size => Some(5),
        DW_AT_data_bit_offset => Some(6),
        DW_AT_bit_offset => Some(7),
        DW_AT_const_value => Some(8),
        DW_AT_upper_bound => Some(9),
        DW_AT_count => Some(10),
        DW_AT_encoding => Some(11),
        DW_AT_external => Some(12),
        DW_AT_language => Some(13),
        DW_AT_str_offsets_base => Some(14),
        _ => None,
    }
}

/// What a slot says of a name whose first attribute has this index.
fn place_of_index(index: usize) -> u8
    ensures { IsPlaceOf index result }
{
    if index < FAR as usize {
        index as u8
    } else {
        FAR
    }
}

/// Notes an attribute in the slot of its name, where it is the first one.
fn note_slot(slots: &mut [u8; SLOTS], specs: &[Spec], index: usize)
    requires inside { index < length specs.now }
    requires places { ArePlaces specs.now index slots.old }
    ensures { ArePlaces specs.now (index + 1) slots.new }
{
    if let Some(slot) = slot_of(specs[index].attribute) {
        if slots[slot] == MISSING {
            slots[slot] = place_of_index(index);
        }
    }
}

/// For each name that has a slot, where its first attribute stands.
pub(crate) fn slots_of(specs: &[Spec]) -> [u8; SLOTS]
    ensures places { ArePlaces specs.now (length specs.now) result }
    ensures count { length result ≡ 15 }
{
    let mut slots = [MISSING; SLOTS];
    for index in 0..specs.len() {
        note_slot(&mut slots, specs, index);
    }
    slots
}

/// The index of the first attribute of a name, attribute by attribute.
pub(crate) fn search(specs: &[Spec], name: DwAt) -> Option<usize>
    ensures first { IfSome result (IsFirst name specs.now) }
    ensures none { IsNone result → has_spec name specs.now ≡ false }
{
    for index in 0..specs.len() {
        if specs[index].attribute == name {
            return Some(index);
        }
    }
    None
}
