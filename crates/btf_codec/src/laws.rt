//! Laws of the format.
ghost use Rattle.std.specs.Prelude.{◌≡◌, ◌<◌, ℕ, List, Option, Some, Ok, slice_index};
ghost use Rattle.btf_codec.specs.Again.{NoMemoryFault, StoredAloneIsRead, StoredOverIsRead};
ghost use Rattle.c_model.specs.declared.graph.CType.{CType};
ghost use Rattle.dw_base.specs.declared.numbers.Order.{Order};
ghost use Rattle.btf_strings.specs.Names.{Names, own_section};
ghost use Rattle.btf_codec.specs.Gives.{EndsWithNul, base_seen, table_over};
ghost use Rattle.btf_codec.specs.Reading.{Before, names_before, table_of};
ghost use Rattle.btf_codec.specs.Spelling.{base_of};
ghost use Rattle.btf_codec.specs.Spells.{Base, Spells};

/// Bytes spell one table at most over a base, in a byte order: one list of own types and one string
/// section.
pub fn spelled_once()
    ensures { (base : Option Base) (order : Order) (own others : List CType)
        (names more bytes : List ℕ) →
        Spells base order own names bytes → Spells base order others more bytes
        → (others ≡ own) × (more ≡ names) }
{}

/// What was written is read: of the bytes of own types and strings over a base, as `write` gives
/// them, `read` over that base makes the same types and strings in the same byte order.
pub fn written_is_read()
    ensures { (before : Option Before) (order : Order) (own : List CType) (strings : Names)
        (first : ℕ) (bytes : List ℕ) →
        ((i : ℕ) → slice_index bytes i < 256) → EndsWithNul (names_before before)
        → base_of first strings.base ≡ base_seen before →
        Spells (base_of first strings.base) order own (own_section strings) bytes →
        table_of before (Some order) bytes
        ≡ Ok (table_over before order own (own_section strings)) }
{}

/// What one run stored is what another reads. A file without a base is read in whichever byte order
/// it has. A base that was read in a wanted order is the same in whichever it has, and a file is
/// read over it in the base's order. Each time the types are those that were stored.
pub fn stored_is_read()
    ensures alone { StoredAloneIsRead }
    ensures over { StoredOverIsRead }
{}

/// No bytes are refused for want of memory: `Memory` says something of the machine alone.
pub fn bytes_need_no_memory()
    ensures { NoMemoryFault }
{}
