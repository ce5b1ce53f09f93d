//! The tables of abbreviations that are kept for the next units.
//!
//! Units of a file may name one table, each of them, or a few tables by turns. The table that was
//! read last is kept, and so is one that is asked for a second time, while all that are kept have no
//! more abbreviations and attributes than the file's `.debug_abbrev` has room for. So a table is
//! read twice at most, unless tables lie over one another.
ghost use Rattle.std.specs.Prelude.{◌≡◌};
ghost use Rattle.c_types.specs.Types.{types_of_unit_of, Gives as TypesGive};
ghost use Rattle.unit_graph.specs.Sources.{IsReadable};
ghost use Rattle.unit_graph.specs.Tables.{AreTablesOf};

use crate::sources::UnitAt;
use c_types::{TypeFault, UnitTypes, abbreviation_bytes, read_abbrevs, types_of_unit_with};
use dwarf_abbrev::Abbrevs;
use std::alloc::{AllocError, Global};
use std::collections::BTreeMap;

/// A table of abbreviations, and where it stands.
#[derive(Drop)]
pub struct KeptTable {
    /// Its offset in the `.debug_abbrev` of its file.
    pub at: u64,
    /// The abbreviations.
    pub abbrevs: Abbrevs,
}

/// Tables of abbreviations of one file.
#[derive(Drop)]
pub struct KeptTables {
    /// The number of the file.
    pub file: u32,
    /// The one that was read last and is kept for the next unit alone, and behind it those that are
    /// kept for all.
    pub tables: Vec<KeptTable>,
    /// Where in `tables` the one of each offset was put that was asked for.
    places: BTreeMap<u64, usize>,
    /// How many abbreviations and attributes those have that are kept for all.
    parts: u64,
}

/// How many abbreviations and attributes the tables that are kept may have: an attribute has two
/// bytes at least, and an abbreviation five.
fn room_for(at: &UnitAt<'_>) -> u64 {
    abbreviation_bytes(&at.image).len() as u64 / 2
}

impl KeptTables {
    ghost use Rattle.std.specs.Prelude.{◌≡◌, [], ℕ, List, Some, Err, IfOk, IfErr, IfSome};
    ghost use Rattle.std.specs.Prelude.{IsSomeAnd, slice_get};
    ghost use Rattle.c_types.specs.Tables.{IsTableAt};
    ghost use Rattle.c_types.specs.Types.{types_of_unit_of, Gives as TypesGive};
    ghost use Rattle.unit_graph.specs.Tables.{AreTablesOf};

    /// No tables.
    pub fn new(alloc: Global) -> KeptTables
        ensures { result.tables.items ≡ [] }
    {
        KeptTables {
            file: 0,
            tables: Vec::new(alloc),
            places: BTreeMap::new(alloc),
            parts: 0,
        }
    }

    /// Forgets all tables.
    pub fn forget(&mut self)
        ensures tables { self.new.tables.items ≡ [] }
        ensures file { self.new.file ≡ self.old.file }
    {
        self.tables.clear();
        self.places.clear();
        self.parts = 0;
    }

    /// The number of the table at this offset, where it's kept.
    fn find(&self, at: u64) -> Option<usize>
        ensures { IfSome result
            (λ i. IsSomeAnd (slice_get self.now.tables.items i) (λ t. t.at ≡ at)) }
    {
        let i = *self.places.get(&at)?;
        if self.tables.get(i)?.at == at {
            Some(i)
        } else {
            None
        }
    }

    /// Where a table is put: behind the others where it was asked for before and there is room for
    /// it, and else in the place of the one that was read last.
    fn place_for(&mut self, table: &KeptTable, room: u64) -> usize
        ensures tables { self.new.tables.items ≡ self.old.tables.items }
        ensures file { self.new.file ≡ self.old.file }
    {
        if !self.places.contains_key(&table.at) {
            return 0;
        }
        let parts = self.parts.saturating_add(table.abbrevs.parts());
        if parts > room {
            return 0;
        }
        self.parts = parts;
        self.tables.len()
    }

    /// Puts a table where it is kept, and gives its number.
    fn put(&mut self, table: KeptTable, room: u64) -> Result<usize, AllocError>
        ensures file { self.new.file ≡ self.old.file }
        ensures tables { (bytes : List ℕ) → AreTablesOf bytes self.old.tables.items
            → IsTableAt bytes table.at table.abbrevs → AreTablesOf bytes self.new.tables.items }
        ensures table { IfOk result (λ i. slice_get self.new.tables.items i ≡ Some table) }
    {
        let i = self.place_for(&table, room);
        self.places.insert(table.at, i)?;
        if i < self.tables.len() {
            self.tables[i] = table;
            return Ok(i);
        }
        let end = self.tables.len();
        self.tables.push(table)?;
        Ok(end)
    }

    /// The number of a unit's table, which is read where it isn't kept. All that are kept are of
    /// the unit's file then. Works in proportion to the logarithm of the number of tables where it
    /// is kept, else as `c_types::read_abbrevs`.
    pub fn table_for(&mut self, alloc: Global, at: &UnitAt<'_>) -> Result<usize, TypeFault>
        requires { self.old.file ≡ at.now.file
            → AreTablesOf at.now.bytes self.old.tables.items }
        ensures file { self.new.file ≡ at.now.file }
        ensures tables { AreTablesOf at.now.bytes self.new.tables.items }
        ensures table { IfOk result (λ i. IsSomeAnd (slice_get self.new.tables.items i)
            (λ t. IsTableAt at.now.bytes at.now.unit.abbrev_at t.abbrevs)) }
        ensures refused { IfErr result (λ f. TypesGive (Err f)
            (types_of_unit_of at.now.bytes at.now.unit)) }
    {
        if self.file != at.file {
            self.forget();
            self.file = at.file;
        }
        let place = at.unit.abbrev_at;
        if let Some(i) = self.find(place) {
            return Ok(i);
        }
        let abbrevs = read_abbrevs(alloc, &at.image, &at.unit)?;
        let table = KeptTable { at: place, abbrevs };
        Ok(self.put(table, room_for(at))?)
    }
}

/// The types of a unit of a file. All tables that are kept are of that file then.
pub fn types_by<'a>(
    alloc: Global,
    kept: &mut KeptTables,
    at: &UnitAt<'a>,
) -> Result<UnitTypes<'a>, TypeFault>
    requires readable { IsReadable at.now }
    requires kept { kept.old.file ≡ at.now.file → AreTablesOf at.now.bytes kept.old.tables.items }
    ensures types { TypesGive result (types_of_unit_of at.now.bytes at.now.unit) }
    ensures file { kept.new.file ≡ at.now.file }
    ensures tables { AreTablesOf at.now.bytes kept.new.tables.items }
{
    let i = kept.table_for(alloc, at)?;
    let table = &kept.tables[i];
    types_of_unit_with(alloc, &at.image, &at.unit, &table.abbrevs)
}
