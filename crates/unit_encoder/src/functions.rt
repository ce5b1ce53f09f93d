//! The function entries of units that follow one another.
ghost use Rattle.std.specs.Prelude.{◌≡◌, ◌++◌, OnOk};
ghost use Rattle.unit_encoder.specs.Functions.{of_file};

use c_types::TypeFault;
use func_entries::{FuncEntries, FuncEntry};
use std::alloc::{AllocError, Global};
use std::marker::Model;
use unit_graph::NodePlaces;

/// A function entry of a file.
#[derive(Drop)]
pub struct FileFunc<'a> {
    /// The number of the file, counted from 0.
    pub file: u32,
    /// The entry.
    pub func: FuncEntry<'a>,
}

/// Why a unit is refused, counted from 0 among all units, of a file.
#[derive(Clone, Copy)]
pub struct UnitFault {
    pub file: u32,
    pub unit: u32,
    pub fault: TypeFault,
}

/// The function entries of units, or why the first unit is refused that one of its functions
/// refuses. Contracts see it as this result.
#[derive(Drop)]
pub struct FileFuncs<'a> {
    entries: Vec<FileFunc<'a>>,
    refusal: Option<UnitFault>,
}

impl<'a> Model for FileFuncs<'a> {
    ghost use Rattle.std.specs.Prelude.{List, Result};
    ghost use Rattle.unit_encoder.specs.declared.functions.FileFunc.{FileFunc};
    ghost use Rattle.unit_encoder.specs.declared.functions.UnitFault.{UnitFault};
    ghost use Rattle.unit_encoder.specs.Functions.{funcs_or};

    ghost Value = { Result (List FileFunc) UnitFault };

    ghost view = { λ f. funcs_or f.refusal f.entries.items };
}

/// Appends the function entries of a unit.
fn push_entries<'a>(
    entries: &mut Vec<FileFunc<'a>>,
    file: u32,
    more: FuncEntries<'a>,
) -> Result<(), AllocError>
    ensures { OnOk result (entries.new.items ≡ entries.old.items ++ of_file file more.entry) }
{
    for func in more.into_items() {
        entries.push(FileFunc { file, func })?;
    }
    Ok(())
}

/// Puts function entries behind others.
fn append<'a>(entries: &mut Vec<FileFunc<'a>>, more: Vec<FileFunc<'a>>) -> Result<(), AllocError>
    ensures { OnOk result (entries.new.items ≡ entries.old.items ++ more.entry.items) }
{
    entries.reserve(more.len())?;
    for one in more {
        entries.push(one)?;
    }
    Ok(())
}

impl<'a> FileFuncs<'a> {
    ghost use Rattle.std.specs.Prelude.{◌≡◌, [], Ok, IfOk, IfErr, OnOk};
    ghost use Rattle.unit_encoder.specs.Functions.{both_funcs, unit_funcs};

    /// No units.
    pub(crate) fn new(alloc: Global) -> FileFuncs<'a>
        ensures { result ≡ Ok [] }
    {
        FileFuncs {
            entries: Vec::new(alloc),
            refusal: None,
        }
    }

    /// One unit more, of this number among all.
    pub(crate) fn push_unit(
        &mut self,
        file: u32,
        unit: u32,
        found: Result<FuncEntries<'a>, TypeFault>,
    ) -> Result<(), AllocError>
        ensures { OnOk result
            (self.new ≡ both_funcs self.old (unit_funcs file unit found.entry)) }
    {
        if self.refusal.is_some() {
            return Ok(());
        }
        match found {
            Ok(more) => push_entries(&mut self.entries, file, more)?,
            Err(fault) => self.refusal = Some(UnitFault { file, unit, fault }),
        }
        Ok(())
    }

    /// These, and behind them those of the units that follow.
    pub(crate) fn followed_by(self, more: FileFuncs<'a>) -> Result<FileFuncs<'a>, AllocError>
        ensures { IfOk result (λ all. all ≡ both_funcs self.entry more.entry) }
    {
        if self.refusal.is_some() {
            return Ok(self);
        }
        let FileFuncs { mut entries, .. } = self;
        let FileFuncs {
            entries: later,
            refusal,
        } = more;
        append(&mut entries, later)?;
        Ok(FileFuncs { entries, refusal })
    }

    /// The entries, or the refusal.
    pub fn into_entries(self) -> Result<Vec<FileFunc<'a>>, UnitFault>
        ensures entries { IfOk result (λ v. self.entry ≡ Ok v.items) }
        ensures refused { IfErr result (λ e. self.entry ≡ Err e) }
    {
        let FileFuncs { entries, refusal } = self;
        match refusal {
            None => Ok(entries),
            Some(fault) => Err(fault),
        }
    }
}

/// The functions of files, and where the entries of the files' types begin: what the functions'
/// references are looked up in.
#[derive(Drop)]
pub struct FileFunctions<'a> {
    /// The function entries.
    pub funcs: FileFuncs<'a>,
    /// The places of the types' nodes.
    pub places: NodePlaces,
}
