//! Units of files.
use elf_sections::Image;
use entry_tree::Unit;
use std::marker::Model;

/// A unit of a file. Contracts see it as the number of the file, its bytes and the unit.
#[derive(Drop)]
pub struct UnitAt<'a> {
    /// The number of the file, counted from 0.
    pub file: u32,
    /// The file.
    pub image: Image<'a>,
    /// The unit.
    pub unit: Unit,
}

impl<'a> Model for UnitAt<'a> {
    ghost use Rattle.elf_sections.specs.Images.{file_of};
    ghost use Rattle.unit_graph.specs.Sources.{FileUnit};

    ghost Value = { FileUnit };

    ghost view = { λ u. record { file = u.file; bytes = file_of u.image; unit = u.unit } };
}
