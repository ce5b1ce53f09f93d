//! The sections that relocations are for, and that are known to share no byte with what is read
//! while relocations are written.
ghost use Rattle.std.specs.Prelude.{◌≡◌, None, false};
ghost use Rattle.elf_sections.specs.Checks.{refusal_of};
ghost use Rattle.elf_reloc.specs.Tables.{target_met};
ghost use Rattle.elf_reloc.specs.Clear.{known_after, is_known, AreClear};
ghost use Rattle.elf_reloc.specs.Checks.{first, section_checks};

use crate::tables::{is_relocation, target_met};
use elf_sections::{ElfFile, Kind, SectionNumbers, fields, kind_in};

/// Whether the section of a kind has a number.
fn is_known(clear: &SectionNumbers, kind: Kind, number: u64) -> bool
    ensures { result ≡ is_known clear.now kind number }
{
    match clear.number(kind) {
        Some(known) => known == number,
        None => false,
    }
}

/// Whether the bytes of a section share one with what is read while relocations are written. Those
/// of a known section don't, so all sections are looked at no more than once for each kind.
pub fn is_met(file: &ElfFile<'_>, clear: &SectionNumbers, i: u64) -> bool
    requires checked { refusal_of file.now.bytes.now ≡ None }
    requires clear { AreClear file.now.bytes.now clear.now }
    ensures { result ≡ target_met file.now.bytes.now i }
{
    if let Some(kind) = kind_in(file, i) {
        if is_known(clear, kind, i) {
            return false;
        }
    }
    target_met(file, i)
}

/// The known sections after the checks of a section have passed: where it is a relocation section,
/// with the one that it is for. All others that were known stay so.
#[tactic(auto, unfolding(crate::specs::Clear::known_after))]
pub fn with_target(file: &ElfFile<'_>, clear: SectionNumbers, i: u64) -> SectionNumbers
    requires clear { AreClear file.now.bytes.now clear }
    requires passed { None ≡ first (section_checks file.now.bytes.now i) }
    ensures clear { AreClear file.now.bytes.now result }
    ensures known { result ≡ known_after file.now.bytes.now clear i }
{
    if !is_relocation(file, i) {
        return clear;
    }
    let target = u64::from(fields(file, i).info);
    match kind_in(file, target) {
        Some(kind) => clear.with(kind, target),
        None => clear,
    }
}
