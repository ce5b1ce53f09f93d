//! What the values of a unit are read in.
ghost use Rattle.std.specs.Prelude.{◌≡◌, ◌≤◌};
ghost use Rattle.dwarf_forms.specs.Values.{within};
ghost use Rattle.dwarf_forms.specs.Meanings.{sections};
ghost use Rattle.elf_sections.specs.Images.{file_of};
ghost use Rattle.entry_tree.specs.Contexts.{IsUnitOf, within_of, sections_of};

use crate::headers::bytes_of;
use crate::unit::Unit;
use dwarf_forms::FormCtx;
use elf_sections::{Image, Kind};

/// What the values of a unit of an image are read in. `str_base` is the offset in
/// `.debug_str_offsets` from which the unit's indices count. It takes constant time.
pub fn context<'a>(image: &Image<'a>, unit: &Unit, str_base: u64) -> FormCtx<'a>
    requires { IsUnitOf (file_of image.now) unit.now }
    ensures within { within result ≡ within_of (file_of image.now) unit.now }
    ensures sections { sections result ≡ sections_of (file_of image.now) unit.now str_base }
    ensures end { result.end ≡ unit.now.end }
    ensures begins { unit.now.at ≤ unit.now.first }
{
    FormCtx {
        info: bytes_of(image, Kind::Info),
        unit: unit.at,
        end: unit.end,
        order: image.order(),
        offset_bytes: unit.offset_bytes,
        address_bytes: unit.address_bytes,
        strings: image.strings(),
        line_strings: image.line_strings(),
        str_offsets: bytes_of(image, Kind::StrOffsets),
        str_base,
    }
}
