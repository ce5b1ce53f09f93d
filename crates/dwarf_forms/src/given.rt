//! Values of attributes, and what they are read in.
ghost use Rattle.std.specs.Prelude.{◌≤◌, length};
ghost use Rattle.dwarf_forms.specs.Forms.{HasWidth};

use dw_base::{InfoOffset, Name, Order, TextSection};
use dwarf_abbrev::constants::DwForm;

/// What the values of a unit are read in. The unit lies in its section, and its numbers have 1 to 8
/// bytes.
#[derive(Clone, Copy)]
pub struct FormCtx<'a> {
    /// `.debug_info`.
    pub info: &'a [u8],
    /// The offset of the unit's first header byte in `.debug_info`.
    pub unit: InfoOffset,
    /// The offset at which the unit ends in `.debug_info`; no value passes it.
    pub end: InfoOffset,
    /// The byte order of the file.
    pub order: Order,
    /// How many bytes the unit's offsets have, 4 or 8.
    pub offset_bytes: u32,
    /// How many bytes the unit's addresses have.
    pub address_bytes: u32,
    /// `.debug_str`.
    pub strings: TextSection<'a>,
    /// `.debug_line_str`.
    pub line_strings: TextSection<'a>,
    /// `.debug_str_offsets`.
    pub str_offsets: &'a [u8],
    /// The offset in `.debug_str_offsets` from which the unit's indices count.
    pub str_base: u64,
    pub ghost inside: { end ≤ length info.now },
    pub ghost offsets: { HasWidth offset_bytes },
    pub ghost addresses: { HasWidth address_bytes },
}

/// A value. Texts, blocks and expressions are slices of their section; nothing is copied.
#[derive(Debug, Drop)]
pub enum FormValue<'a> {
    /// An address of the program.
    Address(u64),
    /// A constant that the form says unsigned or doesn't say signed.
    Unsigned(u64),
    /// A signed constant.
    Signed(i64),
    /// A constant of 16 bytes.
    Sixteen(&'a [u8]),
    /// A block of bytes.
    Block(&'a [u8]),
    /// A DWARF expression.
    Expr(&'a [u8]),
    /// A flag, which is true for every byte but 0.
    Flag(bool),
    /// A text in `.debug_info` itself.
    Text(Name<'a>),
    /// An offset in `.debug_str`.
    Strp(u64),
    /// An offset in `.debug_line_str`.
    LineStrp(u64),
    /// An index into the unit's part of `.debug_str_offsets`.
    Strx(u64),
    /// An index of an address, of a list of locations or of a list of ranges.
    Index(u64),
    /// An entry, by its offset from the first byte of the unit's header.
    UnitRef(u64),
    /// An entry, by its offset in `.debug_info`.
    InfoRef(InfoOffset),
    /// An offset in a section that the attribute tells.
    SecOffset(u64),
    /// Something in a supplementary file, by this form.
    Alt(DwForm),
}

/// A value, and the form that was used for it: that after an indirect one.
#[derive(Debug, Drop)]
pub struct Given<'a> {
    /// The code of the form, a DW_FORM number.
    pub form: DwForm,
    /// The value.
    pub value: FormValue<'a>,
}
