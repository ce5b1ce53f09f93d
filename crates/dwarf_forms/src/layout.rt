//! The table of forms (DWARF 5, section 7.5.6, table 7.6): how the bytes of each form lie.
ghost use Rattle.std.specs.Prelude.{◌≡◌, IfSome};
ghost use Rattle.dwarf_forms.specs.Forms.{layout_of, HasWidth, HasWidths};

use dwarf_abbrev::constants::{
    DW_FORM_GNU_ref_alt, DW_FORM_GNU_strp_alt, DW_FORM_addr, DW_FORM_addrx, DW_FORM_addrx1,
    DW_FORM_addrx2, DW_FORM_addrx3, DW_FORM_addrx4, DW_FORM_block, DW_FORM_block1, DW_FORM_block2,
    DW_FORM_block4, DW_FORM_data1, DW_FORM_data2, DW_FORM_data4, DW_FORM_data8, DW_FORM_data16,
    DW_FORM_exprloc, DW_FORM_flag, DW_FORM_flag_present, DW_FORM_implicit_const, DW_FORM_line_strp,
    DW_FORM_loclistx, DW_FORM_ref_addr, DW_FORM_ref_sig8, DW_FORM_ref_sup4, DW_FORM_ref_sup8,
    DW_FORM_ref_udata, DW_FORM_ref1, DW_FORM_ref2, DW_FORM_ref4, DW_FORM_ref8, DW_FORM_rnglistx,
    DW_FORM_sdata, DW_FORM_sec_offset, DW_FORM_string, DW_FORM_strp, DW_FORM_strp_sup,
    DW_FORM_strx, DW_FORM_strx1, DW_FORM_strx2, DW_FORM_strx3, DW_FORM_strx4, DW_FORM_udata,
    DwForm,
};

/// What a number means.
#[derive(Clone, Copy)]
pub enum NumberClass {
    /// An address of the program.
    Address,
    /// A constant.
    Unsigned,
    /// An offset in `.debug_str`.
    Strp,
    /// An offset in `.debug_line_str`.
    LineStrp,
    /// An index into the unit's part of `.debug_str_offsets`.
    Strx,
    /// An index of an address, of a list of locations or of a list of ranges.
    Index,
    /// An offset from the first byte of the unit's header.
    UnitRef,
    /// An offset in `.debug_info`.
    InfoRef,
    /// An offset in a section that the attribute tells.
    SecOffset,
}

/// What some counted bytes mean.
#[derive(Clone, Copy)]
pub enum BlockClass {
    /// Any bytes.
    Block,
    /// A DWARF expression.
    Expr,
}

/// How the bytes of a form lie.
#[derive(Clone, Copy)]
pub enum FormLayout {
    /// A number of this many bytes.
    Fixed(u32, NumberClass),
    /// An unsigned LEB128 number.
    Leb(NumberClass),
    /// A signed LEB128 number.
    Signed,
    /// No bytes: the value stands in the abbreviation.
    Implicit,
    /// One byte, which is 0 for false.
    Flag,
    /// No bytes: the value is true.
    Present,
    /// Bytes up to a NUL, and the NUL.
    Text,
    /// 16 bytes.
    Sixteen,
    /// A number of this many bytes, and so many bytes after it.
    Counted(u32, BlockClass),
    /// An unsigned LEB128 number, and so many bytes after it.
    LebCounted(BlockClass),
    /// This many bytes, whose meaning lies in a supplementary file.
    Elsewhere(u32),
}

/// The layout of a form, for offsets and addresses of these many bytes. `None` exactly where the
/// table has no row for it. The form indirect has no layout of its own: it names another one.
#[inline(always)]
pub fn form_layout(form: DwForm, offset_bytes: u32, address_bytes: u32) -> Option<FormLayout>
    ensures row { result ≡ layout_of offset_bytes address_bytes form }
    ensures widths { HasWidth offset_bytes → HasWidth address_bytes → IfSome result HasWidths }
{
    match form {
        DW_FORM_addr => Some(FormLayout::Fixed(address_bytes, NumberClass::Address)),
        DW_FORM_block2 => Some(FormLayout::Counted(2, BlockClass::Block)),
        DW_FORM_block4 => Some(FormLayout::Counted(4, BlockClass::Block)),
        DW_FORM_data2 => Some(FormLayout::Fixed(2, NumberClass::Unsigned)),
        DW_FORM_data4 => Some(FormLayout::Fixed(4, NumberClass::Unsigned)),
        DW_FORM_data8 => Some(FormLayout::Fixed(8, NumberClass::Unsigned)),
        DW_FORM_string => Some(FormLayout::Text),
        DW_FORM_block => Some(FormLayout::LebCounted(BlockClass::Block)),
        DW_FORM_block1 => Some(FormLayout::Counted(1, BlockClass::Block)),
        DW_FORM_data1 => Some(FormLayout::Fixed(1, NumberClass::Unsigned)),
        DW_FORM_flag => Some(FormLayout::Flag),
        DW_FORM_sdata => Some(FormLayout::Signed),
        DW_FORM_strp => Some(FormLayout::Fixed(offset_bytes, NumberClass::Strp)),
        DW_FORM_udata => Some(FormLayout::Leb(NumberClass::Unsigned)),
        DW_FORM_ref_addr => Some(FormLayout::Fixed(offset_bytes, NumberClass::InfoRef)),
        DW_FORM_ref1 => Some(FormLayout::Fixed(1, NumberClass::UnitRef)),
        DW_FORM_ref2 => Some(FormLayout::Fixed(2, NumberClass::UnitRef)),
        DW_FORM_ref4 => Some(FormLayout::Fixed(4, NumberClass::UnitRef)),
        DW_FORM_ref8 => Some(FormLayout::Fixed(8, NumberClass::UnitRef)),
        DW_FORM_ref_udata => Some(FormLayout::Leb(NumberClass::UnitRef)),
        DW_FORM_sec_offset => Some(FormLayout::Fixed(offset_bytes, NumberClass::SecOffset)),
        DW_FORM_exprloc => Some(FormLayout::LebCounted(BlockClass::Expr)),
        DW_FORM_flag_present => Some(FormLayout::Present),
        DW_FORM_strx => Some(FormLayout::Leb(NumberClass::Strx)),
        DW_FORM_addrx => Some(FormLayout::Leb(NumberClass::Index)),
        DW_FORM_ref_sup4 => Some(FormLayout::Elsewhere(4)),
        DW_FORM_strp_sup => Some(FormLayout::Elsewhere(offset_bytes)),
        DW_FORM_data16 => Some(FormLayout::Sixteen),
        DW_FORM_line_strp => Some(FormLayout::Fixed(offset_bytes, NumberClass::LineStrp)),
        DW_FORM_ref_sig8 => Some(FormLayout::Elsewhere(8)),
        DW_FORM_implicit_const => Some(FormLayout::Implicit),
        DW_FORM_loclistx => Some(FormLayout::Leb(NumberClass::Index)),
        DW_FORM_rnglistx => Some(FormLayout::Leb(NumberClass::Index)),
        DW_FORM_ref_sup8 => Some(FormLayout::Elsewhere(8)),
        DW_FORM_strx1 => Some(FormLayout::Fixed(1, NumberClass::Strx)),
        DW_FORM_strx2 => Some(FormLayout::Fixed(2, NumberClass::Strx)),
        DW_FORM_strx3 => Some(FormLayout::Fixed(3, NumberClass::Strx)),
        DW_FORM_strx4 => Some(FormLayout::Fixed(4, NumberClass::Strx)),
        DW_FORM_addrx1 => Some(FormLayout::Fixed(1, NumberClass::Index)),
        DW_FORM_addrx2 => Some(FormLayout::Fixed(2, NumberClass::Index)),
        DW_FORM_addrx3 => Some(FormLayout::Fixed(3, NumberClass::Index)),
        DW_FORM_addrx4 => Some(FormLayout::Fixed(4, NumberClass::Index)),
        DW_FORM_GNU_ref_alt => Some(FormLayout::Elsewhere(offset_bytes)),
        DW_FORM_GNU_strp_alt => Some(FormLayout::Elsewhere(offset_bytes)),
        _ => None,
    }
}
