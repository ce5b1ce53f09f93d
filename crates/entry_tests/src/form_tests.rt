//! Values in bytes, and what reading them answers.
ghost use Rattle.dwarf_forms.specs.Forms.{HasWidth};

use dw_base::{Name, Order, TextSection};
use dwarf_abbrev::Spec;
use dwarf_forms::{
    FormCtx, FormFault, FormValue, Given, byte_offset_of, constant_of, flag_of, name_of, skip,
    target_of, value,
};
use std::alloc::Global;
use std::process::Abort;
use std::test::Fail;

/// What a unit of these bytes reads its values in.
fn context<'a>(info: &'a [u8], order: Order, offset_bytes: u32) -> FormCtx<'a>
    requires { HasWidth offset_bytes }
{
    FormCtx {
        info,
        unit: 0,
        end: info.len() as u64,
        order,
        offset_bytes,
        address_bytes: 8,
        strings: TextSection::new(&[]),
        line_strings: TextSection::new(&[]),
        str_offsets: &[],
        str_base: 0,
    }
}

/// Numbers of 4 and 8 bytes in both byte orders, and one of 4 bytes where 8 are wanted.
const FOUR: &[u8] = &[4, 3, 2, 0xf1];

const FOUR_BIG: &[u8] = &[0xf1, 2, 3, 4];

const FOUR_IN_EIGHT: &[u8] = &[0, 0, 0, 0, 0xf1, 2, 3, 4];

const EIGHT: &[u8] = &[8, 7, 6, 5, 4, 3, 2, 0xf1];

const EIGHT_BIG: &[u8] = &[0xf1, 2, 3, 4, 5, 6, 7, 8];

/// Sixteen bytes, which have no order.
const SIXTEEN: &[u8] = &[0, 1, 2, 3, 4, 5, 6, 7, 8, 9, 10, 11, 12, 13, 14, 15];

/// Each form: its value in a little-endian unit of 32-bit offsets, then in a big-endian one of
/// 64-bit offsets, and the value. The abbreviation holds -5.
const FORMS: &[(u64, &[u8], &[u8], &str)] = &[
    (0x01, EIGHT, EIGHT_BIG, "Address(17366446428893087496)"),
    (0x03, &[3, 0, 7, 0, 9], &[0, 3, 7, 0, 9], "Block([7, 0, 9])"),
    (0x04, &[1, 0, 0, 0, 7], &[0, 0, 0, 1, 7], "Block([7])"),
    (0x05, &[2, 0xf1], &[0xf1, 2], "Unsigned(61698)"),
    (0x06, FOUR, FOUR_BIG, "Unsigned(4043440900)"),
    (0x07, EIGHT, EIGHT_BIG, "Unsigned(17366446428893087496)"),
    (
        0x08,
        &[0x61, 0x62, 0],
        &[0x61, 0x62, 0],
        "Text(Name { bytes: [97, 98], digest: 0 })",
    ),
    (0x09, &[0x82, 0, 5, 6], &[0x82, 0, 5, 6], "Block([5, 6])"),
    (0x0a, &[2, 0xff, 1], &[2, 0xff, 1], "Block([255, 1])"),
    (0x0b, &[0xf1], &[0xf1], "Unsigned(241)"),
    (0x0c, &[2], &[2], "Flag(true)"),
    (0x0d, &[0x80, 0x7f], &[0x80, 0x7f], "Signed(-128)"),
    (0x0e, FOUR, FOUR_IN_EIGHT, "Strp(4043440900)"),
    (0x0f, &[0x80, 0x7f], &[0x80, 0x7f], "Unsigned(16256)"),
    (0x10, FOUR, FOUR_IN_EIGHT, "InfoRef(4043440900)"),
    (0x11, &[0xf1], &[0xf1], "UnitRef(241)"),
    (0x12, &[2, 0xf1], &[0xf1, 2], "UnitRef(61698)"),
    (0x13, FOUR, FOUR_BIG, "UnitRef(4043440900)"),
    (0x14, EIGHT, EIGHT_BIG, "UnitRef(17366446428893087496)"),
    (0x15, &[0x85, 1], &[0x85, 1], "UnitRef(133)"),
    (0x17, FOUR, FOUR_IN_EIGHT, "SecOffset(4043440900)"),
    (0x18, &[2, 0x23, 8], &[2, 0x23, 8], "Expr([35, 8])"),
    (0x19, &[], &[], "Flag(true)"),
    (0x1a, &[0x85, 1], &[0x85, 1], "Strx(133)"),
    (0x1b, &[0x85, 1], &[0x85, 1], "Index(133)"),
    (0x1c, FOUR, FOUR_BIG, "Alt(28)"),
    (0x1d, FOUR, FOUR_IN_EIGHT, "Alt(29)"),
    (
        0x1e,
        SIXTEEN,
        SIXTEEN,
        "Sixteen([0, 1, 2, 3, 4, 5, 6, 7, 8, 9, 10, 11, 12, 13, 14, 15])",
    ),
    (0x1f, FOUR, FOUR_IN_EIGHT, "LineStrp(4043440900)"),
    (0x20, EIGHT, EIGHT_BIG, "Alt(32)"),
    (0x21, &[], &[], "Signed(-5)"),
    (0x22, &[5], &[5], "Index(5)"),
    (0x23, &[5], &[5], "Index(5)"),
    (0x24, EIGHT, EIGHT_BIG, "Alt(36)"),
    (0x25, &[0xf1], &[0xf1], "Strx(241)"),
    (0x26, &[2, 0xf1], &[0xf1, 2], "Strx(61698)"),
    (0x27, &[3, 2, 0xf1], &[0xf1, 2, 3], "Strx(15794691)"),
    (0x28, FOUR, FOUR_BIG, "Strx(4043440900)"),
    (0x29, &[0xf1], &[0xf1], "Index(241)"),
    (0x2a, &[2, 0xf1], &[0xf1, 2], "Index(61698)"),
    (0x2b, &[3, 2, 0xf1], &[0xf1, 2, 3], "Index(15794691)"),
    (0x2c, FOUR, FOUR_BIG, "Index(4043440900)"),
    (0x1f20, FOUR, FOUR_IN_EIGHT, "Alt(7968)"),
    (0x1f21, FOUR, FOUR_IN_EIGHT, "Alt(7969)"),
    (0x16, &[0x12, 2, 0xf1], &[0x12, 0xf1, 2], "UnitRef(61698)"),
];

/// An attribute of this form, for which the abbreviation holds -5.
fn spec_of(form: u64) -> Spec {
    Spec {
        attribute: 3,
        form,
        implicit: -5,
    }
}

/// A value is refused, and to pass it over, too.
fn is_refused(rt: &impl Abort, ctx: &FormCtx<'_>, form: u64, fault: FormFault) {
    let spec = spec_of(form);
    assert_eq!(rt; skip(ctx, &spec, 0), Err(fault), "{form}");
    assert_eq!(rt; value(ctx, &spec, 0).err(), Some(fault), "{form}");
}

/// The unit's bytes are just the value.
fn holds(
    rt: &impl Abort,
    alloc: Global,
    ctx: &FormCtx<'_>,
    form: u64,
    text: &str,
) -> Result<(), Fail> {
    let spec = spec_of(form);
    let (given, end) = value(ctx, &spec, 0)?;
    let found = format!(in alloc; "{} {end} {:?}", given.form, given.value)?;
    let named = if form == 0x16 { 0x12 } else { form };
    let wanted = format!(in alloc; "{named} {} {text}", ctx.end)?;
    assert_eq!(rt; found.as_str(), wanted.as_str());
    assert_eq!(rt; skip(ctx, &spec, 0), Ok(ctx.end));
    Ok(())
}

/// The value passes the end of a unit that ends one byte earlier.
fn passes(rt: &impl Abort, ctx: &FormCtx<'_>, form: u64) {
    if ctx.end > 0 {
        let mut cut = *ctx;
        cut.end = ctx.end - 1;
        is_refused(rt, &cut, form, FormFault::ValueTruncated(3));
    }
}

#[test]
fn each_form_is_read(rt: HostRuntime) -> Result<(), Fail> {
    for (form, little, big, text) in FORMS {
        let narrow = context(little, Order::Little, 4);
        holds(&rt, rt.alloc(), &narrow, *form, text)?;
        passes(&rt, &narrow, *form);
        let wide = context(big, Order::Big, 8);
        holds(&rt, rt.alloc(), &wide, *form, text)?;
        passes(&rt, &wide, *form);
    }
    Ok(())
}

/// The form that an indirect one names, its value, and the offset after that.
#[test]
fn an_indirect_form_is_the_named_one(rt: HostRuntime) -> Result<(), FormFault> {
    let ctx = context(&[0x0b, 7], Order::Little, 4);
    let (given, end) = value(&ctx, &spec_of(0x16), 0)?;
    assert_eq!(rt; (given.form, end, constant_of(3, &given)), (0x0b, 2, Ok(7)));
    Ok(())
}

/// A number that does not fit 64 bits.
const WIDE: &[u8] = &[0xff, 0xff, 0xff, 0xff, 0xff, 0xff, 0xff, 0xff, 0xff, 0x02];

/// The same behind the form that is named.
const NAMED_WIDE: &[u8] = &[
    0x0f, 0xff, 0xff, 0xff, 0xff, 0xff, 0xff, 0xff, 0xff, 0xff, 0x02,
];

/// Forms, bytes, and why these can't be read.
const REFUSED: &[(u64, &[u8], FormFault)] = &[
    (0x16, &[0x16, 0x0b, 7], FormFault::FormUnknown(0x16)),
    (0x16, &[0x21, 7], FormFault::FormUnknown(0x21)),
    (0x16, &[0x02, 7], FormFault::FormUnknown(0x02)),
    (0x16, &[0x80], FormFault::ValueTruncated(3)),
    (0x16, WIDE, FormFault::LebWide(0)),
    (0x16, NAMED_WIDE, FormFault::LebWide(1)),
    (0x02, &[1], FormFault::FormUnknown(0x02)),
    (0x2d, &[1], FormFault::FormUnknown(0x2d)),
    (0x1f02, &[1, 1, 1, 1], FormFault::FormUnknown(0x1f02)),
    (0x0f, WIDE, FormFault::LebWide(0)),
    (0x15, WIDE, FormFault::LebWide(0)),
    (0x1a, WIDE, FormFault::LebWide(0)),
    (0x0d, WIDE, FormFault::LebWide(0)),
    (0x09, WIDE, FormFault::LebWide(0)),
    (0x18, WIDE, FormFault::LebWide(0)),
    (0x08, &[0x61, 0x62], FormFault::ValueTruncated(3)),
];

#[test]
fn what_cannot_be_read(rt: HostRuntime) {
    for &(form, bytes, fault) in REFUSED {
        is_refused(&rt, &context(bytes, Order::Little, 4), form, fault);
    }
}

/// Forms without bytes, and one that the table doesn't have, one byte past the end of the unit: no
/// value stands there, and the form is looked at first.
const PAST: [(u64, FormFault); 3] = [
    (0x19, FormFault::ValueTruncated(3)),
    (0x21, FormFault::ValueTruncated(3)),
    (0x02, FormFault::FormUnknown(0x02)),
];

#[test]
fn nothing_stands_past_the_end(rt: HostRuntime) {
    let ctx = context(&[1], Order::Little, 4);
    for (form, fault) in PAST {
        let spec = spec_of(form);
        assert_eq!(rt; skip(&ctx, &spec, 2), Err(fault), "{form}");
        assert_eq!(rt; value(&ctx, &spec, 2).err(), Some(fault), "{form}");
    }
    for form in [0x19, 0x21] {
        assert_eq!(rt; skip(&ctx, &spec_of(form), 1), Ok(1), "{form}");
    }
}

/// The name, or the fault, of a value.
fn is_named(
    rt: &impl Abort,
    ctx: &FormCtx<'_>,
    value: FormValue<'_>,
    wanted: Result<&[u8], FormFault>,
) {
    match name_of(ctx, 3, &Given { form: 8, value }) {
        Ok(name) => assert_eq!(rt; Ok(name.bytes()), wanted),
        Err(found) => assert_eq!(rt; Err(found), wanted),
    }
}

/// Values, and the names that they stand for.
const NAMES: [(FormValue<'static>, Result<&[u8], FormFault>); 10] = [
    (FormValue::Strp(1), Ok(&[0x62, 0x63])),
    (FormValue::Strp(3), Ok(&[])),
    (FormValue::Strp(6), Err(FormFault::StringOut(6))),
    (FormValue::LineStrp(0), Ok(&[0x65])),
    (FormValue::LineStrp(2), Err(FormFault::StringOut(2))),
    (FormValue::Strx(1), Ok(&[0x64])),
    (FormValue::Strx(2), Err(FormFault::StrxOut(2))),
    (FormValue::Strx(u64::MAX), Err(FormFault::StrxOut(u64::MAX))),
    (FormValue::Alt(0x1d), Err(FormFault::AltForm(0x1d))),
    (FormValue::Unsigned(1), Err(FormFault::WrongClass(3, 8))),
];

#[test]
fn values_name(rt: HostRuntime) {
    let mut ctx = context(&[], Order::Little, 4);
    ctx.strings = TextSection::new(&[0x61, 0x62, 0x63, 0, 0x64, 0]);
    ctx.line_strings = TextSection::new(&[0x65, 0, 0x66]);
    ctx.str_offsets = &[0, 0, 0, 0, 0, 0, 0, 0, 0, 0, 0, 0, 4, 0, 0, 0];
    ctx.str_base = 8;
    let held: &[u8] = &[0x61];
    is_named(&rt, &ctx, FormValue::Text(Name::new(held)), Ok(held));
    for (value, wanted) in NAMES {
        is_named(&rt, &ctx, value, wanted);
    }
}

/// Values, and the places that they refer to, in a unit at 100.
const TARGETS: [(FormValue<'static>, Result<u128, FormFault>); 5] = [
    (FormValue::UnitRef(5), Ok(105)),
    (FormValue::UnitRef(u64::MAX), Ok(18_446_744_073_709_551_715)),
    (FormValue::InfoRef(5), Ok(5)),
    (FormValue::Alt(0x1f20), Err(FormFault::AltForm(0x1f20))),
    (FormValue::Strp(5), Err(FormFault::WrongClass(3, 8))),
];

#[test]
fn values_refer(rt: HostRuntime) {
    let mut ctx = context(&[], Order::Little, 4);
    ctx.unit = 100;
    for (value, target) in TARGETS {
        assert_eq!(rt; target_of(&ctx, 3, &Given { form: 8, value }), target);
    }
}

/// What a value of a class that the attribute doesn't have is refused with.
const WRONG: FormFault = FormFault::WrongClass(3, 8);

/// A value, its constant, and its offset in bytes.
type Standing = (
    FormValue<'static>,
    Result<i128, FormFault>,
    Result<Option<i128>, FormFault>,
);

/// Values, and what they stand for. None is a flag.
const STANDING: [Standing; 9] = [
    (FormValue::Unsigned(200), Ok(200), Ok(Some(200))),
    (FormValue::Signed(-2), Ok(-2), Ok(Some(-2))),
    (FormValue::Sixteen(&[0]), Err(WRONG), Err(WRONG)),
    (FormValue::SecOffset(1), Err(WRONG), Err(WRONG)),
    (FormValue::Expr(&[0x23, 8]), Err(WRONG), Ok(Some(8))),
    (FormValue::Expr(&[0x23, 8, 0]), Err(WRONG), Ok(None)),
    (FormValue::Expr(&[0x23, 0x80]), Err(WRONG), Ok(None)),
    (FormValue::Expr(&[0x91, 8]), Err(WRONG), Ok(None)),
    (FormValue::Expr(&[]), Err(WRONG), Ok(None)),
];

#[test]
fn values_stand_for(rt: HostRuntime) {
    for (value, constant, offset) in STANDING {
        let given = Given { form: 8, value };
        let (found, at) = (constant_of(3, &given), byte_offset_of(3, &given));
        assert_eq!(rt;
            (found, at, flag_of(3, &given)),
            (constant, offset, Err(WRONG))
        );
    }
    let value = FormValue::Flag(true);
    assert_eq!(rt; flag_of(3, &Given { form: 12, value }), Ok(true));
}
