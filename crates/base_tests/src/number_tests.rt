//! Values from outside: the tables of DWARF 5, section 7.6, and the edges of 64 bits.
use dw_base::{LebFault, Order, SHIPPED, number, sleb, text_at, uleb};

const NINE: &[u8] = &[1, 2, 3, 4, 5, 6, 7, 8, 9];

/// A place in these bytes, a width and an order, and the number there.
const NUMBERS: &[(u64, u32, Order, Option<u64>)] = &[
    (1, 2, Order::Big, Some(0x0203)),
    (1, 2, Order::Little, Some(0x0302)),
    (7, 2, Order::Little, Some(0x0908)),
    (8, 2, Order::Little, None),
    (u64::MAX, 2, Order::Big, None),
    (8, 1, Order::Big, Some(9)),
    (9, 1, Order::Big, None),
    (0, 3, Order::Little, Some(0x030201)),
    (0, 4, Order::Big, Some(0x01020304)),
    (1, 8, Order::Little, Some(0x0908070605040302)),
    (2, 8, Order::Little, None),
];

/// The first row with another number.
fn first_other_number() -> Option<usize> {
    for (k, (at, width, order, wanted)) in NUMBERS.iter().enumerate() {
        if *width < 1 || *width > 8 || number(NINE, *at, *width, *order) != *wanted {
            return Some(k);
        }
    }
    None
}

/// Bytes, and the number that they begin with and the place behind it, or why there is none.
const UNSIGNED: &[(&[u8], Result<(u64, u64), LebFault>)] = &[
    (&[2], Ok((2, 1))),
    (&[0x80, 1], Ok((128, 2))),
    (&[0x80, 0], Ok((0, 2))),
    (&[0x80], Err(LebFault::Truncated)),
    (&[], Err(LebFault::Truncated)),
    (
        &[0xff, 0xff, 0xff, 0xff, 0xff, 0xff, 0xff, 0xff, 0xff, 1],
        Ok((u64::MAX, 10)),
    ),
    (
        &[0xff, 0xff, 0xff, 0xff, 0xff, 0xff, 0xff, 0xff, 0xff, 2],
        Err(LebFault::TooWide),
    ),
    (
        &[
            0x81, 0x80, 0x80, 0x80, 0x80, 0x80, 0x80, 0x80, 0x80, 0x80, 0x80, 0,
        ],
        Ok((1, 12)),
    ),
];

/// The same of numbers with a sign.
const SIGNED: &[(&[u8], Result<(i64, u64), LebFault>)] = &[
    (&[2], Ok((2, 1))),
    (&[0x7f], Ok((-1, 1))),
    (&[0x80, 0x7f], Ok((-128, 2))),
    (&[0xff, 0], Ok((127, 2))),
    (&[0x80], Err(LebFault::Truncated)),
    (
        &[0x80, 0x80, 0x80, 0x80, 0x80, 0x80, 0x80, 0x80, 0x80, 0x7f],
        Ok((i64::MIN, 10)),
    ),
    (
        &[0x80, 0x80, 0x80, 0x80, 0x80, 0x80, 0x80, 0x80, 0x80, 1],
        Err(LebFault::TooWide),
    ),
    (
        &[
            0xff, 0xff, 0xff, 0xff, 0xff, 0xff, 0xff, 0xff, 0xff, 0xff, 0x7f,
        ],
        Ok((-1, 11)),
    ),
];

/// The first row of UNSIGNED with another number.
fn first_other_uleb() -> Option<usize> {
    for (k, (bytes, wanted)) in UNSIGNED.iter().enumerate() {
        if uleb(bytes, 0) != *wanted {
            return Some(k);
        }
    }
    None
}

/// The first row of SIGNED with another number.
fn first_other_sleb() -> Option<usize> {
    for (k, (bytes, wanted)) in SIGNED.iter().enumerate() {
        if sleb(bytes, 0) != *wanted {
            return Some(k);
        }
    }
    None
}

#[test]
fn numbers(rt: HostRuntime) {
    assert_eq!(rt; first_other_number(), None);
    assert_eq!(rt; first_other_uleb(), None);
    assert_eq!(rt; first_other_sleb(), None);
}

/// A place in `a`, a NUL and `b`, and the text there.
const TEXTS: &[(u64, Option<&[u8]>)] = &[
    (0, Some(b"a")),
    (1, Some(b"")),
    (2, None),
    (3, None),
    (u64::MAX, None),
];

/// The first row with another text.
fn first_other_text() -> Option<usize> {
    for (k, (at, wanted)) in TEXTS.iter().enumerate() {
        let text = match text_at(b"a\0b", *at) {
            Some(name) => Some(name.bytes()),
            None => None,
        };
        if text != *wanted {
            return Some(k);
        }
    }
    None
}

#[test]
fn texts_and_limits(rt: HostRuntime) {
    assert_eq!(rt; first_other_text(), None);
    let limits = (SHIPPED.file_bytes, SHIPPED.all_bytes, SHIPPED.nodes);
    assert_eq!(rt; limits, (1 << 30, 1 << 31, 1 << 23));
}
