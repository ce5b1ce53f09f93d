//! Names put into strings with and without a base, and past the last offset.
ghost use Rattle.std.specs.Prelude.{IfSome};
ghost use Rattle.std.specs.Option.{option_copied};
ghost use Rattle.btf_strings.specs.Kept.{IsSection};

use btf_strings::{Strings, StringsFault};
use dw_base::Name;
use std::alloc::Global;
use std::test::Fail;

/// A name, and its offset once it is put, or why it is not put.
type Put<'a> = (&'a [u8], Result<u32, StringsFault>);

/// The first of these names that is not put as its row says.
fn first_elsewhere<'a>(strings: &mut Strings<'a>, puts: &[Put<'a>]) -> Option<&'a [u8]> {
    for (name, wanted) in puts {
        if strings.put(Name::new(name)) != *wanted {
            return Some(name);
        }
    }
    None
}

/// The bytes of some strings before names are put, these names, the bytes after it, and a name that
/// has an offset then, or has none.
struct Kept {
    before: &'static [u8],
    puts: &'static [Put<'static>],
    after: &'static [u8],
    known: (&'static [u8], Option<u32>),
}

/// Names without a base, in the order in which they are put.
const WITHOUT_A_BASE: [Kept; 2] = [
    Kept {
        before: b"\0",
        puts: &[
            (b"int", Ok(1)),
            (b"", Ok(0)),
            (b"t", Ok(5)),
            (b"int", Ok(1)),
            (b"nt", Ok(7)),
        ],
        after: b"\0int\0t\0nt\0",
        known: (b"t", Some(5)),
    },
    Kept {
        before: b"\0int\0t\0nt\0",
        puts: &[],
        after: b"\0int\0t\0nt\0",
        known: (b"in", None),
    },
];

/// Names over a base in which `a` stands at 1 and at 7, and `bc` ends a string and is none.
const OVER_A_BASE: [Kept; 1] = [Kept {
    before: b"",
    puts: &[
        (b"a", Ok(1)),
        (b"bc", Ok(13)),
        (b"", Ok(0)),
        (b"abc", Ok(3)),
        (b"rest", Ok(16)),
        (b"bc", Ok(13)),
    ],
    after: b"bc\0rest\0",
    known: (b"bc", Some(13)),
}];

/// What of some strings is not as it is to be.
fn other_of(strings: &mut Strings<'static>, kept: &Kept) -> Option<&'static [u8]> {
    if *strings.bytes() != *kept.before {
        return Some(b"the bytes before");
    }
    if let Some(name) = first_elsewhere(strings, kept.puts) {
        return Some(name);
    }
    let (name, offset) = kept.known;
    if *strings.bytes() != *kept.after || strings.offset_of(Name::new(name)) != offset {
        return Some(b"the bytes after");
    }
    None
}

/// The first of such rows in turn.
fn first_other(strings: &mut Strings<'static>, rows: &[Kept]) -> Option<&'static [u8]> {
    for kept in rows {
        let other = other_of(strings, kept);
        if other.is_some() {
            return other;
        }
    }
    None
}

/// The first of such rows that strings over a base, or over none, do not do.
fn first_other_over(
    alloc: Global,
    section: Option<&'static [u8]>,
    rows: &[Kept],
) -> Result<Option<&'static [u8]>, Fail>
    requires { IfSome (option_copied section) IsSection }
{
    let mut strings = Strings::new(alloc, section)?;
    Ok(first_other(&mut strings, rows))
}

#[test]
fn names_without_a_base_and_over_one(rt: HostRuntime) -> Result<(), Fail> {
    let base = b"\0a\0abc\0a\0rest";
    assert_eq!(rt; first_other_over(rt.alloc(), None, &WITHOUT_A_BASE)?, None);
    assert_eq!(rt;
        first_other_over(rt.alloc(), Some(base), &OVER_A_BASE)?,
        None
    );
    Ok(())
}

/// Whether a name behind the last offset is refused, and nothing is kept of it. The long name fills
/// the strings up to that offset.
fn is_full(alloc: Global) -> Result<bool, Fail> {
    let long = vec![in alloc; 78; 16_777_215]?;
    let mut strings = Strings::new(alloc, None)?;
    let puts = [
        (long.as_slice(), Ok(1)),
        (b"O".as_slice(), Err(StringsFault::Full(16_777_217))),
        (long.as_slice(), Ok(1)),
    ];
    let elsewhere = first_elsewhere(&mut strings, &puts);
    let known = strings.offset_of(Name::new(b"O"));
    Ok(elsewhere.is_none() && known.is_none() && strings.bytes().len() == 16_777_217)
}

#[test]
fn a_name_past_the_last_offset(rt: HostRuntime) -> Result<(), Fail> {
    assert!(rt; is_full(rt.alloc())?);
    Ok(())
}
