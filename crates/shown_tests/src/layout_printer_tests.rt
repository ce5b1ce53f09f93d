//! Texts of small tables: worked rows, and each form of a declaration written out by hand; sizes,
//! places of members, and long chains of typedefs.
use crate::fitting::is_structure;
use crate::rows::{TableRow, TableRows, push, push_typedefs, table_of, types_of};
use btf_codec::Table;
use c_model::{CType, Ref};
use dw_base::Bytes;
use layout_printer::{
    LayoutFault, Sizes, Slot, TypeLayout, layout, layout_by_sizes, pointer_of, sizes_line,
    sizes_of, text,
};
use small_graphs::fitting::refer_to_one_another;
use small_graphs::rows::PartRow;
use std::alloc::{AllocError, Global};
use std::test::Fail;

/// A structure without a name, and a typedef of it.
const REGISTRY: TableRows = &[
    TableRow(1, b"char", false, 1, 8, &[], &[]),
    TableRow(
        4,
        b"",
        true,
        72,
        0,
        &[
            (b"tag", 0),
            (b"count", 0x40),
            (b"first", 0x80),
            (b"name", 0xc0),
            (b"live", 0x1000200),
            (b"kind", 0x3000201),
        ],
        &[1, 3, 4, 6, 7, 7],
    ),
    TableRow(1, b"long long int", false, 8, 0, &[], &[]),
    TableRow(2, b"", false, 0, 0, &[], &[5]),
    TableRow(7, b"node", false, 0, 0, &[], &[]),
    TableRow(3, b"", false, 0, 40, &[], &[1, 9]),
    TableRow(1, b"unsigned int", false, 4, 0, &[], &[]),
    TableRow(8, b"registry", false, 0, 0, &[], &[2]),
    TableRow(1, b"__ARRAY_SIZE_TYPE__", false, 4, 0, &[], &[]),
];

/// The text of that typedef.
const REGISTRY_TEXT: &[u8] = b"typedef struct {\n\
    \tchar                       tag;                  /*     0     1 */\n\
    \n\
    \t/* XXX 7 bytes hole, try to pack */\n\
    \n\
    \tlong long int              count;                /*     8     8 */\n\
    \tstruct node                *first;               /*    16     8 */\n\
    \tchar                       name[40];             /*    24    40 */\n\
    \t/* --- cacheline 1 boundary (64 bytes) --- */\n\
    \tunsigned int               live:1;               /*    64:0   1 */\n\
    \tunsigned int               kind:3;               /*    64:1   3 */\n\
    \n\
    \t/* size: 72, cachelines: 2, members: 6 */\n\
    \t/* sum members: 57, holes: 1, sum holes: 7 */\n\
    \t/* padding: 7 */\n\
    \t/* bit_padding: 4 bits */\n\
    \t/* last cacheline: 8 bytes */\n\
    } registry;\n";

/// A structure with pointers to itself.
const LIST_HEAD: TableRows = &[
    TableRow(
        4,
        b"list_head",
        false,
        16,
        0,
        &[(b"next", 0), (b"prev", 0x40)],
        &[2, 2],
    ),
    TableRow(2, b"", false, 0, 0, &[], &[1]),
];

/// Its text.
const LIST_HEAD_TEXT: &[u8] = b"struct list_head {\n\
    \tstruct list_head           *next;                /*     0     8 */\n\
    \tstruct list_head           *prev;                /*     8     8 */\n\
    \n\
    \t/* size: 16, cachelines: 1, members: 2 */\n\
    \t/* last cacheline: 16 bytes */\n\
    };\n";

/// A union with a member of each form.
const FORMS: TableRows = &[
    TableRow(1, b"char", false, 1, 0, &[], &[]),
    TableRow(10, b"", false, 0, 0, &[], &[1]),
    TableRow(2, b"", false, 0, 0, &[], &[2]),
    TableRow(10, b"", false, 0, 0, &[], &[3]),
    TableRow(9, b"", false, 0, 0, &[], &[6]),
    TableRow(1, b"int", false, 4, 0, &[], &[]),
    TableRow(3, b"", false, 0, 2, &[], &[3, 6]),
    TableRow(3, b"", false, 0, 0, &[], &[6, 6]),
    TableRow(2, b"", false, 0, 0, &[], &[7]),
    TableRow(4, b"", false, 4, 0, &[], &[]),
    TableRow(5, b"u", false, 8, 0, &[], &[]),
    TableRow(6, b"e", false, 4, 0, &[], &[]),
    TableRow(7, b"w", true, 0, 0, &[], &[]),
    TableRow(2, b"", false, 0, 0, &[], &[13]),
    TableRow(13, b"", false, 0, 0, &[], &[0]),
    TableRow(2, b"", false, 0, 0, &[], &[15]),
    TableRow(13, b"", false, 0, 0, &[(b"n", 0), (b"", 0)], &[3, 6, 0]),
    TableRow(2, b"", false, 0, 0, &[], &[17]),
    TableRow(13, b"", false, 0, 0, &[(b"cb", 0), (b"", 0)], &[6, 18, 14]),
    TableRow(2, b"", false, 0, 0, &[], &[19]),
    TableRow(18, b"user", false, 0, 0, &[], &[1]),
    TableRow(2, b"", false, 0, 0, &[], &[21]),
    TableRow(11, b"", false, 0, 0, &[], &[3]),
    TableRow(8, b"t", false, 0, 0, &[], &[6]),
    TableRow(16, b"double", false, 8, 0, &[], &[]),
    TableRow(2, b"", false, 0, 0, &[], &[0]),
    TableRow(14, b"v", false, 0, 0, &[], &[6]),
    TableRow(19, b"", false, 8, 0, &[], &[]),
    TableRow(2, b"", false, 0, 0, &[], &[29]),
    TableRow(
        5,
        b"forms",
        false,
        64,
        0,
        &[
            (b"a", 0),
            (b"b", 0),
            (b"c", 0),
            (b"d", 0),
            (b"f", 0),
            (b"g", 0),
            (b"h", 0),
            (b"i", 0),
            (b"j", 0),
            (b"k", 0),
            (b"l", 0),
            (b"m", 0),
            (b"n", 0),
            (b"o", 0),
            (b"p", 0),
            (b"q", 0),
            (b"r", 0),
            (b"s", 0),
            (b"t", 0),
            (b"v", 0),
            (b"w", 0),
            (b"", 0),
        ],
        &[
            2, 3, 4, 5, 7, 8, 9, 10, 11, 12, 14, 16, 18, 20, 22, 23, 24, 25, 26, 27, 28, 29,
        ],
    ),
];

/// Its text.
const FORMS_TEXT: &[u8] = b"union forms {\n\
    \tconst char                 a;                    /*     0     1 */\n\
    \tconst char                 *b;                   /*     0     8 */\n\
    \tconst char                 *const c;             /*     0     8 */\n\
    \tvolatile int               d;                    /*     0     4 */\n\
    \tconst char                 *f[2];                /*     0    16 */\n\
    \tint                        g[];                  /*     0     0 */\n\
    \tconst char                 *(*h)[2];             /*     0     8 */\n\
    \tstruct {...}               i;                    /*     0     4 */\n\
    \tunion u                    j;                    /*     0     8 */\n\
    \tenum e                     k;                    /*     0     4 */\n\
    \tunion w                    *l;                   /*     0     8 */\n\
    \tvoid                       (*m)(void);           /*     0     8 */\n\
    \tconst char                 *(*n)(int n, ...);    /*     0     8 */\n\
    \tint                        (*o)(const char *(*cb)(...), union w *); /*     0     8 */\n\
    \tchar __attribute__((btf_type_tag(\"user\"))) *p;                   /*     0     8 */\n\
    \tconst char                 *restrict q;          /*     0     8 */\n\
    \tt                          r;                    /*     0     4 */\n\
    \tdouble                     s;                    /*     0     8 */\n\
    \tvoid                       *t;                   /*     0     8 */\n\
    \t?                          v;                    /*     0     4 */\n\
    \tenum {...}                 w;                    /*     0     8 */\n\
    \t...                        ****************************************************************; /*     0     8 */\n\
    \n\
    \t/* size: 64, cachelines: 1, members: 22 */\n\
    \t/* padding: 48 */\n\
    };\n";

/// A union whose members have tags of types.
const TAGGED: TableRows = &[
    TableRow(1, b"int", false, 4, 0, &[], &[]),
    TableRow(18, b"user", false, 0, 0, &[], &[1]),
    TableRow(2, b"", false, 0, 0, &[], &[2]),
    TableRow(18, b"q", false, 0, 0, &[], &[1]),
    TableRow(18, b"p", false, 0, 0, &[], &[4]),
    TableRow(2, b"", false, 0, 0, &[], &[5]),
    TableRow(2, b"", false, 0, 0, &[], &[1]),
    TableRow(18, b"user", false, 0, 0, &[], &[7]),
    TableRow(2, b"", false, 0, 0, &[], &[8]),
    TableRow(10, b"", false, 0, 0, &[], &[2]),
    TableRow(2, b"", false, 0, 0, &[], &[10]),
    TableRow(10, b"", false, 0, 0, &[], &[1]),
    TableRow(18, b"user", false, 0, 0, &[], &[12]),
    TableRow(2, b"", false, 0, 0, &[], &[13]),
    TableRow(3, b"", false, 0, 2, &[], &[1, 1]),
    TableRow(18, b"user", false, 0, 0, &[], &[15]),
    TableRow(2, b"", false, 0, 0, &[], &[16]),
    TableRow(13, b"", false, 0, 0, &[], &[0]),
    TableRow(18, b"user", false, 0, 0, &[], &[18]),
    TableRow(2, b"", false, 0, 0, &[], &[19]),
    TableRow(13, b"", false, 0, 0, &[(b"x", 0)], &[0, 3]),
    TableRow(2, b"", false, 0, 0, &[], &[21]),
    TableRow(18, b"p", false, 0, 0, &[], &[8]),
    TableRow(2, b"", false, 0, 0, &[], &[23]),
    TableRow(18, b"user", false, 0, 0, &[], &[0]),
    TableRow(2, b"", false, 0, 0, &[], &[25]),
    TableRow(
        5,
        b"tagged",
        false,
        8,
        0,
        &[
            (b"a", 0),
            (b"b", 0),
            (b"c", 0),
            (b"d", 0),
            (b"e", 0),
            (b"f", 0),
            (b"g", 0),
            (b"h", 0),
            (b"i", 0),
            (b"k", 0),
            (b"l", 0),
        ],
        &[3, 6, 9, 8, 11, 14, 17, 20, 22, 24, 26],
    ),
];

/// Its text.
const TAGGED_TEXT: &[u8] = b"union tagged {\n\
    \tint __attribute__((btf_type_tag(\"user\"))) *a;                   /*     0     8 */\n\
    \tint __attribute__((btf_type_tag(\"q\"))) __attribute__((btf_type_tag(\"p\"))) *b;                   /*     0     8 */\n\
    \tint                        *__attribute__((btf_type_tag(\"user\"))) *c; /*     0     8 */\n\
    \tint                        *__attribute__((btf_type_tag(\"user\"))) d; /*     0     8 */\n\
    \tconst int __attribute__((btf_type_tag(\"user\"))) *e;                   /*     0     8 */\n\
    \tconst int __attribute__((btf_type_tag(\"user\"))) *f;                   /*     0     8 */\n\
    \tint __attribute__((btf_type_tag(\"user\"))) (*g)[2];              /*     0     8 */\n\
    \tvoid __attribute__((btf_type_tag(\"user\"))) (*h)(void);           /*     0     8 */\n\
    \tvoid                       (*i)(int __attribute__((btf_type_tag(\"user\"))) *x); /*     0     8 */\n\
    \tint                        *__attribute__((btf_type_tag(\"user\"))) __attribute__((btf_type_tag(\"p\"))) *k; /*     0     8 */\n\
    \tvoid __attribute__((btf_type_tag(\"user\"))) *l;                   /*     0     8 */\n\
    \n\
    \t/* size: 8, cachelines: 1, members: 11 */\n\
    \t/* last cacheline: 8 bytes */\n\
    };\n";

/// A structure of bit fields, with holes between them.
const BITS: TableRows = &[
    TableRow(1, b"int", false, 4, 0, &[], &[]),
    TableRow(
        4,
        b"bits",
        true,
        40,
        0,
        &[
            (b"a", 0x3000000),
            (b"b", 0x500000c),
            (b"c", 0x20),
            (b"d", 0x40),
            (b"e", 0x1000113),
            (b"f", 0xa0),
        ],
        &[1, 1, 1, 1, 1, 1],
    ),
];

/// Its text.
const BITS_TEXT: &[u8] = b"struct bits {\n\
    \tint                        a:3;                  /*     0:0   3 */\n\
    \n\
    \t/* XXX 1 bits hole, try to pack */\n\
    \t/* XXX 1 bytes hole, try to pack */\n\
    \n\
    \tint                        b:5;                  /*     1:4   5 */\n\
    \n\
    \t/* XXX 7 bits hole, try to pack */\n\
    \t/* XXX 1 bytes hole, try to pack */\n\
    \n\
    \tint                        c;                    /*     4     4 */\n\
    \tint                        d;                    /*     8     4 */\n\
    \n\
    \t/* XXX 3 bits hole, try to pack */\n\
    \t/* XXX 22 bytes hole, try to pack */\n\
    \n\
    \t/* --- cacheline 2 boundary (32 bytes) was 2 bytes ago --- */\n\
    \tint                        e:1;                  /*    34:3   1 */\n\
    \tint                        f;                    /*    20     4 */\n\
    \n\
    \t/* size: 40, cachelines: 3, members: 6 */\n\
    \t/* sum members: 13, holes: 3, sum holes: 24 */\n\
    \t/* bit holes: 3, sum bit holes: 11 bits */\n\
    \t/* padding: 5 */\n\
    \t/* bit_padding: 4 bits */\n\
    \t/* last cacheline: 8 bytes */\n\
    };\n";

/// A structure whose members pass cache lines.
const WIDE: TableRows = &[
    TableRow(1, b"int", false, 4, 0, &[], &[]),
    TableRow(1, b"char", false, 1, 0, &[], &[]),
    TableRow(3, b"", false, 0, 126, &[], &[2, 1]),
    TableRow(
        4,
        b"s",
        false,
        256,
        0,
        &[(b"a", 0), (b"b", 1008), (b"c", 1040)],
        &[3, 1, 3],
    ),
];

/// Its text, where a cache line has 16 bytes.
const WIDE_BY_16: &[u8] = b"struct s {\n\
    \tchar                       a[126];               /*     0   126 */\n\
    \t/* --- cacheline 7 boundary (112 bytes) was 14 bytes ago --- */\n\
    \tint                        b;                    /*   126     4 */\n\
    \t/* --- cacheline 8 boundary (128 bytes) was 2 bytes ago --- */\n\
    \tchar                       c[126];               /*   130   126 */\n\
    \n\
    \t/* size: 256, cachelines: 16, members: 3 */\n\
    };\n";

/// Its text, where a cache line has 64 bytes.
const WIDE_BY_64: &[u8] = b"struct s {\n\
    \tchar                       a[126];               /*     0   126 */\n\
    \t/* --- cacheline 1 boundary (64 bytes) was 62 bytes ago --- */\n\
    \tint                        b;                    /*   126     4 */\n\
    \t/* --- cacheline 2 boundary (128 bytes) was 2 bytes ago --- */\n\
    \tchar                       c[126];               /*   130   126 */\n\
    \n\
    \t/* size: 256, cachelines: 4, members: 3 */\n\
    };\n";

/// Its text, where a cache line has 128 bytes.
const WIDE_BY_128: &[u8] = b"struct s {\n\
    \tchar                       a[126];               /*     0   126 */\n\
    \tint                        b;                    /*   126     4 */\n\
    \t/* --- cacheline 1 boundary (128 bytes) was 2 bytes ago --- */\n\
    \tchar                       c[126];               /*   130   126 */\n\
    \n\
    \t/* size: 256, cachelines: 2, members: 3 */\n\
    };\n";

/// What it is, the rows of its table, the type's id, that of its structure, how many bytes a cache
/// line has, and its text; where nothing is said of cache lines, its line of sizes.
type Printed = (
    &'static str,
    TableRows,
    u32,
    u32,
    Option<u32>,
    &'static [u8],
);

const PRINTED: [Printed; 9] = [
    (
        "a typedef of a structure",
        REGISTRY,
        8,
        2,
        Some(64),
        REGISTRY_TEXT,
    ),
    (
        "a line of sizes",
        REGISTRY,
        8,
        2,
        None,
        b"registry\t72\t1\n",
    ),
    ("a structure", LIST_HEAD, 1, 1, Some(64), LIST_HEAD_TEXT),
    (
        "each form of a declaration",
        FORMS,
        30,
        30,
        Some(64),
        FORMS_TEXT,
    ),
    ("type tags", TAGGED, 27, 27, Some(64), TAGGED_TEXT),
    ("holes in bits and lines", BITS, 2, 2, Some(16), BITS_TEXT),
    ("cache lines of 16 bytes", WIDE, 4, 4, Some(16), WIDE_BY_16),
    ("cache lines of 64 bytes", WIDE, 4, 4, Some(64), WIDE_BY_64),
    (
        "cache lines of 128 bytes",
        WIDE,
        4,
        4,
        Some(128),
        WIDE_BY_128,
    ),
];

/// The table of rows.
fn table_by(alloc: Global, rows: &[TableRow<'static, '_>]) -> Result<Table<'static>, AllocError> {
    Ok(table_of(0, types_of(alloc, rows)?))
}

/// The layout of a structure, if the table is as `layout` asks. No type of these tables tells how
/// many bytes a pointer has.
fn placed(
    alloc: Global,
    table: &Table<'_>,
    id: u32,
) -> Result<Result<TypeLayout, LayoutFault>, Fail> {
    let types = table.types.items();
    if !refer_to_one_another(types) || !is_structure(types, id) {
        return Err(Fail::from("no structure"));
    }
    Ok(layout(alloc, table, id, pointer_of(table)))
}

/// The text of a type, where a cache line has `line` bytes, or its line of sizes.
fn text_in(
    alloc: Global,
    table: &Table<'_>,
    id: u32,
    structure: u32,
    line: Option<u32>,
) -> Result<Bytes, Fail> {
    let placed = placed(alloc, table, structure)??;
    match line {
        None => Ok(sizes_line(alloc, table, id, &placed)?),
        Some(0) => Err(Fail::from("no cache line")),
        Some(line) => Ok(text(alloc, table, id, &placed, line)?),
    }
}

/// The same of the table of rows.
fn text_by(
    alloc: Global,
    rows: TableRows,
    id: u32,
    structure: u32,
    line: Option<u32>,
) -> Result<Bytes, Fail> {
    let table = table_by(alloc, rows)?;
    text_in(alloc, &table, id, structure, line)
}

/// The first type with another text.
fn first_other_text(alloc: Global) -> Result<Option<&'static str>, Fail> {
    for (name, rows, id, structure, line, wanted) in PRINTED {
        if text_by(alloc, rows, id, structure, line)?.items() != wanted {
            return Ok(Some(name));
        }
    }
    Ok(None)
}

/// Where a member lies: its first bit, its bits, whether it is a bit field, and the hole before it.
type MemberPlace = (u64, u64, bool, u64);

/// An `int`.
const INT: TableRow<'static, 'static> = TableRow(1, b"int", false, 4, 0, &[], &[]);

/// A structure of two members of `int`: its flag, its size, the offset words of its members, the
/// places of these, and the padding.
type Placed = (bool, u32, (u64, u64), &'static [MemberPlace], u64);

const PLACED: &[Placed] = &[
    // In order, with a hole and padding.
    (
        false,
        16,
        (0, 64),
        &[(0, 32, false, 0), (64, 32, false, 32)],
        32,
    ),
    // Out of order: the second is before the first, and no hole.
    (
        false,
        16,
        (64, 0),
        &[(64, 32, false, 64), (0, 32, false, 0)],
        32,
    ),
    // They overlap.
    (
        false,
        8,
        (0, 16),
        &[(0, 32, false, 0), (16, 32, false, 0)],
        16,
    ),
    // The size is smaller than where they end.
    (
        false,
        4,
        (0, 32),
        &[(0, 32, false, 0), (32, 32, false, 0)],
        0,
    ),
    // A bit field ends in a byte, and the next member is none.
    (
        true,
        8,
        (0x0300_0000, 32),
        &[(0, 3, true, 0), (32, 32, false, 29)],
        0,
    ),
    // The last bit field that an offset word has.
    (
        true,
        4,
        (0, 0xffff_ffff),
        &[(0, 32, false, 0), (0xff_ffff, 255, true, 0xff_ffdf)],
        0,
    ),
    // Without the flag the whole word is the first bit.
    (
        false,
        4,
        (0, 0xffff_ffff),
        &[(0, 32, false, 0), (0xffff_ffff, 32, false, 0xffff_ffdf)],
        0,
    ),
];

/// The layout of such a structure.
fn placed_members(alloc: Global, row: &Placed) -> Result<Result<TypeLayout, LayoutFault>, Fail> {
    let (flag, size, (first, second), _, _) = *row;
    let members = [(b"a".as_slice(), first), (b"b".as_slice(), second)];
    let mut types = Vec::new(alloc);
    push(alloc, &mut types, INT)?;
    push(
        alloc,
        &mut types,
        TableRow(4, b"s", flag, size, 0, &members, &[1, 1]),
    )?;
    placed(alloc, &table_of(0, types), 2)
}

/// Whether a slot is at a place.
fn is_at(slot: &Slot, place: &MemberPlace) -> bool {
    (slot.start, slot.bits, slot.field, slot.hole) == *place
}

/// Whether members have these places, and there is no other.
fn are_at(slots: &[Slot], places: &[MemberPlace]) -> bool {
    for (slot, place) in slots.iter().zip(places) {
        if !is_at(slot, place) {
            return false;
        }
    }
    slots.len() == places.len()
}

/// Whether a structure is laid out as its row says.
fn is_placed(found: &Result<TypeLayout, LayoutFault>, row: &Placed) -> bool {
    match found {
        Ok(found) => found.padding == row.4 && are_at(found.slots.items(), row.3),
        Err(_) => false,
    }
}

/// The first structure with another layout, by its place in the list.
fn first_other_layout(alloc: Global, rows: &[Placed]) -> Result<Option<usize>, Fail> {
    for (k, row) in rows.iter().enumerate() {
        if !is_placed(&placed_members(alloc, row)?, row) {
            return Ok(Some(k));
        }
    }
    Ok(None)
}

/// A structure with a pointer, and a member of a type that has no size.
const UNSIZED: TableRows = &[
    TableRow(4, b"s", false, 4, 0, &[(b"p", 0), (b"x", 64)], &[3, 2]),
    TableRow(7, b"t", false, 0, 0, &[], &[]),
    TableRow(2, b"", false, 0, 0, &[], &[2]),
];

/// Whether that structure has no layout, since this type has no size.
fn lacks_a_size(alloc: Global) -> Result<bool, Fail> {
    let table = table_by(alloc, UNSIZED)?;
    let found = placed(alloc, &table, 1)?;
    Ok(found.err() == Some(LayoutFault::NoSize(2)))
}

#[test]
fn texts_and_layouts(rt: HostRuntime) -> Result<(), Fail> {
    assert_eq!(rt; first_other_text(rt.alloc())?, None);
    assert_eq!(rt; first_other_layout(rt.alloc(), PLACED)?, None);
    assert!(rt; lacks_a_size(rt.alloc())?);
    Ok(())
}

/// The types of a table, each with its size.
const SIZED: &[(TableRow<'static, 'static>, Option<u64>)] = &[
    (TableRow(1, b"int", false, 4, 32, &[], &[]), Some(4)),
    (TableRow(2, b"", false, 0, 0, &[], &[7]), Some(8)),
    (TableRow(3, b"", false, 0, 10, &[], &[1, 1]), Some(40)),
    (TableRow(4, b"s", false, 12, 0, &[], &[]), Some(12)),
    (TableRow(5, b"u", false, 6, 0, &[], &[]), Some(6)),
    (TableRow(6, b"e", false, 2, 0, &[], &[]), Some(2)),
    (TableRow(7, b"f", false, 0, 0, &[], &[]), None),
    (TableRow(8, b"t", false, 0, 0, &[], &[9]), Some(40)),
    (TableRow(9, b"", false, 0, 0, &[], &[3]), Some(40)),
    (TableRow(10, b"", false, 0, 0, &[], &[11]), Some(8)),
    (TableRow(11, b"", false, 0, 0, &[], &[2]), Some(8)),
    (TableRow(12, b"call", false, 0, 1, &[], &[13]), None),
    (TableRow(13, b"", false, 0, 0, &[], &[1]), None),
    (TableRow(14, b"v", false, 0, 1, &[], &[4]), Some(12)),
    (TableRow(15, b".data", false, 16, 0, &[], &[]), Some(16)),
    (TableRow(16, b"double", false, 8, 0, &[], &[]), Some(8)),
    (TableRow(17, b"tag", false, 0, 0, &[], &[4]), None),
    (TableRow(18, b"user", false, 0, 0, &[], &[5]), Some(6)),
    (TableRow(19, b"wide", false, 8, 0, &[], &[]), Some(8)),
    // Two cycles, and what leads into one.
    (TableRow(8, b"a", false, 0, 0, &[], &[21]), None),
    (TableRow(10, b"", false, 0, 0, &[], &[20]), None),
    (TableRow(3, b"", false, 0, 0, &[], &[20, 1]), None),
    (TableRow(8, b"b", false, 0, 0, &[], &[22]), None),
    (TableRow(8, b"c", false, 0, 0, &[], &[24]), None),
    // Arrays up to 2^60 bytes and past them.
    (
        TableRow(3, b"", false, 0, 1 << 31, &[], &[1, 1]),
        Some(1 << 33),
    ),
    (
        TableRow(3, b"", false, 0, 1 << 27, &[], &[25, 1]),
        Some(1 << 60),
    ),
    (TableRow(3, b"", false, 0, 2, &[], &[26, 1]), None),
    (TableRow(3, b"", false, 0, 0, &[], &[27, 1]), None),
    (TableRow(3, b"", false, 0, 0, &[], &[26, 1]), Some(0)),
    // Void, no target, and none that is there.
    (TableRow(10, b"", false, 0, 0, &[], &[0]), None),
    (TableRow(3, b"", false, 0, 1, &[], &[]), None),
    (TableRow(8, b"d", false, 0, 0, &[], &[3000]), None),
];

/// These types.
fn sized_types(alloc: Global) -> Result<Vec<CType<'static>>, AllocError> {
    let mut types = Vec::new(alloc);
    for (row, _) in SIZED {
        push(alloc, &mut types, *row)?;
    }
    Ok(types)
}

/// The sizes of these types.
fn known_sizes(alloc: Global) -> Result<Sizes, Fail> {
    let table = table_of(0, sized_types(alloc)?);
    if table.types.items().len() > 1000 {
        return Err(Fail::from("many types"));
    }
    Ok(sizes_of(alloc, &table, 8)?)
}

/// The first type that has another size, or none where one is to be, by its place in the list.
fn first_other_size(sizes: &[Option<u64>]) -> Option<usize> {
    for (k, (_, wanted)) in SIZED.iter().enumerate() {
        if sizes.get(k) != Some(wanted) {
            return Some(k);
        }
    }
    None
}

/// Whether these are the sizes of these types, and void has none.
fn are_known(sizes: &Sizes) -> bool {
    sizes.items.len() == SIZED.len()
        && sizes.of(Ref::Void).is_none()
        && sizes.of(Ref::Node(2)) == Some(40)
}

#[test]
fn sizes_of_each_kind(rt: HostRuntime) -> Result<(), Fail> {
    let sizes = known_sizes(rt.alloc())?;
    assert_eq!(rt; first_other_size(&sizes.items), None);
    assert!(rt; are_known(&sizes));
    Ok(())
}

/// The offsets of 100 members of 4 bytes.
fn members<'a>(alloc: Global) -> Result<Vec<PartRow<'a>>, AllocError> {
    let mut members = Vec::new(alloc);
    for k in 0..100u64 {
        members.push((b"m".as_slice(), 32 * k))?;
    }
    Ok(members)
}

/// Adds 1,000 structures of 100 members of the type with the id 100,001.
fn push_structures<'a>(
    alloc: Global,
    types: &mut Vec<CType<'a>>,
    members: &[PartRow<'a>],
) -> Result<(), AllocError> {
    let structure = TableRow(4, b"t", false, 400, 0, members, &[100_001; 100]);
    for _ in 0..1_000 {
        push(alloc, types, structure)?;
    }
    Ok(())
}

/// A type, 100,000 typedefs of it behind each other, and 1,000 structures with members of the last.
fn long_chain<'a>(alloc: Global, first: TableRow<'a, '_>) -> Result<Table<'a>, AllocError> {
    let members = members(alloc)?;
    let mut types = Vec::new(alloc);
    push(alloc, &mut types, first)?;
    push_typedefs(alloc, &mut types, 1, 100_001)?;
    push_structures(alloc, &mut types, &members)?;
    Ok(table_of(0, types))
}

/// Whether all structures of a long chain have a layout without padding (`true`), or none has one.
/// Following the chain for each member takes ten thousand million steps.
fn are_whole(alloc: Global, table: &Table<'_>) -> Result<bool, Fail> {
    let types = table.types.items();
    if !refer_to_one_another(types) {
        return Err(Fail::from("no long chain"));
    }
    let sizes = sizes_of(alloc, table, 8)?;
    let mut whole = true;
    for id in 100_002..101_002 {
        if !is_structure(types, id) {
            return Err(Fail::from("no structure"));
        }
        whole = whole && is_whole(layout_by_sizes(alloc, table, id, &sizes))?;
    }
    Ok(whole)
}

/// Whether a layout is there, without padding.
fn is_whole(placed: Result<TypeLayout, LayoutFault>) -> Result<bool, Fail> {
    match placed {
        Ok(shown) => Ok(shown.padding == 0),
        Err(LayoutFault::NoSize(100_001)) => Ok(false),
        Err(_) => Err(Fail::from("another fault")),
    }
}

/// An `int`, and a typedef of the last typedef of a long chain, and whether all structures behind
/// the chain have a layout.
const FIRST: &[(TableRow<'static, 'static>, bool)] = &[
    (TableRow(1, b"t", false, 4, 0, &[], &[0]), true),
    (TableRow(8, b"t", false, 0, 0, &[], &[100_001]), false),
];

/// The first type behind which it is otherwise, by its place in the list.
fn first_other_chain(alloc: Global) -> Result<Option<usize>, Fail> {
    for (k, (first, wanted)) in FIRST.iter().enumerate() {
        let table = long_chain(alloc, *first)?;
        if are_whole(alloc, &table)? != *wanted {
            return Ok(Some(k));
        }
    }
    Ok(None)
}

#[test]
fn long_chains_and_many_members(rt: HostRuntime) -> Result<(), Fail> {
    assert_eq!(rt; first_other_chain(rt.alloc())?, None);
    Ok(())
}
