//! Graphs whose coarsest partition is known from C's rules for compatible types, and whose table
//! follows from it, by hand.
use crate::rows::{ARRAY, CaseTypes, ENUM, FWD, INT, STRUCT, TYPEDEF, UNION, X, X_AND_Y, push_row};
use small_graphs::rows::{POINTER, PartRow, TypeHead};
use std::alloc::{AllocError, Global};

/// What a type says of itself, and the numbers of the types that it refers to.
pub type WorkedType = (&'static TypeHead, &'static [u32]);

/// A graph, its classes and its table.
#[derive(Clone, Copy)]
pub struct Worked {
    pub name: &'static str,
    /// How many types are of a base.
    pub base: usize,
    /// The strings of the base.
    pub base_names: Option<&'static [u8]>,
    /// The types of the graph, those of the base first.
    pub types: &'static [WorkedType],
    /// For each type the number of its class.
    pub classes: &'static [u32],
    /// The types of the table that are not of the base. They refer to types by ids less one.
    pub own: &'static [WorkedType],
    /// The own strings of the table.
    pub names: &'static [u8],
}

/// The rows of these types, the first `base` of them of a base.
pub fn table_of(
    alloc: Global,
    base: usize,
    entries: &[WorkedType],
) -> Result<CaseTypes, AllocError> {
    let mut rows = Vec::new(alloc);
    for (head, numbers) in entries {
        push_row(&mut rows, **head, numbers)?;
    }
    Ok(CaseTypes { base, rows })
}

/// C's `int`.
const NUMBER: TypeHead = TypeHead {
    kind: INT,
    name: b"int",
    size: 4,
    extra: 0x100_0020,
    ..POINTER
};

/// An `int` of eight bytes.
const WIDE: TypeHead = TypeHead {
    size: 8,
    extra: 0x100_0040,
    ..NUMBER
};

/// C's `unsigned int`.
const UNSIGNED: TypeHead = TypeHead {
    name: b"unsigned int",
    extra: 0x20,
    ..NUMBER
};

/// The type of indices.
const INDEX: TypeHead = TypeHead {
    name: b"__ARRAY_SIZE_TYPE__",
    ..UNSIGNED
};

/// An array of 5 times 6 elements.
const GRID: TypeHead = TypeHead {
    kind: ARRAY,
    extra: 30,
    ..POINTER
};

/// An array without a bound.
const TAIL: TypeHead = TypeHead {
    kind: ARRAY,
    ..POINTER
};

const FIRST_A: &[PartRow] = &[(b"a", 0)];

const FIRST_B: &[PartRow] = &[(b"b", 0)];

const NEXT_AND_PREV: &[PartRow] = &[(b"next", 0), (b"prev", 64)];

/// A bit field of three bits at bit 0.
const BITS_AT_0: &[PartRow] = &[(b"a", 0x300_0000)];

/// A bit field of three bits at bit 5.
const BITS_AT_5: &[PartRow] = &[(b"a", 0x300_0005)];

/// Bit fields of 3, 5 and 17 bits.
const THREE_FIELDS: &[PartRow] = &[(b"a", 0x300_0000), (b"b", 0x500_0003), (b"c", 0x1100_0008)];

/// A structure of two pointers.
const LIST_HEAD: TypeHead = TypeHead {
    kind: STRUCT,
    name: b"list_head",
    size: 16,
    pieces: NEXT_AND_PREV,
    ..POINTER
};

/// A structure of a member `b`.
const A_OF_B: TypeHead = TypeHead {
    kind: STRUCT,
    name: b"A",
    size: 8,
    pieces: FIRST_B,
    ..POINTER
};

/// A structure of a member `a`.
const B_OF_A: TypeHead = TypeHead {
    name: b"B",
    pieces: FIRST_A,
    ..A_OF_B
};

/// A structure of a number.
const B_OF_X: TypeHead = TypeHead {
    name: b"B",
    size: 4,
    pieces: X,
    ..A_OF_B
};

/// A structure of two numbers.
const B_OF_TWO: TypeHead = TypeHead {
    pieces: X_AND_Y,
    size: 8,
    ..B_OF_X
};

/// A structure of a number.
const FOO_OF_X: TypeHead = TypeHead {
    name: b"foo",
    ..B_OF_X
};

/// A structure of 4 bytes without members.
const FOO_OF_4: TypeHead = TypeHead {
    pieces: &[],
    ..FOO_OF_X
};

/// A structure of 8 bytes without members.
const FOO_OF_8: TypeHead = TypeHead {
    size: 8,
    ..FOO_OF_4
};

/// A declared structure.
const SOME_FOO: TypeHead = TypeHead {
    kind: FWD,
    name: b"foo",
    ..POINTER
};

const SOME_A: TypeHead = TypeHead {
    name: b"A",
    ..SOME_FOO
};

const SOME_B: TypeHead = TypeHead {
    name: b"B",
    ..SOME_FOO
};

const SOME_T: TypeHead = TypeHead {
    name: b"t",
    ..SOME_FOO
};

/// A union without members, of the name of a declared structure.
const UNION_T: TypeHead = TypeHead {
    kind: UNION,
    name: b"t",
    size: 8,
    ..POINTER
};

/// An unnamed union of a bit field.
const UNION_AT_0: TypeHead = TypeHead {
    kind: UNION,
    flag: true,
    size: 4,
    pieces: BITS_AT_0,
    ..POINTER
};

/// The same elsewhere.
const UNION_AT_5: TypeHead = TypeHead {
    pieces: BITS_AT_5,
    ..UNION_AT_0
};

/// A structure of bit fields.
const FIELDS: TypeHead = TypeHead {
    kind: STRUCT,
    name: b"f",
    flag: true,
    size: 4,
    pieces: THREE_FIELDS,
    ..POINTER
};

/// A declared enumeration.
const SOME_E: TypeHead = TypeHead {
    kind: ENUM,
    name: b"e",
    size: 4,
    ..POINTER
};

/// Its definition.
const E_OF_A: TypeHead = TypeHead {
    pieces: FIRST_A,
    ..SOME_E
};

/// A typedef.
const LH: TypeHead = TypeHead {
    kind: TYPEDEF,
    name: b"lh",
    ..POINTER
};

/// A base that declares a structure.
pub const DECLARED: &[WorkedType] = &[(&SOME_FOO, &[]), (&POINTER, &[0])];

/// A file that defines it. Its types are numbered from 0.
pub const DEFINED: &[WorkedType] = &[(&NUMBER, &[]), (&FOO_OF_X, &[0]), (&POINTER, &[1])];

/// The graph of both.
pub const DEFINED_OVER_DECLARED: &[WorkedType] = &[
    (&SOME_FOO, &[]),
    (&POINTER, &[0]),
    (&NUMBER, &[]),
    (&FOO_OF_X, &[2]),
    (&POINTER, &[3]),
];

/// A graph of nothing. Graphs without a base are written as what differs from it.
const ALONE: Worked = Worked {
    name: "",
    base: 0,
    base_names: None,
    types: &[],
    classes: &[],
    own: &[],
    names: b"\0",
};

/// Graphs without declarations.
pub fn plain_graphs() -> &'static [Worked] {
    PLAIN
}

const PLAIN: &[Worked] = &[
    Worked {
        name: "ints of two sizes",
        types: &[(&NUMBER, &[]), (&WIDE, &[])],
        classes: &[0, 1],
        own: &[(&NUMBER, &[]), (&WIDE, &[])],
        names: b"\0int\0",
        ..ALONE
    },
    // A pointer to itself in each of two units.
    Worked {
        name: "pointers to themselves",
        types: &[(&POINTER, &[0]), (&POINTER, &[1])],
        classes: &[0, 0],
        own: &[(&POINTER, &[0])],
        ..ALONE
    },
    // A structure of two pointers to itself, in each of two units.
    Worked {
        name: "list heads",
        types: &[
            (&LIST_HEAD, &[1, 1]),
            (&POINTER, &[0]),
            (&LIST_HEAD, &[3, 3]),
            (&POINTER, &[2]),
        ],
        classes: &[0, 1, 0, 1],
        own: &[(&LIST_HEAD, &[1, 1]), (&POINTER, &[0])],
        names: b"\0list_head\0next\0prev\0",
        ..ALONE
    },
    // An unnamed union of a bit field, which stands elsewhere in a second unit.
    Worked {
        name: "unions",
        types: &[
            (&NUMBER, &[]),
            (&UNION_AT_0, &[0]),
            (&NUMBER, &[]),
            (&UNION_AT_5, &[2]),
        ],
        classes: &[0, 1, 0, 2],
        own: &[(&NUMBER, &[]), (&UNION_AT_0, &[0]), (&UNION_AT_5, &[0])],
        names: b"\0int\0a\0",
        ..ALONE
    },
    Worked {
        name: "bit fields",
        types: &[(&UNSIGNED, &[]), (&FIELDS, &[0, 0, 0])],
        classes: &[0, 1],
        own: &[(&UNSIGNED, &[]), (&FIELDS, &[0, 0, 0])],
        names: b"\0unsigned int\0f\0a\0b\0c\0",
        ..ALONE
    },
    Worked {
        name: "array",
        types: &[(&NUMBER, &[]), (&GRID, &[0, 2]), (&INDEX, &[])],
        classes: &[0, 1, 2],
        own: &[(&NUMBER, &[]), (&GRID, &[0, 2]), (&INDEX, &[])],
        names: b"\0int\0__ARRAY_SIZE_TYPE__\0",
        ..ALONE
    },
    // An array without a bound in one unit, and one of two bounds in another.
    Worked {
        name: "array without a bound",
        types: &[
            (&NUMBER, &[]),
            (&TAIL, &[0, 2]),
            (&INDEX, &[]),
            (&NUMBER, &[]),
            (&GRID, &[3, 5]),
            (&INDEX, &[]),
        ],
        classes: &[0, 1, 2, 0, 3, 2],
        own: &[
            (&NUMBER, &[]),
            (&TAIL, &[0, 2]),
            (&INDEX, &[]),
            (&GRID, &[0, 2]),
        ],
        names: b"\0int\0__ARRAY_SIZE_TYPE__\0",
        ..ALONE
    },
];

/// Graphs with declarations.
pub fn forward_graphs() -> &'static [Worked] {
    FORWARD
}

const FORWARD: &[Worked] = &[
    // A structure declared in each of three units.
    Worked {
        name: "declared three times",
        types: &[(&SOME_FOO, &[]), (&SOME_FOO, &[]), (&SOME_FOO, &[])],
        classes: &[0, 0, 0],
        own: &[(&SOME_FOO, &[])],
        names: b"\0foo\0",
        ..ALONE
    },
    // Two structures that point to each other: each in a unit that declares the other, and both in
    // a third.
    Worked {
        name: "through declarations",
        types: &[
            (&A_OF_B, &[1]),
            (&POINTER, &[2]),
            (&SOME_B, &[]),
            (&B_OF_A, &[4]),
            (&POINTER, &[5]),
            (&SOME_A, &[]),
            (&A_OF_B, &[7]),
            (&POINTER, &[8]),
            (&B_OF_A, &[9]),
            (&POINTER, &[6]),
        ],
        classes: &[0, 1, 2, 2, 3, 0, 0, 1, 2, 3],
        own: &[
            (&A_OF_B, &[1]),
            (&POINTER, &[2]),
            (&B_OF_A, &[3]),
            (&POINTER, &[0]),
        ],
        names: b"\0A\0b\0B\0a\0",
        ..ALONE
    },
    // A structure over one that has two definitions, and over its declaration, which stays apart.
    Worked {
        name: "two definitions",
        types: &[
            (&NUMBER, &[]),
            (&B_OF_X, &[0]),
            (&POINTER, &[1]),
            (&A_OF_B, &[2]),
            (&NUMBER, &[]),
            (&B_OF_TWO, &[4, 4]),
            (&POINTER, &[5]),
            (&A_OF_B, &[6]),
            (&SOME_B, &[]),
            (&POINTER, &[8]),
            (&A_OF_B, &[9]),
        ],
        classes: &[0, 1, 2, 3, 0, 4, 5, 6, 7, 8, 9],
        own: &[
            (&NUMBER, &[]),
            (&B_OF_X, &[0]),
            (&POINTER, &[1]),
            (&A_OF_B, &[2]),
            (&B_OF_TWO, &[0, 0]),
            (&POINTER, &[4]),
            (&A_OF_B, &[5]),
            (&SOME_B, &[]),
            (&POINTER, &[7]),
            (&A_OF_B, &[8]),
        ],
        names: b"\0int\0B\0x\0A\0b\0y\0",
        ..ALONE
    },
    // A declared enumeration is with its definition. A declared structure is not with a union of
    // its name.
    Worked {
        name: "sorts of tags",
        types: &[
            (&SOME_E, &[]),
            (&E_OF_A, &[]),
            (&SOME_T, &[]),
            (&POINTER, &[2]),
            (&UNION_T, &[]),
        ],
        classes: &[0, 0, 1, 2, 3],
        own: &[
            (&E_OF_A, &[]),
            (&SOME_T, &[]),
            (&POINTER, &[1]),
            (&UNION_T, &[]),
        ],
        names: b"\0e\0a\0t\0",
        ..ALONE
    },
];

/// Graphs with the types of a base.
pub fn based_graphs() -> &'static [Worked] {
    BASE
}

const BASE: &[Worked] = &[
    // A base that declares a structure, and a file that defines it: the base's declaration stays.
    Worked {
        name: "declared in a base",
        base: 2,
        base_names: Some(b"\0foo\0"),
        types: DEFINED_OVER_DECLARED,
        classes: &[0, 1, 2, 3, 4],
        own: &[(&NUMBER, &[]), (&FOO_OF_X, &[2]), (&POINTER, &[3])],
        names: b"int\0x\0",
    },
    // A base with two different structures of a name closes the declarations of it.
    Worked {
        name: "closed by a base",
        base: 4,
        base_names: Some(b"\0foo\0"),
        types: &[
            (&FOO_OF_4, &[]),
            (&FOO_OF_8, &[]),
            (&SOME_FOO, &[]),
            (&POINTER, &[2]),
            (&SOME_FOO, &[]),
            (&POINTER, &[4]),
        ],
        classes: &[0, 1, 2, 3, 2, 3],
        own: &[],
        names: b"",
    },
    // A base with two equal structures of a name leaves the file's declaration open, so that it is
    // with them; the base's own declaration is apart.
    Worked {
        name: "open beside a base",
        base: 3,
        base_names: Some(b"\0foo\0"),
        types: &[
            (&FOO_OF_4, &[]),
            (&FOO_OF_4, &[]),
            (&SOME_FOO, &[]),
            (&SOME_FOO, &[]),
            (&POINTER, &[3]),
            (&POINTER, &[0]),
        ],
        classes: &[0, 0, 1, 0, 2, 2],
        own: &[(&POINTER, &[0])],
        names: b"",
    },
    // A base with a structure of two pointers to itself, and two units with the same, one with a
    // typedef of it.
    Worked {
        name: "list heads over a base",
        base: 2,
        base_names: Some(b"\0list_head\0next\0prev\0"),
        types: &[
            (&LIST_HEAD, &[1, 1]),
            (&POINTER, &[0]),
            (&LIST_HEAD, &[3, 3]),
            (&POINTER, &[2]),
            (&LH, &[2]),
            (&LIST_HEAD, &[6, 6]),
            (&POINTER, &[5]),
        ],
        classes: &[0, 1, 0, 1, 2, 0, 1],
        own: &[(&LH, &[0])],
        names: b"lh\0",
    },
];
