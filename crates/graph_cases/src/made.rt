//! Made graphs: rows are drawn, and mostly repeated with their references moved, so that equal
//! types and cycles occur. Definitions are now and then replaced by declarations.
use crate::rows::{
    CaseType, CaseTypes, ENUM, ENUM64, FWD, INT, NONE, PTR, STRUCT, TYPEDEF, UNION, X, bare,
};
use small_graphs::rows::{POINTER, PartRow, TypeHead};
use std::alloc::{AllocError, Global};

/// Numbers that look drawn, by a linear congruence modulo 2^64.
#[derive(Drop)]
pub struct Draws {
    state: u64,
}

impl Draws {
    /// The draws of a seed.
    pub fn new(seed: u64) -> Draws {
        Draws { state: seed }
    }

    /// A number below `limit`, or 0 where that is 0.
    fn below(&mut self, limit: u64) -> u64 {
        self.state = self
            .state
            .wrapping_mul(6_364_136_223_846_793_005)
            .wrapping_add(1_442_695_040_888_963_407);
        (self.state >> 33).checked_rem(limit).unwrap_or(0)
    }
}

/// A row that is repeated: its references are counted from its own place.
#[derive(Clone, Copy)]
struct Pattern {
    head: TypeHead,
    steps: [u64; 2],
}

/// Two members of 64 bits, or two enumerators.
const TWO: &[PartRow] = &[(b"x", 0), (b"y", 64)];

/// A name, seldom empty.
fn drawn_name(draws: &mut Draws) -> &'static [u8] {
    match draws.below(7) {
        0 => b"",
        1..4 => b"s",
        _ => b"t",
    }
}

/// A structure of one member.
const SINGLE: TypeHead = TypeHead {
    kind: STRUCT,
    size: 16,
    pieces: X,
    ..POINTER
};

/// A declared structure.
const FORWARD: TypeHead = TypeHead {
    kind: FWD,
    ..POINTER
};

/// What drawn types say of themselves, apart from their names.
const DRAWN: &[TypeHead] = &[
    POINTER,
    POINTER,
    POINTER,
    POINTER,
    SINGLE,
    SINGLE,
    SINGLE,
    TypeHead {
        pieces: TWO,
        ..SINGLE
    },
    TypeHead {
        pieces: &[],
        ..SINGLE
    },
    TypeHead {
        kind: UNION,
        ..SINGLE
    },
    TypeHead {
        kind: ENUM,
        size: 4,
        ..SINGLE
    },
    TypeHead {
        kind: ENUM64,
        size: 8,
        pieces: TWO,
        ..SINGLE
    },
    TypeHead {
        kind: INT,
        size: 4,
        ..POINTER
    },
    TypeHead {
        kind: TYPEDEF,
        ..POINTER
    },
    TypeHead {
        kind: ENUM,
        size: 4,
        ..POINTER
    },
];

/// What the drawn type of a number says of itself, apart from its name.
fn numbered_head(number: u64) -> TypeHead {
    match DRAWN.get(number as usize) {
        Some(head) => *head,
        None => FORWARD,
    }
}

/// What a drawn type says of itself. A pointer has no name.
fn drawn_head(draws: &mut Draws) -> TypeHead {
    let name = drawn_name(draws);
    let head = numbered_head(draws.below(16));
    if head.kind == PTR {
        head
    } else {
        TypeHead { name, ..head }
    }
}

/// The declaration of what a type defines; the type itself where it defines no tag.
fn declaration_of(head: TypeHead) -> TypeHead {
    match head.kind {
        STRUCT => bare(FWD, head.name, 0),
        UNION => TypeHead {
            flag: true,
            ..bare(FWD, head.name, 0)
        },
        ENUM | ENUM64 => bare(ENUM, head.name, 4),
        _ => head,
    }
}

/// How many types a type refers to.
fn target_count(head: &TypeHead) -> usize {
    match head.kind {
        PTR | TYPEDEF => 1,
        STRUCT | UNION => head.pieces.len(),
        _ => 0,
    }
}

/// What a row says of itself: mostly what its pattern says.
fn made_head(draws: &mut Draws, pattern: &Pattern) -> TypeHead {
    match draws.below(8) {
        0 | 1 => declaration_of(pattern.head),
        2 => drawn_head(draws),
        _ => pattern.head,
    }
}

/// What a row at a place refers to: mostly the row so many steps behind it.
fn made_target(draws: &mut Draws, place: u64, step: u64, limit: u64) -> u32 {
    let far = match draws.below(12) {
        0 => draws.below(limit),
        _ => place.saturating_add(step),
    };
    let target = far.checked_rem(limit).unwrap_or(0);
    match u32::try_from(target) {
        Ok(x) if draws.below(20) != 0 => x,
        _ => NONE,
    }
}

/// A row at a place of a table, which refers to rows below `limit`.
fn made_row(draws: &mut Draws, pattern: &Pattern, place: u64, limit: u64) -> CaseType {
    let head = made_head(draws, pattern);
    let count = target_count(&head);
    let mut targets = [NONE; 2];
    for (target, step) in targets.iter_mut().zip(&pattern.steps).take(count) {
        *target = made_target(draws, place, *step, limit);
    }
    CaseType::new(head, targets.get(..count).unwrap_or(&[]))
}

/// A drawn pattern.
fn made_pattern(draws: &mut Draws) -> Pattern {
    Pattern {
        head: drawn_head(draws),
        steps: [draws.below(5), draws.below(5)],
    }
}

/// Two to four patterns.
fn made_patterns(alloc: Global, draws: &mut Draws) -> Result<Vec<Pattern>, AllocError> {
    let mut patterns = Vec::new(alloc);
    for _ in 0..draws.below(3).saturating_add(2) {
        patterns.push(made_pattern(draws))?;
    }
    Ok(patterns)
}

/// The pattern of the row at a place: each in turn.
fn pattern_at(patterns: &[Pattern], place: u64) -> Option<&Pattern> {
    let turn = place.checked_rem(patterns.len() as u64)?;
    patterns.get(turn as usize)
}

/// So many rows, the first `base` of which refer to one another alone.
fn made_rows(
    alloc: Global,
    draws: &mut Draws,
    patterns: &[Pattern],
    base: u64,
    count: u64,
) -> Result<Vec<CaseType>, AllocError> {
    let mut rows = Vec::new(alloc);
    for place in 0..count {
        let limit = if place < base { base } else { count };
        if let Some(pattern) = pattern_at(patterns, place) {
            rows.push(made_row(draws, pattern, place, limit))?;
        }
    }
    Ok(rows)
}

/// A table of 3 to 12 rows, none to four of them of a base.
pub fn made_table(alloc: Global, draws: &mut Draws) -> Result<CaseTypes, AllocError> {
    let count = draws.below(10).saturating_add(3);
    let base = draws.below(5).min(count);
    let patterns = made_patterns(alloc, draws)?;
    let rows = made_rows(alloc, draws, &patterns, base, count)?;
    let base = usize::try_from(base).unwrap_or(0);
    Ok(CaseTypes { base, rows })
}
