//! What is counted once of a layout that many types may show.
ghost use Rattle.std.specs.Prelude.{◌≡◌, IfOk};
ghost use Rattle.shown_types.specs.Shown.{line_end, IsCounted};

use crate::showing::Style;
use btf_codec::Table;
use dw_base::Bytes;
use layout_printer::{TypeLayout, sizes_line};
use std::alloc::{AllocError, Global};

/// The layout of a structure, and what each type that shows it would else have to count over all
/// members.
#[derive(Drop)]
pub struct Counted {
    pub layout: TypeLayout,
    /// How many holes have whole bytes.
    pub holes: usize,
    /// The line with its size and its holes from behind the name on, where lines are shown; else
    /// nothing.
    pub line_end: Bytes,
}

/// A layout with its counts. It takes as many steps as there are members.
pub fn with_counts(
    alloc: Global,
    table: &Table<'_>,
    style: Style,
    layout: TypeLayout,
) -> Result<Counted, AllocError>
    ensures layout { IfOk result (λ c. c.layout ≡ layout) }
    ensures counted { IfOk result (IsCounted style) }
{
    let holes = layout.byte_holes();
    let line_end = line_end(alloc, table, style, &layout)?;
    Ok(Counted {
        layout,
        holes,
        line_end,
    })
}

/// The line of a layout from behind the name on: that of id 0, which is void and has no name.
fn line_end(
    alloc: Global,
    table: &Table<'_>,
    style: Style,
    layout: &TypeLayout,
) -> Result<Bytes, AllocError>
    ensures { IfOk result (λ b. b ≡ line_end style layout.now) }
{
    if style.sizes {
        return sizes_line(alloc, table, 0, layout);
    }
    Ok(Bytes::new(Vec::new(alloc)))
}
