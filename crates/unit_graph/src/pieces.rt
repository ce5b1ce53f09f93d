//! The places of one piece's nodes behind another's.
ghost use Rattle.std.specs.Prelude.{◌≡◌, ◌++◌, map, OnOk};
ghost use Rattle.unit_graph.specs.Numbers.{row_moved};

use crate::places::NodePlace;
use std::alloc::AllocError;

/// Puts places behind others, each of a node that comes so many later. A number that does not fit
/// is want of memory.
pub fn push_moved_rows(
    rows: &mut Vec<NodePlace>,
    more: &[NodePlace],
    by: u32,
) -> Result<(), AllocError>
    ensures { OnOk result (rows.new.items ≡ rows.old.items ++ map (row_moved by) more.now) }
{
    rows.reserve(more.len())?;
    for row in more {
        let Some(number) = row.number.checked_add(by) else {
            return Err(AllocError);
        };
        rows.push(NodePlace {
            file: row.file,
            number,
            at: row.at,
        })?;
    }
    Ok(())
}
