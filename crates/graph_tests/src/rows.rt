//! Types in rows, and the graphs of such types.
ghost use Rattle.std.specs.Prelude.{◌≡◌, IfOk};
ghost use Rattle.c_model.specs.Forwards.{IsForwardIndex};

use c_model::{CType, Classes, Graph, Numbers, Ref};
use forward_rule::FwdIndex;
use small_graphs::rows::{PartRow, parted, type_of};
use std::alloc::{AllocError, Global};

/// A type: its kind, as `c_model::kinds` numbers it, its name, its size in bytes, its parts, and
/// what it refers to.
pub type GraphRow = (
    u8,
    &'static [u8],
    u32,
    &'static [PartRow<'static>],
    &'static [Ref],
);

/// The types of these rows.
pub fn types_of(alloc: Global, rows: &[GraphRow]) -> Result<Vec<CType<'static>>, AllocError> {
    let mut types = Vec::new(alloc);
    for (kind, name, size, pieces, targets) in rows {
        types.push(type_of(alloc, &parted(*kind, name, *size, pieces), targets)?)?;
    }
    Ok(types)
}

/// The open forwards of a graph without a base.
pub fn forwards_of(alloc: Global, graph: &Graph<'_>) -> Result<FwdIndex, AllocError>
    requires { graph.now.base ≡ 0 }
    ensures { IfOk result (λ f. IsForwardIndex graph.now f) }
{
    let base = Classes::new(Numbers::new(Vec::new(alloc)));
    FwdIndex::build(alloc, graph, &base)
}
