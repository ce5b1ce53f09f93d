//! Functions in rows, and what is chosen of them.
use c_model::{CType, Ref};
use dw_base::Name;
use func_types::Func;
use small_graphs::same::{are_same, is_same};
use std::alloc::{AllocError, Global};

/// A function entry, or a chosen function with the entry's prototype: its name, whether other units
/// can call it, and the prototype's node.
pub type Function = (&'static [u8], bool, u32);

/// A function that other units can call.
pub const GLOBAL: bool = true;

/// A static function.
pub const LOCAL: bool = false;

/// The entries of these rows.
pub fn entries(alloc: Global, rows: &[Function]) -> Result<Vec<Func<'static>>, AllocError> {
    let mut funcs = Vec::new(alloc);
    for (name, external, proto) in rows {
        funcs.push(Func {
            name: Name::new(name),
            external: *external,
            proto: *proto,
        })?;
    }
    Ok(funcs)
}

/// Whether nodes are the prototypes of these rows.
fn are_protos(nodes: &[CType<'_>], types: &[CType<'_>], rows: &[Function]) -> bool {
    for (node, (_, _, proto)) in nodes.iter().zip(rows) {
        let Some(wanted) = types.get(*proto as usize) else {
            return false;
        };
        if !is_same(node, wanted) {
            return false;
        }
    }
    nodes.len() == rows.len()
}

/// Whether nodes are the FUNCs of these rows, whose prototypes stand from this node on.
fn are_funcs(nodes: &[CType<'_>], first: u32, rows: &[Function]) -> bool {
    let mut place = first;
    for (node, (name, external, _)) in nodes.iter().zip(rows) {
        let is_func = node.label.kind == 12
            && node.label.name.bytes() == *name
            && node.label.extra == u32::from(*external)
            && node.targets.items() == [Ref::Node(place)].as_slice();
        if !is_func {
            return false;
        }
        place = place.wrapping_add(1);
    }
    nodes.len() == rows.len()
}

/// Whether the nodes are the first `plain` types, the prototypes of these rows, and their FUNCs.
pub fn has_funcs(nodes: &[CType<'_>], types: &[CType<'_>], plain: u32, rows: &[Function]) -> bool {
    let start = plain as usize;
    let end = start.saturating_add(rows.len());
    let (Some(first), Some(wanted)) = (nodes.get(..start), types.get(..start)) else {
        return false;
    };
    let (Some(protos), Some(funcs)) = (nodes.get(start..end), nodes.get(end..)) else {
        return false;
    };
    are_same(first, wanted) && are_protos(protos, types, rows) && are_funcs(funcs, plain, rows)
}
