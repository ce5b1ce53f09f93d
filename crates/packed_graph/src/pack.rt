//! Graphs packed.
ghost use Rattle.std.specs.Prelude.{◌≡◌, IfOk};

use crate::graph::PackedGraph;
use crate::nodes::PackedNodes;
use c_model::{Graph, copy_of_label};
use std::alloc::{AllocError, Global};

/// The same graph with each of its labels kept once.
pub fn packed<'a>(alloc: Global, graph: &Graph<'a>) -> Result<PackedGraph<'a>, AllocError>
    ensures { IfOk result (λ p. p ≡ graph.now) }
{
    let mut nodes = PackedNodes::new(alloc)?;
    for x in 0..graph.len() {
        let node = graph.node(x);
        let label = copy_of_label(alloc, &node.label)?;
        nodes.push(label, node.targets.items())?;
    }
    Ok(PackedGraph::new(graph.base(), nodes))
}
