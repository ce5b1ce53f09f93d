//! The references of a graph as words, side by side.
ghost use Rattle.std.specs.Prelude.{◌≡◌, ◌<◌, ◌++◌, ◌^◌, map, length, IfOk};
ghost use Rattle.c_model.specs.Partition.{targets_at};
ghost use Rattle.packed_graph.specs.Packed.{word_of};
ghost use Rattle.type_signature.specs.Links.{AreLinks};

use c_model::TypeGraph;
use packed_graph::nodes::word;
use std::alloc::{AllocError, Global};

/// The references of each node as words: those of a node stand from the end of the node before to
/// its own end.
#[derive(Drop)]
pub struct Links {
    pub ends: Vec<u32>,
    pub words: Vec<u32>,
}

/// Appends the words of a node's references.
fn push_words<'a, G: TypeGraph<'a>>(
    graph: &G,
    x: u32,
    words: &mut Vec<u32>,
) -> Result<(), AllocError>
    requires node { x < length (G.shape graph.now).nodes }
    requires few { length (G.shape graph.now).nodes < 2 ^ 32 }
    ensures { IfOk result (λ _.
        words.new.items ≡ words.old.items ++ map word_of (targets_at (G.shape graph.now).nodes x)) }
{
    for i in 0..graph.target_count(x) {
        words.push(word(graph.target(x, i)))?;
    }
    Ok(())
}

impl Links {
    /// The references of a graph. More than 2^32 - 1 of them are want of memory.
    pub fn new<'a, G: TypeGraph<'a>>(alloc: Global, graph: &G) -> Result<Links, AllocError>
        ensures { IfOk result (λ l. AreLinks (G.shape graph.now).nodes l.ends.items l.words.items) }
    {
        let mut ends = Vec::with_capacity(alloc, graph.len() as usize)?;
        let mut words = Vec::new(alloc);
        ends.push(0)?;
        for x in 0..graph.len() {
            push_words(graph, x, &mut words)?;
            let Ok(end) = u32::try_from(words.len()) else {
                return Err(AllocError);
            };
            ends.push(end)?;
        }
        Ok(Links { ends, words })
    }
}
