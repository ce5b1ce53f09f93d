//! The index of forwards.
ghost use Rattle.std.specs.Prelude.{◌≡◌, ◌↔◌, ◌<◌, ℕ, [], length, take, is_some, IsTrue, IfOk};
ghost use Rattle.c_model.specs.Partition.{IsCoarsest};
ghost use Rattle.c_model.specs.Forwards.{forward_at, definitions_in, IsOpen, IsIndexOf};
ghost use Rattle.c_model.specs.Forwards.{IsForwardIndex};

use crate::families::declared_family;
use crate::gather::{empty_unnamed, gathered, opened};
use c_model::{Classes, TypeGraph};
use std::alloc::{AllocError, Global};
use std::marker::Model;

/// Which forwards of a graph are open, and what defines them. Contracts see it as a list with the
/// definitions of each node, none where the node is no open forward.
#[derive(Drop)]
pub struct FwdIndex {
    count: u32,
    kept: Option<TagGroups>,
}

/// Of each node the number of its tag's group and 1, or 0 where it is no forward, and the groups of
/// definitions.
#[derive(Drop)]
pub struct TagGroups {
    pub tags: Vec<u32>,
    pub groups: Vec<Vec<u32>>,
}

impl Model for FwdIndex {
    ghost use Rattle.std.specs.Prelude.{List, ℕ};

    ghost Value = { List (List ℕ) };

    ghost use Rattle.forward_rule.specs.Kept.{index_of, IsKept};

    ghost view = { λ f. index_of f.count f.kept };

    ghost invariant = { λ f. IsKept f.count f.kept };
}

impl FwdIndex {
    ghost use Rattle.forward_rule.specs.Kept.{index_of, IsKept};

    /// The index of a graph where no forward is open.
    pub fn plain<'a, G: TypeGraph<'a>>(graph: &G) -> FwdIndex
        ensures of { IsIndexOf (G.shape graph.now) result }
        ensures closed { (x : ℕ) → definitions_in result x ≡ [] }
    {
        FwdIndex {
            count: graph.len(),
            kept: None,
        }
    }

    /// The index of a graph that opens exactly its open forwards. `base` is the coarsest plain
    /// agreement of the graph's base nodes.
    ///
    /// The work grows with the nodes, and with the bytes of names once for each label that
    /// declares or defines a tag; for each such node if the graph does not number its labels.
    pub fn build<'a, G: TypeGraph<'a>>(
        alloc: Global,
        graph: &G,
        base: &Classes,
    ) -> Result<FwdIndex, AllocError>
        requires { let g = G.shape graph.now in IsCoarsest (take g.base g.nodes) base.now }
        ensures { IfOk result (λ f. IsForwardIndex (G.shape graph.now) f) }
    {
        let TagGroups { tags, mut groups } = gathered(alloc, graph)?;
        empty_unnamed(alloc, &tags, &mut groups)?;
        let groups = opened(alloc, base.numbers(), groups)?;
        Ok(FwdIndex {
            count: graph.len(),
            kept: Some(TagGroups { tags, groups }),
        })
    }

    /// Whether node `x` is a forward of the files. Base nodes are none.
    pub fn is_forward<'a, G: TypeGraph<'a>>(graph: &G, x: u32) -> bool
        requires { x < length (G.shape graph.now).nodes }
        ensures { result ≡ is_some (forward_at (G.shape graph.now) x) }
    {
        x >= graph.base() && declared_family(graph.label(x)).is_some()
    }

    /// Whether node `x` is an open forward.
    #[inline(always)]
    pub fn is_open(&self, x: u32) -> bool
        requires { x < length self.now }
        ensures { IsTrue result ↔ IsOpen self.now x }
    {
        !self.definitions(x).is_empty()
    }

    /// The definitions of node `x` in node order. None where it is no open forward.
    #[inline(always)]
    pub fn definitions(&self, x: u32) -> &[u32]
        requires { x < length self.now }
        ensures { result.now ≡ definitions_in self.now x }
    {
        let Some(kept) = &self.kept else {
            return &[];
        };
        let tag = kept.tags[x as usize];
        if tag == 0 {
            return &[];
        }
        &kept.groups[tag as usize - 1]
    }

    /// The index as it is kept: the number of each node's tag, and the definitions of each tag.
    pub fn kept(&self) -> &Option<TagGroups>
        ensures { (n : ℕ) × (self.now ≡ index_of n result.now) × IsKept n result.now }
    {
        &self.kept
    }
}
