//! What the choice asks of function entries, tested.
ghost use Rattle.std.specs.Prelude.{◌<◌, ◌≤◌, ◌≢◌, All, IsTrue, length};
ghost use Rattle.c_model.specs.declared.kinds.TheConstants.{BTF_KIND_FUNC};
ghost use Rattle.c_model.specs.Graph.{RefersWithin};
ghost use Rattle.dw_base.specs.Texts.{HasNoNul};

use c_model::kinds::BTF_KIND_FUNC;
use c_model::{CType, Graph};
use func_types::Func;
use small_graphs::fitting::{is_text, refer_below};

/// Whether no name of these entries has a byte NUL.
pub fn are_named(funcs: &[Func<'_>]) -> bool
    ensures { IsTrue result → All (λ f. HasNoNul f.name) funcs.now }
{
    for func in funcs {
        if !is_text(&func.name) {
            return false;
        }
    }
    true
}

/// Whether each prototype is one of the first nodes.
fn have_protos(limit: u32, funcs: &[Func<'_>]) -> bool
    ensures { IsTrue result → All (λ f. f.proto < limit) funcs.now }
{
    for func in funcs {
        if func.proto >= limit {
            return false;
        }
    }
    true
}

/// Whether none of these nodes is a FUNC.
pub fn are_no_funcs(nodes: &[CType<'_>]) -> bool
    ensures { IsTrue result → All (λ t. t.label.kind ≢ BTF_KIND_FUNC) nodes.now }
{
    for node in nodes {
        if node.label.kind == BTF_KIND_FUNC {
            return false;
        }
    }
    true
}

/// Whether the first `plain` nodes refer to one another alone, each entry's prototype is a node,
/// and there are few of all.
pub fn are_protos(graph: &Graph<'_>, plain: u32, funcs: &[Func<'_>]) -> bool
    ensures few { IsTrue result → length graph.now.nodes ≤ 100 }
    ensures entries { IsTrue result → length funcs.now ≤ 100 }
    ensures plain { IsTrue result → plain ≤ length graph.now.nodes }
    ensures within { IsTrue result → RefersWithin plain graph.now.nodes }
    ensures protos { IsTrue result → All (λ f. f.proto < length graph.now.nodes) funcs.now }
{
    graph.len() <= 100
        && funcs.len() <= 100
        && plain <= graph.len()
        && refer_below(plain, graph.nodes())
        && have_protos(graph.len(), funcs)
}
