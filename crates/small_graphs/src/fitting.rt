//! What calls ask of a graph, tested.
ghost use Rattle.std.specs.Prelude.{◌≡◌, ◌↔◌, ◌<◌, ◌≤◌, ◌^◌, ℕ, All, Some, length, take, IsTrue};
ghost use Rattle.std.specs.Prelude.{get_or, IfSome, IsSome};
ghost use Rattle.c_model.specs.Graph.{IsBelow, RefersWithin};
ghost use Rattle.std.specs.Option.{option_copied};
ghost use Rattle.btf_strings.specs.Kept.{IsSection};
ghost use Rattle.c_model.specs.Kinds.{IsWellFormed, row_of};
ghost use Rattle.dw_base.specs.Texts.{HasNoNul};
ghost use Rattle.small_graphs.specs.Rows.{parts_by};
ghost use Rattle.c_model.specs.Partition.{label_at, targets_at};
ghost use Rattle.c_model.specs.Forwards.{Tag, declaration_at, forward_at, HasFittingForwards};

use c_model::kinds::{
    BTF_KIND_ARRAY, BTF_KIND_ENUM, BTF_KIND_FWD, BTF_KIND_INT, BTF_KIND_PTR, BTF_KIND_STRUCT,
    BTF_KIND_TYPEDEF, BTF_KIND_UNION,
};
use c_model::{CType, Graph, Nodes, Part, Ref, is_same_label};
use dw_base::Name;
use forward_rule::FwdIndex;
use forward_rule::families::declared_family;

/// The most types of a list here.
const MOST: usize = 4_000_000;

/// Whether a target is void or a node below `limit`.
fn is_below(limit: u32, target: Ref) -> bool
    ensures { IsTrue result ↔ IsBelow limit target }
{
    match target {
        Ref::Void => true,
        Ref::Node(x) => x < limit,
    }
}

/// Whether each target is void or a node below `limit`.
pub fn are_below(limit: u32, targets: &[Ref]) -> bool
    ensures { IsTrue result ↔ All (IsBelow limit) targets.now }
{
    for target in targets {
        if !is_below(limit, *target) {
            return false;
        }
    }
    true
}

/// Whether each reference of these types is void or to a node below `limit`.
pub fn refer_below(limit: u32, nodes: &[CType<'_>]) -> bool
    ensures { IsTrue result ↔ RefersWithin limit nodes.now }
{
    for node in nodes {
        if !are_below(limit, node.targets.items()) {
            return false;
        }
    }
    true
}

/// Whether these types refer to one another alone, and are no more than a table can have.
pub fn refer_to_one_another(types: &[CType<'_>]) -> bool
    ensures few { IsTrue result → length types.now < 2 ^ 31 }
    ensures within { IsTrue result → RefersWithin (length types.now) types.now }
    ensures told { length types.now ≤ 4_000_000 → RefersWithin (length types.now) types.now
        → IsTrue result }
{
    types.len() <= MOST && refer_below(types.len() as u32, types)
}

/// The graph of these types, the first `base` of them those of a base. `None` where a reference
/// leaves it.
pub fn graph_from<'a>(base: u32, nodes: Vec<CType<'a>>) -> Option<Graph<'a>>
    ensures graph { IfSome result (λ g. (g.base ≡ base) × (g.nodes ≡ nodes.entry.items)) }
    ensures some { base ≤ length nodes.entry.items → length nodes.entry.items ≤ 4_000_000
        → RefersWithin (length nodes.entry.items) nodes.entry.items
        → RefersWithin base (take base nodes.entry.items) → IsSome result }
{
    if base as usize > nodes.len() || !refer_to_one_another(&nodes) {
        return None;
    }
    if !refer_below(base, &nodes[..base as usize]) {
        return None;
    }
    Some(Graph::new(base, Nodes::new(nodes)))
}

/// Whether a declaration has no targets.
fn is_leaf(graph: &Graph<'_>, x: u32) -> bool
    requires { x < length graph.now.nodes }
    ensures { IsTrue result ↔ ((tag : Tag) → declaration_at graph.now.nodes x ≡ Some tag
        → length (targets_at graph.now.nodes x) ≡ 0) }
{
    let node = graph.node(x);
    declared_family(&node.label).is_none() || node.targets.items().is_empty()
}

/// Whether two forwards have one label, or one of the nodes is no forward.
fn is_like(graph: &Graph<'_>, x: u32, y: u32) -> bool
    requires x { x < length graph.now.nodes }
    requires y { y < length graph.now.nodes }
    ensures { IsTrue result ↔ ((tag : Tag) → forward_at graph.now x ≡ Some tag → forward_at
        graph.now y ≡ Some tag → label_at graph.now.nodes x ≡ label_at graph.now.nodes y) }
{
    let (a, b) = (&graph.node(x).label, &graph.node(y).label);
    a.name.bytes() != b.name.bytes()
        || is_same_label(a, b)
        || declared_family(a) != declared_family(b)
        || !FwdIndex::is_forward(graph, x)
        || !FwdIndex::is_forward(graph, y)
}

/// Whether all forwards of node `x`'s tag have its label, or it is no forward.
fn are_like(graph: &Graph<'_>, x: u32) -> bool
    requires { x < length graph.now.nodes }
    ensures { IsTrue result ↔ ((y : ℕ) (tag : Tag) → y < length graph.now.nodes
        → forward_at graph.now x ≡ Some tag → forward_at graph.now y ≡ Some tag
        → label_at graph.now.nodes x ≡ label_at graph.now.nodes y) }
{
    if !FwdIndex::is_forward(graph, x) {
        return true;
    }
    for y in 0..graph.len() {
        if !is_like(graph, x, y) {
            return false;
        }
    }
    true
}

/// Whether declarations refer to nothing, and forwards of one tag have one label.
pub fn is_fitting(graph: &Graph<'_>) -> bool
    ensures { IsTrue result ↔ HasFittingForwards graph.now }
{
    for x in 0..graph.len() {
        if !is_leaf(graph, x) || !are_like(graph, x) {
            return false;
        }
    }
    true
}

/// Whether a name has no byte NUL.
pub fn is_text(name: &Name<'_>) -> bool
    ensures { IsTrue result ↔ HasNoNul name.now }
{
    for byte in name.bytes() {
        if *byte == 0 {
            return false;
        }
    }
    true
}

/// What the types of a kind have: limits of the size and of the extra number, whether kind_flag may
/// be set, the number of types that it refers to besides those of its parts, and whether these
/// refer to types, where it has parts.
#[derive(Clone, Copy)]
struct KindRow {
    size: u64,
    extra: u64,
    flag: bool,
    targets: usize,
    refers: Option<bool>,
}

/// The row of a kind of the table of kinds that graphs here have.
fn row_at(kind: u8) -> Option<KindRow>
    ensures { IfSome result (λ r. row_of kind ≡ Some (record {
      size = r.size;
      extra = r.extra;
      flag = r.flag;
      targets = r.targets;
      parts = parts_by r.refers;
    })) }
{
    let none = KindRow {
        size: 1,
        extra: 1,
        flag: false,
        targets: 0,
        refers: None,
    };
    let word = 1 << 32;
    match kind {
        BTF_KIND_INT => Some(KindRow {
            size: word,
            extra: word,
            ..none
        }),
        BTF_KIND_PTR | BTF_KIND_TYPEDEF => Some(KindRow { targets: 1, ..none }),
        BTF_KIND_ARRAY => Some(KindRow {
            extra: word,
            targets: 2,
            ..none
        }),
        BTF_KIND_STRUCT | BTF_KIND_UNION => Some(KindRow {
            size: word,
            flag: true,
            refers: Some(true),
            ..none
        }),
        BTF_KIND_ENUM => Some(KindRow {
            size: word,
            flag: true,
            refers: Some(false),
            ..none
        }),
        BTF_KIND_FWD => Some(KindRow { flag: true, ..none }),
        _ => None,
    }
}

/// Whether the names of these parts have no byte NUL, and their values are words.
fn are_words(parts: &[Part<'_>]) -> bool
    ensures { IsTrue result ↔ All (λ p. HasNoNul p.name × (p.value < 2 ^ 32)) parts.now }
{
    for part in parts {
        if !is_text(&part.name) || part.value > 0xffff_ffff {
            return false;
        }
    }
    true
}

/// Whether a type is well formed.
fn is_formed(t: &CType<'_>) -> bool
    ensures { IsTrue result → IsWellFormed t.now }
{
    let label = &t.label;
    let Some(row) = row_at(label.kind) else {
        return false;
    };
    let parts = label.parts.items();
    let count = parts.len();
    if u64::from(label.size) >= row.size || u64::from(label.extra) >= row.extra {
        return false;
    }
    if (label.flag && !row.flag) || count > 65_535 {
        return false;
    }
    let more = match row.refers {
        None if count != 0 => return false,
        Some(true) => count,
        _ => 0,
    };
    t.targets.items().len() == row.targets + more && are_words(parts) && is_text(&label.name)
}

/// Whether each type is well formed.
pub fn are_formed(nodes: &[CType<'_>]) -> bool
    ensures { IsTrue result → All IsWellFormed nodes.now }
{
    for t in nodes {
        if !is_formed(t) {
            return false;
        }
    }
    true
}

/// Whether these are the strings of a base, or there is none.
pub fn is_base(names: Option<&[u8]>) -> bool
    ensures section { IsTrue result → IfSome (option_copied names.entry) IsSection }
    ensures told { IfSome (option_copied names.entry) (λ s. (0 < length s) × (length s < 1000)
        × (get_or s 0 1 ≡ 0)) → IsTrue result }
{
    match names {
        None => true,
        Some(section) => section.len() < 1000 && section.first().copied() == Some(0),
    }
}
