//! The places of classes in a table.
ghost use Rattle.std.specs.Prelude.{◌≡◌, ◌<◌, ◌≤◌, ◌+◌, ◌^◌, ℕ, length, map, nat_eq, IfOk, OnOk};
ghost use Rattle.std.specs.HashMap.{get};
ghost use Rattle.std.specs.List.{range_with_len};
ghost use Rattle.split_base.specs.Table.{own_firsts, place_of};
ghost use Rattle.split_base.specs.Building.{IsPlaced, TakesPlace};

use c_model::{Classes, TypeGraph};
use std::alloc::{AllocError, Global};
use std::collections::HashMap;

/// Where the classes of a partition stand in its table.
#[derive(Drop)]
pub struct ClassPlaces {
    /// The place of each node's class in the table, from 0.
    pub nodes: Vec<u32>,
    /// The first nodes of the own classes, in order.
    pub firsts: Vec<u32>,
}

/// The places of a partition's classes, in one pass over the nodes.
pub fn places_of<'a, G: TypeGraph<'a>>(
    alloc: Global,
    graph: &G,
    classes: &Classes,
) -> Result<ClassPlaces, AllocError>
    requires { length classes.now ≡ length (G.shape graph.now).nodes }
    ensures nodes { IfOk result (λ s. s.nodes.items
        ≡ map (place_of (G.shape graph.now) classes.now)
        (range_with_len 0 (length (G.shape graph.now).nodes))) }
    ensures firsts { IfOk result (λ s. s.firsts.items ≡
        own_firsts (G.shape graph.now) classes.now) }
{
    let count = graph.len();
    let mut known = HashMap::new(alloc);
    let mut nodes = Vec::with_capacity(alloc, count as usize)?;
    let mut firsts = Vec::new(alloc);
    for x in 0..count {
        nodes.push(class_place(graph, classes, x, &mut known, &mut firsts)?)?;
    }
    Ok(ClassPlaces { nodes, firsts })
}

/// The place of the class of a node. `known` has the places of the classes of the nodes before it,
/// by class number.
fn class_place<'a, G: TypeGraph<'a>>(
    graph: &G,
    classes: &Classes,
    x: u32,
    known: &mut HashMap<u32, u32>,
    firsts: &mut Vec<u32>,
) -> Result<u32, AllocError>
    requires covers { length classes.now ≡ length (G.shape graph.now).nodes }
    requires node { x < length (G.shape graph.now).nodes }
    requires before { IsPlaced (G.shape graph.now) classes.now x (get nat_eq known.old)
        firsts.old.items }
    ensures after { OnOk result
        (IsPlaced (G.shape graph.now) classes.now (x + 1) (get nat_eq known.new) firsts.new.items) }
    ensures place { IfOk result (λ place. place ≡ place_of (G.shape graph.now) classes.now x) }
{
    let number = classes.of(x);
    if let Some(place) = known.get(&number) {
        return Ok(*place);
    }
    let place = new_place(graph.base(), x, firsts)?;
    known.insert(number, place)?;
    Ok(place)
}

/// The place of a class whose first node is `x`.
fn new_place(base: u32, x: u32, firsts: &mut Vec<u32>) -> Result<u32, AllocError>
    requires { base ≤ x → base + length firsts.old.items ≤ x }
    ensures { IfOk result (λ place. TakesPlace base x firsts.old.items firsts.new.items place) }
{
    if x < base {
        return Ok(x);
    }
    let place = base + firsts.len() as u32;
    firsts.push(x)?;
    Ok(place)
}
