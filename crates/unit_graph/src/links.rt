//! Linking: what the targets of a node refer to.
ghost use Rattle.std.specs.Prelude.{◌≡◌, ◌<◌, ◌^◌, [], List, length, IfOk};
ghost use Rattle.unit_graph.specs.Sources.{Source};
ghost use Rattle.unit_graph.specs.Links.{number_of, ref_of, refs_from, seen};
ghost use Rattle.unit_graph.specs.Numbers.{Numbers};

use crate::places::NodePlaces;
use c_model::Ref;
use c_types::Target;
use std::alloc::{AllocError, Global};

/// A reference that names no node: where an entry of a type would have to begin, none does.
#[derive(Clone, Copy, PartialEq, Eq)]
pub struct Out {
    /// The number of the file.
    pub file: u32,
    /// The offset of the entry that refers, in `.debug_info`.
    pub from: u64,
    /// The offset that it refers to, in the same section of the file.
    pub to: u128,
}

/// The number of the node whose entry begins at an offset of a file. One that passes 64 bits is no
/// place.
fn find(places: &NodePlaces, file: u32, to: u128) -> Option<u32>
    ensures { (all : List Source) → Numbers places.now all → result ≡ number_of all file to }
{
    if to < 18_446_744_073_709_551_616 {
        places.find(file, to as u64)
    } else {
        None
    }
}

/// What a target of a node refers to, among so many nodes.
fn link(places: &NodePlaces, count: u64, file: u32, index: u64, target: &Target) -> Result<Ref, Out>
    requires { count < 2 ^ 32 }
    ensures { (all : List Source) → Numbers places.now all → length all ≡ count
        → result ≡ ref_of all file index target.now }
{
    match *target {
        Target::Void => Ok(Ref::Void),
        Target::Index => {
            if index < count {
                Ok(Ref::Node(index as u32))
            } else {
                Ok(Ref::Void)
            }
        }
        Target::Entry { from, to } => match find(places, file, to) {
            Some(number) => Ok(Ref::Node(number)),
            None => Err(Out { file, from, to }),
        },
    }
}

/// The references of a node of a file with these targets, or the first that names no node. The
/// places are those of `count` nodes; `index` is the number of the node that is the type of the
/// indices of its unit's arrays.
pub fn link_targets(
    alloc: Global,
    places: &NodePlaces,
    count: u64,
    file: u32,
    index: u64,
    targets: &[Target],
) -> Result<Result<Vec<Ref>, Out>, AllocError>
    requires { count < 2 ^ 32 }
    ensures { IfOk result (λ r. (all : List Source) → Numbers places.now all → length all ≡ count
        → seen r ≡ refs_from all file index [] targets.now) }
{
    let mut refs = Vec::with_capacity(alloc, targets.len())?;
    for i in 0..targets.len() {
        match link(places, count, file, index, &targets[i]) {
            Ok(found) => refs.push(found)?,
            Err(out) => return Ok(Err(out)),
        }
    }
    Ok(Ok(refs))
}
