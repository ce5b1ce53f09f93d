//! Lists whose memory is used again: those of a type are free once it is complete.
ghost use Rattle.std.specs.Prelude.{◌≡◌, []};

use crate::open::Member;
use c_model::Part;
use std::alloc::Global;
use type_attributes::source::Target;

/// Lists that no type is gathered in at present. A type that begins takes its lists from here and
/// gives them back at its end, so there are never more than types are open at one time.
#[derive(Drop)]
pub struct Spare<'a> {
    members: Vec<Vec<Member<'a>>>,
    parts: Vec<Vec<Part<'a>>>,
    targets: Vec<Vec<Target>>,
}

/// A list without items: one of these, where there is one.
fn empty_list<X: Drop>(alloc: Global, lists: &mut Vec<Vec<X>>) -> Vec<X>
    ensures { result.items ≡ [] }
{
    match lists.pop() {
        None => Vec::new(alloc),
        Some(list) => {
            let mut list = list;
            list.clear();
            list
        }
    }
}

impl<'a> Spare<'a> {
    /// No lists.
    pub fn new(alloc: Global) -> Spare<'a> {
        Spare {
            members: Vec::new(alloc),
            parts: Vec::new(alloc),
            targets: Vec::new(alloc),
        }
    }

    /// An empty list for members.
    pub(crate) fn members(&mut self, alloc: Global) -> Vec<Member<'a>>
        ensures { result.items ≡ [] }
    {
        empty_list(alloc, &mut self.members)
    }

    /// An empty list for parts.
    pub(crate) fn parts(&mut self, alloc: Global) -> Vec<Part<'a>>
        ensures { result.items ≡ [] }
    {
        empty_list(alloc, &mut self.parts)
    }

    /// An empty list for targets.
    pub(crate) fn targets(&mut self, alloc: Global) -> Vec<Target>
        ensures { result.items ≡ [] }
    {
        empty_list(alloc, &mut self.targets)
    }

    /// Keeps the lists of a structure. Where memory is wanting, they are let go.
    pub(crate) fn keep_members(&mut self, members: Vec<Member<'a>>, targets: Vec<Target>) {
        let _ = self.members.push(members);
        let _ = self.targets.push(targets);
    }

    /// Keeps the list of an enumeration or a subroutine type. Where memory is wanting, it is let
    /// go.
    pub(crate) fn keep_parts(&mut self, parts: Vec<Part<'a>>) {
        let _ = self.parts.push(parts);
    }

    /// Keeps the list of the targets of a subroutine type. Where memory is wanting, it is let go.
    pub(crate) fn keep_targets(&mut self, targets: Vec<Target>) {
        let _ = self.targets.push(targets);
    }
}
