//! The order in which things are listed.
ghost use Rattle.std.specs.Prelude.{◌≡◌};
ghost use Rattle.std.specs.Option.{option_copied};
ghost use Rattle.csi_orchestrator.specs.Public.Listing.{node_of_thing, target_of_thing, kind_place, thing_order};

use crate::thing::{Known, Thing};
use std::cmp::Ordering;

// What things of one name are ordered by: the node, if there is one; the place of the kind among the four; and the target, if
// there is one.
#[derive(Clone, Copy)]
struct Place<'a> {
    node: Option<&'a str>,
    kind: u8,
    target: Option<&'a str>,
}

// A thing's place among those of its name.
fn place_of(thing: &Thing) -> Place<'_>
    ensures node { option_copied result.node ≡ node_of_thing thing.now }
    ensures kind { result.kind ≡ kind_place thing.now }
    ensures target { option_copied result.target ≡ target_of_thing thing.now }
{
    let (node, kind, target) = match thing {
        Thing::Exists { .. } => (None, 0, None),
        Thing::Attached { node, .. } => (Some(node.as_str()), 1, None),
        Thing::Staged { node, .. } => (Some(node.as_str()), 2, None),
        Thing::Published { node, target, .. } => (Some(node.as_str()), 3, Some(target.as_str())),
    };
    Place { node, kind, target }
}

impl Thing {
    /// Which of the two things comes first where they are listed, as by `Orchestrator::things`: by name; of one name by
    /// node, what has none first; of one node by kind (`Attached`, `Staged`, `Published`); of one kind by target; texts by
    /// their bytes. `Equal` is one thing. This profile's own.
    pub fn compare(&self, other: &Thing) -> Ordering
        ensures { result ≡ thing_order self.now other.now }
    {
        let names = self.name().as_str().cmp(other.name().as_str());
        let place = place_of(self);
        let there = place_of(other);
        let nodes = place.node.cmp(&there.node);
        let kinds = place.kind.cmp(&there.kind);
        let targets = place.target.cmp(&there.target);
        names.then(nodes.then(kinds.then(targets)))
    }
}

/// Which of the two comes first, by its thing.
pub(crate) fn compare_entries(a: &(Thing, Known), b: &(Thing, Known)) -> Ordering
    ensures { result ≡ thing_order a.now.0 b.now.0 }
{
    a.0.compare(&b.0)
}
