//! The order in which a report lists things.
ghost use Rattle.std.specs.Prelude.{◌≡◌, List, ℕ};
ghost use Rattle.csi_reports.specs.Public.Order.{attached_place, staged_place, published_place, place_order, IsInPlace};

use crate::entries::{PublishedAt, StagedAt};
use csi_types::{Holding, Mode, NodeId, VolumeId};
use std::cmp::Ordering;

/// What has a place in a report's lists.
pub trait Placed {
    ghost place: { Self → List (List ℕ) };

    /// Which of the two comes first.
    fn compare(&self, other: &Self) -> Ordering
        ensures { result ≡ place_order (place self.now) (place other.now) };
}

impl Placed for NodeId {
    ghost use Rattle.csi_reports.specs.Public.ByName.{name_place};

    ghost place = { name_place };

    #[tactic(auto, using(crate::proofs::Places::name_places))]
    fn compare(&self, other: &NodeId) -> Ordering {
        self.as_str().cmp(other.as_str())
    }
}

impl Placed for Holding {
    ghost place = { attached_place };

    #[tactic(auto, using(crate::proofs::Places::attached_places))]
    fn compare(&self, other: &Holding) -> Ordering {
        let ids = self.volume.number().cmp(&other.volume.number());
        let nodes = self.node.as_str().cmp(other.node.as_str());
        let mode = self.capability.mode.number();
        let modes = mode.cmp(&other.capability.mode.number());
        let flags = self.readonly.cmp(&other.readonly);
        ids.then(nodes.then(modes.then(flags)))
    }
}

impl Placed for StagedAt {
    ghost place = { staged_place };

    #[tactic(auto, using(crate::proofs::Places::staged_places))]
    fn compare(&self, other: &StagedAt) -> Ordering {
        let ids = self.id.number().cmp(&other.id.number());
        let nodes = self.node.as_str().cmp(other.node.as_str());
        let modes = self.mode.number().cmp(&other.mode.number());
        ids.then(nodes.then(modes))
    }
}

impl Placed for PublishedAt {
    ghost place = { published_place };

    #[tactic(auto, using(crate::proofs::Places::published_places))]
    fn compare(&self, other: &PublishedAt) -> Ordering {
        let ids = self.id.number().cmp(&other.id.number());
        let nodes = self.node.as_str().cmp(other.node.as_str());
        let targets = self.target.as_str().cmp(other.target.as_str());
        let flags = self.readonly.cmp(&other.readonly);
        ids.then(nodes.then(targets.then(flags)))
    }
}

/// Puts things in their places.
pub fn put_in_place<T: Placed>(items: &mut Vec<T>)
    ensures { IsInPlace T.place items.old.items items.new.items }
{
    items.sort_unstable_by(|a, b| a.compare(b));
}
