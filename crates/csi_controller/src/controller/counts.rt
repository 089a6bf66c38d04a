//! How many volumes are held at each configured node.
ghost use Rattle.std.specs.Prelude.{◌≡◌, ◌≤◌, false, length, map, count_by, Some};
ghost use Rattle.csi_types.specs.Public.Config.{has_same_node};
ghost use Rattle.csi_controller.specs.Public.Counts.{place_of, is_held, AreCounted};
ghost use Rattle.csi_controller.specs.Private.Counts.{recounted};
ghost use Rattle.csi_controller.specs.Public.OneRow.{row_shown};

use super::holdings::is_held_at;
use crate::row::ControllerRow;
use csi_types::{Config, NodeSlots};

/// The most nodes that are configured.
pub const MAX_NODES: usize = 64;

/// Where the node is configured.
pub fn place_of_node(nodes: &[NodeSlots], node: &str) -> Option<usize>
    ensures { result ≡ place_of node.now nodes.now }
{
    nodes.iter().position(|entry| entry.id.as_str() == node)
}

// How many volumes are held at the node.
fn count_in(rows: &[ControllerRow], node: &str) -> usize
    ensures { result ≡ count_by (λ row. is_held node.now (row_shown row)) rows.now }
{
    let mut count = 0;
    for row in rows {
        if is_held_at(row, node) {
            count += 1;
        }
    }
    count
}

/// The count of each of these nodes.
pub fn counted(nodes: &[NodeSlots], rows: &[ControllerRow]) -> [u64; MAX_NODES]
    requires few { length nodes.now ≤ 64 }
    requires distinct { has_same_node nodes.now ≡ false }
    ensures { AreCounted nodes.now (map row_shown rows.now) result }
{
    let mut counts = [0; MAX_NODES];
    for (place, entry) in nodes.iter().enumerate() {
        counts[place] = count_in(rows, entry.id.as_str()) as u64;
    }
    counts
}

/// Counts a volume that came to be held at a node, or ceased to be.
pub fn recount(counts: &mut [u64; MAX_NODES], config: &Config, node: &str, is_held: bool)
    ensures { counts.new ≡ recounted config.now.nodes (Some (node.now, is_held)) counts.old }
{
    config.fit_law();
    let nodes = config.nodes();
    if let Some(place) = place_of_node(nodes, node) {
        let count = counts[place];
        counts[place] = if is_held {
            count.wrapping_add(1)
        } else {
            count.wrapping_sub(1)
        };
    }
}
