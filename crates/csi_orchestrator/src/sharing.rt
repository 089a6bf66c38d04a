//! Whether a use can be beside what a volume is used for already.
ghost use Rattle.std.specs.Prelude.{◌≡◌, Some, map, count_by, not, ◌&&◌};
ghost use Rattle.std.specs.List.{list_any};
ghost use Rattle.csi_types.specs.Model.Same.{same_text};
ghost use Rattle.csi_orchestrator.specs.Model.Thing.{is_no};
ghost use Rattle.csi_orchestrator.specs.Model.Commands.{is_for_one_node as is_one_node, uses_as_second_writer};
ghost use Rattle.csi_orchestrator.specs.Public.Shown.{node_entry_shown};
ghost use Rattle.csi_orchestrator.specs.Public.RowRefusals.{is_so_elsewhere};
ghost use Rattle.csi_orchestrator.specs.Private.RowRefusals.{is_entry_otherwise};

use crate::request::Usage;
use crate::row::NodeEntry;
use csi_types::{NodeId, same_way, single_node, two_writers};

/// Whether the node is one of these.
pub(crate) fn has_node(nodes: &[NodeId], node: &NodeId) -> bool
    ensures { result ≡ list_any (same_text node.now) nodes.now }
{
    for own in nodes {
        if *node == *own {
            return true;
        }
    }
    false
}

// Whether the entry is of another node, and the volume may be attached there.
fn is_elsewhere(node: &NodeId, entry: &NodeEntry) -> bool
    ensures { result ≡ (not (same_text entry.now.node node.now) && not (is_no entry.now.attached)) }
{
    entry.node != *node && !entry.attached.is_no()
}

// Whether it may be attached at this other node, and one of the two modes is for one node.
fn excludes(usage: &Usage, entry: &NodeEntry) -> bool
    ensures { result ≡ is_so_elsewhere (is_one_node usage.now) usage.now.node (node_entry_shown entry.now) }
{
    is_elsewhere(&usage.node, entry)
        && (single_node(entry.capability.mode) || single_node(usage.capability.mode))
}

/// Whether one of these entries is of another node, at which the volume may be attached, and one of the two modes is for one
/// node.
pub(crate) fn is_held_elsewhere(entries: &[NodeEntry], usage: &Usage) -> bool
    ensures { result ≡ list_any (is_so_elsewhere (is_one_node usage.now) usage.now.node) (map node_entry_shown entries.now) }
{
    for entry in entries {
        if excludes(usage, entry) {
            return true;
        }
    }
    false
}

// Whether it may be attached at this other node, and the use would be a second writer.
fn writes_beside(usage: &Usage, entry: &NodeEntry) -> bool
    ensures { result ≡ is_so_elsewhere (uses_as_second_writer usage.now) usage.now.node (node_entry_shown entry.now) }
{
    is_elsewhere(&usage.node, entry)
        && two_writers(
            entry.capability.mode,
            entry.readonly,
            usage.capability.mode,
            usage.readonly,
        )
}

/// Whether one of these entries is of another node, at which the volume may be attached, both write, and one of the two modes
/// has a single writer.
pub(crate) fn is_written_elsewhere(entries: &[NodeEntry], usage: &Usage) -> bool
    ensures { result ≡ list_any (is_so_elsewhere (uses_as_second_writer usage.now) usage.now.node) (map node_entry_shown entries.now) }
{
    for entry in entries {
        if writes_beside(usage, entry) {
            return true;
        }
    }
    false
}

/// At how many of these entries' nodes, other than this one, the volume may be attached.
pub(crate) fn others_attached(entries: &[NodeEntry], node: &NodeId) -> usize
    ensures { result ≡ count_by (λ entry. not (same_text entry.node node.now) && not (is_no entry.attached)) (map node_entry_shown entries.now) }
{
    let mut count = 0;
    for entry in entries {
        if is_elsewhere(node, entry) {
            count += 1;
        }
    }
    count
}

/// Whether the volume may be attached by this entry with another capability or flag than the use has.
pub(crate) fn is_held_otherwise(entry: &NodeEntry, usage: &Usage) -> bool
    ensures { result ≡ is_entry_otherwise usage.now (Some (node_entry_shown entry.now)) }
{
    !entry.attached.is_no()
        && !same_way(
            entry.capability.lend(),
            entry.readonly,
            usage.capability.lend(),
            usage.readonly,
        )
}

/// Whether the volume may be attached at the node of one of these entries.
pub(crate) fn is_attached_somewhere(entries: &[NodeEntry]) -> bool
    ensures { result ≡ list_any (λ entry. not (is_no entry.attached)) (map node_entry_shown entries.now) }
{
    for entry in entries {
        if !entry.attached.is_no() {
            return true;
        }
    }
    false
}
