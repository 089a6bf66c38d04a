//! Where the records have a volume.
ghost use Rattle.std.specs.Prelude.{◌≡◌, ◌<◌, ◌==◌, find, position};
ghost use Rattle.std.specs.Option.{option_copied};
ghost use Rattle.csi_types.specs.Model.Members.{EachTwo};
ghost use Rattle.csi_types.specs.Model.Same.{same_text};
ghost use Rattle.csi_controller.specs.declared.row.ControllerRow.{ControllerRow as OneRow};
ghost use Rattle.csi_controller.specs.Public.Core.{AreRisingRows};
ghost use Rattle.csi_node.specs.declared.row.NodeRow.{NodeRow as OneNodeRow};
ghost use Rattle.csi_node.specs.Model.Shown.{row_in};
ghost use Rattle.csi_recovery.specs.Private.Walks.{held_in, row_at as node_row_at, targets_at as staged_targets_at};

use csi_controller::{ControllerRow, NodeHolding};
use csi_node::{NodeRecord, NodeRow, NodeTarget};
use csi_types::{NodeId, VolumeId};

// Where the controller's row of this volume stands.
fn place_of_volume(rows: &[ControllerRow], id: VolumeId) -> Option<usize>
    requires { EachTwo (λ (a b : OneRow). a.id < b.id) rows.now }
    ensures { result ≡ position (λ row. row.id == id) rows.now }
{
    rows.binary_search_by_key(&id.number(), |row| row.id.number())
        .ok()
}

// Where a node's row of this volume stands.
fn place_of_row(rows: &[NodeRow], id: VolumeId) -> Option<usize>
    requires { EachTwo (λ (a b : OneNodeRow). a.id < b.id) rows.now }
    ensures { result ≡ position (λ row. row.id == id) rows.now }
{
    rows.binary_search_by_key(&id.number(), |row| row.id.number())
        .ok()
}

// The controller's row of this volume.
fn volume_row(rows: &[ControllerRow], id: VolumeId) -> Option<&ControllerRow>
    requires { AreRisingRows rows.now }
    ensures { option_copied result ≡ find (λ row. row.id == id) rows.now }
{
    match place_of_volume(rows, id) {
        Some(place) => Some(&rows[place]),
        None => None,
    }
}

// A node's row of this volume.
fn node_row(kept: &NodeRecord, id: VolumeId) -> Option<&NodeRow>
    ensures { option_copied result ≡ row_in id kept.now.rows }
{
    let rows = kept.rows();
    match place_of_row(rows, id) {
        Some(place) => Some(&rows[place]),
        None => None,
    }
}

// How the volume of this row is held at the node, if it is.
fn held_by_row<'a>(row: &'a ControllerRow, node: &NodeId) -> Option<&'a NodeHolding>
    ensures { option_copied result ≡ find (λ held. same_text held.node node.now) row.now.holdings.items }
{
    row.holdings
        .iter()
        .find(|held| held.node.as_str() == node.as_str())
}

/// How the volume is held at the node, if it is.
pub(crate) fn held_at<'a>(
    rows: &'a [ControllerRow],
    id: VolumeId,
    node: &NodeId,
) -> Option<&'a NodeHolding>
    requires { AreRisingRows rows.now }
    ensures { option_copied result ≡ held_in rows.now id node.now }
{
    match volume_row(rows, id) {
        Some(row) => held_by_row(row, node),
        None => None,
    }
}

// The record of the node, if it was given.
fn record_of<'a>(given: &'a [NodeRecord], node: &NodeId) -> Option<&'a NodeRecord>
    ensures { option_copied result ≡ find (λ kept. same_text kept.id node.now) given.now }
{
    given
        .iter()
        .find(|kept| kept.id().as_str() == node.as_str())
}

// The node's row of the volume, if its record was given and has one.
fn row_at<'a>(given: &'a [NodeRecord], node: &NodeId, id: VolumeId) -> Option<&'a NodeRow>
    ensures { option_copied result ≡ node_row_at given.now node.now id }
{
    match record_of(given, node) {
        Some(kept) => node_row(kept, id),
        None => None,
    }
}

/// The targets of the volume at the node, if it is known to be staged there.
pub(crate) fn targets_at<'a>(
    given: &'a [NodeRecord],
    node: &NodeId,
    id: VolumeId,
) -> Option<&'a [NodeTarget]>
    ensures { option_copied result ≡ staged_targets_at given.now node.now id }
{
    match row_at(given, node, id) {
        Some(row) => match row.staged {
            Some(_) => Some(row.targets.as_slice()),
            None => None,
        },
        None => None,
    }
}
