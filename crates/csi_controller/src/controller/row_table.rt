//! The controller's table, for the row of a call's volume.
ghost use Rattle.std.specs.Prelude.{Some, None, map, if◌then◌else◌};
ghost use Rattle.csi_types.specs.declared.call.Kind.TheVariants.{DeleteVolume, ControllerPublishVolume, ControllerUnpublishVolume};
ghost use Rattle.csi_controller.specs.Model.State.{holding_at};
ghost use Rattle.csi_controller.specs.Model.Table.{Attaches, Detaches, Ends, delete, publish, unpublish};
ghost use Rattle.csi_controller.specs.Model.Shown.{volume_of_row};
ghost use Rattle.csi_controller.specs.Public.Core.{volume_holding};
ghost use Rattle.csi_controller.specs.Private.Counts.{is_node_full};
ghost use Rattle.csi_controller.specs.Public.OneRow.{row_shown, state_shown};
ghost use Rattle.csi_controller.specs.Private.OneRow.{IsLine, held_so};

use super::counts::{MAX_NODES, place_of_node};
use super::holdings::{MAX_HOLDINGS, excluding, held_at, is_held_so};
use crate::row::ControllerRow;
use csi_fence::Line;
use csi_types::{Config, NodeUse, Status, has_capability};

/// DeleteVolume of this row's volume.
pub fn delete_line(row: &ControllerRow) -> Line<'_>
    ensures { IsLine DeleteVolume (Ends row.now.id) (delete row.now.id (map (volume_holding row.now.id) row.now.holdings.items)
        (if row.now.live then Some (volume_of_row row.now) else None)) result }
{
    if !row.live {
        return Line::Met(None);
    }
    match row.holdings.first() {
        Some(held) => Line::Refused(Status::FailedPrecondition, held.node.as_str()),
        None => Line::Done,
    }
}

/// ControllerPublishVolume of this row's volume, by how many volumes are held at each node of the configuration.
pub fn publish_line<'a>(
    row: &'a ControllerRow,
    config: &Config,
    counts: &[u64; MAX_NODES],
    wanted: NodeUse,
) -> Line<'a>
    ensures { IsLine ControllerPublishVolume (Attaches (volume_holding row.now.id (held_so wanted.entry)))
        (publish (record { greatest = 0; nodes = config.now.nodes }) (is_node_full config.now.nodes counts.now wanted.entry.node.now)
        (state_shown (row_shown row.now)) (volume_holding row.now.id (held_so wanted.entry))
        (if row.now.live then Some (volume_of_row row.now) else None)) result }
{
    if !row.live {
        return Line::Refused(Status::NotFound, "volume");
    }
    config.fit_law();
    let nodes = config.nodes();
    let Some(place) = place_of_node(nodes, wanted.node) else {
        return Line::Refused(Status::NotFound, "node");
    };
    let entry = &nodes[place];
    if !has_capability(row.capabilities.as_slice(), wanted.capability) {
        return Line::Refused(Status::InvalidArgument, "capability");
    }
    if let Some(held) = held_at(row, wanted.node) {
        if is_held_so(held, wanted) {
            return Line::Met(None);
        }
        return Line::Refused(Status::AlreadyExists, "held otherwise");
    }
    if let Some(other) = excluding(row, wanted) {
        return Line::Refused(Status::FailedPrecondition, other.node.as_str());
    }
    if entry.slots <= counts[place] || row.holdings.len() >= MAX_HOLDINGS {
        return Line::Refused(Status::ResourceExhausted, "slots");
    }
    Line::Done
}

/// ControllerUnpublishVolume of this row's volume.
pub fn unpublish_line(row: &ControllerRow, node: &str) -> Line<'static>
    ensures { IsLine ControllerUnpublishVolume (Detaches row.now.id node.now)
        (unpublish row.now.id node.now (holding_at row.now.id node.now (state_shown (row_shown row.now)))) result }
{
    match held_at(row, node) {
        Some(_) => Line::Done,
        None => Line::Met(None),
    }
}
