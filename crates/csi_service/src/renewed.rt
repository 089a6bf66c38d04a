//! What a store of any version is given, so that it has its record in the present one, and a session is raised in it.
ghost use Rattle.std.specs.Prelude.{◌≡◌, List, map, IfOk, IfErr};
ghost use Rattle.csi_stores.specs.Public.Content.{all_changed};
ghost use Rattle.csi_stores.specs.Public.Part.{StoredPart, all_stored_in, part_change};
ghost use Rattle.csi_service.specs.Public.Opening.{controller_records};
ghost use Rattle.csi_service.specs.Public.Plugins.{service_parts};
ghost use Rattle.csi_service.specs.Public.Renewed.{any_node_records, IsReadAs, IsUnread, IsRaisedAs};

use crate::opening::renewal;
use crate::plugin::Plugin;
use crate::plugin_service::PluginService;
use csi_controller::ControllerRecord;
use csi_node::NodeRecord;
use csi_records::{Record, RecordStop, Stored};
use csi_stores::Part;
use csi_types::NoMemory;
use std::alloc::Global;

/// A record that was read of the parts of a store, and what the store has to be given so that it has that record in the present version:
/// nothing where it has it. This profile's own.
#[derive(Drop)]
pub struct Renewed<T> {
    pub kept: T,
    pub renewal: Vec<Part>,
}

/// The controller's record that these parts are, in any version, or the first of them that is refused. This profile's own.
pub fn renewed_controller(
    alloc: Global,
    parts: &[Part],
) -> Result<Renewed<ControllerRecord>, RecordStop>
    ensures read { IfOk result (λ read. IsReadAs controller_records (all_stored_in parts.now) read.kept (map part_change read.renewal.items)) }
    ensures refused { IfErr result (IsUnread controller_records (all_stored_in parts.now)) }
{
    match ControllerRecord::of_parts(alloc, parts) {
        Ok(Stored { kept, version }) => {
            let renewal = renewal(alloc, version, parts, &kept)?;
            Ok(Renewed { kept, renewal })
        }
        Err(stop) => Err(stop),
    }
}

/// The record of a node, whichever it is, that these parts are, likewise. This profile's own.
pub fn renewed_node(alloc: Global, parts: &[Part]) -> Result<Renewed<NodeRecord>, RecordStop>
    ensures read { IfOk result (λ read. IsReadAs any_node_records (all_stored_in parts.now) read.kept (map part_change read.renewal.items)) }
    ensures refused { IfErr result (IsUnread any_node_records (all_stored_in parts.now)) }
{
    match NodeRecord::of_parts(alloc, parts) {
        Ok(Stored { kept, version }) => {
            let renewal = renewal(alloc, version, parts, &kept)?;
            Ok(Renewed { kept, renewal })
        }
        Err(stop) => Err(stop),
    }
}

/// What a store that becomes a plugin's record by this renewal has to be given so that the session is raised in it, and that it is in the
/// present version: one commit of it does both. A refusal is one of memory. This profile's own.
pub fn parts_raising<P: Plugin>(
    service: PluginService<P>,
    renewal: Vec<Part>,
    session: u64,
) -> Result<Vec<Part>, NoMemory>
    ensures { (found : List StoredPart) → all_changed (map part_change renewal.items) found ≡ service_parts P.view service →
        IfOk result (λ parts. IsRaisedAs P.view session service.plugin (all_changed (map part_change parts.items) found)) }
{
    let mut raised = service;
    let mut changes = renewal;
    let mut parts = raised.raise(session)?;
    changes.append(&mut parts)?;
    Ok(changes)
}
