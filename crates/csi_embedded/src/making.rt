//! Plugins that are made: new ones, and those of a record.
ghost use Rattle.std.specs.Prelude.{◌≡◌, ◌∷◌, [], Ok, map, IfOk, IfErr};
ghost use Rattle.csi_json.specs.Public.Configs.{text_config};
ghost use Rattle.csi_stores.specs.Public.Part.{part_change, put_all};
ghost use Rattle.csi_embedded.specs.Public.Making.{IsNewController, IsNewNode, IsReadController, IsReadNode, EndsDone, Renews};
ghost use Rattle.csi_embedded.specs.Public.Making.{IsNoConfig, IsNoId, IsNoReadController, IsNoReadNode};
ghost use Rattle.csi_embedded.specs.Private.Making.{IsEndingOf};

use crate::embedded::Embedded;
use crate::ending::CallEnding;
use crate::plugin::HeldPlugin;
use crate::texts::id_of;
use csi_controller::ControllerRecord;
use csi_json::{ScheduleFault, read_config};
use csi_node::NodeRecord;
use csi_records::{
    Record, RecordStop, RecordVersion, Stored, controller_head_value, is_present, node_head_value,
    read_record,
};
use csi_service::{ControllerService, NodeService, Part};
use csi_types::{Config, NoMemory};
use std::alloc::Global;

/// The configuration that these bytes say.
pub(crate) fn config_of(alloc: Global, bytes: &[u8]) -> Result<Config, CallEnding>
    ensures made { IfOk result (λ config. text_config bytes.now ≡ Ok config) }
    ensures refused { IfErr result (IsNoConfig bytes.now) }
{
    let Ok(text) = str::from_utf8(bytes) else {
        return Err(CallEnding::BadName);
    };
    match read_config(alloc, text) {
        Ok(config) => Ok(config),
        Err(ScheduleFault::NoMemory) => Err(CallEnding::NoMemory),
        Err(_) => Err(CallEnding::BadName),
    }
}

// The head of a record, to be put in.
fn head_part(alloc: Global, value: Vec<u8>) -> Result<Vec<Part>, NoMemory>
    ensures { IfOk result (λ parts. map part_change parts.items ≡ put_all (record { key = 0; value = value.items } ∷ [])) }
{
    let mut parts = Vec::new(alloc);
    parts.push(Part {
        key: 0,
        value: Some(value),
    })?;
    Ok(parts)
}

// What a store has to be given of a record that was read in this version: nothing where that is the present one, else all its parts.
fn renewal<T: Record>(
    alloc: Global,
    kept: &T,
    version: RecordVersion,
) -> Result<(Vec<Part>, CallEnding), NoMemory>
    ensures { IfOk result (λ given. Renews version (T.parts_of kept.now) (map part_change given.0.items) given.1) }
{
    if is_present(version) {
        Ok((Vec::new(alloc), CallEnding::Done))
    } else {
        Ok((kept.to_parts(alloc)?, CallEnding::Renewed))
    }
}

/// How a call ends for which no record was read.
pub(crate) fn ending_of(stop: RecordStop) -> CallEnding
    ensures { IsEndingOf stop result }
{
    match stop {
        RecordStop::BadRecord(_) => CallEnding::BadRecord,
        RecordStop::NoMemory => CallEnding::NoMemory,
    }
}

/// The controller under the configuration that these bytes say, which has no volume. The store has to be given its record.
pub(crate) fn new_controller(
    alloc: Global,
    config: &[u8],
) -> Result<(Embedded, CallEnding), CallEnding>
    ensures made { IfOk result (λ made. IsNewController config.now made.0 × EndsDone made.1) }
    ensures refused { IfErr result (IsNoConfig config.now) }
{
    let config = config_of(alloc, config)?;
    let head = head_part(alloc, controller_head_value(alloc, 1, 0)?)?;
    let service = ControllerService::new(alloc, config);
    Ok((
        Embedded::new(alloc, HeldPlugin::Controller(service), head),
        CallEnding::Done,
    ))
}

/// The node of this id that joins with this session, which has no volume. The store has to be given its record.
pub(crate) fn new_node(
    alloc: Global,
    id: &[u8],
    session: u64,
) -> Result<(Embedded, CallEnding), CallEnding>
    ensures made { IfOk result (λ made. IsNewNode id.now session made.0 × EndsDone made.1) }
    ensures refused { IfErr result (IsNoId id.now) }
{
    let id = id_of(alloc, id)?;
    let head = head_part(alloc, node_head_value(alloc, &id, session)?)?;
    let service = NodeService::new(alloc, id, session)?;
    Ok((
        Embedded::new(alloc, HeldPlugin::Node(service), head),
        CallEnding::Done,
    ))
}

/// The controller of a record's bytes, in any version, under the configuration that these bytes say; and how that ends: `Done`, or
/// `Renewed` where the record was one of an earlier version, so that the store has to be given all its parts.
pub(crate) fn read_controller(
    alloc: Global,
    config: &[u8],
    bytes: &[u8],
) -> Result<(Embedded, CallEnding), CallEnding>
    ensures made { IfOk result (λ made. IsReadController config.now bytes.now made.0 made.1) }
    ensures refused { IfErr result (IsNoReadController config.now bytes.now) }
{
    let config = config_of(alloc, config)?;
    let Stored { kept, version } = match read_record::<ControllerRecord>(alloc, bytes) {
        Ok(stored) => stored,
        Err(stop) => return Err(ending_of(stop)),
    };
    let (changed, ending) = renewal(alloc, &kept, version)?;
    let service = ControllerService::from_record(alloc, config, kept)?;
    Ok((
        Embedded::new(alloc, HeldPlugin::Controller(service), changed),
        ending,
    ))
}

/// The node of this id, which joined with this session, of a record's bytes, in any version; and how that ends, as `read_controller` says.
/// A record of an earlier session is refused, in an earlier version by the greatest of its last calls.
pub(crate) fn read_node(
    alloc: Global,
    id: &[u8],
    session: u64,
    bytes: &[u8],
) -> Result<(Embedded, CallEnding), CallEnding>
    ensures made { IfOk result (λ made. IsReadNode id.now session bytes.now made.0 made.1) }
    ensures refused { IfErr result (IsNoReadNode id.now session bytes.now) }
{
    let id = id_of(alloc, id)?;
    let Stored { kept, version } = match read_record::<NodeRecord>(alloc, bytes) {
        Ok(stored) => stored,
        Err(stop) => return Err(ending_of(stop)),
    };
    if *kept.id() != id {
        return Err(CallEnding::BadRecord);
    }
    if kept.session() < session {
        return Err(CallEnding::EarlierSession);
    }
    let (changed, ending) = renewal(alloc, &kept, version)?;
    let service = NodeService::from_record(alloc, kept)?;
    Ok((
        Embedded::new(alloc, HeldPlugin::Node(service), changed),
        ending,
    ))
}
