//! A node's record, read from its parts.
ghost use Rattle.std.specs.Prelude.{◌≡◌, ◌↔◌, IfOk, IfErr, IfSome, IsTrue, OnOk};
ghost use Rattle.std.specs.Option.{option_copied};
ghost use Rattle.csi_node.specs.Public.Judging.{IsRecordRefusal, KeepRules};
ghost use Rattle.csi_node.specs.Model.Record.{parts as rows_shown};
ghost use Rattle.csi_stores.specs.Public.Part.{all_stored_in};
ghost use Rattle.csi_records.specs.Public.Records.{node_layout, node_record_of, IsNodeOf, IsRecordOf};
ghost use Rattle.csi_records.specs.Public.Places.{ReadsParts};

use crate::answered::{NodeHead, head_of};
use crate::fault::{RecordStop, ValueStop};
use crate::plugin_rows::{ReadRows, rows_of};
use crate::version::RecordVersion;
use csi_fence::RecordFault;
use csi_node::{NodeRecord, NodeRow};
use csi_stores::Part;
use csi_types::NodeId;
use std::alloc::Global;

// Whether a head is that of the node that is asked for, if one is.
fn is_wanted(wanted: Option<&NodeId>, node: &NodeId) -> bool
    ensures { IsTrue result ↔ IfSome (option_copied wanted.entry) (λ id. node.now ≡ id) }
{
    match wanted {
        Some(id) => id == node,
        None => true,
    }
}

// The record of these rows under this head: with the head's session, or without one.
fn record_of(head: NodeHead, rows: Vec<NodeRow>) -> Result<NodeRecord, RecordFault>
    ensures made { IfOk result (λ made. made ≡ node_record_of head.id head.session rows.items) }
    ensures rules { OnOk result (KeepRules head.session (rows_shown rows.items)) }
    ensures refused { IfErr result (IsRecordRefusal head.session rows.items) }
{
    match head.session {
        Some(session) => NodeRecord::try_new(head.id, rows, session),
        None => NodeRecord::without_session(head.id, rows),
    }
}

/// The node's record of these parts, in this version, of the node that is asked for, if one is; or the first of them that is refused.
pub(crate) fn node_record(
    alloc: Global,
    version: RecordVersion,
    wanted: Option<&NodeId>,
    parts: &[Part],
) -> Result<NodeRecord, RecordStop>
    ensures { ReadsParts (IsRecordOf (node_layout version (option_copied wanted.entry))) (IsNodeOf version (option_copied wanted.entry))
        (all_stored_in parts.now) result }
{
    let [first, others @ ..] = parts else {
        return Err(RecordStop::BadRecord(0));
    };
    let head = match head_of(alloc, version, first) {
        Ok(head) => head,
        Err(ValueStop::Bad) => return Err(RecordStop::BadRecord(0)),
        Err(ValueStop::NoMemory) => return Err(RecordStop::NoMemory),
    };
    if !is_wanted(wanted, &head.id) {
        return Err(RecordStop::BadRecord(0));
    }
    let ReadRows { rows, all } = rows_of(alloc, version, others)?;
    let place = rows.len() as u64 + 1;
    match record_of(head, rows) {
        Ok(record) if all => Ok(record),
        Ok(_) => Err(RecordStop::BadRecord(place)),
        Err(RecordFault::BadRow(bad)) => Err(RecordStop::BadRecord(bad)),
        Err(RecordFault::NoMemory) => Err(RecordStop::NoMemory),
    }
}
