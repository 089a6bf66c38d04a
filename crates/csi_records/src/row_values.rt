//! The values of parts, written in the present version: of heads and of rows.
ghost use Rattle.std.specs.Prelude.{◌≡◌, ◌<◌, ◌++◌, Some, IfOk, OnOk};
ghost use Rattle.csi_types.specs.Public.Text.{IsNodeId};
ghost use Rattle.csi_node.specs.Model.OneRow.{node_row_shown};
ghost use Rattle.csi_records.specs.Public.Spelling.{present, volume_row, staged_bytes, volume_bytes, answered_bytes, controller_head, node_head};
ghost use Rattle.csi_records.specs.Public.Writing.{AreHeldFew, ArePublishedFew};
ghost use Rattle.csi_records.specs.Public.Records.{IsVolumeRow, IsStagedSo, IsAnsweredRow};
ghost use Rattle.csi_records.specs.Private.Writes.{Writes};

use crate::items::{Item, put_list};
use crate::version::PRESENT;
use crate::writing::put_kept;
use csi_controller::ControllerRow;
use csi_frames::{append_byte, append_text, append_word};
use csi_node::NodeRow;
use csi_types::{Capability, NoMemory, NodeId};
use std::alloc::Global;

fn put_staged(out: &mut Vec<u8>, from: &Option<Capability>) -> Result<(), NoMemory>
    ensures { Writes out.old.items out.new.items (staged_bytes from.now) (IsStagedSo present from.now) result }
{
    match from {
        None => append_byte(out, 0),
        Some(capability) => {
            append_byte(out, 1)?;
            capability.put(out)
        }
    }
}

/// The value of a controller's row, of at most 64 holdings, as a controller has it: a version, whether it is live, name, capacity,
/// capabilities, holdings, and the last call with its reply (this profile's own).
pub fn volume_value(alloc: Global, row: &ControllerRow) -> Result<Vec<u8>, NoMemory>
    requires { AreHeldFew row.now }
    ensures value { IfOk result (λ value. value.items ≡ volume_bytes present (volume_row row.now)) }
    ensures fits { IfOk result (λ value. IsVolumeRow present (volume_row row.now)) }
{
    let _id = row.id.number();
    let mut out = Vec::new(alloc);
    out.extend_from_slice(&[PRESENT.number(), if row.live { 1 } else { 2 }])?;
    append_text(&mut out, &row.name)?;
    append_word(&mut out, row.capacity)?;
    put_list(&mut out, row.capabilities.as_slice())?;
    put_list(&mut out, &row.holdings)?;
    put_kept(&mut out, row.last, row.kind, &row.reply)?;
    Ok(out)
}

/// The value of a row of a node's record: a version, how the volume is staged, its targets, and the last number with the reply that
/// was kept (this profile's own).
pub fn answered_value(alloc: Global, row: &NodeRow) -> Result<Vec<u8>, NoMemory>
    requires { ArePublishedFew row.now }
    ensures value { IfOk result (λ value. value.items ≡ answered_bytes present (node_row_shown row.now)) }
    ensures fits { IfOk result (λ value. IsAnsweredRow present (node_row_shown row.now)) }
{
    let _id = row.id.number();
    let mut out = Vec::new(alloc);
    append_byte(&mut out, PRESENT.number())?;
    put_staged(&mut out, &row.staged)?;
    put_list(&mut out, &row.targets)?;
    put_kept(&mut out, row.last, row.kind, &row.reply)?;
    Ok(out)
}

/// The value of the head of a controller's record: a version, the plugin, the next id and the greatest session that came (this
/// profile's own).
pub fn controller_head_value(alloc: Global, next_id: u64, session: u64) -> Result<Vec<u8>, NoMemory>
    ensures { IfOk result (λ value. value.items ≡ (controller_head present next_id (Some session)).value) }
{
    let mut out = Vec::new(alloc);
    out.extend_from_slice(&[PRESENT.number(), 0])?;
    append_word(&mut out, next_id)?;
    append_word(&mut out, session)?;
    Ok(out)
}

/// The value of the head of a node's record: a version, the plugin, the node's id and the greatest session that came (this profile's
/// own).
pub fn node_head_value(alloc: Global, node: &NodeId, session: u64) -> Result<Vec<u8>, NoMemory>
    ensures value { IfOk result (λ value. value.items ≡ (node_head present node.now (Some session)).value) }
    ensures fits { IfOk result (λ value. IsNodeId node.now) }
{
    let mut out = Vec::new(alloc);
    out.extend_from_slice(&[PRESENT.number(), 1])?;
    append_text(&mut out, node)?;
    append_word(&mut out, session)?;
    Ok(out)
}
