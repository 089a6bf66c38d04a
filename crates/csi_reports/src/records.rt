//! What plugins' records have, each thing with its value in JSON.
ghost use Rattle.std.specs.Prelude.{◌≡◌, ◌++◌, IfOk, OnOk, string_bytes};
ghost use Rattle.json.specs.Tree.{json_tokens};
ghost use Rattle.serde_json.specs.Written.{outline, compact_text};
ghost use Rattle.csi_reports.specs.Public.Records.{controller_entry, node_entry, number_entry, staged_as};

use crate::entries::Entry;
use crate::members::put_array;
use crate::writer::JsonWriter;
use csi_controller::{ControllerRecord, ControllerRow, NodeHolding};
use csi_node::{NodeRecord, NodeRow, NodeTarget};
use csi_types::{Access, Capability, Number};
use std::alloc::{AllocError, Global};

impl Entry for Capability {
    ghost use Rattle.csi_reports.specs.Public.Records.{capability_entry};

    ghost entry = { capability_entry };

    fn write(&self, out: &mut JsonWriter) -> Result<(), AllocError> {
        let mode = self.mode.number() as u64;
        match &self.access {
            Access::Block => {
                out.begin_object()?;
                out.put_text("access", "block")?;
                out.put_number("mode", mode)?;
                out.end_object()
            }
            Access::Mount(fs) => {
                out.begin_object()?;
                out.put_text("access", "mount")?;
                out.put_text("fs", fs.as_str())?;
                out.put_number("mode", mode)?;
                out.end_object()
            }
        }
    }
}

// Writes the number of a call.
fn write_number(out: &mut JsonWriter, last: Number) -> Result<(), AllocError>
    ensures { OnOk result (out.new ≡ out.old ++ json_tokens (outline (number_entry last))) }
{
    out.begin_object()?;
    out.put_number("call", last.call)?;
    out.put_number("session", last.session)?;
    out.end_object()
}

impl Entry for NodeHolding {
    ghost use Rattle.csi_reports.specs.Public.Records.{holding_entry};

    ghost entry = { holding_entry };

    fn write(&self, out: &mut JsonWriter) -> Result<(), AllocError> {
        out.begin_object()?;
        out.key("capability")?;
        self.capability.write(out)?;
        out.put_text("node", self.node.as_str())?;
        out.put_flag("readonly", self.readonly)?;
        out.end_object()
    }
}

impl Entry for ControllerRow {
    ghost use Rattle.csi_reports.specs.Public.Records.{made_entry};

    ghost entry = { made_entry };

    fn write(&self, out: &mut JsonWriter) -> Result<(), AllocError> {
        out.begin_object()?;
        put_array(out, "attached", &self.holdings)?;
        put_array(out, "capabilities", self.capabilities.as_slice())?;
        out.put_number("capacity", self.capacity)?;
        out.put_number("id", self.id.number())?;
        out.key("last")?;
        write_number(out, self.last)?;
        out.put_flag("live", self.live)?;
        out.put_text("name", self.name.as_str())?;
        out.end_object()
    }
}

impl Entry for ControllerRecord {
    ghost use Rattle.csi_reports.specs.Public.Records.{controller_entry};

    ghost entry = { controller_entry };

    fn write(&self, out: &mut JsonWriter) -> Result<(), AllocError> {
        out.begin_object()?;
        out.put_number("next_id", self.next_id())?;
        out.put_text("plugin", "controller")?;
        out.put_number("session", self.session())?;
        put_array(out, "volumes", self.rows())?;
        out.end_object()
    }
}

impl Entry for NodeTarget {
    ghost use Rattle.csi_reports.specs.Public.Records.{target_entry};

    ghost entry = { target_entry };

    fn write(&self, out: &mut JsonWriter) -> Result<(), AllocError> {
        out.begin_object()?;
        out.put_flag("readonly", self.readonly)?;
        out.put_text("target", self.target.as_str())?;
        out.end_object()
    }
}

// Writes how a volume is staged, if it is.
fn write_staged(out: &mut JsonWriter, staged: &Option<Capability>) -> Result<(), AllocError>
    ensures { OnOk result (out.new ≡ out.old ++ json_tokens (outline (staged_as staged.now))) }
{
    match staged {
        Some(capability) => capability.write(out),
        None => out.null(),
    }
}

impl Entry for NodeRow {
    ghost use Rattle.csi_reports.specs.Public.Records.{answered_entry};

    ghost entry = { answered_entry };

    fn write(&self, out: &mut JsonWriter) -> Result<(), AllocError> {
        out.begin_object()?;
        out.put_number("id", self.id.number())?;
        out.key("last")?;
        write_number(out, self.last)?;
        put_array(out, "published", &self.targets)?;
        out.key("staged")?;
        write_staged(out, &self.staged)?;
        out.end_object()
    }
}

impl Entry for NodeRecord {
    ghost use Rattle.csi_reports.specs.Public.Records.{node_entry};

    ghost entry = { node_entry };

    fn write(&self, out: &mut JsonWriter) -> Result<(), AllocError> {
        out.begin_object()?;
        out.put_text("node", self.id().as_str())?;
        out.put_text("plugin", "node")?;
        out.put_number("session", self.session())?;
        put_array(out, "volumes", self.rows())?;
        out.end_object()
    }
}

/// A controller's record as one line of JSON in compact form, without its newline: whose it is (`plugin`), the next id (`next_id`),
/// and the volumes that were made, by rising id (`volumes`). An `Err` is an allocation that was refused. This profile's own.
pub fn controller_line(alloc: Global, kept: &ControllerRecord) -> Result<String, AllocError>
    ensures { IfOk result (λ text. string_bytes text ≡ compact_text (controller_entry kept.now)) }
{
    let mut out = JsonWriter::new(alloc);
    kept.write(&mut out)?;
    Ok(out.into_string())
}

/// A node's record so: whose it is (`plugin`, and the node's id, `node`), and the volumes for which it answered a call, by rising id
/// (`volumes`).
pub fn node_line(alloc: Global, kept: &NodeRecord) -> Result<String, AllocError>
    ensures { IfOk result (λ text. string_bytes text ≡ compact_text (node_entry kept.now)) }
{
    let mut out = JsonWriter::new(alloc);
    kept.write(&mut out)?;
    Ok(out.into_string())
}
