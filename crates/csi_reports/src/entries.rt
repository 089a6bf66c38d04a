//! The things that a report lists, each with its value in JSON and its place in the order.
ghost use Rattle.std.specs.Prelude.{◌≡◌, ◌++◌, OnOk, List, ℕ};
ghost use Rattle.std.specs.List.{flat_map};
ghost use Rattle.json.specs.Tree.{json_tokens};
ghost use Rattle.serde_json.specs.Data.{Data};
ghost use Rattle.serde_json.specs.Written.{outline};

use crate::writer::JsonWriter;
use csi_types::{Holding, Mode, NodeId, Target, VolumeId};
use std::alloc::AllocError;

/// A volume that is staged at a node, and in which mode.
#[derive(Drop)]
pub struct StagedAt {
    pub id: VolumeId,
    pub node: NodeId,
    pub mode: Mode,
}

/// A volume that is published at a target of a node.
#[derive(Drop)]
pub struct PublishedAt {
    pub id: VolumeId,
    pub node: NodeId,
    pub target: Target,
    pub readonly: bool,
}

/// What has a value of JSON in a report.
pub trait Entry {
    ghost entry: { Self → Data };

    /// Writes its value.
    fn write(&self, out: &mut JsonWriter) -> Result<(), AllocError>
        ensures { OnOk result (out.new ≡ out.old ++ json_tokens (outline (entry self.now))) };
}

/// Writes the values of these, one after another.
pub(crate) fn write_items<T: Entry>(out: &mut JsonWriter, items: &[T]) -> Result<(), AllocError>
    ensures { OnOk result (out.new ≡ out.old ++ flat_map (λ item. json_tokens (outline (T.entry item))) items.now) }
{
    for item in items {
        item.write(out)?;
    }
    Ok(())
}

impl Entry for Holding {
    ghost use Rattle.csi_reports.specs.Public.Entries.{attached_entry};

    ghost entry = { attached_entry };

    fn write(&self, out: &mut JsonWriter) -> Result<(), AllocError> {
        out.begin_object()?;
        out.put_number("id", self.volume.number())?;
        out.put_number("mode", self.capability.mode.number() as u64)?;
        out.put_text("node", self.node.as_str())?;
        out.put_flag("readonly", self.readonly)?;
        out.end_object()
    }
}

impl Entry for StagedAt {
    ghost use Rattle.csi_reports.specs.Public.Entries.{staged_entry};

    ghost entry = { staged_entry };

    fn write(&self, out: &mut JsonWriter) -> Result<(), AllocError> {
        out.begin_object()?;
        out.put_number("id", self.id.number())?;
        out.put_number("mode", self.mode.number() as u64)?;
        out.put_text("node", self.node.as_str())?;
        out.end_object()
    }
}

impl Entry for PublishedAt {
    ghost use Rattle.csi_reports.specs.Public.Entries.{published_entry};

    ghost entry = { published_entry };

    fn write(&self, out: &mut JsonWriter) -> Result<(), AllocError> {
        out.begin_object()?;
        out.put_number("id", self.id.number())?;
        out.put_text("node", self.node.as_str())?;
        out.put_flag("readonly", self.readonly)?;
        out.put_text("target", self.target.as_str())?;
        out.end_object()
    }
}
