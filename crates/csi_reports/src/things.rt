//! What the orchestrator knows, in JSON.
ghost use Rattle.std.specs.Prelude.{◌≡◌, ◌++◌, OnOk};
ghost use Rattle.json.specs.Tree.{json_tokens};
ghost use Rattle.serde_json.specs.Written.{outline};
ghost use Rattle.csi_reports.specs.Public.Entries.{known_text as text_of_known, thing_entry};

use crate::entries::Entry;
use crate::writer::JsonWriter;
use csi_orchestrator::{Known, Thing};
use std::alloc::AllocError;

pub(crate) fn known_text(known: Known) -> &'static str
    ensures { result.now ≡ text_of_known known }
{
    match known {
        Known::Yes => "yes",
        Known::No => "no",
        Known::Maybe => "maybe",
    }
}

impl Entry for (Thing, Known) {
    ghost use Rattle.csi_reports.specs.Public.Entries.{known_entry};

    ghost entry = { known_entry };

    fn write(&self, out: &mut JsonWriter) -> Result<(), AllocError> {
        out.begin_object()?;
        out.put_text("known", known_text(self.1))?;
        match &self.0 {
            Thing::Exists { name } => {
                out.put_text("name", name.as_str())?;
                out.put_text("thing", "exists")?;
                out.end_object()
            }
            Thing::Attached { name, node } => {
                out.put_text("name", name.as_str())?;
                out.put_text("node", node.as_str())?;
                out.put_text("thing", "attached")?;
                out.end_object()
            }
            Thing::Staged { name, node } => {
                out.put_text("name", name.as_str())?;
                out.put_text("node", node.as_str())?;
                out.put_text("thing", "staged")?;
                out.end_object()
            }
            Thing::Published { name, node, target } => {
                out.put_text("name", name.as_str())?;
                out.put_text("node", node.as_str())?;
                out.put_text("target", target.as_str())?;
                out.put_text("thing", "published")?;
                out.end_object()
            }
        }
    }
}
