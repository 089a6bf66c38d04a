//! What is wanted of a volume, in JSON.
ghost use Rattle.std.specs.Prelude.{◌≡◌, ◌++◌, OnOk};
ghost use Rattle.json.specs.Tree.{json_tokens};
ghost use Rattle.serde_json.specs.Written.{outline};
ghost use Rattle.csi_orchestrator.specs.Model.Shown.{goal_in, goal_shown};
ghost use Rattle.csi_orchestrator.specs.Public.Shown.{row_shown};
ghost use Rattle.csi_reports.specs.Public.Goals.{create_entry, use_entry, stop_entry, wanted_entry, goal_entry};

use crate::entries::Entry;
use crate::members::put_array;
use crate::writer::JsonWriter;
use csi_orchestrator::{Arguments, Goal, Row, Usage};
use csi_types::{Name, NodeId, Target};
use std::alloc::AllocError;

fn write_create(out: &mut JsonWriter, name: &Name, arguments: &Arguments) -> Result<(), AllocError>
    ensures { OnOk result (out.new ≡ out.old ++ json_tokens (outline (create_entry name.now arguments.now))) }
{
    out.begin_object()?;
    put_array(out, "capabilities", arguments.capabilities.as_slice())?;
    out.put_number("limit", arguments.limit)?;
    out.put_text("name", name.as_str())?;
    out.put_number("required", arguments.required)?;
    out.end_object()
}

fn write_use(out: &mut JsonWriter, name: &Name, usage: &Usage) -> Result<(), AllocError>
    ensures { OnOk result (out.new ≡ out.old ++ json_tokens (outline (use_entry name.now usage.now))) }
{
    out.begin_object()?;
    out.key("capability")?;
    usage.capability.write(out)?;
    out.put_text("name", name.as_str())?;
    out.put_text("node", usage.node.as_str())?;
    out.put_flag("readonly", usage.readonly)?;
    out.put_text("target", usage.target.as_str())?;
    out.end_object()
}

fn write_stop(
    out: &mut JsonWriter,
    name: &Name,
    node: &NodeId,
    target: &Target,
) -> Result<(), AllocError>
    ensures { OnOk result (out.new ≡ out.old ++ json_tokens (outline (stop_entry name.now node.now target.now))) }
{
    out.begin_object()?;
    out.put_text("name", name.as_str())?;
    out.put_text("node", node.as_str())?;
    out.put_text("target", target.as_str())?;
    out.end_object()
}

// Writes a goal: an object of one member.
fn write_wanted(
    out: &mut JsonWriter,
    name: &Name,
    arguments: &Arguments,
    goal: &Goal,
) -> Result<(), AllocError>
    ensures { OnOk result (out.new ≡ out.old ++ json_tokens (outline (wanted_entry name.now (goal_shown arguments.now goal.now)))) }
{
    out.begin_object()?;
    match goal {
        Goal::Create => {
            out.key("create")?;
            write_create(out, name, arguments)?;
            out.end_object()
        }
        Goal::Use(usage) => {
            out.key("use")?;
            write_use(out, name, usage)?;
            out.end_object()
        }
        Goal::Stop { node, target } => {
            out.key("stop")?;
            write_stop(out, name, node, target)?;
            out.end_object()
        }
        Goal::Delete => {
            out.put_text("delete", name.as_str())?;
            out.end_object()
        }
    }
}

/// Writes what is wanted of a row's volume, by this name of it.
pub(crate) fn write_goal(out: &mut JsonWriter, name: &Name, row: &Row) -> Result<(), AllocError>
    ensures { OnOk result (out.new ≡ out.old ++ json_tokens (outline (goal_entry name.now (goal_in (row_shown row.now))))) }
{
    match &row.goal {
        Some(goal) => write_wanted(out, name, &row.arguments, goal),
        None => out.null(),
    }
}
