//! What an orchestrator knows, asked for and wants, written as bytes.
ghost use Rattle.std.specs.Prelude.{◌≡◌, ◌++◌, IfSome, OnOk};
ghost use Rattle.csi_types.specs.Public.Text.{IsNodeId, IsTarget};
ghost use Rattle.csi_types.specs.Public.VolumeId.{IsVolumeId};
ghost use Rattle.csi_frames.specs.Public.Spelling.{text};
ghost use Rattle.csi_records.specs.Public.Spelling.{present};
ghost use Rattle.csi_records.specs.Public.OrchestratorSpelling.{known_bytes, arguments_bytes, id_bytes, usage_bytes, goal_bytes};
ghost use Rattle.csi_records.specs.Public.OrchestratorRows.{AreArguments, IsUsage, IsGoal};
ghost use Rattle.csi_records.specs.Private.Writes.{Writes};

use crate::items::{Item, put_list};
use csi_frames::{append_byte, append_flag, append_text, append_word};
use csi_orchestrator::{Arguments, Goal, Known, Usage};
use csi_types::{NoMemory, NodeId, Target, VolumeId};

/// What is known.
#[tactic(auto, unfolding(crate::specs::Public::OrchestratorSpelling::known_byte))]
pub(crate) fn put_known(out: &mut Vec<u8>, known: Known) -> Result<(), NoMemory>
    ensures { OnOk result (out.new.items ≡ out.old.items ++ known_bytes known) }
{
    let byte = match known {
        Known::No => 0,
        Known::Yes => 1,
        Known::Maybe => 2,
    };
    append_byte(out, byte)
}

/// An id, if there is one.
pub(crate) fn put_id(out: &mut Vec<u8>, id: Option<VolumeId>) -> Result<(), NoMemory>
    ensures { Writes out.old.items out.new.items (id_bytes id) (IfSome id IsVolumeId) result }
{
    match id {
        None => append_byte(out, 0),
        Some(id) => {
            append_byte(out, 1)?;
            append_word(out, id.number())
        }
    }
}

/// What a volume was to be created with.
pub(crate) fn put_arguments(out: &mut Vec<u8>, arguments: &Arguments) -> Result<(), NoMemory>
    ensures { Writes out.old.items out.new.items (arguments_bytes arguments.now) (AreArguments present arguments.now) result }
{
    append_word(out, arguments.required)?;
    append_word(out, arguments.limit)?;
    put_list(out, arguments.capabilities.as_slice())
}

// Where and how a volume is to be used.
fn put_usage(out: &mut Vec<u8>, usage: &Usage) -> Result<(), NoMemory>
    ensures { Writes out.old.items out.new.items (usage_bytes usage.now) (IsUsage present usage.now) result }
{
    append_text(out, &usage.node)?;
    append_text(out, &usage.target)?;
    usage.capability.put(out)?;
    append_flag(out, usage.readonly)
}

// Where a volume is to be used no longer.
fn put_place(out: &mut Vec<u8>, node: &NodeId, target: &Target) -> Result<(), NoMemory>
    ensures { Writes out.old.items out.new.items (text node.now ++ text target.now) (IsNodeId node.now × IsTarget target.now) result }
{
    append_text(out, node)?;
    append_text(out, target)
}

/// A goal, if there is one.
pub(crate) fn put_goal(out: &mut Vec<u8>, goal: &Option<Goal>) -> Result<(), NoMemory>
    ensures { Writes out.old.items out.new.items (goal_bytes goal.now) (IsGoal present goal.now) result }
{
    match goal {
        None => append_byte(out, 0),
        Some(Goal::Create) => append_byte(out, 1),
        Some(Goal::Use(usage)) => {
            append_byte(out, 2)?;
            put_usage(out, usage)
        }
        Some(Goal::Stop { node, target }) => {
            append_byte(out, 3)?;
            put_place(out, node, target)
        }
        Some(Goal::Delete) => append_byte(out, 4),
    }
}
