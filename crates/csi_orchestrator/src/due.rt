//! The call that is due.
ghost use Rattle.std.specs.Prelude.{◌≡◌, option_map};
ghost use Rattle.std.specs.Option.{option_copied};
ghost use Rattle.csi_types.specs.Model.Call.{kind_of};
ghost use Rattle.csi_types.specs.Model.Same.{same_party};
ghost use Rattle.csi_orchestrator.specs.Model.Commands.{next_number as number_after};
ghost use Rattle.csi_orchestrator.specs.Model.Moves.{is_forward as leads_on};
ghost use Rattle.csi_orchestrator.specs.Public.RowDue.{create_due as create_told, use_due as use_told, stop_due as stop_told};
ghost use Rattle.csi_orchestrator.specs.Public.RowDue.{delete_due as delete_told, due_with};
ghost use Rattle.csi_orchestrator.specs.Private.Found.{due_shown, node_due, call_due};

use crate::marks::Marks;
use crate::request::{Arguments, Usage};
use crate::row::{Goal, Row};
use crate::thing::Known;
use csi_types::{Kind, Name, NodeId, Number, Party, Target, VolumeId};

/// The call that is due, with what it is spelled by.
#[derive(Clone, Copy)]
pub(crate) enum Due<'a> {
    Create {
        name: &'a Name,
        arguments: &'a Arguments,
    },
    Delete {
        id: VolumeId,
    },
    Attach {
        id: VolumeId,
        usage: &'a Usage,
    },
    Detach {
        id: VolumeId,
        node: &'a NodeId,
    },
    Stage {
        id: VolumeId,
        usage: &'a Usage,
    },
    Unstage {
        id: VolumeId,
        node: &'a NodeId,
    },
    Publish {
        id: VolumeId,
        usage: &'a Usage,
    },
    Unpublish {
        id: VolumeId,
        node: &'a NodeId,
        target: &'a Target,
    },
}

/// The call that is due until the volume is made.
pub(crate) fn create_due<'a>(
    name: &'a Name,
    arguments: &'a Arguments,
    marks: Marks,
) -> Option<Due<'a>>
    ensures { option_map due_shown result ≡ create_told name.now arguments.now marks }
{
    if marks.exists.is_yes() {
        return None;
    }
    Some(Due::Create { name, arguments })
}

/// The call that is due until the volume is published at the target.
pub(crate) fn use_due<'a>(id: VolumeId, marks: Marks, usage: &'a Usage) -> Option<Due<'a>>
    ensures { option_map due_shown result ≡ use_told usage.now marks id }
{
    if !matches!(marks.attached, Known::Yes) {
        return Some(Due::Attach { id, usage });
    }
    if !matches!(marks.staged, Known::Yes) {
        return Some(Due::Stage { id, usage });
    }
    if !matches!(marks.published, Known::Yes) {
        return Some(Due::Publish { id, usage });
    }
    None
}

/// The call that is due until the volume isn't published at the target, and then isn't at the node.
pub(crate) fn stop_due<'a>(
    id: VolumeId,
    marks: Marks,
    node: &'a NodeId,
    target: &'a Target,
) -> Option<Due<'a>>
    ensures { option_map due_shown result ≡ stop_told node.now target.now marks id }
{
    if !marks.published.is_no() {
        return Some(Due::Unpublish { id, node, target });
    }
    if marks.others {
        return None;
    }
    if !marks.staged.is_no() {
        return Some(Due::Unstage { id, node });
    }
    if !marks.attached.is_no() {
        return Some(Due::Detach { id, node });
    }
    None
}

/// The call that is due until the volume isn't there.
pub(crate) fn delete_due<'a>(id: VolumeId, marks: Marks) -> Option<Due<'a>>
    ensures { option_map due_shown result ≡ delete_told marks id }
{
    if marks.exists.is_no() {
        return None;
    }
    Some(Due::Delete { id })
}

/// The call that is due for a goal of the row's volume, by this id and what is known of it.
pub(crate) fn due_for<'a>(
    row: &'a Row,
    goal: &'a Goal,
    id: Option<VolumeId>,
    marks: Marks,
) -> Option<Due<'a>>
    ensures { option_map due_shown result ≡ due_with row.now.name row.now.arguments id marks goal.now }
{
    match (goal, id) {
        (Goal::Create, _) => create_due(&row.name, &row.arguments, marks),
        (_, None) => None,
        (Goal::Use(usage), Some(id)) => use_due(id, marks, usage),
        (Goal::Stop { node, target }, Some(id)) => stop_due(id, marks, node, target),
        (Goal::Delete, Some(id)) => delete_due(id, marks),
    }
}

impl Due<'_> {
    /// The kind of the call.
    pub fn kind(&self) -> Kind
        ensures { result ≡ kind_of (call_due self.now) }
    {
        match self {
            Due::Create { .. } => Kind::CreateVolume,
            Due::Delete { .. } => Kind::DeleteVolume,
            Due::Attach { .. } => Kind::ControllerPublishVolume,
            Due::Detach { .. } => Kind::ControllerUnpublishVolume,
            Due::Stage { .. } => Kind::NodeStageVolume,
            Due::Unstage { .. } => Kind::NodeUnstageVolume,
            Due::Publish { .. } => Kind::NodePublishVolume,
            Due::Unpublish { .. } => Kind::NodeUnpublishVolume,
        }
    }

    /// The node that it is for, or none for the controller.
    pub fn node(&self) -> Option<&NodeId>
        ensures { option_copied result ≡ node_due self.now }
    {
        match self {
            Due::Create { .. } | Due::Delete { .. } | Due::Attach { .. } | Due::Detach { .. } =>
                None,
            Due::Stage { usage, .. } | Due::Publish { usage, .. } => Some(&usage.node),
            Due::Unstage { node, .. } | Due::Unpublish { node, .. } => Some(node),
        }
    }

    /// Whether it is for this plugin.
    pub fn is_for(&self, party: &Party) -> bool
        ensures { result ≡ same_party (due_shown self.now).party party.now }
    {
        match (self.node(), party) {
            (None, Party::Controller) => true,
            (Some(own), Party::Node(node)) => *own == *node,
            _ => false,
        }
    }

    /// Whether it leads to a use: such calls are given up after three tries.
    pub fn is_forward(&self) -> bool
        ensures { result ≡ leads_on (call_due self.now) }
    {
        matches!(
            self,
            Due::Attach { .. } | Due::Stage { .. } | Due::Publish { .. }
        )
    }
}

/// The number of the next call, if there is one left in the session.
pub(crate) fn next_number(last: Number) -> Option<Number>
    ensures { result ≡ number_after last }
{
    let call = last.call.checked_add(1)?;
    Some(Number {
        session: last.session,
        call,
    })
}
