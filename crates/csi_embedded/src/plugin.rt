//! What a handle has: a controller, a node or an orchestrator.
ghost use Rattle.std.specs.Prelude.{◌≡◌, ◌≤◌, ◌+◌, false, map, length, IfOk, IfErr, OnOk, OnErr};
ghost use Rattle.csi_frames.specs.Public.Lent.{lent_frame};
ghost use Rattle.csi_stores.specs.Public.Part.{part_change};
ghost use Rattle.csi_stores.specs.Public.Content.{all_changed};
ghost use Rattle.csi_service.specs.Public.Answering.{AppendsReply};
ghost use Rattle.csi_embedded.specs.Public.Plugins.{plugin_parts, plugin_changes, is_orchestrator as is_one, PluginAnswers, IsAsItWas, IsPluginRecord};
ghost use Rattle.csi_embedded.specs.Public.Raising.{RaisesPlugin};
ghost use Rattle.csi_embedded.specs.Public.Recovering.{is_controller, is_node};
ghost use Rattle.csi_embedded.specs.Private.Recovering.{IsControllerRecord, IsNodeRecord, IsUnkept};

use crate::ending::CallEnding;
use csi_controller::ControllerRecord;
use csi_frames::FrameRef;
use csi_node::NodeRecord;
use csi_records::write_orchestrator;
use csi_service::{ControllerService, Core, NodeService, OrchestratorService, Part, write_record};
use csi_types::NoMemory;
use std::alloc::Global;

/// A controller, a node or an orchestrator, with what its last call changed.
#[derive(Drop)]
pub enum HeldPlugin {
    Controller(ControllerService),
    Node(NodeService),
    Orchestrator(OrchestratorService),
}

impl HeldPlugin {
    /// Whether it is an orchestrator. It takes no memory.
    pub fn is_orchestrator(&self) -> bool
        ensures { result ≡ is_one self.now }
    {
        match self {
            HeldPlugin::Orchestrator(_) => true,
            HeldPlugin::Controller(_) => false,
            HeldPlugin::Node(_) => false,
        }
    }

    /// Answers a frame that is lent, and appends the bytes of its reply, if it has one: whether it has. A refusal leaves the plugin as it
    /// was. An orchestrator answers none.
    pub fn answer_into(&mut self, frame: &FrameRef<'_>, out: &mut Vec<u8>) -> Result<bool, NoMemory>
        requires { is_one self.old ≡ false }
        ensures answered { IfOk result (AppendsReply PluginAnswers self.old (lent_frame frame.now) self.new out.old.items out.new.items) }
        ensures few { OnOk result (length out.new.items ≤ length out.old.items + 544) }
        ensures parts { OnOk result (plugin_parts self.new ≡ all_changed (plugin_changes self.new) (plugin_parts self.old)) }
        ensures err { OnErr result (IsAsItWas self.old self.new) }
    {
        match self {
            HeldPlugin::Controller(service) => service.answer_into(frame, out),
            HeldPlugin::Node(service) => service.answer_into(frame, out),
            HeldPlugin::Orchestrator(_) => unreachable!(),
        }
    }

    /// Raises the session in a plugin, where it is later than the greatest that came (`PluginService::raise`): what its store has to be given
    /// then. A refusal leaves the plugin as it was. There is none in an orchestrator.
    pub fn raise(&mut self, session: u64) -> Result<Vec<Part>, NoMemory>
        requires { is_one self.old ≡ false }
        ensures raised { IfOk result (λ parts. RaisesPlugin session self.old (map part_change parts.items) self.new) }
        ensures parts { IfOk result (λ parts. plugin_parts self.new ≡ all_changed (map part_change parts.items) (plugin_parts self.old)) }
        ensures err { OnErr result (self.new ≡ self.old) }
    {
        match self {
            HeldPlugin::Controller(service) => service.raise(session),
            HeldPlugin::Node(service) => service.raise(session),
            HeldPlugin::Orchestrator(_) => unreachable!(),
        }
    }

    /// What the last frame that was answered changed: the parts to be put in or taken out.
    pub fn changed(&self) -> Result<Vec<Part>, NoMemory>
        ensures { IfOk result (λ parts. map part_change parts.items ≡ plugin_changes self.now) }
    {
        match self {
            HeldPlugin::Controller(service) => service.parts(),
            HeldPlugin::Node(service) => service.parts(),
            HeldPlugin::Orchestrator(service) => service.parts(),
        }
    }

    /// The bytes of its whole record.
    pub fn record(&self, alloc: Global) -> Result<Vec<u8>, NoMemory>
        ensures { IfOk result (λ bytes. IsPluginRecord self.now bytes.items) }
    {
        match self {
            HeldPlugin::Controller(service) => {
                let kept = service.record()?;
                write_record(alloc, &kept)
            }
            HeldPlugin::Node(service) => {
                let kept = service.record()?;
                write_record(alloc, &kept)
            }
            HeldPlugin::Orchestrator(service) => write_orchestrator(alloc, service.orchestrator()),
        }
    }

    /// The record of a controller.
    pub fn controller_record(&self) -> Result<ControllerRecord, CallEnding>
        ensures kept { IfOk result (IsControllerRecord self.now) }
        ensures none { IfErr result (IsUnkept is_controller self.now) }
    {
        match self {
            HeldPlugin::Controller(service) => match service.record() {
                Ok(kept) => Ok(kept),
                Err(_) => Err(CallEnding::NoMemory),
            },
            HeldPlugin::Node(_) => Err(CallEnding::OtherKind),
            HeldPlugin::Orchestrator(_) => Err(CallEnding::OtherKind),
        }
    }

    /// The record of a node.
    pub fn node_record(&self) -> Result<NodeRecord, CallEnding>
        ensures kept { IfOk result (IsNodeRecord self.now) }
        ensures none { IfErr result (IsUnkept is_node self.now) }
    {
        match self {
            HeldPlugin::Node(service) => match service.record() {
                Ok(kept) => Ok(kept),
                Err(_) => Err(CallEnding::NoMemory),
            },
            HeldPlugin::Controller(_) => Err(CallEnding::OtherKind),
            HeldPlugin::Orchestrator(_) => Err(CallEnding::OtherKind),
        }
    }
}
