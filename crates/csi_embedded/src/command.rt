//! What an orchestrator is asked.
ghost use Rattle.csi_orchestrator.specs.Model.Moves.{Sends};
ghost use Rattle.csi_service.specs.Public.OrchestratorServices.{OrchestratorAnswers, TellsChanges};
ghost use Rattle.csi_embedded.specs.Public.Asking.{command_input};

use csi_orchestrator::OrchFault;
use csi_service::OrchestratorService;
use csi_types::{Capability, CapabilityList, Frame, Name, NodeId, Target};

/// A command or a timeout, about the volume of a name.
#[derive(Drop)]
pub enum Command {
    /// To create it.
    Create {
        name: Name,
        required: u64,
        limit: u64,
        capabilities: CapabilityList,
    },
    /// To use it at a target of a node.
    Use {
        name: Name,
        node: NodeId,
        target: Target,
        capability: Capability,
        readonly: bool,
    },
    /// To stop using it there.
    Stop {
        name: Name,
        node: NodeId,
        target: Target,
    },
    /// To delete it.
    Delete(Name),
    /// Its open call timed out.
    Timeout(Name),
}

/// Asks the orchestrator. A refusal changes nothing.
pub(crate) fn carry_out(
    service: &mut OrchestratorService,
    command: Command,
) -> Result<Option<Frame>, OrchFault>
    ensures answered { OrchestratorAnswers Sends service.old (command_input command) result service.new }
    ensures changed { TellsChanges service.old result service.new }
{
    match command {
        Command::Create {
            name,
            required,
            limit,
            capabilities,
        } => service.create(name, required, limit, capabilities),
        Command::Use {
            name,
            node,
            target,
            capability,
            readonly,
        } => service.use_at(&name, node, target, capability, readonly),
        Command::Stop { name, node, target } => service.stop(&name, node, target),
        Command::Delete(name) => service.delete(&name),
        Command::Timeout(name) => service.timeout(&name),
    }
}
