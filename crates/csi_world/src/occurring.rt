//! What happens in a world.
ghost use Rattle.std.specs.Prelude.{◌≡◌, ◌<◌, Option, Some, None, IfOk, OnOk};
ghost use Rattle.csi_types.specs.Model.Frame.{Frame as FrameParts};
ghost use Rattle.csi_frames.specs.Public.Decoding.{BeginsWithFrame};
ghost use Rattle.csi_frames.specs.Public.Spelling.{Spells};
ghost use Rattle.csi_orchestrator.specs.Model.Moves.{ToCreate, ToUse, ToStop, ToDelete, Comes};
ghost use Rattle.csi_world.specs.Model.World.{World};
ghost use Rattle.csi_world.specs.Model.After.{orchestrated, called, delivered, delivered_body, frame_numbered, occurs};
ghost use Rattle.csi_world.specs.Model.Simulated.{ShowsWorld};
ghost use Rattle.csi_world.specs.Public.Simulating.{IsSoundWorld};
ghost use Rattle.csi_world.specs.Private.Settling.{IsOfOneMake};
ghost use Rattle.csi_world.specs.Private.Simulating.{Does, IsLogged};
ghost use Rattle.csi_world.specs.Public.System.{world_parts};

use crate::carrying::{memory_of, write};
use crate::outcomes::Outcome;
use crate::plugins::{place_of, step_controller, step_node};
use crate::sending::{frame_of, settled, settled_reply};
use crate::system::System;
use csi_frames::decode;
use csi_types::{
    Body, Capability, CapabilityList, Event, Frame, Name, NoMemory, NodeId, Party, Target,
};

// A copy of these capabilities.
fn copied(capabilities: &CapabilityList) -> Result<CapabilityList, NoMemory>
    ensures { IfOk result (λ copy. copy ≡ capabilities.now) }
{
    match capabilities.clone() {
        Ok(copy) => Ok(copy),
        Err(_) => Err(NoMemory),
    }
}

impl System {
    // A call comes to its plugin.
    fn call(&mut self, frame: &Frame) -> Result<Outcome, NoMemory>
        ensures does { Does (world_parts self.old) (world_parts self.new) result (λ world. called world frame.now frame.now.party) }
        ensures make { OnOk result (IsOfOneMake (world_parts self.old) (world_parts self.new)) }
    {
        match frame.party() {
            Party::Controller => step_controller(&mut self.controller, &mut self.frames, frame),
            Party::Node(id) => match place_of(&self.nodes, id) {
                Some(place) => step_node(&mut self.nodes[place], &mut self.frames, frame),
                None => Ok(Outcome::NoSuchNode),
            },
        }
    }

    // A reply comes to the orchestrator.
    fn hear(&mut self, frame: &Frame) -> Result<Outcome, NoMemory>
        ensures does { Does (world_parts self.old) (world_parts self.new) result (λ world. orchestrated world (Comes frame.now)) }
        ensures make { OnOk result (IsOfOneMake (world_parts self.old) (world_parts self.new)) }
    {
        csi_orchestrator::form_law();
        settled_reply(&mut self.frames, self.orchestrator.deliver(frame))
    }

    // A frame comes to its plugin or to the orchestrator.
    fn take(&mut self, frame: &Frame) -> Result<Outcome, NoMemory>
        ensures does { Does (world_parts self.old) (world_parts self.new) result (λ world. delivered_body world frame.now frame.now.body) }
        ensures make { OnOk result (IsOfOneMake (world_parts self.old) (world_parts self.new)) }
    {
        match frame.body() {
            Body::Call(_) => self.call(frame),
            Body::Reply(..) => self.hear(frame),
        }
    }

    // The frame that the bytes spell comes.
    fn receive(&mut self, bytes: &[u8]) -> Result<Outcome, NoMemory>
        requires { BeginsWithFrame bytes.now }
        ensures does { (frame : FrameParts) → Spells frame bytes.now → Does (world_parts self.old) (world_parts self.new) result (λ world. delivered_body world frame frame.body) }
        ensures make { OnOk result (IsOfOneMake (world_parts self.old) (world_parts self.new)) }
    {
        let decoded = decode(self.alloc, bytes);
        match &decoded {
            Ok(read) => self.take(&read.0),
            Err(fault) => Err(memory_of(fault)),
        }
    }

    /// The frame of this number is delivered, if it is there. A frame that is delivered is written in place of the bytes.
    #[inline(always)]
    pub(crate) fn deliver(&mut self, bytes: &mut Vec<u8>, number: u64) -> Result<Outcome, NoMemory>
        ensures does { Does (world_parts self.old) (world_parts self.new) result (λ world. delivered world (frame_numbered world number)) }
        ensures make { OnOk result (IsOfOneMake (world_parts self.old) (world_parts self.new)) }
    {
        match frame_of(&self.frames, number) {
            Some(sent) => {
                write(sent, bytes)?;
                self.receive(bytes)
            }
            None => Ok(Outcome::NoSuchFrame),
        }
    }

    // A volume is asked for.
    #[inline(never)]
    fn create(
        &mut self,
        name: &Name,
        required: u64,
        limit: u64,
        capabilities: &CapabilityList,
    ) -> Result<Outcome, NoMemory>
        ensures { Does (world_parts self.old) (world_parts self.new) result (λ world.
            orchestrated world (ToCreate name.now (record { required = required; limit = limit; capabilities = capabilities.now }))) }
    {
        csi_orchestrator::form_law();
        let name = name.clone()?;
        match copied(capabilities) {
            Ok(capabilities) => {
                let orchestrator = &mut self.orchestrator;
                let answer = orchestrator.create(name, required, limit, capabilities);
                settled(&mut self.frames, answer)
            }
            Err(NoMemory) => Err(NoMemory),
        }
    }

    // A use of a volume is asked for.
    #[inline(never)]
    fn use_at(
        &mut self,
        name: &Name,
        node: &NodeId,
        target: &Target,
        capability: &Capability,
        readonly: bool,
    ) -> Result<Outcome, NoMemory>
        ensures { Does (world_parts self.old) (world_parts self.new) result (λ world.
            orchestrated world (ToUse name.now (record { node = node.now; target = target.now; capability = capability.now; readonly = readonly }))) }
    {
        csi_orchestrator::form_law();
        let node = node.clone()?;
        let target = target.clone()?;
        let capability = capability.clone()?;
        let answer = self
            .orchestrator
            .use_at(name, node, target, capability, readonly);
        settled(&mut self.frames, answer)
    }

    // The end of a use is asked for.
    #[inline(never)]
    fn stop(&mut self, name: &Name, node: &NodeId, target: &Target) -> Result<Outcome, NoMemory>
        ensures { Does (world_parts self.old) (world_parts self.new) result (λ world. orchestrated world (ToStop name.now node.now target.now)) }
    {
        csi_orchestrator::form_law();
        let node = node.clone()?;
        let target = target.clone()?;
        let answer = self.orchestrator.stop(name, node, target);
        settled(&mut self.frames, answer)
    }

    // A volume is to be deleted.
    #[inline(never)]
    fn delete(&mut self, name: &Name) -> Result<Outcome, NoMemory>
        ensures { Does (world_parts self.old) (world_parts self.new) result (λ world. orchestrated world (ToDelete name.now)) }
    {
        csi_orchestrator::form_law();
        settled(&mut self.frames, self.orchestrator.delete(name))
    }

    // What comes of an event, which isn't logged yet. Only what the orchestrator keeps of it is copied. Each kind has a function of its
    // own, so that an event pays for the values that its own kind holds, and for no others.
    fn outcome_of(&mut self, bytes: &mut Vec<u8>, event: &Event) -> Result<Outcome, NoMemory>
        ensures { Does (world_parts self.old) (world_parts self.new) result (λ world. occurs world event.now) }
    {
        match event {
            Event::Create {
                name,
                required,
                limit,
                capabilities,
            } => self.create(name, *required, *limit, capabilities),
            Event::Use {
                name,
                node,
                target,
                capability,
                readonly,
            } => self.use_at(name, node, target, capability, *readonly),
            Event::Stop { name, node, target } => self.stop(name, node, target),
            Event::Delete(name) => self.delete(name),
            Event::Timeout(name) => self.outcome_of_timeout(name),
            Event::Deliver(number) => self.deliver(bytes, *number),
            Event::RestartOrchestrator => self.restart_orchestrator(),
            Event::RestartOrchestratorWith(nodes) => self.restart_orchestrator_with(nodes),
            Event::RestartController => self.restart_controller(),
            Event::RestartControllerWith(config) => self.restart_controller_with(config),
            Event::RestartNode(id) => self.restart_node(id),
            Event::Join(id) => self.join(id),
            Event::Lose(id) => self.lose(id),
            Event::Settle(name) => self.bring_to_rest(bytes, name),
        }
    }

    /// What comes of an event, which is logged. A frame that is delivered is written in place of the bytes. An `Err` is an
    /// allocation that was refused; the system is of no use then.
    pub(crate) fn occur(&mut self, bytes: &mut Vec<u8>, event: &Event) -> Result<(), NoMemory>
        ensures { (world : World) → IsSoundWorld (world_parts self.old) → ShowsWorld (world_parts self.old) world →
            OnOk result (IsLogged (world_parts self.old) (world_parts self.new) (occurs world event.now)) }
    {
        let outcome = self.outcome_of(bytes, event)?;
        self.outcomes.push(outcome)?;
        Ok(())
    }
}
