//! An orchestrator that answers lines: each is a command, a timeout, a frame that came, or a node that is lost.
ghost use Rattle.std.specs.Prelude.{◌≡◌, Err, IfOk};

use crate::lines_runs::StoredResponder;
use crate::responder::{Responder, Unanswered};
use crate::telling::{command_line, heard_line, loss_told};
use csi_frames::{FaultKind, decode};
use csi_json::{Request, RequestFault, read_request};
use csi_orchestrator::{OrchestratorRecord, restart_law};
use csi_reports::fault_line;
use csi_service::OrchestratorService;
use csi_stores::Part;
use csi_types::{Capability, CapabilityList, Event, Frame, Name, NoMemory, NodeId, Target};
use std::alloc::Global;

fn copied(name: &Name) -> Result<Name, NoMemory>
    ensures { IfOk result (λ copy. copy ≡ name.now) }
{
    Ok(name.clone()?)
}

/// An orchestrator over a store, which answers lines. A command, a timeout or a frame that came is answered in a line that tells what
/// became of it, the name and the goal of its volume, and the call that is to be sent; what is none of them changes nothing, and its
/// fault is told. This profile's own.
#[derive(Drop)]
pub struct OrchestratorResponder {
    alloc: Global,
    service: OrchestratorService,
    // Whether the last line was a request; else it changed nothing.
    has_asked: bool,
}

impl OrchestratorResponder {
    ghost use Rattle.std.specs.Prelude.{◌≡◌, Err, IfOk, string_bytes, false};
    ghost use Rattle.csi_orchestrator.specs.Model.Moves.{ToCreate, ToUse, ToStop, ToDelete, TimesOut};
    ghost use Rattle.csi_orchestration.specs.Public.OrchestratorLines.{AnswersCommand, AnswersFrame, AnswersLoss, AnswersFault, AnswersEvent, AnswersReply, AnswersLine};
    ghost use Rattle.csi_orchestration.specs.Public.OrchestratorLines.{IsToldStaleBy, IsToldStaleIn};
    ghost use Rattle.csi_service.specs.Public.OrchestratorServices.{IsToldStale};
    ghost use Rattle.csi_orchestration.specs.Private.OrchestratorResponding.{IsTold};

    /// One that answered no line.
    pub(crate) fn new(alloc: Global, service: OrchestratorService) -> OrchestratorResponder
        ensures service { result.service ≡ service }
        ensures asked { result.has_asked ≡ false }
    {
        OrchestratorResponder {
            alloc,
            service,
            has_asked: false,
        }
    }

    /// Its orchestrator, with its record.
    pub(crate) fn service(&self) -> &OrchestratorService
        ensures { result.now ≡ self.now.service }
    {
        &self.service
    }

    // The copied name is the volume's.
    fn create(
        &mut self,
        copy: &Name,
        name: Name,
        required: u64,
        limit: u64,
        capabilities: CapabilityList,
    ) -> Result<String, NoMemory>
        ensures { IfOk result (λ text. IsTold (AnswersCommand (ToCreate name (record {
          required = required;
          limit = limit;
          capabilities = capabilities;
        })) copy.now) self.old (string_bytes text) self.new) }
    {
        self.has_asked = true;
        let told = self.service.create(name, required, limit, capabilities);
        command_line(self.alloc, self.service.orchestrator(), copy, told)
    }

    fn use_at(
        &mut self,
        name: &Name,
        node: NodeId,
        target: Target,
        capability: Capability,
        readonly: bool,
    ) -> Result<String, NoMemory>
        ensures { IfOk result (λ text. IsTold (AnswersCommand (ToUse name.now (record {
          node = node;
          target = target;
          capability = capability;
          readonly = readonly;
        })) name.now) self.old (string_bytes text) self.new) }
    {
        self.has_asked = true;
        let told = self
            .service
            .use_at(name, node, target, capability, readonly);
        command_line(self.alloc, self.service.orchestrator(), name, told)
    }

    fn stop(&mut self, name: &Name, node: NodeId, target: Target) -> Result<String, NoMemory>
        ensures { IfOk result (λ text. IsTold (AnswersCommand (ToStop name.now node target) name.now) self.old (string_bytes text) self.new) }
    {
        self.has_asked = true;
        let told = self.service.stop(name, node, target);
        command_line(self.alloc, self.service.orchestrator(), name, told)
    }

    fn delete(&mut self, name: &Name) -> Result<String, NoMemory>
        ensures { IfOk result (λ text. IsTold (AnswersCommand (ToDelete name.now) name.now) self.old (string_bytes text) self.new) }
    {
        self.has_asked = true;
        let told = self.service.delete(name);
        command_line(self.alloc, self.service.orchestrator(), name, told)
    }

    fn timeout(&mut self, name: &Name) -> Result<String, NoMemory>
        ensures { IfOk result (λ text. IsTold (AnswersCommand (TimesOut name.now) name.now) self.old (string_bytes text) self.new) }
    {
        self.has_asked = true;
        let told = self.service.timeout(name);
        command_line(self.alloc, self.service.orchestrator(), name, told)
    }

    // What is no request changes nothing.
    fn refuse(&mut self, fault: RequestFault) -> Result<String, NoMemory>
        ensures { IfOk result (λ text. IsTold (AnswersFault fault) self.old (string_bytes text) self.new) }
    {
        self.has_asked = false;
        Ok(fault_line(self.alloc, fault.name())?)
    }

    // The same of a line.
    fn refuse_line(&mut self, fault: RequestFault) -> Result<String, Unanswered>
        ensures told { IfOk result (λ text. IsTold (AnswersFault fault) self.old (string_bytes text) self.new) }
        ensures never { result ≡ Err Unanswered.OlderStore → ⊥ }
    {
        Ok(self.refuse(fault)?)
    }

    fn command(&mut self, event: Event) -> Result<String, NoMemory>
        ensures { IfOk result (λ text. IsTold (AnswersEvent event) self.old (string_bytes text) self.new) }
    {
        match event {
            Event::Create {
                name,
                required,
                limit,
                capabilities,
            } => {
                let copy = copied(&name)?;
                self.create(&copy, name, required, limit, capabilities)
            }
            Event::Use {
                name,
                node,
                target,
                capability,
                readonly,
            } => self.use_at(&name, node, target, capability, readonly),
            Event::Stop { name, node, target } => self.stop(&name, node, target),
            Event::Delete(name) => self.delete(&name),
            Event::Timeout(name) => self.timeout(&name),
            Event::Deliver(_) => self.refuse(RequestFault::BadLine),
            Event::RestartOrchestrator => self.refuse(RequestFault::BadLine),
            Event::RestartOrchestratorWith(_) => self.refuse(RequestFault::BadLine),
            Event::RestartController => self.refuse(RequestFault::BadLine),
            Event::RestartControllerWith(_) => self.refuse(RequestFault::BadLine),
            Event::RestartNode(_) => self.refuse(RequestFault::BadLine),
            Event::Join(_) => self.refuse(RequestFault::BadLine),
            Event::Settle(_) => self.refuse(RequestFault::BadLine),
            Event::Lose(node) => self.lose(&node),
        }
    }

    // A frame by which an open call is stale isn't delivered.
    fn deliver(&mut self, frame: &Frame) -> Result<String, Unanswered>
        ensures told { IfOk result (λ text. IsTold (AnswersFrame frame.now) self.old (string_bytes text) self.new) }
        ensures older { result ≡ Err Unanswered.OlderStore → IsToldStale frame.now self.old.service }
    {
        if self.service.orchestrator().is_told_stale(frame) {
            return Err(Unanswered::OlderStore);
        }
        self.has_asked = true;
        let place = self.service.orchestrator().place_of_call(frame.number());
        let heard = self.service.deliver(frame);
        Ok(heard_line(self.alloc, self.service.orchestrator(), place, heard)?)
    }

    // Exactly one whole frame is delivered.
    fn reply(&mut self, bytes: &[u8]) -> Result<String, Unanswered>
        ensures told { IfOk result (λ text. IsTold (AnswersReply bytes.now) self.old (string_bytes text) self.new) }
        ensures older { result ≡ Err Unanswered.OlderStore → IsToldStaleBy bytes.now self.old.service }
    {
        match decode(self.alloc, bytes) {
            Ok((frame, size)) => {
                if size < bytes.len() {
                    return self.refuse_line(RequestFault::BadFrame);
                }
                self.deliver(&frame)
            }
            Err(fault) => match fault.kind {
                FaultKind::NoMemory => Err(Unanswered::NoMemory),
                _ => self.refuse_line(RequestFault::BadFrame),
            },
        }
    }

    fn lose(&mut self, node: &NodeId) -> Result<String, NoMemory>
        ensures { IfOk result (λ text. IsTold (AnswersLoss node.now) self.old (string_bytes text) self.new) }
    {
        self.has_asked = true;
        let told = self.service.lose(node);
        let session = self.service.orchestrator().session();
        loss_told(self.alloc, node, told, session)
    }

    // The answer to a line.
    fn answer(&mut self, line: &[u8]) -> Result<String, Unanswered>
        ensures told { IfOk result (λ text. IsTold (AnswersLine line.now) self.old (string_bytes text) self.new) }
        ensures older { result ≡ Err Unanswered.OlderStore → IsToldStaleIn line.now self.old.service }
    {
        match read_request(self.alloc, line) {
            Ok(Request::Command(event)) => Ok(self.command(event)?),
            Ok(Request::Reply(bytes)) => self.reply(&bytes),
            Err(fault) => match fault {
                RequestFault::NoMemory => Err(Unanswered::NoMemory),
                _ => self.refuse_line(fault),
            },
        }
    }
}

impl Responder for OrchestratorResponder {
    ghost use Rattle.csi_orchestration.specs.Public.OrchestratorResponding.{SpellsOrchestrator, responder_parts, responder_changes, IsFitResponder};
    ghost use Rattle.csi_orchestration.specs.Public.OrchestratorResponding.{IsFitResponderChange, ResponderAnswers, IsOlderLine};

    type Record = OrchestratorRecord;

    ghost spells = { SpellsOrchestrator };

    ghost parts_of = { responder_parts };

    ghost changes = { responder_changes };

    ghost is_fit = { IsFitResponder };

    ghost is_fit_change = { IsFitResponderChange };

    ghost answers = { ResponderAnswers };

    ghost is_older = { IsOlderLine };

    fn answer_into(&mut self, line: &[u8], out: &mut Vec<u8>) -> Result<(), Unanswered> {
        let mut text = self.answer(line)?;
        self.service.record_law();
        restart_law(self.service.orchestrator());
        text.push_str("\n")?;
        out.extend_from_slice(text.as_bytes())?;
        Ok(())
    }

    fn parts(&self) -> Result<Vec<Part>, NoMemory> {
        if self.has_asked {
            self.service.parts()
        } else {
            Ok(Vec::new(self.alloc))
        }
    }

    fn record_law(&self) {
        self.service.record_law();
    }
}

impl StoredResponder for OrchestratorResponder {
    ghost use Rattle.csi_orchestration.specs.Public.OrchestratorResponding.{OpensResponder};

    ghost opens = { OpensResponder };
}
