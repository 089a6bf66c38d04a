//! What a handle leads to.
ghost use Rattle.std.specs.Prelude.{◌≡◌, [], None};

use crate::command::{Command, carry_out};
use crate::ending::CallEnding;
use crate::front::front;
use crate::plugin::HeldPlugin;
use crate::splitting::{answer_next, fed, used_again};
use csi_frames::Splitter;
use csi_orchestrator::{Heard, OrchFault, Orchestrator};
use csi_service::Part;
use csi_types::{Frame, NoMemory, NodeId};
use std::alloc::Global;

/// A plugin or an orchestrator, the buffers that a plugin's calls use again and again, and what the store has to be given, once that was
/// asked for.
#[derive(Drop)]
pub struct Embedded {
    alloc: Global,
    pub(crate) plugin: HeldPlugin,
    // Nothing is kept in it between calls.
    splitter: Splitter,
    pub(crate) reply: Vec<u8>,
    changed: Option<Vec<Part>>,
    ghost unused: { splitter.kept ≡ [] },
    ghost clear: { splitter.fault ≡ None },
}

impl Embedded {
    ghost use Rattle.std.specs.Prelude.{◌≡◌, ◌≤◌, [], None, true, false, is_some, option_map, map, length, IfOk, IfErr, OnOk, OnErr};
    ghost use Rattle.csi_orchestrator.specs.Model.Moves.{Comes, Sends, Hears};
    ghost use Rattle.csi_stores.specs.Public.Part.{part_change};
    ghost use Rattle.csi_embedded.specs.Private.Calls.{changes_in};
    ghost use Rattle.csi_embedded.specs.Public.Asking.{command_input, Carries};
    ghost use Rattle.csi_embedded.specs.Public.Losing.{LosesNode};
    ghost use Rattle.csi_embedded.specs.Public.Raising.{IsRaisedIn};
    ghost use Rattle.csi_embedded.specs.Public.Calls.{frame_front, told_changes, AnswersFrame, IsNoAnswer, Remains};
    ghost use Rattle.csi_embedded.specs.Public.Plugins.{is_orchestrator as is_one, orchestrator_of, IsStaleTo, IsTimelyTo};

    /// A plugin that answered nothing yet, of which the store has to be given these parts. It takes no memory.
    pub fn new(alloc: Global, plugin: HeldPlugin, changed: Vec<Part>) -> Embedded
        ensures plugin { result.plugin ≡ plugin }
        ensures told { told_changes result ≡ map part_change changed.items }
    {
        Embedded {
            alloc,
            plugin,
            splitter: Splitter::new(alloc),
            reply: Vec::new(alloc),
            changed: Some(changed),
        }
    }

    /// Whether it is an orchestrator. It takes no memory.
    pub fn is_orchestrator(&self) -> bool
        ensures { result ≡ is_one self.now.plugin }
    {
        self.plugin.is_orchestrator()
    }

    /// The orchestrator, if it is one. It takes no memory.
    pub fn orchestrator(&self) -> Option<&Orchestrator>
        ensures { option_map (λ one. one.now) result ≡ orchestrator_of self.now.plugin }
    {
        match &self.plugin {
            HeldPlugin::Orchestrator(service) => Some(service.orchestrator()),
            HeldPlugin::Controller(_) => None,
            HeldPlugin::Node(_) => None,
        }
    }

    /// Whether the frame says of an open call of the orchestrator that it was stale. It takes no memory.
    pub fn is_told_stale(&self, frame: &Frame) -> bool
        ensures stale { result ≡ true → IsStaleTo frame.now self.now.plugin }
        ensures timely { result ≡ false → IsTimelyTo frame.now self.now.plugin }
    {
        match &self.plugin {
            HeldPlugin::Orchestrator(service) => service.orchestrator().is_told_stale(frame),
            HeldPlugin::Controller(_) => false,
            HeldPlugin::Node(_) => false,
        }
    }

    /// Answers the frame that these bytes begin with, says how many of them it took, and leaves the bytes of its reply in `reply`, none
    /// where it has no reply. Any other ending leaves the plugin as it was, and what the store has to be given.
    pub fn answer(&mut self, bytes: &[u8]) -> Result<usize, CallEnding>
        ensures answered { IfOk result (λ used. AnswersFrame self.old bytes.now used self.new self.new.reply.items) }
        ensures few { OnOk result (length self.new.reply.items ≤ 544) }
        ensures why { IfErr result (IsNoAnswer self.old (frame_front bytes.now)) }
        ensures remains { OnErr result (Remains self.old self.new) }
    {
        if self.plugin.is_orchestrator() {
            return Err(CallEnding::OtherKind);
        }
        let bytes = front(bytes);
        let splitter = std::mem::replace(&mut self.splitter, Splitter::new(self.alloc));
        let mut splitter = fed(splitter, bytes)?;
        self.reply.clear();
        match answer_next(&mut splitter, &mut self.plugin, &mut self.reply) {
            Ok(()) => {
                self.changed = None;
                let left = splitter.kept();
                self.splitter = used_again(self.alloc, splitter, left);
                Ok(bytes.len() - left)
            }
            Err(ending) => Err(ending),
        }
    }

    /// Raises the session in a plugin, where it is later than the greatest that came, as if a call had begun it. A refusal leaves everything as
    /// it was.
    pub fn raise(&mut self, session: u64) -> Result<(), NoMemory>
        requires { is_one self.old.plugin ≡ false }
        ensures raised { OnOk result (IsRaisedIn session self.old self.new) }
        ensures remains { OnErr result (Remains self.old self.new) }
    {
        let changed = self.plugin.raise(session)?;
        self.changed = Some(changed);
        Ok(())
    }

    /// What the store has to be given before the reply is sent: the parts to be put in and taken out, in this order. A refusal leaves
    /// everything as it was.
    pub fn tell(&mut self) -> Result<(), NoMemory>
        ensures told { OnOk result (map part_change (changes_in self.new.changed) ≡ told_changes self.old) }
        ensures same { told_changes self.new ≡ told_changes self.old }
        ensures plugin { self.new.plugin ≡ self.old.plugin }
        ensures kept { OnOk result (is_some self.new.changed ≡ true) }
    {
        if self.changed.is_none() {
            self.changed = Some(self.plugin.changed()?);
        }
        Ok(())
    }

    /// The changes that were told last. It takes no memory.
    pub fn changes(&self) -> &[Part]
        ensures { result.now ≡ changes_in self.now.changed }
    {
        match &self.changed {
            Some(parts) => parts,
            None => &[],
        }
    }

    /// Asks the orchestrator, once it was told what the store has to be given: the frame that is to be sent, if there is one. A refusal
    /// leaves everything as it was.
    pub fn ask(&mut self, command: Command) -> Result<Option<Frame>, OrchFault>
        requires kind { is_one self.old.plugin ≡ true }
        requires told { is_some self.old.changed ≡ true }
        ensures { Carries Sends (command_input command) self.old result self.new }
    {
        match &mut self.plugin {
            HeldPlugin::Orchestrator(service) => match carry_out(service, command) {
                Ok(sent) => {
                    let _told = self.changed.take();
                    Ok(sent)
                }
                Err(why) => Err(why),
            },
            HeldPlugin::Controller(_) => unreachable!(),
            HeldPlugin::Node(_) => unreachable!(),
        }
    }

    /// Hands the orchestrator a frame that came, as `ask` asks it.
    pub fn hear(&mut self, frame: &Frame) -> Result<Heard, OrchFault>
        requires kind { is_one self.old.plugin ≡ true }
        requires told { is_some self.old.changed ≡ true }
        ensures { Carries Hears (Comes frame.now) self.old result self.new }
    {
        match &mut self.plugin {
            HeldPlugin::Orchestrator(service) => match service.deliver(frame) {
                Ok(heard) => {
                    let _told = self.changed.take();
                    Ok(heard)
                }
                Err(why) => Err(why),
            },
            HeldPlugin::Controller(_) => unreachable!(),
            HeldPlugin::Node(_) => unreachable!(),
        }
    }

    /// Takes a node as lost, as `ask` asks the orchestrator.
    pub fn lose(&mut self, node: &NodeId) -> Result<(), OrchFault>
        requires kind { is_one self.old.plugin ≡ true }
        requires told { is_some self.old.changed ≡ true }
        ensures { LosesNode node.now self.old result self.new }
    {
        match &mut self.plugin {
            HeldPlugin::Orchestrator(service) => match service.lose(node) {
                Ok(()) => {
                    let _told = self.changed.take();
                    Ok(())
                }
                Err(why) => Err(why),
            },
            HeldPlugin::Controller(_) => unreachable!(),
            HeldPlugin::Node(_) => unreachable!(),
        }
    }
}
