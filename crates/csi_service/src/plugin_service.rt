//! A plugin over a store, whichever it is.
ghost use Rattle.std.specs.Prelude.{◌≡◌, ◌≤◌, ◌+◌, [], false, None, Ok, length, map, IfOk, OnOk, OnErr};
ghost use Rattle.csi_types.specs.Model.Frame.{Frame as FrameParts};
ghost use Rattle.csi_types.specs.Public.Lent.{lent_call};
ghost use Rattle.csi_frames.specs.Public.Lent.{lent_frame};
ghost use Rattle.csi_stores.specs.Public.Content.{all_changed};
ghost use Rattle.csi_stores.specs.Public.Part.{part_change};
ghost use Rattle.csi_service.specs.Private.Calls.{IsNoCallFor};
ghost use Rattle.csi_service.specs.Private.Plugins.{party_of, AnswersCall, IsCallOf};
ghost use Rattle.csi_service.specs.Public.Answering.{AppendsReply};
ghost use Rattle.csi_service.specs.Public.Raising.{raised_parts, raise_changes, IsRaised};
ghost use Rattle.csi_service.specs.Public.Plugins.{service_parts, service_changes, ServiceAnswers, AreFit, IsNamedFit};
ghost use Rattle.csi_service.specs.Public.Telling.{TellsFrame};

use crate::changed::{Changed, forgotten, id_law, nothing};
use crate::plugin::Plugin;
use crate::plugin_core::Core;
use crate::raising::raising_parts;
use csi_fence::Answer;
use csi_frames::{FrameRef, encode_reply};
use csi_records::push_removals;
use csi_stores::{Part, push_value};
use csi_types::{Body, CallRef, NoMemory, Number, Party};
use std::alloc::Global;
use std::marker::Model;

/// The most bytes of a reply: 4 of a length, 18 of a version, a kind and a number, 257 of a party, and 265 of a status, an id and a detail.
const MOST_BYTES: usize = 544;

/// A plugin with its record, whose parts a store keeps: a core that answers as the plugin does. This profile's own.
#[derive(Drop)]
pub struct PluginService<P: Plugin> {
    alloc: Global,
    pub(crate) plugin: P,
    // The plugin, as frames name it.
    party: Party,
    // By the last frame that was answered.
    changed: Changed,
}

impl<P: Plugin> Model for PluginService<P> {
    ghost use Rattle.std.specs.Prelude.{◌≡◌};
    ghost use Rattle.csi_service.specs.Private.Plugins.{party_of};
    ghost use Rattle.csi_service.specs.Public.Plugins.{ServedPlugin};

    ghost Value = { ServedPlugin P };

    ghost view = { λ service. record { plugin = service.plugin; changed = service.changed } };

    ghost invariant = { λ service. service.party ≡ party_of P.view service.plugin };
}

/// A plugin of this name in frames, that answered no frame yet. It takes no memory.
pub(crate) fn service_of<P: Plugin>(alloc: Global, plugin: P, party: Party) -> PluginService<P>
    requires { party ≡ party_of P.view plugin }
    ensures plugin { result.plugin ≡ plugin }
    ensures changes { service_changes P.view result ≡ [] }
{
    PluginService {
        alloc,
        plugin,
        party,
        changed: nothing(alloc),
    }
}

impl<P: Plugin> PluginService<P> {
    // Answers a call of the plugin, which is within its limits, and notes what that changed. A refusal leaves what the record says.
    fn answer_call(&mut self, number: Number, call: &CallRef<'_>) -> Result<Answer, NoMemory>
        requires { IsCallOf (party_of P.view self.old.plugin) (lent_call call.now) }
        ensures { AnswersCall P.view self.old self.new number (lent_call call.now) result }
    {
        self.plugin.plugin_law();
        let before = self.plugin.numbers();
        let forgotten = forgotten(self.alloc, &self.plugin, number)?;
        let carried = self.plugin.carry_out(number, call);
        self.plugin.plugin_law();
        let Ok(answer) = carried else {
            return Err(NoMemory);
        };
        let answer = answer.unwrap();
        id_law(&self.plugin, answer.row);
        let same_head = self.plugin.numbers() == before;
        self.changed = Changed {
            new_head: !same_head,
            forgotten,
            row: answer.row,
        };
        Ok(answer)
    }

    /// Raises the session in the plugin, where it is later than the greatest that came, as if a call had begun it: every call of an earlier
    /// session is stale from then on, and empty rows are forgotten. Answers what its store has to be given, and nothing else is to be told
    /// of it then. A refusal is one of memory, and leaves the plugin as it is. This profile's own.
    pub fn raise(&mut self, session: u64) -> Result<Vec<Part>, NoMemory>
        ensures raised { OnOk result (IsRaised P.view session self.old.plugin self.new.plugin) }
        ensures parts { IfOk result (λ parts. map part_change parts.items ≡ raise_changes P.view session self.old.plugin) }
        ensures leads { OnOk result (all_changed (raise_changes P.view session self.old.plugin) (service_parts P.view self.old) ≡ raised_parts P.view session self.old.plugin) }
        ensures changes { OnOk result (service_changes P.view self.new ≡ []) }
        ensures err { OnErr result (self.new ≡ self.old) }
    {
        self.plugin.plugin_law();
        let parts = raising_parts(self.alloc, &self.plugin, session)?;
        self.plugin.raise(session);
        self.plugin.plugin_law();
        self.changed = nothing(self.alloc);
        Ok(parts)
    }

    // Notes that a frame that is no call for the plugin changed nothing. It takes no memory.
    fn pass(&mut self)
        ensures answered { (frame : FrameParts) → IsNoCallFor (party_of P.view self.old.plugin) frame → ServiceAnswers P.view self.old frame None self.new }
        ensures told { (frame : FrameParts) → TellsFrame P.view self.old self.new frame (Ok false) }
    {
        self.plugin.plugin_law();
        self.changed = nothing(self.alloc);
    }
}

impl<P: Plugin> Core for PluginService<P> {
    type Record = P::Record;

    ghost spells = { P.spells };

    ghost is_same = { P.is_same };

    ghost parts_of = { service_parts P.view };

    ghost changes = { service_changes P.view };

    ghost is_fit = { λ service. AreFit P.view service.plugin };

    ghost is_fit_change = { λ service. IsNamedFit P.view service.changed.row service.plugin };

    ghost answers = { ServiceAnswers P.view };

    /// The plugin's own answer to the texts that the frame lends; its reply has at most 544 bytes. A frame that leaves the plugin's state
    /// changes no part: a reply, another plugin's call, a stale call and one that came again. Room for a reply is asked for first.
    fn answer_into(&mut self, frame: &FrameRef<'_>, out: &mut Vec<u8>) -> Result<bool, NoMemory>
        ensures answered { IfOk result (AppendsReply (ServiceAnswers P.view) self.old (lent_frame frame.now) self.new out.old.items out.new.items) }
        ensures few { OnOk result (length out.new.items ≤ length out.old.items + 544) }
        ensures told { TellsFrame P.view self.old self.new (lent_frame frame.now) result }
        ensures err_bytes { OnErr result (out.new.items ≡ out.old.items) }
    {
        if frame.is_for(&self.party) {
            out.reserve(MOST_BYTES)?;
            if let Some(call) = frame.call() {
                let number = frame.number();
                let answer = self.answer_call(number, call)?;
                // The proof reads the limits of both texts.
                match &self.party {
                    Party::Controller => {}
                    Party::Node(id) => {
                        let _id = id.as_str();
                    }
                }
                let _detail = answer.reply.detail.as_str();
                encode_reply(number, &self.party, answer.kind, &answer.reply, out).unwrap();
                return Ok(true);
            }
        }
        self.pass();
        Ok(false)
    }

    /// The head where what it says changed, what takes out the rows that were forgotten, and the row of the one volume that was changed or
    /// made. No row is searched for.
    fn parts(&self) -> Result<Vec<Part>, NoMemory> {
        let mut parts = Vec::new(self.alloc);
        if self.changed.new_head {
            let (_, session) = self.plugin.numbers();
            let value = self.plugin.head_value(self.alloc, session)?;
            push_value(&mut parts, 0, value)?;
        }
        push_removals(&mut parts, &self.changed.forgotten)?;
        let Some(place) = self.changed.row else {
            return Ok(parts);
        };
        let Some(row) = self.plugin.row_at(place) else {
            return Ok(parts);
        };
        let value = P::value_of(self.alloc, row)?;
        push_value(&mut parts, P::id_of(row).number(), value)?;
        Ok(parts)
    }

    fn record_law(&self) {
        self.plugin.plugin_law();
    }
}
