//! What is asked of a volume, and what comes for it, is done at the row of its name.
ghost use Rattle.std.specs.Prelude.{◌≡◌, ◌<◌, ℕ, List, map, position, slice_get, Option, Some, None, Ok, IfOk, IfErr, OnOk, OnErr};
ghost use Rattle.indexmap.specs.IndexMap.{index_map_len};
ghost use Rattle.csi_types.specs.Model.Frame.{Frame as FrameShown};
ghost use Rattle.csi_types.specs.Model.Same.{same_text};
ghost use Rattle.csi_orchestrator.specs.Public.Catalog.{rows_of, AreUpTo};
ghost use Rattle.csi_orchestrator.specs.Private.Catalog.{IsReady, outgoing_call_number, IsNumberedAfter};
ghost use Rattle.csi_orchestrator.specs.Model.Commands.{next_number};
ghost use Rattle.csi_orchestrator.specs.Public.CoreParts.{orchestrator_parts_shown, IsFiled};
ghost use Rattle.csi_orchestrator.specs.Private.Hearing.{IsDueSuccess};
ghost use Rattle.csi_orchestrator.specs.Model.Moves.{ToCreate, Answer, Sends};
ghost use Rattle.csi_orchestrator.specs.Private.RowMoves.{TakesStep, outgoing_frame, last_after, creates, IsMoveOf};
ghost use Rattle.csi_orchestrator.specs.Public.RowMoves.{IsRefusal};
ghost use Rattle.csi_orchestrator.specs.Private.RowRefusals.{first_fault as first_refusal};
ghost use Rattle.csi_orchestrator.specs.Private.RowSteps.{outgoing_by, row_sends_due, row_unless};
ghost use Rattle.csi_orchestrator.specs.Model.Shown.{RowShown};
ghost use Rattle.csi_orchestrator.specs.Public.Shown.{row_shown};
ghost use Rattle.csi_orchestrator.specs.Public.RowDue.{due_in};

use crate::changes::new_row;
use crate::decision::first_fault;
use crate::fault::OrchFault;
use crate::next_call::due_now;
use crate::request::Arguments;
use crate::row::Row;
use crate::sending::{Outgoing, discard, note_sent_or_drop, outgoing_for};
use crate::state::OrchestratorCore;
use crate::step::{Step, take};
use csi_types::{Frame, Name};

impl OrchestratorCore {
    // Makes the number of the call that is sent the last one, notes it for the row at this index, and gives its frame.
    fn issue(&mut self, index: usize, next: Option<Outgoing>) -> Option<Frame>
        requires ready { IsReady self.old.catalog index (outgoing_call_number next) }
        requires known { AreUpTo self.old.last.call self.old.catalog }
        requires after { IsNumberedAfter self.old.last.call next }
        ensures frame { result ≡ outgoing_frame next }
        ensures parts { orchestrator_parts_shown self.new ≡ record {
          nodes = self.old.nodes.items;
          last = last_after self.old.last next;
          rows = map row_shown (rows_of self.old.catalog);
        } }
        ensures filed { IsFiled self.new }
    {
        match next {
            Some(next) => {
                self.last = next.number;
                self.catalog.note(next.number.call, index);
                Some(next.frame)
            }
            None => None,
        }
    }

    /// The row at this index takes a step: the frame to send, if there is one. A refusal changes nothing. Where nothing is sent, and
    /// for a delete, it takes no memory.
    pub fn step(&mut self, index: usize, step: Step) -> Result<Option<Frame>, OrchFault>
        requires filed { IsFiled self.old }
        requires within { index < index_map_len self.old.catalog.rows }
        requires fits { (row : Row) → slice_get (rows_of self.old.catalog) index ≡ Some row → IsDueSuccess step (row_shown row) }
        ensures { (name : List ℕ) (says : Option FrameShown → Answer) → position (λ row. same_text row.name name) (rows_of self.old.catalog) ≡ Some index
            → TakesStep self.old self.new says step name result }
    {
        let row = &mut self.catalog.rows[index];
        let next = take(self.alloc, row, &self.nodes, self.last, step)?;
        Ok(self.issue(index, next))
    }

    /// What is asked of the volume of this name, or its timeout: the frame to send, if there is one.
    pub fn ask(&mut self, name: &Name, step: Step) -> Result<Option<Frame>, OrchFault>
        requires filed { IsFiled self.old }
        requires fits { (row : RowShown) → IsDueSuccess step row }
        ensures { TakesStep self.old self.new Sends step name.now result }
    {
        match self.catalog.index_of(name) {
            Some(index) => self.step(index, step),
            None => {
                drop(step);
                Err(OrchFault::NoSuchVolume)
            }
        }
    }

    // The call to send for this new row, unless its create is refused.
    fn first_outgoing(&self, row: &Row) -> Result<Option<Outgoing>, OrchFault>
        ensures fits { OnOk result (first_refusal self.now.last (map row_shown (rows_of self.now.catalog)) ≡ None) }
        ensures ok { IfOk result (λ next. outgoing_by (due_in (row_shown row.now)) (next_number self.now.last) ≡ Ok next) }
        ensures err { IfErr result (IsRefusal (row_unless (first_refusal self.now.last (map row_shown (rows_of self.now.catalog)))
            (row_sends_due self.now.last (row_shown row.now)))) }
    {
        match first_fault(self.catalog.rows(), self.last) {
            Some(fault) => Err(fault),
            None => outgoing_for(self.last, &due_now(row)),
        }
    }

    // The first create of a name.
    fn create_first(&mut self, name: Name, arguments: Arguments) -> Result<Option<Frame>, OrchFault>
        requires new_name { position (λ row. same_text row.name name) (rows_of self.old.catalog) ≡ None }
        requires filed { IsFiled self.old }
        ensures ok { IfOk result (λ sent. creates (orchestrator_parts_shown self.old) name arguments None ≡ Ok (record {
          answer = Sends sent;
          parts = orchestrator_parts_shown self.new;
        })) }
        ensures err { IfErr result (IsRefusal (creates (orchestrator_parts_shown self.old) name arguments None)) }
        ensures stays { OnErr result (orchestrator_parts_shown self.new ≡ orchestrator_parts_shown self.old) }
        ensures filed { IsFiled self.new }
    {
        let mut row = new_row(self.alloc, name, arguments);
        let next = match self.first_outgoing(&row) {
            Ok(next) => next,
            Err(fault) => {
                drop(row);
                return Err(fault);
            }
        };
        note_sent_or_drop(&mut row, &next);
        let index = self.catalog.rows.len();
        match self.catalog.add(row) {
            Ok(()) => Ok(self.issue(index, next)),
            Err(fault) => {
                discard(next);
                Err(fault)
            }
        }
    }

    /// Requests creation of a volume of this name.
    pub fn create(&mut self, name: Name, arguments: Arguments) -> Result<Option<Frame>, OrchFault>
        requires { IsFiled self.old }
        ensures told { IsMoveOf (orchestrator_parts_shown self.old) (orchestrator_parts_shown self.new) (ToCreate name arguments) Sends result }
        ensures stays { OnErr result (orchestrator_parts_shown self.new ≡ orchestrator_parts_shown self.old) }
        ensures filed { IsFiled self.new }
    {
        match self.catalog.index_of(&name) {
            Some(index) => self.step(index, Step::Create(arguments)),
            None => self.create_first(name, arguments),
        }
    }
}
