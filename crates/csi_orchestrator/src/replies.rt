//! What becomes of a frame that came: a reply to an open call is taken, and all else is ignored.
ghost use Rattle.std.specs.Prelude.{◌≡◌, ◌&&◌, Option, Ok, Err, Some, None, OnErr, IsOk, map, position};
ghost use Rattle.csi_types.specs.Public.Frame.{IsAllowed};
ghost use Rattle.csi_types.specs.Model.Same.{same_number as is_same_number, same_kind as is_same_kind};
ghost use Rattle.csi_orchestrator.specs.declared.fault.Heard.TheVariants.{Ignored as IsIgnored};
ghost use Rattle.csi_orchestrator.specs.Model.Moves.{Comes, Hears, hears};
ghost use Rattle.csi_orchestrator.specs.Public.Shown.{row_shown};
ghost use Rattle.csi_orchestrator.specs.Model.Shown.{open_in_row};
ghost use Rattle.csi_orchestrator.specs.Private.RowMoves.{is_issued_as, row_moves, step_heard, RowsAnswer, IsMoveOf};
ghost use Rattle.csi_orchestrator.specs.Private.Catalog.{IsPlaceIn};
ghost use Rattle.csi_orchestrator.specs.Private.Stale.{tells_stale};
ghost use Rattle.csi_orchestrator.specs.Public.Changed.{is_numbered};
ghost use Rattle.csi_orchestrator.specs.Public.Stale.{is_stale_reply};
ghost use Rattle.csi_orchestrator.specs.Public.Sound.{AreSoundRows};
ghost use Rattle.csi_orchestrator.specs.Public.Catalog.{rows_of, IsIndexed};
ghost use Rattle.csi_orchestrator.specs.Public.CoreParts.{orchestrator_parts_shown, IsFiled};

use crate::catalog::Catalog;
use crate::fault::{Heard, OrchFault};
use crate::next_call::open_due;
use crate::row::{OpenCall, Row};
use crate::state::OrchestratorCore;
use crate::step::Step;
use csi_types::{Body, Frame, Kind, Number, Party, Reply, Status};

// `==`, as the definitions test it.
fn same_number(a: Number, b: Number) -> bool
    ensures { result ≡ is_same_number a b }
{
    a == b
}

// `==`, as the definitions test it.
fn same_kind(a: Kind, b: Kind) -> bool
    ensures { result ≡ is_same_kind a b }
{
    a == b
}

// Whether the row's open call has this number, plugin and kind.
fn is_replied(row: &Row, number: Number, party: &Party, kind: Kind) -> bool
    ensures { result ≡ is_issued_as number party.now kind (open_in_row (row_shown row.now)) }
{
    match (row.open_call, open_due(row)) {
        (Some(OpenCall { number: open, .. }), Some(due)) => {
            same_number(open, number) && due.is_for(party) && same_kind(due.kind(), kind)
        }
        _ => false,
    }
}

// Where the row whose open call has this number, plugin and kind stands.
fn index_replied(catalog: &Catalog, number: Number, party: &Party, kind: Kind) -> Option<usize>
    requires { IsIndexed catalog.now }
    ensures { IsPlaceIn catalog.now (λ row. is_issued_as number party.now kind (open_in_row (row_shown row))) result }
{
    match catalog.index_of_call(number.call) {
        Some(index) => match catalog.rows().get(index) {
            Some(row) => {
                if is_replied(row, number, party, kind) {
                    Some(index)
                } else {
                    None
                }
            }
            None => None,
        },
        None => None,
    }
}

// Whether the row's open call has this number.
fn is_open_as(row: &Row, number: Number) -> bool
    ensures { result ≡ is_numbered number row.now.open_call }
{
    match row.open_call {
        Some(OpenCall { number: open, .. }) => same_number(open, number),
        None => false,
    }
}

/// Where the row whose open call has this number stands.
pub(crate) fn index_numbered(catalog: &Catalog, number: Number) -> Option<usize>
    requires { IsIndexed catalog.now }
    ensures { result ≡ position (λ row. is_numbered number row.open_call) (rows_of catalog.now) }
{
    match catalog.index_of_call(number.call) {
        Some(index) => match catalog.rows().get(index) {
            Some(row) => {
                if is_open_as(row, number) {
                    Some(index)
                } else {
                    None
                }
            }
            None => None,
        },
        None => None,
    }
}

// What comes for the volume whose open call had this reply.
fn step_of(kind: Kind, reply: &Reply) -> Step
    ensures { result ≡ step_heard kind reply.now }
{
    match reply.status {
        Status::Ok => Step::Succeed { kind, id: reply.id },
        _ => Step::Fail,
    }
}

// Whether the reply says that its call was stale.
fn is_stale(reply: &Reply) -> bool
    ensures { result ≡ is_stale_reply reply.now }
{
    match reply.status {
        Status::Aborted => reply.detail.as_str() == "stale",
        _ => false,
    }
}

impl OrchestratorCore {
    /// Whether a frame says of an open call that it was stale. It takes no memory.
    pub fn is_told_stale(&self, frame: &Frame) -> bool
        requires filed { IsFiled self.now }
        ensures { result ≡ tells_stale (orchestrator_parts_shown self.now) frame.now.number frame.now.party frame.now.body }
    {
        let Body::Reply(kind, reply) = frame.body() else {
            return false;
        };
        is_stale(reply)
            && index_replied(&self.catalog, frame.number(), frame.party(), *kind).is_some()
    }

    /// What becomes of a frame: the reply to an open call tells what the call did, and the next call is
    /// sent; where none is sent it takes no memory. Whatever else comes is ignored, which takes none. An
    /// `Err` changes nothing, so that the frame can be delivered again.
    pub fn deliver(&mut self, frame: &Frame) -> Result<Heard, OrchFault>
        requires sound { AreSoundRows (map row_shown (rows_of self.old.catalog)) }
        requires filed { IsFiled self.old }
        ensures told { IsMoveOf (orchestrator_parts_shown self.old) (orchestrator_parts_shown self.new) (Comes frame.now) Hears result }
        ensures allowed { IsAllowed frame.now.party frame.now.body }
        ensures stays { OnErr result (orchestrator_parts_shown self.new ≡ orchestrator_parts_shown self.old) }
        ensures filed { IsFiled self.new }
        ensures ignored { RowsAnswer (Hears IsIgnored) (row_moves (orchestrator_parts_shown self.old) (Comes frame.now)) → IsOk result }
        ensures quiet { RowsAnswer (hears None) (row_moves (orchestrator_parts_shown self.old) (Comes frame.now)) → IsOk result }
    {
        let Body::Reply(kind, reply) = frame.body() else {
            return Ok(Heard::Ignored);
        };
        let Some(index) = index_replied(&self.catalog, frame.number(), frame.party(), *kind) else {
            return Ok(Heard::Ignored);
        };
        let sent = self.step(index, step_of(*kind, reply))?;
        Ok(Heard::Taken(sent))
    }
}
