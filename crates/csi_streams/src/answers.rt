//! A stream of frames, answered by a new controller.
ghost use Rattle.std.specs.Prelude.{◌≡◌, ◌++◌, ◌∷◌, [], ℕ, List, length, IfOk, IfErr, OnOk, OnErr};
ghost use Rattle.std.specs.List.{flat_map};
ghost use Rattle.csi_frames.specs.Public.Spelling.{spelling};
ghost use Rattle.csi_types.specs.declared.call.Party.{Party as OneParty};
ghost use Rattle.csi_types.specs.Model.Frame.{Frame as FrameParts};
ghost use Rattle.csi_types.specs.Public.Frame.{IsAllowed};
ghost use Rattle.csi_types.specs.Public.Lent.{lent_call, HasFitTexts};
ghost use Rattle.csi_types.specs.Model.Replies.{call_frame};
ghost use Rattle.csi_frames.specs.Public.Stream.{FramesOf};
ghost use Rattle.csi_controller.specs.Model.State.{ControllerState, empty_controller};
ghost use Rattle.csi_controller.specs.Model.Core.{Shows};
ghost use Rattle.csi_controller.specs.Public.Step.{answer_frame};
ghost use Rattle.csi_streams.specs.Public.Replay.{replay_config, spelled_replies, AppendsAll, Fails};
ghost use Rattle.csi_streams.specs.Private.Answering.{HasAnswered};
ghost use Rattle.csi_streams.specs.Public.Failing.{TellsReader, TellsWriter};
ghost use Rattle.csi_streams.specs.Public.Streaming.{AreReplies, IsStreamed};
ghost use Rattle.csi_streams.specs.Private.Handling.{Handles};

use crate::handler::Handler;
use crate::slices::handle_slice;
use crate::streaming::{StreamFault, handle_stream};
use csi_controller::Controller;
use csi_fence::{Answer, CoreFault};
use csi_frames::{FaultKind, FrameRef, encode_reply};
use csi_stores::Counted;
use csi_types::{Body, CallRef, Config, MAX_CAPACITY, NoMemory, Number, Party};
use std::alloc::Global;
use std::io::{Read, Write};
use thiserror::Error;

/// Why a stream wasn't answered whole.
#[derive(Clone, Copy, Debug, PartialEq, Eq, Error)]
pub enum SliceFault {
    /// The bytes after the last whole frame are no frame: the kind of their first fault, and its place, counted from the
    /// front of the stream.
    #[error("{0}, at byte {1} of the stream")]
    Frame(FaultKind, u64),
    /// An allocation was refused.
    #[error("out of memory")]
    NoMemory,
}

// Appends the frame of the controller's answer. An `Err` appends nothing.
#[inline(always)]
fn append(number: Number, answer: &Answer, out: &mut Vec<u8>) -> Result<(), NoMemory>
    ensures ok { OnOk result (out.new.items ≡ out.old.items ++ flat_map spelling (answer_frame number answer.now ∷ [])) }
    ensures err { OnErr result (out.new.items ≡ out.old.items) }
{
    encode_reply(number, &Party::Controller, answer.kind, &answer.reply, out)
}

// Answers a call. An `Err` appends nothing.
fn answer_call(
    controller: &mut Controller,
    number: Number,
    call: &CallRef<'_>,
    out: &mut Vec<u8>,
) -> Result<(), NoMemory>
    ensures ok { (frames : List FrameParts) (party : OneParty) → HasAnswered controller.old frames →
        IsAllowed party (Body.Call (lent_call call.now)) → HasFitTexts (lent_call call.now)
        → OnOk result (Handles HasAnswered AreReplies frames (call_frame number party (lent_call call.now)) controller.new out.old.items out.new.items) }
    ensures err { OnErr result (out.new.items ≡ out.old.items) }
{
    // By a `?` the answer would be copied once more.
    match controller.answer(number, call) {
        Ok(Some(answer)) => append(number, &answer, out),
        Ok(None) => Ok(()),
        Err(CoreFault::NoMemory) => Err(NoMemory),
    }
}

// Each call is answered, and its reply is given, if there is one. A reply gets none.
impl Handler for Controller {
    ghost has_handled = { HasAnswered };

    ghost gives = { AreReplies };

    fn handle(
        &mut self,
        _alloc: Global,
        _place: u64,
        frame: &FrameRef<'_>,
        out: &mut Vec<u8>,
    ) -> Result<(), NoMemory> {
        match frame.call() {
            Some(call) => answer_call(self, frame.number(), call, out),
            None => Ok(()),
        }
    }
}

// A controller that made no volume, with the configuration of a replay.
fn new_controller(alloc: Global) -> Controller
    ensures config { result.config ≡ replay_config }
    ensures empty { Shows result empty_controller }
{
    let config = Config::try_new(alloc, MAX_CAPACITY, Vec::new(alloc)).unwrap();
    Controller::new(alloc, config)
}

/// Answers the frames of `input` in order, each once, as a new controller does that has no nodes and gives a volume at
/// most 2^63 - 1 bytes: appends the spellings of the replies to `out`, and gives the count of the frames. A reply and a
/// frame for a node count, and get nothing. What was appended before an `Err` stays: at `Frame` all replies to the frames
/// before the fault, at `NoMemory` those to some of the first frames. The stream and the controller's configuration are
/// this profile's own.
pub fn answer(alloc: Global, input: &[u8], out: &mut Vec<u8>) -> Result<u64, SliceFault>
    // The input is frames and a rest that begins with none,
    ensures stream { (frames : List FrameParts) × (rest : List ℕ) × FramesOf input.now frames rest }
    // and these frames were answered.
    ensures ok { (frames : List FrameParts) (rest : List ℕ) → FramesOf input.now frames rest →
        IfOk result (λ count. (count ≡ length frames) × AppendsAll spelled_replies frames rest out.old.items out.new.items) }
    ensures fault { (frames : List FrameParts) (rest : List ℕ) → FramesOf input.now frames rest →
        IfErr result (Fails spelled_replies frames rest out.old.items out.new.items) }
{
    handle_slice(alloc, new_controller(alloc), input, out)
}

/// The same of the frames that `reader` has: reads at most 65,536 bytes at a time, and writes and flushes the replies to the frames
/// that are there before it reads on, so that it takes no more memory however long the stream. What was given before an `Err`
/// is written: at `Frame` and `Input` all replies to the frames that were read, at `NoMemory` those to some of the first, at
/// `Output` a front of them. The reader failed at `Input` and at no other end, the writer at `Output`. Of a reader or a writer
/// that doesn't tell its bytes nothing is said.
pub fn answer_from<R: Read, W: Write>(
    alloc: Global,
    reader: &mut Counted<R>,
    writer: &mut Counted<W>,
) -> Result<u64, StreamFault>
    ensures streams { IsStreamed AreReplies (R.remaining reader.old.inner) (R.remaining reader.new.inner) (W.contents writer.old.inner)
        (W.contents writer.new.inner) result }
    // A device that failed is told, and no other: the reader failed at `Input` and at no other end, the writer at `Output`.
    ensures reader { TellsReader reader.old.faults reader.new.faults result }
    ensures writer { TellsWriter writer.old.faults writer.new.faults result }
{
    handle_stream(alloc, new_controller(alloc), reader, writer)
}
