//! A core over a store, which answers the frames of a stream; those that are there together are committed together.
ghost use Rattle.std.specs.Prelude.{◌≡◌, ◌++◌, map, is_some, OnOk, OnErr};
ghost use Rattle.csi_frames.specs.Public.Lent.{lent_frame};
ghost use Rattle.csi_stores.specs.Public.Part.{part_change};
ghost use Rattle.csi_streams.specs.Public.Answering.{Adds};
ghost use Rattle.csi_streams.specs.Public.Waiting.{WaitsSame, StopsAt};
ghost use Rattle.csi_service.specs.Public.Answering.{AnswersInRecord};
ghost use Rattle.csi_service.specs.Public.Serving.{reply_bytes};
ghost use Rattle.csi_service.specs.Private.Handling.{waiting_of, IsHandled, Flushes, stopped_by};

use crate::plugin_core::Core;
use crate::serving::fault::{ServeFault, ServeFaultKind};
use csi_frames::FrameRef;
use csi_stores::{Counted, Keep, Part};
use csi_streams::{AnswerFault, DriveStop, FrameHandler, FramesFault, Waiting};
use csi_types::NoMemory;
use std::io::Write;

/// A core, and what waits of the frames that it answered.
#[derive(Drop)]
pub(crate) struct CoreHandler<C> {
    pub core: C,
    pub waiting: Waiting,
}

// Puts what the last frame changed behind the parts. An `Err` leaves them as they were.
fn push_changed<C: Core>(core: &C, parts: &mut Vec<Part>) -> Result<(), NoMemory>
    ensures ok { OnOk result (map part_change parts.new.items ≡ map part_change parts.old.items ++ C.changes core.now) }
    ensures fit { OnOk result (C.is_fit_change core.now) }
    ensures err { OnErr result (parts.new.items ≡ parts.old.items) }
{
    let mut more = core.parts()?;
    parts.append(&mut more)?;
    Ok(())
}

impl<C: Core> CoreHandler<C> {
    // Answers a frame, whose reply and changed parts wait then. An `Err` leaves what waits, and nothing is known of the core then.
    fn add(&mut self, frame: &FrameRef<'_>) -> Result<(), NoMemory>
        ensures ok { OnOk result (Adds (AnswersInRecord C.is_fit C.spells C.parts_of C.answers) C.parts_of reply_bytes is_some
            self.old.core self.old.waiting (lent_frame frame.now) self.new.core self.new.waiting) }
        ensures err { OnErr result (WaitsSame self.old.waiting self.new.waiting) }
    {
        let len = self.waiting.out.len();
        let replied = self.core.answer_into(frame, &mut self.waiting.out)?;
        self.core.record_law();
        match push_changed(&self.core, &mut self.waiting.parts) {
            Ok(()) => {
                let more = if replied { 1 } else { 0 };
                self.waiting.items = self.waiting.items.saturating_add(1);
                self.waiting.answers = self.waiting.answers.saturating_add(more);
                Ok(())
            }
            Err(NoMemory) => {
                self.waiting.out.truncate(len);
                Err(NoMemory)
            }
        }
    }
}

impl<C: Core, K: Keep, W: Write> FrameHandler<K, Counted<W>> for CoreHandler<C> {
    type Fault = AnswerFault;

    ghost handles = { λ old place frame new. IsHandled (AnswersInRecord C.is_fit C.spells C.parts_of C.answers) C.parts_of K.store W.contents old frame new };

    ghost flushes = { Flushes K.store W.contents };

    ghost is_flushed = { λ answering. answering.waiting.items ≡ 0 };

    ghost stops = { λ old frame new. StopsAt K.store W.contents (waiting_of old) (waiting_of new) };

    fn handle(
        &mut self,
        keep: &mut K,
        writer: &mut Counted<W>,
        _place: u64,
        frame: &FrameRef<'_>,
    ) -> Result<(), AnswerFault> {
        match self.waiting.settle_many(keep, writer) {
            Ok(()) => {}
            Err(stop) => return Err(stop),
        }
        match self.add(frame) {
            Ok(()) => Ok(()),
            Err(NoMemory) => match self.waiting.settle(keep, writer) {
                Ok(()) => Err(AnswerFault::NoMemory),
                Err(stop) => Err(stop),
            },
        }
    }

    fn flush(&mut self, keep: &mut K, writer: &mut Counted<W>) -> Result<(), AnswerFault> {
        match self.waiting.settle(keep, writer) {
            Ok(()) => Ok(()),
            Err(stop) => Err(stop),
        }
    }
}

/// Why serving stopped, after so many frames that were committed.
pub(crate) fn stopped(stop: DriveStop<FramesFault<AnswerFault>>, frames: u64) -> ServeFault
    ensures { result ≡ record { kind = stopped_by stop; frames = frames } }
{
    let kind = match stop {
        DriveStop::Input => ServeFaultKind::Input,
        DriveStop::Endless => ServeFaultKind::Endless,
        DriveStop::Consumer(FramesFault::Frame(kind, place)) => ServeFaultKind::Frame(kind, place),
        DriveStop::Consumer(FramesFault::NoMemory) => ServeFaultKind::NoMemory,
        DriveStop::Consumer(FramesFault::Handler(AnswerFault::NoMemory)) =>
            ServeFaultKind::NoMemory,
        DriveStop::Consumer(FramesFault::Handler(AnswerFault::Keep(fault))) => ServeFaultKind::Keep(
            fault,
        ),
        DriveStop::Consumer(FramesFault::Handler(AnswerFault::Output)) => ServeFaultKind::Output,
    };
    ServeFault { kind, frames }
}
