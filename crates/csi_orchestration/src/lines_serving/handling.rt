//! A responder over a store, which answers the lines of a stream; those that are there together are committed together.
ghost use Rattle.std.specs.Prelude.{◌≡◌, ◌++◌, map, true, OnOk, OnErr};
ghost use Rattle.csi_stores.specs.Public.Part.{part_change};
ghost use Rattle.csi_streams.specs.Public.Answering.{Adds};
ghost use Rattle.csi_streams.specs.Public.LinesOf.{with_newline};
ghost use Rattle.csi_streams.specs.Public.Waiting.{WaitsSame};
ghost use Rattle.csi_orchestration.specs.Public.LinesAnswering.{AnswersInRecord};
ghost use Rattle.csi_orchestration.specs.Private.LinesHandling.{always, IsHandled, Flushes, StopsLine, handler_stopped_by, stopped_by};

use crate::lines_serving::fault::{LinesServeFault, LinesServeFaultKind};
use crate::responder::{Responder, Unanswered};
use csi_stores::{Counted, Keep, Part};
use csi_streams::{AnswerFault, DriveStop, LineHandler, LinesFault, Waiting};
use csi_types::NoMemory;
use std::io::Write;

/// What answers the lines, what waits of those that it answered, and whether the last line told that the store is an older one.
#[derive(Drop)]
pub(crate) struct ResponderHandler<C> {
    pub responder: C,
    pub waiting: Waiting,
    pub is_older: bool,
}

// Puts what the last line changed behind the parts. An `Err` leaves them as they were.
fn push_changed<C: Responder>(responder: &C, parts: &mut Vec<Part>) -> Result<(), NoMemory>
    ensures ok { OnOk result (map part_change parts.new.items ≡ map part_change parts.old.items ++ C.changes responder.now) }
    ensures fit { OnOk result (C.is_fit_change responder.now) }
    ensures err { OnErr result (parts.new.items ≡ parts.old.items) }
{
    let mut more = responder.parts()?;
    parts.append(&mut more)?;
    Ok(())
}

impl<C: Responder> ResponderHandler<C> {
    // Answers a line, whose answer and changed parts wait then. An `Err` leaves what waits, and nothing is known of the responder then.
    fn add(&mut self, line: &[u8]) -> Result<(), NoMemory>
        ensures ok { OnOk result (Adds (AnswersInRecord C.is_fit C.spells C.parts_of C.answers) C.parts_of with_newline always
            self.old.responder self.old.waiting line.now self.new.responder self.new.waiting) }
        ensures err { OnErr result (WaitsSame self.old.waiting self.new.waiting) }
        ensures older { OnErr result (self.new.is_older ≡ true → C.is_older self.old.responder line.now) }
    {
        let len = self.waiting.out.len();
        self.is_older = false;
        match self.responder.answer_into(line, &mut self.waiting.out) {
            Ok(()) => {}
            Err(Unanswered::NoMemory) => return Err(NoMemory),
            Err(Unanswered::OlderStore) => {
                self.is_older = true;
                return Err(NoMemory);
            }
        }
        self.responder.record_law();
        match push_changed(&self.responder, &mut self.waiting.parts) {
            Ok(()) => {
                self.waiting.items = self.waiting.items.saturating_add(1);
                self.waiting.answers = self.waiting.answers.saturating_add(1);
                Ok(())
            }
            Err(NoMemory) => {
                self.waiting.out.truncate(len);
                Err(NoMemory)
            }
        }
    }
}

impl<C: Responder, K: Keep, W: Write> LineHandler<K, Counted<W>> for ResponderHandler<C> {
    type Fault = AnswerFault;

    ghost handles = { λ old number line new. IsHandled (AnswersInRecord C.is_fit C.spells C.parts_of C.answers) C.parts_of K.store W.contents old line new };

    ghost flushes = { Flushes K.store W.contents };

    ghost is_flushed = { λ answering. answering.waiting.items ≡ 0 };

    ghost stops = { StopsLine C.is_older K.store W.contents };

    fn handle(
        &mut self,
        keep: &mut K,
        writer: &mut Counted<W>,
        _number: u64,
        line: &[u8],
    ) -> Result<(), AnswerFault> {
        self.is_older = false;
        match self.waiting.settle_many(keep, writer) {
            Ok(()) => {}
            Err(stop) => return Err(stop),
        }
        match self.add(line) {
            Ok(()) => Ok(()),
            Err(NoMemory) => match self.waiting.settle(keep, writer) {
                Ok(()) => Err(AnswerFault::NoMemory),
                Err(stop) => Err(stop),
            },
        }
    }

    fn flush(&mut self, keep: &mut K, writer: &mut Counted<W>) -> Result<(), AnswerFault> {
        self.is_older = false;
        match self.waiting.settle(keep, writer) {
            Ok(()) => Ok(()),
            Err(stop) => Err(stop),
        }
    }
}

// Why a handler stopped: there was no memory for a line, or it told that the store is an older one; or what waits was refused.
fn kind_of(fault: AnswerFault, is_older: bool) -> LinesServeFaultKind
    ensures { result ≡ handler_stopped_by is_older fault }
{
    match fault {
        AnswerFault::NoMemory => {
            if is_older {
                LinesServeFaultKind::OlderStore
            } else {
                LinesServeFaultKind::NoMemory
            }
        }
        AnswerFault::Keep(fault) => LinesServeFaultKind::Keep(fault),
        AnswerFault::Output => LinesServeFaultKind::Output,
    }
}

/// Why serving stopped, after so many lines that were committed, and whether the next one told that the store is an older one.
pub(crate) fn stopped(
    stop: DriveStop<LinesFault<AnswerFault>>,
    is_older: bool,
    lines: u64,
) -> LinesServeFault
    ensures { result ≡ record { kind = stopped_by is_older stop; lines = lines } }
{
    let kind = match stop {
        DriveStop::Input => LinesServeFaultKind::Input,
        DriveStop::Endless => LinesServeFaultKind::Endless,
        DriveStop::Consumer(LinesFault::Long(number)) => LinesServeFaultKind::Long(number),
        DriveStop::Consumer(LinesFault::NoMemory) => LinesServeFaultKind::NoMemory,
        DriveStop::Consumer(LinesFault::Handler(fault)) => kind_of(fault, is_older),
    };
    LinesServeFault { kind, lines }
}
