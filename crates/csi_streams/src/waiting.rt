//! What waits of the items that were answered, frames or lines: what they changed is committed at once, and then their answers are written.
ghost use Rattle.std.specs.Prelude.{◌≡◌, ◌<◌, ◌⊎◌, [], length};
ghost use Rattle.csi_streams.specs.Public.Waiting.{SettlesWaiting};

use crate::merging::merge_heads;
use csi_stores::{Counted, Keep, KeepFault, Part, WriteFailed, write_out};
use std::alloc::Global;
use std::io::Write;

/// Where so many parts wait, they are committed before another item is answered.
const MOST_PARTS: usize = 1024;

/// Why items were not answered to the end.
#[derive(Clone, Copy, Debug)]
pub enum AnswerFault {
    /// There is no memory for an item; what was answered before it is committed and written.
    NoMemory,
    /// The store refused what the items changed that waited, whose answers are not written.
    Keep(KeepFault),
    /// The writer failed at their answers; they are committed.
    Output,
}

/// Of the items that were answered since the last commit: the bytes of their answers, the parts that they changed, in their order, and how
/// many items there are; how many items were committed; and how many answers were given to all of these. Counts go up to 2^64 - 1.
#[derive(Drop)]
pub struct Waiting {
    pub out: Vec<u8>,
    pub parts: Vec<Part>,
    pub items: u64,
    pub committed: u64,
    pub answers: u64,
}

impl Waiting {
    /// Nothing was answered yet. It takes no memory.
    pub fn new(alloc: Global) -> Waiting
        ensures out { result.out.items ≡ [] }
        ensures parts { result.parts.items ≡ [] }
        ensures items { result.items ≡ 0 }
        ensures committed { result.committed ≡ 0 }
        ensures answers { result.answers ≡ 0 }
    {
        Waiting {
            out: Vec::new(alloc),
            parts: Vec::new(alloc),
            items: 0,
            committed: 0,
            answers: 0,
        }
    }

    /// Commits all that the items changed that wait, in one transaction, if they changed anything, and then writes their answers.
    pub fn settle<K: Keep, W: Write>(
        &mut self,
        keep: &mut K,
        writer: &mut Counted<W>,
    ) -> Result<(), AnswerFault>
        ensures { SettlesWaiting K.store W.contents (self.new.items ≡ 0) (record { own = self.old; store = keep.old; out = writer.old })
            (record { own = self.new; store = keep.new; out = writer.new }) result }
    {
        if self.items == 0 {
            return Ok(());
        }
        if !self.parts.is_empty() {
            merge_heads(&mut self.parts);
            match keep.commit(&self.parts) {
                Ok(()) => {}
                Err(fault) => return Err(AnswerFault::Keep(fault)),
            }
        }
        self.committed = self.committed.saturating_add(self.items);
        match write_out(writer, &self.out) {
            Ok(()) => {
                self.out.clear();
                self.parts.clear();
                self.items = 0;
                Ok(())
            }
            Err(WriteFailed) => Err(AnswerFault::Output),
        }
    }

    /// The same where many parts wait; else nothing. After it fewer than 1,024 parts wait, or nothing.
    pub fn settle_many<K: Keep, W: Write>(
        &mut self,
        keep: &mut K,
        writer: &mut Counted<W>,
    ) -> Result<(), AnswerFault>
        ensures { SettlesWaiting K.store W.contents ((length self.new.parts.items < 1024) ⊎ (self.new.items ≡ 0))
            (record { own = self.old; store = keep.old; out = writer.old }) (record { own = self.new; store = keep.new; out = writer.new }) result }
    {
        if self.parts.len() < MOST_PARTS {
            return Ok(());
        }
        self.settle(keep, writer)
    }
}
