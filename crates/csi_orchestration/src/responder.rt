//! What answers lines, with its record.
ghost use Rattle.std.specs.Prelude.{◌≡◌, ℕ, List, map, Err, IfOk, OnOk, OnErr};
ghost use Rattle.csi_service.specs.Public.Answering.{AreRecord};
ghost use Rattle.csi_orchestration.specs.Public.LinesAnswering.{AppendsAnswer};
ghost use Rattle.csi_stores.specs.Public.Part.{StoredPart, StoredChange, part_change};
ghost use Rattle.csi_stores.specs.Public.Content.{all_changed};

use csi_stores::Part;
use csi_types::NoMemory;
use std::alloc::AllocError;

/// Why a line isn't answered. This profile's own.
#[derive(Clone, Copy, Debug, PartialEq, Eq)]
pub enum Unanswered {
    /// An allocation was refused.
    NoMemory,
    /// The line tells that the store is an older one.
    OlderStore,
}

impl From<NoMemory> for Unanswered {
    ghost use Rattle.std.specs.Prelude.{◌≡◌};
    ghost use Rattle.csi_orchestration.specs.declared.responder.Unanswered.TheVariants.{NoMemory as Refused};

    ghost from_gives = { λ _ why. why ≡ Refused };

    fn from(_refused: NoMemory) -> Unanswered {
        Unanswered::NoMemory
    }
}

impl From<AllocError> for Unanswered {
    ghost use Rattle.std.specs.Prelude.{◌≡◌};
    ghost use Rattle.csi_orchestration.specs.declared.responder.Unanswered.TheVariants.{NoMemory as Refused};

    ghost from_gives = { λ _ why. why ≡ Refused };

    fn from(_refused: AllocError) -> Unanswered {
        Unanswered::NoMemory
    }
}

/// What answers lines, one after another, and whose record is kept as parts. This profile's own.
pub trait Responder: Drop {
    /// Its record.
    type Record;

    /// These are the parts of this record, by rising key, and all that is in them is within its limits.
    ghost spells: { Self.Record → List StoredPart → Type 0 };

    /// The parts of its record, by rising key.
    ghost parts_of: { Self → List StoredPart };

    /// What the last line that was answered changed of them; nothing before any line.
    ghost changes: { Self → List StoredChange };

    /// All that is in its record is within its limits.
    ghost is_fit: { Self → Type 0 };

    /// So is what the last line that was answered changed.
    ghost is_fit_change: { Self → Type 0 };

    /// A line, without its newline, gets this answer, without its own, and leads from one state to another.
    ghost answers: { Self → List ℕ → List ℕ → Self → Type 0 };

    /// The line tells it that its store is an older one.
    ghost is_older: { Self → List ℕ → Type 0 };

    /// Answers a line, without its newline, and appends the answer and a newline. At an `Err` the bytes are as they were, and the responder is
    /// spent: nothing is known of it, and its store is to be opened again.
    fn answer_into(&mut self, line: &[u8], out: &mut Vec<u8>) -> Result<(), Unanswered>
        ensures answered { OnOk result (AppendsAnswer answers self.old line.now self.new out.old.items out.new.items) }
        ensures parts { OnOk result (parts_of self.new ≡ all_changed (changes self.new) (parts_of self.old)) }
        ensures fit { OnOk result (is_fit self.old → is_fit_change self.new → is_fit self.new) }
        ensures older { result ≡ Err Unanswered.OlderStore → is_older self.old line.now }
        ensures err_bytes { OnErr result (out.new.items ≡ out.old.items) };

    /// What the last line that was answered changed: the parts to be put in or taken out.
    fn parts(&self) -> Result<Vec<Part>, NoMemory>
        ensures changes { IfOk result (λ parts. map part_change parts.items ≡ changes self.now) }
        ensures fit { OnOk result (is_fit_change self.now) };

    /// A law, and nothing that runs: where all in a responder is within its limits its parts are those of a record.
    fn record_law(&self)
        ensures { is_fit self.now → AreRecord spells (parts_of self.now) };
}
