//! What is served: a plugin with its record.
ghost use Rattle.std.specs.Prelude.{◌≡◌, List, Option, map, IfOk, OnOk, OnErr};
ghost use Rattle.csi_types.specs.Model.Frame.{Frame as FrameParts};
ghost use Rattle.csi_frames.specs.Public.Lent.{lent_frame};
ghost use Rattle.csi_service.specs.Public.Answering.{AppendsReply, AnswersAsBefore, AreRecord};
ghost use Rattle.csi_stores.specs.Public.Part.{StoredPart, StoredChange, part_change};
ghost use Rattle.csi_stores.specs.Public.Content.{all_changed};

use csi_frames::FrameRef;
use csi_stores::Part;
use csi_types::NoMemory;

/// A plugin whose record is kept as parts. This profile's own.
pub trait Core: Drop {
    /// Its record, as it is written whole and read again.
    type Record;

    /// These are the parts of this record, by rising key, and all that is in them is within its limits.
    ghost spells: { Self.Record → List StoredPart → Type 0 };

    /// Two records say the same.
    ghost is_same: { Self.Record → Self.Record → Type 0 };

    /// The parts of its record, by rising key.
    ghost parts_of: { Self → List StoredPart };

    /// What the last frame that was answered changed of them; nothing before any frame.
    ghost changes: { Self → List StoredChange };

    /// All that is in its record is within its limits.
    ghost is_fit: { Self → Type 0 };

    /// So is what the last frame that was answered changed.
    ghost is_fit_change: { Self → Type 0 };

    /// A frame gets this reply, or none, and leads from one core to another.
    ghost answers: { Self → FrameParts → Option FrameParts → Self → Type 0 };

    /// Answers a frame that is lent, and appends the bytes of its reply, if it has one. The answer is whether it has one. An `Err` leaves
    /// the core and the bytes as they were.
    fn answer_into(&mut self, frame: &FrameRef<'_>, out: &mut Vec<u8>) -> Result<bool, NoMemory>
        ensures answered { IfOk result (AppendsReply answers self.old (lent_frame frame.now) self.new out.old.items out.new.items) }
        ensures parts { OnOk result (parts_of self.new ≡ all_changed (changes self.new) (parts_of self.old)) }
        ensures fit { OnOk result (is_fit self.old → is_fit_change self.new → is_fit self.new) }
        ensures err_answers { OnErr result (AnswersAsBefore answers self.old self.new) }
        ensures err { OnErr result (parts_of self.new ≡ parts_of self.old) }
        ensures err_changes { OnErr result (changes self.new ≡ changes self.old) }
        ensures err_bytes { OnErr result (out.new.items ≡ out.old.items) };

    /// What the last frame that was answered changed: the parts to be put in or taken out.
    fn parts(&self) -> Result<Vec<Part>, NoMemory>
        ensures changes { IfOk result (λ parts. map part_change parts.items ≡ changes self.now) }
        ensures fit { OnOk result (is_fit_change self.now) };

    /// A law, and nothing that runs: where all in it is within its limits the core's parts are those of a record; and the same parts are
    /// one record's alone, so they determine it.
    fn record_law(&self)
        ensures there { is_fit self.now → AreRecord spells (parts_of self.now) }
        ensures alone { (parts : List StoredPart) → (one other : Self.Record) → spells one parts → spells other parts → is_same one other };
}
