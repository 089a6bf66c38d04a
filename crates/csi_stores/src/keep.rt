//! Where records are kept.
ghost use Rattle.std.specs.Prelude.{◌≡◌, ◌≤◌, ℕ, List, map, IfOk, IfErr, OnOk};
ghost use Rattle.csi_stores.specs.Public.Part.{StoredPart, put_all, part_change};
ghost use Rattle.csi_stores.specs.Public.Keeping.{RefusesAt};
ghost use Rattle.csi_stores.specs.Public.Stores.{Store, Found, Parts, IsOnly, FindsSome, IsLoadFault, CommitsChanges};

use crate::part::Part;
use csi_types::NoMemory;
use thiserror::Error;

/// Why a store refused a call. This profile's own.
#[derive(Clone, Copy, Debug, PartialEq, Eq, Error)]
pub enum KeepFault {
    /// The device under the store failed.
    #[error("the device failed")]
    Device,
    /// An allocation was refused.
    #[error("out of memory")]
    NoMemory,
    /// What the store has is no record: the position, from 0, of the first part that is refused.
    #[error("no record, at part {0}")]
    BadRecord(u64),
    /// The parts don't fit.
    #[error("the store is full")]
    Full,
}

impl From<NoMemory> for KeepFault {
    ghost use Rattle.std.specs.Prelude.{◌≡◌};
    ghost use Rattle.csi_stores.specs.declared.keep.KeepFault.TheVariants.{NoMemory as Refused};

    ghost from_gives = { λ _ fault. fault ≡ Refused };

    fn from(_refused: NoMemory) -> KeepFault {
        KeepFault::NoMemory
    }
}

/// A store of parts, which gives them back when it is opened again. This profile's own.
pub trait Keep {
    /// What it is now: its parts, what opening it again may find, its room, its faults, and whether all outside it did as it says.
    ghost store: { Self → Store };

    /// All parts, by rising key. Where there is no list of parts that is refused, with the place of the first thing that is none.
    /// What opening again may find only gets less, and never nothing; where the parts were given, opening again finds them alone.
    fn load(&mut self) -> Result<Vec<Part>, KeepFault>
        ensures honest { (store self.new).honest → (store self.old).honest }
        ensures parts { (store self.new).honest → (content : List StoredPart) → (store self.old).holds content →
            IfOk result (λ parts. map part_change parts.items ≡ put_all content) }
        ensures stays { (store self.new).honest → (content : List StoredPart) → (store self.old).holds content →
            OnOk result (IsOnly (store self.new) (Parts content)) }
        ensures foreign { (store self.new).honest → (place : ℕ) → (store self.old).foreign place → RefusesAt place result }
        ensures left { (store self.new).honest → (found : Found) → (store self.new).leaves found → (store self.old).leaves found }
        ensures some { (store self.new).honest → (found : Found) → IsOnly (store self.old) found → FindsSome (store self.new) }
        ensures room { (content : List StoredPart) → (store self.old).fits content → (store self.new).fits content }
        ensures no_more_room { (content : List StoredPart) → (store self.new).fits content → (store self.old).fits content }
        ensures faults { (store self.old).faults ≤ (store self.new).faults }
        ensures cause { IfErr result (λ fault. IsLoadFault (store self.old) (store self.new) fault) };

    /// Puts parts in and takes them out, one after another, all or none. Where all is done, opening again finds that alone. After a refusal
    /// it finds what it would have found before, or all of them done.
    fn commit(&mut self, parts: &[Part]) -> Result<(), KeepFault>
        ensures { CommitsChanges (store self.old) (store self.new) (map part_change parts.now) result };

    /// How often the device failed so far; a count of 2^64 - 1 stays. It takes no memory.
    fn faults(&self) -> u64
        ensures { result ≡ (store self.now).faults };
}
