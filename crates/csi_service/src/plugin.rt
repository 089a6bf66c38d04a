//! A plugin, as its service sees it.
ghost use Rattle.std.specs.Prelude.{◌≡◌, ◌<◌, ◌^◌, ℕ, List, Option, Some, map, option_map, slice_get, IfOk, IfSome};
ghost use Rattle.std.specs.Option.{option_copied};
ghost use Rattle.csi_types.specs.declared.call.Call.{Call as OneCall};
ghost use Rattle.csi_types.specs.declared.number.Number.{Number as OneNumber};
ghost use Rattle.csi_types.specs.Model.Frame.{Frame as FrameParts};
ghost use Rattle.csi_types.specs.Public.Lent.{lent_call};
ghost use Rattle.csi_stores.specs.Public.Content.{AreRisingParts};
ghost use Rattle.csi_stores.specs.Public.Part.{StoredPart};
ghost use Rattle.csi_service.specs.Private.Plugins.{machine_of, party_of, gone_ids, CarriesOut, IsCallOf, Raises, TellSame};
ghost use Rattle.csi_service.specs.Public.Answering.{AreRecord};
ghost use Rattle.csi_service.specs.Public.Plugins.{View, row_parts, record_parts, AreFit};
ghost use Rattle.csi_service.specs.Public.Raising.{head_in};

use csi_fence::{Answer, CoreFault};
use csi_types::{Body, CallRef, NoMemory, Number, VolumeId};
use std::alloc::Global;

/// A plugin whose record has a head, and a row for each volume.
pub trait Plugin: Drop {
    /// Its record, as it is written whole and read again.
    type Record;

    /// A row of it, as it is kept.
    type Row;

    /// What of it never changes.
    ghost Own: { Type 0 };

    /// A row, as definitions have it.
    ghost Shown: { Type 0 };

    /// A state that it shows.
    ghost State: { Type 0 };

    /// How it is seen.
    ghost view: { View Self Own Shown State };

    ghost shown: { Self.Row → Shown };

    /// The counts of the row's lists are bytes.
    ghost is_small: { Self.Row → Type 0 };

    /// These are the parts of this record, by rising key, and all that is in them is within its limits.
    ghost spells: { Self.Record → List StoredPart → Type 0 };

    /// Two records say the same.
    ghost is_same: { Self.Record → Self.Record → Type 0 };

    /// The numbers of its head. It takes no memory.
    fn numbers(&self) -> (u64, u64)
        ensures { result ≡ view.numbers self.now };

    /// The row at a place, by rising id. It takes no memory, and is no search.
    fn row_at(&self, place: usize) -> Option<&Self::Row>
        ensures row { option_map shown (option_copied result) ≡ slice_get (view.rows self.now) place }
        ensures small { IfSome (option_copied result) is_small };

    /// The id of a row.
    fn id_of(row: &Self::Row) -> VolumeId
        ensures { result ≡ (view.part (shown row.now)).key };

    /// The value of a row's part.
    fn value_of(alloc: Global, row: &Self::Row) -> Result<Vec<u8>, NoMemory>
        requires { is_small row.now }
        ensures value { IfOk result (λ value. value.items ≡ (view.part (shown row.now)).value) }
        ensures fits { IfOk result (λ value. view.IsRow (shown row.now)) };

    /// The value of the head, with this session.
    fn head_value(&self, alloc: Global, session: u64) -> Result<Vec<u8>, NoMemory>
        ensures { IfOk result (λ value. value.items ≡ (head_in view session self.now).value) };

    /// The volumes that it forgets where a session begins.
    fn forgettable(&self) -> Result<Vec<VolumeId>, CoreFault>
        ensures { IfOk result (λ ids. ids.items ≡ gone_ids view self.now) };

    /// Answers a call of it, which is within its limits, by the fence and the table. A refusal leaves what it shows, and its record.
    fn carry_out(&mut self, number: Number, call: &CallRef<'_>) -> Result<Option<Answer>, CoreFault>
        requires { IsCallOf (party_of view self.old) (lent_call call.now) }
        ensures { CarriesOut view self.old self.new number (lent_call call.now) result };

    /// This session begins, where it is later than the greatest that came, as if a call had begun it. It takes no memory.
    fn raise(&mut self, session: u64)
        ensures { Raises view session self.old self.new };

    /// Laws, and nothing that runs: its rows' parts stand by rising key; it shows a state, which tells what it tells; the table
    /// replies to each call; where all in it is within its limits its parts are those of a record; and the same parts are one record's alone.
    fn plugin_law(&self)
        ensures rising { AreRisingParts (row_parts view self.now) }
        ensures session { (view.numbers self.now).1 < 2 ^ 64 }
        ensures shown { (state : State) × view.Shows self.now state }
        ensures told { (other : Self) (state : State) → view.Shows self.now state → view.Shows other state → TellSame view self.now other }
        ensures replies { (state : State) (number : OneNumber) (call : OneCall) → (frame : FrameParts)
            × (((machine_of view self.now).carried_out state number call).reply ≡ Some frame) }
        ensures there { AreFit view self.now → AreRecord spells (record_parts view self.now) }
        ensures alone { (parts : List StoredPart) → (one other : Self.Record) → spells one parts → spells other parts → is_same one other };
}
