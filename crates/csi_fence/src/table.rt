//! A plugin's table, by which rows answer calls.
ghost use Rattle.std.specs.Prelude.{◌≡◌, ◌≤◌, ℕ, List, [], All, Some, None, true, map, filter, find, position, length, slice_get, slice_set, IfOk, IfSome, IsOk, IsTrue, OnOk, OnErr};
ghost use Rattle.csi_types.specs.declared.call.Call.{Call as CallParts};
ghost use Rattle.csi_types.specs.declared.frame.Body.TheVariants.{Reply as ReplyBody};
ghost use Rattle.csi_types.specs.declared.number.Number.{Number as CallNumber};
ghost use Rattle.csi_types.specs.Model.Call.{kind_of};
ghost use Rattle.csi_types.specs.Public.Call.{is_party_of};
ghost use Rattle.csi_types.specs.Public.Frame.{IsAllowed};
ghost use Rattle.csi_types.specs.Public.Lent.{lent_call};
ghost use Rattle.csi_fence.specs.Public.Line.{told_by};
ghost use Rattle.csi_fence.specs.Public.Rows.{Plan, AreRising, put_row, stays_in, Made};
ghost use Rattle.csi_fence.specs.Public.Table.{IsAbsent, IsAllowedAbsent, MakesNone, HasRoomIn, IsOrderly, LetsKeep, HasOneRow, reply_of_lacking};

use crate::fault::CoreFault;
use crate::line::Line;
use csi_types::{CallRef, Kind, Number, Reply, Status, VolumeId};
use std::alloc::Global;

/// What a call gets that has no row (this profile's own).
pub enum Absent<Row, Room> {
    /// This reply; nothing changes.
    Answered(Reply),
    /// A row, which keeps the call and its reply; a copy of that; and what is kept ready for entering the row.
    Made(Row, Reply, Room),
}

/// A plugin's table, with what it keeps beside the rows: what a call's row answers, and what the call changes of it (this profile's own).
pub trait Table: Drop {
    /// A row, with its last call and the reply to that.
    type Row: Drop;

    /// What is kept ready for a row that is made.
    type Room: Drop;

    /// What never changes of the plugin.
    ghost Fixed: { Type 0 };

    /// What else it knows, beside the rows and the session.
    ghost Own: { Type 0 };

    /// A row as definitions have it.
    ghost Shown: { Type 0 };

    ghost fixed: { Self → Fixed };

    ghost own: { Self → Own };

    ghost shown: { Self.Row → Shown };

    /// The table as definitions have it.
    ghost plan: { Plan Fixed Own Shown };

    /// The rules of a row.
    ghost is_sound: { Own → Shown → Type 0 };

    /// What the table keeps beside these rows fits them.
    ghost agrees: { Self → List Shown → Type 0 };

    /// What is kept ready is for this row.
    ghost has_room: { Self → Self.Room → Shown → Type 0 };

    /// The calls that take no memory where they are answered `Ok`.
    ghost is_frugal: { CallParts → Type 0 };

    fn id(row: &Self::Row) -> VolumeId
        ensures { result ≡ plan.id (shown row.now) };

    /// The number of the last call.
    fn last(row: &Self::Row) -> Number
        ensures { result ≡ (plan.kept (shown row.now)).number };

    /// Its kind.
    fn kind(row: &Self::Row) -> Kind
        ensures { result ≡ (plan.kept (shown row.now)).kind };

    /// The reply to it.
    fn reply(row: &Self::Row) -> &Reply
        ensures { result.now ≡ (plan.kept (shown row.now)).reply };

    /// Whether the row is forgotten where a session begins.
    fn is_empty(row: &Self::Row) -> bool
        ensures { result ≡ plan.is_empty (shown row.now) };

    /// Keeps this in the row.
    fn keep(row: &mut Self::Row, number: Number, kind: Kind, reply: Reply)
        ensures { shown row.new ≡ plan.keep (record { number = number; kind = kind; reply = reply }) (shown row.old) };

    /// Where the row of the call is.
    fn find(&self, rows: &[Self::Row], call: &CallRef<'_>) -> Option<usize>
        requires rising { AreRising plan.id (map shown rows.now) }
        requires agrees { agrees self.now (map shown rows.now) }
        ensures { result ≡ position (plan.is_for (lent_call call.now)) (map shown rows.now) };

    /// What the row answers to a call of its plugin that is its own.
    fn line<'a>(&self, row: &'a Self::Row, call: &CallRef<'_>) -> Line<'a>
        requires party { IsTrue (is_party_of (kind_of (lent_call call.now)) (plan.party (fixed self.now))) }
        requires own { plan.is_for (lent_call call.now) (shown row.now) ≡ true }
        requires sound { is_sound (own self.now) (shown row.now) }
        ensures told { (rows : List Shown) → agrees self.now rows →
            told_by result ≡ plan.line (fixed self.now) rows (shown row.now) (lent_call call.now) }
        ensures allowed { IsAllowed (plan.party (fixed self.now)) (ReplyBody (kind_of (lent_call call.now)) (told_by result).reply) }
        ensures plain { (told_by result).reply.status ≡ Status.Ok → (told_by result).reply.detail ≡ [] };

    /// Makes the change to the row that the table has for the call. An `Err` changes nothing.
    fn change(
        &mut self,
        row: &mut Self::Row,
        alloc: Global,
        call: &CallRef<'_>,
    ) -> Result<(), CoreFault>
        requires party { IsTrue (is_party_of (kind_of (lent_call call.now)) (plan.party (fixed self.old))) }
        requires own { plan.is_for (lent_call call.now) (shown row.old) ≡ true }
        requires sound { is_sound (own self.old) (shown row.old) }
        requires done { (rows : List Shown) × agrees self.old rows × ((plan.line (fixed self.old) rows (shown row.old) (lent_call call.now)).is_done ≡ true) }
        ensures fixed { fixed self.new ≡ fixed self.old }
        ensures own { own self.new ≡ own self.old }
        ensures row { OnOk result (shown row.new ≡ plan.change (lent_call call.now) (shown row.old)) }
        ensures sound { OnOk result (is_sound (own self.old) (shown row.new)) }
        ensures agrees { OnOk result ((rows : List Shown) (place : ℕ) → agrees self.old rows → slice_get rows place ≡ Some (shown row.old) →
            agrees self.new (slice_set rows place (shown row.new))) }
        ensures err { OnErr result (shown row.new ≡ shown row.old) }
        ensures err_agrees { OnErr result ((rows : List Shown) → agrees self.old rows → agrees self.new rows) }
        ensures frugal { is_frugal (lent_call call.now) → IsOk result };

    /// What a call of the plugin gets that has no row among so many. It changes nothing.
    fn absent(
        &mut self,
        count: usize,
        alloc: Global,
        number: Number,
        call: &CallRef<'_>,
    ) -> Result<Absent<Self::Row, Self::Room>, CoreFault>
        requires party { IsTrue (is_party_of (kind_of (lent_call call.now)) (plan.party (fixed self.old))) }
        ensures fixed { fixed self.new ≡ fixed self.old }
        ensures own { own self.new ≡ own self.old }
        ensures agrees { (rows : List Shown) → agrees self.old rows → agrees self.new rows }
        ensures told { (rows : List Shown) → length rows ≡ count → IfOk result (λ absent. IsAbsent plan is_sound shown
            (own self.old) (plan.absent (fixed self.old) (own self.old) rows number (lent_call call.now)) absent) }
        ensures allowed { IfOk result (IsAllowedAbsent (plan.party (fixed self.old)) (kind_of (lent_call call.now))) }
        ensures room { IfOk result (HasRoomIn has_room shown self.new) }
        ensures none { is_frugal (lent_call call.now) → IfOk result MakesNone }
        ensures frugal { is_frugal (lent_call call.now) → (rows : List Shown) → length rows ≡ count →
            (reply_of_lacking plan (plan.absent (fixed self.old) (own self.old) rows number (lent_call call.now))).status ≡ Status.Ok → IsOk result };

    /// Enters a row that was made, for which there is room. It takes no memory.
    fn enter(&mut self, room: Self::Room, row: &Self::Row)
        requires { has_room self.old room (shown row.now) }
        ensures fixed { fixed self.new ≡ fixed self.old }
        ensures own { own self.new ≡ plan.next (own self.old) }
        ensures agrees { (rows : List Shown) (number : CallNumber) (call : CallParts) → agrees self.old rows → AreRising plan.id rows →
            All (is_sound (own self.old)) rows → find (plan.is_for call) rows ≡ None →
            plan.absent (fixed self.old) (own self.old) rows number call ≡ Made (shown row.now) → agrees self.new (put_row plan.id (shown row.now) rows) };

    /// Leaves out what it keeps of rows that are forgotten, where this session has begun. It takes no memory.
    fn leave(&mut self, rows: &[Self::Row], session: u64)
        requires rising { AreRising plan.id (map shown rows.now) }
        requires agrees { agrees self.old (map shown rows.now) }
        ensures fixed { fixed self.new ≡ fixed self.old }
        ensures own { own self.new ≡ own self.old }
        ensures agrees { agrees self.new (filter (stays_in plan session) (map shown rows.now)) }
        ensures room { (room : Self.Room) (row : Shown) → has_room self.old room row → has_room self.new room row };

    ghost orderly: { IsOrderly plan is_sound };

    ghost lets_keep: { (table : Self) → LetsKeep plan (agrees table) };

    ghost has_one_row: { (table : Self) → HasOneRow plan (agrees table) };
}
