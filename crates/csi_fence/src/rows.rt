//! Rows by id, behind the fence.
ghost use Rattle.std.specs.Prelude.{◌≡◌, ◌≤◌, ◌<◌, ◌==◌, Some, None, true, false, map, find, count_by, position, length, slice_get, vec_capacity};
ghost use Rattle.csi_types.specs.Public.Lent.{lent_call};
ghost use Rattle.csi_fence.specs.Private.Rows.{HaveForgotten, IsAskedInTime, IsCarriedOutAt, CanForget};
ghost use Rattle.csi_fence.specs.Public.Raised.{raised_rows};
ghost use Rattle.csi_fence.specs.Public.Rows.{AreKept, AreRising, HaveAnswered, IsAskedOf, put_row, rows_shown, staying};

use crate::answer::Answer;
use crate::fault::CoreFault;
use crate::fence::{Verdict, verdict_of};
use crate::places::place_of;
use crate::table::{Absent, Table};
use crate::verdicts::{repeated, stale};
use csi_types::{CallRef, Number, Reply};
use std::alloc::Global;

/// A plugin's rows by rising id, and its table: they answer a call behind the fence (this profile's own).
pub struct Rows<T: Table> {
    pub alloc: Global,
    /// The greatest session that came, 0 before any did.
    pub session: u64,
    pub rows: Vec<T::Row>,
    /// How many rows are empty, so that they are forgotten where a session begins.
    pub empty: usize,
    pub table: T,
}

impl<T: Table> Drop for Rows<T> {
    fn drop(self) {
        let Rows {
            alloc: _,
            session: _,
            rows: _,
            empty: _,
            table: _,
        } = self;
    }
}

impl<T: Table> Rows<T> {
    /// The rows of a plugin that heard of this session.
    pub fn new(alloc: Global, session: u64, rows: Vec<T::Row>, table: T) -> Rows<T>
        ensures session { result.session ≡ session }
        ensures rows { result.rows ≡ rows }
        ensures table { result.table ≡ table }
        ensures empty { result.empty ≡ count_by T.plan.is_empty (map T.shown rows.items) }
    {
        let mut empty = 0;
        for row in rows.as_slice() {
            if T::is_empty(row) {
                empty += 1;
            }
        }
        Rows {
            alloc,
            session,
            rows,
            empty,
            table,
        }
    }

    // So many empty rows are forgotten, where the session has begun. It takes no memory.
    #[inline(never)]
    fn forget(&mut self, forgettable: usize)
        requires { CanForget T.plan (T.agrees self.old.table) (map T.shown self.old.rows.items) self.old.session forgettable self.old.empty }
        ensures { HaveForgotten T.plan T.fixed T.own T.shown T.agrees T.has_room self.old.session self.new.session self.old.table self.new.table self.old.rows
            self.new.rows self.new.empty }
    {
        let session = self.session;
        self.table.leave(self.rows.as_slice(), session);
        self.rows
            .retain(|row| !T::is_empty(row) || T::last(row).session == session);
        self.empty -= forgettable;
    }

    // The session begins, or goes on, and so many empty rows are forgotten. It takes no memory.
    #[inline(always)]
    fn begin(&mut self, session: u64, forgettable: usize)
        requires { CanForget T.plan (T.agrees self.old.table) (map T.shown self.old.rows.items) session forgettable self.old.empty }
        ensures { HaveForgotten T.plan T.fixed T.own T.shown T.agrees T.has_room session self.new.session self.old.table self.new.table self.old.rows
            self.new.rows self.new.empty }
    {
        self.session = session;
        if forgettable == 0 {
            return;
        }
        self.forget(forgettable);
    }

    // Puts in a row of a new id, for which there is room, and says where. It takes no memory.
    fn put(&mut self, row: T::Row) -> usize
        requires rising { AreRising T.plan.id (map T.shown self.old.rows.items) }
        requires new { find (λ other. T.plan.id other == T.plan.id (T.shown row)) (map T.shown self.old.rows.items) ≡ None }
        requires room { length self.old.rows.items < vec_capacity self.old.rows }
        requires few { length self.old.rows.items < 4096 }
        requires empty { self.old.empty ≡ count_by T.plan.is_empty (map T.shown self.old.rows.items) }
        ensures session { self.new.session ≡ self.old.session }
        ensures table { self.new.table ≡ self.old.table }
        ensures rows { map T.shown self.new.rows.items ≡ put_row T.plan.id (T.shown row) (map T.shown self.old.rows.items) }
        ensures place { slice_get (map T.shown self.new.rows.items) result ≡ Some (T.shown row) }
        ensures empty { self.new.empty ≡ count_by T.plan.is_empty (map T.shown self.new.rows.items) }
    {
        let (Ok(place) | Err(place)) = place_of::<T>(self.rows.as_slice(), T::id(&row));
        if T::is_empty(&row) {
            self.empty += 1;
        }
        self.rows.insert(place, row).unwrap();
        place
    }

    // Carries out a call at its row, which is at this place, and counts anew how many are empty. An `Err` changes nothing.
    fn carry_out_at(
        &mut self,
        place: usize,
        number: Number,
        call: &CallRef<'_>,
    ) -> Result<Reply, CoreFault>
        requires asked { IsAskedOf T.plan T.is_sound (T.fixed self.old.table) (lent_call call.now) (rows_shown T.own T.shown self.old.table self.old.session self.old.rows.items)
            (T.agrees self.old.table) self.old.empty }
        requires place { Some place ≡ position (T.plan.is_for (lent_call call.now)) (map T.shown self.old.rows.items) }
        ensures { IsCarriedOutAt T.plan T.is_sound T.is_frugal (T.fixed self.old.table) (T.fixed self.new.table) number (lent_call call.now) place
            (rows_shown T.own T.shown self.old.table self.old.session self.old.rows.items)
            (rows_shown T.own T.shown self.new.table self.new.session self.new.rows.items) (T.agrees self.new.table) self.new.empty result }
    {
        let row = &mut self.rows[place];
        let line = self.table.line(row, call);
        let is_done = line.is_done();
        let kept = match line.reply(self.alloc) {
            Ok(reply) => reply,
            Err(fault) => return Err(fault),
        };
        let reply = match line.reply(self.alloc) {
            Ok(reply) => reply,
            Err(fault) => return Err(fault),
        };
        if is_done {
            let was_empty = T::is_empty(row);
            match self.table.change(row, self.alloc, call) {
                Ok(()) => (),
                Err(fault) => return Err(fault),
            }
            self.empty = self.empty + usize::from(T::is_empty(row)) - usize::from(was_empty);
        }
        T::keep(row, number, call.kind(), kept);
        Ok(reply)
    }

    // Answers a call of the row at this place, by which so many rows are forgotten, behind the fence; where the call begins a session, the
    // row isn't empty. An `Err` changes nothing.
    fn answer_at_row(
        &mut self,
        place: usize,
        number: Number,
        forgettable: usize,
        call: &CallRef<'_>,
    ) -> Result<Answer, CoreFault>
        requires in_time { IsAskedInTime T.plan T.is_sound (T.fixed self.old.table) number (lent_call call.now)
            (rows_shown T.own T.shown self.old.table self.old.session self.old.rows.items) (T.agrees self.old.table) self.old.empty forgettable }
        requires place { Some place ≡ position (T.plan.is_for (lent_call call.now)) (map T.shown self.old.rows.items) }
        requires full { (row : T.Shown) → self.old.session < number.session → slice_get (map T.shown self.old.rows.items) place ≡ Some row →
            T.plan.is_empty row ≡ false }
        ensures { HaveAnswered T.plan T.is_sound T.is_frugal (T.fixed self.old.table) (T.fixed self.new.table) number (lent_call call.now)
            (rows_shown T.own T.shown self.old.table self.old.session self.old.rows.items)
            (rows_shown T.own T.shown self.new.table self.new.session self.new.rows.items) (T.agrees self.new.table) self.new.empty result }
    {
        let row = &self.rows[place];
        match verdict_of(Some(T::last(row)), number) {
            Verdict::Stale => stale(self.alloc, call.kind()),
            Verdict::Repeated => repeated::<T>(self.alloc, row),
            Verdict::Fresh => {
                let id = T::id(row);
                match self.carry_out_at(place, number, call) {
                    Ok(reply) => {
                        self.begin(number.session, forgettable);
                        let row = if forgettable == 0 {
                            Some(place)
                        } else {
                            place_of::<T>(self.rows.as_slice(), id).ok()
                        };
                        Ok(Answer {
                            kind: call.kind(),
                            reply,
                            row,
                        })
                    }
                    Err(fault) => Err(fault),
                }
            }
        }
    }

    // Answers a call that has no row, none that isn't empty where it begins a session, and by which so many are forgotten. An `Err` changes
    // nothing.
    fn answer_absent(
        &mut self,
        number: Number,
        forgettable: usize,
        call: &CallRef<'_>,
    ) -> Result<Answer, CoreFault>
        requires in_time { IsAskedInTime T.plan T.is_sound (T.fixed self.old.table) number (lent_call call.now)
            (rows_shown T.own T.shown self.old.table self.old.session self.old.rows.items) (T.agrees self.old.table) self.old.empty forgettable }
        requires none { find (T.plan.is_for (lent_call call.now)) (staying T.plan.is_empty self.old.session number (map T.shown self.old.rows.items)) ≡ None }
        ensures { HaveAnswered T.plan T.is_sound T.is_frugal (T.fixed self.old.table) (T.fixed self.new.table) number (lent_call call.now)
            (rows_shown T.own T.shown self.old.table self.old.session self.old.rows.items)
            (rows_shown T.own T.shown self.new.table self.new.session self.new.rows.items) (T.agrees self.new.table) self.new.empty result }
    {
        let count = self.rows.len() - forgettable;
        match self.table.absent(count, self.alloc, number, call)? {
            Absent::Answered(reply) => {
                self.begin(number.session, forgettable);
                Ok(Answer {
                    kind: call.kind(),
                    reply,
                    row: None,
                })
            }
            Absent::Made(row, reply, room) => {
                self.rows.reserve(1)?;
                self.begin(number.session, forgettable);
                self.table.enter(room, &row);
                let place = self.put(row);
                Ok(Answer {
                    kind: call.kind(),
                    reply,
                    row: Some(place),
                })
            }
        }
    }

    /// Answers a call of the plugin by the fence and the table: one of an earlier session than the greatest that came is stale, and one of a
    /// later session begins it, so that empty rows are forgotten. An `Err`, an allocation that was refused, changes nothing.
    pub fn answer(&mut self, number: Number, call: &CallRef<'_>) -> Result<Answer, CoreFault>
        requires { IsAskedOf T.plan T.is_sound (T.fixed self.old.table) (lent_call call.now) (rows_shown T.own T.shown self.old.table self.old.session self.old.rows.items)
            (T.agrees self.old.table) self.old.empty }
        ensures { HaveAnswered T.plan T.is_sound T.is_frugal (T.fixed self.old.table) (T.fixed self.new.table) number (lent_call call.now)
            (rows_shown T.own T.shown self.old.table self.old.session self.old.rows.items)
            (rows_shown T.own T.shown self.new.table self.new.session self.new.rows.items) (T.agrees self.new.table) self.new.empty result }
    {
        if number.session < self.session {
            return stale(self.alloc, call.kind());
        }
        // Where none is forgotten every row stays.
        let forgettable = if self.session < number.session {
            self.empty
        } else {
            0
        };
        match self.table.find(self.rows.as_slice(), call) {
            Some(place) if forgettable == 0 || !T::is_empty(&self.rows[place]) => {
                self.answer_at_row(place, number, forgettable, call)
            }
            _ => self.answer_absent(number, forgettable, call),
        }
    }

    /// This session begins, where it is later than the greatest that came, as if a call had begun it: empty rows are forgotten. It takes
    /// no memory.
    pub fn raise(&mut self, session: u64)
        requires kept { AreKept T.plan T.is_sound (T.agrees self.old.table) (rows_shown T.own T.shown self.old.table self.old.session self.old.rows.items) self.old.empty }
        ensures raised { rows_shown T.own T.shown self.new.table self.new.session self.new.rows.items
            ≡ raised_rows T.plan session (rows_shown T.own T.shown self.old.table self.old.session self.old.rows.items) }
        ensures kept { AreKept T.plan T.is_sound (T.agrees self.new.table) (rows_shown T.own T.shown self.new.table self.new.session self.new.rows.items) self.new.empty }
        ensures fixed { T.fixed self.new.table ≡ T.fixed self.old.table }
    {
        if session <= self.session {
            return;
        }
        self.begin(session, self.empty);
    }
}
