//! An orchestrator's rows by name, and by the numbers of their open calls. No look-up walks them.
ghost use Rattle.std.specs.Prelude.{◌≡◌, ℕ, ◌+◌, ◌++◌, ◌∷◌, ◌<◌, ◌≤◌, [], Option, Some, None, length, map, false, slice_get, position};
ghost use Rattle.std.specs.Prelude.{OnOk, OnErr, IfOk, IfErr};
ghost use Rattle.indexmap.specs.IndexMap.{values, spare, index_map_len};
ghost use Rattle.std.specs.List.{AllByRecursion};
ghost use Rattle.csi_types.specs.Model.Members.{EachTwo};
ghost use Rattle.csi_types.specs.Public.Places.{IsAt};
ghost use Rattle.csi_types.specs.Model.Same.{same_text};
ghost use Rattle.csi_orchestrator.specs.Public.Catalog.{rows_of, by_name, place_noted, IsNoted, IsIndexed, AreUpTo, HasFewNotes};
ghost use Rattle.csi_orchestrator.specs.Private.Catalog.{IsPlaceIn, IsNotedWith, IsNextFor, IsReady, IsClosedAt, IsLostAt, AreNotedBefore};
ghost use Rattle.csi_orchestrator.specs.Private.Shown.{without_call};
ghost use Rattle.csi_orchestrator.specs.Public.Beginning.{remembered, row_at_loss};
ghost use Rattle.csi_orchestrator.specs.Public.Shown.{row_shown};

use crate::beginning::{is_forgotten, lose_at};
use crate::fault::OrchFault;
use crate::row::Row;
use csi_types::{Name, NodeId};
use indexmap::IndexMap;
use std::alloc::{AllocError, Global};

/// The rows, each under its name, in the order of the first creates; and where the row of each open call is, by the call's
/// number in the session. A call that isn't open any more stays noted until room is wanted, or the notes are more than twice as many
/// as the rows: what closes it needn't look for it, and the room that a row brought for its calls stays. A restart forgets all.
pub(crate) struct Catalog {
    pub rows: IndexMap<Name, Row>,
    pub calls: IndexMap<u64, usize>,
}

impl Drop for Catalog {
    fn drop(self) {
        let Catalog { rows: _, calls: _ } = self;
    }
}

impl Catalog {
    /// A catalog without volumes. It takes no memory.
    pub fn new(alloc: Global) -> Catalog
        ensures rows { rows_of result ≡ [] }
        ensures indexed { IsIndexed result }
        ensures known { (last : ℕ) → AreUpTo last result }
    {
        Catalog {
            rows: IndexMap::new(alloc),
            calls: IndexMap::new(alloc),
        }
    }

    /// The catalog of these rows, none of which has an open call.
    pub fn of_rows(alloc: Global, rows: Vec<Row>) -> Result<Catalog, OrchFault>
        requires names { EachTwo (λ one other. same_text one.name other.name ≡ false) rows.items }
        requires closed { AllByRecursion (λ row. row.open_call ≡ None) rows.items }
        ensures rows { IfOk result (λ catalog. rows_of catalog ≡ rows.items) }
        ensures indexed { IfOk result IsIndexed }
        ensures known { IfOk result (λ catalog. AreUpTo 0 catalog) }
        ensures err { IfErr result (λ fault. fault ≡ OrchFault.NoMemory) }
    {
        let mut catalog = Catalog::new(alloc);
        for row in rows {
            catalog.add(row)?;
        }
        Ok(catalog)
    }

    /// The rows in order.
    pub fn rows(&self) -> &[Row]
        ensures { result.now ≡ rows_of self.now }
    {
        self.rows.values().as_slice()
    }

    /// Where the row of this name is.
    pub fn index_of(&self, name: &Name) -> Option<usize>
        requires { IsIndexed self.now }
        ensures { IsPlaceIn self.now (λ row. same_text row.name name.now) result }
    {
        self.rows.get_index_of(name)
    }

    /// Where the row of this call is, if the call is open. Another row may be there, or none, if it isn't.
    pub fn index_of_call(&self, call: u64) -> Option<usize>
        ensures { result ≡ place_noted self.now call }
    {
        self.calls.get(&call).copied()
    }

    // Notes the open call of the row at this index, if it has one.
    fn note_open(&mut self, index: usize)
        requires within { index < index_map_len self.old.rows }
        requires spare { 0 < spare self.old.calls }
        ensures rows { self.new.rows ≡ self.old.rows }
        ensures noted { (row : Row) → IsAt (rows_of self.old) index row → IsNotedWith index row.open_call self.old self.new }
    {
        if let Some(open_call) = self.rows[index].open_call {
            self.calls.insert(open_call.number.call, index).unwrap();
        }
    }

    // Notes the open calls alone. It takes no memory.
    fn renew(&mut self)
        requires { IsNoted self.old }
        ensures rows { self.new.rows ≡ self.old.rows }
        ensures noted { IsNoted self.new }
        ensures spare { 0 < length (rows_of self.old) → 0 < spare self.new.calls }
        ensures kept { AreNotedBefore self.old self.new }
        ensures few { index_map_len self.new.calls ≤ length (rows_of self.old) }
    {
        self.calls.clear();
        for index in 0..self.rows.len() {
            self.note_open(index);
        }
    }

    /// Notes a call of the row at this index. It takes no memory. Notes are renewed seldom: after one for each row, or for each that
    /// there was room for.
    pub fn note(&mut self, call: u64, index: usize)
        requires { IsReady self.old index (Some call) }
        ensures rows { self.new.rows ≡ self.old.rows }
        ensures indexed { IsIndexed self.new }
        ensures known { (last : ℕ) → AreUpTo last self.old → last < call → AreUpTo call self.new }
    {
        self.calls.insert(call, index).unwrap();
        // Where no other call can be noted without memory, or more than half of the notes are of calls that aren't open any more.
        let count = self.calls.len();
        if self.calls.capacity() <= count || count / 2 > self.rows.len() {
            self.renew();
        }
    }

    // Makes room for the call of one more row, and for half as many more calls as there are rows, so that notes are renewed seldom:
    // once for that many calls that are sent; and copies the row's name. The rows stay as they are.
    fn prepare(&mut self, name: &Name) -> Result<Name, AllocError>
        requires { IsIndexed self.old }
        ensures rows { self.new.rows ≡ self.old.rows }
        ensures indexed { IsIndexed self.new }
        ensures room { OnOk result (length (rows_of self.old) + 2 ≤ spare self.new.calls) }
        ensures kept { AreNotedBefore self.old self.new }
        ensures name { IfOk result (λ copy. copy ≡ name.now) }
    {
        let rows = self.rows.len();
        let wanted = rows + rows / 2 + 2;
        if self.calls.capacity() - self.calls.len() < wanted {
            self.renew();
        }
        self.calls.reserve(wanted)?;
        name.clone()
    }

    /// Adds the row of a name that has none, as the last one. A refusal changes nothing.
    pub fn add(&mut self, row: Row) -> Result<(), OrchFault>
        requires indexed { IsIndexed self.old }
        requires new_name { position (λ other. same_text other.name row.name) (rows_of self.old) ≡ None }
        ensures added { OnOk result (rows_of self.new ≡ rows_of self.old ++ row ∷ []) }
        ensures err { OnErr result (rows_of self.new ≡ rows_of self.old) }
        ensures memory { IfErr result (λ fault. fault ≡ OrchFault.NoMemory) }
        ensures indexed { OnErr result (IsIndexed self.new) }
        ensures ready { OnOk result ((next : Option ℕ) → IsNextFor self.old row.open_call next → IsReady self.new (length (rows_of self.old)) next) }
        ensures kept { AreNotedBefore self.old self.new }
    {
        let name = match self.prepare(&row.name) {
            Ok(name) => name,
            Err(_) => {
                drop(row);
                return Err(OrchFault::NoMemory);
            }
        };
        drop(self.rows.insert(name, row)?);
        Ok(())
    }

    // Gives up the call that was noted in this turn, if it is open.
    fn close_noted(&mut self, turn: usize)
        requires { turn < index_map_len self.old.calls }
        ensures rows { (index : ℕ) → slice_get (values self.old.calls) turn ≡ Some index → IsClosedAt index (rows_of self.old) (rows_of self.new) }
        ensures names { self.old.rows.entries ≡ map by_name (rows_of self.old) → self.new.rows.entries ≡ map by_name (rows_of self.new) }
        ensures calls { self.new.calls ≡ self.old.calls }
    {
        let index = self.calls[turn];
        if index < self.rows.len() {
            self.rows[index].open_call = None;
        }
    }

    /// Gives up every open call. It costs the calls that are noted.
    pub fn close_all(&mut self)
        requires { IsIndexed self.old }
        ensures rows { rows_of self.new ≡ map without_call (rows_of self.old) }
        ensures indexed { IsIndexed self.new }
        ensures known { (last : ℕ) → AreUpTo last self.new }
    {
        for turn in 0..self.calls.len() {
            self.close_noted(turn);
        }
        self.calls.clear();
    }

    /// Forgets the rows of which nothing is wanted and whose volumes aren't there. No call is open. The other rows keep their order. It
    /// takes no memory.
    pub fn forget(&mut self)
        requires indexed { IsIndexed self.old }
        requires closed { AllByRecursion (λ row. row.open_call ≡ None) (rows_of self.old) }
        ensures rows { map row_shown (rows_of self.new) ≡ remembered (map row_shown (rows_of self.old)) }
        ensures indexed { IsIndexed self.new }
        ensures known { (last : ℕ) → AreUpTo last self.new }
    {
        // What is noted are the places of rows, and rows move up.
        self.calls.clear();
        self.rows.retain(|_name, row| !is_forgotten(row));
    }

    // The row at this index once a node was lost.
    fn lose_row(&mut self, index: usize, node: &NodeId)
        requires { index < index_map_len self.old.rows }
        ensures rows { IsLostAt node.now index (rows_of self.old) (rows_of self.new) }
        ensures names { self.old.rows.entries ≡ map by_name (rows_of self.old) → self.new.rows.entries ≡ map by_name (rows_of self.new) }
        ensures calls { self.new.calls ≡ self.old.calls }
    {
        lose_at(&mut self.rows[index], node);
    }

    /// The rows once a node was lost. No call is open. It takes no memory.
    pub fn lose(&mut self, node: &NodeId)
        requires indexed { IsIndexed self.old }
        requires closed { AllByRecursion (λ row. row.open_call ≡ None) (rows_of self.old) }
        ensures rows { map row_shown (rows_of self.new) ≡ map (row_at_loss node.now) (map row_shown (rows_of self.old)) }
        ensures indexed { IsIndexed self.new }
        ensures known { (last : ℕ) → AreUpTo last self.old → AreUpTo last self.new }
    {
        for index in 0..self.rows.len() {
            self.lose_row(index, node);
        }
    }
}
