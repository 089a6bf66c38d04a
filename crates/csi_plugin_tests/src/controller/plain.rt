//! A controller as plain as can be: rows in a vector, found by a walk, and the table of the lifecycle, written out line by
//! line, behind a fence by sessions and by numbers.
mod table;

use super::{Ask, Held, Volume, new_volume};
use crate::playing::kind_of;
use crate::values::{STALE, Told};
use csi_types::{Kind, Number, Status};
use std::alloc::Global;
use std::process::Abort;
use table::{granted, held_at, told_of, told_of_none};

/// The nodes of its configuration, each with its slots.
pub(super) const NODES: &[(&str, u64)] = &[
    ("n1", 1),
    ("n2", 2),
    ("n3", 4),
    ("n4", 6),
    ("n5", 9),
    ("n6", 13),
    ("n7", 18),
    ("n8", 40),
];

/// All volumes.
#[derive(Drop)]
pub(super) struct Plain {
    /// In the order in which they were made.
    pub rows: Vec<Volume<'static>>,
    /// The id that the next volume gets: ids are given in order, and none a second time.
    pub next_id: u64,
    /// The greatest session of which a call came, 0 before any did.
    pub session: u64,
}

/// The kind of a reply, what it tells, and the id of the volume whose row was changed or made.
pub(super) type Answered = (Kind, Told, Option<u64>);

// ---- rows, by a walk

fn is_about(row: &Volume<'static>, ask: Ask) -> bool {
    match ask {
        Ask::Create(name, ..) => row.name == name,
        Ask::Delete(id) => row.id == id,
        Ask::Attach(id, ..) => row.id == id,
        Ask::Detach(id, _) => row.id == id,
        _ => false,
    }
}

fn place_of(rows: &[Volume<'static>], ask: Ask) -> Option<usize> {
    for (place, row) in rows.iter().enumerate() {
        if is_about(row, ask) {
            return Some(place);
        }
    }
    None
}

/// The row of the call's volume.
pub(super) fn row_about<'a>(rows: &'a [Volume<'static>], ask: Ask) -> Option<&'a Volume<'static>> {
    match place_of(rows, ask) {
        Some(place) => rows.get(place),
        None => None,
    }
}

// ---- what a call changes

// Takes the holding at the node out; the others keep their order.
fn release(rt: &(impl Abort + AllocGlobal), held: &mut Vec<Held>, node: &str) {
    let mut left = Vec::new(rt.alloc());
    for one in held.iter() {
        if one.0 != node {
            left.push(*one).expect(rt, "memory");
        }
    }
    *held = left;
}

// Changes the row as a call does that succeeded.
fn change(rt: &(impl Abort + AllocGlobal), row: &mut Volume<'static>, ask: Ask) {
    match ask {
        Ask::Delete(_) => row.live = false,
        Ask::Attach(_, node, mode, readonly) => {
            if held_at(&row.held, node).is_none() {
                row.held.push((node, mode, readonly)).expect(rt, "memory");
            }
        }
        Ask::Detach(_, node) => release(rt, &mut row.held, node),
        _ => {}
    }
}

// ---- the fence

// What is told of an older number, and of the last one.
fn fenced(row: &Volume<'static>, number: Number, ask: Ask) -> Option<Answered> {
    if number < row.last {
        Some((kind_of(ask), STALE, None))
    } else if number == row.last {
        Some((row.kind, row.told, None))
    } else {
        None
    }
}

// Answers a call whose volume has the row in this place: carries it out, and keeps what is told.
fn answer_at(
    rt: &(impl Abort + AllocGlobal),
    rows: &mut Vec<Volume<'static>>,
    place: usize,
    number: Number,
    ask: Ask,
) -> Answered {
    let row = rows.get(place).expect(rt, "a row");
    if let Some(answer) = fenced(row, number, ask) {
        return answer;
    }
    let told = told_of(rows, row, ask);
    let row = rows.get_mut(place).expect(rt, "a row");
    if told.0 == Status::Ok {
        change(rt, row, ask);
    }
    row.last = number;
    row.kind = kind_of(ask);
    row.told = told;
    (kind_of(ask), told, Some(row.id))
}

// Answers a call whose volume has no row.
fn answer_none(
    rt: &(impl Abort + AllocGlobal),
    plain: &mut Plain,
    number: Number,
    ask: Ask,
) -> Answered {
    let told = told_of_none(plain, ask);
    if let (Ask::Create(name, required, limit, modes), Some(id)) = (ask, told.1) {
        let mut row = new_volume(rt, id, true, name, number);
        row.capacity = granted(required, limit);
        row.modes = modes;
        plain.rows.push(row).expect(rt, "memory");
        plain.next_id = plain.next_id.saturating_add(1);
    }
    (kind_of(ask), told, told.1)
}

/// Answers the call under this number. One of an earlier session than the greatest that came is stale, and changes nothing; where one is of a
/// later session that begins, and volumes that were deleted are forgotten.
pub(super) fn answer(
    rt: &(impl Abort + AllocGlobal),
    plain: &mut Plain,
    number: Number,
    ask: Ask,
) -> Answered {
    if number.session < plain.session {
        return (kind_of(ask), STALE, None);
    }
    if number.session > plain.session {
        plain.session = number.session;
        plain.rows.retain(|row| row.live);
    }
    match place_of(&plain.rows, ask) {
        Some(place) => answer_at(rt, &mut plain.rows, place, number, ask),
        None => answer_none(rt, plain, number, ask),
    }
}
