//! The lines of the table: what is told of a call. What is told as OK is carried out, and else nothing changes.
use super::super::{Ask, B4, Held, TAKEN, Volume};
use super::{NODES, Plain};
use crate::values::{DONE, Told};
use csi_types::{Mode, Status};

const GREATEST: u64 = 1000;

const MOST: u64 = (1 << 63) - 1;

const RANGE: Told = (Status::OutOfRange, None, "range");

fn has_mode(modes: &[Mode], wanted: Mode) -> bool {
    for mode in modes {
        if *mode == wanted {
            return true;
        }
    }
    false
}

/// How the volume is held at the node.
pub(super) fn held_at(all: &[Held], node: &str) -> Option<Held> {
    for held in all {
        if held.0 == node {
            return Some(*held);
        }
    }
    None
}

// ---- CreateVolume

// What is refused whatever rows there are.
fn refusal(required: u64, limit: u64, modes: &[Mode]) -> Option<Told> {
    if modes.is_empty() {
        Some((Status::InvalidArgument, None, "capabilities"))
    } else if required == 0 && limit == 0 || required > MOST || limit > MOST {
        Some((Status::InvalidArgument, None, "capacity"))
    } else if limit != 0 && limit < required {
        Some(RANGE)
    } else {
        None
    }
}

/// The capacity that a volume is made with, in bytes.
pub(super) fn granted(required: u64, limit: u64) -> u64 {
    if required != 0 {
        required
    } else {
        limit.min(1_073_741_824)
    }
}

// Whether the row is of a volume as it is asked for.
fn is_met(row: &Volume<'static>, required: u64, limit: u64, modes: &[Mode]) -> bool {
    for mode in modes {
        if !has_mode(row.modes, *mode) {
            return false;
        }
    }
    row.live && row.capacity >= required && (limit == 0 || limit >= row.capacity)
}

// What is told where the name has a row.
fn found(row: &Volume<'static>, required: u64, limit: u64, modes: &[Mode]) -> Told {
    match refusal(required, limit, modes) {
        Some(told) => told,
        None if is_met(row, required, limit, modes) => (Status::Ok, Some(row.id), ""),
        None => TAKEN,
    }
}

// What is told where it has none.
fn made(plain: &Plain, required: u64, limit: u64, modes: &[Mode]) -> Told {
    match refusal(required, limit, modes) {
        Some(told) => told,
        None if granted(required, limit) > GREATEST => RANGE,
        None if plain.rows.len() >= 4096 => (Status::ResourceExhausted, None, "volumes"),
        None => (Status::Ok, Some(plain.next_id), ""),
    }
}

// ---- ControllerPublishVolume

const OF_ONE_NODE: &[Mode] = &[
    Mode::SingleNodeWriter,
    Mode::SingleNodeReaderOnly,
    Mode::SingleNodeSingleWriter,
    Mode::SingleNodeMultiWriter,
];

const READERS: &[Mode] = &[Mode::SingleNodeReaderOnly, Mode::MultiNodeReaderOnly];

fn writes((_, mode, readonly): Held) -> bool {
    !readonly && !has_mode(READERS, mode)
}

// Whether a volume can be held so at two nodes.
fn can_be_both(first: Held, second: Held) -> bool {
    let has_one_writer = first.1 == B4 || second.1 == B4;
    let are_two_writers = writes(first) && writes(second);
    !has_mode(OF_ONE_NODE, first.1)
        && !has_mode(OF_ONE_NODE, second.1)
        && !(are_two_writers && has_one_writer)
}

// The node of the first holding that this one can't be beside.
fn refusing_node(all: &[Held], wanted: Held) -> Option<&'static str> {
    for held in all {
        if !can_be_both(*held, wanted) {
            return Some(held.0);
        }
    }
    None
}

// How many slots of the node are free; `None` where it isn't configured.
fn free_slots(rows: &[Volume<'static>], node: &str) -> Option<u64> {
    for (id, slots) in NODES {
        if *id == node {
            let mut left = *slots;
            for row in rows {
                if held_at(&row.held, node).is_some() {
                    left = left.saturating_sub(1);
                }
            }
            return Some(left);
        }
    }
    None
}

// What is told where the volume is there, and so many slots of the node are free.
fn attached(row: &Volume<'static>, wanted: Held, free: u64) -> Told {
    if !has_mode(row.modes, wanted.1) {
        return (Status::InvalidArgument, None, "capability");
    }
    match held_at(&row.held, wanted.0) {
        Some(held) if held == wanted => return DONE,
        Some(_) => return (Status::AlreadyExists, None, "held otherwise"),
        None => {}
    }
    match refusing_node(&row.held, wanted) {
        Some(node) => (Status::FailedPrecondition, None, node),
        None if free == 0 || row.held.len() >= 64 => (Status::ResourceExhausted, None, "slots"),
        None => DONE,
    }
}

/// What the table tells where the call's volume has this row.
pub(super) fn told_of(rows: &[Volume<'static>], row: &Volume<'static>, ask: Ask) -> Told {
    match ask {
        Ask::Create(_, required, limit, modes) => found(row, required, limit, modes),
        Ask::Delete(_) => match row.held.first() {
            Some(held) => (Status::FailedPrecondition, None, held.0),
            None => DONE,
        },
        Ask::Attach(..) if !row.live => (Status::NotFound, None, "volume"),
        Ask::Attach(_, node, mode, readonly) => match free_slots(rows, node) {
            Some(free) => attached(row, (node, mode, readonly), free),
            None => (Status::NotFound, None, "node"),
        },
        _ => DONE,
    }
}

/// What it tells where it has none.
pub(super) fn told_of_none(plain: &Plain, ask: Ask) -> Told {
    match ask {
        Ask::Create(_, required, limit, modes) => made(plain, required, limit, modes),
        Ask::Attach(..) => (Status::NotFound, None, "volume"),
        _ => DONE,
    }
}
