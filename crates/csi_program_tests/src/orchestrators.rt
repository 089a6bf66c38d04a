//! The orchestrator's program over a store: opened, given the lines of a volume's life, and opened again, also from the middle on, in a later session.
mod failing;
mod growths;
mod script;
mod sessions;

use crate::devices::{Devices, SOUND, new_store, reader, writer};
use csi_orchestration::{asked_nodes, orchestrator};
use csi_stores::{Keep, KeepFault, Part};
use csi_streams::Ending;
use csi_types::NodeId;
use script::{Side, WHOLE, head, lines, row, state_after};
use std::alloc::Global;
use std::process::Abort;

const CONFIG: &[u8] = br#"{"greatest":1000,"nodes":[{"id":"n1","slots":4},{"id":"n2","slots":4}]}"#;

// Its nodes. Where memory is refused they are read the second time.
fn nodes(rt: &(impl Abort + AllocGlobal)) -> Vec<NodeId> {
    match asked_nodes(rt.alloc(), CONFIG) {
        Ok(nodes) => nodes,
        Err(_) => asked_nodes(rt.alloc(), CONFIG).ok().expect(rt, "nodes"),
    }
}

// What the program writes over a store and such devices where it is given these lines, and how it ends: as `Device` where one failed. It begins this
// session, where that is later than the store's next one.
fn answers_from<K: Keep>(
    rt: &(impl Abort + AllocGlobal),
    keep: &mut K,
    least: u64,
    given: &[u8],
    devices: Devices,
) -> (Vec<u8>, Ending) {
    let before = keep.faults();
    let mut input = reader(given, devices);
    let mut output = writer(rt, devices);
    let ending = orchestrator(rt.alloc(), nodes(rt), least, keep, &mut input, &mut output);
    let streams = input.faults().saturating_add(output.faults());
    let has_failed = streams > 0 || keep.faults() > before;
    assert!(rt; has_failed == (ending == Ending::Device));
    drop(input);
    (output.into_inner().into_inner(), ending)
}

// The same, in the store's next session.
fn answers<K: Keep>(
    rt: &(impl Abort + AllocGlobal),
    keep: &mut K,
    given: &[u8],
    devices: Devices,
) -> (Vec<u8>, Ending) {
    answers_from(rt, keep, 0, given, devices)
}

// ---- what a store has

// What the store has. Where memory is refused it is asked again.
fn loaded<K: Keep>(keep: &mut K) -> Result<Vec<Part>, KeepFault> {
    match keep.load() {
        Err(KeepFault::NoMemory) => keep.load(),
        first => first,
    }
}

// Whether the part of this key has this value; an empty one is that of none.
fn is_part(part: Option<&Part>, key: u64, wanted: &[u8]) -> bool {
    let Some(part) = part else {
        return wanted.is_empty();
    };
    match &part.value {
        Some(found) => part.key == key && found.as_slice() == wanted,
        None => false,
    }
}

// Whether the store has the record of this session after so many steps, the last call of which has so many tries more; and of session 0, nothing.
fn has_after<K: Keep>(
    rt: &(impl Abort + AllocGlobal),
    keep: &mut K,
    session: u8,
    state: (usize, u8),
) -> bool {
    let Ok(parts) = loaded(keep) else {
        return false;
    };
    if session == 0 || state.0 > WHOLE {
        return session == 0 && parts.is_empty();
    }
    let first = head(rt, session);
    let second = row(rt, state);
    let has_both = is_part(parts.first(), 0, &first) && is_part(parts.get(1), 1, &second);
    drop((first, second));
    has_both && parts.len() <= 2
}

// Puts the record of this session after so many steps into a store; of session 0, nothing.
fn puts<K: Keep>(rt: &(impl Abort + AllocGlobal), keep: &mut K, session: u8, steps: usize) {
    if session == 0 {
        return;
    }
    let head = Part {
        key: 0,
        value: Some(head(rt, session)),
    };
    let row = Part {
        key: 1,
        value: if steps == 0 {
            None
        } else {
            Some(row(rt, (steps, 0)))
        },
    };
    let parts = [head, row];
    if keep.commit(&parts).is_err() {
        keep.commit(&parts).expect(rt, "memory");
    }
    drop(parts);
}

// ---- how the life goes on

// After how many steps a session finds the volume: one that was deleted is forgotten.
fn kept(steps: usize) -> usize {
    if steps == WHOLE { 0 } else { steps }
}

// A session that begins over a store of the one before it, after so many steps.
type Start = (u8, usize);

// Whether this is all that the session answers, and its store has the whole life.
fn is_whole<K: Keep>(
    rt: &(impl Abort + AllocGlobal),
    keep: &mut K,
    (session, from): Start,
    written: &[u8],
) -> bool {
    let wanted = lines(rt, Side::Answered, session, (kept(from), WHOLE));
    let is_answered = wanted.as_slice() == written;
    drop(wanted);
    is_answered && has_after(rt, keep, session, (WHOLE, 0))
}

// Whether the life goes on in this session to its end.
fn lives<K: Keep>(rt: &(impl Abort + AllocGlobal), keep: &mut K, start: Start) -> bool {
    let given = lines(rt, Side::Given, start.0, (kept(start.1), WHOLE));
    let (written, ending) = answers(rt, keep, &given, SOUND);
    drop(given);
    let is_so = ending == Ending::Done && is_whole(rt, keep, start, &written);
    drop(written);
    is_so
}

// How many lines that is.
fn count(bytes: &[u8]) -> usize {
    let mut count = 0usize;
    for byte in bytes {
        if *byte == b'\n' {
            count = count.saturating_add(1);
        }
    }
    count
}

// Whether this is a front of what the session answers.
fn is_front(rt: &(impl Abort + AllocGlobal), (session, from): Start, written: &[u8]) -> bool {
    let wanted = lines(rt, Side::Answered, session, (kept(from), WHOLE));
    let is_front = wanted.starts_with(written);
    drop(wanted);
    is_front
}

// How many of these lines were read, so many bytes at a time, once the line behind so many was: all that one read brings are committed together.
fn read_with(given: &[u8], most: usize, answered: usize) -> usize {
    let mut read = 0usize;
    for _ in 0..given.len() {
        read = read.saturating_add(most).min(given.len());
        let lines = count(given.get(..read).unwrap_or(given));
        if lines > answered {
            return lines;
        }
    }
    count(given)
}

// Whether such a session that was stopped once this was written left what was there, if it said nothing, or what so many lines came to; and whether the
// life goes on from there.
fn goes_on<K: Keep>(
    rt: &(impl Abort + AllocGlobal),
    keep: &mut K,
    start: Start,
    written: &[u8],
    lines: usize,
) -> bool {
    let (session, from) = start;
    let before = session.saturating_sub(1);
    if !is_front(rt, start, written) {
        return false;
    }
    if written.is_empty() && has_after(rt, keep, before, (from, 0)) {
        return lives(rt, keep, start);
    }
    let state = state_after(kept(from), lines);
    has_after(rt, keep, session, state) && lives(rt, keep, (session.saturating_add(1), state.0))
}

// From nothing; and then once more, in session 2, where the name is free again.
#[test]
fn an_orchestrator_lives_over_a_store(rt: HostRuntime) {
    let mut keep = new_store(rt.alloc(), 1000, SOUND);
    assert!(&rt; has_after(&rt, &mut keep, 0, (0, 0)));
    assert!(&rt; lives(&rt, &mut keep, (1, 0)));
    assert!(&rt; lives(&rt, &mut keep, (2, WHOLE)));
    drop(keep);
}
