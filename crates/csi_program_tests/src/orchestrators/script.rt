//! The life of a volume as an orchestrator of the nodes `n1` and `n2` goes through it: the lines that it is given, those that it answers, and the
//! row that its store has then. The volume is made, used, no longer used, and deleted. All is spelled here, by the format.
use crate::devices::room;
use std::alloc::Global;
use std::process::Abort;

// ---- lines

// What is wanted of the volume. The command that asks for it is the same.
const CREATE: &[u8] =
    br#"{"create":{"capabilities":[{"access":"block","mode":1}],"limit":0,"name":"v","required":10}}"#;

const USE: &[u8] =
    br#"{"use":{"capability":{"access":"block","mode":1},"name":"v","node":"n1","readonly":false,"target":"/a"}}"#;

const STOP: &[u8] = br#"{"stop":{"name":"v","node":"n1","target":"/a"}}"#;

const DELETE: &[u8] = br#"{"delete":"v"}"#;

const NOTHING: &[u8] = b"null";

// By the byte of its kind a call as it is sent, and the line of its success. `@` stands for the session, `#` for how many calls were sent in it.
const CALLS: &[(&[u8], &[u8])] = &[
    (b"", b""),
    (
        br#","send":{"call":#,"frame":"000000280101000000000000000@000000000000000#000176000000000000000a0000000000000000010001","kind":"CreateVolume","plugin":"controller","session":@}"#,
        br#"{"reply":"0000001d0181000000000000000@000000000000000#0000000000000000000100"}"#,
    ),
    (
        br#","send":{"call":#,"frame":"0000001b0102000000000000000@000000000000000#000000000000000001","kind":"DeleteVolume","plugin":"controller","session":@}"#,
        br#"{"reply":"0000001d0182000000000000000@000000000000000#0000000000000000000000"}"#,
    ),
    (
        br#","send":{"call":#,"frame":"000000210103000000000000000@000000000000000#000000000000000001026e31000100","kind":"ControllerPublishVolume","plugin":"controller","session":@}"#,
        br#"{"reply":"0000001d0183000000000000000@000000000000000#0000000000000000000000"}"#,
    ),
    (
        br#","send":{"call":#,"frame":"0000001e0104000000000000000@000000000000000#000000000000000001026e31","kind":"ControllerUnpublishVolume","plugin":"controller","session":@}"#,
        br#"{"reply":"0000001d0184000000000000000@000000000000000#0000000000000000000000"}"#,
    ),
    (
        br#","send":{"call":#,"frame":"000000200105000000000000000@000000000000000#01026e3100000000000000010001","kind":"NodeStageVolume","plugin":"node:n1","session":@}"#,
        br#"{"reply":"000000200185000000000000000@000000000000000#01026e3100000000000000000000"}"#,
    ),
    (
        br#","send":{"call":#,"frame":"0000001e0106000000000000000@000000000000000#01026e310000000000000001","kind":"NodeUnstageVolume","plugin":"node:n1","session":@}"#,
        br#"{"reply":"000000200186000000000000000@000000000000000#01026e3100000000000000000000"}"#,
    ),
    (
        br#","send":{"call":#,"frame":"000000240107000000000000000@000000000000000#01026e310000000000000001022f61000100","kind":"NodePublishVolume","plugin":"node:n1","session":@}"#,
        br#"{"reply":"000000200187000000000000000@000000000000000#01026e3100000000000000000000"}"#,
    ),
    (
        br#","send":{"call":#,"frame":"000000210108000000000000000@000000000000000#01026e310000000000000001022f61","kind":"NodeUnpublishVolume","plugin":"node:n1","session":@}"#,
        br#"{"reply":"000000200188000000000000000@000000000000000#01026e3100000000000000000000"}"#,
    ),
];

// A step: the kind of the call that succeeded, 0 where a command is given; what is wanted then; the kind of the call that is sent, if one is; and
// the row.
type Step = (usize, &'static [u8], usize, Row);

// A row's value, behind what each has of the name, the capacity and the capabilities: the id, whether it exists, and the goal; the tries; and the
// entries.
type Row = (&'static [u8], u8, &'static [u8]);

// The volume's life.
const LIFE: &[Step] = &[
    (0, CREATE, 1, (&[0, 2, 1], 1, &[0])),
    (1, NOTHING, 0, (AT_REST, 0, &[0])),
    (0, USE, 3, (USED, 1, ATTACHING)),
    (3, USE, 5, (USED, 1, STAGING)),
    (5, USE, 7, (USED, 1, PUBLISHING)),
    (7, NOTHING, 0, (AT_REST, 0, PUBLISHED)),
    (0, STOP, 8, (STOPPED, 1, PUBLISHING)),
    (8, STOP, 6, (STOPPED, 1, STAGING)),
    (6, STOP, 4, (STOPPED, 1, ATTACHING)),
    (4, NOTHING, 0, (AT_REST, 0, &[0])),
    (0, DELETE, 2, (&[1, 0, 0, 0, 0, 0, 0, 0, 1, 2, 4], 1, &[0])),
    (2, NOTHING, 0, (&[1, 0, 0, 0, 0, 0, 0, 0, 1, 0, 0], 0, &[0])),
];

/// How many steps that is.
pub(crate) const WHOLE: usize = 12;

/// Lines that are given, or that are answered.
#[derive(Clone, Copy)]
pub(crate) enum Side {
    Given,
    Answered,
}

// Puts bytes for which there is room, with a session and a count of calls for their signs, both of one digit.
fn put(rt: &impl Abort, out: &mut Vec<u8>, bytes: &[u8], (session, calls): (u8, u8)) {
    for byte in bytes {
        let next = match *byte {
            b'@' => b'0'.saturating_add(session),
            b'#' => b'0'.saturating_add(calls),
            other => other,
        };
        out.push(next).expect(rt, "room");
    }
}

// Puts the answer by which the call of this kind is sent, if one is.
fn put_answer(
    rt: &impl Abort,
    out: &mut Vec<u8>,
    (goal, outcome, kind): (&[u8], &[u8], usize),
    at: (u8, u8),
) {
    let (send, _) = *CALLS.get(kind).expect(rt, "a kind");
    put(rt, out, br#"{"goal":"#, at);
    put(rt, out, goal, at);
    put(rt, out, br#","name":"v","outcome":""#, at);
    put(rt, out, outcome, at);
    put(rt, out, b"\"", at);
    put(rt, out, send, at);
    put(rt, out, b"}\n", at);
}

// Puts the line of a step, or its answer, where so many calls were sent before. The answer is how many were then.
fn put_step(rt: &impl Abort, out: &mut Vec<u8>, side: Side, step: Step, at: (u8, u8)) -> u8 {
    let (heard, goal, kind, _) = step;
    let (_, reply) = *CALLS.get(heard).expect(rt, "a kind");
    let calls = if kind == 0 {
        at.1
    } else {
        at.1.saturating_add(1)
    };
    match side {
        Side::Given => {
            put(rt, out, if heard == 0 { goal } else { reply }, at);
            put(rt, out, b"\n", at);
        }
        Side::Answered => {
            let outcome: &[u8] = if heard == 0 { b"sent" } else { b"taken" };
            put_answer(rt, out, (goal, outcome, kind), (at.0, calls));
        }
    }
    calls
}

// What is wanted of the volume after so many steps, and the kind of the call that is due, if one is.
fn due_after(steps: usize) -> (&'static [u8], usize) {
    match LIFE.get(steps.wrapping_sub(1)) {
        Some((_, goal, kind, _)) => (*goal, *kind),
        None => (NOTHING, 0),
    }
}

/// The lines of a session that begins after so many steps, and ends after others: the call that is due is sent again at a timeout, and then the life
/// goes on.
pub(crate) fn lines(
    rt: &(impl Abort + AllocGlobal),
    side: Side,
    session: u8,
    (from, to): (usize, usize),
) -> Vec<u8> {
    let mut out = room(rt, 8192);
    let (goal, kind) = due_after(from);
    let is_due = kind != 0;
    match side {
        Side::Given if is_due => put(rt, &mut out, b"{\"timeout\":\"v\"}\n", (session, 0)),
        Side::Given => {}
        Side::Answered => {
            let wanted: &[u8] = if is_due { b"\"v\"]}\n" } else { b"]}\n" };
            put(rt, &mut out, br#"{"session":@,"wanted":["#, (session, 0));
            put(rt, &mut out, wanted, (session, 0));
            if is_due {
                put_answer(rt, &mut out, (goal, b"sent", kind), (session, 1));
            }
        }
    }
    let mut calls = if is_due { 1 } else { 0 };
    for at in from..to {
        let step = *LIFE.get(at).expect(rt, "a step");
        calls = put_step(rt, &mut out, side, step, (session, calls));
    }
    out
}

/// After how many steps a store is, and how many tries more its call has, once so many lines of such a session were answered behind the first.
pub(crate) fn state_after(from: usize, lines: usize) -> (usize, u8) {
    let (_, kind) = due_after(from);
    match lines {
        0 => (from, 0),
        1 if kind != 0 => (from, 1),
        _ if kind != 0 => (from.saturating_add(lines).saturating_sub(1), 0),
        _ => (from.saturating_add(lines), 0),
    }
}

// ---- parts

// Behind the id: it exists and nothing is wanted; it is to be published at `/a` of `n1`, and isn't to be.
const AT_REST: &[u8] = &[1, 0, 0, 0, 0, 0, 0, 0, 1, 1, 0];

const USED: &[u8] = &[
    1, 0, 0, 0, 0, 0, 0, 0, 1, 1, 2, 2, 110, 49, 2, 47, 97, 0, 1, 0,
];

const STOPPED: &[u8] = &[1, 0, 0, 0, 0, 0, 0, 0, 1, 1, 3, 2, 110, 49, 2, 47, 97];

// The entries of `n1`: it may be attached; it is, and may be staged; it is, and may be published; and all of that is done.
const ATTACHING: &[u8] = &[1, 2, 110, 49, 0, 1, 0, 2, 0, 1, 2, 47, 97, 0];

const STAGING: &[u8] = &[1, 2, 110, 49, 0, 1, 0, 1, 2, 1, 2, 47, 97, 0];

const PUBLISHING: &[u8] = &[1, 2, 110, 49, 0, 1, 0, 1, 1, 1, 2, 47, 97, 2];

const PUBLISHED: &[u8] = &[1, 2, 110, 49, 0, 1, 0, 1, 1, 1, 2, 47, 97, 1];

// What each row begins with: the volume is `v`, of at least 10 bytes, for one writing node.
const FRONT: &[u8] = &[
    3, 1, 118, 0, 0, 0, 0, 0, 0, 0, 10, 0, 0, 0, 0, 0, 0, 0, 0, 1, 0, 1,
];

/// The head of the orchestrator's record in this session.
pub(crate) fn head(rt: &(impl Abort + AllocGlobal), session: u8) -> Vec<u8> {
    let mut out = room(rt, 17);
    let bytes = [
        3, 2, 0, 0, 0, 0, 0, 0, 0, session, 2, 2, 110, 49, 2, 110, 50,
    ];
    out.extend_from_slice(&bytes).expect(rt, "room");
    out
}

/// The row's value after so many steps, with so many tries more; empty after none.
pub(crate) fn row(rt: &(impl Abort + AllocGlobal), (steps, more): (usize, u8)) -> Vec<u8> {
    let mut out = room(rt, 64);
    if let Some((_, _, _, (front, tries, entries))) = LIFE.get(steps.wrapping_sub(1)) {
        out.extend_from_slice(FRONT).expect(rt, "room");
        out.extend_from_slice(front).expect(rt, "room");
        out.push(tries.saturating_add(more)).expect(rt, "room");
        out.extend_from_slice(entries).expect(rt, "room");
    }
    out
}
