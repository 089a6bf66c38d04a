//! The controller beside the plain one. Both are given the same calls. The answers are the same, and after each call the whole
//! records.
use super::calls::Draws;
use super::plain::{Answered, NODES, Plain, answer, row_about};
use super::*;
use crate::playing::{frame_of, is_reply, tells};
use csi_types::{Body, Call};

// Whether the controller's record has these rows, in this order, the next id and the session.
fn has_record(rt: &(impl Abort + AllocGlobal), controller: &Controller, plain: &Plain) -> bool {
    let record = controller.record().expect(rt, "memory");
    let mut is_same = record.next_id() == plain.next_id
        && record.session() == plain.session
        && record.rows().len() == plain.rows.len();
    for (found, row) in record.rows().iter().zip(plain.rows.iter()) {
        let wanted = row_of(rt, row);
        is_same = is_same && *found == wanted;
        drop(wanted);
    }
    drop(record);
    is_same
}

// Whether the controller answers the call so, which is lent.
fn answers_lent(
    rt: &impl Abort,
    controller: &mut Controller,
    number: Number,
    call: &Call,
    (kind, told, row): Answered,
) -> bool {
    let answer = controller.answer(number, &call.lend());
    let answer = answer.expect(rt, "memory").expect(rt, "a reply");
    let is_told = answer.kind == kind && tells(&answer.reply, told);
    let found = match answer.row {
        Some(place) => match controller.row_at(place) {
            Some(changed) => Some(changed.id.number()),
            None => None,
        },
        None => None,
    };
    drop(answer);
    is_told && found == row
}

// Whether the controller answers the frame so.
fn answers_framed(
    rt: &impl Abort,
    controller: &mut Controller,
    frame: &Frame,
    (kind, told, _): Answered,
) -> bool {
    let answer = controller.step(frame).expect(rt, "memory");
    let reply = answer.expect(rt, "a reply");
    let is_told = is_reply(&reply, frame, kind, told);
    drop(reply);
    is_told
}

// Whether both answer the call alike: lent where its number is even, and else in a frame.
fn answers_alike(
    rt: &(impl Abort + AllocGlobal),
    controller: &mut Controller,
    plain: &mut Plain,
    number: Number,
    ask: Ask,
) -> bool {
    let answered = answer(rt, plain, number, ask);
    let frame = frame_of(rt, number, ask);
    let is_alike = match frame.body() {
        Body::Call(call) if number.call % 2 == 0 => {
            answers_lent(rt, controller, number, call, answered)
        }
        _ => answers_framed(rt, controller, &frame, answered),
    };
    drop(frame);
    is_alike
}

// The new number of this call: 40 sessions of 250 calls.
fn new_number(call: u64) -> Number {
    Number {
        session: (call / 250).saturating_add(1),
        call: (call % 250).saturating_add(1),
    }
}

#[test]
fn a_plain_controller_answers_the_same(rt: HostRuntime) {
    let mut controller = new_controller(&rt, NODES);
    let mut plain = Plain {
        rows: Vec::new(rt.alloc()),
        next_id: 1,
        session: 0,
    };
    let mut draws = Draws { state: 20_240_607 };
    for call in 0..10_000u64 {
        let ask = draws.ask(&plain);
        let number = draws.number(new_number(call), row_about(&plain.rows, ask));
        let is_alike = answers_alike(&rt, &mut controller, &mut plain, number, ask);
        assert!(rt; is_alike, "call {call}");
        assert!(rt; has_record(&rt, &controller, &plain), "after call {call}");
    }
    // of 50 names some were deleted, forgotten and used again
    assert!(rt; plain.session == 40 && plain.next_id > 150 && plain.rows.len() <= 50);
    drop(plain);
    drop(controller);
}
