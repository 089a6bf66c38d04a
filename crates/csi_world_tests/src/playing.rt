//! How a table is played. The world is simulated anew after each event, and audited. Where memory is refused it is simulated,
//! or audited, the second time, so that each test is one of refused growths too (by `tools/refusals`).
use crate::checking::{has, has_node, is_call, is_reply, knows};
use crate::events::event;
use crate::steps::{Does, Step};
use crate::values::{config, room};
use csi_types::Config;
use csi_world::{Event, Outcome, Violation, World, audit, simulate};
use std::alloc::Global;
use std::process::Abort;

// What a row says, and which of its steps it is.
type At = (&'static str, usize);

pub(crate) fn world_after(
    rt: &(impl Abort + AllocGlobal),
    config: &Config,
    events: &[Event],
) -> World {
    match simulate(rt.alloc(), config, events) {
        Ok(world) => world,
        Err(_) => simulate(rt.alloc(), config, events).expect(rt, "a world"),
    }
}

// What the audit finds.
pub(crate) fn audited(rt: &(impl Abort + AllocGlobal), world: &World) -> Option<Violation> {
    match audit(rt.alloc(), world) {
        Ok(found) => found,
        Err(_) => audit(rt.alloc(), world).expect(rt, "memory"),
    }
}

// Whether this came of the last event, and the world is safe.
fn came_of_last(
    rt: &(impl Abort + AllocGlobal),
    config: &Config,
    events: &[Event],
    outcome: Outcome,
) -> bool {
    let world = world_after(rt, config, events);
    let outcomes = world.outcomes();
    let came = outcomes.len() == events.len() && outcomes.last().copied() == Some(outcome);
    let is_safe = audited(rt, &world).is_none();
    drop(world);
    came && is_safe
}

// Another event happens, and this comes of it.
fn play_event(
    rt: &(impl Abort + AllocGlobal),
    config: &Config,
    events: &mut Vec<Event>,
    (does, outcome): (Does, Outcome),
    at: At,
) {
    events.push(event(rt, does)).expect(rt, "room");
    let came = came_of_last(rt, config, events.as_slice(), outcome);
    assert!(rt; came, "{at:?}: {outcome:?}");
}

// Frame `call` was sent. It is delivered, and so is its reply, the next frame, of which this comes.
fn answered(
    rt: &(impl Abort + AllocGlobal),
    config: &Config,
    events: &mut Vec<Event>,
    (call, then): (u64, Outcome),
    at: At,
) {
    let reply = call.wrapping_add(1);
    let delivered = (Does::Deliver(call), Outcome::Answered(reply));
    play_event(rt, config, events, delivered, at);
    play_event(rt, config, events, (Does::Deliver(reply), then), at);
}

// This is done by three calls, the first of them this frame, each sent when the reply to the one before it was taken.
fn three_calls(
    rt: &(impl Abort + AllocGlobal),
    config: &Config,
    events: &mut Vec<Event>,
    (does, first): (Does, u64),
    at: At,
) {
    let second = first.wrapping_add(2);
    let third = first.wrapping_add(4);
    play_event(rt, config, events, (does, Outcome::Sent(first)), at);
    let then = Outcome::Taken(Some(second));
    answered(rt, config, events, (first, then), at);
    let then = Outcome::Taken(Some(third));
    answered(rt, config, events, (second, then), at);
    answered(rt, config, events, (third, Outcome::Taken(None)), at);
}

// Whether the world shows what the step says.
fn shows(rt: &(impl Abort + AllocGlobal), config: &Config, events: &[Event], step: Step) -> bool {
    let world = world_after(rt, config, events);
    let is_so = match step {
        Step::Frames(count) => world.frame_count() == count,
        Step::NoFrame(number) => world.frame(number).is_none(),
        Step::Calls(frame, number, kind) => is_call(world.frame(frame), number, kind),
        Step::Replies(frame, number, status, detail) => {
            is_reply(world.frame(frame), number, status, detail)
        }
        Step::Has(attached, at, staged, published) => {
            has(rt, &world, at, (attached, staged, published))
        }
        Step::NoNode(at) => !has_node(rt, &world, at),
        Step::Knows(at, known) => knows(rt, &world, at, known),
        Step::IsIn(session) => world.orchestrator().session() == session,
        // A row begins, where nothing happened.
        _ => world.outcomes().is_empty() && audited(rt, &world).is_none(),
    };
    drop(world);
    is_so
}

fn play(
    rt: &(impl Abort + AllocGlobal),
    config: &Config,
    events: &mut Vec<Event>,
    step: Step,
    at: At,
) {
    match step {
        Step::On(does, outcome) => play_event(rt, config, events, (does, outcome), at),
        Step::Makes(mode) => {
            let created = (Does::Create(mode), Outcome::Sent(1));
            play_event(rt, config, events, created, at);
            answered(rt, config, events, (1, Outcome::Taken(None)), at)
        }
        Step::Publishes(first, node, mode, readonly) => {
            let used = Does::Use(node, "/a", mode, readonly);
            three_calls(rt, config, events, (used, first), at)
        }
        Step::Leaves(first, node) => {
            three_calls(rt, config, events, (Does::Stop(node, "/a"), first), at)
        }
        _ => assert!(rt; shows(rt, config, events.as_slice(), step), "{at:?}"),
    }
}

// No row has more events.
const MOST: usize = 100;

// These rows are played, one after another.
pub(crate) fn plays(rt: &(impl Abort + AllocGlobal), steps: &[Step]) {
    let mut world_config = config(rt, &[]);
    let mut events = room(rt, MOST);
    let mut row = "";
    let mut count = 0usize;
    for step in steps {
        match step {
            Step::New(told, nodes) => {
                row = *told;
                count = 0;
                world_config = config(rt, nodes);
                events.clear();
            }
            _ => count = count.saturating_add(1),
        }
        play(rt, &world_config, &mut events, *step, (row, count));
    }
    drop(events);
    drop(world_config);
}
