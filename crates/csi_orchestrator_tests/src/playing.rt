//! How a table is played. Every step may see a growth refused: it then answers out of memory and changes nothing, and
//! answers in full when it is asked again. So each test is one of refused growths too (by `tools/refusals`).
use crate::asking::{answer, is_given};
use crate::steps::{Ask, Gives, MANY, NODES, OK, Sent, Step};
use crate::things::{knows, knows_of_each, listed, lists, lists_again};
use crate::values::node_ids;
use csi_orchestrator::{Known, OrchFault, Orchestrator, Thing};
use csi_types::{Mode, Number};
use std::alloc::Global;
use std::process::Abort;

// What a row says, and which of its steps it is.
type At = (&'static str, usize);

// It is asked again what it refused as out of memory, lists what it listed before, and gives this now.
fn stays_and_gives(
    rt: &(impl Abort + AllocGlobal),
    o: &mut Orchestrator,
    before: &[(Thing, Known)],
    (ask, gives): (Ask, Gives),
    at: At,
) {
    assert!(rt; lists_again(rt, o, before), "{at:?}");
    let answer = answer(rt, o, ask);
    assert!(rt; is_given(rt, &answer, gives), "{at:?}: {answer:?}");
    drop(answer);
}

// It is asked this, and gives that.
fn gives(
    rt: &(impl Abort + AllocGlobal),
    o: &mut Orchestrator,
    (ask, gives): (Ask, Gives),
    at: At,
) {
    let before = listed(rt, o);
    let answer = answer(rt, o, ask);
    if matches!(&answer, Err(OrchFault::NoMemory)) {
        stays_and_gives(rt, o, &before, (ask, gives), at);
    } else {
        assert!(rt; is_given(rt, &answer, gives), "{at:?}: {answer:?}");
    }
    drop(answer);
    drop(before);
}

// It makes `v` by call 1.
fn makes(rt: &(impl Abort + AllocGlobal), o: &mut Orchestrator, mode: Mode, at: At) {
    let create = Sent::Create("v", mode);
    let asked = (Ask::Create("v", mode), Gives::Sends(1, 1, create));
    gives(rt, o, asked, at);
    gives(rt, o, (Ask::Hear(1, 1, create, OK), Gives::Nothing), at);
}

// It publishes `v` at `/a` of a node by three calls from this one on.
fn publishes(
    rt: &(impl Abort + AllocGlobal),
    o: &mut Orchestrator,
    first: u64,
    (node, mode, readonly): (&'static str, Mode, bool),
    at: At,
) {
    let attach = Sent::Attach(node, mode, readonly);
    let stage = Sent::Stage(node, mode);
    let publish = Sent::Publish(node, "/a", mode, readonly);
    let second = first.wrapping_add(1);
    let third = first.wrapping_add(2);
    let used = Ask::Use(node, "/a", mode, readonly);
    gives(rt, o, (used, Gives::Sends(1, first, attach)), at);
    let heard = Ask::Hear(1, first, attach, OK);
    gives(rt, o, (heard, Gives::Sends(1, second, stage)), at);
    let heard = Ask::Hear(1, second, stage, OK);
    gives(rt, o, (heard, Gives::Sends(1, third, publish)), at);
    let heard = Ask::Hear(1, third, publish, OK);
    gives(rt, o, (heard, Gives::Nothing), at);
}

// It publishes `v` at a further target of `n1`.
fn publishes_too(
    rt: &(impl Abort + AllocGlobal),
    o: &mut Orchestrator,
    call: u64,
    path: &'static str,
    at: At,
) {
    let publish = Sent::Publish("n1", path, MANY, false);
    let used = Ask::Use("n1", path, MANY, false);
    gives(rt, o, (used, Gives::Sends(1, call, publish)), at);
    let heard = Ask::Hear(1, call, publish, OK);
    gives(rt, o, (heard, Gives::Nothing), at);
}

// An orchestrator of the nodes, with its calls numbered after this number.
pub(crate) fn numbered(rt: &(impl Abort + AllocGlobal), session: u64, call: u64) -> Orchestrator {
    Orchestrator::numbered(rt.alloc(), node_ids(rt, NODES), Number { session, call })
}

// Whether it shows what the step says.
fn shows(rt: &(impl Abort + AllocGlobal), o: &Orchestrator, step: Step) -> bool {
    match step {
        Step::Knows(fact, known) => knows(rt, o, fact, known),
        Step::KnowsOfEach(known) => knows_of_each(rt, o, known),
        Step::Lists(facts) => lists(rt, o, facts),
        Step::IsIn(session) => o.session() == session,
        Step::Notes(count) => o.noted_calls() == count,
        _ => true,
    }
}

fn play(rt: &(impl Abort + AllocGlobal), o: &mut Orchestrator, step: Step, at: At) {
    match step {
        Step::New(_) => *o = numbered(rt, 1, 0),
        Step::After(_, session, call) => *o = numbered(rt, session, call),
        Step::On(ask, given) => gives(rt, o, (ask, given), at),
        Step::Makes(mode) => makes(rt, o, mode, at),
        Step::Publishes(first, node, mode, readonly) => {
            publishes(rt, o, first, (node, mode, readonly), at)
        }
        Step::PublishesToo(call, path) => publishes_too(rt, o, call, path, at),
        _ => assert!(rt; shows(rt, o, step), "{at:?}"),
    }
}

// These rows are played, one after another.
pub(crate) fn plays(rt: &(impl Abort + AllocGlobal), steps: &[Step]) {
    let mut o = numbered(rt, 1, 0);
    let mut row = "";
    let mut count = 0usize;
    for step in steps {
        match step {
            Step::New(told) | Step::After(told, _, _) => {
                row = *told;
                count = 0;
            }
            _ => count = count.saturating_add(1),
        }
        play(rt, &mut o, *step, (row, count));
    }
    drop(o);
}
