//! What an orchestrator knows.
use crate::steps::Fact;
use crate::values::{name, node_id, target};
use csi_orchestrator::{Known, Orchestrator, Thing};
use std::alloc::Global;
use std::process::Abort;

fn thing_of(rt: &(impl Abort + AllocGlobal), fact: Fact) -> Thing {
    match fact {
        Fact::Exists(text) => Thing::Exists {
            name: name(rt, text),
        },
        Fact::Attached(text, at) => Thing::Attached {
            name: name(rt, text),
            node: node_id(rt, at),
        },
        Fact::Staged(text, at) => Thing::Staged {
            name: name(rt, text),
            node: node_id(rt, at),
        },
        Fact::Published(text, at, path) => Thing::Published {
            name: name(rt, text),
            node: node_id(rt, at),
            target: target(rt, path),
        },
    }
}

// Whether it knows this of a thing.
pub(crate) fn knows(
    rt: &(impl Abort + AllocGlobal),
    o: &Orchestrator,
    fact: Fact,
    known: Known,
) -> bool {
    let thing = thing_of(rt, fact);
    let found = o.known(&thing);
    drop(thing);
    found == known
}

// Whether it knows the same of `v`, of its use at `n1` and of `/a` there.
pub(crate) fn knows_of_each(
    rt: &(impl Abort + AllocGlobal),
    o: &Orchestrator,
    known: Known,
) -> bool {
    knows(rt, o, Fact::Exists("v"), known)
        && knows(rt, o, Fact::Attached("v", "n1"), known)
        && knows(rt, o, Fact::Staged("v", "n1"), known)
        && knows(rt, o, Fact::Published("v", "n1", "/a"), known)
}

// What it knows, as a list. Where memory is refused it lists it the second time.
pub(crate) fn listed(rt: &impl Abort, o: &Orchestrator) -> Vec<(Thing, Known)> {
    match o.things() {
        Ok(things) => things,
        Err(_) => o.things().expect(rt, "things"),
    }
}

// Whether it lists as many things as it listed before, and knows the same of each of them.
pub(crate) fn lists_again(rt: &impl Abort, o: &Orchestrator, before: &[(Thing, Known)]) -> bool {
    for (thing, known) in before {
        if o.known(thing) != *known {
            return false;
        }
    }
    let things = listed(rt, o);
    let count = things.len();
    drop(things);
    count == before.len()
}

// Whether the thing is this.
fn is_fact(rt: &(impl Abort + AllocGlobal), thing: &Thing, fact: Fact) -> bool {
    let wanted = thing_of(rt, fact);
    let is_fact = *thing == wanted;
    drop(wanted);
    is_fact
}

// Whether it lists these things, in this order.
pub(crate) fn lists(
    rt: &(impl Abort + AllocGlobal),
    o: &Orchestrator,
    facts: &[(Fact, Known)],
) -> bool {
    let things = listed(rt, o);
    let mut are_listed = things.len() == facts.len();
    for ((thing, found), (fact, known)) in things.iter().zip(facts) {
        are_listed = are_listed && is_fact(rt, thing, *fact) && *found == *known;
    }
    drop(things);
    are_listed
}
