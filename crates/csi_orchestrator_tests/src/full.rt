//! An orchestrator of as many names as there may be.
use crate::playing::numbered;
use crate::steps::ONE;
use crate::values::{name, only_block};
use csi_orchestrator::{OrchFault, Orchestrator};
use std::alloc::Global;
use std::process::Abort;

// Why a create of a volume of this name is refused, if it is.
fn refusal(rt: &(impl Abort + AllocGlobal), o: &mut Orchestrator, text: &str) -> Option<OrchFault> {
    match o.create(name(rt, text), 10, 0, only_block(rt, ONE)) {
        Ok(sent) => {
            drop(sent);
            None
        }
        Err(fault) => Some(fault),
    }
}

#[test]
fn there_are_as_many_names_as_rows(rt: HostRuntime) {
    let mut o = numbered(&rt, 1, 0);
    for number in 1..=4096u64 {
        let text = format!(in rt.alloc(); "w{number}").expect(&rt, "memory");
        assert!(&rt; refusal(&rt, &mut o, &text).is_none(), "name {number}");
        drop(text);
    }
    assert!(&rt; refusal(&rt, &mut o, "v") == Some(OrchFault::Full));
    assert!(&rt; o.things().expect(&rt, "memory").len() == 4096);
    drop(o);
}
