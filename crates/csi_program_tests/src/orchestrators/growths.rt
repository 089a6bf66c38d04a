//! Refused growths of the orchestrator's program over a store, as it is opened and as it serves. With memory to spare each run compares all answers.
//! Run with one allocation refused, each in turn (`tools/refusals`), the run that sees it ends out of memory, and the life goes on where the
//! store is opened again: of lines that are read at once those before the one that wanted memory are committed and answered.
use super::script::{Side, WHOLE, lines};
use super::{Start, answers, count, goes_on, is_whole, kept, puts};
use crate::devices::{SOUND, new_store};
use csi_streams::Ending;
use std::alloc::Global;
use std::process::Abort;

// Whether the life comes to its end in such a session, or in the next one where memory is refused.
fn lives_on(rt: &(impl Abort + AllocGlobal), start: Start) -> bool {
    let (session, from) = start;
    let mut keep = new_store(rt.alloc(), 1000, SOUND);
    puts(rt, &mut keep, session.saturating_sub(1), from);
    let given = lines(rt, Side::Given, session, (kept(from), WHOLE));
    let (written, ending) = answers(rt, &mut keep, &given, SOUND);
    drop(given);
    let is_so = match ending {
        Ending::Memory => {
            let answered = count(&written).saturating_sub(1);
            goes_on(rt, &mut keep, start, &written, answered)
        }
        _ => ending == Ending::Done && is_whole(rt, &mut keep, start, &written),
    };
    drop((written, keep));
    is_so
}

#[test]
fn an_orchestrator_lives_in_want_of_memory(rt: HostRuntime) {
    assert!(&rt; lives_on(&rt, (1, 0)));
}

// Of each row it is opened in the next session. Where a call is due a timeout has it sent, as one try more, and then all goes on.
#[test]
fn an_orchestrator_goes_on_in_want_of_memory(rt: HostRuntime) {
    for from in 1..=WHOLE {
        assert!(&rt; lives_on(&rt, (6, from)), "after {from} steps");
    }
}
