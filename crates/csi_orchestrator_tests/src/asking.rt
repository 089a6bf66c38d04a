//! What an orchestrator answers when it is asked, and what it is to answer.
use crate::frames::{call_frame, reply_frame};
use crate::steps::{Ask, Gives, NODES, Sent};
use crate::values::{block, name, node_id, node_ids, only_block, target};
use csi_orchestrator::{Heard, OrchFault, Orchestrator};
use csi_types::{Frame, Mode, Number};
use std::alloc::Global;
use std::process::Abort;

type Answer = Result<Heard, OrchFault>;

// A command's answer, as it is told of a frame that comes.
fn told(sent: Result<Option<Frame>, OrchFault>) -> Answer {
    match sent {
        Ok(frame) => Ok(Heard::Taken(frame)),
        Err(fault) => Err(fault),
    }
}

fn create(rt: &(impl Abort + AllocGlobal), o: &mut Orchestrator, text: &str, mode: Mode) -> Answer {
    let name = name(rt, text);
    let capabilities = only_block(rt, mode);
    told(o.create(name, 10, 0, capabilities))
}

// Another command about `v`, or its timeout.
fn command(rt: &(impl Abort + AllocGlobal), o: &mut Orchestrator, ask: Ask) -> Answer {
    let name = name(rt, "v");
    let sent = match ask {
        Ask::Use(at, path, mode, readonly) => {
            let node = node_id(rt, at);
            o.use_at(&name, node, target(rt, path), block(mode), readonly)
        }
        Ask::Stop(at, path) => {
            let node = node_id(rt, at);
            o.stop(&name, node, target(rt, path))
        }
        Ask::Delete => o.delete(&name),
        _ => o.timeout(&name),
    };
    drop(name);
    told(sent)
}

// It begins a session with this list of nodes.
fn restart(rt: &(impl Abort + AllocGlobal), o: &mut Orchestrator, texts: &[&str]) -> Answer {
    o.restart(node_ids(rt, texts))?;
    Ok(Heard::Taken(None))
}

fn lose(rt: &(impl Abort + AllocGlobal), o: &mut Orchestrator, text: &str) -> Answer {
    let node = node_id(rt, text);
    let lost = o.lose(&node);
    drop(node);
    lost?;
    Ok(Heard::Taken(None))
}

fn comes(o: &mut Orchestrator, frame: Frame) -> Answer {
    let answer = o.deliver(&frame);
    drop(frame);
    answer
}

// What it answers to this.
pub(crate) fn answer(rt: &(impl Abort + AllocGlobal), o: &mut Orchestrator, ask: Ask) -> Answer {
    match ask {
        Ask::Create(text, mode) => create(rt, o, text, mode),
        Ask::Use(..) | Ask::Stop(..) | Ask::Delete | Ask::Timeout => command(rt, o, ask),
        Ask::Restart => restart(rt, o, NODES),
        Ask::Lists(texts) => restart(rt, o, texts),
        Ask::Lose(text) => lose(rt, o, text),
        Ask::Hear(session, call, sent, status) => {
            comes(o, reply_frame(rt, Number { session, call }, sent, status))
        }
        Ask::Echo(session, call, sent) => comes(o, call_frame(rt, Number { session, call }, sent)),
    }
}

// Whether the frame is this call.
fn is_call(rt: &(impl Abort + AllocGlobal), frame: &Frame, number: Number, sent: Sent) -> bool {
    let wanted = call_frame(rt, number, sent);
    let is_call = *frame == wanted;
    drop(wanted);
    is_call
}

// Whether the answer is this.
pub(crate) fn is_given(rt: &(impl Abort + AllocGlobal), answer: &Answer, gives: Gives) -> bool {
    match (answer, gives) {
        (Ok(Heard::Taken(Some(frame))), Gives::Sends(session, call, sent)) => {
            is_call(rt, frame, Number { session, call }, sent)
        }
        (Ok(Heard::Taken(None)), Gives::Nothing) | (Ok(Heard::Ignored), Gives::Ignores) => true,
        (Err(fault), Gives::Refuses(wanted)) => *fault == wanted,
        _ => false,
    }
}
