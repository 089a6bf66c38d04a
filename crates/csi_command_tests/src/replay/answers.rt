//! The replies to a stream, whole, and before that out of memory.
use super::running::{Written, bytes_of};
use super::{CONTROLLER_PUBLISH, CREATE, CREATED, NO_NODE};
use csi_commands::{SliceFault, answer};
use std::alloc::Global;

// DeleteVolume of id 1 under (1, 3), and its reply.
const DELETE: &str = "0000001b 01 02 0000000000000001 0000000000000003 00 0000000000000001";

const DELETED: &str = "0000001d 01 82 0000000000000001 0000000000000003 00 00 0000000000000000 00";

const CALLS: &[&str] = &[CREATE, CONTROLLER_PUBLISH, DELETE];

// Of 33, 37 and 33 bytes.
const REPLIES: &[&str] = &[CREATED, NO_NODE, DELETED];

// Whether these are the replies to some of the first frames, and not to all.
fn is_front(out: &[u8], replies: &[u8]) -> bool {
    (out.is_empty() || out.len() == 33 || out.len() == 70) && replies.starts_with(out)
}

// Whether all replies are given and so many frames counted. Where memory is refused those to some of the first frames are given, and all
// the second time.
fn is_answered(alloc: Global, calls: &[u8], replies: &[u8], frames: u64) -> bool {
    let mut out = Vec::new(alloc);
    let first = answer(alloc, calls, &mut out);
    if first != Err(SliceFault::NoMemory) {
        return first == Ok(frames) && out.as_slice() == replies;
    }
    let has_front = is_front(out.as_slice(), replies);
    out.clear();
    has_front && answer(alloc, calls, &mut out) == Ok(frames) && out.as_slice() == replies
}

// A reply is a frame that gets nothing.
const ANSWERED: &[(&[&str], &[&str], u64)] = &[
    (CALLS, REPLIES, 3),
    (&[super::DELETED], &[], 1),
    (&[], &[], 0),
];

#[test]
fn answer_gives_all_replies_or_the_first(rt: HostRuntime) {
    for (index, (calls, replies, frames)) in ANSWERED.iter().enumerate() {
        let calls = bytes_of(&rt, Written::Hexadecimal(calls));
        let replies = bytes_of(&rt, Written::Hexadecimal(replies));
        let is_answered = is_answered(rt.alloc(), &calls, &replies, *frames);
        assert!(&rt; is_answered, "stream {index}");
    }
}
