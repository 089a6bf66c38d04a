//! Refused growths. With memory to spare these tests compare the whole answers. Run with one allocation refused, each
//! in turn (`tools/refusals`), they see that memory is out and that nothing changed, and then the whole answer.
use crate::vectors::{CREATE, DELETE, PUBLISH};
use csi_frames::{FaultKind, Splitter, decode, encode};
use csi_types::Frame;
use std::alloc::Global;
use std::process::Abort;

// The frame of these bytes, in the end.
fn read_in_the_end(rt: &(impl Abort + AllocGlobal), bytes: &[u8]) -> Frame {
    let first = match decode(rt.alloc(), bytes) {
        Err(fault) => {
            assert!(rt; fault.kind == FaultKind::NoMemory && fault.place == 0);
            decode(rt.alloc(), bytes)
        }
        first => first,
    };
    let (frame, size) = first.expect(rt, "a frame");
    assert!(rt; size == bytes.len());
    frame
}

// Whether the frame is written as these bytes, in the end, behind what was there.
fn is_written_in_the_end(rt: &(impl Abort + AllocGlobal), frame: Frame, bytes: &[u8]) -> bool {
    let mut out = Vec::new(rt.alloc());
    if out.push(7).is_err() {
        out.push(7).expect(rt, "memory");
    }
    if encode(&frame, &mut out).is_err() {
        assert!(rt; out.first() == Some(&7) && out.len() == 1);
        encode(&frame, &mut out).expect(rt, "memory");
    }
    drop(frame);
    let is_written = out.first() == Some(&7) && out.get(1..) == Some(bytes);
    drop(out);
    is_written
}

#[test]
fn frames_are_read_and_written_in_want_of_memory(rt: HostRuntime) {
    // Reading the last one takes no memory: it has no texts.
    for bytes in [CREATE.as_slice(), PUBLISH.as_slice(), DELETE.as_slice()] {
        let frame = read_in_the_end(&rt, bytes);
        assert!(rt; is_written_in_the_end(&rt, frame, bytes), "{bytes:?}");
    }
}

// Feeds a piece, in the end.
fn feed_in_the_end(rt: &impl Abort, splitter: &mut Splitter, piece: &[u8]) {
    let before = splitter.kept();
    if splitter.feed(piece).is_err() {
        assert!(rt; splitter.kept() == before);
        splitter.feed(piece).expect(rt, "memory");
    }
}

// The next frame, in the end.
fn next_in_the_end(rt: &(impl Abort + AllocGlobal), splitter: &mut Splitter) -> Frame {
    let lent = splitter.next().expect(rt, "no fault").expect(rt, "a frame");
    match lent.to_frame(rt.alloc()) {
        Ok(frame) => frame,
        Err(_) => lent.to_frame(rt.alloc()).expect(rt, "memory"),
    }
}

#[test]
fn pieces_are_kept_and_frames_copied_in_want_of_memory(rt: HostRuntime) {
    let mut splitter = Splitter::new(rt.alloc());
    for bytes in [CREATE.as_slice(), PUBLISH.as_slice()] {
        for piece in bytes.chunks(9) {
            feed_in_the_end(&rt, &mut splitter, piece);
        }
        let frame = next_in_the_end(&rt, &mut splitter);
        assert!(rt; is_written_in_the_end(&rt, frame, bytes), "{bytes:?}");
    }
    drop(splitter);
}
