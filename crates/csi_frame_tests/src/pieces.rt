//! Frames that come in pieces, with memory to spare. Each cutting in two is in `damage.rt` of `csi_plugin_tests`.
use crate::vectors::{DELETE, LONGER_DELETE, VECTORS};
use csi_frames::{FaultKind, Splitter, encode};
use std::alloc::Global;
use std::process::Abort;

// Whether it gives nothing yet.
fn waits(splitter: &mut Splitter) -> bool {
    match splitter.next() {
        Ok(None) => true,
        _ => false,
    }
}

// Whether it gives the frame of these bytes.
fn gives(rt: &(impl Abort + AllocGlobal), splitter: &mut Splitter, bytes: &[u8]) -> bool {
    match splitter.next() {
        Ok(Some(lent)) => {
            let frame = lent.to_frame(rt.alloc()).expect(rt, "memory");
            let mut out = Vec::new(rt.alloc());
            encode(&frame, &mut out).expect(rt, "memory");
            drop(frame);
            let is_same = out.as_slice() == bytes;
            drop(out);
            is_same
        }
        _ => false,
    }
}

// Whether it answers this fault.
fn stops(splitter: &mut Splitter, kind: FaultKind, place: usize) -> bool {
    match splitter.next() {
        Err(fault) => fault.kind == kind && fault.place == place,
        Ok(_) => false,
    }
}

// Whether the stream may not end, with so many bytes left.
fn ends_short(splitter: &Splitter, left: usize) -> bool {
    match splitter.end() {
        Err(fault) => fault.kind == FaultKind::Short
            && fault.place == left
            && splitter.kept() == left,
        Ok(()) => false,
    }
}

// The frame comes with its last byte, and the stream may end then.
fn comes_in_bytes(rt: &(impl Abort + AllocGlobal), bytes: &[u8]) {
    let mut splitter = Splitter::new(rt.alloc());
    for (at, byte) in bytes.iter().enumerate() {
        assert!(rt; waits(&mut splitter) && splitter.kept() == at, "{at} bytes");
        splitter.feed(&[*byte]).expect(rt, "memory");
    }
    assert!(rt;
        gives(rt, &mut splitter, bytes) && waits(&mut splitter),
        "{bytes:?}"
    );
    assert!(rt;
        splitter.end().is_ok() && splitter.taken() == bytes.len() as u64,
        "{bytes:?}"
    );
    drop(splitter);
}

#[test]
fn a_frame_byte_by_byte(rt: HostRuntime) {
    for bytes in VECTORS {
        comes_in_bytes(&rt, bytes);
    }
}

#[test]
fn a_fault_stays(rt: HostRuntime) {
    let mut bytes = DELETE.to_vec(rt.alloc()).expect(&rt, "memory");
    bytes
        .extend_from_slice(&LONGER_DELETE)
        .expect(&rt, "memory");
    let mut splitter = Splitter::new(rt.alloc());
    splitter.feed(&bytes).expect(&rt, "memory");
    drop(bytes);
    assert!(rt; gives(&rt, &mut splitter, &DELETE) && splitter.taken() == 31);
    assert!(rt; stops(&mut splitter, FaultKind::LengthDiffers, 31));
    assert!(rt; stops(&mut splitter, FaultKind::LengthDiffers, 31));
    assert!(rt; splitter.feed(&[0]).is_ok() && ends_short(&splitter, 32));
    assert!(rt; splitter.feed(&DELETE).is_ok() && ends_short(&splitter, 32));
    assert!(rt; stops(&mut splitter, FaultKind::LengthDiffers, 31) && splitter.taken() == 31);
    drop(splitter);
}

#[test]
fn what_is_judged_before_it_is_whole(rt: HostRuntime) {
    // a length of 1281, as soon as it is there
    let mut long = Splitter::new(rt.alloc());
    long.feed(&[0, 0, 5]).expect(&rt, "memory");
    assert!(rt; waits(&mut long) && ends_short(&long, 3));
    long.feed(&[1]).expect(&rt, "memory");
    assert!(rt; stops(&mut long, FaultKind::TooLong, 0) && ends_short(&long, 4));
    drop(long);
    // a front of a frame
    let mut front = Splitter::new(rt.alloc());
    front.feed(&DELETE[..10]).expect(&rt, "memory");
    assert!(rt; waits(&mut front) && ends_short(&front, 10));
    drop(front);
}
