//! The first fault of damaged frames: its number and its place.
use crate::vectors::{
    CREATE, CREATE_BARE, CREATE_REPLY, CREATE_SEVEN_LAST, CREATE_SIX, CREATE_TWO, DELETE, PUBLISH,
    PUBLISH_SEVEN,
};
use csi_frames::decode;
use std::alloc::Global;
use std::process::Abort;

// Whether the bytes have this first fault, by its number and its place.
fn has_fault(alloc: Global, bytes: &[u8], number: u8, place: usize) -> bool {
    match decode(alloc, bytes) {
        Ok((frame, _)) => {
            drop(frame);
            false
        }
        Err(fault) => fault.kind.number() == number && fault.place == place,
    }
}

// The frame with one byte changed, and so many bytes of 0 behind it.
fn changed(
    rt: &(impl Abort + AllocGlobal),
    frame: &[u8],
    at: usize,
    byte: u8,
    more: usize,
) -> Vec<u8> {
    let mut bytes = frame.to_vec(rt.alloc()).expect(rt, "memory");
    assert!(rt; at < bytes.len());
    bytes[at] = byte;
    for _ in 0..more {
        bytes.push(0).expect(rt, "memory");
    }
    bytes
}

// Each line: a frame, where a byte of it is changed, to what, and the number and the place of the first fault.
const CHANGES: &[(&[u8], usize, u8, u8, usize)] = &[
    // the version, the kind, the party, the id, and the length
    (&DELETE, 4, 0, 3, 4),
    (&DELETE, 4, 3, 3, 4),
    (&DELETE, 5, 9, 4, 5),
    (&DELETE, 22, 1, 5, 22),
    (&DELETE, 30, 0, 11, 23),
    (&DELETE, 3, 0x1a, 13, 23),
    // a mode, an access type, a count, a name that isn't UTF-8, and an empty one
    (&CREATE, 43, 6, 7, 43),
    (&CREATE, 43, 7, 7, 43),
    (&CREATE, 42, 2, 8, 42),
    (&CREATE, 41, 9, 12, 41),
    (&CREATE, 24, 0xff, 6, 23),
    (&CREATE, 23, 0, 6, 23),
    // the controller for a node, and a flag
    (&PUBLISH, 22, 0, 5, 22),
    (&PUBLISH, 39, 2, 9, 39),
    // version 2 for a call without a capability, for a reply, for a create without one, and where no mode is 6 or 7
    (&DELETE, 4, 2, 4, 5),
    (&CREATE_REPLY, 4, 2, 4, 5),
    (&CREATE_BARE, 4, 2, 12, 41),
    (&CREATE, 4, 2, 7, 43),
    (&CREATE_TWO, 4, 2, 7, 50),
    (&PUBLISH, 4, 2, 7, 38),
    // a mode of version 1 where one of 6 or 7 is wanted, and one of no version
    (&CREATE_SIX, 43, 1, 7, 43),
    (&CREATE_SIX, 43, 8, 7, 43),
    (&CREATE_SEVEN_LAST, 50, 5, 7, 50),
    (&CREATE_SEVEN_LAST, 43, 8, 7, 43),
    (&PUBLISH_SEVEN, 38, 3, 7, 38),
    // version 1 for what version 2 alone has, and version 3
    (&CREATE_SEVEN_LAST, 4, 1, 7, 50),
    (&PUBLISH_SEVEN, 4, 1, 7, 38),
    (&CREATE_SIX, 4, 3, 3, 4),
];

#[test]
fn a_byte_that_is_not_allowed(rt: HostRuntime) {
    for (frame, at, byte, fault, place) in CHANGES {
        let bytes = changed(&rt, frame, *at, *byte, 0);
        let is_found = has_fault(rt.alloc(), bytes.as_slice(), *fault, *place);
        drop(bytes);
        assert!(rt; is_found, "{byte} at {at}");
    }
}

#[test]
fn a_length_that_differs(rt: HostRuntime) {
    let alloc = rt.alloc();
    assert!(rt; has_fault(alloc, &[], 1, 0), "no bytes");
    assert!(rt; has_fault(alloc, &DELETE[..10], 1, 10), "ten bytes");
    assert!(rt; has_fault(alloc, &[0, 0, 5, 1], 2, 0), "a length of 1281");
    let longer = changed(&rt, &DELETE, 3, 0x1c, 1);
    assert!(rt; has_fault(alloc, &longer, 13, 31), "a byte more");
    let long = changed(&rt, &CREATE, 2, 5, 1240);
    let longest = changed(&rt, &long, 3, 0, 0);
    assert!(rt; has_fault(alloc, &longest, 13, 44), "a length of 1280");
    drop((longer, long, longest));
}
