//! `answer_from` and `show_from`: how many frames there were, and which device failed.
use super::devices::{AT_ONCE, BYTE_BY_BYTE, Ways, reader_of, writer_of};
use super::running::{Written, bytes_of};
use super::{CONTROLLER_PUBLISH, CREATE, CREATED, DAMAGED, DELETE, NO_NODE};
use csi_commands::{StreamFault, answer_from, show_from};
use csi_frames::FaultKind;
use std::alloc::Global;

// Whether frames are answered, or shown; how reader and writer do; the frames; what is written for them; the count of frames, or the
// fault; and how often was read.
#[derive(Clone, Copy)]
struct Stream {
    shows: bool,
    ways: Ways,
    input: &'static [&'static str],
    output: Written,
    comes: Result<u64, StreamFault>,
    reads: usize,
}

// Of 44, 37 and 31 bytes. The third call has the number of the second, and gets its reply.
const THREE: &[&str] = &[CREATE, CONTROLLER_PUBLISH, DELETE];

const STREAMS: &[Stream] = &[
    Stream {
        shows: false,
        ways: BYTE_BY_BYTE,
        input: THREE,
        output: Written::Hexadecimal(&[CREATED, NO_NODE, NO_NODE]),
        comes: Ok(3),
        reads: 113,
    },
    Stream {
        shows: true,
        ways: BYTE_BY_BYTE,
        input: THREE,
        output: Written::Text(
            "0 1.1 controller CreateVolume \"v\" 10 0 block/1\n44 1.2 controller ControllerPublishVolume 1 \"n1\" block/1 rw\n81 1.2 controller DeleteVolume 1\n",
        ),
        comes: Ok(3),
        reads: 113,
    },
    Stream {
        shows: false,
        ways: AT_ONCE,
        input: &[CREATE, DAMAGED],
        output: Written::Hexadecimal(&[CREATED]),
        comes: Err(StreamFault::Frame(FaultKind::LengthDiffers, 75)),
        reads: 1,
    },
    Stream {
        shows: false,
        ways: Ways {
            gives: 44,
            reads: 1,
            ..AT_ONCE
        },
        input: THREE,
        output: Written::Hexadecimal(&[CREATED]),
        comes: Err(StreamFault::Input),
        reads: 1,
    },
    // nothing is read after a write that failed
    Stream {
        shows: false,
        ways: Ways {
            gives: 31,
            room: 0,
            ..AT_ONCE
        },
        input: &[DELETE, DELETE, DELETE],
        output: Written::Text(""),
        comes: Err(StreamFault::Output),
        reads: 1,
    },
];

// What comes of it, how often was read, and whether that was written.
fn once(
    alloc: Global,
    stream: Stream,
    frames: &[u8],
    written: &[u8],
) -> (Result<u64, StreamFault>, usize, bool) {
    let mut reader = reader_of(frames, stream.ways);
    let mut writer = writer_of(written, stream.ways);
    let came = if stream.shows {
        show_from(alloc, &mut reader, &mut writer)
    } else {
        answer_from(alloc, &mut reader, &mut writer)
    };
    let writer = writer.into_inner();
    let is_written = writer.is_wanted && writer.taken == written.len();
    (came, reader.into_inner().reads, is_written)
}

#[test]
fn frames_are_counted_and_devices_told(rt: HostRuntime) {
    for (index, stream) in STREAMS.iter().enumerate() {
        let frames = bytes_of(&rt, Written::Hexadecimal(stream.input));
        let written = bytes_of(&rt, stream.output);
        let came = match once(rt.alloc(), *stream, &frames, &written) {
            (Err(StreamFault::NoMemory), _, _) => once(rt.alloc(), *stream, &frames, &written),
            came => came,
        };
        assert!(&rt;
            came == (stream.comes, stream.reads, true),
            "stream {index}"
        );
    }
}
