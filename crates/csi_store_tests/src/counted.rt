//! `Counted` passes each call on as it is, once, and hands its answer back. No contract of a `Read` or `Write` says which call is
//! made of the reader or writer under it, so a device notes what it is asked.
use csi_service::Counted;
use std::io;
use std::io::{ErrorKind, Read, Write};

// What a device answers to every call: so many bytes, or as many as it was given where these are fewer; or an error.
type Answer = Result<usize, ErrorKind>;

const ANSWERS: &[Answer] = &[
    Ok(0),
    Ok(1),
    Ok(600),
    Err(ErrorKind::Other),
    Err(ErrorKind::Interrupted),
    Err(ErrorKind::WouldBlock),
    Err(ErrorKind::UnexpectedEof),
    Err(ErrorKind::WriteZero),
    Err(ErrorKind::OutOfMemory),
];

// The calls, as a device notes them, with the length of what it was given.
const READ: u8 = 1;

const READ_EXACT: u8 = 2;

const WRITE: u8 = 3;

const WRITE_ALL: u8 = 4;

const FLUSH: u8 = 5;

// A reader and a writer that answers all calls alike, and notes the last one and how many there were.
#[derive(Drop)]
struct Device {
    answer: Answer,
    asked: (u8, usize),
    calls: u64,
}

impl Device {
    fn note(&mut self, call: u8, length: usize) {
        self.asked = (call, length);
        self.calls = self.calls.saturating_add(1);
    }

    fn done(&mut self, call: u8, length: usize) -> io::Result<()> {
        self.note(call, length);
        match self.answer {
            Ok(_) => Ok(()),
            Err(kind) => Err(io::Error::from(kind)),
        }
    }
}

impl Read for Device {
    fn read(&mut self, buf: &mut [u8]) -> io::Result<usize> {
        self.note(READ, buf.len());
        match self.answer {
            Ok(most) => Ok(most.min(buf.len())),
            Err(kind) => Err(io::Error::from(kind)),
        }
    }

    fn read_exact(&mut self, buf: &mut [u8]) -> io::Result<()> {
        self.done(READ_EXACT, buf.len())
    }
}

impl Write for Device {
    fn write(&mut self, buf: &[u8]) -> io::Result<usize> {
        self.note(WRITE, buf.len());
        match self.answer {
            Ok(most) => Ok(most.min(buf.len())),
            Err(kind) => Err(io::Error::from(kind)),
        }
    }

    fn flush(&mut self) -> io::Result<()> {
        self.done(FLUSH, 0)
    }

    fn write_all(&mut self, buf: &[u8]) -> io::Result<()> {
        self.done(WRITE_ALL, buf.len())
    }
}

// A call of the device through `Counted`: what came of it, as a count, and what the device was asked.
fn called(answer: Answer, call: u8, length: usize) -> (io::Result<usize>, Device) {
    let mut room = [0; 600];
    let end = length.min(600);
    let mut counted = Counted::new(Device {
        answer,
        asked: (0, 0),
        calls: 0,
    });
    let came = match call {
        READ => counted.read(&mut room[..end]),
        WRITE => counted.write(&room[..end]),
        _ => {
            let done = match call {
                READ_EXACT => counted.read_exact(&mut room[..end]),
                WRITE_ALL => counted.write_all(&room[..end]),
                _ => counted.flush(),
            };
            match done {
                Ok(()) => Ok(end),
                Err(error) => Err(error),
            }
        }
    };
    (came, counted.into_inner())
}

// Whether the call is passed on as it is, with this answer.
fn is_passed_on(answer: Answer, call: u8, length: usize) -> bool {
    let (came, device) = called(answer, call, length);
    let is_answer = match (came, answer) {
        (Ok(count), Ok(most)) => {
            let is_short = call == READ || call == WRITE;
            count == if is_short { most.min(length) } else { length }
        }
        (Err(error), Err(kind)) => error.kind() == kind,
        _ => false,
    };
    let given = if call == FLUSH { 0 } else { length };
    is_answer && device.calls == 1 && device.asked == (call, given)
}

#[test]
fn each_call_is_passed_on_as_it_is(rt: HostRuntime) {
    for answer in ANSWERS {
        for call in READ..=FLUSH {
            for length in [0usize, 1, 31, 600] {
                assert!(&rt;
                    is_passed_on(*answer, call, length),
                    "call {call} with {length} bytes"
                );
            }
        }
    }
}
