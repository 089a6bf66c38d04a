//! A stream, driven to its end.
ghost use Rattle.std.specs.Prelude.{◌≡◌, ◌<◌, ◌≤◌, ◌+◌, ◌++◌, ◌^◌, ℕ, List, [], length};
ghost use Rattle.csi_frames.specs.Public.Bytes.{AreBytes};
ghost use Rattle.csi_streams.specs.Public.State.{State};
ghost use Rattle.csi_streams.specs.Public.Driving.{Feeds, Drives, DrivesSlice, TellsReader, MayRead};

use crate::consumer::Consumer;
use crate::source::Source;

/// The most bytes of a slice that are taken at once.
const PIECE: usize = 4096;

/// This many bytes or more are no stream.
const ENDLESS: u64 = 1 << 63;

/// Why a stream wasn't taken to its end.
pub enum DriveStop<F> {
    /// The reader failed.
    Input,
    /// 2^63 bytes or more were read, and no end.
    Endless,
    /// What takes the stream stopped.
    Consumer(F),
}

// Takes a piece, and handles all items that are there.
fn take<S, O, C: Consumer<S, O>>(
    consumer: &mut C,
    store: &mut S,
    out: &mut O,
    piece: &[u8],
) -> Result<(), C::Fault>
    ensures bytes { AreBytes piece.now }
    ensures takes { (first : State C S O) (bytes : List ℕ) → C.rests first bytes (record { own = consumer.old; store = store.old; out = out.old }) →
        length bytes + length piece.now < 2 ^ 64 →
        Feeds (C.rests first (bytes ++ piece.now) (record { own = consumer.new; store = store.new; out = out.new }))
        (C.stops first (bytes ++ piece.now) (record { own = consumer.new; store = store.new; out = out.new })) result }
{
    consumer.feed(piece)?;
    while consumer.next(store, out)? {}
    Ok(())
}

/// Takes the stream that the reader has to its end: reads a piece, of as many bytes as `piece` has at most, and handles all items that
/// are there before it reads on: so the reader is asked where all that it gave is handled, and nothing waits, and nowhere else. The reader
/// failed at `Input` and at no other end.
pub fn drive<S, O, C: Consumer<S, O>, R: Source<S, O>>(
    consumer: &mut C,
    store: &mut S,
    out: &mut O,
    reader: &mut R,
    piece: &mut [u8],
) -> Result<(), DriveStop<C::Fault>>
    requires { MayRead R.remaining R.may_read C.rests
        (C.rests (record { own = consumer.old; store = store.old; out = out.old }) [] (record { own = consumer.old; store = store.old; out = out.old }))
        (record { own = consumer.old; store = store.old; out = out.old }) reader.old piece.old }
    ensures drives { Drives C.rests C.stops (record { own = consumer.old; store = store.old; out = out.old })
        (record { own = consumer.new; store = store.new; out = out.new })
        (R.remaining reader.old) (R.remaining reader.new) result }
    ensures reader { TellsReader (R.faults reader.old) (R.faults reader.new) result }
{
    let mut read = 0;
    while read < ENDLESS {
        match reader.give(store, out, piece) {
            Ok(0) => return Ok(()),
            Ok(n) => {
                match take(consumer, store, out, piece.split_at(n).0) {
                    Ok(()) => read += n as u64,
                    Err(fault) => return Err(DriveStop::Consumer(fault)),
                }
            }
            Err(_) => return Err(DriveStop::Input),
        }
    }
    Err(DriveStop::Endless)
}

/// Takes a stream that is there whole, 4,096 bytes at a time.
pub fn drive_slice<S, O, C: Consumer<S, O>>(
    consumer: &mut C,
    store: &mut S,
    out: &mut O,
    input: &[u8],
) -> Result<(), C::Fault>
    ensures { C.rests (record { own = consumer.old; store = store.old; out = out.old }) []
        (record { own = consumer.old; store = store.old; out = out.old }) →
        DrivesSlice C.rests C.stops (record { own = consumer.old; store = store.old; out = out.old })
        (record { own = consumer.new; store = store.new; out = out.new }) input.now result }
{
    let mut rest = input;
    while !rest.is_empty() {
        let (piece, behind) = rest.split_at(rest.len().min(PIECE));
        take(consumer, store, out, piece)?;
        rest = behind;
    }
    Ok(())
}
