//! What a stream is read from.
ghost use Rattle.std.specs.Prelude.{ℕ, List, Option};
ghost use Rattle.csi_stores.specs.Public.Counting.{ReadsCounted};

use csi_stores::Counted;
use std::io;
use std::io::Read;

/// What a stream is read from. It says where it may be asked for more: what it gave before may have to be answered then, as a peer has it that
/// waits for an answer. So whoever asks has to prove that it is.
pub trait Source<S, O> {
    /// What is left of the stream, where that is known.
    ghost remaining: { Self → Option (List ℕ) };

    /// How many calls failed, up to 2^64 - 1.
    ghost faults: { Self → ℕ };

    /// It may be asked for more where the store and the output are these.
    ghost may_read: { Self → S → O → Type 0 };

    /// Gives at most as many bytes as the piece has, and none at the end.
    fn give(&mut self, store: &S, out: &O, piece: &mut [u8]) -> io::Result<usize>
        requires { may_read self.old store.now out.now }
        ensures { ReadsCounted (remaining self.old) (remaining self.new) (faults self.old) (faults self.new) result piece.new };
}

/// A reader may be asked at any time.
impl<S, O, R: Read> Source<S, O> for Counted<R> {
    ghost remaining = { λ counted. R.remaining counted.inner };

    ghost faults = { λ counted. counted.faults };

    ghost may_read = { λ counted store out. Unit {0} };

    fn give(&mut self, _store: &S, _out: &O, piece: &mut [u8]) -> io::Result<usize> {
        self.read(piece)
    }
}
