//! The bytes of a stream that no line took yet.
ghost use Rattle.std.specs.Prelude.{◌≡◌, ◌≢◌, ◌<◌, ◌≤◌, ◌++◌, ℕ, [], length, take, drop, slice_index, OnOk, OnErr};
ghost use Rattle.csi_streams.specs.Private.Lining.{IsFront};

use csi_types::NoMemory;
use std::alloc::Global;
use std::marker::Model;

/// The most bytes of a line, without its newline.
pub const LINE_ROOM: usize = 65536;

/// The byte that ends a line.
const NEWLINE: u8 = b'\n';

/// What the bytes that are kept begin with.
pub(crate) enum Front {
    /// A line of so many bytes, and its newline.
    Line(usize),
    /// A part of a line, or nothing.
    Part,
    /// More bytes than a line may have.
    Long,
}

/// The bytes of a stream that comes in pieces which no line took yet. A contract sees them. They stand in its buffer from `start` on, and no
/// newline is in front of `looked`, where the search for one goes on.
#[derive(Drop)]
pub(crate) struct LineBuffer {
    bytes: Vec<u8>,
    start: usize,
    looked: usize,
}

impl Model for LineBuffer {
    ghost use Rattle.std.specs.Prelude.{ℕ, List, drop, vec_len};
    ghost use Rattle.csi_streams.specs.Private.Looked.{IsLookedThrough};

    ghost Value = { List ℕ };

    ghost view = { λ buffer. drop buffer.start buffer.bytes.items };

    ghost invariant = { λ buffer. IsLookedThrough buffer.bytes.items (vec_len buffer.bytes) buffer.start buffer.looked };
}

// The place of the first newline from this place on, or else the end.
fn newline_from(bytes: &[u8], from: usize) -> usize
    requires { from ≤ length bytes.now }
    ensures behind { from ≤ result }
    ensures within { result ≤ length bytes.now }
    ensures none { (k : ℕ) → from ≤ k → k < result → slice_index bytes.now k ≢ 10 }
    ensures there { result < length bytes.now → slice_index bytes.now result ≡ 10 }
{
    for at in from..bytes.len() {
        if bytes[at] == NEWLINE {
            return at;
        }
    }
    bytes.len()
}

impl LineBuffer {
    /// Nothing is kept. It takes no memory.
    pub(crate) fn new(alloc: Global) -> LineBuffer
        ensures { result ≡ [] }
    {
        LineBuffer {
            bytes: Vec::new(alloc),
            start: 0,
            looked: 0,
        }
    }

    // Moves what is kept to the front.
    fn compact(&mut self)
        ensures { self.new ≡ self.old }
    {
        let left = self.bytes.len() - self.start;
        self.bytes.copy_within(self.start.., 0);
        self.bytes.truncate(left);
        self.looked -= self.start;
        self.start = 0;
    }

    /// Puts a piece behind what is kept. A refusal leaves what is kept as it was.
    pub(crate) fn feed(&mut self, piece: &[u8]) -> Result<(), NoMemory>
        ensures ok { OnOk result (self.new ≡ self.old ++ piece.now) }
        ensures err { OnErr result (self.new ≡ self.old) }
    {
        if self.start > 0 {
            self.compact();
        }
        self.bytes.extend_from_slice(piece)?;
        Ok(())
    }

    /// What the bytes that are kept begin with. It looks at no byte twice.
    pub(crate) fn front(&mut self) -> Front
        ensures same { self.new ≡ self.old }
        ensures front { IsFront self.old result }
    {
        self.looked = newline_from(self.bytes.as_slice(), self.looked);
        let len = self.looked - self.start;
        if len > LINE_ROOM {
            Front::Long
        } else if self.looked < self.bytes.len() {
            Front::Line(len)
        } else {
            Front::Part
        }
    }

    /// How many bytes are kept.
    pub(crate) fn len(&self) -> usize
        ensures { result ≡ length self.now }
    {
        self.bytes.len() - self.start
    }

    /// The first bytes of those that are kept, so many.
    pub(crate) fn first(&self, len: usize) -> &[u8]
        requires { len ≤ length self.now }
        ensures { result.now ≡ take len self.now }
    {
        &self.bytes[self.start..self.start + len]
    }

    /// Takes the first bytes off those that are kept, so many.
    pub(crate) fn skip(&mut self, len: usize)
        requires { len ≤ length self.old }
        ensures { self.new ≡ drop len self.old }
    {
        self.start += len;
        self.looked = self.looked.max(self.start);
    }
}
