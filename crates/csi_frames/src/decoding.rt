//! Frames read from bytes.
ghost use Rattle.std.specs.Prelude.{◌≡◌, ℕ, ◌⊎◌, List, IfOk, IfErr, IsOk, IsErrOf, Err};
ghost use Rattle.csi_types.specs.Model.Frame.{Frame as Parts};
ghost use Rattle.csi_frames.specs.declared.fault.FaultKind.{FaultKind as Kind};
ghost use Rattle.csi_frames.specs.Public.Bytes.{AreBytes};
ghost use Rattle.csi_frames.specs.Public.Decoding.{no_memory, GivesUnlessMemory, BeginsWithFrame, HasOneFrame, HasOneFault};
ghost use Rattle.csi_frames.specs.Public.Fault.{IsFaulty};
ghost use Rattle.csi_frames.specs.Public.Spelling.{BeginsWith};
ghost use Rattle.csi_frames.specs.Public.Texts.{IsTextless};

use crate::body::first_frame;
use crate::fault::{FaultKind, FrameFault};
use crate::owned;
use csi_types::Frame;
use std::alloc::Global;

/// The frame at the front of the bytes, whatever follows it, and how many bytes it takes; or the first
/// fault, with its place counted from the first byte. `NoMemory`, with place 0, is answered only where a
/// frame is there and a copy of one of its texts, or of its capabilities, was refused: a frame whose texts
/// are all empty or absent is read without memory. This profile's own.
pub fn decode(alloc: Global, bytes: &[u8]) -> Result<(Frame, usize), FrameFault>
    // What is read stands there, and a fault is the first one.
    ensures found { IfOk result (λ read. BeginsWith bytes.now read.0 read.1) }
    ensures fault { IfErr result (λ fault. IsFaulty bytes.now fault.kind fault.place ⊎ (fault ≡ no_memory)) }

    // A frame that stands there is read, and the first fault is answered.
    ensures every_frame { (frame : Parts) (n : ℕ) → BeginsWith bytes.now frame n → GivesUnlessMemory result (frame, n) }
    ensures every_fault { (kind : Kind) (place : ℕ) → IsFaulty bytes.now kind place → result ≡ Err (record { kind = kind; place = place }) }
    ensures memory { IsErrOf result no_memory → BeginsWithFrame bytes.now }
    ensures textless { (frame : Parts) (n : ℕ) → BeginsWith bytes.now frame n → IsTextless frame → IsOk result }
{
    match first_frame(bytes) {
        Ok((borrowed, size)) => match owned::frame(alloc, &borrowed) {
            Ok(frame) => Ok((frame, size)),
            Err(_) => Err(FrameFault {
                kind: FaultKind::NoMemory,
                place: 0,
            }),
        },
        Err(fault) => Err(fault),
    }
}

/// A law: every list of bytes either begins with the spelling of exactly one frame, or has exactly one
/// first fault. So what was encoded is decoded again, whatever follows it.
pub fn one_reading()
    ensures { (bytes : List ℕ) → AreBytes bytes → HasOneFrame bytes ⊎ HasOneFault bytes }
{}
