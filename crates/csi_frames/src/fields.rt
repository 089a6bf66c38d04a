//! The bytes of a body, or of a part of a record, from which its fields are read one after another.
ghost use Rattle.std.specs.Prelude.{◌≡◌, ◌≤◌, ◌<◌, true, false, IfOk, MatchOption, length};
ghost use Rattle.std.specs.Str.{is_utf8};

use crate::fault::FaultKind;
use byteorder::{BigEndian, ByteOrder};
use std::str;

/// Where reading stopped: the fault, and how many bytes were left from the field at fault on. This profile's own.
#[derive(Clone, Copy)]
pub struct FieldStop {
    pub kind: FaultKind,
    pub left: usize,
}

/// The bytes of a body, or of a part of a record, that are left. Each method reads a field from their front and takes no memory;
/// where it answers where it stopped, the bytes are at fault and the rest isn't read. This profile's own.
#[derive(Drop)]
pub struct Fields<'a> {
    pub bytes: &'a [u8],
}

impl<'a> Fields<'a> {
    ghost use Rattle.csi_frames.specs.Public.Gives.{Gives};
    ghost use Rattle.csi_frames.specs.Public.Grammar.{any, at_most, from_to};
    ghost use Rattle.csi_frames.specs.Public.Reading.{byte_at, word_at, text_at, id_at, flag_at};

    /// The fault of the field that begins here.
    pub fn stop(&self, kind: FaultKind) -> FieldStop
        ensures { result ≡ record { kind = kind; left = length self.now.bytes.now } }
    {
        FieldStop {
            kind,
            left: self.bytes.len(),
        }
    }

    /// A byte, whatever it is.
    #[tactic(auto, unfolding(crate::specs::Public::Reading::byte_at))]
    pub fn any_byte(&mut self) -> Result<u8, FieldStop>
        ensures { Gives (λ n. n) result self.new (byte_at any FaultKind.LengthDiffers self.old.bytes.now) }
    {
        let [byte, rest @ ..] = self.bytes else {
            return Err(self.stop(FaultKind::LengthDiffers));
        };
        self.bytes = rest;
        Ok(*byte)
    }

    /// A byte of `least` to `most`.
    #[tactic(auto, unfolding(crate::specs::Public::Reading::byte_at))]
    pub fn count(&mut self, least: u8, most: u8) -> Result<u8, FieldStop>
        ensures read { Gives (λ n. n) result self.new (byte_at (from_to least most) FaultKind.BadCount self.old.bytes.now) }
        ensures few { IfOk result (λ n. n ≤ most) }
    {
        let [byte, rest @ ..] = self.bytes else {
            return Err(self.stop(FaultKind::LengthDiffers));
        };
        if *byte < least || most < *byte {
            return Err(self.stop(FaultKind::BadCount));
        }
        self.bytes = rest;
        Ok(*byte)
    }

    /// A byte of at most `most`.
    #[tactic(auto, unfolding(crate::specs::Public::Reading::byte_at))]
    pub fn byte(&mut self, most: u8, fault: FaultKind) -> Result<u8, FieldStop>
        ensures { Gives (λ n. n) result self.new (byte_at (at_most most) fault self.old.bytes.now) }
    {
        let [byte, rest @ ..] = self.bytes else {
            return Err(self.stop(FaultKind::LengthDiffers));
        };
        if *byte > most {
            return Err(self.stop(fault));
        }
        self.bytes = rest;
        Ok(*byte)
    }

    /// Any number of 64 bits.
    #[tactic(auto, unfolding(crate::specs::Public::Reading::word_at))]
    pub fn word(&mut self) -> Result<u64, FieldStop>
        ensures { Gives (λ n. n) result self.new (word_at any self.old.bytes.now) }
    {
        if self.bytes.len() < 8 {
            return Err(self.stop(FaultKind::LengthDiffers));
        }
        let (front, rest) = self.bytes.split_at(8);
        self.bytes = rest;
        Ok(BigEndian::read_u64(front))
    }

    /// An id, which isn't 0.
    #[tactic(auto, unfolding(crate::specs::Public::Reading::word_at, crate::specs::Public::Reading::id_at))]
    pub fn id(&mut self) -> Result<u64, FieldStop>
        ensures read { Gives (λ n. n) result self.new (id_at self.old.bytes.now) }
        ensures from_one { IfOk result (λ n. 0 < n) }
    {
        let bad = self.stop(FaultKind::BadId);
        let number = self.word()?;
        if number == 0 {
            return Err(bad);
        }
        Ok(number)
    }

    /// A flag: 0, or 1 for true.
    #[tactic(auto, unfolding(crate::specs::Public::Reading::flag_at))]
    pub fn flag(&mut self) -> Result<bool, FieldStop>
        ensures { Gives (λ b. b) result self.new (flag_at self.old.bytes.now) }
    {
        let byte = self.byte(1, FaultKind::BadFlag)?;
        Ok(byte == 1)
    }

    /// A text of `least` to `most` bytes.
    #[tactic(auto, unfolding(crate::specs::Public::Reading::text_at))]
    pub fn text(&mut self, least: usize, most: usize) -> Result<&'a str, FieldStop>
        ensures { Gives (λ text. text.now) result self.new (text_at least most self.old.bytes.now) }
    {
        let [count, rest @ ..] = self.bytes else {
            return Err(self.stop(FaultKind::LengthDiffers));
        };
        let count = *count as usize;
        if count < least || most < count {
            return Err(self.stop(FaultKind::BadText));
        }
        if rest.len() < count {
            return Err(self.stop(FaultKind::LengthDiffers));
        }
        let (text, rest) = rest.split_at(count);
        match utf8(text) {
            Some(text) => {
                self.bytes = rest;
                Ok(text)
            }
            None => Err(self.stop(FaultKind::BadText)),
        }
    }
}

// The bytes as text, if they are UTF-8.
fn utf8(bytes: &[u8]) -> Option<&str>
    ensures { MatchOption result (is_utf8 bytes.now ≡ false) (λ text. (is_utf8 bytes.now ≡ true) × (text.now ≡ bytes.now)) }
{
    match str::from_utf8(bytes) {
        Ok(text) => Some(text),
        Err(_) => None,
    }
}
