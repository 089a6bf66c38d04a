//! A whole body, and the frame at the front of bytes.
ghost use Rattle.std.specs.Prelude.{◌≡◌, ◌≤◌, IfErr, length};
ghost use Rattle.csi_frames.specs.Public.Borrowed.{lent_borrowed_frame, lent_party, lent_body};
ghost use Rattle.csi_frames.specs.Public.Gives.{Gives};
ghost use Rattle.csi_frames.specs.Private.Gives.{GivesWhole};
ghost use Rattle.csi_frames.specs.Public.Reading.{party_at, number_at, version_at, kind_at, fields_at, frame_at, whole_frame, first_frame};

use crate::body_kind::BodyKind;
use crate::borrowed::{BodyRef, BorrowedFrame, PartyRef};
use crate::calls::{call_at, reply_at};
use crate::fault::{FaultKind, FrameFault};
use crate::fields::{FieldStop, Fields};
use crate::version::Version;
use byteorder::{BigEndian, ByteOrder};
use csi_types::{NodeId, Number};

#[tactic(auto, unfolding(crate::specs::Public::Reading::byte_at, crate::specs::Public::Reading::version_at))]
fn version_at(fields: &mut Fields<'_>) -> Result<Version, FieldStop>
    ensures { Gives (λ version. version) result fields.new (version_at fields.old.bytes.now) }
{
    let bad = fields.stop(FaultKind::BadVersion);
    let byte = fields.any_byte()?;
    Version::from_number(byte).ok_or(bad)
}

#[tactic(auto, unfolding(crate::specs::Public::Reading::byte_at, crate::specs::Public::Reading::kind_at))]
fn kind_at(fields: &mut Fields<'_>, version: Version) -> Result<BodyKind, FieldStop>
    ensures { Gives (λ kind. kind) result fields.new (kind_at version fields.old.bytes.now) }
{
    let bad = fields.stop(FaultKind::BadKind);
    let byte = fields.any_byte()?;
    version.kind(byte).ok_or(bad)
}

/// The number of a call. It takes no memory.
#[tactic(auto, unfolding(crate::specs::Public::Reading::number_at))]
pub fn number_at(fields: &mut Fields<'_>) -> Result<Number, FieldStop>
    ensures { Gives (λ number. number) result fields.new (number_at fields.old.bytes.now) }
{
    let session = fields.word()?;
    let call = fields.word()?;
    Ok(Number { session, call })
}

// The party: 0 for the controller's kinds, and 1 and the node's id for a node's.
#[inline(always)]
#[tactic(auto, unfolding(crate::specs::Public::Reading::byte_at, crate::specs::Public::Reading::party_at))]
fn party_at<'a>(fields: &mut Fields<'a>, kind: BodyKind) -> Result<PartyRef<'a>, FieldStop>
    ensures { Gives lent_party result fields.new (party_at kind fields.old.bytes.now) }
{
    let bad = fields.stop(FaultKind::BadParty);
    let byte = fields.any_byte()?;
    if byte != kind.party_number() {
        return Err(bad);
    }
    if byte == 0 {
        return Ok(PartyRef::Controller);
    }
    let id = fields.text(1, NodeId::MAX_LEN)?;
    Ok(PartyRef::Node(id))
}

// The fields of a body of this kind.
#[inline(always)]
#[tactic(auto, unfolding(crate::specs::Public::Reading::fields_at))]
fn fields_at<'a>(
    fields: &mut Fields<'a>,
    version: Version,
    kind: BodyKind,
) -> Result<BodyRef<'a>, FieldStop>
    ensures { Gives lent_body result fields.new (fields_at version kind fields.old.bytes.now) }
{
    match kind {
        BodyKind::Call(of) => match call_at(fields, version, of) {
            Ok(call) => Ok(BodyRef::Call(call)),
            Err(stop) => Err(stop),
        },
        BodyKind::Reply(of) => match reply_at(fields, of) {
            Ok(reply) => Ok(BodyRef::Reply(of, reply)),
            Err(stop) => Err(stop),
        },
    }
}

// The same, apart for the first version, of which nearly all frames are, so that no test of the version is left in it.
#[inline(always)]
fn fields_of_version<'a>(
    fields: &mut Fields<'a>,
    version: Version,
    kind: BodyKind,
) -> Result<BodyRef<'a>, FieldStop>
    ensures { Gives lent_body result fields.new (fields_at version kind fields.old.bytes.now) }
{
    match version {
        Version::One => fields_at(fields, Version::One, kind),
        Version::Two => fields_at(fields, Version::Two, kind),
    }
}

#[inline(always)]
#[tactic(auto, unfolding(crate::specs::Public::Reading::frame_at))]
fn frame_at<'a>(fields: &mut Fields<'a>) -> Result<BorrowedFrame<'a>, FieldStop>
    ensures { Gives lent_borrowed_frame result fields.new (frame_at fields.old.bytes.now) }
{
    let version = version_at(fields)?;
    let kind = kind_at(fields, version)?;
    let number = number_at(fields)?;
    let party = party_at(fields, kind)?;
    let body = fields_of_version(fields, version, kind)?;
    Ok(BorrowedFrame {
        number,
        party,
        body,
    })
}

/// The frame whose body these bytes are, all of them.
#[inline(always)]
fn whole_body(bytes: &[u8]) -> Result<BorrowedFrame<'_>, FieldStop>
    ensures read { GivesWhole lent_borrowed_frame result (whole_frame (frame_at bytes.now)) }
    ensures within { IfErr result (λ stop. stop.left ≤ length bytes.now) }
{
    let mut fields = Fields { bytes };
    match frame_at(&mut fields) {
        Ok(frame) if fields.bytes.is_empty() => Ok(frame),
        Ok(_) => Err(fields.stop(FaultKind::LengthDiffers)),
        Err(stop) => Err(stop),
    }
}

/// The most bytes that a body has.
pub const MAX_BODY: usize = 1280;

/// The frame at the front of the bytes and how many bytes it takes, or the first fault. It takes no memory.
#[inline(always)]
#[tactic(auto, unfolding(crate::specs::Public::Reading::first_frame))]
pub(crate) fn first_frame(bytes: &[u8]) -> Result<(BorrowedFrame<'_>, usize), FrameFault>
    ensures { GivesWhole (λ x. (lent_borrowed_frame x.0, x.1)) result (first_frame bytes.now) }
{
    let short = FrameFault {
        kind: FaultKind::Short,
        place: bytes.len(),
    };
    if bytes.len() < 4 {
        return Err(short);
    }
    let length = BigEndian::read_u32(bytes) as usize;
    if length > MAX_BODY {
        return Err(FrameFault {
            kind: FaultKind::TooLong,
            place: 0,
        });
    }
    let size = 4 + length;
    if bytes.len() < size {
        return Err(short);
    }
    match whole_body(&bytes[4..size]) {
        Ok(frame) => Ok((frame, size)),
        Err(stop) => Err(FrameFault {
            kind: stop.kind,
            place: size - stop.left,
        }),
    }
}
