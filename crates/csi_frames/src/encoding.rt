//! Frames written as bytes.
ghost use Rattle.std.specs.Prelude.{◌≡◌, ◌≤◌, ◌+◌, ◌++◌, length};
ghost use Rattle.csi_types.specs.Public.VolumeId.{IsVolumeId};
ghost use Rattle.csi_types.specs.Public.Text.{IsText};
ghost use Rattle.csi_types.specs.Public.Limits.{IsNumber, IsCapability, IsParty, IsCall, IsReply};
ghost use Rattle.csi_types.specs.Model.Replies.{call_frame, reply_frame};
ghost use Rattle.csi_frames.specs.Private.Puts.{Puts, HasRoom};
ghost use Rattle.csi_frames.specs.Private.Spelling.{head};
ghost use Rattle.csi_frames.specs.Public.Appends.{Appends};
ghost use Rattle.csi_frames.specs.Public.Spelling.{word, text, flag, capability, party};
ghost use Rattle.csi_frames.specs.Public.Spelling.{call_fields, call_capabilities, has_new_mode, spelling, Spells};

use crate::body_kind::{kind_number, reply_kind_number};
use crate::version::{Version, is_new_mode};
use crate::writing::{
    append_byte, append_capability, append_flag, append_reply, append_text, append_word,
    capabilities_len, capability_len, put, put_capabilities,
};
use byteorder::{BigEndian, ByteOrder};
use csi_types::{
    Body, Call, Capability, Frame, Kind, LimitedText, NoMemory, Number, Party, Reply, VolumeId,
};

/// A body's version, kind and the two parts of its number, which stand before the party.
const HEAD: usize = 1 + 1 + 8 + 8;

// ---- how many bytes there are to be: 8 for each number, 1 for each byte

fn call_len(from: &Call) -> usize
    ensures len { result ≡ length (call_fields from.now) }
    ensures small { result ≤ 1194 }
{
    match from {
        Call::CreateVolume {
            name,
            capabilities,
            ..
        } => 1 + name.as_str().len() + 8 + 8 + 1 + capabilities_len(capabilities.as_slice()),
        Call::DeleteVolume { .. } | Call::NodeUnstageVolume { .. } => 8,
        Call::ControllerPublishVolume {
            node,
            capability,
            ..
        } => 8 + 1 + node.as_str().len() + capability_len(capability) + 1,
        Call::ControllerUnpublishVolume { node, .. } => 8 + 1 + node.as_str().len(),
        Call::NodeStageVolume { capability, .. } => 8 + capability_len(capability),
        Call::NodePublishVolume {
            target,
            capability,
            ..
        } => 8 + 1 + target.as_str().len() + capability_len(capability) + 1,
        Call::NodeUnpublishVolume { target, .. } => 8 + 1 + target.as_str().len(),
    }
}

fn party_len(from: &Party) -> usize
    ensures len { result ≡ length (party from.now) }
    ensures small { result ≤ 257 }
{
    match from {
        Party::Controller => 1,
        Party::Node(id) => 2 + id.as_str().len(),
    }
}

// ---- the bytes themselves. Each function has room for what it writes, and so takes no memory.

// A volume, the node or the target that it goes to, and how it is to be used there.
fn put_publish<Of>(
    out: &mut Vec<u8>,
    id: VolumeId,
    to: &LimitedText<Of, 255>,
    usage: &Capability,
    readonly: bool,
)
    requires { HasRoom out.old (length (word id ++ text to.now ++ capability usage.now ++ flag readonly)) }
    ensures { Puts out.old out.new (word id ++ text to.now ++ capability usage.now ++ flag readonly) (IsVolumeId id × IsText 1 255 to.now × IsCapability usage.now) }
{
    append_word(out, id.number()).unwrap();
    append_text(out, to).unwrap();
    append_capability(out, usage).unwrap();
    append_flag(out, readonly).unwrap();
}

fn put_call(out: &mut Vec<u8>, from: &Call)
    requires { HasRoom out.old (length (call_fields from.now)) }
    ensures { Puts out.old out.new (call_fields from.now) (IsCall from.now) }
{
    match from {
        Call::CreateVolume {
            name,
            required,
            limit,
            capabilities,
        } => {
            let capabilities = capabilities.as_slice();
            append_text(out, name).unwrap();
            append_word(out, *required).unwrap();
            append_word(out, *limit).unwrap();
            append_byte(out, capabilities.len() as u8).unwrap();
            put_capabilities(out, capabilities);
        }
        Call::DeleteVolume { id } | Call::NodeUnstageVolume { id } => {
            append_word(out, id.number()).unwrap();
        }
        Call::ControllerPublishVolume {
            id,
            node,
            capability,
            readonly,
        } => put_publish(out, *id, node, capability, *readonly),
        Call::ControllerUnpublishVolume { id, node } => {
            append_word(out, id.number()).unwrap();
            append_text(out, node).unwrap();
        }
        Call::NodeStageVolume { id, capability } => {
            append_word(out, id.number()).unwrap();
            append_capability(out, capability).unwrap();
        }
        Call::NodePublishVolume {
            id,
            target,
            capability,
            readonly,
        } => put_publish(out, *id, target, capability, *readonly),
        Call::NodeUnpublishVolume { id, target } => {
            append_word(out, id.number()).unwrap();
            append_text(out, target).unwrap();
        }
    }
}

// Whether one of them is in a mode that the first version hasn't.
fn has_new_mode(capabilities: &[Capability]) -> bool
    ensures { result ≡ has_new_mode capabilities.now }
{
    for one in capabilities {
        if is_new_mode(one.mode) {
            return true;
        }
    }
    false
}

fn call_has_new_mode(from: &Call) -> bool
    ensures { result ≡ has_new_mode (call_capabilities from.now) }
{
    match from {
        Call::CreateVolume { capabilities, .. } => has_new_mode(capabilities.as_slice()),
        Call::ControllerPublishVolume { capability, .. }
        | Call::NodeStageVolume { capability, .. }
        | Call::NodePublishVolume { capability, .. } => is_new_mode(capability.mode),
        Call::DeleteVolume { .. }
        | Call::ControllerUnpublishVolume { .. }
        | Call::NodeUnstageVolume { .. }
        | Call::NodeUnpublishVolume { .. } => false,
    }
}

// What stands before the party.
fn head_bytes(size: u32, version: Version, kind: u8, number: Number) -> [u8; 22]
    ensures { result ≡ head size version kind number }
{
    let mut head = [0; 22];
    BigEndian::write_u32(&mut head, size);
    head[4] = version.number();
    head[5] = kind;
    BigEndian::write_u64(&mut head[6..], number.session);
    BigEndian::write_u64(&mut head[14..], number.call);
    head
}

// What stands before the kind's fields: the length of the body, which has been counted, the version, the kind byte, the number
// and the party.
#[inline(always)]
fn put_head(out: &mut Vec<u8>, size: u32, version: Version, kind: u8, number: Number, from: &Party)
    requires { HasRoom out.old (22 + length (party from.now)) }
    ensures { Puts out.old out.new (head size version kind number ++ party from.now) (IsNumber number × IsParty from.now) }
{
    put(out, &head_bytes(size, version, kind, number));
    match from {
        Party::Controller => append_byte(out, 0).unwrap(),
        Party::Node(id) => {
            append_byte(out, 1).unwrap();
            append_text(out, id).unwrap();
        }
    }
}

/// Appends the bytes that spell the frame. It takes no memory but the vector's own, which is asked for
/// first: with spare capacity for the frame it succeeds, and a refusal leaves the vector's bytes as they
/// were. This profile's own.
pub fn encode(frame: &Frame, out: &mut Vec<u8>) -> Result<(), NoMemory>
    ensures { Appends out.old out.new (spelling frame.now) (Spells frame.now (spelling frame.now)) result }
{
    match frame.body() {
        Body::Call(call) => encode_call(frame.number(), frame.party(), call, out),
        Body::Reply(kind, reply) => {
            encode_reply(frame.number(), frame.party(), *kind, reply, out)
        }
    }
}

// The frame of a call, as `encode_reply` does that of a reply.
fn encode_call(
    number: Number,
    party: &Party,
    call: &Call,
    out: &mut Vec<u8>,
) -> Result<(), NoMemory>
    ensures { Appends out.old out.new (spelling (call_frame number party.now call.now)) (IsNumber number × IsParty party.now × IsCall call.now) result }
{
    let size = HEAD + party_len(party) + call_len(call);
    let version = Version::with_new_mode(call_has_new_mode(call));
    let kind = kind_number(call.kind());
    out.reserve(4 + size)?;
    put_head(out, size as u32, version, kind, number, party);
    put_call(out, call);
    Ok(())
}

/// Appends the bytes that spell the frame of a reply, as `encode` does, with no frame made of its parts. This profile's own.
#[inline(always)]
pub fn encode_reply(
    number: Number,
    party: &Party,
    kind: Kind,
    reply: &Reply,
    out: &mut Vec<u8>,
) -> Result<(), NoMemory>
    ensures { Appends out.old out.new (spelling (reply_frame number party.now kind reply.now)) (IsNumber number × IsParty party.now × IsReply reply.now) result }
{
    let size = HEAD + party_len(party) + 10 + reply.detail.as_str().len();
    out.reserve(4 + size)?;
    put_head(
        out,
        size as u32,
        Version::One,
        reply_kind_number(kind),
        number,
        party,
    );
    append_reply(out, reply).unwrap();
    Ok(())
}
