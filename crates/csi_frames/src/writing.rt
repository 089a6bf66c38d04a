//! Fields written as bytes: texts, numbers, flags, ids, capabilities and replies. Of frames and of records.
ghost use Rattle.std.specs.Prelude.{◌≡◌, ◌≤◌, ◌++◌, [], ◌∷◌, length};
ghost use Rattle.std.specs.List.{flat_map, AllByRecursion};
ghost use Rattle.csi_types.specs.Public.Limits.{IsCapability, IsReply};
ghost use Rattle.csi_types.specs.Public.Text.{IsText};
ghost use Rattle.csi_types.specs.Public.Status.{status_code};
ghost use Rattle.csi_frames.specs.Private.Puts.{Puts, HasRoom};
ghost use Rattle.csi_frames.specs.Public.Appends.{Appends};
ghost use Rattle.csi_frames.specs.Public.Spelling.{word, text, flag, capability, reply_id, reply_fields};

use byteorder::{BigEndian, ByteOrder};
use csi_types::{Access, Capability, LimitedText, NoMemory, Reply};

/// Bytes behind what a vector has, which must have room for them.
pub(crate) fn put(out: &mut Vec<u8>, bytes: &[u8])
    requires { HasRoom out.old (length bytes.now) }
    ensures { Puts out.old out.new bytes.now (Unit {0}) }
{
    if !bytes.is_empty() {
        out.extend_from_slice(bytes).unwrap();
    }
}

// ---- Each of these takes no memory but the vector's own, which is asked for first. Writing a value shows that it is within its limits.

/// Appends a byte. It takes no memory but the vector's own: with spare capacity it succeeds, and a refusal leaves the vector's bytes
/// as they were. This profile's own.
pub fn append_byte(out: &mut Vec<u8>, byte: u8) -> Result<(), NoMemory>
    ensures { Appends out.old out.new (byte ∷ []) (Unit {0}) result }
{
    out.push(byte)?;
    Ok(())
}

/// Appends a number of 64 bits, as `append_byte` does a byte. This profile's own.
pub fn append_word(out: &mut Vec<u8>, number: u64) -> Result<(), NoMemory>
    ensures { Appends out.old out.new (word number) (Unit {0}) result }
{
    let mut eight = [0; 8];
    BigEndian::write_u64(&mut eight, number);
    out.extend_from_slice(&eight)?;
    Ok(())
}

/// Appends a flag, as `append_byte` does a byte. This profile's own.
pub fn append_flag(out: &mut Vec<u8>, readonly: bool) -> Result<(), NoMemory>
    ensures { Appends out.old out.new (flag readonly) (Unit {0}) result }
{
    append_byte(out, if readonly { 1 } else { 0 })
}

/// Appends a volume's name, a node's id or a target, as `append_byte` does a byte. This profile's own.
pub fn append_text<Of, const MOST: usize>(
    out: &mut Vec<u8>,
    from: &LimitedText<Of, MOST>,
) -> Result<(), NoMemory>
    requires { MOST ≤ 255 }
    ensures { Appends out.old out.new (text from.now) (IsText 1 MOST from.now) result }
{
    let from = from.as_str();
    out.reserve(1 + from.len())?;
    put(out, &[from.len() as u8]);
    put(out, from.as_bytes());
    Ok(())
}

/// Appends a capability, as `append_byte` does a byte. This profile's own.
pub fn append_capability(out: &mut Vec<u8>, from: &Capability) -> Result<(), NoMemory>
    ensures { Appends out.old out.new (capability from.now) (IsCapability from.now) result }
{
    let mode = from.mode.number();
    match &from.access {
        Access::Block => {
            out.extend_from_slice(&[0, mode])?;
            Ok(())
        }
        Access::Mount(fs_type) => {
            let text = fs_type.as_str();
            out.reserve(3 + text.len())?;
            put(out, &[1, text.len() as u8]);
            put(out, text.as_bytes());
            put(out, &[mode]);
            Ok(())
        }
    }
}

// A reply without the bytes of its detail.
fn reply_bytes(from: &Reply) -> [u8; 10]
    ensures value { result ≡ status_code from.now.status ∷ reply_id from.now.id ++ length from.now.detail ∷ [] }
    ensures fits { IsReply from.now }
{
    let detail = from.detail.as_str();
    let mut bytes = [0; 10];
    bytes[0] = from.status.code();
    if let Some(id) = from.id {
        BigEndian::write_u64(&mut bytes[1..], id.number());
    }
    bytes[9] = detail.len() as u8;
    bytes
}

/// Appends the fields of a reply, as `append_byte` does a byte. This profile's own.
#[inline(always)]
pub fn append_reply(out: &mut Vec<u8>, from: &Reply) -> Result<(), NoMemory>
    ensures { Appends out.old out.new (reply_fields from.now) (IsReply from.now) result }
{
    let detail = from.detail.as_str().as_bytes();
    out.reserve(10 + detail.len())?;
    put(out, &reply_bytes(from));
    put(out, detail);
    Ok(())
}

// ---- capabilities of a call, whose frame says first how many bytes it has

/// How many bytes a capability has.
pub(crate) fn capability_len(from: &Capability) -> usize
    ensures len { result ≡ length (capability from.now) }
    ensures small { result ≤ 131 }
{
    match &from.access {
        Access::Block => 2,
        Access::Mount(fs_type) => 3 + fs_type.as_str().len(),
    }
}

/// How many bytes at most 8 capabilities have.
pub(crate) fn capabilities_len(from: &[Capability]) -> usize
    requires { length from.now ≤ 8 }
    ensures len { result ≡ length (flat_map capability from.now) }
    ensures small { result ≤ 1048 }
{
    let mut total = 0;
    for one in from {
        total += capability_len(one);
    }
    total
}

/// Capabilities, for which there is room.
pub(crate) fn put_capabilities(out: &mut Vec<u8>, from: &[Capability])
    requires { HasRoom out.old (length (flat_map capability from.now)) }
    ensures { Puts out.old out.new (flat_map capability from.now) (AllByRecursion IsCapability from.now) }
{
    for one in from {
        append_capability(out, one).unwrap();
    }
}
