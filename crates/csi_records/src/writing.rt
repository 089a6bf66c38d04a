//! What records have beside fields, written as bytes. Reading a value shows that it is within its limits.
ghost use Rattle.std.specs.Prelude.{◌≡◌, ◌++◌, IfOk, OnOk};
ghost use Rattle.byteorder.specs.Endian.{big_bytes};
ghost use Rattle.csi_stores.specs.Public.Part.{IsPart, stored_in, all_stored_in};
ghost use Rattle.csi_records.specs.Public.Spelling.{present, kept_bytes, part_bytes, record_bytes};
ghost use Rattle.csi_records.specs.Public.Records.{IsKeptCall};
ghost use Rattle.csi_records.specs.Public.Writing.{CanBeWritten};
ghost use Rattle.csi_records.specs.Private.Writes.{Writes};

use crate::part_value::value_of;
use crate::version::PRESENT;
use byteorder::{BigEndian, ByteOrder};
use csi_frames::{append_byte, append_reply, append_word, reply_kind_number};
use csi_stores::Part;
use csi_types::{Kind, NoMemory, Number, Reply};
use std::alloc::Global;

// Bytes as they are.
fn put(out: &mut Vec<u8>, bytes: &[u8]) -> Result<(), NoMemory>
    ensures { OnOk result (out.new.items ≡ out.old.items ++ bytes.now) }
{
    out.extend_from_slice(bytes)?;
    Ok(())
}

// A number in four bytes.
fn put_count(out: &mut Vec<u8>, number: u32) -> Result<(), NoMemory>
    ensures { OnOk result (out.new.items ≡ out.old.items ++ big_bytes 4 number) }
{
    let mut four = [0; 4];
    BigEndian::write_u32(&mut four, number);
    put(out, &four)
}

/// The last number, and the reply that was kept.
pub(crate) fn put_kept(
    out: &mut Vec<u8>,
    last: Number,
    kind: Kind,
    reply: &Reply,
) -> Result<(), NoMemory>
    ensures { Writes out.old.items out.new.items (kept_bytes (record { number = last; kind = kind; reply = reply.now })) (IsKeptCall (record { number = last; kind = kind; reply = reply.now })) result }
{
    append_word(out, last.session)?;
    append_word(out, last.call)?;
    append_byte(out, reply_kind_number(kind))?;
    append_reply(out, reply)
}

// A part of a whole record.
fn put_part(out: &mut Vec<u8>, part: &Part) -> Result<(), NoMemory>
    requires { IsPart (stored_in part.now) }
    ensures { OnOk result (out.new.items ≡ out.old.items ++ part_bytes (stored_in part.now)) }
{
    let value = value_of(part);
    append_word(out, part.key)?;
    put_count(out, value.len() as u32)?;
    put(out, value)
}

/// The bytes of the record with these parts.
pub(crate) fn bytes_of(alloc: Global, parts: &[Part]) -> Result<Vec<u8>, NoMemory>
    requires { CanBeWritten (all_stored_in parts.now) }
    ensures { IfOk result (λ bytes. bytes.items ≡ record_bytes present (all_stored_in parts.now)) }
{
    let mut out = Vec::new(alloc);
    append_byte(&mut out, PRESENT.number())?;
    put_count(&mut out, parts.len() as u32)?;
    for part in parts {
        put_part(&mut out, part)?;
    }
    Ok(out)
}
