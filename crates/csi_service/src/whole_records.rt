//! Whole records as bytes.
ghost use Rattle.csi_service.specs.Public.WholeRecords.{ReadsRecord};

use csi_records::{Record, RecordStop, Stored};
use csi_stores::KeepFault;
use std::alloc::Global;

/// The record whose bytes these are, all of them, in any version: what `write_record` wrote is read again, and of an earlier version, which
/// had no session, the record is given that its rows make without one. Else `BadRecord` with the place, from 0, of the first part that is
/// refused: 0 where the version or the number of parts is, and the number of parts where bytes stand behind the last one. This profile's
/// own.
pub fn read_record<T: Record>(alloc: Global, bytes: &[u8]) -> Result<T, KeepFault>
    ensures { ReadsRecord T.is_record T.is_of bytes.now result }
{
    match csi_records::read_record(alloc, bytes) {
        Ok(Stored { kept, .. }) => Ok(kept),
        Err(RecordStop::BadRecord(place)) => Err(KeepFault::BadRecord(place)),
        Err(RecordStop::NoMemory) => Err(KeepFault::NoMemory),
    }
}
