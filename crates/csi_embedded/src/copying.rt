//! Bytes that are handed to C.
ghost use Rattle.std.specs.Prelude.{◌≡◌, ◌<◌, Err, length, take, OnOk, OnErr};
ghost use Rattle.csi_stores.specs.Public.Part.{part_change};
ghost use Rattle.csi_embedded.specs.Public.Calls.{TellsChange};

use crate::ending::CallEnding;
use csi_service::Part;

/// Copies the bytes to the front of the room, and says how many there are, also where they don't fit and the room stays as it was.
pub(crate) fn copy(bytes: &[u8], room: &mut [u8], written: &mut usize) -> Result<(), CallEnding>
    ensures count { written.new ≡ length bytes.now }
    ensures copied { OnOk result (take (length bytes.now) room.new ≡ bytes.now) }
    ensures room { OnErr result (length room.old < length bytes.now) }
    ensures stays { OnErr result (room.new ≡ room.old) }
    ensures full { OnErr result (result ≡ Err CallEnding.NoRoom) }
{
    let count = bytes.len();
    *written = count;
    if count > room.len() {
        return Err(CallEnding::NoRoom);
    }
    room[..count].copy_from_slice(bytes);
    Ok(())
}

/// Copies a part: its key, and its value, if it has one; without one it is taken out.
pub(crate) fn copy_part(
    part: &Part,
    key: &mut u64,
    value: &mut [u8],
    written: &mut usize,
) -> CallEnding
    ensures { TellsChange (part_change part.now) key.new (length value.old) written.new (take written.new value.new) result }
{
    *key = part.key;
    match &part.value {
        Some(bytes) => match copy(bytes, value, written) {
            Ok(()) => CallEnding::Done,
            Err(ending) => ending,
        },
        None => {
            *written = 0;
            CallEnding::TakenOut
        }
    }
}
