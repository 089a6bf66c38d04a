//! Parts that are put into a store, and those that are taken out.
ghost use Rattle.std.specs.Prelude.{◌∷◌, []};
ghost use Rattle.csi_stores.specs.Public.Part.{put_all, take_all, PutsBehind};

use crate::part::Part;
use csi_types::NoMemory;

/// Puts a part of this key and value at the end. An `Err` leaves the parts as they were. This profile's own.
pub fn push_value(parts: &mut Vec<Part>, key: u64, value: Vec<u8>) -> Result<(), NoMemory>
    ensures { PutsBehind parts.old.items parts.new.items (put_all (record { key = key; value = value.items } ∷ [])) result }
{
    parts.push(Part {
        key,
        value: Some(value),
    })?;
    Ok(())
}

/// Puts at the end that the part of this key is taken out. An `Err` leaves the parts as they were. This profile's own.
pub fn push_removal(parts: &mut Vec<Part>, key: u64) -> Result<(), NoMemory>
    ensures { PutsBehind parts.old.items parts.new.items (take_all (key ∷ [])) result }
{
    parts.push(Part { key, value: None })?;
    Ok(())
}
