//! Parts in memory, by rising key.
ghost use Rattle.std.specs.Prelude.{◌≡◌, ◌++◌, ◌∷◌, [], map, OnOk, IfOk, nat_le, position, Some};
ghost use Rattle.csi_stores.specs.Public.Content.{put_in, take_out, changed_to, all_changed, size_of};
ghost use Rattle.csi_stores.specs.Public.Part.{part_change};
ghost use Rattle.csi_stores.specs.Public.Memory.{stored, all_stored};

use crate::part::Part;
use csi_types::NoMemory;
use std::alloc::Global;

/// A part that is there.
#[derive(Debug, Drop)]
pub(crate) struct Entry {
    pub key: u64,
    pub value: Vec<u8>,
}

// Puts a copy of an entry at the end.
fn push_copy(alloc: Global, copies: &mut Vec<Entry>, entry: &Entry) -> Result<(), NoMemory>
    ensures { OnOk result (all_stored copies.new.items ≡ all_stored copies.old.items ++ stored entry.now ∷ []) }
{
    let value = Vec::from_slice(alloc, &entry.value)?;
    copies.push(Entry {
        key: entry.key,
        value,
    })?;
    Ok(())
}

/// Copies of the entries, in their order.
pub(crate) fn copies_of(alloc: Global, entries: &[Entry]) -> Result<Vec<Entry>, NoMemory>
    ensures { IfOk result (λ copies. all_stored copies.items ≡ all_stored entries.now) }
{
    let mut copies = Vec::with_capacity(alloc, entries.len())?;
    for entry in entries {
        push_copy(alloc, &mut copies, entry)?;
    }
    Ok(copies)
}

// Where the first key is that isn't below this one.
fn place_of(entries: &[Entry], key: u64) -> Option<usize>
    ensures { result ≡ position (λ entry. nat_le key entry.key) entries.now }
{
    entries.iter().position(|entry| key <= entry.key)
}

// Puts a part in at this place, where the first key is that isn't below its own.
fn put_at(entries: &mut Vec<Entry>, place: usize, key: u64, value: Vec<u8>) -> Result<(), NoMemory>
    requires { position (λ entry. nat_le key entry.key) entries.old.items ≡ Some place }
    ensures { OnOk result (all_stored entries.new.items ≡ put_in (record { key = key; value = value.items }) (all_stored entries.old.items)) }
{
    if entries[place].key == key {
        entries[place] = Entry { key, value };
    } else {
        entries.insert(place, Entry { key, value })?;
    }
    Ok(())
}

// Puts a part in.
fn put(entries: &mut Vec<Entry>, key: u64, value: Vec<u8>) -> Result<(), NoMemory>
    ensures { OnOk result (all_stored entries.new.items ≡ put_in (record { key = key; value = value.items }) (all_stored entries.old.items)) }
{
    match place_of(entries, key) {
        Some(place) => put_at(entries, place, key, value),
        None => {
            entries.push(Entry { key, value })?;
            Ok(())
        }
    }
}

// Takes the part of this key out.
fn take(entries: &mut Vec<Entry>, key: u64)
    ensures { all_stored entries.new.items ≡ take_out key (all_stored entries.old.items) }
{
    entries.retain(|entry| entry.key != key);
}

// Makes one change.
fn change(alloc: Global, entries: &mut Vec<Entry>, part: &Part) -> Result<(), NoMemory>
    ensures { OnOk result (all_stored entries.new.items ≡ changed_to (part_change part.now).key (part_change part.now).value (all_stored entries.old.items)) }
{
    match &part.value {
        Some(value) => put(entries, part.key, Vec::from_slice(alloc, value)?),
        None => {
            take(entries, part.key);
            Ok(())
        }
    }
}

/// Makes the changes, one after another.
pub(crate) fn change_all(
    alloc: Global,
    entries: &mut Vec<Entry>,
    parts: &[Part],
) -> Result<(), NoMemory>
    ensures { OnOk result (all_stored entries.new.items ≡ all_changed (map part_change parts.now) (all_stored entries.old.items)) }
{
    for part in parts {
        change(alloc, entries, part)?;
    }
    Ok(())
}

/// Whether the parts take at most so many bytes.
pub(crate) fn fit(entries: &[Entry], limit: u64) -> bool
    ensures { result ≡ nat_le (size_of (all_stored entries.now)) limit }
{
    let mut left = limit;
    for entry in entries {
        let size = entry.value.as_slice().len() as u64;
        if left < 8 || left - 8 < size {
            return false;
        }
        left -= 8 + size;
    }
    true
}
