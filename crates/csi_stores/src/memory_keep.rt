//! A store in memory.
ghost use Rattle.std.specs.Prelude.{◌≡◌, ◌≤◌, ◌<◌, ◌⊎◌, [], map, IfOk, IfErr, OnOk, OnErr, IsOk};
ghost use Rattle.csi_stores.specs.Public.Part.{put_all, part_change};
ghost use Rattle.csi_stores.specs.Public.Content.{all_changed, size_of};
ghost use Rattle.csi_stores.specs.Public.Memory.{Memory, all_stored, memory_store};
ghost use Rattle.csi_stores.specs.Public.Stores.{IsSettled};

use crate::entries::{Entry, change_all, copies_of, fit};
use crate::keep::{Keep, KeepFault};
use crate::part::Part;
use crate::parts::push_value;
use csi_types::NoMemory;
use std::alloc::Global;
use std::marker::Model;

/// A store in memory with a limit: 8 bytes for each part and those of its value fit in it. It never fails as a device does.
/// A contract sees its limit and its parts. This profile's own.
#[derive(Drop)]
pub struct MemoryKeep {
    alloc: Global,
    limit: u64,
    entries: Vec<Entry>,
}

impl Model for MemoryKeep {
    ghost use Rattle.csi_stores.specs.Public.Memory.{Memory, IsMemory, all_stored};

    ghost Value = { Memory };

    ghost view = { λ keep. record { limit = keep.limit; parts = all_stored keep.entries.items } };

    ghost invariant = { λ keep. IsMemory (record { limit = keep.limit; parts = all_stored keep.entries.items }) };
}

// The parts that put these entries in.
fn parts_of(alloc: Global, entries: &[Entry]) -> Result<Vec<Part>, NoMemory>
    ensures { IfOk result (λ parts. map part_change parts.items ≡ put_all (all_stored entries.now)) }
{
    let mut parts = Vec::with_capacity(alloc, entries.len())?;
    for entry in entries {
        let value = Vec::from_slice(alloc, &entry.value)?;
        push_value(&mut parts, entry.key, value)?;
    }
    Ok(parts)
}

impl MemoryKeep {
    /// A store of this limit, in bytes, without a part. It takes no memory.
    pub fn new(alloc: Global, limit: u64) -> MemoryKeep
        ensures limit { result.limit ≡ limit }
        ensures empty { result.parts ≡ [] }
    {
        MemoryKeep {
            alloc,
            limit,
            entries: Vec::new(alloc),
        }
    }

    /// A law, and nothing that runs: what a store in memory has is what opening it again finds, and nothing else is.
    pub fn settled_law()
        ensures { (memory : Memory) → IsSettled (memory_store memory) }
    {}
}

impl Keep for MemoryKeep {
    ghost use Rattle.csi_stores.specs.Public.Memory.{memory_store};

    ghost store = { memory_store };

    fn load(&mut self) -> Result<Vec<Part>, KeepFault>
        ensures parts { IfOk result (λ parts. map part_change parts.items ≡ put_all self.old.parts) }
        ensures same { self.new ≡ self.old }
        ensures cause { IfErr result (λ fault. fault ≡ KeepFault.NoMemory) }
    {
        Ok(parts_of(self.alloc, &self.entries)?)
    }

    fn commit(&mut self, parts: &[Part]) -> Result<(), KeepFault>
        ensures done { OnOk result (self.new.parts ≡ all_changed (map part_change parts.now) self.old.parts) }
        ensures fits { OnOk result (size_of (all_changed (map part_change parts.now) self.old.parts) ≤ self.old.limit) }
        ensures limit { self.new.limit ≡ self.old.limit }
        ensures refused { OnErr result (self.new ≡ self.old) }
        ensures cause { IfErr result (λ fault. (fault ≡ KeepFault.NoMemory)
            ⊎ ((fault ≡ KeepFault.Full) × (self.old.limit < size_of (all_changed (map part_change parts.now) self.old.parts)))) }
        ensures nothing { parts.now ≡ [] → IsOk result }
    {
        let limit = self.limit;
        if parts.is_empty() {
            return Ok(());
        }
        let mut entries = copies_of(self.alloc, &self.entries)?;
        change_all(self.alloc, &mut entries, parts)?;
        if !fit(&entries, limit) {
            return Err(KeepFault::Full);
        }
        self.entries = entries;
        Ok(())
    }

    fn faults(&self) -> u64
        ensures { result ≡ 0 }
    {
        0
    }
}
