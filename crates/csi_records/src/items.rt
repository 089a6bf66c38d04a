//! The items of lists: capabilities, holdings and targets. Each is read from bytes and written as bytes, and so is a list of them.
ghost use Rattle.std.specs.Prelude.{◌≡◌, ◌≤◌, ◌++◌, List, ℕ, Some, None, IfOk, IsErrOf, OnOk, length};
ghost use Rattle.std.specs.List.{AllByRecursion};
ghost use Rattle.csi_records.specs.declared.version.RecordVersion.{RecordVersion};
ghost use Rattle.csi_records.specs.Private.Reading.{Reader, read_counted};
ghost use Rattle.csi_records.specs.Public.Spelling.{list_spelling, present};
ghost use Rattle.csi_records.specs.Private.Writes.{Writes};

use crate::fault::ValueStop;
use crate::version::RecordVersion;
use csi_controller::NodeHolding;
use csi_frames::{
    FaultKind, Fields, append_byte, append_capability, append_flag, append_text, capability_at,
};
use csi_node::NodeTarget;
use csi_types::{Capability, NoMemory, NodeId, Target};
use std::alloc::Global;

/// What a row has a list of. It is read in any version, and written in the present one.
pub(crate) trait Item: Drop {
    /// How one is read.
    ghost item_in: { RecordVersion → Reader Self };

    /// What spells one.
    ghost item_bytes: { Self → List ℕ };

    /// One is within its limits.
    ghost is_item: { RecordVersion → Self → Type 0 };

    fn read(
        fields: &mut Fields<'_>,
        alloc: Global,
        version: RecordVersion,
    ) -> Result<Self, ValueStop>
        ensures read { IfOk result (λ item. item_in version fields.old.bytes.now ≡ Some (item, fields.new.bytes.now)) }
        ensures bad { IsErrOf result ValueStop.Bad → item_in version fields.old.bytes.now ≡ None };

    fn put(&self, out: &mut Vec<u8>) -> Result<(), NoMemory>
        ensures { Writes out.old.items out.new.items (item_bytes self.now) (is_item present self.now) result };
}

impl Item for Capability {
    ghost use Rattle.csi_frames.specs.Public.Spelling.{capability};
    ghost use Rattle.csi_records.specs.Private.Reading.{read_capability};
    ghost use Rattle.csi_records.specs.Public.Records.{IsCapabilityIn};

    ghost item_in = { read_capability };

    ghost item_bytes = { capability };

    ghost is_item = { IsCapabilityIn };

    #[tactic(auto, unfolding(crate::specs::Private::Reading::read_capability))]
    fn read(
        fields: &mut Fields<'_>,
        alloc: Global,
        version: RecordVersion,
    ) -> Result<Capability, ValueStop> {
        let lent = capability_at(fields, version.modes())?;
        Ok(lent.to_capability(alloc)?)
    }

    fn put(&self, out: &mut Vec<u8>) -> Result<(), NoMemory> {
        append_capability(out, self)
    }
}

impl Item for NodeHolding {
    ghost use Rattle.csi_records.specs.Private.Reading.{read_holding};
    ghost use Rattle.csi_records.specs.Public.Records.{IsHolding};
    ghost use Rattle.csi_records.specs.Public.Spelling.{holding_bytes};

    ghost item_in = { read_holding };

    ghost item_bytes = { holding_bytes };

    ghost is_item = { IsHolding };

    #[tactic(auto, unfolding(crate::specs::Private::Reading::read_holding, crate::specs::Private::Reading::read_text, crate::specs::Private::Reading::read_flag))]
    fn read(
        fields: &mut Fields<'_>,
        alloc: Global,
        version: RecordVersion,
    ) -> Result<NodeHolding, ValueStop> {
        let node = NodeId::try_new(alloc, fields.text(1, NodeId::MAX_LEN)?)?;
        let capability = Capability::read(fields, alloc, version)?;
        let readonly = fields.flag()?;
        Ok(NodeHolding {
            node,
            capability,
            readonly,
        })
    }

    fn put(&self, out: &mut Vec<u8>) -> Result<(), NoMemory> {
        append_text(out, &self.node)?;
        self.capability.put(out)?;
        append_flag(out, self.readonly)
    }
}

impl Item for NodeTarget {
    ghost use Rattle.csi_records.specs.Private.Reading.{read_target};
    ghost use Rattle.csi_records.specs.Public.Records.{IsTargetRow};
    ghost use Rattle.csi_records.specs.Public.Spelling.{target_bytes};

    ghost item_in = { λ version. read_target };

    ghost item_bytes = { target_bytes };

    ghost is_item = { λ version. IsTargetRow };

    #[tactic(auto, unfolding(crate::specs::Private::Reading::read_target, crate::specs::Private::Reading::read_text, crate::specs::Private::Reading::read_flag))]
    fn read(
        fields: &mut Fields<'_>,
        alloc: Global,
        _version: RecordVersion,
    ) -> Result<NodeTarget, ValueStop> {
        let target = Target::try_new(alloc, fields.text(1, Target::MAX_LEN)?)?;
        let readonly = fields.flag()?;
        Ok(NodeTarget { target, readonly })
    }

    fn put(&self, out: &mut Vec<u8>) -> Result<(), NoMemory> {
        append_text(out, &self.target)?;
        append_flag(out, self.readonly)
    }
}

/// A count of at most `most`, and as many items.
#[tactic(auto, unfolding(crate::specs::Private::Reading::read_counted, crate::specs::Private::Reading::read_count))]
pub(crate) fn list<T: Item>(
    fields: &mut Fields<'_>,
    alloc: Global,
    version: RecordVersion,
    most: u8,
) -> Result<Vec<T>, ValueStop>
    ensures read { IfOk result (λ list. read_counted most (T.item_in version) fields.old.bytes.now ≡ Some (list.items, fields.new.bytes.now)) }
    ensures within { IfOk result (λ list. length list.items ≤ most) }
    ensures bad { IsErrOf result ValueStop.Bad → read_counted most (T.item_in version) fields.old.bytes.now ≡ None }
{
    let count = fields.byte(most, FaultKind::BadCount)?;
    let mut list = Vec::with_capacity(alloc, count as usize)?;
    for _ in 0..count {
        let one = T::read(fields, alloc, version)?;
        list.push(one)?;
    }
    Ok(list)
}

/// The count of the items, at most 255, and each of them.
pub(crate) fn put_list<T: Item>(out: &mut Vec<u8>, from: &[T]) -> Result<(), NoMemory>
    requires { length from.now ≤ 255 }
    ensures { Writes out.old.items out.new.items (list_spelling T.item_bytes from.now) (AllByRecursion (T.is_item present) from.now) result }
{
    append_byte(out, from.len() as u8)?;
    for one in from {
        one.put(out)?;
    }
    Ok(())
}
