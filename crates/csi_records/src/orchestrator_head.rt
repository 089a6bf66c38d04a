//! The head of an orchestrator's record, read.
ghost use Rattle.std.specs.Prelude.{◌≡◌, Some, None, IfOk, IsErrOf};
ghost use Rattle.csi_frames.specs.Public.Bytes.{AreBytes};
ghost use Rattle.csi_stores.specs.Public.Part.{stored_in};
ghost use Rattle.csi_records.specs.Public.OrchestratorSpelling.{orchestrator_head};
ghost use Rattle.csi_records.specs.Public.OrchestratorRows.{OrchestratorHeadShown, IsOrchestratorHead};
ghost use Rattle.csi_records.specs.Private.Reading.{read_whole};
ghost use Rattle.csi_records.specs.Private.OrchestratorReading.{read_orchestrator_head};

use crate::fault::ValueStop;
use crate::fields::tag;
use crate::items::{Item, list};
use crate::part_value::value_of;
use crate::version::RecordVersion;
use csi_frames::{Fields, append_text};
use csi_stores::Part;
use csi_types::{NoMemory, NodeId};
use std::alloc::Global;

impl Item for NodeId {
    ghost use Rattle.csi_types.specs.Public.Text.{IsNodeId};
    ghost use Rattle.csi_frames.specs.Public.Spelling.{text};
    ghost use Rattle.csi_records.specs.Private.Reading.{read_text};

    ghost item_in = { λ version. read_text 1 255 };

    ghost item_bytes = { text };

    ghost is_item = { λ version. IsNodeId };

    #[tactic(auto, unfolding(crate::specs::Private::Reading::read_text))]
    fn read(
        fields: &mut Fields<'_>,
        alloc: Global,
        _version: RecordVersion,
    ) -> Result<NodeId, ValueStop> {
        let node = NodeId::try_new(alloc, fields.text(1, NodeId::MAX_LEN)?)?;
        Ok(node)
    }

    fn put(&self, out: &mut Vec<u8>) -> Result<(), NoMemory> {
        append_text(out, self)
    }
}

/// What the head of an orchestrator's record tells: the session and the nodes.
#[derive(Drop)]
pub(crate) struct OrchestratorHead {
    pub session: u64,
    pub nodes: Vec<NodeId>,
}

// What the head tells of which this is the whole value, in this version.
#[tactic(auto, unfolding(crate::specs::Private::Reading::read_whole, crate::specs::Private::OrchestratorReading::read_orchestrator_head, crate::specs::Private::Reading::read_word))]
fn head_in(
    alloc: Global,
    version: RecordVersion,
    value: &[u8],
) -> Result<OrchestratorHead, ValueStop>
    ensures read { IfOk result (λ head. read_whole version (read_orchestrator_head version) value.now
        ≡ Some (record { session = head.session; nodes = head.nodes.items })) }
    ensures bad { IsErrOf result ValueStop.Bad → read_whole version (read_orchestrator_head version) value.now ≡ None }
    ensures bytes { AreBytes value.now }
{
    let mut fields = Fields { bytes: value };
    tag(&mut fields, version.number())?;
    if !version.has_session() {
        return Err(ValueStop::Bad);
    }
    tag(&mut fields, 2)?;
    let session = fields.word()?;
    let nodes = list(&mut fields, alloc, version, 64)?;
    if fields.bytes.is_empty() {
        Ok(OrchestratorHead { session, nodes })
    } else {
        Err(ValueStop::Bad)
    }
}

/// What this part, a head of this version, tells.
pub(crate) fn orchestrator_head_of(
    alloc: Global,
    version: RecordVersion,
    part: &Part,
) -> Result<OrchestratorHead, ValueStop>
    ensures head { IfOk result (λ head. IsOrchestratorHead version (record { session = head.session; nodes = head.nodes.items })
        × (orchestrator_head version head.session head.nodes.items ≡ stored_in part.now)) }
    ensures bad { IsErrOf result ValueStop.Bad → (head : OrchestratorHeadShown) → IsOrchestratorHead version head →
        orchestrator_head version head.session head.nodes ≡ stored_in part.now → ⊥ }
{
    if part.key != 0 {
        return Err(ValueStop::Bad);
    }
    head_in(alloc, version, value_of(part))
}
