//! The parts of a node's record: its head, read, and its rows.
ghost use Rattle.std.specs.Prelude.{◌≡◌, ℕ, List, Some, None, IfOk, IsErrOf};
ghost use Rattle.csi_types.specs.Public.Text.{IsNodeId};
ghost use Rattle.csi_frames.specs.Public.Bytes.{AreBytes};
ghost use Rattle.csi_stores.specs.Public.Part.{stored_in};
ghost use Rattle.csi_records.specs.Public.Spelling.{node_head};
ghost use Rattle.csi_records.specs.Public.Records.{Head, IsHead};
ghost use Rattle.csi_records.specs.Private.Reading.{read_node_head, read_whole};

use crate::fault::ValueStop;
use crate::fields::{session, tag};
use crate::items::list;
use crate::part_value::value_of;
use crate::plugin_rows::Row;
use crate::row_values::answered_value;
use crate::values::{KeptCall, kept, staged};
use crate::version::RecordVersion;
use csi_frames::Fields;
use csi_node::NodeRow;
use csi_stores::{Part, push_value};
use csi_types::{NoMemory, NodeId, VolumeId};
use std::alloc::Global;

impl Row for NodeRow {
    ghost use Rattle.csi_node.specs.Model.OneRow.{NodeRowShown, node_row_shown};
    ghost use Rattle.csi_records.specs.Private.Reading.{read_answered};
    ghost use Rattle.csi_records.specs.Public.Records.{IsAnsweredRow};
    ghost use Rattle.csi_records.specs.Public.Spelling.{answered_part};
    ghost use Rattle.csi_records.specs.Public.Writing.{ArePublishedFew};

    ghost Shown = { NodeRowShown };

    ghost shown = { node_row_shown };

    ghost row_in = { read_answered };

    ghost row_part = { answered_part };

    ghost is_row = { IsAnsweredRow };

    ghost is_small = { ArePublishedFew };

    #[tactic(auto, unfolding(crate::specs::Private::Reading::read_answered))]
    fn read(
        fields: &mut Fields<'_>,
        alloc: Global,
        version: RecordVersion,
        id: VolumeId,
    ) -> Result<NodeRow, ValueStop> {
        let staged = staged(fields, alloc, version)?;
        let targets = list(fields, alloc, version, 16)?;
        let KeptCall {
            number,
            kind,
            reply,
        } = kept(fields, alloc)?;
        Ok(NodeRow {
            id,
            staged,
            targets,
            last: number,
            kind,
            reply,
        })
    }

    fn push(&self, alloc: Global, parts: &mut Vec<Part>) -> Result<(), NoMemory> {
        let value = answered_value(alloc, self)?;
        push_value(parts, self.id.number(), value)
    }

    #[tactic(auto, using(crate::proofs::PartReaders::answered_read))]
    fn reading_law() {}
}

/// What the head of a node's record tells: the node's id, and the greatest session that came, where its version has it.
#[derive(Drop)]
pub(crate) struct NodeHead {
    pub id: NodeId,
    pub session: Option<u64>,
}

// What the head tells of which this is the whole value, in this version.
#[tactic(auto, unfolding(crate::specs::Private::Reading::read_whole, crate::specs::Private::Reading::read_node_head, crate::specs::Private::Reading::read_text))]
fn head_in(alloc: Global, version: RecordVersion, value: &[u8]) -> Result<NodeHead, ValueStop>
    ensures read { IfOk result (λ head. read_whole version (read_node_head version) value.now ≡ Some (record { own = head.id; session = head.session })) }
    ensures bad { IsErrOf result ValueStop.Bad → read_whole version (read_node_head version) value.now ≡ None }
    ensures bytes { AreBytes value.now }
{
    let mut fields = Fields { bytes: value };
    tag(&mut fields, version.number())?;
    tag(&mut fields, 1)?;
    let id = NodeId::try_new(alloc, fields.text(1, NodeId::MAX_LEN)?)?;
    let session = session(&mut fields, version)?;
    if fields.bytes.is_empty() {
        Ok(NodeHead { id, session })
    } else {
        Err(ValueStop::Bad)
    }
}

/// What this part, a head of this version, tells.
pub(crate) fn head_of(
    alloc: Global,
    version: RecordVersion,
    part: &Part,
) -> Result<NodeHead, ValueStop>
    ensures head { IfOk result (λ head. IsHead IsNodeId version (record { own = head.id; session = head.session })
        × (node_head version head.id head.session ≡ stored_in part.now)) }
    ensures bad { IsErrOf result ValueStop.Bad → (head : Head (List ℕ)) → IsHead IsNodeId version head →
        node_head version head.own head.session ≡ stored_in part.now → ⊥ }
{
    if part.key != 0 {
        return Err(ValueStop::Bad);
    }
    head_in(alloc, version, value_of(part))
}
