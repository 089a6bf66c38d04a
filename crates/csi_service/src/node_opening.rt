//! A node, made of the parts of a store.
use crate::node_service::NodeService;
use crate::opening::{Opens, head_part, renewal};
use csi_records::{RecordStop, Stored, node_head_value, record_of_node};
use csi_stores::Part;
use csi_types::NodeId;
use std::alloc::Global;

/// Which node is asked for, and the session of its joining.
#[derive(Drop)]
pub(crate) struct Joining {
    pub(crate) id: NodeId,
    pub(crate) session: u64,
}

/// A node, or why none is made of parts that are its record.
#[derive(Drop)]
pub(crate) enum NodeMade {
    /// It heard of the session of its joining, or of a later one.
    Opened(NodeService),
    /// The record is of an earlier session.
    EarlierSession,
}

impl Opens for NodeMade {
    ghost use Rattle.csi_service.specs.Private.NodeOpening.{node_opening, IsNewlyMade};

    type Asked = Joining;

    ghost opening = { λ joining. node_opening joining.id joining.session };

    ghost is_new = { λ joining. IsNewlyMade joining.id joining.session };

    fn made(
        alloc: Global,
        joining: Joining,
        parts: &[Part],
    ) -> Result<(NodeMade, Vec<Part>), RecordStop> {
        let Joining { id, session } = joining;
        if parts.is_empty() {
            let head = head_part(alloc, node_head_value(alloc, &id, session)?)?;
            let service = NodeService::new(alloc, id, session)?;
            return Ok((NodeMade::Opened(service), head));
        }
        match record_of_node(alloc, &id, parts) {
            Ok(Stored { kept, version }) => {
                if kept.session() < session {
                    return Ok((NodeMade::EarlierSession, Vec::new(alloc)));
                }
                let changed = renewal(alloc, version, parts, &kept)?;
                let service = NodeService::of_record(alloc, id, kept)?;
                Ok((NodeMade::Opened(service), changed))
            }
            Err(stop) => Err(stop),
        }
    }
}
