//! A node's record as a value.
ghost use Rattle.std.specs.Prelude.{◌≡◌, Some, None, filter, IfOk, IfErr, IsOk, OnOk};
ghost use Rattle.csi_node.specs.Public.WithoutSession.{stays_in};

use crate::judging::{first_refused, latest_session};
use crate::row::NodeRow;
use crate::table::NodeTable;
use csi_fence::{RecordFault, Rows};
use csi_types::NodeId;
use std::alloc::Global;
use std::marker::Model;

/// A node's record: its id, the greatest session that it heard of, at its joining or by a call, and a row for each volume for which it
/// answered a call and that it hasn't forgotten, at most 4,096, by rising id.
/// A volume that has targets is staged; its targets are paths from the root, at most 16, and each is there once;
/// in a mode that allows one target there is at most one; the kept reply is one to a node's call; and that call is of no later
/// session than that, and of that one where the volume isn't staged. A contract sees it as the id's text,
/// the session and the rows.
pub struct NodeRecord {
    pub(crate) id: NodeId,
    pub(crate) session: u64,
    pub(crate) rows: Vec<NodeRow>,
}

impl Drop for NodeRecord {
    fn drop(self) {
        let NodeRecord {
            id: _,
            session: _,
            rows: _,
        } = self;
    }
}

impl Model for NodeRecord {
    ghost use Rattle.csi_node.specs.Model.Record.{NodeParts, parts};
    ghost use Rattle.csi_node.specs.Public.Record.{AreSoundRows, IsCurrent};

    ghost Value = { NodeParts };

    ghost view = { λ record_. record { id = record_.id; session = record_.session; rows = record_.rows.items } };

    ghost invariant = { λ record_. AreSoundRows (parts record_.rows.items) × IsCurrent record_.session (parts record_.rows.items) };
}

// Forgets the rows of volumes that aren't staged, but for those whose last call is of this session. It takes no memory.
fn forget(rows: &mut Vec<NodeRow>, session: u64)
    ensures { rows.new.items ≡ filter (stays_in session) rows.old.items }
{
    rows.retain(|row| row.staged.is_some() || row.last.session == session);
}

impl NodeRecord {
    ghost use Rattle.csi_node.specs.Public.Judging.{IsRecordRefusal};
    ghost use Rattle.csi_node.specs.Model.Record.{parts};
    ghost use Rattle.csi_node.specs.Public.Record.{AreSoundRows, IsCurrent};
    ghost use Rattle.csi_node.specs.Public.WithoutSession.{without_session as kept_without_session};
    ghost use Rattle.csi_node.specs.Public.Plan.{AreNodeRows};

    /// The record of the node of this id that has these rows, by rising id, and of which this is the greatest session that it heard
    /// of (this profile's own). It is refused with `BadRow` at the first row that no record has there: its id isn't above the
    /// one before it; it has targets and isn't staged, more than 16, one twice, one that doesn't begin with `/`, or two in a mode
    /// that allows one; its kept reply isn't one of a node; its last call is of a later session, or of an earlier one where it isn't
    /// staged; or 4,096 rows stand before it. It takes no memory, and so doesn't answer `NoMemory`.
    pub fn try_new(id: NodeId, rows: Vec<NodeRow>, session: u64) -> Result<NodeRecord, RecordFault>
        ensures value { IfOk result (λ made. made ≡ record { id = id; session = session; rows = rows.items }) }
        ensures rules { OnOk result (AreSoundRows (parts rows.items)) }
        ensures current { OnOk result (IsCurrent session (parts rows.items)) }
        ensures refused { IfErr result (IsRecordRefusal (Some session) rows.items) }
        ensures accepted { AreSoundRows (parts rows.items) → IsCurrent session (parts rows.items) → IsOk result }
    {
        match first_refused(Some(session), rows.as_slice()) {
            None => Ok(NodeRecord { id, session, rows }),
            Some(place) => Err(RecordFault::BadRow(place)),
        }
    }

    /// The record of the node of this id that has these rows, by rising id, of a record that kept no session: the greatest
    /// session of a row's last call is taken for it, 0 where there is no row, and rows of volumes that aren't staged are left out
    /// where theirs is an earlier one (this profile's own). It is refused with `BadRow` as by `try_new`, but for sessions. It takes
    /// no memory, and so doesn't answer `NoMemory`.
    pub fn without_session(id: NodeId, rows: Vec<NodeRow>) -> Result<NodeRecord, RecordFault>
        ensures value { IfOk result (λ made. made ≡ kept_without_session id rows.items) }
        ensures rules { OnOk result (AreSoundRows (parts rows.items)) }
        ensures current { IfOk result (λ made. IsCurrent made.session (parts made.rows)) }
        ensures refused { IfErr result (IsRecordRefusal None rows.items) }
        ensures accepted { AreSoundRows (parts rows.items) → IsOk result }
    {
        match first_refused(None, rows.as_slice()) {
            None => {
                let session = latest_session(rows.as_slice());
                let mut rows = rows;
                forget(&mut rows, session);
                Ok(NodeRecord { id, session, rows })
            }
            Some(place) => Err(RecordFault::BadRow(place)),
        }
    }

    /// The greatest session that the node heard of, at its joining or by a call, 0 before any. It takes no memory.
    pub fn session(&self) -> u64
        ensures { result ≡ self.now.session }
    {
        self.session
    }

    /// The node's id.
    pub fn id(&self) -> &NodeId
        ensures { result.now ≡ self.now.id }
    {
        &self.id
    }

    /// The rows, by rising id.
    pub fn rows(&self) -> &[NodeRow]
        ensures value { result.now ≡ self.now.rows }
        ensures rules { AreSoundRows (parts self.now.rows) }
        ensures current { IsCurrent self.now.session (parts self.now.rows) }
    {
        self.rows.as_slice()
    }
    /// Its rows, as a node keeps them. It takes no memory.
    pub(crate) fn into_rows(self, alloc: Global) -> Rows<NodeTable>
        ensures id { result.table.id ≡ self.id }
        ensures session { result.session ≡ self.session }
        ensures rows { result.rows.items ≡ self.rows }
        ensures kept { AreNodeRows result.session result.rows.items result.empty }
    {
        let NodeRecord { id, session, rows } = self;
        Rows::new(alloc, session, rows, NodeTable { id })
    }
}
