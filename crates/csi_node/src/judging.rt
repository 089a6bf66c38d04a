//! Which of the rows that a record is to be made of is the first that no record has there.
ghost use Rattle.std.specs.Prelude.{◌≡◌, MatchOption};
ghost use Rattle.csi_node.specs.Public.Judging.{KeepRules, IsFirstRefused};
ghost use Rattle.csi_node.specs.Private.Judging.{is_current as is_current_row, may_follow as is_fit_after};
ghost use Rattle.csi_node.specs.Public.WithoutSession.{latest_session as latest_of};
ghost use Rattle.csi_node.specs.Model.OneRow.{node_row_shown};
ghost use Rattle.csi_node.specs.Model.Record.{parts};

use crate::row::NodeRow;
use crate::sound_row::is_sound_row;
use csi_types::MAX_ROWS;

// Whether the row's last call is of a session that a record may have there, of which this is the greatest session, if one is told.
fn is_current(session: Option<u64>, row: &NodeRow) -> bool
    ensures { result ≡ is_current_row session (node_row_shown row.now) }
{
    match session {
        None => true,
        Some(session) => {
            row.last.session <= session && (row.staged.is_some() || row.last.session == session)
        }
    }
}

// Whether the row may follow so many others, the last of which has this id.
fn may_follow(session: Option<u64>, count: usize, last: u64, row: &NodeRow) -> bool
    ensures { result ≡ is_fit_after session count last (node_row_shown row.now) }
{
    count < MAX_ROWS && last < row.id.number() && is_sound_row(row) && is_current(session, row)
}

/// The place, counted from 1, of the first row that no record has there, of which this is the greatest session, if one is told;
/// `None` where all these rows are a record's.
pub(crate) fn first_refused(session: Option<u64>, rows: &[NodeRow]) -> Option<u64>
    ensures { MatchOption result (KeepRules session (parts rows.now)) (IsFirstRefused session rows.now) }
{
    let mut last = 0;
    for (index, row) in rows.iter().enumerate() {
        let id = row.id.number();
        let place = index as u64 + 1;
        if !may_follow(session, index, last, row) {
            return Some(place);
        }
        last = id;
    }
    None
}

/// The greatest session of a row's last call, 0 where there is no row.
pub(crate) fn latest_session(rows: &[NodeRow]) -> u64
    ensures { result ≡ latest_of rows.now }
{
    let mut latest = 0;
    for row in rows {
        latest = row.last.session.max(latest);
    }
    latest
}
