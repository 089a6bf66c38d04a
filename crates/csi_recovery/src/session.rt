//! The session of a recovery.
ghost use Rattle.std.specs.Prelude.{◌≡◌, ◌<◌, List, IfSome};
ghost use Rattle.csi_controller.specs.Model.State.{ControllerState};
ghost use Rattle.csi_recovery.specs.Public.Recovered.{GivenNode};
ghost use Rattle.csi_recovery.specs.Public.Judged.{IsKeptOf, AreGiven, IsLater};
ghost use Rattle.csi_recovery.specs.Public.Session.{recovery_session as session_above};
ghost use Rattle.csi_recovery.specs.Private.Walks.{latest_kept};

use csi_controller::ControllerRecord;
use csi_node::NodeRecord;

/// By how much a recovery's session is above all that were heard of: at each start the lost orchestrator may have begun one of which no
/// plugin heard (this profile's own).
pub const SESSIONS_ABOVE: u64 = 1_048_576;

// The greatest session of these, 0 where there is none.
fn latest_session(given: &[NodeRecord]) -> u64
    ensures { result ≡ latest_kept given.now }
{
    let mut session = 0;
    for kept in given {
        session = session.max(kept.session());
    }
    session
}

/// The session in which an orchestrator is recovered of these records: `SESSIONS_ABOVE` more than the greatest of theirs and of the one
/// that is known of the lost orchestrator (0 where none is). `None` where that isn't below 2^64 - 1: the numbers are spent. This profile's own.
/// It takes no memory.
pub fn recovery_session(
    known: u64,
    controller: &ControllerRecord,
    given: &[NodeRecord],
) -> Option<u64>
    ensures value { (state : ControllerState) (nodes : List GivenNode) → IsKeptOf controller.now state → AreGiven given.now nodes →
        result ≡ session_above known state nodes }
    ensures later { (state : ControllerState) (nodes : List GivenNode) → IsKeptOf controller.now state → AreGiven given.now nodes →
        IfSome result (λ session. IsLater session state nodes) }
    ensures above { IfSome result (λ session. known < session) }
{
    let heard = known.max(controller.session()).max(latest_session(given));
    if heard >= u64::MAX - SESSIONS_ABOVE {
        return None;
    }
    Some(heard + SESSIONS_ABOVE)
}
