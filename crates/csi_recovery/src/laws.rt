//! Laws of recoveries, and of what no orchestrator is told. Each function proves a statement, and does nothing.
ghost use Rattle.csi_recovery.specs.Public.Laws.{RecoveryLaw};
ghost use Rattle.csi_recovery.specs.Public.Stale.{StaleLaw};

/// A law, and nothing that runs: an orchestrator whose store is lost is made of what its plugins keep (`recovered`), or a
/// controller whose store is lost of what its orchestrator keeps (`IsRebuilt`), and whatever comes then, every world is safe, as
/// `safety_law` of `csi_world` says it, though each frame that was ever sent may come still, at any time and any number of times. It is so after every
/// run, however many recoveries of either kind follow one another, and wherever one was cut off: where the sessions of some of the plugins
/// were raised, and nothing else was done. For an orchestrator's store the operator promises three things. The session is later
/// than each one that the lost orchestrator began. A node whose store isn't given is off for good, and its store never comes back, as
/// at the loss of a node. And the lost orchestrator and its store never come back: from then on all calls are the new one's. Where stores
/// disagree, or the list of nodes leaves out one with something staged, nothing is recovered, and nothing said (`MayRecover`). What is
/// made has a history, as each orchestrator has that was opened from a record, so that what contracts say of one is said of it. For a
/// controller's store (`MayReplace`) the operator promises two: its next id isn't below the lost one's, which gave each smaller id perhaps; and
/// the lost controller and its store never come back. Its session is later than the orchestrator's last, which next begins one that is no
/// earlier; and the record is that of its last parts (`IsRecordOf`). This profile's own.
pub fn recovery_law()
    ensures { RecoveryLaw }
{
    csi_controller::delivery_law();
    csi_node::delivery_law();
    csi_node::safety_law();
}

/// A law, and nothing that runs: in every world to which an orchestrator that keeps the guards and any network lead (`safety_law` of `csi_world` says
/// what may happen), no frame that was ever sent says of an open call that it was stale: for the volume of an open call a plugin answered no later one,
/// and it heard of no later session. So where an orchestrator is told so, another one numbered its calls later: its store is an older copy.
/// This profile's own.
pub fn stale_law()
    ensures { StaleLaw }
{
    csi_controller::delivery_law();
    csi_node::delivery_law();
    csi_node::safety_law();
}
