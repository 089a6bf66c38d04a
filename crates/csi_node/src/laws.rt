//! The laws of the node's table, and of every node.
ghost use Rattle.csi_node.specs.Public.Joining.{NodeJoiningLaw};
ghost use Rattle.csi_node.specs.Public.Laws.{NodeTableLaw};
ghost use Rattle.csi_node.specs.Model.Record.{parts, Shows};
ghost use Rattle.csi_node.specs.Public.Record.{AreSoundRows, IsCurrent};
ghost use Rattle.csi_node.specs.Public.Safe.{NodeSafetyLaw, NodeSessionsLaw, IsPublishedRight};
ghost use Rattle.csi_node.specs.Model.State.{NodeState};
ghost use Rattle.csi_node.specs.Public.View.{NodeDeliveryLaw};

use crate::node::Node;

/// A law, and nothing that runs: in every state that frames lead to, and for every call that the table
/// answers there, a refusal changes nothing, a success brings about what the call asks, the same call again
/// in its session is met, and other volumes stay as they are (CSI's spec.md, "NodeStageVolume" to "NodeUnpublishVolume"). A
/// call of a later session than the greatest that came is judged where that session has begun: the rows of volumes that
/// aren't staged are forgotten.
pub fn table_law()
    ensures { NodeTableLaw }
{}

/// A law, and nothing that runs: in every state that frames lead to, whichever they are and whichever session the node joined with, what is
/// published is staged in the same capability, and a volume in a mode that allows one target is published at one at most
/// (CSI's spec.md, "Volume Lifecycle", and "NodePublishVolume" on several targets).
pub fn safety_law()
    ensures { NodeSafetyLaw }
{}

/// A law, and nothing that runs: in every state that frames lead to, each call that comes is carried out or
/// isn't. One that is carried out leaves its thing as it asks and its number spent, or is refused; other
/// things stay as they were. One that isn't changes nothing, and gets the reply that was kept for its number,
/// or that it is stale. What was spent stays so, also where a row is forgotten (CSI's spec.md, "Concurrency" and "Volume
/// Lifecycle"; numbers and sessions are this profile's own).
pub fn delivery_law()
    ensures { NodeDeliveryLaw }
{}

/// A law, and nothing that runs: in every state that frames lead to, whichever they are, each row of a volume that isn't
/// staged has its last call in the greatest session that came, and none has one in a later session; so there are no more rows
/// than staged volumes and volumes whose last call is of that session, however many calls came (this profile's own).
pub fn sessions_law()
    ensures { NodeSessionsLaw }
{}

/// A law, and nothing that runs: whatever frames came to a node that heard of a session when it joined, a call of an earlier one is stale
/// and changes nothing, also one of a volume that the node never heard of; and no frame takes the session back. So what was sent
/// to a lost node of this id does nothing at the one that joined in its place. This profile's own.
pub fn joining_law()
    ensures { NodeJoiningLaw }
{}

/// A law, and nothing that runs: in every state that a node shows, whatever it was asked and whichever record it
/// was made of, what is published is staged in the same capability, and a volume in a mode that allows one
/// target is published at one at most (CSI's spec.md, "Volume Lifecycle", and "NodePublishVolume" on several
/// targets).
pub fn publishing_law(node: &Node)
    ensures { (state : NodeState) → Shows node.now state → IsPublishedRight state }
{
    node.assert_rules();
}

/// A law, and nothing that runs: the rows of every node, whatever it was asked and whichever record it was made of, keep the rules
/// of a record: they stand by rising id, at most 4,096, and each keeps the rules of a row; none has its last call in a later
/// session than the greatest that came, and that of a volume that isn't staged is of that session. This profile's own.
pub fn record_law(node: &Node)
    ensures rules { AreSoundRows (parts node.now.rows) }
    ensures current { IsCurrent node.now.session (parts node.now.rows) }
{
    node.assert_rules();
}

/// A law, and nothing that runs: every node, whatever it was asked and whichever record it was made of, shows a state, so that
/// what the other contracts say of each state that a node shows is said of every node. This profile's own.
pub fn showing_law(node: &Node)
    ensures { (state : NodeState) × Shows node.now state }
{
    node.assert_rules();
}
