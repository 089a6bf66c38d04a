//! Laws of worlds. Each function proves a statement, and does nothing.
ghost use Rattle.csi_world.specs.Public.Audited.{AuditsTellSafety};
ghost use Rattle.csi_world.specs.Private.Laws.{ChoicesAreSteps, EmptyIsSafe, RunsAreSteps};
ghost use Rattle.csi_world.specs.Public.Laws.{RunsAreSafe, RunsSettle, SafetyLaw, TableLaws};

fn choices_are_steps()
    ensures { ChoicesAreSteps }
{}

fn empty_is_safe()
    ensures { EmptyIsSafe }
{}

/// The world of every run is one to which steps lead.
pub(crate) fn runs_are_steps()
    ensures { RunsAreSteps }
{
    csi_orchestrator::moves_law();
}

/// A law, and nothing that runs: after every beginning of every list of commands, deliveries, repeats, timeouts, restarts, joins and
/// losses of nodes the world is safe, as `safety_law` says it, whatever the configuration is first. What isn't delivered is lost, and
/// frames may come again and out of order. By the loss of a node the operator promises: the machine is off for good, and its store never
/// comes back; an emptied store is a lost node.
pub fn runs_law()
    ensures { RunsAreSafe }
{
    runs_are_steps();
    safety_law();
}

/// A law, and nothing that runs: after every list of events, one timeout and at most twelve deliveries of frames that are sent from
/// there on bring any volume to rest, so that nothing is wanted of it any more, if six numbers are left in the session, and the node
/// of its use or its stop is there, where the orchestrator's list has it. A use that was tried fewer than three times, and of which
/// no call is refused, came about then; any other is stopped. A stop came about: the volume isn't published at the target, and if
/// it may be published at no other target of the node, it isn't staged or attached there. What was to be deleted isn't there, and
/// what was to be made has an id, or its creation was refused. A schedule's event that settles the volume is these events. So no
/// lost frame, restart, refusal or lost node leaves a volume in a corner. This profile's own.
pub fn settling_law()
    ensures { RunsSettle }
{
    csi_controller::delivery_law();
    csi_node::delivery_law();
    csi_node::safety_law();
    csi_orchestrator::moves_law();
    csi_orchestrator::form_law();
}

/// A law, and nothing that runs: in every state of a controller or of a node that frames lead to, and for
/// every call that its table answers there, a refusal changes nothing, a success brings about what the call
/// asks, the same call again is met, and other volumes stay as they are. CSI's spec.md asks for it in each
/// call's section.
pub fn table_law()
    ensures { TableLaws }
{
    csi_controller::table_law();
    csi_node::table_law();
}

/// A law, and nothing that runs: in every world to which an orchestrator that keeps the guards and any network
/// lead, two holdings of one volume are at different nodes, neither of them in a mode for one node, and no two
/// write where one of their modes has a single writer; what is staged at a node is attached there, and what is
/// published is staged there, in the same capability; what is attached wasn't deleted; and what the
/// orchestrator's history tells as done or undone is so. It holds whichever guarded calls are sent, given up
/// and sent again, whichever frames are lost, late, repeated or out of order, and wherever sessions start anew, with
/// whichever list of nodes, names are forgotten, the controller has another configuration, nodes join and nodes are lost
/// (CSI's spec.md, "CreateVolume", `AccessMode`, and "Volume Lifecycle"; the guards are those of
/// `csi_orchestrator`).
pub fn safety_law()
    ensures { SafetyLaw }
{
    csi_controller::delivery_law();
    csi_node::delivery_law();
    csi_node::safety_law();
}

/// A law, and nothing that runs: where what an audit compares is what a world's history tells, it finds nothing exactly where the
/// world is safe (`safety_law` says what that is).
pub fn audit_law()
    ensures { AuditsTellSafety }
{}
