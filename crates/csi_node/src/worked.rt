//! Worked examples of the node's table and fence, and the law of a full node. Each function proves a statement,
//! and does nothing.
ghost use Rattle.csi_node.specs.Private.Worked.{OneTargetRow, TwoTargetsRow, ManyTargetsRow, LateStageRow, KeptRefusalRow, OtherNodeRow};
ghost use Rattle.csi_node.specs.Private.Worked.{ForgottenRows, FullNodeRefuses, FullNodeForgets, LateAtJoinedRow, EmptyIsShown, LawsTellPublish};

fn one_target()
    ensures { OneTargetRow }
{}

fn two_targets()
    ensures { TwoTargetsRow }
{}

fn many_targets()
    ensures { ManyTargetsRow }
{}

fn late_stage()
    ensures { LateStageRow }
{}

fn kept_refusal()
    ensures { KeptRefusalRow }
{}

fn other_node()
    ensures { OtherNodeRow }
{}

fn forgotten()
    ensures { ForgottenRows }
{}

fn full_node()
    ensures { FullNodeRefuses }
{}

fn full_node_forgets()
    ensures { FullNodeForgets }
{}

fn late_at_joined()
    ensures { LateAtJoinedRow }
{}

fn empty()
    ensures { EmptyIsShown }
{}

fn publish_by_the_laws()
    ensures { LawsTellPublish }
{}
