//! Worked examples of the controller's table and fence. The function proves them, and does nothing.
ghost use Rattle.csi_controller.specs.Private.Worked.{OneNodeRow, BothModesRow, SingleWriterRow, SlotsRow, NameRow, FenceRow, SessionRow};
ghost use Rattle.csi_controller.specs.Private.Worked.{EmptyIsShown, LawsTellPublish};

fn examples()
    ensures one_node { OneNodeRow }
    ensures both_modes { BothModesRow }
    ensures single_writer { SingleWriterRow }
    ensures slots { SlotsRow }
    ensures names { NameRow }
    ensures fence { FenceRow }
    ensures sessions { SessionRow }
    ensures empty { EmptyIsShown }
    ensures publish_by_the_laws { LawsTellPublish }
{}
