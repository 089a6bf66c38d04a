//! Worked examples of what an orchestrator does.
ghost use Rattle.csi_orchestrator.specs.Private.Worked.{PublishedRow, OneNodeRow, SingleWriterRow, LateReplyRow, RestartRow, UndoneRow};
ghost use Rattle.csi_orchestrator.specs.Private.Worked.{SpentRow, RefusedCreateRow, RefusedPublishRow, TwoTargetsRow, RefusedUnstageRow};
ghost use Rattle.csi_orchestrator.specs.Private.Worked.{MetRow, DeletedRow, NewAgrees};
ghost use Rattle.csi_orchestrator.specs.Private.Worked.{ForgottenRow, LeftOutRow, LostNodeRow, LostUseRow, RelistedRow};
ghost use Rattle.csi_orchestrator.specs.Private.WorkedRecords.{LeftRows};

// Proves each worked example of a record's rows, and does nothing.
fn worked_records()
    ensures { LeftRows }
{}

// Proves each worked example, and does nothing.
fn worked_rows()
    ensures published { PublishedRow }
    ensures one_node { OneNodeRow }
    ensures single_writer { SingleWriterRow }
    ensures late_reply { LateReplyRow }
    ensures restart { RestartRow }
    ensures undone { UndoneRow }
    ensures spent_numbers { SpentRow }
    ensures refused_create { RefusedCreateRow }
    ensures refused_publish { RefusedPublishRow }
    ensures two_targets { TwoTargetsRow }
    ensures refused_unstage { RefusedUnstageRow }
    ensures met { MetRow }
    ensures deleted { DeletedRow }
    ensures forgotten { ForgottenRow }
    ensures left_out { LeftOutRow }
    ensures lost_node { LostNodeRow }
    ensures lost_use { LostUseRow }
    ensures relisted { RelistedRow }
    ensures new_agrees { NewAgrees }
{}
