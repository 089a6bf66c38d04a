//! Worked examples of the lines that are shown. Each function proves a statement, and does nothing.
ghost use Rattle.csi_streams.specs.Private.Worked.{DeletingRow, CreatingRow, PublishingRow};

fn deleting()
    ensures { DeletingRow }
{}

fn creating()
    ensures { CreatingRow }
{}

fn publishing()
    ensures { PublishingRow }
{}
