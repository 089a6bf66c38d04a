//! Worked recoveries. Each function proves a statement, and does nothing.
ghost use Rattle.csi_recovery.specs.Private.Worked.{WorkedMay, WorkedRows};
ghost use Rattle.csi_recovery.specs.Private.WorkedRebuilt.{WorkedRebuilt};

fn rows()
    ensures { WorkedRows }
{}

fn may()
    ensures { WorkedMay }
{}

fn rebuilt()
    ensures { WorkedRebuilt }
{}
