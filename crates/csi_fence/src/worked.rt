//! Worked examples of the fence. Each function proves a statement, and does nothing.
ghost use Rattle.csi_fence.specs.Private.Worked.{VerdictRows, SessionRows};

fn verdicts()
    ensures { VerdictRows }
{}

fn sessions()
    ensures { SessionRows }
{}
