//! Worked examples of the spelling of records. Each function proves a statement, and does nothing.
ghost use Rattle.csi_records.specs.Private.Worked.{CreatedRow, EmptyRow, OnTheWayRow};

fn created()
    ensures { CreatedRow }
{}

fn empty()
    ensures { EmptyRow }
{}

fn on_the_way()
    ensures { OnTheWayRow }
{}
