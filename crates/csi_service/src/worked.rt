//! A worked example of the room in a store. The function proves a statement, and does nothing.
ghost use Rattle.csi_service.specs.Private.Worked.{EmptySize};

fn empty()
    ensures { EmptySize }
{}
