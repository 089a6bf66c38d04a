//! Worked examples and laws of the values' rules. Each function proves a statement, and does nothing.
ghost use Rattle.csi_types.specs.Private.Worked.{GrantRows, NumberRows, TestsTellEquality};

fn grants()
    ensures { GrantRows }
{}

fn numbers()
    ensures { NumberRows }
{}

fn equality()
    ensures { TestsTellEquality }
{}
