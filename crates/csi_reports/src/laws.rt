//! What holds of reports.
ghost use Rattle.std.specs.List.{AllByRecursion};
ghost use Rattle.std.specs.Prelude.{ℕ, List};
ghost use Rattle.csi_orchestrator.specs.Model.Shown.{RowShown};
ghost use Rattle.csi_reports.specs.Public.OrchestratorRecords.{HasOneLine};
ghost use Rattle.csi_reports.specs.Public.Responses.{HasOneOpenedLine};
ghost use Rattle.csi_reports.specs.Private.Laws.{ShowsAState};
ghost use Rattle.csi_reports.specs.Public.Report.{HasOneReport};

use csi_node::Node;
use csi_orchestrator::OrchestratorRecord;
use csi_world::World;

// Nothing that runs: each node shows a state.
fn nodes_show(nodes: &[Node])
    ensures { AllByRecursion ShowsAState nodes.now }
{
    for node in nodes {
        csi_node::showing_law(node);
    }
}

/// A law, and nothing that runs: a world has one report. Two texts that are its report are the same text. This profile's own.
pub fn report_law(world: &World)
    ensures { HasOneReport world.now }
{
    csi_controller::showing_law(world.controller());
    nodes_show(world.nodes());
}

/// A law, and nothing that runs: an orchestrator's record has one line. This profile's own.
pub fn orchestrator_line_law(kept: &OrchestratorRecord)
    ensures { HasOneLine kept.now }
{
    let _rows = kept.rows();
}

/// A law, and nothing that runs: a session has one first line for the rows that it begins with. This profile's own.
pub fn opened_line_law()
    ensures { (session : ℕ) (rows : List RowShown) → HasOneOpenedLine session rows }
{}
