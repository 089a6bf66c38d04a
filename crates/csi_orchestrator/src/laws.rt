//! Laws of what an orchestrator does. Each function proves a statement, and does nothing.
ghost use Rattle.csi_orchestrator.specs.Public.Laws.{MovesKeepForm, RecordsLaw, RestartsAreTold};
ghost use Rattle.csi_orchestrator.specs.Private.Following.{ViewFollows};
ghost use Rattle.csi_orchestrator.specs.Private.RowDue.{DueIsTold};
ghost use Rattle.csi_orchestrator.specs.Public.Steps.{MovesLaw};
ghost use Rattle.std.specs.List.{AllByRecursion};
ghost use Rattle.csi_orchestrator.specs.Public.Bounds.{IsBounded};
ghost use Rattle.csi_orchestrator.specs.Private.Sound.{RowsTell, RowsStaySound, MovesAreGuarded};
ghost use Rattle.csi_orchestrator.specs.Public.Restored.{AreRestorable};
ghost use Rattle.csi_orchestrator.specs.Public.Shown.{closed};
ghost use Rattle.csi_orchestrator.specs.Public.Sound.{HasHistory, KeepsWhatIsNeeded};
ghost use Rattle.std.specs.Prelude.{◌≤◌, length, map};

use crate::orchestrator::Orchestrator;

/// A law, and nothing that runs: the history of an orchestrator that did nothing is well-formed, and stays so whatever
/// comes: each number is after the ones before it, each call that is answered or given up was open, and each session
/// is a later one. This profile's own.
pub fn form_law()
    ensures { MovesKeepForm }
{}

// What an orchestrator does by its rows is what it does by its history: what is shown after each item is told by what was
// shown before it, the call that is due by the history is the one that is due by the row, what is done by the one is done by
// the other, what the type keeps of its rows stays so, and each call that is sent by the rows may be sent by the history.
fn rows_follow()
    ensures view_follows { ViewFollows }
    ensures due_is_told { DueIsTold }
    ensures rows_tell { RowsTell }
    ensures rows_stay_sound { RowsStaySound }
    ensures moves_are_guarded { MovesAreGuarded }
{}

/// A law, and nothing that runs: whatever comes, each call that an orchestrator sends has the next number and may be sent
/// then (the guards of CSI's spec.md, "Volume Lifecycle"), each reply that it takes is one that came to an open call, and
/// its answer has the frame of the call that it sent, if it sent one. At most three things are done at a time, and where a session
/// begins two, and one for each name.
pub fn moves_law()
    ensures { MovesLaw }
{}

/// A law, and nothing that runs: every orchestrator, whatever it was asked, came to a well-formed history with which what it shows
/// agrees, so that what its contracts say of each such history is said of every orchestrator. This profile's own.
pub fn showing_law(orchestrator: &Orchestrator)
    ensures { HasHistory orchestrator.now }
{
    let _session = orchestrator.session();
}

/// A law, and nothing that runs: every orchestrator keeps of a volume of which nothing is wanted only the nodes at which it may be
/// attached, staged or published, and the targets at which it may be published. This profile's own.
pub fn entries_law(orchestrator: &Orchestrator)
    ensures { AllByRecursion KeepsWhatIsNeeded orchestrator.now.rows }
{
    let _session = orchestrator.session();
}

/// A law, and nothing that runs: whatever it was asked and whatever came, the rows of every orchestrator, once their open calls are given
/// up, keep the rules of rows: goal, tries, id and entries go together, each entry is as the volume's arguments allow, and of a listed
/// node or what is left of one that was lost, any two of them may be held together, and where a use or a stop is on the way, nothing is
/// at the other nodes. This profile's own.
pub fn rows_law(orchestrator: &Orchestrator)
    ensures { AreRestorable orchestrator.now.nodes (map closed orchestrator.now.rows) }
{
    let _session = orchestrator.session();
}

/// A law, and nothing that runs: whatever rows keep the rules of rows (`rows_law`), what is opened from a record of them has a history, in
/// the next session if one is left, with each list of nodes that leaves out none at which a volume may be attached, so that what
/// contracts say of an orchestrator is said of it. Every `OrchestratorRecord` is such a record. This profile's own.
pub fn records_law()
    ensures { RecordsLaw }
{}

/// A law, and nothing that runs: from each history that an orchestrator shows, a restart with a list of nodes that isn't refused (`restart`) is
/// what the history tells. It speaks of the orchestrator before that. This profile's own.
pub fn restart_law(orchestrator: &Orchestrator)
    ensures { RestartsAreTold orchestrator.now }
{
    let _session = orchestrator.session();
}

/// A law, and nothing that runs: every orchestrator keeps at most 4,096 names, for each of them at most 64 entries, and for each
/// entry at most 16 targets, however many it was asked for. This profile's own.
pub fn bounds_law(orchestrator: &Orchestrator)
    ensures { IsBounded orchestrator.now }
{
    let _session = orchestrator.session();
}
