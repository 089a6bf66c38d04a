//! How an orchestrator's process ends.
ghost use Rattle.std.specs.Prelude.{◌≡◌};
ghost use Rattle.csi_orchestration.specs.Public.Ending.{ending_of_store as by_store, ending_unopened as by_opening};
ghost use Rattle.csi_orchestration.specs.Public.Ending.{ending_of_kind as by_kind, ending_of_serving as by_serving};

use crate::lines_serving::{LinesServeFault, LinesServeFaultKind, ServedLines};
use csi_service::OrchestratorUnopened;
use csi_stores::KeepFault;
use csi_streams::Ending;

// The ending where the store refuses so.
fn ending_of_store(fault: KeepFault) -> Ending
    ensures { result ≡ by_store fault }
{
    match fault {
        KeepFault::Device | KeepFault::Full => Ending::Device,
        KeepFault::NoMemory => Ending::Memory,
        KeepFault::BadRecord(place) => Ending::RecordFault(place),
    }
}

/// The ending where the orchestrator isn't opened.
pub(crate) fn ending_unopened(why: OrchestratorUnopened) -> Ending
    ensures { result ≡ by_opening why }
{
    match why {
        OrchestratorUnopened::Keep(fault) => ending_of_store(fault),
        OrchestratorUnopened::BadNodes => Ending::ConfigRefused,
        OrchestratorUnopened::NumbersSpent => Ending::NumbersSpent,
        OrchestratorUnopened::NodeInUse => Ending::NodeInUse,
    }
}

// The ending where serving stopped so.
fn ending_of_kind(kind: LinesServeFaultKind) -> Ending
    ensures { result ≡ by_kind kind }
{
    match kind {
        LinesServeFaultKind::Input | LinesServeFaultKind::Output => Ending::Device,
        LinesServeFaultKind::Long(number) => Ending::LineFault(number),
        LinesServeFaultKind::Keep(fault) => ending_of_store(fault),
        LinesServeFaultKind::NoMemory => Ending::Memory,
        LinesServeFaultKind::OlderStore => Ending::OlderStore,
        LinesServeFaultKind::Endless => Ending::Endless,
    }
}

/// The ending where serving answers so.
pub(crate) fn ending_of_serving(served: Result<ServedLines, LinesServeFault>) -> Ending
    ensures { result ≡ by_serving served }
{
    match served {
        Ok(_) => Ending::Done,
        Err(fault) => ending_of_kind(fault.kind),
    }
}
