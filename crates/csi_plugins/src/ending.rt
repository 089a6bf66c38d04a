//! How a plugin's process ends.
ghost use Rattle.std.specs.Prelude.{◌≡◌};
ghost use Rattle.csi_plugins.specs.Public.Ending.{ending_of_store as by_store, ending_unopened as by_opening};
ghost use Rattle.csi_plugins.specs.Public.Ending.{ending_of_node as by_node, ending_of_kind as by_kind, ending_of_serving as by_serving};

use csi_service::{KeepFault, NodeUnopened, ServeFault, ServeFaultKind, Served};
use csi_streams::Ending;

/// The ending where the store of a plugin refuses so: a device that fails, or is full; out of memory; or the first part that
/// is none of the plugin's record.
pub(crate) fn ending_of_store(fault: KeepFault) -> Ending
    ensures { result ≡ by_store fault }
{
    match fault {
        KeepFault::Device | KeepFault::Full => Ending::Device,
        KeepFault::NoMemory => Ending::Memory,
        KeepFault::BadRecord(place) => Ending::RecordFault(place),
    }
}

/// The ending where a node isn't opened from its store.
pub(crate) fn ending_of_node(why: NodeUnopened) -> Ending
    ensures { result ≡ by_node why }
{
    match why {
        NodeUnopened::Keep(fault) => ending_of_store(fault),
        NodeUnopened::EarlierSession => Ending::EarlierSession,
    }
}

/// The ending where a plugin's store can't be opened, for this cause: `StoreNotOpened` for all but out of memory. This profile's
/// own.
pub fn ending_unopened(fault: KeepFault) -> Ending
    ensures { result ≡ by_opening fault }
{
    match fault {
        KeepFault::NoMemory => Ending::Memory,
        _ => Ending::StoreNotOpened,
    }
}

// The ending where serving stopped so.
fn ending_of_kind(kind: ServeFaultKind) -> Ending
    ensures { result ≡ by_kind kind }
{
    match kind {
        ServeFaultKind::Input | ServeFaultKind::Output => Ending::Device,
        ServeFaultKind::Frame(kind, place) => Ending::FrameFault(kind, place),
        ServeFaultKind::Keep(fault) => ending_of_store(fault),
        ServeFaultKind::NoMemory => Ending::Memory,
        ServeFaultKind::Endless => Ending::Endless,
    }
}

/// The ending where serving answers so: a reader or a writer that fails is a device, a frame's fault has its place in the
/// input, and a store's refusal is that of `ending_of_store`.
pub(crate) fn ending_of_serving(served: Result<Served, ServeFault>) -> Ending
    ensures { result ≡ by_serving served }
{
    match served {
        Ok(_) => Ending::Done,
        Err(fault) => ending_of_kind(fault.kind),
    }
}
