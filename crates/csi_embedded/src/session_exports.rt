//! What a C program calls to open an orchestrator in a session that it names.
ghost use Rattle.csi_embedded.specs.Public.Making.{Makes, EndsDone};
ghost use Rattle.csi_embedded.specs.Public.OrchestratorMaking.{IsOpenedOrchestrator, IsNotOpened};

use crate::ending::CallEnding;
use crate::exports::put;
use crate::handle::Handle;
use crate::orchestrator_making::open_orchestrator;
use std::alloc::Global;

/// The orchestrator of a whole record, or a new one where there are no bytes, as `tufayon_orchestrator_from_record` and `tufayon_orchestrator_new`
/// make it, but in this session, where that is later than the next one, as the count of seconds since 1970 is: so an older copy of a store, or one
/// that is opened twice, uses no number again. 0 begins the next one.
#[unsafe(no_mangle)]
pub extern "C" fn tufayon_orchestrator_open(
    alloc: Global,
    config: &[u8],
    bytes: &[u8],
    session: u64,
    orchestrator: &mut Handle,
) -> u32
    ensures { Makes (λ made ending. IsOpenedOrchestrator config.now bytes.now session made × EndsDone ending) (IsNotOpened config.now bytes.now session)
        orchestrator.old.held.embedded orchestrator.new.held.embedded result }
{
    if orchestrator.is_full() {
        return CallEnding::Full.number();
    }
    put(
        alloc,
        orchestrator,
        open_orchestrator(alloc, config, bytes, session),
    )
}
