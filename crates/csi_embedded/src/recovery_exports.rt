//! What a C program calls where an orchestrator's store was lost: sessions that are raised in plugins, and an orchestrator that is made of what
//! they keep.
ghost use Rattle.std.specs.Prelude.{◌≡◌};
ghost use Rattle.csi_embedded.specs.Public.Making.{Makes, EndsDone};
ghost use Rattle.csi_embedded.specs.Public.Raising.{HasRaised};
ghost use Rattle.csi_embedded.specs.Public.Recovering.{had_by, HasSession, IsRecovered, IsNotRecovered};

use crate::ending::CallEnding;
use crate::exports::put;
use crate::handle::Handle;
use crate::recovering::{raise, recovered_orchestrator, session_above};
use std::alloc::Global;

/// Raises the session in a plugin, where it is later than the greatest that came, as if a call had begun it: every call of an earlier session is
/// stale from then on, and rows are forgotten. What the store has to be given is the head, and what takes out those rows; nothing where the
/// session isn't later.
#[unsafe(no_mangle)]
pub extern "C" fn tufayon_raise(alloc: Global, plugin: &mut Handle, session: u64) -> u32
    ensures { HasRaised session plugin.old.held.embedded plugin.new.held.embedded result }
{
    match plugin.take(alloc) {
        Some(mut embedded) => {
            let ending = raise(&mut embedded, session);
            *plugin = Handle::of(embedded);
            ending.number()
        }
        None => CallEnding::Empty.number(),
    }
}

/// The session in which an orchestrator is recovered of what the handles have: 2^20 above all that the plugins heard of, and the greatest that is
/// known of the lost orchestrator, 0 where none is. `Refused` where that isn't below 2^64 - 1.
#[unsafe(no_mangle)]
pub extern "C" fn tufayon_recovery_session(
    alloc: Global,
    known: u64,
    controller: &mut Handle,
    nodes: &mut [Handle],
    session: &mut u64,
) -> u32
    ensures told { HasSession known controller.old.held.embedded (had_by nodes.old) session.new result }
    ensures controller { controller.new.held.embedded ≡ controller.old.held.embedded }
    ensures nodes { had_by nodes.new ≡ had_by nodes.old }
{
    session_above(alloc, known, controller, nodes, session).number()
}

/// The orchestrator with the nodes of the configuration that these bytes say, made of what the controller and the nodes of these handles keep
/// after its own store was lost, in the session after this one. Its handle has to be empty. What the store, which has nothing, has to be given
/// is its whole record, once the plugins were raised to this session and their stores were given that. A node without a handle here is lost.
#[unsafe(no_mangle)]
pub extern "C" fn tufayon_orchestrator_recovered(
    alloc: Global,
    config: &[u8],
    session: u64,
    controller: &mut Handle,
    nodes: &mut [Handle],
    orchestrator: &mut Handle,
    place: &mut u64,
) -> u32
    ensures made { Makes (λ made ending. IsRecovered config.now session controller.old.held.embedded (had_by nodes.old) made × EndsDone ending)
        (IsNotRecovered config.now session controller.old.held.embedded (had_by nodes.old) place.new)
        orchestrator.old.held.embedded orchestrator.new.held.embedded result }
    ensures controller { controller.new.held.embedded ≡ controller.old.held.embedded }
    ensures nodes { had_by nodes.new ≡ had_by nodes.old }
{
    if orchestrator.is_full() {
        return CallEnding::Full.number();
    }
    let made = recovered_orchestrator(alloc, config, session, controller, nodes, place);
    put(alloc, orchestrator, made)
}
