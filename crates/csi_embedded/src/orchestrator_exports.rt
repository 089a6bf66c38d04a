//! What a C program calls of an orchestrator, as `include/tufayon.h` declares it. Making, changes, the record and freeing are as a plugin's
//! (`exports.rt`). No call leaves anything half done: where it isn't done the orchestrator, and what the store has to be given, are as they
//! were. `NoRoom` comes only where there is less room than the `TUFAYON_FRAME_ROOM` bytes of the longest frame.
ghost use Rattle.std.specs.Prelude.{◌≡◌, None, length, take};
ghost use Rattle.csi_embedded.specs.Public.Asking.{AsksCreate, AsksUse, AsksStop, AsksDelete, AsksTimeout, HasAsked, HasHeard};
ghost use Rattle.csi_embedded.specs.Public.Losing.{HasLost};
ghost use Rattle.csi_embedded.specs.Public.Knowing.{AsksExists, AsksAttached, AsksStaged, AsksPublished, HasKnown, HasGoal, HasVolume};
ghost use Rattle.csi_embedded.specs.Public.Making.{Makes, EndsDone};
ghost use Rattle.csi_embedded.specs.Public.OrchestratorMaking.{IsNewOrchestrator, IsReadOrchestrator, IsNoOrchestrator, IsNoReadOrchestrator};
ghost use Rattle.csi_embedded.specs.Private.Asking.{GivesAsked};
ghost use Rattle.csi_embedded.specs.Private.Losing.{GivesLost};
ghost use Rattle.csi_embedded.specs.Private.Knowing.{GivesKnown};

use crate::asking::{ask_read, hear};
use crate::command::Command;
use crate::commands::{create_of, delete_of, stop_of, timeout_of, use_of};
use crate::ending::CallEnding;
use crate::exports::put;
use crate::handle::Handle;
use crate::knowing::{goal, know_read, volume};
use crate::losing::lose_read;
use crate::orchestrator_making::{new_orchestrator, read_orchestrator};
use crate::texts::{id_of, name_of};
use crate::things::{attached_of, exists_of, published_of, staged_of};
use csi_orchestrator::Thing;
use csi_types::NodeId;
use std::alloc::Global;

/// A new orchestrator of the nodes of the configuration that these bytes say, in session 1. The handle has to be empty. What the store has to
/// be given then is the orchestrator's record.
#[unsafe(no_mangle)]
pub extern "C" fn tufayon_orchestrator_new(
    alloc: Global,
    config: &[u8],
    orchestrator: &mut Handle,
) -> u32
    ensures { Makes (λ made ending. IsNewOrchestrator config.now made × EndsDone ending) (IsNoOrchestrator config.now)
        orchestrator.old.held.embedded orchestrator.new.held.embedded result }
{
    if orchestrator.is_full() {
        return CallEnding::Full.number();
    }
    put(alloc, orchestrator, new_orchestrator(alloc, config))
}

/// The orchestrator of a whole record, after a restart with the nodes of the configuration that these bytes say. The handle has to be empty. It is
/// in the session after the record's, and has no open call, and names are forgotten: what the store has to be given is what that changed, before any
/// frame is sent. `Refused` where the record's session is the last one, and `NodeInUse` where a volume may be attached at a node of the
/// record that isn't one of these.
#[unsafe(no_mangle)]
pub extern "C" fn tufayon_orchestrator_from_record(
    alloc: Global,
    config: &[u8],
    bytes: &[u8],
    orchestrator: &mut Handle,
) -> u32
    ensures { Makes (λ made ending. IsReadOrchestrator config.now bytes.now made × EndsDone ending) (IsNoReadOrchestrator config.now bytes.now)
        orchestrator.old.held.embedded orchestrator.new.held.embedded result }
{
    if orchestrator.is_full() {
        return CallEnding::Full.number();
    }
    put(alloc, orchestrator, read_orchestrator(alloc, config, bytes))
}

// Asks the orchestrator of a handle, if what C handed over is a command.
fn ask_handle(
    alloc: Global,
    orchestrator: &mut Handle,
    command: Result<Command, CallEnding>,
    frame: &mut [u8],
    written: &mut usize,
    fault: &mut u32,
) -> u32
    ensures { GivesAsked command orchestrator.old.held.embedded orchestrator.new.held.embedded (length frame.old) written.new
        (take written.new frame.new) fault.new result }
{
    match orchestrator.take(alloc) {
        Some(mut embedded) => {
            let ending = ask_read(alloc, &mut embedded, command, frame, written, fault);
            *orchestrator = Handle::of(embedded);
            ending.number()
        }
        None => CallEnding::Empty.number(),
    }
}

/// Requests creation of the volume of a name, with a capacity in bytes of at least `required` and, unless `limit` is 0, at most `limit`, for each
/// of these capabilities (CSI's spec.md, "CreateVolume"). The frame that is to be sent is a CreateVolume.
#[unsafe(no_mangle)]
pub extern "C" fn tufayon_create(
    alloc: Global,
    orchestrator: &mut Handle,
    name: &[u8],
    required: u64,
    limit: u64,
    capabilities: &[u8],
    frame: &mut [u8],
    written: &mut usize,
    fault: &mut u32,
) -> u32
    ensures { HasAsked (AsksCreate name.now required limit capabilities.now)
        orchestrator.old.held.embedded orchestrator.new.held.embedded (length frame.old) written.new
        (take written.new frame.new) fault.new result }
{
    let command = create_of(alloc, name, required, limit, capabilities);
    ask_handle(alloc, orchestrator, command, frame, written, fault)
}

/// Requests that the volume of a name is published at a target of a node, in this capability (CSI's spec.md, "ControllerPublishVolume",
/// "NodeStageVolume" and "NodePublishVolume"). The frame that is to be sent is the first call of these that is due; none where it is so already.
#[unsafe(no_mangle)]
pub extern "C" fn tufayon_use(
    alloc: Global,
    orchestrator: &mut Handle,
    name: &[u8],
    node: &[u8],
    target: &[u8],
    capability: &[u8],
    readonly: bool,
    frame: &mut [u8],
    written: &mut usize,
    fault: &mut u32,
) -> u32
    ensures { HasAsked (AsksUse name.now node.now target.now capability.now readonly)
        orchestrator.old.held.embedded orchestrator.new.held.embedded (length frame.old) written.new
        (take written.new frame.new) fault.new result }
{
    let command = use_of(alloc, name, node, target, capability, readonly);
    ask_handle(alloc, orchestrator, command, frame, written, fault)
}

/// Requests that the volume of a name is unpublished there, and then, where it is at no other target of the node, unstaged and detached (CSI's
/// spec.md, "NodeUnpublishVolume", "NodeUnstageVolume" and "ControllerUnpublishVolume").
#[unsafe(no_mangle)]
pub extern "C" fn tufayon_stop(
    alloc: Global,
    orchestrator: &mut Handle,
    name: &[u8],
    node: &[u8],
    target: &[u8],
    frame: &mut [u8],
    written: &mut usize,
    fault: &mut u32,
) -> u32
    ensures { HasAsked (AsksStop name.now node.now target.now) orchestrator.old.held.embedded orchestrator.new.held.embedded (length frame.old) written.new
        (take written.new frame.new) fault.new result }
{
    let command = stop_of(alloc, name, node, target);
    ask_handle(alloc, orchestrator, command, frame, written, fault)
}

/// Requests deletion of the volume of a name (CSI's spec.md, "DeleteVolume").
#[unsafe(no_mangle)]
pub extern "C" fn tufayon_delete(
    alloc: Global,
    orchestrator: &mut Handle,
    name: &[u8],
    frame: &mut [u8],
    written: &mut usize,
    fault: &mut u32,
) -> u32
    ensures { HasAsked (AsksDelete name.now) orchestrator.old.held.embedded orchestrator.new.held.embedded (length frame.old) written.new
        (take written.new frame.new) fault.new result }
{
    let command = delete_of(alloc, name);
    ask_handle(alloc, orchestrator, command, frame, written, fault)
}

/// The open call of the volume of a name timed out, or a session began in which something is still wanted of it: the call that is due is sent
/// again.
#[unsafe(no_mangle)]
pub extern "C" fn tufayon_timeout(
    alloc: Global,
    orchestrator: &mut Handle,
    name: &[u8],
    frame: &mut [u8],
    written: &mut usize,
    fault: &mut u32,
) -> u32
    ensures { HasAsked (AsksTimeout name.now) orchestrator.old.held.embedded orchestrator.new.held.embedded (length frame.old) written.new
        (take written.new frame.new) fault.new result }
{
    let command = timeout_of(alloc, name);
    ask_handle(alloc, orchestrator, command, frame, written, fault)
}

/// Hands the orchestrator the frame that these bytes begin with, and says how many of them it took. The frame that is to be sent then is the next
/// call; none where nothing is due, or the frame is ignored. `OlderStore` where it says of an open call that it was stale: no plugin says so in a
/// run of one orchestrator, so the store is an older one. Nothing changed then, and nothing is to be committed: the orchestrator has ended.
#[unsafe(no_mangle)]
pub extern "C" fn tufayon_deliver(
    alloc: Global,
    orchestrator: &mut Handle,
    came: &[u8],
    used: &mut usize,
    frame: &mut [u8],
    written: &mut usize,
    fault: &mut u32,
) -> u32
    ensures { HasHeard came.now orchestrator.old.held.embedded used.new orchestrator.new.held.embedded (length frame.old) written.new
        (take written.new frame.new) fault.new result }
{
    match orchestrator.take(alloc) {
        Some(mut embedded) => {
            let ending = hear(alloc, &mut embedded, came, used, frame, written, fault);
            *orchestrator = Handle::of(embedded);
            ending.number()
        }
        None => CallEnding::Empty.number(),
    }
}

// Takes a node as lost, if what C handed over is one.
fn lose_handle(
    alloc: Global,
    orchestrator: &mut Handle,
    node: Result<NodeId, CallEnding>,
    fault: &mut u32,
) -> u32
    ensures { GivesLost node orchestrator.old.held.embedded orchestrator.new.held.embedded fault.new result }
{
    match orchestrator.take(alloc) {
        Some(mut embedded) => {
            let ending = lose_read(&mut embedded, node, fault);
            *orchestrator = Handle::of(embedded);
            ending.number()
        }
        None => CallEnding::Empty.number(),
    }
}

/// The node of this id is lost: the machine is off for good, and its store never comes back; an emptied store is a lost node. A session
/// begins without it. What is to be sent is asked for by `tufayon_timeout` and `tufayon_stop`. `Refused` in the last session.
#[unsafe(no_mangle)]
pub extern "C" fn tufayon_orchestrator_lose(
    alloc: Global,
    orchestrator: &mut Handle,
    node: &[u8],
    fault: &mut u32,
) -> u32
    ensures { HasLost node.now orchestrator.old.held.embedded orchestrator.new.held.embedded fault.new result }
{
    let lost = id_of(alloc, node);
    lose_handle(alloc, orchestrator, lost, fault)
}

// What the orchestrator of a handle knows of a thing, if what C handed over is one.
fn know_handle(
    alloc: Global,
    orchestrator: &mut Handle,
    thing: Result<Thing, CallEnding>,
    known: &mut u32,
) -> u32
    ensures known { GivesKnown thing orchestrator.old.held.embedded known.new result }
    ensures same { orchestrator.new.held.embedded ≡ orchestrator.old.held.embedded }
{
    match orchestrator.take(alloc) {
        Some(embedded) => {
            let ending = know_read(&embedded, &thing, known);
            *orchestrator = Handle::of(embedded);
            ending.number()
        }
        None => CallEnding::Empty.number(),
    }
}

/// Whether the volume of a name is there, as far as the orchestrator knows: 0 for no, 1 for yes and 2 for maybe.
#[unsafe(no_mangle)]
pub extern "C" fn tufayon_exists(
    alloc: Global,
    orchestrator: &mut Handle,
    name: &[u8],
    known: &mut u32,
) -> u32
    ensures known { HasKnown (AsksExists name.now) orchestrator.old.held.embedded known.new result }
    ensures same { orchestrator.new.held.embedded ≡ orchestrator.old.held.embedded }
{
    let thing = exists_of(alloc, name);
    know_handle(alloc, orchestrator, thing, known)
}

/// Whether it is attached to a node, in the same way.
#[unsafe(no_mangle)]
pub extern "C" fn tufayon_attached(
    alloc: Global,
    orchestrator: &mut Handle,
    name: &[u8],
    node: &[u8],
    known: &mut u32,
) -> u32
    ensures known { HasKnown (AsksAttached name.now node.now) orchestrator.old.held.embedded known.new result }
    ensures same { orchestrator.new.held.embedded ≡ orchestrator.old.held.embedded }
{
    let thing = attached_of(alloc, name, node);
    know_handle(alloc, orchestrator, thing, known)
}

/// Whether it is staged there.
#[unsafe(no_mangle)]
pub extern "C" fn tufayon_staged(
    alloc: Global,
    orchestrator: &mut Handle,
    name: &[u8],
    node: &[u8],
    known: &mut u32,
) -> u32
    ensures known { HasKnown (AsksStaged name.now node.now) orchestrator.old.held.embedded known.new result }
    ensures same { orchestrator.new.held.embedded ≡ orchestrator.old.held.embedded }
{
    let thing = staged_of(alloc, name, node);
    know_handle(alloc, orchestrator, thing, known)
}

/// Whether it is published at a target there.
#[unsafe(no_mangle)]
pub extern "C" fn tufayon_published(
    alloc: Global,
    orchestrator: &mut Handle,
    name: &[u8],
    node: &[u8],
    target: &[u8],
    known: &mut u32,
) -> u32
    ensures known { HasKnown (AsksPublished name.now node.now target.now) orchestrator.old.held.embedded known.new result }
    ensures same { orchestrator.new.held.embedded ≡ orchestrator.old.held.embedded }
{
    let thing = published_of(alloc, name, node, target);
    know_handle(alloc, orchestrator, thing, known)
}

/// What is wanted of the volume of a name, as a row of the record has it: nothing (a byte 0) of one that the orchestrator doesn't have. Where it
/// doesn't fit, `written` says how many bytes it has.
#[unsafe(no_mangle)]
pub extern "C" fn tufayon_goal(
    alloc: Global,
    orchestrator: &mut Handle,
    name: &[u8],
    bytes: &mut [u8],
    written: &mut usize,
) -> u32
    ensures goal { HasGoal name.now orchestrator.old.held.embedded (length bytes.old) written.new (take written.new bytes.new) result }
    ensures same { orchestrator.new.held.embedded ≡ orchestrator.old.held.embedded }
{
    let named = name_of(alloc, name);
    match orchestrator.take(alloc) {
        Some(embedded) => {
            let ending = match &named {
                Ok(name) => goal(alloc, &embedded, name, bytes, written),
                Err(ending) => *ending,
            };
            *orchestrator = Handle::of(embedded);
            ending.number()
        }
        None => CallEnding::Empty.number(),
    }
}

/// The name of the volume at this place, from 0, in the order of the first creates. `NoMore` says that there are fewer. Where it doesn't fit,
/// `written` says how many bytes it has.
#[unsafe(no_mangle)]
pub extern "C" fn tufayon_volume(
    alloc: Global,
    orchestrator: &mut Handle,
    place: usize,
    name: &mut [u8],
    written: &mut usize,
) -> u32
    ensures volume { HasVolume place orchestrator.old.held.embedded (length name.old) written.new (take written.new name.new) result }
    ensures same { orchestrator.new.held.embedded ≡ orchestrator.old.held.embedded }
{
    match orchestrator.take(alloc) {
        Some(embedded) => {
            let ending = volume(&embedded, place, name, written);
            *orchestrator = Handle::of(embedded);
            ending.number()
        }
        None => CallEnding::Empty.number(),
    }
}
