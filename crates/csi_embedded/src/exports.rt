//! What a C program calls, as `include/tufayon.h` declares it. No call leaves anything half done: where it isn't done the handle's plugin, and what
//! the store has to be given, are as they were.
ghost use Rattle.std.specs.Prelude.{◌≡◌, ◌≢◌, ◌≤◌, None, Some, length, take};
ghost use Rattle.csi_embedded.specs.Public.Calls.{AnswersFrame, HandleAnswers, HasFailed, AnswersRecord, IsUnanswered};
ghost use Rattle.csi_embedded.specs.Public.Calls.{Remains, HasRemained, TellsAt, TellsRecord, HasTold};
ghost use Rattle.csi_embedded.specs.Private.Making.{GivesHandle};
ghost use Rattle.csi_embedded.specs.Public.Making.{Makes, IsNewController, IsNewNode, IsReadController, IsReadNode, EndsDone};
ghost use Rattle.csi_embedded.specs.Public.Making.{IsNoConfig, IsNoId, IsNoReadController, IsNoReadNode};

use crate::copying::{copy, copy_part};
use crate::embedded::Embedded;
use crate::ending::CallEnding;
use crate::handle::Handle;
use crate::making::{new_controller, new_node, read_controller, read_node};
use std::alloc::Global;

// The most bytes of a reply.
const REPLY_ROOM: usize = 544;

/// Puts what was made into a handle that has nothing, and gives the number of the call's ending.
pub(crate) fn put(
    alloc: Global,
    plugin: &mut Handle,
    made: Result<(Embedded, CallEnding), CallEnding>,
) -> u32
    requires { plugin.old.held.embedded ≡ None }
    ensures { GivesHandle made plugin.new.held.embedded result }
{
    match made {
        Ok((embedded, ending)) => match Box::new(alloc, embedded) {
            Ok(embedded) => {
                *plugin = Handle::of(embedded);
                ending.number()
            }
            Err(_) => CallEnding::NoMemory.number(),
        },
        Err(ending) => ending.number(),
    }
}

/// A new controller, under the configuration that these bytes say. The handle has to be empty. What the store has to be given then is the
/// controller's record.
#[unsafe(no_mangle)]
pub extern "C" fn tufayon_controller_new(alloc: Global, config: &[u8], plugin: &mut Handle) -> u32
    ensures { Makes (λ made ending. IsNewController config.now made
        × EndsDone ending) (IsNoConfig config.now) plugin.old.held.embedded plugin.new.held.embedded result }
{
    if plugin.is_full() {
        return CallEnding::Full.number();
    }
    put(alloc, plugin, new_controller(alloc, config))
}

/// A new node of this id, which was never in an orchestrator's list: it heard of no session. The handle has to be empty. What the store has to be
/// given then is the node's record.
#[unsafe(no_mangle)]
pub extern "C" fn tufayon_node_new(alloc: Global, id: &[u8], plugin: &mut Handle) -> u32
    ensures { Makes (λ made ending. IsNewNode id.now 0 made
        × EndsDone ending) (IsNoId id.now) plugin.old.held.embedded plugin.new.held.embedded result }
{
    if plugin.is_full() {
        return CallEnding::Full.number();
    }
    put(alloc, plugin, new_node(alloc, id, 0))
}

/// The controller of a whole record, in any version, under the configuration that these bytes say. The handle has to be empty. `Renewed` says that
/// the record was one of an earlier version: all that the store has is to be taken out, and what it has to be given is the whole record.
#[unsafe(no_mangle)]
pub extern "C" fn tufayon_controller_from_record(
    alloc: Global,
    config: &[u8],
    bytes: &[u8],
    plugin: &mut Handle,
) -> u32
    ensures { Makes (IsReadController config.now bytes.now) (IsNoReadController config.now bytes.now) plugin.old.held.embedded plugin.new.held.embedded result }
{
    if plugin.is_full() {
        return CallEnding::Full.number();
    }
    put(alloc, plugin, read_controller(alloc, config, bytes))
}

/// The node of this id, of its whole record, in any version, as `tufayon_controller_from_record` says.
#[unsafe(no_mangle)]
pub extern "C" fn tufayon_node_from_record(
    alloc: Global,
    id: &[u8],
    bytes: &[u8],
    plugin: &mut Handle,
) -> u32
    ensures { Makes (IsReadNode id.now 0 bytes.now) (IsNoReadNode id.now 0 bytes.now) plugin.old.held.embedded plugin.new.held.embedded result }
{
    if plugin.is_full() {
        return CallEnding::Full.number();
    }
    put(alloc, plugin, read_node(alloc, id, 0, bytes))
}

// Answers the frame that the bytes begin with, and copies the reply.
fn answer(
    embedded: &mut Embedded,
    frame: &[u8],
    used: &mut usize,
    reply: &mut [u8],
    written: &mut usize,
) -> CallEnding
    ensures done { result ≡ CallEnding.Done → AnswersFrame embedded.old frame.now used.new embedded.new (take written.new reply.new) }
    ensures room { result ≡ CallEnding.Done → written.new ≤ length reply.new }
    ensures why { result ≢ CallEnding.Done → IsUnanswered (Some embedded.old) frame.now (length reply.old) result }
    ensures remains { result ≢ CallEnding.Done → Remains embedded.old embedded.new }
{
    if reply.len() < REPLY_ROOM {
        return CallEnding::NoRoom;
    }
    match embedded.answer(frame) {
        Ok(count) => {
            *used = count;
            match copy(&embedded.reply, reply, written) {
                Ok(()) => CallEnding::Done,
                Err(ending) => ending,
            }
        }
        Err(ending) => ending,
    }
}

/// Answers the frame that these bytes begin with, and says how many of them it took, and how many bytes of a reply were written: none where it has no
/// reply. For the reply there has to be room for 544 bytes.
#[unsafe(no_mangle)]
pub extern "C" fn tufayon_answer(
    alloc: Global,
    plugin: &mut Handle,
    frame: &[u8],
    used: &mut usize,
    reply: &mut [u8],
    written: &mut usize,
) -> u32
    ensures done { result ≡ 0 → HandleAnswers plugin.old.held.embedded frame.now used.new plugin.new.held.embedded (take written.new reply.new) }
    ensures room { result ≡ 0 → written.new ≤ length reply.new }
    ensures refused { result ≢ 0 → HasFailed plugin.old.held.embedded frame.now (length reply.old) plugin.new.held.embedded result }
{
    match plugin.take(alloc) {
        Some(mut embedded) => {
            let ending = answer(&mut embedded, frame, used, reply, written);
            *plugin = Handle::of(embedded);
            ending.number()
        }
        None => CallEnding::Empty.number(),
    }
}

// The change at this place, copied.
fn change(
    embedded: &mut Embedded,
    place: usize,
    key: &mut u64,
    value: &mut [u8],
    written: &mut usize,
) -> CallEnding
    ensures told { TellsAt (Some embedded.old) place key.new (length value.old) written.new (take written.new value.new) result }
    ensures remains { Remains embedded.old embedded.new }
{
    if embedded.tell().is_err() {
        return CallEnding::NoMemory;
    }
    match embedded.changes().get(place) {
        Some(part) => copy_part(part, key, value, written),
        None => CallEnding::NoMore,
    }
}

/// What the store has to be given before the last reply is sent, and before anything is answered of a plugin that was made: the part at this place
/// of what is to be put in and taken out, in this order, in one commit. `Done` puts the value in under the key, `TakenOut` takes out what is
/// under the key, and `NoMore` says that there are fewer. Where the value doesn't fit, `written` says how many bytes it has.
#[unsafe(no_mangle)]
pub extern "C" fn tufayon_changed(
    alloc: Global,
    plugin: &mut Handle,
    place: usize,
    key: &mut u64,
    value: &mut [u8],
    written: &mut usize,
) -> u32
    ensures told { HasTold plugin.old.held.embedded place key.new (length value.old) written.new (take written.new value.new) result }
    ensures remains { HasRemained plugin.old.held.embedded plugin.new.held.embedded }
{
    match plugin.take(alloc) {
        Some(mut embedded) => {
            let ending = change(&mut embedded, place, key, value, written);
            *plugin = Handle::of(embedded);
            ending.number()
        }
        None => CallEnding::Empty.number(),
    }
}

// The bytes of the whole record, copied.
fn record(alloc: Global, embedded: &Embedded, bytes: &mut [u8], written: &mut usize) -> CallEnding
    ensures { TellsRecord (Some embedded.now) (length bytes.old) written.new (take written.new bytes.new) result }
{
    match embedded.plugin.record(alloc) {
        Ok(whole) => match copy(&whole, bytes, written) {
            Ok(()) => CallEnding::Done,
            Err(ending) => ending,
        },
        Err(_) => CallEnding::NoMemory,
    }
}

/// The plugin's whole record, in the present version. Where it doesn't fit, `written` says how many bytes it has.
#[unsafe(no_mangle)]
pub extern "C" fn tufayon_record(
    alloc: Global,
    plugin: &mut Handle,
    bytes: &mut [u8],
    written: &mut usize,
) -> u32
    ensures record { AnswersRecord plugin.old.held.embedded (length bytes.old) written.new (take written.new bytes.new) result }
    ensures same { plugin.new.held.embedded ≡ plugin.old.held.embedded }
{
    match plugin.take(alloc) {
        Some(embedded) => {
            let ending = record(alloc, &embedded, bytes, written);
            *plugin = Handle::of(embedded);
            ending.number()
        }
        None => CallEnding::Empty.number(),
    }
}

/// Frees what the handle has, and leaves it empty. An empty one stays as it is.
#[unsafe(no_mangle)]
pub extern "C" fn tufayon_free(alloc: Global, plugin: &mut Handle)
    ensures { plugin.new.held.embedded ≡ None }
{
    if let Some(embedded) = plugin.take(alloc) {
        drop(embedded);
    }
}
