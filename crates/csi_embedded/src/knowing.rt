//! What an orchestrator tells of a volume.
ghost use Rattle.std.specs.Prelude.{◌≡◌, ◌++◌, [], length, take, option_and_then, slice_get, IfOk};
ghost use Rattle.csi_records.specs.Public.OrchestratorSpelling.{known_byte, goal_bytes as spelled_goal};
ghost use Rattle.csi_embedded.specs.Public.Asking.{HasNone};
ghost use Rattle.csi_embedded.specs.Private.Knowing.{TellsRead};
ghost use Rattle.csi_embedded.specs.Public.Knowing.{TellsThing, TellsGoal, TellsVolume, Fills, goal_named};

use crate::copying::copy;
use crate::embedded::Embedded;
use crate::ending::CallEnding;
use csi_frames::{append_byte, append_capability, append_flag, append_text};
use csi_orchestrator::{Goal, Known, Orchestrator, Thing};
use csi_types::{Name, NoMemory};
use std::alloc::Global;

// The number that a caller in C gets of what is known.
fn number_of(known: Known) -> u32
    ensures { result ≡ known_byte known }
{
    match known {
        Known::No => 0,
        Known::Yes => 1,
        Known::Maybe => 2,
    }
}

/// What the orchestrator knows of a thing.
pub(crate) fn know(embedded: &Embedded, thing: &Thing, known: &mut u32) -> CallEnding
    ensures { TellsThing (λ one. one ≡ thing.now) embedded.now known.new result }
{
    match embedded.orchestrator() {
        Some(orchestrator) => {
            *known = number_of(orchestrator.known(thing));
            CallEnding::Done
        }
        None => CallEnding::OtherKind,
    }
}

/// Copies all bytes, or says how many there are.
pub(crate) fn fill(bytes: &[u8], room: &mut [u8], written: &mut usize) -> CallEnding
    ensures { Fills bytes.now (length room.old) written.new (take written.new room.new) result }
{
    match copy(bytes, room, written) {
        Ok(()) => CallEnding::Done,
        Err(ending) => ending,
    }
}

/// What the orchestrator knows of the thing that was read, if one was.
pub(crate) fn know_read(
    embedded: &Embedded,
    thing: &Result<Thing, CallEnding>,
    known: &mut u32,
) -> CallEnding
    ensures { TellsRead thing.now embedded.now known.new result }
{
    match thing {
        Ok(thing) => know(embedded, thing, known),
        Err(ending) => *ending,
    }
}

/// The name of the volume at this place among those that the orchestrator has, in the order of their first creates.
pub(crate) fn volume(
    embedded: &Embedded,
    place: usize,
    name: &mut [u8],
    written: &mut usize,
) -> CallEnding
    ensures { TellsVolume place embedded.now (length name.old) written.new (take written.new name.new) result }
{
    match embedded.orchestrator() {
        Some(orchestrator) => match orchestrator.rows().get(place) {
            Some(row) => fill(row.name.as_str().as_bytes(), name, written),
            None => CallEnding::NoMore,
        },
        None => CallEnding::OtherKind,
    }
}

// The bytes of a goal.
fn bytes_of(alloc: Global, goal: &Option<Goal>) -> Result<Vec<u8>, NoMemory>
    ensures { IfOk result (λ bytes. bytes.items ≡ spelled_goal goal.now) }
{
    let mut out = Vec::new(alloc);
    match goal {
        None => append_byte(&mut out, 0)?,
        Some(Goal::Create) => append_byte(&mut out, 1)?,
        Some(Goal::Use(usage)) => {
            append_byte(&mut out, 2)?;
            append_text(&mut out, &usage.node)?;
            append_text(&mut out, &usage.target)?;
            append_capability(&mut out, &usage.capability)?;
            append_flag(&mut out, usage.readonly)?;
        }
        Some(Goal::Stop { node, target }) => {
            append_byte(&mut out, 3)?;
            append_text(&mut out, node)?;
            append_text(&mut out, target)?;
        }
        Some(Goal::Delete) => append_byte(&mut out, 4)?,
    }
    Ok(out)
}

// The bytes of what is wanted of the volume of a name.
fn wanted(alloc: Global, orchestrator: &Orchestrator, name: &Name) -> Result<Vec<u8>, NoMemory>
    ensures { IfOk result (λ bytes. bytes.items ≡ spelled_goal (goal_named name.now orchestrator.now)) }
{
    match orchestrator.place_of(name) {
        Some(place) => match orchestrator.rows().get(place) {
            Some(row) => bytes_of(alloc, &row.goal),
            None => bytes_of(alloc, &None),
        },
        None => bytes_of(alloc, &None),
    }
}

/// What is wanted of the volume of a name, as a row of a record has it.
pub(crate) fn goal(
    alloc: Global,
    embedded: &Embedded,
    name: &Name,
    goal: &mut [u8],
    written: &mut usize,
) -> CallEnding
    ensures { TellsGoal (λ one. one ≡ name.now) embedded.now (length goal.old) written.new (take written.new goal.new) result }
{
    match embedded.orchestrator() {
        Some(orchestrator) => match wanted(alloc, orchestrator, name) {
            Ok(bytes) => fill(&bytes, goal, written),
            Err(_) => CallEnding::NoMemory,
        },
        None => CallEnding::OtherKind,
    }
}
