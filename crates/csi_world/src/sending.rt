//! Frames that are sent, and what comes of it.
ghost use Rattle.std.specs.Prelude.{◌≡◌, ◌+◌, List, [], IfOk};
ghost use Rattle.std.specs.Option.{option_copied};
ghost use Rattle.csi_types.specs.Model.Frame.{Frame as FrameParts};
ghost use Rattle.csi_orchestrator.specs.Model.Moves.{Sends, Hears, Restarted};
ghost use Rattle.csi_world.specs.Private.Simulating.{IsSent, IsInputRefused, IsInputSettled, IsReplySent};
ghost use Rattle.csi_world.specs.Public.Simulating.{numbered};

use crate::outcomes::Outcome;
use csi_orchestrator::{Heard, OrchFault};
use csi_types::{Frame, NoMemory};

/// The frame of a number, from 1.
pub(crate) fn frame_of(frames: &[Frame], number: u64) -> Option<&Frame>
    ensures { option_copied result ≡ numbered frames.now number }
{
    if number == 0 {
        return None;
    }
    frames.get((number - 1) as usize)
}

// Sends a frame, and gives its number.
fn send(frames: &mut Vec<Frame>, frame: Frame) -> Result<u64, NoMemory>
    ensures { IfOk result (IsSent frames.old.items frames.new.items frame) }
{
    frames.push(frame)?;
    Ok(frames.len() as u64)
}

// What comes of a refusal. Out of memory is none.
fn refused(fault: OrchFault) -> Result<Outcome, NoMemory>
    ensures { IfOk result (IsInputRefused [] [] fault) }
{
    match fault {
        OrchFault::NoMemory => Err(NoMemory),
        fault => Ok(Outcome::Refused(fault)),
    }
}

/// What comes of the orchestrator's answer to a command or a timeout, whose frame is sent, if it has one.
pub(crate) fn settled(
    frames: &mut Vec<Frame>,
    answer: Result<Option<Frame>, OrchFault>,
) -> Result<Outcome, NoMemory>
    ensures { IfOk result (IsInputSettled Sends frames.old.items frames.new.items answer) }
{
    match answer {
        Ok(Some(frame)) => Ok(Outcome::Sent(send(frames, frame)?)),
        Ok(None) => Ok(Outcome::Met),
        Err(fault) => refused(fault),
    }
}

/// What comes of a reply that the orchestrator heard. The frame that follows is sent, if there is one.
pub(crate) fn settled_reply(
    frames: &mut Vec<Frame>,
    answer: Result<Heard, OrchFault>,
) -> Result<Outcome, NoMemory>
    ensures { IfOk result (IsInputSettled Hears frames.old.items frames.new.items answer) }
{
    match answer {
        Ok(Heard::Ignored) => Ok(Outcome::Ignored),
        Ok(Heard::Taken(None)) => Ok(Outcome::Taken(None)),
        Ok(Heard::Taken(Some(frame))) => Ok(Outcome::Taken(Some(send(frames, frame)?))),
        Err(fault) => refused(fault),
    }
}

/// Sends a plugin's reply, if there is one.
pub(crate) fn answered(frames: &mut Vec<Frame>, reply: Option<Frame>) -> Result<Outcome, NoMemory>
    ensures { IfOk result (IsReplySent frames.old.items frames.new.items reply) }
{
    let number = frames.len() as u64 + 1;
    if let Some(frame) = reply {
        frames.push(frame)?;
    }
    Ok(Outcome::Answered(number))
}

/// What comes of a restart of the orchestrator. Nothing is sent.
pub(crate) fn settled_restart(answer: Result<(), OrchFault>) -> Result<Outcome, NoMemory>
    ensures { (frames : List FrameParts) → IfOk result (IsInputSettled (λ done. Restarted) frames frames answer) }
{
    match answer {
        Ok(()) => Ok(Outcome::Restarted),
        Err(fault) => refused(fault),
    }
}
