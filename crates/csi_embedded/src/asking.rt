//! An orchestrator that is asked, and hears a frame that came.
ghost use Rattle.std.specs.Prelude.{◌≡◌, ◌≤◌, true, length, take, IfOk, IfErr};
ghost use Rattle.csi_frames.specs.Public.Spelling.{BeginsWith};
ghost use Rattle.csi_embedded.specs.Public.Calls.{IsNoFrame};
ghost use Rattle.csi_embedded.specs.Public.Plugins.{is_orchestrator};
ghost use Rattle.csi_embedded.specs.Private.Asking.{AsksRead, HearsFrame};
ghost use Rattle.csi_embedded.specs.Public.Asking.{command_input, AsksOne, HearsOne};

use crate::command::Command;
use crate::embedded::Embedded;
use crate::ending::CallEnding;
use crate::front::{MOST, front};
use crate::sending::{give, refuse};
use csi_frames::{FaultKind, decode};
use csi_orchestrator::Heard;
use csi_types::Frame;
use std::alloc::Global;

/// Asks the orchestrator, and copies the frame that is to be sent, if there is one.
pub(crate) fn ask(
    alloc: Global,
    embedded: &mut Embedded,
    command: Command,
    frame: &mut [u8],
    written: &mut usize,
    fault: &mut u32,
) -> CallEnding
    ensures { AsksOne (λ input. input ≡ command_input command) embedded.old embedded.new (length frame.old) written.new
        (take written.new frame.new) fault.new result }
{
    if frame.len() < MOST {
        return CallEnding::NoRoom;
    }
    if !embedded.is_orchestrator() {
        return CallEnding::OtherKind;
    }
    let Ok(bytes) = Vec::with_capacity(alloc, MOST) else {
        return CallEnding::NoMemory;
    };
    let Ok(()) = embedded.tell() else {
        return CallEnding::NoMemory;
    };
    match embedded.ask(command) {
        Ok(Some(sent)) => {
            give(&sent, bytes, frame, written);
            CallEnding::Done
        }
        Ok(None) => {
            *written = 0;
            CallEnding::Met
        }
        Err(why) => refuse(why, fault),
    }
}

/// Asks the orchestrator what was read, if something was.
pub(crate) fn ask_read(
    alloc: Global,
    embedded: &mut Embedded,
    command: Result<Command, CallEnding>,
    frame: &mut [u8],
    written: &mut usize,
    fault: &mut u32,
) -> CallEnding
    ensures { AsksRead command embedded.old embedded.new (length frame.old) written.new (take written.new frame.new) fault.new result }
{
    match command {
        Ok(command) => ask(alloc, embedded, command, frame, written, fault),
        Err(ending) => ending,
    }
}

// The frame that these bytes begin with, and how many of them it takes.
fn frame_of(alloc: Global, bytes: &[u8]) -> Result<(Frame, usize), CallEnding>
    ensures begins { IfOk result (λ read. BeginsWith bytes.now read.0 read.1) }
    ensures none { IfErr result (IsNoFrame bytes.now) }
{
    match decode(alloc, bytes) {
        Ok(read) => Ok(read),
        Err(fault) => match fault.kind {
            FaultKind::NoMemory => Err(CallEnding::NoMemory),
            FaultKind::Short => Err(CallEnding::Short),
            _ => Err(CallEnding::BadFrame),
        },
    }
}

// Hands the orchestrator a frame that came.
fn hear_frame(
    alloc: Global,
    embedded: &mut Embedded,
    came: &Frame,
    frame: &mut [u8],
    written: &mut usize,
    fault: &mut u32,
) -> CallEnding
    requires kind { is_orchestrator embedded.old.plugin ≡ true }
    requires room { 1284 ≤ length frame.old }
    ensures { HearsFrame came.now embedded.old embedded.new written.new (take written.new frame.new) fault.new result }
{
    if embedded.is_told_stale(came) {
        return CallEnding::OlderStore;
    }
    let Ok(bytes) = Vec::with_capacity(alloc, MOST) else {
        return CallEnding::NoMemory;
    };
    let Ok(()) = embedded.tell() else {
        return CallEnding::NoMemory;
    };
    match embedded.hear(came) {
        Ok(Heard::Taken(Some(sent))) => {
            give(&sent, bytes, frame, written);
            CallEnding::Done
        }
        Ok(Heard::Taken(None)) => {
            *written = 0;
            CallEnding::Done
        }
        Ok(Heard::Ignored) => {
            *written = 0;
            CallEnding::Ignored
        }
        Err(why) => refuse(why, fault),
    }
}

/// Hands the orchestrator the frame that the bytes begin with, and copies the frame that is to be sent then, if there is one.
pub(crate) fn hear(
    alloc: Global,
    embedded: &mut Embedded,
    came: &[u8],
    used: &mut usize,
    frame: &mut [u8],
    written: &mut usize,
    fault: &mut u32,
) -> CallEnding
    ensures { HearsOne embedded.old came.now used.new embedded.new (length frame.old) written.new (take written.new frame.new) fault.new result }
{
    if frame.len() < MOST {
        return CallEnding::NoRoom;
    }
    if !embedded.is_orchestrator() {
        return CallEnding::OtherKind;
    }
    match frame_of(alloc, front(came)) {
        Ok((read, size)) => {
            *used = size;
            let ending = hear_frame(alloc, embedded, &read, frame, written, fault);
            drop(read);
            ending
        }
        Err(ending) => ending,
    }
}
