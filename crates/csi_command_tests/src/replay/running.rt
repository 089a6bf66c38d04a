//! How a table of commands is run. A run may see a growth refused (by `tools/refusals`): it then ends in want of
//! memory, after a beginning of what it is to give, and gives all of it the second time.
use super::Case;
use super::drawing::Pictures;
use csi_commands::file;
use csi_streams::{Ending, FileCommand, ScheduleCommand};
use std::alloc::{AllocError, Global};
use std::process::Abort;

/// Bytes, as texts in hexadecimal, where blanks are for the reader, or as one text that they are.
#[derive(Clone, Copy)]
pub(super) enum Written {
    Hexadecimal(&'static [&'static str]),
    Text(&'static str),
}

/// A command, the file that it is given, what it is to give, and how it is to end.
#[derive(Clone, Copy)]
pub(super) struct Asked {
    pub command: FileCommand,
    pub input: Written,
    pub output: Written,
    pub ending: Ending,
}

/// What a case asks.
pub(super) fn asked_in(case: Case) -> Asked {
    let (command, input, output, ending) = match case {
        Case::Answers(input, replies, ending) => (
            FileCommand::Answer,
            Written::Hexadecimal(input),
            Written::Hexadecimal(replies),
            ending,
        ),
        Case::Shows(input, lines, ending) => (
            FileCommand::Show,
            Written::Hexadecimal(input),
            Written::Text(lines),
            ending,
        ),
        Case::Runs(schedule, report, ending) => (
            FileCommand::Schedule(ScheduleCommand::Run),
            Written::Text(schedule),
            Written::Text(report),
            ending,
        ),
        Case::RunsBytes(input, ending) => (
            FileCommand::Schedule(ScheduleCommand::Run),
            Written::Hexadecimal(input),
            Written::Text(""),
            ending,
        ),
        Case::Sends(schedule, frames, ending) => (
            FileCommand::Schedule(ScheduleCommand::Frames),
            Written::Text(schedule),
            Written::Hexadecimal(frames),
            ending,
        ),
        Case::Draws(schedule, picture, ending) => (
            FileCommand::Schedule(ScheduleCommand::Draw),
            Written::Text(schedule),
            Written::Text(picture),
            ending,
        ),
    };
    Asked {
        command,
        input,
        output,
        ending,
    }
}

fn digit(code: u8) -> u8 {
    match code {
        b'0'..=b'9' => code - b'0',
        b'a'..=b'f' => code - b'a' + 10,
        _ => 0,
    }
}

// Appends the bytes that a text in hexadecimal means.
fn append_hexadecimal(out: &mut Vec<u8>, text: &str) -> Result<(), AllocError> {
    let mut high = None;
    for code in text.bytes() {
        if code == b' ' {
            continue;
        }
        match high {
            None => high = Some(digit(code)),
            Some(first) => {
                out.push(digit(code).wrapping_add(16u8.wrapping_mul(first)))?;
                high = None;
            }
        }
    }
    Ok(())
}

// These bytes behind that text.
fn try_behind(alloc: Global, front: &str, bytes: Written) -> Result<Vec<u8>, AllocError> {
    let mut out = Vec::new(alloc);
    out.extend_from_slice(front.as_bytes())?;
    match bytes {
        Written::Hexadecimal(texts) => {
            for text in texts {
                append_hexadecimal(&mut out, text)?;
            }
        }
        Written::Text(text) => out.extend_from_slice(text.as_bytes())?,
    }
    Ok(out)
}

// The same, the second time where memory is refused.
fn behind(rt: &(impl Abort + AllocGlobal), front: &str, bytes: Written) -> Vec<u8> {
    match try_behind(rt.alloc(), front, bytes) {
        Ok(bytes) => bytes,
        Err(_) => try_behind(rt.alloc(), front, bytes).expect(rt, "memory"),
    }
}

/// The bytes that these texts mean, or that this text is.
pub(super) fn bytes_of(rt: &(impl Abort + AllocGlobal), bytes: Written) -> Vec<u8> {
    behind(rt, "", bytes)
}

// How the command ends, where it leaves these bytes or a front of them behind what was there.
fn once(
    rt: &(impl Abort + AllocGlobal),
    command: FileCommand,
    input: &[u8],
    wanted: &[u8],
) -> (Ending, bool, bool) {
    let mut out = behind(rt, "there", Written::Text(""));
    let ending = file::<Pictures>(rt.alloc(), command, input, &mut out);
    let is_front = wanted.starts_with(out.as_slice());
    (ending, is_front, is_front && out.len() == wanted.len())
}

/// Whether the command ends so on this file, and gives this output.
pub(super) fn gives(
    rt: &(impl Abort + AllocGlobal),
    command: FileCommand,
    input: &[u8],
    output: Written,
    ending: Ending,
) -> bool {
    let wanted = behind(rt, "there", output);
    let came = match once(rt, command, input, &wanted) {
        (Ending::Memory, true, _) => once(rt, command, input, &wanted),
        came => came,
    };
    came == (ending, true, true)
}

/// Each of these gives what it is to give.
pub(super) fn run_all(rt: &(impl Abort + AllocGlobal), cases: &[Case]) {
    for (index, case) in cases.iter().enumerate() {
        let asked = asked_in(*case);
        let input = bytes_of(rt, asked.input);
        let is_given = gives(rt, asked.command, &input, asked.output, asked.ending);
        assert!(rt; is_given, "case {index}");
    }
}
