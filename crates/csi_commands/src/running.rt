//! A schedule, run to its report, to the frames that it sends, or to its picture.
ghost use Rattle.std.specs.Prelude.{◌≡◌, IfOk, IfErr, OnOk, OnErr};
ghost use Rattle.std.specs.List.{flat_map};
ghost use Rattle.std.specs.Str.{IsUtf8};
ghost use Rattle.csi_frames.specs.Public.Spelling.{spelling};
ghost use Rattle.csi_json.specs.Public.Schedule.{text_schedule, schedule_shown, BeginsWithRecovery};
ghost use Rattle.csi_commands.specs.Public.Running.{IsReportLine, IsGivenOf, IsGiven, IsRunAs, Plays, IsScheduleRefused};
ghost use Rattle.csi_commands.specs.Private.Running.{refusal_of as refusal};

use crate::drawing::Draws;
use crate::playing::played;
use crate::telling::told;
use csi_frames::encode;
use csi_json::{Schedule, ScheduleFault, read_schedule};
use csi_reports::report;
use csi_streams::{Ending, ScheduleCommand};
use csi_types::NoMemory;
use csi_world::World;
use std::alloc::Global;

// The ending where a text is no schedule.
fn refusal_of(fault: ScheduleFault) -> Ending
    ensures { result ≡ refusal fault }
{
    match fault {
        ScheduleFault::NoMemory => Ending::Memory,
        fault => Ending::ScheduleFault(fault),
    }
}

// The schedule that the bytes say.
fn schedule_in(alloc: Global, input: &[u8]) -> Result<Schedule, Ending>
    ensures read { IfOk result (λ made. text_schedule input.now ≡ Ok (schedule_shown made)) }
    ensures onward { IfOk result (λ made. BeginsWithRecovery made.on.items) }
    ensures refused { IfErr result (IsScheduleRefused input.now) }
    ensures utf8 { OnOk result (IsUtf8 input.now) }
{
    let Ok(text) = str::from_utf8(input) else {
        return Err(Ending::NotUtf8);
    };
    match read_schedule(alloc, text) {
        Ok(schedule) => Ok(schedule),
        Err(fault) => Err(refusal_of(fault)),
    }
}

// The report of a world, and a newline.
fn line_of(alloc: Global, world: &World) -> Result<Vec<u8>, NoMemory>
    ensures { IfOk result (λ line. IsReportLine world.now line.items) }
{
    let mut text = report(alloc, world)?;
    text.push_str("\n")?;
    Ok(text.into_bytes())
}

// The spellings of the frames that were sent.
fn frames_of(alloc: Global, world: &World) -> Result<Vec<u8>, NoMemory>
    ensures { IfOk result (λ bytes. bytes.items ≡ flat_map spelling world.now.frames) }
{
    let frames = world.sent();
    let mut bytes = Vec::new(alloc);
    for frame in frames {
        encode(frame, &mut bytes)?;
    }
    Ok(bytes)
}

// What the command gives of a world, to which this schedule led.
fn given_of<D: Draws>(
    alloc: Global,
    command: ScheduleCommand,
    schedule: &Schedule,
    world: &World,
) -> Result<Vec<u8>, NoMemory>
    ensures { IfOk result (λ given. IsGivenOf D.draws command (schedule_shown schedule.now) world.now given.items) }
{
    match command {
        ScheduleCommand::Run => line_of(alloc, world),
        ScheduleCommand::Frames => frames_of(alloc, world),
        ScheduleCommand::Draw => D::draw(alloc, schedule, world),
    }
}

// What the command gives of the world to which this schedule leads.
fn given<D: Draws>(
    alloc: Global,
    command: ScheduleCommand,
    schedule: &Schedule,
) -> Result<Vec<u8>, NoMemory>
    ensures { IfOk result (λ given. IsGiven D.draws command (schedule_shown schedule.now) given.items) }
{
    let world = played(alloc, schedule)?;
    given_of::<D>(alloc, command, schedule, &world)
}

// The schedule as the command runs it: as it is; and to be drawn, told by the events that what settles a volume stands for.
fn run_as(alloc: Global, command: ScheduleCommand, schedule: Schedule) -> Result<Schedule, NoMemory>
    ensures { BeginsWithRecovery schedule.on.items → IfOk result (λ told. IsRunAs command (schedule_shown schedule) (schedule_shown told)) }
{
    match command {
        ScheduleCommand::Run | ScheduleCommand::Frames => Ok(schedule),
        ScheduleCommand::Draw => told(alloc, schedule),
    }
}

/// Reads `input` as a schedule, lets its events and recoveries happen one after another to an empty world, and appends to `out` what the
/// command gives of the world: its report and a newline, the spellings of all frames that were sent, in order,
/// or its picture. Every world on the way is safe, whatever the events and recoveries are, as `safety_law` and `recovery_law` say it; a
/// recovery that isn't what `recovery_law` allows is refused. To be drawn, what settles a volume happens as its timeout and its
/// deliveries, each an event of its own, to the same world. An `Err` appends nothing: `NotUtf8` and `ScheduleFault` say what is wrong with
/// the input, in this order, and `Memory` that an allocation was refused. The report is this profile's own.
pub fn play<D: Draws>(
    alloc: Global,
    command: ScheduleCommand,
    input: &[u8],
    out: &mut Vec<u8>,
) -> Result<(), Ending>
    ensures ok { OnOk result (Plays D.draws command input.now out.old.items out.new.items) }
    ensures refused { IfErr result (IsScheduleRefused input.now) }
    ensures err { OnErr result (out.new.items ≡ out.old.items) }
{
    let schedule = schedule_in(alloc, input)?;
    let told = run_as(alloc, command, schedule)?;
    let given = given::<D>(alloc, command, &told)?;
    out.extend_from_slice(&given)?;
    Ok(())
}
