//! The commands that read a file.

/// What is done with a schedule.
#[derive(Clone, Copy, Debug, PartialEq, Eq)]
pub enum ScheduleCommand {
    /// It is run, and the report of its world is shown.
    Run,
    /// It is run, and the frames that were sent are given as bytes.
    Frames,
    /// It is run, and its picture is given.
    Draw,
}

/// What is done with the bytes of a file.
#[derive(Clone, Copy, Debug, PartialEq, Eq)]
pub enum FileCommand {
    /// The frames are answered by a new controller.
    Answer,
    /// A line is shown for each frame.
    Show,
    /// They are a schedule, with which this is done.
    Schedule(ScheduleCommand),
}
