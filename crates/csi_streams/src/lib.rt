//! Streams that are taken to their end: a reader's bytes are taken in pieces, what they are split into, frames or lines, is handled item by
//! item, and how that ends is told. What is split, and what is done with an item, is a type that implements a trait. What waits of items
//! that were answered is committed together. Two that handle frames are here: one answers them by a new controller plugin, one shows them in
//! lines; and so is what `csi-replay` is asked to do with a file, and how a run of it ends. This profile's own.
#![tactic(auto)]

mod answers;
mod command;
mod consumer;
mod driver;
mod ending;
mod frame_handler;
mod frames;
mod giving;
mod handler;
mod laws;
mod line_buffer;
mod line_handler;
mod lines;
mod merging;
mod showing;
mod shown;
mod slices;
mod source;
mod streaming;
mod waiting;
mod worked;

pub use answers::{SliceFault, answer, answer_from};
pub use command::{FileCommand, ScheduleCommand};
pub use consumer::Consumer;
pub use driver::{DriveStop, drive, drive_slice};
pub use ending::Ending;
pub use frame_handler::FrameHandler;
pub use frames::{Frames, FramesFault};
pub use laws::lines_law;
pub use line_buffer::LINE_ROOM;
pub use line_handler::LineHandler;
pub use lines::{Lines, LinesFault};
pub use showing::{show, show_from};
pub use source::Source;
pub use streaming::StreamFault;
pub use waiting::{AnswerFault, Waiting};
