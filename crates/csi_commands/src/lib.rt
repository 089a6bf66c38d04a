//! What `csi-replay` does with the bytes of a file or of a stream, without a process: frames are answered by a new controller, or
//! shown in lines, and schedules are run to a report, to the frames that they send, or to a picture, which the caller draws (`Draws`). This profile's own.
#![tactic(auto)]

mod commands;
mod drawing;
mod playing;
mod running;
mod streaming;
mod telling;

pub use commands::file;
pub use csi_streams::{SliceFault, StreamFault, answer, answer_from, show, show_from};
pub use drawing::Draws;
pub use running::play;
pub use streaming::stream;
