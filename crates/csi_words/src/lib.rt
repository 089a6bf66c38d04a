//! The words of the command line: which command of `csi-replay` they name, or which help they ask for, and its texts. This profile's own.
#![tactic(auto)]

mod command_line;
mod giving;
mod help;
mod texts;

pub use command_line::{CommandLine, MadeOf, parse};
pub use giving::give_text;
pub use help::Help;
