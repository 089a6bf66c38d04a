//! The plugins as programs: a plugin is opened from its store, and serves a reader's frames to a writer; a store's record is told, and a
//! lost store made anew of the others. This profile's own.
#![tactic(auto)]

mod ending;
mod given;
mod joined;
mod judging;
mod kind;
mod planning;
mod rebuilding;
mod recording;
mod recovering;
mod rejudging;
mod running;
mod service;

pub use ending::ending_unopened;
pub use joined::{memory_runs_law, runs_law, three_runs_law};
pub use kind::{AskedPlugin, asked_session};
pub use rebuilding::rebuild;
pub use recording::record;
pub use recovering::{Recovery, recover};
pub use running::plugin;
