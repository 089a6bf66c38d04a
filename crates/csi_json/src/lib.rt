//! Configurations, schedules and an orchestrator's requests, read from JSON exactly as the format has them. This profile's own.
#![tactic(auto)]

mod access;
mod borrowed;
mod configs;
mod events;
mod fault;
mod happening;
mod hexadecimal;
mod lists;
mod plain;
mod request;
mod request_fault;
mod schedule;
mod texts;
mod usual;
mod values;

pub use configs::read_config;
pub use fault::ScheduleFault;
pub use happening::{Happening, Recovery};
pub use hexadecimal::hexadecimal_law;
pub use request::{Request, read_request};
pub use request_fault::RequestFault;
pub use schedule::{MAX_EVENTS, Schedule, read_schedule};
