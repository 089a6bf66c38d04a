//! The proved plugins and the orchestrator for programs in other languages: a static library, which a C program links and `include/tufayon.h`
//! declares. Each is held by a handle. A plugin answers a frame's bytes with those of its reply; an orchestrator answers a command, a timeout
//! or a frame that came with the bytes of the frame that is to be sent. Both tell what the caller's store has to be given first. This
//! profile's own.
#![tactic(auto)]

mod asking;
mod capabilities;
mod command;
mod commands;
mod copying;
mod embedded;
mod ending;
mod exports;
mod front;
mod handle;
mod held;
mod joined_exports;
mod knowing;
mod limits;
mod losing;
mod making;
mod opened;
mod orchestrator_exports;
mod orchestrator_making;
mod plugin;
mod recovering;
mod recovery_exports;
mod sending;
mod session_exports;
mod splitting;
mod texts;
mod things;
mod version_exports;
