//! A run as a picture: one SVG, in which a row is an event and a lane is the orchestrator, the controller or a node. This
//! profile's own.
#![tactic(auto)]

mod bars;
mod escaping;
mod front;
mod lanes;
mod picture;
mod rows;
mod run;
mod scene;
mod things;
mod ways;

pub use picture::draw;
