//! The tests of the orchestrator as a program, without its process: over stores in memory, and over stores, readers and writers that fail.
//! There is nothing else here: a crate that has no test of its own is proved once less.
#![tactic(auto)]

#[cfg(test)]
mod devices;
#[cfg(test)]
mod orchestrators;
