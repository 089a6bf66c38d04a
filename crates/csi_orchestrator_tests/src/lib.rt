//! The tests of the orchestrator, which see of it what any user sees. There is nothing else here: a crate that has no
//! test of its own is proved once less.
#![tactic(auto)]

#[cfg(test)]
mod asking;
#[cfg(test)]
mod frames;
#[cfg(test)]
mod full;
#[cfg(test)]
mod playing;
#[cfg(test)]
mod steps;
#[cfg(test)]
mod tables;
#[cfg(test)]
mod things;
#[cfg(test)]
mod values;
