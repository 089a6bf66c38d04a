//! The tests of worlds, which see of them what any user sees. There is nothing else here: a crate that has no test of its own is proved
//! once less.
#![tactic(auto)]

#[cfg(test)]
mod assembled;
#[cfg(test)]
mod checking;
#[cfg(test)]
mod events;
#[cfg(test)]
mod full;
#[cfg(test)]
mod playing;
#[cfg(test)]
mod settled;
#[cfg(test)]
mod steps;
#[cfg(test)]
mod tables;
#[cfg(test)]
mod values;
