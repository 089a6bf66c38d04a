//! The tests of what `csi-replay` does with files: of commands, schedules and reports, from bytes to bytes. There is nothing else
//! here: a crate that has no test of its own is proved once less.
#![tactic(auto)]

#[cfg(test)]
mod replay;
