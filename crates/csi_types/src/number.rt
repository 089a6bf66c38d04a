//! The numbers of calls.

/// The number of a call, and of the reply to it (this profile's own). The session is the orchestrator's,
/// 1 at first and one more after each restart; calls count from 1 in each session. Numbers are ordered by
/// session first.
#[derive(Clone, Copy, Debug, PartialEq, Eq, PartialOrd, Ord)]
pub struct Number {
    pub session: u64,
    pub call: u64,
}
