//! What a plugin answers to a call.
use csi_types::{Kind, Reply};

/// What a plugin answered to a call, and what that changed of its rows (this profile's own).
#[derive(Debug, PartialEq, Eq, Drop)]
pub struct Answer {
    /// The call's, or that of the call whose kept reply is given again.
    pub kind: Kind,
    /// The plugin's reply.
    pub reply: Reply,
    /// Where the row is that the call changed or made: its place among the plugin's rows, until the next call. Where it is `None`
    /// each row says what it said. Rows that were forgotten, where the call began a session, are none of these.
    pub row: Option<usize>,
}
