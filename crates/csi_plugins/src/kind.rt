//! Which plugin a process is.
ghost use Rattle.std.specs.Prelude.{◌≡◌, Some, IfOk, IfErr, option_map};
ghost use Rattle.csi_plugins.specs.Public.Asked.{IsOfConfig, IsNoConfig, IsOfId, IsNoId, SaysSession, SaysNone};
ghost use Rattle.csi_plugins.specs.Public.Ending.{ending_unopened as by_opening};

use crate::ending::ending_unopened;
use csi_json::{ScheduleFault, read_config};
use csi_service::KeepFault;
use csi_streams::Ending;
use csi_types::{Config, NodeId, TextFault};
use std::alloc::Global;

/// The plugin that is asked for, and what it has to be told. This profile's own.
#[derive(Drop)]
pub enum AskedPlugin {
    /// The controller plugin, under this configuration.
    Controller(Config),
    /// The plugin of the node of this id, which joined with this session.
    Node { id: NodeId, session: u64 },
}

// The session that this word says, as it is printed.
fn session_said(alloc: Global, word: &str) -> Result<u64, Ending>
    ensures said { IfOk result (SaysSession (Some word.now)) }
    ensures refused { IfErr result (SaysNone (Some word.now)) }
{
    let Ok(session) = word.parse::<u64>() else {
        return Err(Ending::Usage);
    };
    let printed = format!(in alloc; "{session}")?;
    if printed.as_str() == word {
        Ok(session)
    } else {
        Err(Ending::Usage)
    }
}

/// The session that a word says, as that of a node's joining: a whole number below 2^64 in decimal, without a sign, and without zeros before it
/// but for `0` itself; 0 without a word. `Usage` where the word says none, and `Memory` where an allocation was refused. This profile's own.
pub fn asked_session(alloc: Global, word: Option<&str>) -> Result<u64, Ending>
    ensures said { IfOk result (SaysSession (option_map (λ text. text.now) word.entry)) }
    ensures refused { IfErr result (SaysNone (option_map (λ text. text.now) word.entry)) }
{
    match word {
        Some(word) => session_said(alloc, word),
        None => Ok(0),
    }
}

impl AskedPlugin {
    /// The controller plugin under the configuration that these bytes say, in the format of a schedule's `config`. `NotUtf8` where
    /// they are no UTF-8, `ConfigRefused` where they are and say none, and `Memory` where an allocation was refused.
    pub fn of_config(alloc: Global, input: &[u8]) -> Result<AskedPlugin, Ending>
        ensures made { IfOk result (IsOfConfig input.now) }
        ensures refused { IfErr result (IsNoConfig input.now) }
    {
        let Ok(text) = str::from_utf8(input) else {
            return Err(Ending::NotUtf8);
        };
        match read_config(alloc, text) {
            Ok(config) => Ok(AskedPlugin::Controller(config)),
            Err(ScheduleFault::NoMemory) => Err(Ending::Memory),
            Err(_) => Err(Ending::ConfigRefused),
        }
    }

    /// The plugin of the node that has this id and joined with the session that the word says (`asked_session`). `Usage` where the word says
    /// none, `ConfigRefused` where a node can't have this id, and `Memory` where an allocation was refused.
    pub fn of_id(alloc: Global, id: &str, word: Option<&str>) -> Result<AskedPlugin, Ending>
        ensures made { IfOk result (IsOfId id.now (option_map (λ text. text.now) word.entry)) }
        ensures refused { IfErr result (IsNoId id.now (option_map (λ text. text.now) word.entry)) }
    {
        let session = asked_session(alloc, word)?;
        match NodeId::try_new(alloc, id) {
            Ok(id) => Ok(AskedPlugin::Node { id, session }),
            Err(TextFault::NoMemory) => Err(Ending::Memory),
            Err(_) => Err(Ending::ConfigRefused),
        }
    }

    /// The ending where its store can't be opened, for this cause, as `ending_unopened` says; the plugin is let go.
    pub fn unopened(self, fault: KeepFault) -> Ending
        ensures { result ≡ by_opening fault }
    {
        ending_unopened(fault)
    }
}
