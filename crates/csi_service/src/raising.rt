//! A session, raised in a plugin that is at rest and in its store.
ghost use Rattle.std.specs.Prelude.{◌≡◌, ◌≤◌, ◌⊎◌, map, IfOk, IfErr, OnOk, OnErr};
ghost use Rattle.csi_stores.specs.Public.Content.{all_changed};
ghost use Rattle.csi_stores.specs.Public.Part.{part_change};
ghost use Rattle.csi_stores.specs.Public.Stores.{FollowsStore, LeavesOnly, LeavesEither, IsContentRefusal};
ghost use Rattle.csi_service.specs.Public.Plugins.{record_parts, service_parts};
ghost use Rattle.csi_service.specs.Public.Raising.{raised_parts, raise_changes, IsRaised};

use crate::changed::forgotten;
use crate::opening::head_part;
use crate::plugin::Plugin;
use crate::plugin_service::PluginService;
use csi_records::push_removals;
use csi_stores::{Keep, KeepFault, Part};
use csi_types::{NoMemory, Number};
use std::alloc::Global;

/// What a plugin's store has to be given where this session is raised in the plugin: the head, and what takes out the rows that are forgotten
/// then; nothing where the session isn't later than the greatest that came.
pub(crate) fn raising_parts<P: Plugin>(
    alloc: Global,
    plugin: &P,
    session: u64,
) -> Result<Vec<Part>, NoMemory>
    ensures parts { IfOk result (λ parts. map part_change parts.items ≡ raise_changes P.view session plugin.now) }
    ensures leads { OnOk result (all_changed (raise_changes P.view session plugin.now) (record_parts P.view plugin.now) ≡ raised_parts P.view session plugin.now) }
{
    plugin.plugin_law();
    if session <= plugin.numbers().1 {
        return Ok(Vec::new(alloc));
    }
    let gone = forgotten(alloc, plugin, Number { session, call: 0 })?;
    let value = plugin.head_value(alloc, session)?;
    let mut parts = head_part(alloc, value)?;
    push_removals(&mut parts, &gone)?;
    Ok(parts)
}

/// Raises the session in a plugin and in the store that has its record, while nothing else uses the store: where it is later than the greatest
/// that came, it begins as if a call had begun it. Every call of an earlier session is stale from then on, the head gets the session, and
/// empty rows are forgotten, in one commit; else nothing is changed. All memory is asked for before anything is changed, but for what the
/// store's commit wants. A refusal is one of memory, or the commit's: what is left then is what was there, or what it would commit; open the
/// store again. This profile's own.
pub fn raise<P: Plugin, K: Keep>(
    service: &mut PluginService<P>,
    session: u64,
    keep: &mut K,
) -> Result<(), KeepFault>
    ensures raised { OnOk result (IsRaised P.view session service.old.plugin service.new.plugin) }
    ensures kept { OnOk result (LeavesOnly (K.store keep.old) (K.store keep.new) (service_parts P.view service.old) (service_parts P.view service.new)) }
    // nothing is committed where the session isn't later
    ensures no_later { session ≤ (P.view.numbers service.old.plugin).1 → keep.new ≡ keep.old }
    ensures cause { IfErr result (IsContentRefusal (K.store keep.old) (K.store keep.new) (service_parts P.view service.old) (raised_parts P.view session service.old.plugin)) }
    ensures left { OnErr result (LeavesEither (K.store keep.old) (K.store keep.new) (service_parts P.view service.old)
        (service_parts P.view service.old) (raised_parts P.view session service.old.plugin)) }
    ensures plugin { OnErr result ((service.new.plugin ≡ service.old.plugin) ⊎ IsRaised P.view session service.old.plugin service.new.plugin) }
    ensures follows { FollowsStore (K.store keep.old) (K.store keep.new) }
{
    let parts = match service.raise(session) {
        Ok(parts) => parts,
        Err(NoMemory) => return Err(KeepFault::NoMemory),
    };
    if parts.is_empty() {
        return Ok(());
    }
    match keep.commit(&parts) {
        Ok(()) => Ok(()),
        Err(fault) => Err(fault),
    }
}
