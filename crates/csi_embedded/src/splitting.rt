//! The frame that bytes begin with, answered as it is lent.
ghost use Rattle.std.specs.Prelude.{◌≡◌, ◌≤◌, ◌+◌, [], None, false, length, IfOk, OnOk, OnErr};
ghost use Rattle.csi_stores.specs.Public.Content.{all_changed};
ghost use Rattle.csi_embedded.specs.Private.Calls.{AnswersFirst};
ghost use Rattle.csi_embedded.specs.Public.Plugins.{plugin_parts, plugin_changes, is_orchestrator, IsAsItWas};

use crate::ending::CallEnding;
use crate::plugin::HeldPlugin;
use csi_frames::Splitter;
use csi_types::NoMemory;
use std::alloc::Global;

/// A splitter that keeps nothing, with these bytes.
pub(crate) fn fed(splitter: Splitter, bytes: &[u8]) -> Result<Splitter, NoMemory>
    requires unused { splitter.kept ≡ [] }
    requires clear { splitter.fault ≡ None }
    ensures kept { IfOk result (λ splitter. splitter.kept ≡ bytes.now) }
    ensures clear { IfOk result (λ splitter. splitter.fault ≡ None) }
{
    let mut splitter = splitter;
    splitter.feed(bytes)?;
    Ok(splitter)
}

/// The splitter that is used next: this one where nothing is left in it. It takes no memory.
pub(crate) fn used_again(alloc: Global, splitter: Splitter, left: usize) -> Splitter
    requires left { left ≡ length splitter.kept }
    requires clear { splitter.fault ≡ None }
    ensures unused { result.kept ≡ [] }
    ensures clear { result.fault ≡ None }
{
    if left > 0 {
        return Splitter::new(alloc);
    }
    splitter
}

/// Answers the frame that the splitter's bytes begin with, and appends the bytes of its reply, if it has one.
pub(crate) fn answer_next(
    splitter: &mut Splitter,
    plugin: &mut HeldPlugin,
    reply: &mut Vec<u8>,
) -> Result<(), CallEnding>
    requires clear { splitter.old.fault ≡ None }
    requires kind { is_orchestrator plugin.old ≡ false }
    ensures answered { AnswersFirst plugin.old splitter.old.kept plugin.new splitter.new.kept reply.old.items reply.new.items result }
    ensures few { OnOk result (length reply.new.items ≤ length reply.old.items + 544) }
    ensures clear { OnOk result (splitter.new.fault ≡ None) }
    ensures parts { OnOk result (plugin_parts plugin.new ≡ all_changed (plugin_changes plugin.new) (plugin_parts plugin.old)) }
    ensures err { OnErr result (IsAsItWas plugin.old plugin.new) }
{
    match splitter.next() {
        Ok(Some(frame)) => {
            plugin.answer_into(&frame, reply)?;
            Ok(())
        }
        Ok(None) => Err(CallEnding::Short),
        Err(_fault) => Err(CallEnding::BadFrame),
    }
}
