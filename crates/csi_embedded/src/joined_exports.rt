//! What a C program calls for a node that joins with a session, as `include/tufayon.h` declares it.
ghost use Rattle.csi_embedded.specs.Public.Making.{Makes, IsNewNode, IsReadNode, EndsDone, IsNoId, IsNoReadNode};

use crate::ending::CallEnding;
use crate::exports::put;
use crate::handle::Handle;
use crate::making::{new_node, read_node};
use std::alloc::Global;

/// A new node of this id that joins with this session: calls of earlier sessions are stale to it. The handle has to be empty. What the store has to
/// be given then is the node's record.
#[unsafe(no_mangle)]
pub extern "C" fn tufayon_node_joined(
    alloc: Global,
    id: &[u8],
    session: u64,
    plugin: &mut Handle,
) -> u32
    ensures { Makes (λ made ending. IsNewNode id.now session made × EndsDone ending) (IsNoId id.now) plugin.old.held.embedded plugin.new.held.embedded result }
{
    if plugin.is_full() {
        return CallEnding::Full.number();
    }
    put(alloc, plugin, new_node(alloc, id, session))
}

/// The node of this id, which joined with this session, of its whole record, in any version, as `tufayon_node_from_record` says. The session is a
/// check, and changes nothing: a record of an earlier one is a lost node's, and refused (`EarlierSession`).
#[unsafe(no_mangle)]
pub extern "C" fn tufayon_node_joined_from_record(
    alloc: Global,
    id: &[u8],
    session: u64,
    bytes: &[u8],
    plugin: &mut Handle,
) -> u32
    ensures { Makes (IsReadNode id.now session bytes.now) (IsNoReadNode id.now session bytes.now) plugin.old.held.embedded plugin.new.held.embedded result }
{
    if plugin.is_full() {
        return CallEnding::Full.number();
    }
    put(alloc, plugin, read_node(alloc, id, session, bytes))
}
