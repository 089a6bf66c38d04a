//! An orchestrator that is told that a node is lost.
ghost use Rattle.csi_embedded.specs.Public.Losing.{LosesOne};
ghost use Rattle.csi_embedded.specs.Private.Losing.{LosesRead};

use crate::embedded::Embedded;
use crate::ending::CallEnding;
use crate::sending::refuse;
use csi_types::NodeId;

// Takes the node as lost.
fn lose_node(embedded: &mut Embedded, node: &NodeId, fault: &mut u32) -> CallEnding
    ensures { LosesOne node.now embedded.old embedded.new fault.new result }
{
    if !embedded.is_orchestrator() {
        return CallEnding::OtherKind;
    }
    let Ok(()) = embedded.tell() else {
        return CallEnding::NoMemory;
    };
    match embedded.lose(node) {
        Ok(()) => CallEnding::Done,
        Err(why) => refuse(why, fault),
    }
}

/// Takes the node as lost whose id was read, if one was.
pub(crate) fn lose_read(
    embedded: &mut Embedded,
    node: Result<NodeId, CallEnding>,
    fault: &mut u32,
) -> CallEnding
    ensures { LosesRead node embedded.old embedded.new fault.new result }
{
    match node {
        Ok(node) => lose_node(embedded, &node, fault),
        Err(ending) => ending,
    }
}
