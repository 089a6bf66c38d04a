//! What is staged and published, node by node.
ghost use Rattle.std.specs.Prelude.{◌≡◌, ◌++◌, IfOk, OnOk};
ghost use Rattle.std.specs.List.{flat_map};
ghost use Rattle.csi_controller.specs.Public.Views.{attached_holdings};
ghost use Rattle.csi_reports.specs.Public.Listed.{staged_on, published_on};
ghost use Rattle.csi_reports.specs.Public.Order.{attached_place, staged_place, published_place, IsInPlace};

use crate::entries::{PublishedAt, StagedAt};
use crate::order::put_in_place;
use csi_controller::Controller;
use csi_node::Node;
use csi_types::{Holding, NoMemory};
use std::alloc::Global;

// Appends what the node has staged.
fn add_staged(list: &mut Vec<StagedAt>, node: &Node) -> Result<(), NoMemory>
    ensures { OnOk result (list.new.items ≡ list.old.items ++ staged_on node.now) }
{
    let Ok(staged) = node.staged() else {
        return Err(NoMemory);
    };
    for volume in &staged {
        let here = node.id().clone()?;
        list.push(StagedAt {
            id: volume.id,
            node: here,
            mode: volume.capability.mode,
        })?;
    }
    Ok(())
}

// Appends what the node has published.
fn add_published(list: &mut Vec<PublishedAt>, node: &Node) -> Result<(), NoMemory>
    ensures { OnOk result (list.new.items ≡ list.old.items ++ published_on node.now) }
{
    let Ok(published) = node.published() else {
        return Err(NoMemory);
    };
    for volume in &published {
        let here = node.id().clone()?;
        let target = volume.target.clone()?;
        list.push(PublishedAt {
            id: volume.id,
            node: here,
            target,
            readonly: volume.readonly,
        })?;
    }
    Ok(())
}

/// What the controller has attached, in place.
pub fn attached(controller: &Controller) -> Result<Vec<Holding>, NoMemory>
    ensures { IfOk result (λ list. IsInPlace attached_place (attached_holdings (controller.now).rows) list.items) }
{
    let Ok(mut list) = controller.attachments() else {
        return Err(NoMemory);
    };
    put_in_place(&mut list);
    Ok(list)
}

/// What these nodes have staged, in place.
pub fn staged(alloc: Global, nodes: &[Node]) -> Result<Vec<StagedAt>, NoMemory>
    ensures { IfOk result (λ list. IsInPlace staged_place (flat_map staged_on nodes.now) list.items) }
{
    let mut list = Vec::new(alloc);
    for node in nodes {
        add_staged(&mut list, node)?;
    }
    put_in_place(&mut list);
    Ok(list)
}

/// What these nodes have published, in place.
pub fn published(alloc: Global, nodes: &[Node]) -> Result<Vec<PublishedAt>, NoMemory>
    ensures { IfOk result (λ list. IsInPlace published_place (flat_map published_on nodes.now) list.items) }
{
    let mut list = Vec::new(alloc);
    for node in nodes {
        add_published(&mut list, node)?;
    }
    put_in_place(&mut list);
    Ok(list)
}
