//! The entries of a row: where they stand, and how they are marked, tidied and added.
ghost use Rattle.std.specs.Prelude.{◌≡◌, map, find, position, Some};
ghost use Rattle.csi_types.specs.Model.Same.{same_text};
ghost use Rattle.csi_orchestrator.specs.Public.Shown.{node_entry_shown};
ghost use Rattle.csi_orchestrator.specs.Private.RowChanges.{Becomes, aspect_of, marked_at, target_marked};
ghost use Rattle.csi_orchestrator.specs.Private.RowChanges.{is_target_kept as is_kept_target, is_node_kept as is_kept_shown};
ghost use Rattle.csi_orchestrator.specs.Private.RowChanges.{with_kept_targets, tidied_entries, with_target, entry_for};
ghost use Rattle.csi_orchestrator.specs.Private.Keyed.{put_by};

use crate::request::Usage;
use crate::row::{NodeEntry, TargetEntry};
use crate::thing::Known;
use csi_types::{Kind, NoMemory, NodeId, Target};
use std::alloc::Global;

/// Where the entry of this node stands.
pub(crate) fn node_index(entries: &[NodeEntry], node: &NodeId) -> Option<usize>
    ensures { result ≡ position (λ entry. same_text entry.node node.now) entries.now }
{
    for (index, entry) in entries.iter().enumerate() {
        if entry.node == *node {
            return Some(index);
        }
    }
    None
}

/// Where the entry of this target stands.
pub(crate) fn target_index(target_entries: &[TargetEntry], target: &Target) -> Option<usize>
    ensures { result ≡ position (λ target_entry. same_text target_entry.target target.now) target_entries.now }
{
    for (index, target_entry) in target_entries.iter().enumerate() {
        if target_entry.target == *target {
            return Some(index);
        }
    }
    None
}

// Marks whether it is published at the target, if the target has an entry.
fn mark_target(target_entries: &mut Vec<TargetEntry>, target: &Target, known: Known)
    ensures { target_entries.new.items ≡ target_marked known target.now target_entries.old.items }
{
    if let Some(index) = target_index(target_entries, target) {
        target_entries[index].published = known;
    }
}

/// Marks what a call of this kind does or undoes at the node and the target, if the node has an entry.
pub(crate) fn mark_at(
    entries: &mut Vec<NodeEntry>,
    node: &NodeId,
    target: &Target,
    kind: Kind,
    known: Known,
)
    ensures { map node_entry_shown entries.new.items ≡ marked_at known (aspect_of kind) node.now target.now (map node_entry_shown entries.old.items) }
{
    if let Some(index) = node_index(entries, node) {
        let entry = &mut entries[index];
        match kind {
            Kind::CreateVolume | Kind::DeleteVolume => {}
            Kind::ControllerPublishVolume | Kind::ControllerUnpublishVolume => {
                entry.attached = known;
            }
            Kind::NodeStageVolume | Kind::NodeUnstageVolume => entry.staged = known,
            Kind::NodePublishVolume | Kind::NodeUnpublishVolume => {
                mark_target(&mut entry.target_entries, target, known);
            }
        }
    }
}

// Whether the volume may be published at the target.
fn is_target_kept(target_entry: &TargetEntry) -> bool
    ensures { result ≡ is_kept_target target_entry.now }
{
    !target_entry.published.is_no()
}

// Whether the volume may be attached, staged or published at the node.
fn is_node_kept(entry: &NodeEntry) -> bool
    ensures { result ≡ is_kept_shown (node_entry_shown entry.now) }
{
    !(entry.attached.is_no() && entry.staged.is_no() && entry.target_entries.is_empty())
}

// Keeps the targets at which the volume may be published, at every node.
fn keep_targets(entries: &mut Vec<NodeEntry>)
    ensures { map node_entry_shown entries.new.items ≡ map with_kept_targets (map node_entry_shown entries.old.items) }
{
    for entry in entries.iter_mut() {
        entry.target_entries.retain(is_target_kept);
    }
}

/// Keeps the entries of which something may be so.
pub(crate) fn tidy(entries: &mut Vec<NodeEntry>)
    ensures { map node_entry_shown entries.new.items ≡ tidied_entries (map node_entry_shown entries.old.items) }
{
    keep_targets(entries);
    entries.retain(is_node_kept);
}

// Adds the target, unless it has an entry. A refusal changes nothing.
fn add_target(target_entries: &mut Vec<TargetEntry>, target: &Target) -> Result<(), NoMemory>
    ensures { Becomes (with_target target.now target_entries.old.items) target_entries.old.items target_entries.new.items result }
{
    if target_index(target_entries, target).is_some() {
        return Ok(());
    }
    let target = target.clone()?;
    target_entries.push(TargetEntry {
        target,
        published: Known::No,
    })?;
    Ok(())
}

// Adds what the entry of its node lacks for a use. A refusal changes nothing.
fn add_to(entry: &mut NodeEntry, usage: &Usage) -> Result<(), NoMemory>
    ensures { Becomes (entry_for usage.now (Some (node_entry_shown entry.old))) (node_entry_shown entry.old) (node_entry_shown entry.new) result }
{
    if !entry.attached.is_no() {
        return add_target(&mut entry.target_entries, &usage.target);
    }
    let capability = usage.capability.clone()?;
    add_target(&mut entry.target_entries, &usage.target)?;
    entry.capability = capability;
    entry.readonly = usage.readonly;
    Ok(())
}

/// Adds an entry for a use: a new one, or what the one of its node lacks. A refusal changes nothing.
pub(crate) fn add_node(
    alloc: Global,
    entries: &mut Vec<NodeEntry>,
    usage: &Usage,
) -> Result<(), NoMemory>
    ensures { Becomes (put_by (λ entry. entry.node)
        (entry_for usage.now (find (λ entry. same_text entry.node usage.now.node) (map node_entry_shown entries.old.items)))
        (map node_entry_shown entries.old.items)) (map node_entry_shown entries.old.items) (map node_entry_shown entries.new.items) result }
{
    match node_index(entries, &usage.node) {
        Some(index) => add_to(&mut entries[index], usage),
        None => {
            let mut target_entries = Vec::new(alloc);
            add_target(&mut target_entries, &usage.target)?;
            let node = usage.node.clone()?;
            let capability = usage.capability.clone()?;
            entries.push(NodeEntry {
                node,
                capability,
                readonly: usage.readonly,
                attached: Known::No,
                staged: Known::No,
                target_entries,
            })?;
            Ok(())
        }
    }
}
