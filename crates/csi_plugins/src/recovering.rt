//! An orchestrator's store, made of what the plugins' stores have.
ghost use Rattle.std.specs.Prelude.{◌≡◌, map, length, IfOk, IfErr, OnOk, OnErr, string_bytes};
ghost use Rattle.csi_plugins.specs.Public.Recording.{written_by};
ghost use Rattle.csi_plugins.specs.Public.Recovering.{AreInTurn, AllChange, AreUnchanged, IsNotBegun, Recovers};
ghost use Rattle.csi_plugins.specs.Private.Recovering.{changes_of, AreGivenTo, AreAllGiven, IsCommitEnd, IsReady};

use crate::ending::ending_of_store;
use crate::given::{controller_in, look_at_new, nodes_in};
use crate::planning::{Plan, planned};
use csi_service::{Keep, KeepFault, Part};
use csi_stores::{Counted, write_out};
use csi_streams::Ending;
use csi_types::NodeId;
use std::alloc::Global;
use std::io::Write;

/// What a recovery is asked for with: the nodes of the new orchestrator, and the greatest session that is known of the lost one, 0 where none
/// is. This profile's own.
#[derive(Drop)]
pub struct Recovery {
    pub nodes: Vec<NodeId>,
    pub known: u64,
}

// Reads all stores, and makes what they are to be given.
fn made<K: Keep>(
    alloc: Global,
    asked: Recovery,
    new: &mut K,
    controller: &mut K,
    nodes: &mut [K],
) -> Result<Plan, Ending>
    ensures ready { IfOk result (λ plan. IsReady K.store asked.nodes.items asked.known
        (record { new = new.old; controller = controller.old; nodes = nodes.old }) (record { new = new.new; controller = controller.new; nodes = nodes.new })
        (map changes_of plan.nodes.items) (changes_of plan.controller) (changes_of plan.new) (string_bytes plan.line)) }
    ensures refused { IfErr result (IsNotBegun K.store asked.nodes.items asked.known
        (record { new = new.old; controller = controller.old; nodes = nodes.old }) (record { new = new.new; controller = controller.new; nodes = nodes.new })) }
    ensures unchanged { AreUnchanged K.store
        (record { new = new.old; controller = controller.old; nodes = nodes.old }) (record { new = new.new; controller = controller.new; nodes = nodes.new }) }
{
    let Recovery {
        nodes: listed,
        known,
    } = asked;
    match look_at_new(new) {
        Ok(()) => {}
        Err(ending) => return Err(ending),
    }
    let read = match controller_in(alloc, controller) {
        Ok(read) => read,
        Err(ending) => return Err(ending),
    };
    match nodes_in(alloc, nodes) {
        Ok(given) => planned(alloc, listed, known, read, given),
        Err(ending) => Err(ending),
    }
}

// Gives each node's store its parts, in order, until one refuses.
fn raise_nodes<K: Keep>(nodes: &mut [K], changes: &[Vec<Part>]) -> Result<(), KeepFault>
    requires { length changes.now ≡ length nodes.old }
    ensures done { OnOk result (AreGivenTo K.store nodes.old nodes.new (map changes_of changes.now) AllChange) }
    ensures stopped { OnErr result (AreGivenTo K.store nodes.old nodes.new (map changes_of changes.now) AreInTurn) }
    ensures cause { IfErr result IsCommitEnd }
{
    for (index, keep) in nodes.iter_mut().enumerate() {
        match keep.commit(&changes[index]) {
            Ok(()) => {}
            Err(fault) => return Err(fault),
        }
    }
    Ok(())
}

// Gives each store its parts: the nodes', the controller's and then the new one.
fn carry_out<K: Keep>(
    plan: &Plan,
    new: &mut K,
    controller: &mut K,
    nodes: &mut [K],
) -> Result<(), KeepFault>
    requires { length plan.now.nodes.items ≡ length nodes.old }
    ensures done { OnOk result (AreAllGiven K.store
        (record { new = new.old; controller = controller.old; nodes = nodes.old }) (record { new = new.new; controller = controller.new; nodes = nodes.new })
        (map changes_of plan.now.nodes.items) (changes_of plan.now.controller) (changes_of plan.now.new) AllChange) }
    ensures stopped { OnErr result (AreAllGiven K.store
        (record { new = new.old; controller = controller.old; nodes = nodes.old }) (record { new = new.new; controller = controller.new; nodes = nodes.new })
        (map changes_of plan.now.nodes.items) (changes_of plan.now.controller) (changes_of plan.now.new) AreInTurn) }
    ensures cause { IfErr result IsCommitEnd }
{
    match raise_nodes(nodes, &plan.nodes) {
        Ok(()) => {}
        Err(fault) => return Err(fault),
    }
    match controller.commit(&plan.controller) {
        Ok(()) => {}
        Err(fault) => return Err(fault),
    }
    match new.commit(&plan.new) {
        Ok(()) => Ok(()),
        Err(fault) => Err(fault),
    }
}

/// Makes the store of a new orchestrator, where the old one's was lost, of the controller's store and of those of the given nodes, while nothing
/// else uses them, and writes what it made as one line of JSON, with a newline, and flushes. A node whose store isn't given is lost, as at
/// `lose`. The session is `SESSIONS_ABOVE` more than `asked.known` and all that the stores have.
///
/// All stores are read and judged first, and what each is to get is made, with the line; nothing is changed where that is refused: with
/// `StoreNotNew` where the new store has anything; `StoreFault` with the first part that is none of its plugin's record, and the place of
/// the store among the words, the controller's 1 and the first node's 2; `NumbersSpent`; `StoresDisagree` where two stores are of one
/// node, or a node's disagrees with the controller's (`recovered`), with the place of the later one, and where a volume is staged and
/// published nowhere at two nodes, with that of the second; `NodeInUse` where the nodes leave out one with something staged; `ConfigRefused` for
/// more than 64 nodes or one that stands there twice; `Device` where a store failed, and `Memory`.
///
/// Then each store gets its parts in one commit: the nodes' in order, so that the session is raised there, then the controller's, and then the
/// new one. Where one refuses (`Device`, also for a store that is full, or `Memory`) the later ones stay as they are; the recovery may be done
/// again, and is in a later session then. `Device` says too that the writer failed, once all stores are changed: a front of the line is
/// written then. This profile's own.
pub fn recover<K: Keep, W: Write>(
    alloc: Global,
    asked: Recovery,
    new: &mut K,
    controller: &mut K,
    nodes: &mut [K],
    out: &mut Counted<W>,
) -> Ending
    ensures { Recovers K.store asked.nodes.items asked.known
        (record { new = new.old; controller = controller.old; nodes = nodes.old }) (record { new = new.new; controller = controller.new; nodes = nodes.new })
        (written_by W.contents out.old) (written_by W.contents out.new) result }
{
    let plan = match made(alloc, asked, new, controller, nodes) {
        Ok(plan) => plan,
        Err(ending) => return ending,
    };
    match carry_out(&plan, new, controller, nodes) {
        Ok(()) => {}
        Err(fault) => return ending_of_store(fault),
    }
    match write_out(out, plan.line.as_bytes()) {
        Ok(()) => Ending::Done,
        Err(_) => Ending::Device,
    }
}
