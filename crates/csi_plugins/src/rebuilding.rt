//! A controller's store, made of what the orchestrator's has.
ghost use Rattle.std.specs.Prelude.{map, IfOk, IfErr, OnOk, OnErr, string_bytes};
ghost use Rattle.csi_stores.specs.Public.Part.{part_change};
ghost use Rattle.csi_plugins.specs.Public.Recording.{written_by};
ghost use Rattle.csi_plugins.specs.Public.Recovering.{IsUnchanged};
ghost use Rattle.csi_plugins.specs.Public.Recovering.Fate.{MayChange, Changes};
ghost use Rattle.csi_plugins.specs.Public.Rebuilding.{AreKept, IsNoRebuilding, IsNotMade, Rebuilds};
ghost use Rattle.csi_plugins.specs.Private.Recovering.{changes_of, IsGiven, IsCommitEnd};
ghost use Rattle.csi_plugins.specs.Private.Rebuilding.{IsRebuildingPlan, IsRebuildingReady, IsRebuildingText};

use crate::ending::ending_of_store;
use crate::given::{look_at_new, nodes_in, orchestrator_in};
use crate::rejudging::judged_again;
use csi_controller::ControllerRecord;
use csi_node::NodeRecord;
use csi_orchestrator::OrchestratorRecord;
use csi_records::Record;
use csi_reports::rebuilding_line;
use csi_service::{Keep, KeepFault, Part};
use csi_stores::{Counted, write_out};
use csi_streams::Ending;
use csi_types::NoMemory;
use std::alloc::Global;
use std::io::Write;

// What the new store is to be given, and the line that tells it then.
#[derive(Drop)]
struct Rebuilding {
    new: Vec<Part>,
    line: String,
}

// The line that tells what is made.
fn line_of(
    alloc: Global,
    kept: &OrchestratorRecord,
    made: &ControllerRecord,
) -> Result<String, NoMemory>
    ensures { IfOk result (λ text. IsRebuildingText kept.now made.now (string_bytes text)) }
{
    let mut line = rebuilding_line(alloc, kept, made)?;
    line.push_str("\n")?;
    Ok(line)
}

// What is to be done where these records were read.
fn planned(
    alloc: Global,
    next_id: u64,
    kept: &OrchestratorRecord,
    given: &[NodeRecord],
) -> Result<Rebuilding, Ending>
    ensures planned { IfOk result (λ plan. IsRebuildingPlan next_id kept.now given.now (changes_of plan.new) (string_bytes plan.line)) }
    ensures refused { IfErr result (IsNoRebuilding next_id kept.now given.now) }
{
    let made = judged_again(alloc, next_id, kept, given)?;
    let new = made.to_parts(alloc)?;
    let line = line_of(alloc, kept, &made)?;
    Ok(Rebuilding { new, line })
}

// Reads all stores, and makes what the new one is to be given.
fn made<K: Keep>(
    alloc: Global,
    next_id: u64,
    new: &mut K,
    orchestrator: &mut K,
    nodes: &mut [K],
) -> Result<Rebuilding, Ending>
    ensures ready { IfOk result (λ plan. IsRebuildingReady K.store next_id
        (record { new = new.old; orchestrator = orchestrator.old; nodes = nodes.old }) (record { new = new.new; orchestrator = orchestrator.new; nodes = nodes.new })
        (changes_of plan.new) (string_bytes plan.line)) }
    ensures refused { IfErr result (IsNotMade K.store next_id
        (record { new = new.old; orchestrator = orchestrator.old; nodes = nodes.old }) (record { new = new.new; orchestrator = orchestrator.new; nodes = nodes.new })) }
    ensures kept { AreKept K.store
        (record { new = new.old; orchestrator = orchestrator.old; nodes = nodes.old }) (record { new = new.new; orchestrator = orchestrator.new; nodes = nodes.new }) }
    ensures unchanged { IsUnchanged (K.store new.old) (K.store new.new) }
{
    match look_at_new(new) {
        Ok(()) => {}
        Err(ending) => return Err(ending),
    }
    let kept = match orchestrator_in(alloc, orchestrator) {
        Ok(kept) => kept,
        Err(ending) => return Err(ending),
    };
    match nodes_in(alloc, nodes) {
        Ok(given) => planned(alloc, next_id, &kept, &given.kept),
        Err(ending) => Err(ending),
    }
}

// Gives the new store its parts.
fn give<K: Keep>(new: &mut K, parts: &[Part]) -> Result<(), KeepFault>
    ensures done { OnOk result (IsGiven Changes (K.store new.old) (K.store new.new) (map part_change parts.now)) }
    ensures stopped { OnErr result (IsGiven MayChange (K.store new.old) (K.store new.new) (map part_change parts.now)) }
    ensures cause { IfErr result IsCommitEnd }
{
    match new.commit(parts) {
        Ok(()) => Ok(()),
        Err(fault) => Err(fault),
    }
}

/// Makes the store of a new controller, where the old one's was lost, of the orchestrator's store, while nothing else uses it, and writes what it
/// made as one line of JSON, with a newline, and flushes. `next_id` has to be above each id that the lost controller gave. The stores of nodes are
/// only held against what is made; none has to be given.
///
/// All stores are read and judged first, and what the new one is to get is made, with the line; nothing is changed where that is refused: with
/// `StoreNotNew` where the new store has anything; `StoreFault` with the first part that is none of its record, and the place of the store among
/// the words, the orchestrator's 1 and the first node's 2; `NumbersSpent` where no session is after the orchestrator's; `IdTaken` where `next_id` is
/// 0, or isn't above an id that the orchestrator knows; `StoreFault` of a volume that no controller can have (`rebuilt`), and 1; `StoresDisagree` where two stores
/// are of one node, or a node's disagrees with what is made (`first_unlike`), with the place of the later one; `OlderStore` where a node heard
/// of a later session than the orchestrator's; `Device` where a store failed, and `Memory`.
///
/// Then the new store gets its parts in one commit, and no other store is changed. Where it refuses (`Device`, also for a store that is full, or
/// `Memory`) it may be done again. `Device` says too that the writer failed, once the store is made: a front of the line is written then. This
/// profile's own.
pub fn rebuild<K: Keep, W: Write>(
    alloc: Global,
    next_id: u64,
    new: &mut K,
    orchestrator: &mut K,
    nodes: &mut [K],
    out: &mut Counted<W>,
) -> Ending
    ensures { Rebuilds K.store next_id
        (record { new = new.old; orchestrator = orchestrator.old; nodes = nodes.old }) (record { new = new.new; orchestrator = orchestrator.new; nodes = nodes.new })
        (written_by W.contents out.old) (written_by W.contents out.new) result }
{
    let plan = match made(alloc, next_id, new, orchestrator, nodes) {
        Ok(plan) => plan,
        Err(ending) => return ending,
    };
    match give(new, &plan.new) {
        Ok(()) => {}
        Err(fault) => return ending_of_store(fault),
    }
    match write_out(out, plan.line.as_bytes()) {
        Ok(()) => Ending::Done,
        Err(_) => Ending::Device,
    }
}
