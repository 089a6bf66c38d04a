//! The stores that a recovery reads.
ghost use Rattle.std.specs.Prelude.{◌≡◌, ◌∷◌, ◌++◌, [], map, IfOk, IfErr, OnOk};
ghost use Rattle.std.specs.List.{AllZip};
ghost use Rattle.csi_service.specs.Public.Opening.{controller_records};
ghost use Rattle.csi_service.specs.Public.Renewed.{any_node_records};
ghost use Rattle.csi_plugins.specs.Public.Rebuilding.{orchestrator_records};
ghost use Rattle.csi_plugins.specs.Public.Recovering.{IsUnchanged};
ghost use Rattle.csi_plugins.specs.Private.Rebuilding.{HasReadRecord};
ghost use Rattle.csi_plugins.specs.Private.Recovering.{ending_at as ended_at, ending_of_new as ended_new, changes_of, HasRead, IsNotRead, HaveRead, IsOneNotRead, IsNew, IsNotNew};

use crate::ending::ending_of_store;
use csi_controller::ControllerRecord;
use csi_node::NodeRecord;
use csi_orchestrator::OrchestratorRecord;
use csi_records::{Record, Stored};
use csi_service::{Keep, KeepFault, Part, Renewed, renewed_controller, renewed_node};
use csi_streams::Ending;
use csi_types::NoMemory;
use std::alloc::Global;

/// The records of the given nodes, in the order of their stores, and what each store has to be given so that it has its record in the present
/// version.
#[derive(Drop)]
pub(crate) struct GivenNodes {
    pub kept: Vec<NodeRecord>,
    pub renewals: Vec<Vec<Part>>,
}

// The ending where the store at this place among the words refuses so.
fn ending_at(fault: KeepFault, store: u64) -> Ending
    ensures { result ≡ ended_at fault store }
{
    match fault {
        KeepFault::BadRecord(place) => Ending::StoreFault(place, store),
        other => ending_of_store(other),
    }
}

/// The controller's record.
pub(crate) fn controller_in<K: Keep>(
    alloc: Global,
    keep: &mut K,
) -> Result<Renewed<ControllerRecord>, Ending>
    ensures read { IfOk result (λ read. HasRead controller_records (K.store keep.old) (K.store keep.new) read.kept (changes_of read.renewal)) }
    ensures refused { IfErr result (IsNotRead controller_records (K.store keep.old) (K.store keep.new) 1) }
    ensures unchanged { IsUnchanged (K.store keep.old) (K.store keep.new) }
{
    let parts = match keep.load() {
        Ok(parts) => parts,
        Err(fault) => return Err(ending_at(fault, 1)),
    };
    match renewed_controller(alloc, &parts) {
        Ok(read) => Ok(read),
        Err(stop) => Err(ending_at(KeepFault::from(stop), 1)),
    }
}

/// The orchestrator's record.
pub(crate) fn orchestrator_in<K: Keep>(
    alloc: Global,
    keep: &mut K,
) -> Result<OrchestratorRecord, Ending>
    ensures read { IfOk result (λ kept. HasReadRecord orchestrator_records (K.store keep.old) (K.store keep.new) kept) }
    ensures refused { IfErr result (IsNotRead orchestrator_records (K.store keep.old) (K.store keep.new) 1) }
    ensures unchanged { IsUnchanged (K.store keep.old) (K.store keep.new) }
{
    let parts = match keep.load() {
        Ok(parts) => parts,
        Err(fault) => return Err(ending_at(fault, 1)),
    };
    match OrchestratorRecord::of_parts(alloc, &parts) {
        Ok(Stored { kept, .. }) => Ok(kept),
        Err(stop) => Err(ending_at(KeepFault::from(stop), 1)),
    }
}

// The record of the node whose store is at this place among the words.
fn node_in<K: Keep>(alloc: Global, keep: &mut K, store: u64) -> Result<Renewed<NodeRecord>, Ending>
    ensures read { IfOk result (λ read. HasRead any_node_records (K.store keep.old) (K.store keep.new) read.kept (changes_of read.renewal)) }
    ensures refused { IfErr result (IsNotRead any_node_records (K.store keep.old) (K.store keep.new) store) }
    ensures unchanged { IsUnchanged (K.store keep.old) (K.store keep.new) }
{
    let parts = match keep.load() {
        Ok(parts) => parts,
        Err(fault) => return Err(ending_at(fault, store)),
    };
    match renewed_node(alloc, &parts) {
        Ok(read) => Ok(read),
        Err(stop) => Err(ending_at(KeepFault::from(stop), store)),
    }
}

// Adds what was read of one store.
fn add(given: &mut GivenNodes, read: Renewed<NodeRecord>) -> Result<(), NoMemory>
    ensures kept { OnOk result (given.new.kept.items ≡ given.old.kept.items ++ read.kept ∷ []) }
    ensures renewals { OnOk result (map changes_of given.new.renewals.items ≡ map changes_of given.old.renewals.items ++ changes_of read.renewal ∷ []) }
{
    let Renewed { kept, renewal } = read;
    given.kept.push(kept)?;
    given.renewals.push(renewal)?;
    Ok(())
}

/// The records of the nodes. The first of these stores is the second among the words.
pub(crate) fn nodes_in<K: Keep>(alloc: Global, keeps: &mut [K]) -> Result<GivenNodes, Ending>
    ensures read { IfOk result (λ given. HaveRead K.store keeps.old keeps.new given.kept.items (map changes_of given.renewals.items)) }
    ensures refused { IfErr result (IsOneNotRead K.store keeps.old keeps.new) }
    ensures unchanged { AllZip (λ old now. IsUnchanged (K.store old) (K.store now)) keeps.old keeps.new }
{
    let mut given = GivenNodes {
        kept: Vec::new(alloc),
        renewals: Vec::new(alloc),
    };
    for (index, keep) in keeps.iter_mut().enumerate() {
        let read = match node_in(alloc, keep, index as u64 + 2) {
            Ok(read) => read,
            Err(ending) => return Err(ending),
        };
        match add(&mut given, read) {
            Ok(()) => {}
            Err(NoMemory) => return Err(Ending::Memory),
        }
    }
    Ok(given)
}

// The ending where the store that is to be made refuses so.
fn ending_of_new(fault: KeepFault) -> Ending
    ensures { result ≡ ended_new fault }
{
    match fault {
        KeepFault::BadRecord(_) => Ending::StoreNotNew,
        other => ending_of_store(other),
    }
}

/// Whether a store is new, which has no part.
pub(crate) fn look_at_new<K: Keep>(keep: &mut K) -> Result<(), Ending>
    ensures new { OnOk result (IsNew (K.store keep.old) (K.store keep.new)) }
    ensures refused { IfErr result (IsNotNew (K.store keep.old) (K.store keep.new)) }
    ensures unchanged { IsUnchanged (K.store keep.old) (K.store keep.new) }
{
    let parts = match keep.load() {
        Ok(parts) => parts,
        Err(fault) => return Err(ending_of_new(fault)),
    };
    if parts.is_empty() {
        Ok(())
    } else {
        Err(Ending::StoreNotNew)
    }
}
