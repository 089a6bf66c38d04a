//! A store that fails at one call.
ghost use Rattle.std.specs.Prelude.{◌≡◌, ◌≤◌, ◌⊎◌, ◌+◌, ◌-◌, ◌^◌, ℕ, List, map, min, true, false, IfOk, IfErr, OnOk, IsErr, Err};
ghost use Rattle.csi_stores.specs.Public.Part.{StoredPart, put_all, part_change};
ghost use Rattle.csi_stores.specs.Public.Content.{all_changed};
ghost use Rattle.csi_stores.specs.Public.Counting.{one_more, fault_count_after};
ghost use Rattle.csi_stores.specs.Public.Keeping.{RefusesAt};
ghost use Rattle.csi_stores.specs.Public.Stores.{Found, Parts, IsOnly, FindsSome, IsLoadFault, CommitsChanges};
ghost use Rattle.csi_stores.specs.Public.FailingCalls.{is_due, passing_after_call};
ghost use Rattle.csi_stores.specs.Public.FailingKeep.{failing};

use crate::failing::counting::falls;
use crate::keep::{Keep, KeepFault};
use crate::part::Part;

/// What a store has after the commit that fails: what it had, or what it was to have. This profile's own.
#[derive(Clone, Copy)]
pub enum Left {
    Old,
    New,
}

/// A store over another one whose device fails at one load or one commit: `Device` is the answer then, and is counted. What it
/// has, what opening it again finds and what fits are the other one's. This profile's own.
#[derive(Drop)]
pub struct FailingKeep<K> {
    inner: K,
    load: Option<u64>,
    commit: Option<u64>,
    left: Left,
    failures: u64,
}

impl<K> FailingKeep<K> {
    /// Fails at one load after so many that pass, or at none, and at one commit likewise, which leaves this. It takes no memory.
    pub fn new(inner: K, load: Option<u64>, commit: Option<u64>, left: Left) -> FailingKeep<K>
        ensures { result ≡ record { inner = inner; load = load; commit = commit; left = left; failures = 0 } }
    {
        FailingKeep {
            inner,
            load,
            commit,
            left,
            failures: 0,
        }
    }

    /// The store under it. It takes no memory.
    pub fn into_inner(self) -> K
        ensures { result ≡ self.inner }
    {
        let FailingKeep {
            inner,
            load: _,
            commit: _,
            left: _,
            failures: _,
        } = self;
        inner
    }

    // The device fails.
    fn fail(&mut self) -> KeepFault
        ensures device { result ≡ KeepFault.Device }
        ensures counts { self.new ≡ record self.old { failures = one_more self.old.failures } }
    {
        self.failures = self.failures.saturating_add(1);
        KeepFault::Device
    }
}

impl<K: Keep> Keep for FailingKeep<K> {
    ghost store = { λ keep. failing keep.failures (K.store keep.inner) };

    /// All parts of the store under it, which isn't asked where this load is the one that fails.
    fn load(&mut self) -> Result<Vec<Part>, KeepFault>
        ensures honest { (K.store self.new.inner).honest → (K.store self.old.inner).honest }
        ensures parts { (K.store self.new.inner).honest → (content : List StoredPart) → (K.store self.old.inner).holds content →
            IfOk result (λ parts. map part_change parts.items ≡ put_all content) }
        ensures stays { (K.store self.new.inner).honest → (content : List StoredPart) → (K.store self.old.inner).holds content →
            OnOk result (IsOnly (K.store self.new.inner) (Parts content)) }
        ensures foreign { (K.store self.new.inner).honest → (place : ℕ) → (K.store self.old.inner).foreign place → RefusesAt place result }
        ensures left { (K.store self.new.inner).honest → (found : Found) → (K.store self.new.inner).leaves found → (K.store self.old.inner).leaves found }
        ensures some { (K.store self.new.inner).honest → (found : Found) → IsOnly (K.store self.old.inner) found → FindsSome (K.store self.new.inner) }
        ensures room { (content : List StoredPart) → (K.store self.old.inner).fits content → (K.store self.new.inner).fits content }
        ensures no_more_room { (content : List StoredPart) → (K.store self.new.inner).fits content → (K.store self.old.inner).fits content }
        ensures faults { (failing self.old.failures (K.store self.old.inner)).faults ≤ (failing self.new.failures (K.store self.new.inner)).faults }
        ensures cause { IfErr result (λ fault. IsLoadFault (failing self.old.failures (K.store self.old.inner)) (failing self.new.failures
            (K.store self.new.inner)) fault) }
        ensures fails { is_due self.old.load ≡ true → (result ≡ Err KeepFault.Device) × (self.new.inner ≡ self.old.inner) }
        ensures next { self.new ≡ record self.old {
          inner = self.new.inner;
          load = passing_after_call self.old.load;
          failures = fault_count_after (is_due self.old.load) self.old.failures;
        } }
    {
        if falls(&mut self.load) {
            return Err(self.fail());
        }
        self.inner.load()
    }

    /// A commit of the store under it, which isn't asked where this is the one that fails and leaves what was there. Where it leaves
    /// what is to be there, a refusal of that store is the answer, and nothing else is counted.
    fn commit(&mut self, parts: &[Part]) -> Result<(), KeepFault>
        ensures keeps { CommitsChanges (failing self.old.failures (K.store self.old.inner)) (failing self.new.failures (K.store self.new.inner))
            (map part_change parts.now) result }
        ensures fails { is_due self.old.commit ≡ true → IsErr result }
        ensures leaves_old { is_due self.old.commit ≡ true → self.old.left ≡ Left.Old →
            (result ≡ Err KeepFault.Device) ×
            (self.new ≡ record self.old { commit = passing_after_call self.old.commit; failures = one_more self.old.failures }) }
        ensures leaves_new { is_due self.old.commit ≡ true → self.old.left ≡ Left.New → (self.new.failures ≡ self.old.failures) ⊎
            (result ≡ Err KeepFault.Device) × (self.new.failures ≡ one_more self.old.failures) ×
            ((K.store self.new.inner).honest → (content : List StoredPart) → (K.store self.old.inner).holds content →
            IsOnly (K.store self.new.inner) (Parts (all_changed (map part_change parts.now) content))) }
        ensures passes { is_due self.old.commit ≡ false → self.new.failures ≡ self.old.failures }
        ensures next { self.new ≡ record self.old { inner = self.new.inner; commit = passing_after_call self.old.commit; failures = self.new.failures } }
    {
        let fails = falls(&mut self.commit);
        if fails && matches!(self.left, Left::Old) {
            return Err(self.fail());
        }
        match self.inner.commit(parts) {
            Ok(()) if fails => Err(self.fail()),
            answer => answer,
        }
    }

    /// How often this store and the one under it failed, up to 2^64 - 1. It takes no memory.
    fn faults(&self) -> u64 {
        self.inner.faults().saturating_add(self.failures)
    }
}
