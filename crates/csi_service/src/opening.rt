//! A store, opened: its parts are judged, and what is asked for is made of them, before anything is committed.
ghost use Rattle.std.specs.Prelude.{◌≡◌, ◌∷◌, ◌++◌, ◌==◌, [], ℕ, map, if◌then◌else◌, IfOk, IfErr, OnOk};
ghost use Rattle.std.specs.List.{list_any};
ghost use Rattle.csi_stores.specs.Public.Part.{all_stored_in, part_change, put_all, take_all};
ghost use Rattle.csi_stores.specs.Public.Keeping.{RefusesAt};
ghost use Rattle.csi_service.specs.Public.StoreOpening.{Opening, HasOpened, IsUnopened, LeavesOpening};
ghost use Rattle.csi_service.specs.Private.Opening.{IsMade, IsUnmade, IsRenewal, left_out};

use csi_records::{Record, RecordStop, RecordVersion, is_present};
use csi_stores::{Keep, KeepFault, Part, push_removal, push_value};
use csi_types::NoMemory;
use std::alloc::Global;

/// What is made of the parts of a store.
pub(crate) trait Opens: Drop {
    /// What it is asked for by, beside the parts.
    type Asked: Drop;

    /// What opening makes of parts, and what it leaves.
    ghost opening: { Self.Asked → Opening Self };

    /// It is as it was asked for, and answered nothing yet.
    ghost is_new: { Self.Asked → Self → Type 0 };

    /// What is made of these parts, and the parts that are to be committed before it is given.
    fn made(
        alloc: Global,
        asked: Self::Asked,
        parts: &[Part],
    ) -> Result<(Self, Vec<Part>), RecordStop>
        ensures made { IfOk result (λ made. IsMade (opening asked) (all_stored_in parts.now) made.0 (map part_change made.1.items)) }
        ensures new { IfOk result (λ made. is_new asked made.0) }
        ensures refused { IfErr result (IsUnmade (opening asked).rules (all_stored_in parts.now)) };
}

/// The head of a new record, to be put in.
pub(crate) fn head_part(alloc: Global, value: Vec<u8>) -> Result<Vec<Part>, NoMemory>
    ensures { IfOk result (λ parts. map part_change parts.items ≡ put_all (record { key = 0; value = value.items } ∷ [])) }
{
    let mut parts = Vec::new(alloc);
    push_value(&mut parts, 0, value)?;
    Ok(parts)
}

// Puts at the end that the part of this key is taken out, unless one of these parts has it.
fn push_unless(removals: &mut Vec<Part>, parts: &[Part], key: u64) -> Result<(), NoMemory>
    ensures { OnOk result (map part_change removals.new.items ≡ map part_change removals.old.items ++ take_all (if list_any
        (λ part. part.key == key) parts.now then [] else key ∷ [])) }
{
    for part in parts {
        if part.key == key {
            return Ok(());
        }
    }
    push_removal(removals, key)
}

// What takes out the parts that were found, but for those that the record has a part of.
fn left_out(alloc: Global, found: &[Part], parts: &[Part]) -> Result<Vec<Part>, NoMemory>
    ensures { IfOk result (λ removals. map part_change removals.items ≡ take_all (left_out (all_stored_in found.now) (all_stored_in parts.now))) }
{
    let mut removals = Vec::new(alloc);
    for part in found {
        push_unless(&mut removals, parts, part.key)?;
    }
    Ok(removals)
}

/// What a record that was read of these parts in this version has to be committed: nothing where that is the present one, else all its
/// parts in that, and what takes out the rows that it left out.
pub(crate) fn renewal<T: Record>(
    alloc: Global,
    version: RecordVersion,
    found: &[Part],
    kept: &T,
) -> Result<Vec<Part>, NoMemory>
    ensures { IfOk result (λ parts. IsRenewal T.is_record T.parts_of version (all_stored_in found.now) kept.now (map part_change parts.items)) }
{
    if is_present(version) {
        return Ok(Vec::new(alloc));
    }
    let mut parts = kept.to_parts(alloc)?;
    let mut removals = left_out(alloc, found, &parts)?;
    parts.append(&mut removals)?;
    Ok(parts)
}

/// What is made of what the store has. What is to be committed is committed before it is given.
pub(crate) fn open<S: Opens, K: Keep>(
    alloc: Global,
    asked: S::Asked,
    keep: &mut K,
) -> Result<S, KeepFault>
    ensures opened { IfOk result (HasOpened (S.opening asked) (K.store keep.old) (K.store keep.new)) }
    ensures new { IfOk result (λ made. S.is_new asked made) }
    ensures cause { IfErr result (IsUnopened (S.opening asked).rules (K.store keep.old) (K.store keep.new)) }
    ensures honest { (K.store keep.new).honest → (K.store keep.old).honest }
    ensures foreign { (K.store keep.new).honest → (place : ℕ) → (K.store keep.old).foreign place → RefusesAt place result }
    ensures left { LeavesOpening (S.opening asked).rules (K.store keep.old) (K.store keep.new) }
{
    let parts = match keep.load() {
        Ok(parts) => parts,
        Err(fault) => return Err(fault),
    };
    let made = S::made(alloc, asked, &parts);
    drop(parts);
    let (service, changed) = match made {
        Ok(made) => made,
        Err(stop) => return Err(KeepFault::from(stop)),
    };
    if changed.is_empty() {
        return Ok(service);
    }
    match keep.commit(&changed) {
        Ok(()) => Ok(service),
        Err(fault) => Err(fault),
    }
}
