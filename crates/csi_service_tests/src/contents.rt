//! What stores have: parts 0, 1 and 2, of which the first is the head.
use csi_service::{Keep, KeepFault, Part};
use std::process::Abort;

/// The values of these parts, empty where there is no such part.
pub(crate) type Content = (&'static [u8], &'static [u8], &'static [u8]);

/// No part.
pub(crate) const NOTHING: Content = (&[], &[], &[]);

/// The heads of a new controller and of a new node `n1`.
pub(crate) const CONTROLLER_HEAD: &[u8] = &[3, 0, 0, 0, 0, 0, 0, 0, 0, 1, 0, 0, 0, 0, 0, 0, 0, 0];

pub(crate) const NODE_HEAD: &[u8] = &[3, 1, 2, 110, 49, 0, 0, 0, 0, 0, 0, 0, 0];

/// A key, and its value; none where it is taken out.
pub(crate) type Change = (u64, Option<&'static [u8]>);

/// A part that puts this in, or takes it out. Where memory is refused it is made the second time.
pub(crate) fn part(rt: &(impl Abort + AllocGlobal), (key, value): Change) -> Part {
    let Some(bytes) = value else {
        return Part { key, value: None };
    };
    let copied = match Vec::from_slice(rt.alloc(), bytes) {
        Ok(copied) => copied,
        Err(_) => Vec::from_slice(rt.alloc(), bytes).expect(rt, "memory"),
    };
    Part {
        key,
        value: Some(copied),
    }
}

/// Whether it is the same part.
pub(crate) fn is_part(found: &Part, wanted: Change) -> bool {
    let is_value = match (&found.value, wanted.1) {
        (Some(found), Some(wanted)) => found.as_slice() == wanted,
        _ => false,
    };
    found.key == wanted.0 && is_value
}

// The part of this key is put in; or, where it has no value, taken out.
fn change(key: u64, value: &'static [u8]) -> Change {
    if value.is_empty() {
        (key, None)
    } else {
        (key, Some(value))
    }
}

/// Puts this in the place of what a store has. Where memory is refused it has that still, and is asked again.
pub(crate) fn puts<K: Keep>(rt: &(impl Abort + AllocGlobal), keep: &mut K, content: Content) {
    let parts = [
        part(rt, change(0, content.0)),
        part(rt, change(1, content.1)),
        part(rt, change(2, content.2)),
    ];
    if let Err(fault) = keep.commit(&parts) {
        assert!(rt; fault == KeepFault::NoMemory);
        keep.commit(&parts).expect(rt, "memory");
    }
    drop(parts);
}

// Whether these are the parts.
fn are_parts(parts: &[Part], content: Content) -> bool {
    let mut place = 0usize;
    for (key, value) in [(0u64, content.0), (1, content.1), (2, content.2)] {
        if value.is_empty() {
            continue;
        }
        match parts.get(place) {
            Some(found) if is_part(found, (key, Some(value))) => {}
            _ => return false,
        }
        place = place.saturating_add(1);
    }
    place == parts.len()
}

/// Whether a store has this. Where memory is refused it is asked again.
pub(crate) fn has<K: Keep>(keep: &mut K, content: Content) -> bool {
    let loaded = match keep.load() {
        Err(KeepFault::NoMemory) => keep.load(),
        first => first,
    };
    match loaded {
        Ok(parts) => {
            let is_so = are_parts(&parts, content);
            drop(parts);
            is_so
        }
        Err(_) => false,
    }
}
