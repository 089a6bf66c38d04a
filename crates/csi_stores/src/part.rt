//! The parts of a record.

/// A part of a record that is put into a store, or, where it has no value, taken out of it (this profile's own).
#[derive(Debug, PartialEq, Eq, Drop)]
pub struct Part {
    pub key: u64,
    pub value: Option<Vec<u8>>,
}
