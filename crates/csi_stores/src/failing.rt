//! Stores, readers and writers that fail at one call, for whoever tests what stands over them. This profile's own.

pub mod counting;
pub mod keep;
pub mod reader;
pub mod writer;
