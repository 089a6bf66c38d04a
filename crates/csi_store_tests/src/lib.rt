//! The tests of records as bytes: how they are written, read and refused, and what is recovered of them, or built anew; and of devices that are
//! counted. There is nothing else here: a crate that has no test of its own is proved once less.
#![tactic(auto)]

#[cfg(test)]
mod counted;
#[cfg(test)]
mod rebuildings;
#[cfg(test)]
mod records;
#[cfg(test)]
mod recoveries;
