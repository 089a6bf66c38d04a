//! The tests of stores, and of plugins as services: what is kept, in memory and in SQLite, and how plugins are opened from their stores and served over
//! them, in memory, over devices that fail, and in SQLite over files that stop. There is nothing else here: a crate that has no test of its own is proved
//! once less. It is the only crate of tests that has SQLite, which is compiled once for each.
#![tactic(auto)]

#[cfg(test)]
mod contents;
#[cfg(test)]
mod failing;
#[cfg(test)]
mod flushes;
#[cfg(test)]
mod growths;
#[cfg(test)]
mod keepers;
#[cfg(test)]
mod older;
#[cfg(test)]
mod opening;
#[cfg(test)]
mod script;
#[cfg(test)]
mod serving;
#[cfg(test)]
mod stops;
#[cfg(test)]
mod turns;
