//! The tests of both plugins, which see of them what any user sees; the plugins' crates have no test of their own, and so are proved once
//! less. And a small plugin, `shelf.rt`, which shows what a new one has of its own: its row and its table.
#![tactic(auto)]

#[cfg(test)]
mod controller;
#[cfg(test)]
mod damage;
#[cfg(test)]
mod node;
#[cfg(test)]
mod playing;
mod shelf;
#[cfg(test)]
mod values;
