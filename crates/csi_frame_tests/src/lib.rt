//! The tests of values and frames, which see of them what any user sees; and frames as literal bytes, of which `csi_plugin_tests` takes its own.
#![tactic(auto)]

#[cfg(test)]
mod capacities;
#[cfg(test)]
mod faults;
#[cfg(test)]
mod growths;
#[cfg(test)]
mod pieces;
#[cfg(test)]
mod spelled;
pub mod vectors;
