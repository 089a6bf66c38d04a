//! The program `csi-replay`: plugins and the orchestrator over stores in files (`stores`), and what is asked of the process (`process`).
#![tactic(auto)]

mod laws;
mod pictures;
mod process;
mod recovery;
mod stores;

use process::ended;
use std::process::ExitCode;

fn main(rt: HostRuntime) -> ExitCode {
    ended(&rt)
}
