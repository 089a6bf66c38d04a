//! The bytes of an orchestrator's record, while it goes on.
ghost use Rattle.std.specs.Prelude.{◌≡◌, ◌≤◌, length, map, IfOk};
ghost use Rattle.csi_orchestrator.specs.Public.Shown.{closed};
ghost use Rattle.csi_records.specs.Public.OrchestratorRecords.{kept_parts};
ghost use Rattle.csi_records.specs.Public.Spelling.{present, record_bytes};

use crate::orchestrator_parts::keyed_parts;
use crate::orchestrator_values::orchestrator_head_value;
use crate::writing::bytes_of;
use csi_orchestrator::{Orchestrator, bounds_law};
use csi_types::NoMemory;
use std::alloc::Global;

/// The bytes of the whole record of an orchestrator with at most 64 nodes, in the present version, as `write_record` writes those of a
/// plugin; its open calls aren't in it (this profile's own). A refusal is one of memory.
pub fn write_orchestrator(alloc: Global, orchestrator: &Orchestrator) -> Result<Vec<u8>, NoMemory>
    requires { length orchestrator.now.nodes ≤ 64 }
    ensures { IfOk result (λ bytes. bytes.items ≡ record_bytes present (kept_parts (record {
      nodes = orchestrator.now.nodes;
      session = orchestrator.now.last.session;
      rows = map closed orchestrator.now.rows;
    }))) }
{
    bounds_law(orchestrator);
    let head = orchestrator_head_value(alloc, orchestrator.session(), orchestrator.nodes())?;
    let parts = keyed_parts(alloc, head, orchestrator.rows())?;
    bytes_of(alloc, &parts)
}
