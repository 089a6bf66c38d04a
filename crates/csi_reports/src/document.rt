//! The report of a world.
ghost use Rattle.std.specs.Prelude.{◌≡◌, ◌++◌, IfOk, OnOk, string_bytes};
ghost use Rattle.json.specs.Tree.{json_tokens};
ghost use Rattle.serde_json.specs.Written.{outline};
ghost use Rattle.csi_reports.specs.Private.Found.{gathered_of};
ghost use Rattle.csi_reports.specs.Public.Report.{report_of, IsReport};

use crate::gathering::{Findings, gathered};
use crate::live_volumes::write_volumes;
use crate::members::put_array;
use crate::outcomes::write_outcomes;
use crate::writer::JsonWriter;
use csi_types::NoMemory;
use csi_world::World;
use std::alloc::{AllocError, Global};

// Writes the report.
fn write_document(
    alloc: Global,
    out: &mut JsonWriter,
    world: &World,
    findings: &Findings,
) -> Result<(), AllocError>
    ensures { OnOk result (out.new ≡ out.old ++ json_tokens (outline (report_of world.now (gathered_of findings.now)))) }
{
    out.begin_object()?;
    put_array(out, "attached", &findings.attached)?;
    out.key("events")?;
    write_outcomes(alloc, out, world.outcomes())?;
    out.put_number("frames", world.frame_count())?;
    put_array(out, "known", &findings.known)?;
    put_array(out, "published", &findings.published)?;
    let safe = findings.found.is_none();
    out.put_flag("safe", safe)?;
    out.put_number("session", world.orchestrator().session())?;
    put_array(out, "staged", &findings.staged)?;
    out.key("volumes")?;
    write_volumes(out, world.controller().all_rows())?;
    out.end_object()
}

/// The report of this world, one object of JSON in compact form: what came of each event (`events`), how many frames were
/// sent (`frames`) and the orchestrator's session (`session`); what the controller has attached (`attached`) and which
/// volumes it has (`volumes`), what the nodes that are there have staged and published (`staged`, `published`), by id, then
/// node, then target; what the orchestrator doesn't know as No (`known`), as `Orchestrator::things` lists it; and whether the world is
/// safe, as `audit` says (`safe`). Texts are ordered by their bytes. An `Err` is an allocation that was refused.
pub fn report(alloc: Global, world: &World) -> Result<String, NoMemory>
    ensures { IfOk result (λ text. IsReport world.now (string_bytes text)) }
{
    let findings = gathered(alloc, world)?;
    let mut out = JsonWriter::new(alloc);
    write_document(alloc, &mut out, world, &findings)?;
    Ok(out.into_string())
}
