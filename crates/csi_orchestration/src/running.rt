//! An orchestrator's process, but for what it asks of the system.
ghost use Rattle.std.specs.Prelude.{ℕ, IfOk, string_bytes};
ghost use Rattle.csi_orchestration.specs.Public.Ending.{EndsAt};
ghost use Rattle.csi_orchestration.specs.Public.OrchestratorHistories.{OrchestratorRunsLaw, OrchestratorThreeRunsLaw};
ghost use Rattle.csi_orchestration.specs.Public.OrchestratorWorlds.{WorldsLaw};
ghost use Rattle.csi_orchestration.specs.Public.Running.{orchestrator_setting, IsFirstLine, WritesFirst, OrchestratorRuns};
ghost use Rattle.csi_orchestration.specs.Private.Running.{Begins};

use crate::ending::{ending_of_serving, ending_unopened};
use crate::lines_runs::lines_runs_law;
use crate::lines_serving::serve_lines;
use crate::orchestrator_responder::OrchestratorResponder;
use csi_orchestrator::{Orchestrator, form_law, records_law, restart_law};
use csi_reports::opened_line;
use csi_service::OrchestratorService;
use csi_stores::{Counted, Keep, write_out};
use csi_streams::Ending;
use csi_types::{NoMemory, NodeId};
use std::alloc::Global;
use std::io::{Read, Write};

// The first line, with its newline.
fn first_line(alloc: Global, orchestrator: &Orchestrator) -> Result<String, NoMemory>
    ensures { IfOk result (λ text. IsFirstLine orchestrator.now (string_bytes text)) }
{
    let mut text = opened_line(alloc, orchestrator.session(), orchestrator.rows())?;
    text.push_str("\n")?;
    Ok(text)
}

// Writes the first line, and flushes.
fn begin<W: Write>(
    alloc: Global,
    orchestrator: &Orchestrator,
    writer: &mut Counted<W>,
) -> Result<(), Ending>
    ensures { WritesFirst W.contents orchestrator.now writer.old writer.new result }
{
    let Ok(text) = first_line(alloc, orchestrator) else {
        return Err(Ending::Memory);
    };
    match write_out(writer, text.as_bytes()) {
        Ok(()) => Ok(()),
        Err(_) => Err(Ending::Device),
    }
}

// Writes the first line, and serves.
fn served<K: Keep, R: Read, W: Write>(
    alloc: Global,
    responder: OrchestratorResponder,
    keep: &mut K,
    reader: &mut Counted<R>,
    writer: &mut Counted<W>,
) -> Ending
    ensures begins { Begins (orchestrator_setting K.store R.remaining W.contents) responder
        keep.old keep.new reader.old reader.new writer.old writer.new result }
    ensures honest { (K.store keep.new).honest → (K.store keep.old).honest }
{
    match begin(alloc, responder.service().orchestrator(), writer) {
        Ok(()) => ending_of_serving(serve_lines(alloc, responder, keep, reader, writer)),
        Err(ending) => ending,
    }
}

/// Opens the orchestrator of these nodes from its store, writes its first line, and serves the reader's lines, each answer written after
/// its commit, until the input ends or something is refused; the answer is how that is told. Its session, which is the one after the
/// record's, or `least`, where that is later, is committed before the first line. Where it isn't opened nothing is read nor written:
/// `ConfigRefused` for more than 64 nodes or one that is there twice, `NodeInUse` where these leave out one at which a volume may be
/// attached, `NumbersSpent` where the record's session is the last one, `RecordFault` with the first part that is none of an orchestrator's
/// record, `Device` where the device failed or the store is full, and `Memory`. Where the first line isn't written nothing is
/// read: `Device` where the writer failed, and `Memory`. Else `Done`, or `LineFault` with the number of a line that is too long, `Endless`,
/// `OlderStore` where a reply says that the store is an older copy, `Memory`, or `Device` where the reader, the writer or the store failed.
/// What was committed and written before a fault stays; an answer that
/// isn't written may have been committed. A store that has no list of parts ends it by `RecordFault`, with the place of the first
/// thing that is none, unless the device fails before or memory is wanted; and a store that is honest afterwards was before. This
/// profile's own.
pub fn orchestrator<K: Keep, R: Read, W: Write>(
    alloc: Global,
    nodes: Vec<NodeId>,
    least: u64,
    keep: &mut K,
    reader: &mut Counted<R>,
    writer: &mut Counted<W>,
) -> Ending
    ensures runs { OrchestratorRuns (orchestrator_setting K.store R.remaining W.contents) least nodes.items
        keep.old keep.new reader.old reader.new writer.old writer.new result }
    ensures honest { (K.store keep.new).honest → (K.store keep.old).honest }
    ensures foreign { (K.store keep.new).honest → (place : ℕ) → (K.store keep.old).foreign place → EndsAt place result }
{
    match OrchestratorService::open(alloc, nodes, least, keep) {
        Ok(service) => {
            service.record_law();
            restart_law(service.orchestrator());
            let responder = OrchestratorResponder::new(alloc, service);
            served(alloc, responder, keep, reader, writer)
        }
        Err(why) => ending_unopened(why),
    }
}

/// A law, and nothing that runs: two runs of an orchestrator over one store, one after another, each by a process of its own and so over a
/// keeper of its own, however each ended, are one run, in which the orchestrator was opened again between, in the next session or a later
/// one (`lines_runs_law`, which says what it asks). From each history that the first one's orchestrator shows, and it shows one, this is a
/// run of the stated machine with a restart between, once its session was raised to the one before the second's: each answer tells what
/// `moves` says, and the frame that is sent then. The second one's orchestrator shows a history too: so a third run goes on from there.
/// This profile's own.
pub fn orchestrator_runs_law<K: Keep, L: Keep, R: Read, W: Write>()
    ensures { OrchestratorRunsLaw K.store L.store R.remaining W.contents }
{
    form_law();
    records_law();
    lines_runs_law::<OrchestratorResponder, K, L, R, W>();
}

/// The same law of three runs, by the law of two, twice; so it goes on to any number. This profile's own.
pub fn orchestrator_three_runs_law<K: Keep, L: Keep, M: Keep, R: Read, W: Write>()
    ensures { OrchestratorThreeRunsLaw K.store L.store M.store R.remaining W.contents }
{
    orchestrator_runs_law::<K, L, R, W>();
    orchestrator_runs_law::<L, M, R, W>();
}

/// A law, and nothing that runs: a run of the stated machines of which the orchestrator gets what lines ask, whatever else happens in it,
/// leads its orchestrator's history as the lines lead it, a session that is raised there is one that any orchestrator may begin, and a
/// restart is the one between two runs (`orchestrator_runs_law`). So what is proved of all such runs, as that they are safe, is so of
/// the runs of an orchestrator that is served, where each reply that came was
/// sent; what was committed and not written is a frame that is sent and never delivered. Lines come about one after another (`joined`), and
/// each of them may in any world (`each`), unless it is a reply that no plugin of that world sent: a command or a timeout by itself, a loss
/// behind a join where the node is neither there nor listed, and a line that is no request, or a call under `reply`, by nothing. So the law
/// speaks of all runs in which each reply that came was sent before. This profile's own.
pub fn worlds_law()
    ensures { WorldsLaw }
{}
