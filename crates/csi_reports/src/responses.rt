//! The lines in which an orchestrator answers, in JSON.
ghost use Rattle.std.specs.Prelude.{◌≡◌, ◌++◌, map, IfOk, OnOk, string_bytes};
ghost use Rattle.json.specs.Tree.{json_tokens, members_tokens};
ghost use Rattle.serde_json.specs.Data.{string};
ghost use Rattle.serde_json.specs.Written.{outline, members_outline, compact_text};
ghost use Rattle.csi_orchestrator.specs.Public.Shown.{row_shown};
ghost use Rattle.csi_reports.specs.Public.Goals.{goal_entry};
ghost use Rattle.csi_reports.specs.Public.Responses.{party_text as text_of_party, kind_in as kind_of_body, send_entry, send_member, sending_shown};
ghost use Rattle.csi_reports.specs.Public.Responses.{goal_now, request_outcome_text, answer_entry, loss_entry};
ghost use Rattle.csi_reports.specs.Public.Responses.{ignored_entry, fault_entry, opened_entry, IsOpenedLine};

use crate::by_name::wanted_by_name;
use crate::entries::Entry;
use crate::goals::write_goal;
use crate::members::put_array;
use crate::writer::JsonWriter;
use csi_orchestrator::{OrchFault, Row};
use csi_types::{Body, Frame, Kind, Name, NodeId, Party};
use csi_world::{Outcome, text_of};
use std::alloc::{AllocError, Global};

/// What became of what was asked.
#[derive(Clone, Copy, Debug, PartialEq, Eq)]
pub enum RequestOutcome {
    /// A command or a timeout has a call sent.
    Sent,
    /// What was asked is so already.
    Met,
    /// The orchestrator refused, and nothing changed.
    Refused(OrchFault),
    /// A reply was taken.
    Taken,
    /// A node was lost, and a session began.
    Lost,
}

/// A call that is to be sent: its frame, and the frame's bytes.
#[derive(Clone, Copy)]
pub struct Sending<'a> {
    pub frame: &'a Frame,
    pub bytes: &'a [u8],
}

impl Entry for &Name {
    ghost entry = { λ name. string name.now };

    fn write(&self, out: &mut JsonWriter) -> Result<(), AllocError> {
        out.text(self.as_str())
    }
}

// The plugin's word.
fn party_text(alloc: Global, party: &Party) -> Result<String, AllocError>
    ensures { IfOk result (λ text. string_bytes text ≡ text_of_party party.now) }
{
    match party {
        Party::Controller => String::from_str(alloc, "controller"),
        Party::Node(id) => {
            let mut text = String::from_str(alloc, "node:")?;
            text.push_str(id.as_str())?;
            Ok(text)
        }
    }
}

// The kind of the call that a frame has, or replies to.
fn kind_in(body: &Body) -> Kind
    ensures { result ≡ kind_of_body body.now }
{
    match body {
        Body::Call(call) => call.kind(),
        Body::Reply(kind, _) => *kind,
    }
}

// Writes a call that is to be sent.
fn write_send(
    alloc: Global,
    out: &mut JsonWriter,
    frame: &Frame,
    bytes: &[u8],
) -> Result<(), AllocError>
    ensures { OnOk result (out.new ≡ out.old ++ json_tokens (outline (send_entry frame.now bytes.now))) }
{
    let digits = hex::encode(alloc, bytes)?;
    let plugin = party_text(alloc, frame.party())?;
    let number = frame.number();
    out.begin_object()?;
    out.put_number("call", number.call)?;
    out.put_text("frame", digits.as_str())?;
    out.put_text("kind", kind_in(frame.body()).name())?;
    out.put_text("plugin", plugin.as_str())?;
    out.put_number("session", number.session)?;
    out.end_object()
}

// Writes an answer's last member, if it has one, and closes it.
fn write_last(
    alloc: Global,
    out: &mut JsonWriter,
    sending: Option<Sending<'_>>,
) -> Result<(), AllocError>
    ensures { OnOk result (out.new ≡ out.old ++ members_tokens (members_outline (send_member (sending_shown sending.entry)))) }
{
    match sending {
        Some(sent) => {
            out.key("send")?;
            write_send(alloc, out, sent.frame, sent.bytes)?;
            out.end_object()
        }
        None => out.end_object(),
    }
}

// Writes what is wanted of the volume of a name, by its row.
fn write_goal_now(out: &mut JsonWriter, name: &Name, row: Option<&Row>) -> Result<(), AllocError>
    ensures { OnOk result (out.new ≡ out.old ++ json_tokens (outline (goal_entry name.now (goal_now row.entry)))) }
{
    match row {
        Some(row) => write_goal(out, name, row),
        None => out.null(),
    }
}

// Writes the text of an outcome.
fn write_outcome_text(
    alloc: Global,
    out: &mut JsonWriter,
    outcome: RequestOutcome,
) -> Result<(), AllocError>
    ensures { OnOk result (out.new ≡ out.old ++ json_tokens (outline (string (request_outcome_text outcome)))) }
{
    match outcome {
        RequestOutcome::Sent => out.text("sent"),
        RequestOutcome::Met => out.text("met"),
        RequestOutcome::Refused(fault) => {
            let text = text_of(alloc, Outcome::Refused(fault))?;
            out.text(text.as_str())
        }
        RequestOutcome::Taken => out.text("taken"),
        RequestOutcome::Lost => out.text("lost"),
    }
}

fn write_answer(
    alloc: Global,
    out: &mut JsonWriter,
    name: &Name,
    row: Option<&Row>,
    outcome: RequestOutcome,
    sending: Option<Sending<'_>>,
) -> Result<(), AllocError>
    ensures { OnOk result (out.new ≡ out.old ++ json_tokens (outline (answer_entry name.now (goal_now row.entry) outcome (sending_shown sending.entry)))) }
{
    out.begin_object()?;
    out.key("goal")?;
    write_goal_now(out, name, row)?;
    out.put_text("name", name.as_str())?;
    out.key("outcome")?;
    write_outcome_text(alloc, out, outcome)?;
    write_last(alloc, out, sending)
}

/// The answer about the volume of a name, as one line of JSON in compact form, without its newline: what is wanted of it now, by its row
/// (`goal`; `null` too where there is no row), the name (`name`), what became of the request (`outcome`), and the call that is to be
/// sent, if there is one (`send`). An `Err` is an allocation that was refused. This profile's own.
pub fn answer_line(
    alloc: Global,
    name: &Name,
    row: Option<&Row>,
    outcome: RequestOutcome,
    sending: Option<Sending<'_>>,
) -> Result<String, AllocError>
    ensures { IfOk result (λ text. string_bytes text ≡ compact_text (answer_entry name.now (goal_now row.entry) outcome (sending_shown sending.entry))) }
{
    let mut out = JsonWriter::new(alloc);
    write_answer(alloc, &mut out, name, row, outcome, sending)?;
    Ok(out.into_string())
}

fn write_loss(
    alloc: Global,
    out: &mut JsonWriter,
    node: &NodeId,
    outcome: RequestOutcome,
    session: u64,
) -> Result<(), AllocError>
    ensures { OnOk result (out.new ≡ out.old ++ json_tokens (outline (loss_entry node.now outcome session))) }
{
    out.begin_object()?;
    out.put_text("node", node.as_str())?;
    out.key("outcome")?;
    write_outcome_text(alloc, out, outcome)?;
    out.put_number("session", session)?;
    out.end_object()
}

/// The answer about the loss of a node, so: its id (`node`), what became of it (`outcome`: `lost` or a refusal), and the session that
/// there is then (`session`).
pub fn loss_line(
    alloc: Global,
    node: &NodeId,
    outcome: RequestOutcome,
    session: u64,
) -> Result<String, AllocError>
    ensures { IfOk result (λ text. string_bytes text ≡ compact_text (loss_entry node.now outcome session)) }
{
    let mut out = JsonWriter::new(alloc);
    write_loss(alloc, &mut out, node, outcome, session)?;
    Ok(out.into_string())
}

/// The answer to a frame that was ignored, so.
pub fn ignored_line(alloc: Global) -> Result<String, AllocError>
    ensures { IfOk result (λ text. string_bytes text ≡ compact_text ignored_entry) }
{
    let mut out = JsonWriter::new(alloc);
    out.begin_object()?;
    out.put_text("outcome", "ignored")?;
    out.end_object()?;
    Ok(out.into_string())
}

/// The answer to a line that was no request, by the name of its fault, so.
pub fn fault_line(alloc: Global, name: &str) -> Result<String, AllocError>
    ensures { IfOk result (λ text. string_bytes text ≡ compact_text (fault_entry name.now)) }
{
    let mut out = JsonWriter::new(alloc);
    out.begin_object()?;
    out.put_text("fault", name)?;
    out.end_object()?;
    Ok(out.into_string())
}

fn write_opened(out: &mut JsonWriter, session: u64, wanted: &[&Name]) -> Result<(), AllocError>
    ensures { OnOk result (out.new ≡ out.old ++ json_tokens (outline (opened_entry session (map (λ name. name.now) wanted.now)))) }
{
    out.begin_object()?;
    out.put_number("session", session)?;
    put_array(out, "wanted", wanted)?;
    out.end_object()
}

/// The first line, so: the session (`session`), and the names of the volumes of which something is wanted, byte by byte (`wanted`).
pub fn opened_line(alloc: Global, session: u64, rows: &[Row]) -> Result<String, AllocError>
    ensures { IfOk result (λ text. IsOpenedLine session (map row_shown rows.now) (string_bytes text)) }
{
    let wanted = wanted_by_name(alloc, rows)?;
    let mut out = JsonWriter::new(alloc);
    write_opened(&mut out, session, &wanted)?;
    Ok(out.into_string())
}
