//! Frames as text, one line each. This profile's own.
ghost use Rattle.std.specs.Prelude.{◌≡◌, Some};
ghost use Rattle.std.specs.Fmt.{WritesOnOk};
ghost use Rattle.csi_streams.specs.Public.Shown.{shown_byte, quoted, party_word, capability_word, flag_word, shown_id};
ghost use Rattle.csi_streams.specs.Public.Shown.{use_words, undo_words, capability_words, call_words, reply_words, frame_words};
ghost use Rattle.csi_streams.specs.Private.Showing.{after_blanks};

use csi_types::{Access, Body, Call, Capability, CapabilityList, Frame, Party, Reply, VolumeId};
use std::fmt;
use std::fmt::Write;

/// A text between double quotes: printable ASCII but `"` and `\` as it is, every other byte as `\x` and two digits.
#[derive(Drop)]
pub struct Quoted<'a>(pub &'a str);

impl fmt::Display for Quoted<'_> {
    ghost output = { λ text. Some (quoted text.0.now) };

    fn fmt<W: fmt::Write>(&self, f: &mut fmt::Formatter<W>) -> fmt::Result {
        f.write_char('"')?;
        let bytes = self.0.as_bytes();
        for byte in bytes {
            quote_byte(*byte, f)?;
        }
        f.write_char('"')
    }
}

fn quote_byte<W: fmt::Write>(byte: u8, f: &mut fmt::Formatter<W>) -> fmt::Result
    ensures { WritesOnOk W.write_str_gives f.old result (shown_byte byte) f.new }
{
    if byte < 32 || byte > 126 || byte == b'"' || byte == b'\\' {
        return write!(f, "\\x{byte:02x}");
    }
    f.write_char(char::from(byte))
}

/// A plugin: `controller`, or `node:` and the node's id.
#[derive(Drop)]
pub struct ShownParty<'a>(pub &'a Party);

impl fmt::Display for ShownParty<'_> {
    ghost output = { λ party. Some (party_word party.0.now) };

    fn fmt<W: fmt::Write>(&self, f: &mut fmt::Formatter<W>) -> fmt::Result {
        match self.0 {
            Party::Controller => write!(f, "controller"),
            Party::Node(id) => {
                let id = Quoted(id.as_str());
                write!(f, "node:{id}")
            }
        }
    }
}

/// A capability: its access type, with the fs type of a mount, and its mode.
#[derive(Drop)]
pub struct ShownCapability<'a>(pub &'a Capability);

impl fmt::Display for ShownCapability<'_> {
    ghost output = { λ capability. Some (capability_word capability.0.now) };

    fn fmt<W: fmt::Write>(&self, f: &mut fmt::Formatter<W>) -> fmt::Result {
        let mode = self.0.mode.number();
        match &self.0.access {
            Access::Block => write!(f, "block/{mode}"),
            Access::Mount(fs_type) => {
                let fs_type = Quoted(fs_type.as_str());
                write!(f, "mount:{fs_type}/{mode}")
            }
        }
    }
}

// `ro` or `rw`.
fn flag_text(readonly: bool) -> &'static str
    ensures { result.now ≡ flag_word readonly }
{
    if readonly { "ro" } else { "rw" }
}

// The id of a reply as `show` prints it, or 0.
fn id_number(id: Option<VolumeId>) -> u64
    ensures { result ≡ shown_id id }
{
    match id {
        Some(id) => id.number(),
        None => 0,
    }
}

// Each capability, with a blank before it.
fn write_list<W: fmt::Write>(list: &CapabilityList, f: &mut fmt::Formatter<W>) -> fmt::Result
    ensures { WritesOnOk W.write_str_gives f.old result (after_blanks (capability_words list.now)) f.new }
{
    for capability in list.as_slice() {
        let capability = ShownCapability(capability);
        write!(f, " {capability}")?;
    }
    Ok(())
}

// The fields of a call that attaches a volume or publishes it: where, with what and how.
fn write_use<W: fmt::Write>(
    id: VolumeId,
    place: &str,
    capability: &Capability,
    readonly: bool,
    f: &mut fmt::Formatter<W>,
) -> fmt::Result
    ensures { WritesOnOk W.write_str_gives f.old result (after_blanks (use_words id place.now capability.now readonly)) f.new }
{
    let id = id.number();
    let place = Quoted(place);
    let capability = ShownCapability(capability);
    let flag = flag_text(readonly);
    write!(f, " {id} {place} {capability} {flag}")
}

// The fields of a call that undoes one of those.
fn write_undo<W: fmt::Write>(id: VolumeId, place: &str, f: &mut fmt::Formatter<W>) -> fmt::Result
    ensures { WritesOnOk W.write_str_gives f.old result (after_blanks (undo_words id place.now)) f.new }
{
    let id = id.number();
    let place = Quoted(place);
    write!(f, " {id} {place}")
}

/// The fields of a call, by its kind, with a blank before each.
#[derive(Drop)]
pub struct ShownCall<'a>(pub &'a Call);

impl fmt::Display for ShownCall<'_> {
    ghost output = { λ call. Some (after_blanks (call_words call.0.now)) };

    fn fmt<W: fmt::Write>(&self, f: &mut fmt::Formatter<W>) -> fmt::Result {
        match self.0 {
            Call::CreateVolume {
                name,
                required,
                limit,
                capabilities,
            } => {
                let name = Quoted(name.as_str());
                write!(f, " {name} {required} {limit}")?;
                write_list(capabilities, f)
            }
            Call::ControllerPublishVolume {
                id,
                node,
                capability,
                readonly,
            } => write_use(*id, node.as_str(), capability, *readonly, f),
            Call::NodePublishVolume {
                id,
                target,
                capability,
                readonly,
            } => write_use(*id, target.as_str(), capability, *readonly, f),
            Call::ControllerUnpublishVolume { id, node } => write_undo(*id, node.as_str(), f),
            Call::NodeUnpublishVolume { id, target } => write_undo(*id, target.as_str(), f),
            Call::NodeStageVolume { id, capability } => {
                let id = id.number();
                let capability = ShownCapability(capability);
                write!(f, " {id} {capability}")
            }
            Call::DeleteVolume { id } | Call::NodeUnstageVolume { id } => {
                let id = id.number();
                write!(f, " {id}")
            }
        }
    }
}

/// The fields of a reply, with a blank before each: its status, its id or 0, and its detail.
#[derive(Drop)]
pub struct ShownReply<'a>(pub &'a Reply);

impl fmt::Display for ShownReply<'_> {
    ghost output = { λ reply. Some (after_blanks (reply_words reply.0.now)) };

    fn fmt<W: fmt::Write>(&self, f: &mut fmt::Formatter<W>) -> fmt::Result {
        let status = self.0.status.code();
        let id = id_number(self.0.id);
        let detail = Quoted(self.0.detail.as_str());
        write!(f, " reply {status} {id} {detail}")
    }
}

/// A frame's line, without the place before it and the newline after it.
#[derive(Drop)]
pub struct ShownFrame<'a>(pub &'a Frame);

impl fmt::Display for ShownFrame<'_> {
    ghost output = { λ frame. Some (after_blanks (frame_words frame.0.now)) };

    fn fmt<W: fmt::Write>(&self, f: &mut fmt::Formatter<W>) -> fmt::Result {
        let number = self.0.number();
        let session = number.session;
        let call = number.call;
        let party = ShownParty(self.0.party());
        match self.0.body() {
            Body::Call(body) => {
                let name = body.kind().name();
                let fields = ShownCall(body);
                write!(f, " {session}.{call} {party} {name}{fields}")
            }
            Body::Reply(kind, reply) => {
                let name = kind.name();
                let fields = ShownReply(reply);
                write!(f, " {session}.{call} {party} {name}{fields}")
            }
        }
    }
}
