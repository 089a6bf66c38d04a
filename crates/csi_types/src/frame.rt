//! Frames: a call or a reply with its number and its party.
ghost use Rattle.std.specs.Prelude.{◌≡◌, IsTrue};
ghost use Rattle.csi_types.specs.Model.Call.{kind_of};
ghost use Rattle.csi_types.specs.Public.Call.{is_party_of};
ghost use Rattle.csi_types.specs.Public.Made.{IsGivenIf, Shows};
ghost use Rattle.csi_types.specs.Public.Reply.{has_id_by_rule};

use crate::call::{Call, Kind, Party};
use crate::number::Number;
use crate::reply::Reply;
use std::marker::Model;

/// A call, or the reply to a call of a kind.
#[derive(Debug, PartialEq, Eq, Drop)]
pub enum Body {
    Call(Call),
    Reply(Kind, Reply),
}

/// A call or a reply, with the number of the call and the plugin that it goes to or comes from. A
/// contract sees its parts.
#[derive(Debug, PartialEq, Eq, Drop)]
pub struct Frame {
    number: Number,
    party: Party,
    body: Body,
}

impl Model for Frame {
    ghost use Rattle.csi_types.specs.Model.Frame.{Frame as Parts};
    ghost use Rattle.csi_types.specs.Public.Frame.{IsAllowed};

    ghost Value = { Parts };

    ghost view = { λ frame. record { number = frame.number; party = frame.party; body = frame.body } };

    ghost invariant = { λ frame. IsAllowed frame.party frame.body };

    ghost inverse = { λ parts. record { number = parts.number; party = parts.party; body = parts.body } };
}

impl Frame {
    ghost use Rattle.csi_types.specs.Public.Frame.{IsAllowed};

    /// A call for a plugin, or `None` where calls of its kind aren't for that plugin. It takes no memory.
    pub fn call(number: Number, party: Party, call: Call) -> Option<Frame>
        ensures { IsGivenIf (IsTrue (is_party_of (kind_of call) party)) record { number = number; party = party; body = Body.Call call } result }
    {
        if !call.kind().is_for(&party) {
            return None;
        }
        Some(Frame {
            number,
            party,
            body: Body::Call(call),
        })
    }

    /// A reply of a plugin to a call of a kind. `None` where calls of that kind aren't for that plugin,
    /// where the reply has an id and isn't an `Ok` to CreateVolume, and where it is one and has none.
    /// It takes no memory.
    pub fn reply(number: Number, party: Party, kind: Kind, reply: Reply) -> Option<Frame>
        ensures { IsGivenIf (IsTrue (is_party_of kind party) × IsTrue (has_id_by_rule kind reply)) record { number = number; party = party; body = Body.Reply kind reply } result }
    {
        if !kind.is_for(&party) || !reply.has_id_by_rule(kind) {
            return None;
        }
        Some(Frame {
            number,
            party,
            body: Body::Reply(kind, reply),
        })
    }

    /// The number of the call.
    pub fn number(&self) -> Number
        ensures { result ≡ self.now.number }
    {
        self.number
    }

    /// The plugin that a call is for, or that sent a reply.
    pub fn party(&self) -> &Party
        ensures { result.now ≡ self.now.party }
    {
        &self.party
    }

    /// The call or the reply.
    pub fn body(&self) -> &Body
        ensures { Shows (IsAllowed self.now.party) self.now.body result.now }
    {
        &self.body
    }
}
