//! The kind byte of a body.
ghost use Rattle.std.specs.Prelude.{◌≡◌, ◌+◌};
ghost use Rattle.csi_frames.specs.Public.Codes.{kind_in};
ghost use Rattle.csi_frames.specs.Public.Kinds.{body_kind_from_number, kind_from_number, reply_kind_from};
ghost use Rattle.csi_frames.specs.Public.Grammar.{party_number};
ghost use Rattle.csi_types.specs.Model.Same.{kind_number};

use csi_types::Kind;

/// Calls of a kind, or replies to them.
#[derive(Clone, Copy)]
pub(crate) enum BodyKind {
    Call(Kind),
    Reply(Kind),
}

// The kinds from 1 on.
fn kind_from_number(number: u8) -> Option<Kind>
    ensures { result ≡ kind_from_number number }
{
    match number {
        1 => Some(Kind::CreateVolume),
        2 => Some(Kind::DeleteVolume),
        3 => Some(Kind::ControllerPublishVolume),
        4 => Some(Kind::ControllerUnpublishVolume),
        5 => Some(Kind::NodeStageVolume),
        6 => Some(Kind::NodeUnstageVolume),
        7 => Some(Kind::NodePublishVolume),
        8 => Some(Kind::NodeUnpublishVolume),
        _ => None,
    }
}

impl BodyKind {
    /// What a kind byte stands for, if anything: a reply has its call's number and 128.
    pub fn from_number(number: u8) -> Option<BodyKind>
        ensures { result ≡ body_kind_from_number number }
    {
        if number < 128 {
            match kind_from_number(number) {
                Some(kind) => Some(BodyKind::Call(kind)),
                None => None,
            }
        } else {
            match kind_from_number(number - 128) {
                Some(kind) => Some(BodyKind::Reply(kind)),
                None => None,
            }
        }
    }

    /// The byte of the plugin that such calls are for: 0 for the controller, 1 for a node.
    pub fn party_number(self) -> u8
        ensures { result ≡ party_number (kind_in self) }
    {
        let (BodyKind::Call(kind) | BodyKind::Reply(kind)) = self;
        match kind {
            Kind::CreateVolume
            | Kind::DeleteVolume
            | Kind::ControllerPublishVolume
            | Kind::ControllerUnpublishVolume => 0,
            Kind::NodeStageVolume
            | Kind::NodeUnstageVolume
            | Kind::NodePublishVolume
            | Kind::NodeUnpublishVolume => 1,
        }
    }
}

/// A kind's number, from 1 on.
pub(crate) fn kind_number(kind: Kind) -> u8
    ensures { result ≡ kind_number kind }
{
    match kind {
        Kind::CreateVolume => 1,
        Kind::DeleteVolume => 2,
        Kind::ControllerPublishVolume => 3,
        Kind::ControllerUnpublishVolume => 4,
        Kind::NodeStageVolume => 5,
        Kind::NodeUnstageVolume => 6,
        Kind::NodePublishVolume => 7,
        Kind::NodeUnpublishVolume => 8,
    }
}

/// The kind byte of a reply: its call's number and 128. It takes no memory.
pub fn reply_kind_number(kind: Kind) -> u8
    ensures { result ≡ 128 + kind_number kind }
{
    128 + kind_number(kind)
}

/// The kind of the call that a reply of this kind byte answers, if it is one. It takes no memory.
pub fn reply_kind(number: u8) -> Option<Kind>
    ensures { result ≡ reply_kind_from number }
{
    if number < 128 {
        None
    } else {
        kind_from_number(number - 128)
    }
}
