//! What lasts: which calls bring it about, and which undo it. A plugin answers OK to a call exactly where the thing is then as the
//! call asks.

use csi_types::{Call, VolumeId};

/// What lasts.
#[derive(Clone, Copy, PartialEq)]
pub enum Lasting {
    Attached,
    Staged,
    Published,
}

/// A thing that lasts at one plugin: of which volume, and at which node or target.
#[derive(Clone, Copy)]
pub struct Thing<'a> {
    pub what: Lasting,
    pub volume: VolumeId,
    place: &'a str,
}

/// What a call brings about that lasts.
pub fn begun_by(call: &Call) -> Option<Thing<'_>> {
    match call {
        Call::ControllerPublishVolume { id, node, .. } => Some(Thing {
            what: Lasting::Attached,
            volume: *id,
            place: node.as_str(),
        }),
        Call::NodeStageVolume { id, .. } => Some(Thing {
            what: Lasting::Staged,
            volume: *id,
            place: "",
        }),
        Call::NodePublishVolume { id, target, .. } => Some(Thing {
            what: Lasting::Published,
            volume: *id,
            place: target.as_str(),
        }),
        _ => None,
    }
}

/// What it undoes.
pub fn undone_by(call: &Call) -> Option<Thing<'_>> {
    match call {
        Call::ControllerUnpublishVolume { id, node } => Some(Thing {
            what: Lasting::Attached,
            volume: *id,
            place: node.as_str(),
        }),
        Call::NodeUnstageVolume { id } => Some(Thing {
            what: Lasting::Staged,
            volume: *id,
            place: "",
        }),
        Call::NodeUnpublishVolume { id, target } => Some(Thing {
            what: Lasting::Published,
            volume: *id,
            place: target.as_str(),
        }),
        _ => None,
    }
}

/// Whether two are the same thing at one plugin.
pub fn is_same(one: &Thing<'_>, other: &Thing<'_>) -> bool {
    one.what == other.what && one.volume == other.volume && one.place == other.place
}
