//! Frames as bytes: what a call or a reply is on the wire, written and read exactly, whole or in pieces.
#![tactic(auto)]

mod body;
mod body_kind;
mod borrowed;
mod calls;
mod cutting;
mod decoding;
mod encoding;
mod fault;
mod fields;
mod frame_ref;
mod owned;
mod progress;
mod splitter;
mod version;
mod writing;

pub use body::{MAX_BODY, number_at};
pub use body_kind::{reply_kind, reply_kind_number};
pub use calls::{capability_at, status_at};
pub use cutting::any_cutting;
pub use decoding::{decode, one_reading};
pub use encoding::{encode, encode_reply};
pub use fault::{FaultKind, FrameFault};
pub use fields::{FieldStop, Fields};
pub use frame_ref::FrameRef;
pub use splitter::Splitter;
pub use version::Version;
pub use writing::{
    append_byte, append_capability, append_flag, append_reply, append_text, append_word,
};
