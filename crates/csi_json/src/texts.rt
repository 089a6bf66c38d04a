//! Texts within their limits, in JSON.
ghost use Rattle.std.specs.Prelude.{◌≡◌, is_some, true};
ghost use Rattle.serde_json.specs.View.{view};
ghost use Rattle.csi_json.specs.Private.Json.{Reads, WantsOnly};
ghost use Rattle.csi_json.specs.Public.Json.{text_of, fs_type_of};

use crate::values::{Flaw, text};
use csi_types::{FsType, LimitedText, TextFault};
use serde_json::Value;
use std::alloc::Global;

/// A volume's name, a node's id or a target. `NoMemory` only where it is one; so with the text below.
#[tactic(auto, unfolding(crate::specs::Public::Json::text_of))]
pub fn limited<Of, const MOST: usize>(
    alloc: Global,
    value: &Value,
) -> Result<LimitedText<Of, MOST>, Flaw>
    ensures read { Reads (λ limited. limited) result (text_of 1 MOST (view value.now)) }
    ensures memory { WantsOnly result (is_some (text_of 1 MOST (view value.now)) ≡ true) }
{
    let text = text(value)?;
    match LimitedText::try_new(alloc, text) {
        Ok(limited) => Ok(limited),
        Err(TextFault::NoMemory) => Err(Flaw::NoMemory),
        Err(TextFault::Empty | TextFault::TooLong) => Err(Flaw::Bad),
    }
}

/// A file system's type.
#[tactic(auto, unfolding(crate::specs::Public::Json::text_of))]
pub fn fs_type(alloc: Global, value: &Value) -> Result<FsType, Flaw>
    ensures read { Reads (λ fs_type. fs_type) result (fs_type_of (view value.now)) }
    ensures memory { WantsOnly result (is_some (fs_type_of (view value.now)) ≡ true) }
{
    let text = text(value)?;
    match FsType::try_new(alloc, text) {
        Ok(fs_type) => Ok(fs_type),
        Err(TextFault::NoMemory) => Err(Flaw::NoMemory),
        Err(TextFault::Empty | TextFault::TooLong) => Err(Flaw::Bad),
    }
}
