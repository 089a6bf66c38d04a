//! Values of JSON, read as numbers, texts and objects.
ghost use Rattle.std.specs.Prelude.{◌≡◌, option_and_then, option_map, map};
ghost use Rattle.serde_json.specs.Find.{get, as_str, as_bool};
ghost use Rattle.serde_json.specs.View.{view};
ghost use Rattle.csi_json.specs.Private.Json.{Reads, WantsOnly};
ghost use Rattle.csi_json.specs.Public.Json.{number_of, list_of, only_member as sole, sized_object as object_of};

use serde_json::Value;
use std::alloc::{AllocError, AllocFailed};

/// Why a value was not read.
#[derive(Clone, Copy)]
pub enum Flaw {
    /// It isn't as the format says.
    Bad,
    /// An allocation was refused.
    NoMemory,
}

impl<T: Drop> From<AllocFailed<T>> for Flaw {
    ghost use Rattle.std.specs.Prelude.{◌≡◌};
    ghost use Rattle.csi_json.specs.declared.values.Flaw.TheVariants.{NoMemory as Refused};

    ghost from_gives = { λ _ flaw. flaw ≡ Refused };

    fn from(_refused: AllocFailed<T>) -> Flaw {
        Flaw::NoMemory
    }
}

impl From<AllocError> for Flaw {
    ghost use Rattle.std.specs.Prelude.{◌≡◌};
    ghost use Rattle.csi_json.specs.declared.values.Flaw.TheVariants.{NoMemory as Refused};

    ghost from_gives = { λ _ flaw. flaw ≡ Refused };

    fn from(_refused: AllocError) -> Flaw {
        Flaw::NoMemory
    }
}

/// The value at a key of an object.
pub fn member<'a>(object: &'a Value, key: &str) -> Result<&'a Value, Flaw>
    ensures read { Reads (λ value. view value.now) result (get key.now (view object.now)) }
    ensures memory { WantsOnly result ⊥ }
{
    object.get(key).ok_or(Flaw::Bad)
}

/// A whole number of 64 bits.
#[tactic(auto, unfolding(crate::specs::Public::Json::number_of))]
pub fn number(value: &Value) -> Result<u64, Flaw>
    ensures read { Reads (λ number. number) result (number_of (view value.now)) }
    ensures memory { WantsOnly result ⊥ }
{
    value.as_u64().ok_or(Flaw::Bad)
}

/// The whole number at a key of an object.
pub fn number_at(object: &Value, key: &str) -> Result<u64, Flaw>
    ensures read { Reads (λ number. number) result (option_and_then number_of (get key.now (view object.now))) }
    ensures memory { WantsOnly result ⊥ }
{
    number(member(object, key)?)
}

/// A text of any length.
pub fn text(value: &Value) -> Result<&str, Flaw>
    ensures read { Reads (λ text. text.now) result (as_str (view value.now)) }
    ensures memory { WantsOnly result ⊥ }
{
    value.as_str().ok_or(Flaw::Bad)
}

/// The `true` or `false` at a key of an object.
pub fn flag_at(object: &Value, key: &str) -> Result<bool, Flaw>
    ensures read { Reads (λ flag. flag) result (option_and_then as_bool (get key.now (view object.now))) }
    ensures memory { WantsOnly result ⊥ }
{
    member(object, key)?.as_bool().ok_or(Flaw::Bad)
}

/// The items of an array.
#[tactic(auto, using(crate::proofs::Items::items_in_view), unfolding(crate::specs::Public::Json::list_of))]
pub fn list(value: &Value) -> Result<&[Value], Flaw>
    ensures read { Reads (λ items. map view items.now) result (list_of (view value.now)) }
    ensures memory { WantsOnly result ⊥ }
{
    match value.as_array() {
        Some(items) => Ok(items.as_slice()),
        None => Err(Flaw::Bad),
    }
}

/// The value itself, where it is an object with this many members.
#[tactic(auto, using(crate::proofs::Items::members_in_view), unfolding(crate::specs::Public::Json::sized_object))]
pub fn sized_object(value: &Value, size: usize) -> Result<&Value, Flaw>
    ensures read { Reads (λ object. view object.now) result (object_of size (view value.now)) }
    ensures memory { WantsOnly result ⊥ }
{
    match value.as_object() {
        Some(members) if members.len() == size => Ok(value),
        _ => Err(Flaw::Bad),
    }
}

/// The key and the value of an object's only member.
pub fn only_member(value: &Value) -> Option<(&str, &Value)>
    ensures { option_map (λ found. (found.0.now, view found.1.now)) result ≡ sole (view value.now) }
{
    let members = value.as_object()?;
    if members.len() != 1 {
        return None;
    }
    let (key, value) = members.first_key_value()?;
    Some((key.as_str(), value))
}
