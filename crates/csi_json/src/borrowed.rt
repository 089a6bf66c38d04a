//! Values of JSON that borrow their texts, made values of their own: a schedule is read as borrowed values, and most of its
//! events from these.
ghost use Rattle.std.specs.Prelude.{◌≡◌, Some, IfOk, IfSome};
ghost use Rattle.json.specs.Value.{value_view, items_view as items_seen, members_view as members_seen};
ghost use Rattle.serde_json.specs.Data.{unsigned, no_members};
ghost use Rattle.serde_json.specs.Read.{number_of, of_json, of_items, of_members};
ghost use Rattle.serde_json.specs.View.{view, items_view, members_view};

use crate::values::Flaw;
use fast_float::Numeral;
use json::Value as Borrowed;
use serde_json::{Map, Value, put};
use std::alloc::Global;

/// The whole number of 64 bits that a number's text says, where it has no sign, no point and no exponent.
pub fn plain_number(text: &str) -> Option<u64>
    ensures { IfSome result (λ number. number_of text.now ≡ Some (unsigned number)) }
{
    let bytes = text.as_bytes();
    if bytes.is_empty() || bytes[0] == b'-' {
        return None;
    }
    Numeral::scan(bytes).to_u64()
}

/// The same value with texts of its own. An `Err` says also that a number in it isn't plain.
#[cycle(owned)]
pub fn owned(alloc: Global, value: &Borrowed<'_>) -> Result<Value, Flaw>
    ensures { IfOk result (λ made. of_json (value_view value.now) ≡ Some (view made)) }
{
    match value {
        Borrowed::Null => Ok(Value::Null),
        Borrowed::Bool(flag) => Ok(Value::Bool(*flag)),
        Borrowed::Number(text) => {
            let number = plain_number(text).ok_or(Flaw::Bad)?;
            Ok(Value::from(number))
        }
        Borrowed::String(text) => Ok(Value::try_from_str(alloc, text)?),
        Borrowed::Array(items) => Ok(Value::Array(owned_items(alloc, items)?)),
        Borrowed::Object(members) => Ok(Value::Object(owned_members(alloc, members)?)),
    }
}

#[cycle(owned)]
fn owned_items(alloc: Global, items: &[Borrowed<'_>]) -> Result<Vec<Value>, Flaw>
    ensures { IfOk result (λ list. of_items (items_seen items.now) ≡ Some (items_view list.items)) }
{
    let mut list = Vec::new(alloc);
    for item in items {
        let value = owned(alloc, item)?;
        list.push(value)?;
    }
    Ok(list)
}

#[cycle(owned)]
fn owned_members(
    alloc: Global,
    members: &[(&str, Borrowed<'_>)],
) -> Result<Map<String, Value>, Flaw>
    ensures { IfOk result (λ map. of_members (members_seen members.now) no_members ≡ Some (members_view map.entries)) }
{
    let mut map = Map::new(alloc);
    for member in members {
        let value = owned(alloc, &member.1)?;
        put(&mut map, alloc, member.0, value)?;
    }
    Ok(map)
}
