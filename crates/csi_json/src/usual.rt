//! Commands of the usual form, which are read without a value for each: objects that have the keys of their kind, each once and in
//! order. A command of another form is left to the reader that judges it.
ghost use Rattle.std.specs.Prelude.{◌≡◌, Some, IfOk, IfSome};
ghost use Rattle.csi_json.specs.Public.Json.{text_of};
ghost use Rattle.csi_json.specs.Public.Capabilities.{capability_of};
ghost use Rattle.csi_json.specs.Public.Events.{use_of, stop_of};
ghost use Rattle.csi_json.specs.Private.Plain.{event_in, seen_as};

use crate::access::capability;
use crate::borrowed::{owned, plain_number};
use crate::values::Flaw;
use csi_types::{Access, Capability, Event, LimitedText, Mode, TextFault};
use json::Value;
use std::alloc::Global;

// A volume's name, a node's id or a target.
fn text_in<Of, const MOST: usize>(
    alloc: Global,
    value: &Value<'_>,
) -> Result<LimitedText<Of, MOST>, Flaw>
    ensures { IfOk result (λ text. seen_as (text_of 1 MOST) value.now ≡ Some text) }
{
    let Value::String(text) = value else {
        return Err(Flaw::Bad);
    };
    match LimitedText::try_new(alloc, text) {
        Ok(text) => Ok(text),
        Err(TextFault::NoMemory) => Err(Flaw::NoMemory),
        Err(TextFault::Empty | TextFault::TooLong) => Err(Flaw::Bad),
    }
}

// A capability with block access, in the usual form.
fn block_in(value: &Value<'_>) -> Option<Capability>
    ensures { IfSome result (λ capability. seen_as capability_of value.now ≡ Some capability) }
{
    let Value::Object(members) = value else {
        return None;
    };
    if members.len() != 2 {
        return None;
    }
    let first = &members[0];
    let second = &members[1];
    if first.0 != "access" || second.0 != "mode" {
        return None;
    }
    let Value::String(kind) = &first.1 else {
        return None;
    };
    let Value::Number(text) = &second.1 else {
        return None;
    };
    if *kind != "block" {
        return None;
    }
    let number = plain_number(text)?;
    if number > u8::MAX as u64 {
        return None;
    }
    let mode = Mode::from_number(number as u8)?;
    Some(Capability {
        access: Access::Block,
        mode,
    })
}

fn capability_in(alloc: Global, value: &Value<'_>) -> Result<Capability, Flaw>
    ensures { IfOk result (λ capability. seen_as capability_of value.now ≡ Some capability) }
{
    if let Some(capability) = block_in(value) {
        return Ok(capability);
    }
    let value = owned(alloc, value)?;
    capability(alloc, &value)
}

fn usual_stop(alloc: Global, value: &Value<'_>) -> Result<Event, Flaw>
    ensures { IfOk result (λ event. seen_as stop_of value.now ≡ Some event) }
{
    let Value::Object(members) = value else {
        return Err(Flaw::Bad);
    };
    if members.len() != 3 {
        return Err(Flaw::Bad);
    }
    let first = &members[0];
    let second = &members[1];
    let third = &members[2];
    if first.0 != "name" || second.0 != "node" || third.0 != "target" {
        return Err(Flaw::Bad);
    }
    let name = text_in(alloc, &first.1)?;
    let node = text_in(alloc, &second.1)?;
    let target = text_in(alloc, &third.1)?;
    Ok(Event::Stop { name, node, target })
}

fn usual_use(alloc: Global, value: &Value<'_>) -> Result<Event, Flaw>
    ensures { IfOk result (λ event. seen_as use_of value.now ≡ Some event) }
{
    let Value::Object(members) = value else {
        return Err(Flaw::Bad);
    };
    if members.len() != 5 {
        return Err(Flaw::Bad);
    }
    let first = &members[0];
    let second = &members[1];
    let third = &members[2];
    let fourth = &members[3];
    let fifth = &members[4];
    if first.0 != "capability" || second.0 != "name" || third.0 != "node" {
        return Err(Flaw::Bad);
    }
    if fourth.0 != "readonly" || fifth.0 != "target" {
        return Err(Flaw::Bad);
    }
    let Value::Bool(readonly) = &fourth.1 else {
        return Err(Flaw::Bad);
    };
    let capability = capability_in(alloc, &first.1)?;
    let name = text_in(alloc, &second.1)?;
    let node = text_in(alloc, &third.1)?;
    let target = text_in(alloc, &fifth.1)?;
    Ok(Event::Use {
        name,
        node,
        target,
        capability,
        readonly: *readonly,
    })
}

/// A use or a stop of the usual form. An `Err` judges nothing.
pub(crate) fn usual_command(alloc: Global, value: &Value<'_>) -> Result<Event, Flaw>
    ensures { IfOk result (λ event. event_in value.now ≡ Some event) }
{
    let Value::Object(members) = value else {
        return Err(Flaw::Bad);
    };
    if members.len() != 1 {
        return Err(Flaw::Bad);
    }
    let only = &members[0];
    if only.0 == "use" {
        return usual_use(alloc, &only.1);
    }
    if only.0 == "stop" {
        return usual_stop(alloc, &only.1);
    }
    Err(Flaw::Bad)
}
