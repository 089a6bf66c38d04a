//! Schedules of the usual form, which are read event by event: the configuration and then the events, and no number with a sign, a
//! point or an exponent. What has another form is left to the reader that judges it.
ghost use Rattle.std.specs.Prelude.{◌≡◌, ◌<◌, ◌∷◌, length, None, Some, Ok, IfOk, OnOk, IfSome};
ghost use Rattle.json.specs.Json.{read_key, value as value_in_tokens};
ghost use Rattle.json.specs.Token.{begin_array, begin_object};
ghost use Rattle.json.specs.Value.{value_view};
ghost use Rattle.csi_json.specs.Private.Plain.{event_in, IsPut, IsNextPut, SaysConfig, SaysEvents, SaysSchedule};
ghost use Rattle.csi_json.specs.Private.EventSchedules.{text_schedule};
ghost use Rattle.csi_types.specs.declared.event.Event.TheVariants as events;

use crate::borrowed::{owned, plain_number};
use crate::configs::config;
use crate::events::event;
use crate::schedule::MAX_EVENTS;
use crate::usual::usual_command;
use crate::values::Flaw;
use csi_types::{Config, Event};
use json::{Error, Reader, Scratch, Token, Value};
use std::alloc::Global;

// How deep arrays and objects may nest in the configuration, and in an event.
const IN_OBJECT: usize = 126;

const IN_ARRAY: usize = 125;

// The number of the frame that is delivered.
fn delivery(value: &Value<'_>) -> Option<u64>
    ensures { IfSome result (λ number. event_in value.now ≡ Some (events.Deliver number)) }
{
    let Value::Object(members) = value else {
        return None;
    };
    if members.len() != 1 || members[0].0 != "deliver" {
        return None;
    }
    let Value::Number(text) = &members[0].1 else {
        return None;
    };
    plain_number(text)
}

// An event that is no delivery.
fn read_other(alloc: Global, value: &Value<'_>) -> Result<Event, Flaw>
    ensures { IfOk result (λ event. event_in value.now ≡ Some event) }
{
    match usual_command(alloc, value) {
        Err(Flaw::Bad) => {}
        read => return read,
    }
    let value = owned(alloc, value)?;
    event(alloc, &value)
}

// Puts the event that a value is behind these. A delivery, of which most events are, is put into its place at once.
fn put_event(alloc: Global, list: &mut Vec<Event>, value: &Value<'_>) -> Result<(), Flaw>
    ensures { OnOk result (IsPut list.old.items list.new.items value.now) }
{
    match delivery(value) {
        Some(number) => list.push(Event::Deliver(number))?,
        None => list.push(read_other(alloc, value)?)?,
    }
    Ok(())
}

// The next value, in which others may nest so deep.
fn next_value<'a>(alloc: Global, reader: &mut Reader<'a>, depth: usize) -> Result<Value<'a>, Flaw>
    ensures read { IfOk result (λ value. value_in_tokens depth reader.old ≡ Some (value_view value, reader.new)) }
    ensures shorter { OnOk result (length reader.new < length reader.old) }
{
    match Value::read(alloc, reader, depth) {
        Ok(value) => Ok(value),
        Err(Error::OutOfMemory) => Err(Flaw::NoMemory),
        Err(_) => Err(Flaw::Bad),
    }
}

// Puts the event that the next value is behind these, and lets the value go.
fn next_event(alloc: Global, reader: &mut Reader<'_>, list: &mut Vec<Event>) -> Result<(), Flaw>
    ensures { OnOk result (IsNextPut reader.old reader.new list.old.items list.new.items) }
{
    let value = next_value(alloc, reader, IN_ARRAY)?;
    put_event(alloc, list, &value)
}

// The events up to the bracket that closes their array.
fn read_events(alloc: Global, reader: &mut Reader<'_>) -> Result<Vec<Event>, Flaw>
    ensures { IfOk result (λ list. SaysEvents reader.old list.items reader.new) }
{
    let mut list = Vec::new(alloc);
    while !reader.take_end_array() {
        if list.len() == MAX_EVENTS {
            return Err(Flaw::Bad);
        }
        next_event(alloc, reader, &mut list)?;
    }
    Ok(list)
}

fn read_config(alloc: Global, reader: &mut Reader<'_>) -> Result<Config, Flaw>
    ensures { IfOk result (λ config. SaysConfig reader.old config reader.new) }
{
    let value = next_value(alloc, reader, IN_OBJECT)?;
    let value = owned(alloc, &value)?;
    config(alloc, &value)
}

// Passes the brace that opens an object.
fn pass_brace(reader: &mut Reader<'_>) -> Result<(), Flaw>
    ensures { OnOk result (reader.old ≡ begin_object ∷ reader.new) }
{
    match reader.next() {
        Some(Token::BeginObject) => Ok(()),
        _ => Err(Flaw::Bad),
    }
}

// Passes the bracket that opens an array.
fn pass_bracket(reader: &mut Reader<'_>) -> Result<(), Flaw>
    ensures { OnOk result (reader.old ≡ begin_array ∷ reader.new) }
{
    match reader.next() {
        Some(Token::BeginArray) => Ok(()),
        _ => Err(Flaw::Bad),
    }
}

// Passes this key.
fn pass_key(reader: &mut Reader<'_>, key: &str) -> Result<(), Flaw>
    ensures { OnOk result (read_key reader.old ≡ Some (Some key.now, reader.new)) }
{
    match reader.next_key() {
        Ok(Some(found)) => { if found == key { Ok(()) } else { Err(Flaw::Bad) } }
        _ => Err(Flaw::Bad),
    }
}

// Passes the brace that closes an object.
fn pass_end(reader: &mut Reader<'_>) -> Result<(), Flaw>
    ensures { OnOk result (read_key reader.old ≡ Some (None, reader.new)) }
{
    match reader.next_key() {
        Ok(None) => Ok(()),
        _ => Err(Flaw::Bad),
    }
}

#[tactic(auto, using(crate::proofs::PlainSchedules::said))]
fn schedule(alloc: Global, reader: &mut Reader<'_>) -> Result<(Config, Vec<Event>), Flaw>
    ensures { IfOk result (λ made. SaysSchedule reader.old (record { config = made.0; events = made.1.items }) reader.new) }
{
    pass_brace(reader)?;
    pass_key(reader, "config")?;
    let config = read_config(alloc, reader)?;
    pass_key(reader, "events")?;
    pass_bracket(reader)?;
    let events = read_events(alloc, reader)?;
    pass_end(reader)?;
    Ok((config, events))
}

/// The configuration and the events of a text that has the usual form. An `Err` judges nothing: it says that the text has
/// another form, or that an allocation was refused.
#[tactic(auto, using(crate::proofs::PlainSchedules::text_is))]
pub(crate) fn read_plain(alloc: Global, text: &str) -> Result<(Config, Vec<Event>), Flaw>
    ensures { IfOk result (λ made. text_schedule text.now ≡ Ok (record { config = made.0; events = made.1.items })) }
{
    let mut scratch = Scratch::new(alloc);
    let mut reader = Reader::new(text, &mut scratch)?;
    let read = schedule(alloc, &mut reader)?;
    if reader.next().is_some() {
        return Err(Flaw::Bad);
    }
    Ok(read)
}
