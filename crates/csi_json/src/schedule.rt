//! A schedule: a configuration, and what happens. It is read from JSON. This profile's own.
ghost use Rattle.std.specs.Prelude.{◌≡◌, ◌++◌, IfOk, IfErr, map};
ghost use Rattle.serde_json.specs.View.{view};
ghost use Rattle.csi_json.specs.Public.Faults.{IsScheduleFault};
ghost use Rattle.csi_json.specs.declared.fault.ScheduleFault.TheVariants.{NoMemory};
ghost use Rattle.csi_json.specs.Public.Schedule.{happenings_of, schedule_of, schedule_shown, text_schedule, BeginsWithRecovery};
ghost use Rattle.csi_json.specs.declared.happening.Happening.TheVariants as happenings;

use crate::configs::config;
use crate::fault::ScheduleFault;
use crate::happening::Happening;
use crate::lists::read_happenings;
use crate::plain::read_plain;
use crate::values::{Flaw, list, member, sized_object};
use csi_types::{Config, Event};
use serde_json::Value;
use std::alloc::Global;

/// The most events that a schedule has.
pub const MAX_EVENTS: usize = 100_000;

/// A schedule: the configuration, and what happens, in order: the events before the first recovery, and what happens from there on. This
/// profile's own.
#[derive(Drop)]
pub struct Schedule {
    /// The configuration of the controller.
    pub config: Config,
    /// The first events.
    pub events: Vec<Event>,
    /// What happens behind them.
    pub on: Vec<Happening>,
}

// What happens by a list, of which there may not be too much.
#[tactic(auto, unfolding(crate::specs::Public::Schedule::happenings_of))]
fn all_happenings(alloc: Global, items: &[Value]) -> Result<Vec<Happening>, ScheduleFault>
    ensures read { IfOk result (λ list. happenings_of (map view items.now) ≡ Ok list.items) }
    ensures fault { IfErr result (IsScheduleFault (happenings_of (map view items.now))) }
{
    if items.len() > MAX_EVENTS {
        return Err(ScheduleFault::TooMany);
    }
    read_happenings(alloc, items)
}

// The events before the first recovery, and what happens from there on.
fn parted(alloc: Global, all: Vec<Happening>) -> Result<(Vec<Event>, Vec<Happening>), ScheduleFault>
    ensures ok { IfOk result (λ made. map happenings.Occurs made.0.items ++ made.1.items ≡ all.items) }
    ensures onward { IfOk result (λ made. BeginsWithRecovery made.1.items) }
    ensures err { IfErr result (λ fault. fault ≡ NoMemory) }
{
    let mut events = Vec::new(alloc);
    let mut on = Vec::new(alloc);
    for happening in all {
        match happening {
            Happening::Occurs(event) if on.is_empty() => {
                if events.push(event).is_err() {
                    return Err(ScheduleFault::NoMemory);
                }
            }
            happening => {
                if on.push(happening).is_err() {
                    return Err(ScheduleFault::NoMemory);
                }
            }
        }
    }
    Ok((events, on))
}

// The schedule that a value is.
#[tactic(auto, unfolding(crate::specs::Public::Schedule::config_and_events))]
fn schedule_in(alloc: Global, value: &Value) -> Result<Schedule, ScheduleFault>
    ensures read { IfOk result (λ made. schedule_of (view value.now) ≡ Ok (schedule_shown made)) }
    ensures onward { IfOk result (λ made. BeginsWithRecovery made.on.items) }
    ensures fault { IfErr result (IsScheduleFault (schedule_of (view value.now))) }
{
    let object = sized_object(value, 2)?;
    let config = config(alloc, member(object, "config")?)?;
    let items = list(member(object, "events")?)?;
    let all = all_happenings(alloc, items)?;
    let (events, on) = parted(alloc, all)?;
    Ok(Schedule { config, events, on })
}

// The schedule that a text says, whatever its form.
fn judged(alloc: Global, text: &str) -> Result<Schedule, ScheduleFault>
    ensures read { IfOk result (λ made. text_schedule text.now ≡ Ok (schedule_shown made)) }
    ensures onward { IfOk result (λ made. BeginsWithRecovery made.on.items) }
    ensures fault { IfErr result (IsScheduleFault (text_schedule text.now)) }
{
    match Value::from_str(alloc, text) {
        Ok(value) => schedule_in(alloc, &value),
        Err(error) if error.is_memory() => Err(ScheduleFault::NoMemory),
        Err(_) => Err(ScheduleFault::NotJson),
    }
}

/// The schedule that a text says, in the format of a schedule. Judged in this order: `NotJson` where the text isn't JSON,
/// `BadSchedule` at 0 where the object or its configuration isn't as the format says, `TooMany`, and `BadSchedule` at the first event
/// that isn't as the format says. `NoMemory` can come at any step.
pub fn read_schedule(alloc: Global, text: &str) -> Result<Schedule, ScheduleFault>
    ensures read { IfOk result (λ made. text_schedule text.now ≡ Ok (schedule_shown made)) }
    ensures onward { IfOk result (λ made. BeginsWithRecovery made.on.items) }
    ensures fault { IfErr result (IsScheduleFault (text_schedule text.now)) }
{
    match read_plain(alloc, text) {
        Ok((config, events)) => Ok(Schedule {
            config,
            events,
            on: Vec::new(alloc),
        }),
        Err(Flaw::Bad) => judged(alloc, text),
        Err(Flaw::NoMemory) => Err(ScheduleFault::NoMemory),
    }
}
