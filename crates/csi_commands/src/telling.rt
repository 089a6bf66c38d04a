//! A schedule that is told by events that settle nothing.
ghost use Rattle.std.specs.Prelude.{◌≡◌, [], IfOk};
ghost use Rattle.std.specs.List.{list_any};
ghost use Rattle.csi_json.specs.Public.Schedule.{schedule_shown, BeginsWithRecovery};
ghost use Rattle.csi_json.specs.declared.happening.Happening.TheVariants as happenings;
ghost use Rattle.csi_world.specs.Public.Settling.{spelled_out};
ghost use Rattle.csi_commands.specs.Public.Running.{settles, IsToldAs};

use crate::playing::happen;
use csi_json::{Happening, Schedule};
use csi_orchestrator::moves_law;
use csi_recovery::recovery_law;
use csi_types::{Config, Name, NoMemory};
use csi_world::{Event, Outcome, World, simulate, told_one_by_one};
use std::alloc::Global;

// Whether one of these events settles a volume.
fn has_settling(events: &[Event]) -> bool
    ensures { result ≡ list_any (λ event. settles (happenings.Occurs event)) events.now }
{
    events.iter().any(|event| matches!(event, Event::Settle(_)))
}

// Whether something that happens does.
fn has_settling_on(on: &[Happening]) -> bool
    ensures { result ≡ list_any settles on.now }
{
    on.iter().any(|happening| matches!(happening, Happening::Occurs(Event::Settle(_))))
}

// By how many events the last event settled a volume.
fn last_count(world: &World) -> u64 {
    match world.outcomes().last() {
        Some(Outcome::Settled(count) | Outcome::NotSettled(count)) => *count,
        _ => 0,
    }
}

// Tells so many events, by which the volume of this name came on its way to rest when so many frames were sent.
fn tell_settling(
    told: &mut Vec<Happening>,
    name: &Name,
    first: u64,
    count: u64,
) -> Result<(), NoMemory> {
    if count == 0 {
        return Ok(());
    }
    told.push(Happening::Occurs(Event::Timeout(name.clone()?)))?;
    for number in 1..count {
        told.push(Happening::Occurs(Event::Deliver(first.saturating_add(number))))?;
    }
    Ok(())
}

// Tells what happened, when so many frames were sent; by so many events, where it settled a volume.
fn tell(
    told: &mut Vec<Happening>,
    happening: Happening,
    first: u64,
    count: u64,
) -> Result<(), NoMemory> {
    match happening {
        Happening::Occurs(Event::Settle(name)) => tell_settling(told, &name, first, count),
        happening => {
            told.push(happening)?;
            Ok(())
        }
    }
}

// Tells what happens behind these events.
fn told_on(
    alloc: Global,
    config: &Config,
    events: &[Event],
    on: Vec<Happening>,
) -> Result<Vec<Happening>, NoMemory> {
    moves_law();
    recovery_law();
    let mut told = Vec::new(alloc);
    let mut world = simulate(alloc, config, events)?;
    for happening in on {
        let first = world.frame_count();
        world = happen(alloc, world, &happening)?;
        tell(&mut told, happening, first, last_count(&world))?;
    }
    Ok(told)
}

// Tells a schedule, in which something settles a volume.
fn retold(alloc: Global, schedule: Schedule) -> Result<Schedule, NoMemory>
    ensures config { IfOk result (λ told. told.config ≡ schedule.config) }
    ensures events { IfOk result (λ told. told.events.items ≡ spelled_out schedule.config schedule.events.items) }
    ensures alone { schedule.on.items ≡ [] → IfOk result (λ told. told.on.items ≡ []) }
{
    let Schedule { config, events, on } = schedule;
    let first = told_one_by_one(alloc, &config, events)?;
    let on = if on.is_empty() {
        on
    } else {
        told_on(alloc, &config, &first, on)?
    };
    Ok(Schedule {
        config,
        events: first,
        on,
    })
}

/// A schedule, told by events that settle nothing: what settles a volume is told by its timeout and its deliveries, one after another. Where
/// nothing does, it needn't be run for that. An `Err` is an allocation that was refused.
pub(crate) fn told(alloc: Global, schedule: Schedule) -> Result<Schedule, NoMemory>
    ensures { BeginsWithRecovery schedule.on.items → IfOk result (λ told. IsToldAs (schedule_shown schedule) (schedule_shown told)) }
{
    if has_settling(&schedule.events) || has_settling_on(&schedule.on) {
        retold(alloc, schedule)
    } else {
        Ok(schedule)
    }
}
