//! Volumes that come to rest.
ghost use Rattle.std.specs.Prelude.{◌≡◌, ◌+◌, ◌^◌, ◌<◌, ◌≤◌, ◌++◌, ◌||◌, List, length, slice_get, not, true, is_some, is_none, IfOk, OnOk};
ghost use Rattle.csi_types.specs.Model.Config.{Config};
ghost use Rattle.csi_types.specs.declared.event.Event.{Event as Happens};
ghost use Rattle.csi_types.specs.declared.event.Event.TheVariants.{Timeout, Deliver};
ghost use Rattle.csi_orchestrator.specs.Model.History.{History};
ghost use Rattle.csi_orchestrator.specs.Model.Readings.{goal_of};
ghost use Rattle.csi_orchestrator.specs.Model.Shown.{Shows};
ghost use Rattle.csi_world.specs.Model.After.{occurs, after, delivered_on, settled_by, settling_way};
ghost use Rattle.csi_world.specs.Model.Simulated.{ShowsRun, ShowsWorld};
ghost use Rattle.csi_world.specs.Model.World.{World as Shown};
ghost use Rattle.csi_world.specs.Public.Settling.{is_at_rest, deliveries, settling, settled as settled_world, MaySettle};
ghost use Rattle.csi_world.specs.Private.Settling.{CameOn, WentOn, IsOfOneMake};
ghost use Rattle.csi_world.specs.Private.Simulating.{Does, IsRun, IsLogged};
ghost use Rattle.csi_world.specs.Public.Simulating.{IsSoundWorld};
ghost use Rattle.csi_world.specs.Public.System.{world_parts};

use crate::laws::settling_law;
use crate::outcomes::Outcome;
use crate::sending;
use crate::system::System;
use crate::world::World;
use csi_orchestrator::Orchestrator;
use csi_types::{Name, NoMemory};

// Whether something is wanted of the volume of this name.
fn is_wanted(orchestrator: &Orchestrator, name: &Name) -> bool
    ensures { (history : History) → Shows orchestrator.now history → result ≡ is_some (goal_of history name.now) }
{
    match orchestrator.place_of(name) {
        Some(place) => orchestrator.rows()[place].goal.is_some(),
        None => false,
    }
}

impl System {
    // Whether something is wanted of the volume of this name, and more frames than so many were sent.
    fn goes_on(&self, name: &Name, sent: u64) -> bool
        ensures { (world : Shown) → ShowsWorld (world_parts self.now) world → result ≡ not (is_at_rest world name.now || is_none (slice_get world.frames sent)) }
    {
        is_wanted(&self.orchestrator, name) && sent < self.frames.len() as u64
    }

    /// What comes of a timeout of the volume, which isn't logged yet.
    #[inline(never)]
    pub(crate) fn outcome_of_timeout(&mut self, name: &Name) -> Result<Outcome, NoMemory>
        ensures does { Does (world_parts self.old) (world_parts self.new) result (λ world. occurs world (Timeout name.now)) }
        ensures make { OnOk result (IsOfOneMake (world_parts self.old) (world_parts self.new)) }
    {
        csi_orchestrator::form_law();
        sending::settled(&mut self.frames, self.orchestrator.timeout(name))
    }

    // A timeout of the volume comes, which is logged.
    fn time_out(&mut self, name: &Name) -> Result<(), NoMemory>
        ensures logged { (world : Shown) → IsSoundWorld (world_parts self.old) → ShowsWorld (world_parts self.old) world →
            OnOk result (IsLogged (world_parts self.old) (world_parts self.new) (occurs world (Timeout name.now))) }
        ensures make { OnOk result (IsOfOneMake (world_parts self.old) (world_parts self.new)) }
    {
        let outcome = self.outcome_of_timeout(name)?;
        self.outcomes.push(outcome)?;
        Ok(())
    }

    // The frame of this number is delivered, which is logged.
    fn bring(&mut self, bytes: &mut Vec<u8>, number: u64) -> Result<(), NoMemory>
        ensures logged { (world : Shown) → IsSoundWorld (world_parts self.old) → ShowsWorld (world_parts self.old) world →
            OnOk result (IsLogged (world_parts self.old) (world_parts self.new) (occurs world (Deliver number))) }
        ensures make { OnOk result (IsOfOneMake (world_parts self.old) (world_parts self.new)) }
    {
        let outcome = self.deliver(bytes, number)?;
        self.outcomes.push(outcome)?;
        Ok(())
    }

    // Delivers the frame behind so many, and then each one behind that, twelve at most, until the volume is at rest or no
    // such frame is there. Nothing is logged. Answers how many.
    fn deliver_on(&mut self, bytes: &mut Vec<u8>, name: &Name, first: u64) -> Result<u64, NoMemory>
        requires { first + 13 < 2 ^ 64 }
        ensures few { IfOk result (λ count. count ≤ 12) }
        ensures came { (world : Shown) → IsSoundWorld (world_parts self.old) → ShowsWorld (world_parts self.old) world →
            IfOk result (λ count. CameOn (world_parts self.old) (world_parts self.new) (delivered_on 12 (record { world = world; events = 1 }) name.now first) (count + 1)) }
    {
        for brought in 0..12u64 {
            if !self.goes_on(name, first + brought) {
                return Ok(brought);
            }
            self.deliver(bytes, first + brought + 1)?;
        }
        Ok(12)
    }

    /// Lets a volume come to rest, and answers by how many events. Nothing is logged. A frame that is delivered is written in place of the
    /// bytes. An `Err` is an allocation that was refused; the system is of no use then.
    pub(crate) fn go_to_rest(&mut self, bytes: &mut Vec<u8>, name: &Name) -> Result<u64, NoMemory>
        ensures few { IfOk result (λ count. count ≤ 13) }
        ensures came { (world : Shown) → IsSoundWorld (world_parts self.old) → ShowsWorld (world_parts self.old) world →
            IfOk result (CameOn (world_parts self.old) (world_parts self.new) (settling_way world name.now)) }
    {
        if !is_wanted(&self.orchestrator, name) {
            return Ok(0);
        }
        let first = self.frames.len() as u64;
        self.outcome_of_timeout(name)?;
        let brought = self.deliver_on(bytes, name, first)?;
        Ok(brought + 1)
    }

    /// The same as one event, of which this comes.
    #[inline(never)]
    pub(crate) fn bring_to_rest(
        &mut self,
        bytes: &mut Vec<u8>,
        name: &Name,
    ) -> Result<Outcome, NoMemory>
        ensures { Does (world_parts self.old) (world_parts self.new) result (λ world. settled_by name.now (settling_way world name.now)) }
    {
        let count = self.go_to_rest(bytes, name)?;
        if is_wanted(&self.orchestrator, name) {
            Ok(Outcome::NotSettled(count))
        } else {
            Ok(Outcome::Settled(count))
        }
    }

    // Delivers the frame behind so many, and then each one behind that, twelve at most, until the volume is at rest or no
    // such frame is there. Answers how many.
    fn deliver_next(
        &mut self,
        bytes: &mut Vec<u8>,
        name: &Name,
        first: u64,
    ) -> Result<u64, NoMemory>
        requires { first + 13 < 2 ^ 64 }
        ensures few { IfOk result (λ count. count ≤ 12) }
        ensures went { (config : Config) (events : List Happens) → IsRun config events (world_parts self.old) →
            IfOk result (WentOn config events (deliveries 12 (after config events).world name.now first) (world_parts self.new)) }
        ensures make { OnOk result (IsOfOneMake (world_parts self.old) (world_parts self.new)) }
    {
        for count in 0..12u64 {
            if !self.goes_on(name, first + count) {
                return Ok(count);
            }
            self.bring(bytes, first + count + 1)?;
        }
        Ok(12)
    }

    /// Lets a volume come to rest, and answers by how many events. A frame that is delivered is written in place of the bytes. An
    /// `Err` is an allocation that was refused; the system is of no use then.
    pub(crate) fn settle(&mut self, bytes: &mut Vec<u8>, name: &Name) -> Result<u64, NoMemory>
        ensures few { IfOk result (λ count. count ≤ 13) }
        ensures went { (config : Config) (events : List Happens) → IsRun config events (world_parts self.old) →
            IfOk result (WentOn config events (settling (after config events).world name.now) (world_parts self.new)) }
        ensures make { OnOk result (IsOfOneMake (world_parts self.old) (world_parts self.new)) }
    {
        if !is_wanted(&self.orchestrator, name) {
            return Ok(0);
        }
        let first = self.frames.len() as u64;
        self.time_out(name)?;
        let count = self.deliver_next(bytes, name, first)?;
        Ok(count + 1)
    }
}

/// A world in which a volume was let come to rest.
#[derive(Drop)]
pub struct Settled {
    /// The world then.
    pub world: World,
    /// By how many events, at most thirteen.
    pub events: u64,
    /// Whether nothing is wanted of the volume any more.
    pub rest: bool,
}

impl World {
    /// Lets the volume of this name come to rest: one timeout, and then deliveries of the frames that are sent from there on, the
    /// oldest first, until nothing is wanted of the volume, an event sent nothing, or twelve were delivered. Where nothing is wanted
    /// of it, or no volume has the name, nothing happens. Each event is logged, as in `simulate`, so that the world of a run is then
    /// that of a longer one. The volume is at rest then if six numbers were left in the session, and the node of its use or its stop
    /// is there, where it is listed (`settling_law`). An `Err` is an allocation that was refused; the world is dropped then. This
    /// profile's own.
    pub fn settle(self, name: &Name) -> Result<Settled, NoMemory>
        ensures run { (config : Config) (events : List Happens) → ShowsRun self (after config events) →
            IfOk result (λ settled. ShowsRun settled.world (after config (events ++ settling (after config events).world name.now))) }
        ensures events { (config : Config) (events : List Happens) → ShowsRun self (after config events) →
            IfOk result (λ settled. settled.events ≡ length (settling (after config events).world name.now)) }
        ensures rest { (config : Config) (events : List Happens) → ShowsRun self (after config events) →
            IfOk result (λ settled. settled.rest ≡ is_at_rest (settled_world (after config events).world name.now) name.now) }
        ensures settles { (config : Config) (events : List Happens) → ShowsRun self (after config events) → MaySettle (after config events).world name.now →
            IfOk result (λ settled. settled.rest ≡ true) }
        ensures few { IfOk result (λ settled. settled.events ≤ 13) }
    {
        settling_law();
        let mut system = self.into_system();
        let mut bytes = Vec::new(system.alloc);
        match system.settle(&mut bytes, name) {
            Ok(events) => {
                let wanted = is_wanted(&system.orchestrator, name);
                Ok(Settled {
                    world: World::of(system),
                    events,
                    rest: !wanted,
                })
            }
            Err(NoMemory) => Err(NoMemory),
        }
    }
}
