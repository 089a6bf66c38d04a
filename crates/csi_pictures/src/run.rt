//! A run to its picture: its events, the world to which they led, and the nodes that have lanes.

use csi_json::{Happening, Recovery, Schedule};
use csi_types::{NodeId, NodeSlots};
use csi_world::{Event, Outcome, World};
use std::alloc::{AllocError, Global};

/// What happens in a row.
#[derive(Clone, Copy)]
pub enum What<'a> {
    Occurs(&'a Event),
    Recovers(&'a Recovery),
}

/// An event, what came of it, and the number of its row, from 1.
#[derive(Clone, Copy)]
pub struct Row<'a> {
    pub number: usize,
    pub what: What<'a>,
    pub outcome: Outcome,
}

/// A run: its events, the world to which they led, and the ids of the nodes that were ever there, in the order in which they came, of
/// which so many were there at first.
#[derive(Drop)]
pub struct Run<'a> {
    pub world: &'a World,
    pub rows: Vec<Row<'a>>,
    pub nodes: Vec<NodeId>,
    pub first: usize,
}

// Appends the row behind the others, of which this came.
fn put_row<'a>(
    rows: &mut Vec<Row<'a>>,
    what: What<'a>,
    outcomes: &[Outcome],
) -> Result<(), AllocError> {
    if let Some(outcome) = outcomes.get(rows.len()) {
        let number = rows.len() + 1;
        let outcome = *outcome;
        rows.push(Row {
            number,
            what,
            outcome,
        })?;
    }
    Ok(())
}

// The rows of the first events and of what happens behind them, of which this came.
fn rows_of<'a>(
    alloc: Global,
    events: &'a [Event],
    on: &'a [Happening],
    outcomes: &[Outcome],
) -> Result<Vec<Row<'a>>, AllocError> {
    let mut rows = Vec::new(alloc);
    for event in events {
        put_row(&mut rows, What::Occurs(event), outcomes)?;
    }
    for happening in on {
        let what = match happening {
            Happening::Occurs(event) => What::Occurs(event),
            Happening::Recovers(recovery) => What::Recovers(recovery),
        };
        put_row(&mut rows, what, outcomes)?;
    }
    Ok(rows)
}

// Appends the id of a node that joins, unless it is among the others.
fn add_joined(ids: &mut Vec<NodeId>, row: &Row<'_>) -> Result<(), AllocError> {
    let (What::Occurs(Event::Join(id)), Outcome::Joined) = (row.what, row.outcome) else {
        return Ok(());
    };
    if ids.contains(id) {
        return Ok(());
    }
    let id = id.clone()?;
    ids.push(id)?;
    Ok(())
}

// The ids of the nodes of a configuration.
fn ids_of(alloc: Global, nodes: &[NodeSlots]) -> Result<Vec<NodeId>, AllocError> {
    let mut ids = Vec::new(alloc);
    for node in nodes {
        let id = node.id.clone()?;
        ids.push(id)?;
    }
    Ok(ids)
}

/// The run of a schedule, which led to this world.
pub fn run_of<'a>(
    alloc: Global,
    schedule: &'a Schedule,
    world: &'a World,
) -> Result<Run<'a>, AllocError> {
    let rows = rows_of(alloc, &schedule.events, &schedule.on, world.outcomes())?;
    let listed = schedule.config.nodes();
    let mut nodes = ids_of(alloc, listed)?;
    for row in &rows {
        add_joined(&mut nodes, row)?;
    }
    let first = listed.len();
    Ok(Run {
        world,
        rows,
        nodes,
        first,
    })
}
