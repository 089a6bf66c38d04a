//! What is attached, staged and published, as bars on the lanes of the plugins: each from the call that was carried out to the one
//! that undid it, or to the loss of its node, at a recovery too.

use crate::run::{Row, Run, What};
use crate::scene::{is_given, lane_of, node_lane, succeeded};
use crate::things::{Lasting, Thing, begun_by, is_same, undone_by};
use csi_json::Recovery;
use csi_types::{Body, VolumeId};
use csi_world::{Event, Outcome, World};
use std::alloc::{AllocError, Global};

/// A bar: what lasts, from the row of one event to that of another, in a column of a lane; and the number of the call that began it.
#[derive(Clone, Copy)]
pub struct Bar {
    what: Lasting,
    number: u64,
    lane: usize,
    from: usize,
    to: usize,
    column: usize,
}

// A bar that is open: its place, and its volume, which is compared first, as many may be open in a lane.
#[derive(Clone, Copy)]
struct Open {
    place: usize,
    volume: VolumeId,
}

// The columns of a lane: in each the bar that is open there, if one is.
#[derive(Drop)]
struct Columns {
    open: Vec<Option<Open>>,
}

// The bars that begun so far, each of which goes below the last row until it ends, and the columns of each lane.
#[derive(Drop)]
struct Begun {
    bars: Vec<Bar>,
    lanes: Vec<Columns>,
}

// The columns of so many lanes, in which nothing is open.
fn blank(alloc: Global, lanes: usize) -> Result<Vec<Columns>, AllocError> {
    let mut columns = Vec::new(alloc);
    for _lane in 0..lanes {
        columns.push(Columns {
            open: Vec::new(alloc),
        })?;
    }
    Ok(columns)
}

// Whether the call of this number brings a thing about.
fn brings(world: &World, number: u64, thing: &Thing<'_>) -> bool {
    let Some(frame) = world.frame(number) else {
        return false;
    };
    let Body::Call(call) = frame.body() else {
        return false;
    };
    match begun_by(call) {
        Some(begun) => is_same(&begun, thing),
        None => false,
    }
}

// Whether the bar that is open in a column is a thing's.
fn is_of(world: &World, bars: &[Bar], open: &Option<Open>, thing: &Thing<'_>) -> bool {
    let Some(open) = open else {
        return false;
    };
    if open.volume != thing.volume {
        return false;
    }
    match bars.get(open.place) {
        Some(bar) => brings(world, bar.number, thing),
        None => false,
    }
}

// The column in which a thing's bar is open.
fn column_of(world: &World, bars: &[Bar], columns: &Columns, thing: &Thing<'_>) -> Option<usize> {
    for (column, open) in columns.open.iter().enumerate() {
        if is_of(world, bars, open, thing) {
            return Some(column);
        }
    }
    None
}

// The first column in which no bar is open; behind the last where there is none.
fn first_free(columns: &Columns) -> usize {
    for (column, open) in columns.open.iter().enumerate() {
        if open.is_none() {
            return column;
        }
    }
    columns.open.len()
}

// Has a bar open in the first column that is free, and gives the column's number.
fn take_column(columns: &mut Columns, bar: Open) -> Result<usize, AllocError> {
    let column = first_free(columns);
    if column < columns.open.len() {
        columns.open[column] = Some(bar);
    } else {
        columns.open.push(Some(bar))?;
    }
    Ok(column)
}

// Ends the bar that is open in a column, if one is.
fn end_in(bars: &mut [Bar], columns: &mut Columns, column: usize, row: usize) {
    let Some(open) = columns.open.get_mut(column) else {
        return;
    };
    let Some(open) = open.take() else {
        return;
    };
    if let Some(bar) = bars.get_mut(open.place) {
        bar.to = row;
    }
}

// The call of this number brought a thing about, which is there from a row on: its bar begins, unless one is open.
fn begin(
    begun: &mut Begun,
    run: &Run<'_>,
    number: u64,
    thing: &Thing<'_>,
    lane: usize,
    row: usize,
) -> Result<(), AllocError> {
    if lane >= begun.lanes.len() {
        return Ok(());
    }
    if column_of(run.world, &begun.bars, &begun.lanes[lane], thing).is_some() {
        return Ok(());
    }
    let place = begun.bars.len();
    let volume = thing.volume;
    let column = take_column(&mut begun.lanes[lane], Open { place, volume })?;
    begun.bars.push(Bar {
        what: thing.what,
        number,
        lane,
        from: row,
        to: run.rows.len() + 1,
        column,
    })?;
    Ok(())
}

// It is undone.
fn end(begun: &mut Begun, run: &Run<'_>, thing: &Thing<'_>, lane: usize, row: usize) {
    let Some(columns) = begun.lanes.get_mut(lane) else {
        return;
    };
    if let Some(column) = column_of(run.world, &begun.bars, columns, thing) {
        end_in(&mut begun.bars, columns, column, row);
    }
}

// All bars of a lane end, whose node is lost.
fn end_all(begun: &mut Begun, lane: usize, row: usize) {
    let Some(columns) = begun.lanes.get_mut(lane) else {
        return;
    };
    for column in 0..columns.open.len() {
        end_in(&mut begun.bars, columns, column, row);
    }
}

// What a call did that was carried out begins, or ends.
fn carry_out(begun: &mut Begun, run: &Run<'_>, number: u64, row: usize) -> Result<(), AllocError> {
    let Some(frame) = run.world.frame(number) else {
        return Ok(());
    };
    let Body::Call(call) = frame.body() else {
        return Ok(());
    };
    let lane = lane_of(&run.nodes, frame.party());
    if let Some(thing) = undone_by(call) {
        end(begun, run, &thing, lane, row);
    }
    match begun_by(call) {
        Some(thing) => begin(begun, run, number, &thing, lane, row),
        None => Ok(()),
    }
}

// All bars of the nodes end whose stores a recovery doesn't have.
fn leave_out(begun: &mut Begun, run: &Run<'_>, recovery: &Recovery, row: usize) {
    for node in &run.nodes {
        if !is_given(recovery, node) {
            end_all(begun, node_lane(&run.nodes, node), row);
        }
    }
}

// What an event began, or ended.
fn follow(begun: &mut Begun, run: &Run<'_>, row: &Row<'_>) -> Result<(), AllocError> {
    match (row.what, row.outcome) {
        (What::Occurs(Event::Deliver(number)), outcome) => {
            if succeeded(run.world, outcome) {
                carry_out(begun, run, *number, row.number)
            } else {
                Ok(())
            }
        }
        (What::Occurs(Event::Lose(node)), Outcome::Lost) => {
            end_all(begun, node_lane(&run.nodes, node), row.number);
            Ok(())
        }
        (What::Recovers(recovery), Outcome::Recovered) => {
            leave_out(begun, run, recovery, row.number);
            Ok(())
        }
        _ => Ok(()),
    }
}

// The bars of a run, in the order in which they begin.
fn bars_of(alloc: Global, run: &Run<'_>) -> Result<Vec<Bar>, AllocError> {
    let lanes = blank(alloc, run.nodes.len() + 3)?;
    let mut begun = Begun {
        bars: Vec::new(alloc),
        lanes,
    };
    for row in &run.rows {
        follow(&mut begun, run, row)?;
    }
    let Begun { bars, lanes: _ } = begun;
    Ok(bars)
}

// How a bar is drawn.
fn class_of(what: Lasting) -> &'static str {
    match what {
        Lasting::Attached => "attached",
        Lasting::Staged => "staged",
        Lasting::Published => "published",
    }
}

// Appends a bar.
fn put_bar(out: &mut String, bar: Bar) -> Result<(), AllocError> {
    let Bar {
        what,
        lane,
        from,
        to,
        column,
        ..
    } = bar;
    let class = class_of(what);
    write!(
        out,
        "<path class='{class}' d='M{lane}036 {from}20m{column}0 0m{column}0 0V{to}20'/>\n"
    )
}

/// Appends the bars of a run.
pub fn put_bars(alloc: Global, out: &mut String, run: &Run<'_>) -> Result<(), AllocError> {
    let bars = bars_of(alloc, run)?;
    for bar in &bars {
        put_bar(out, *bar)?;
    }
    Ok(())
}
