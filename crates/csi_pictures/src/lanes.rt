//! The lanes, and their names. The band of a node is drawn where the node is there.

use crate::escaping::Escaped;
use crate::run::{Row, Run, What};
use crate::scene::is_given;
use csi_types::NodeId;
use csi_world::{Event, Outcome};
use std::alloc::AllocError;

// Whether the node of this id is there after an event.
fn is_there_after(row: &Row<'_>, id: &NodeId, there: bool) -> bool {
    match (row.what, row.outcome) {
        (What::Occurs(Event::Join(node)), Outcome::Joined) => node == id || there,
        (What::Occurs(Event::Lose(node)), Outcome::Lost) => node != id && there,
        (What::Recovers(recovery), Outcome::Recovered) => there && is_given(recovery, id),
        _ => there,
    }
}

// Appends that a band begins or ends in a row, where it does.
fn put_turn(out: &mut String, row: usize, before: bool, after: bool) -> Result<(), AllocError> {
    match (before, after) {
        (false, true) => write!(out, "M0 {row}20"),
        (true, false) => write!(out, "V{row}20"),
        _ => Ok(()),
    }
}

// Appends the band of a node, which is there at first or not, down to a row.
fn put_band(
    out: &mut String,
    rows: &[Row<'_>],
    below: usize,
    id: &NodeId,
    first: bool,
) -> Result<(), AllocError> {
    if first {
        out.push_str("M0 75")?;
    }
    let mut there = first;
    for row in rows {
        let after = is_there_after(row, id, there);
        put_turn(out, row.number, there, after)?;
        there = after;
    }
    if there {
        return write!(out, "V{below}30");
    }
    Ok(())
}

// Appends what stands before the band of a lane.
fn put_before(out: &mut String, lane: usize) -> Result<(), AllocError> {
    write!(
        out,
        "<g transform='translate({lane}045 0)'><path class='lane' d='"
    )
}

// Appends what stands behind it: the lane's name, above and below it.
fn put_behind(out: &mut String, below: usize, kind: &str, id: &str) -> Result<(), AllocError> {
    let id = Escaped(id);
    write!(
        out,
        "'/><svg x='-450' y='10' width='900' height='60'><text class='h' x='450' y='45'>{kind}{id}</text></svg><svg x='-450' y='{below}35' width='900' height='60'><text class='h' x='450' y='45'>{kind}{id}</text></svg></g>\n"
    )
}

// Appends a lane that is there all the time.
fn put_whole(out: &mut String, lane: usize, below: usize, kind: &str) -> Result<(), AllocError> {
    put_before(out, lane)?;
    write!(out, "M0 75V{below}30")?;
    put_behind(out, below, kind, "")
}

/// Appends all lanes, down to a row.
pub fn put_lanes(out: &mut String, run: &Run<'_>, below: usize) -> Result<(), AllocError> {
    put_whole(out, 1, below, "orchestrator")?;
    put_whole(out, 2, below, "controller")?;
    for (place, id) in run.nodes.iter().enumerate() {
        put_before(out, place + 3)?;
        put_band(out, &run.rows, below, id, place < run.first)?;
        put_behind(out, below, "node ", id.as_str())?;
    }
    Ok(())
}

// Appends a lane's name again, below a row.
fn put_name(
    out: &mut String,
    lane: usize,
    row: usize,
    kind: &str,
    id: &str,
) -> Result<(), AllocError> {
    let id = Escaped(id);
    write!(
        out,
        "<g transform='translate({lane}045 {row}68)'><svg x='-450' width='900' height='45'><text class='h label' x='450' y='32'>{kind}{id}</text></svg></g>\n"
    )
}

/// Appends the names of all lanes again, below a row.
pub fn put_names(out: &mut String, nodes: &[NodeId], row: usize) -> Result<(), AllocError> {
    put_name(out, 1, row, "orchestrator", "")?;
    put_name(out, 2, row, "controller", "")?;
    for (place, id) in nodes.iter().enumerate() {
        put_name(out, place + 3, row, "node ", id.as_str())?;
    }
    Ok(())
}
