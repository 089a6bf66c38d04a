//! The picture of a run.

use crate::bars::put_bars;
use crate::front::put_front;
use crate::lanes::{put_lanes, put_names};
use crate::rows::{put_label, put_mark, put_row_text};
use crate::run::{Row, Run, run_of};
use crate::scene::sent_number;
use crate::ways::{Ways, put_passage, put_stub, ways_of};
use csi_json::Schedule;
use csi_types::NoMemory;
use csi_world::{World, audit};
use std::alloc::{AllocError, Global};

// Appends what is written of the frame that an event sent, and its way where nobody delivers it.
fn put_sent(out: &mut String, run: &Run<'_>, ways: &Ways, row: &Row<'_>) -> Result<(), AllocError> {
    let Some(number) = sent_number(row.outcome) else {
        return Ok(());
    };
    let Some(frame) = run.world.frame(number) else {
        return Ok(());
    };
    put_label(out, &run.nodes, row.number, number, frame)?;
    put_stub(out, run, ways, row.number, number, frame)
}

// Appends the arrows of all deliveries.
fn put_arrows(out: &mut String, run: &Run<'_>, ways: &Ways) -> Result<(), AllocError> {
    for row in &run.rows {
        put_passage(out, run, ways, row)?;
    }
    Ok(())
}

// Appends the names of the lanes again, below each thirtieth row.
fn put_all_names(out: &mut String, run: &Run<'_>) -> Result<(), AllocError> {
    for row in &run.rows {
        if row.number % 30 == 0 {
            put_names(out, &run.nodes, row.number)?;
        }
    }
    Ok(())
}

// Appends the texts and the marks of all events.
fn put_texts(
    alloc: Global,
    out: &mut String,
    run: &Run<'_>,
    ways: &Ways,
) -> Result<(), AllocError> {
    for row in &run.rows {
        put_row_text(alloc, out, row)?;
        put_mark(out, &run.nodes, row)?;
        put_sent(out, run, ways, row)?;
    }
    Ok(())
}

// Appends the picture: what comes later is drawn over what came before.
fn put_picture(
    alloc: Global,
    out: &mut String,
    run: &Run<'_>,
    is_safe: bool,
) -> Result<(), AllocError> {
    let ways = ways_of(alloc, run)?;
    let count = run.rows.len();
    let last = run.nodes.len() + 2;
    put_front(
        out,
        last,
        count + 4,
        count,
        run.world.frame_count(),
        is_safe,
    )?;
    put_lanes(out, run, count + 1)?;
    put_bars(alloc, out, run)?;
    put_arrows(out, run, &ways)?;
    put_all_names(out, run)?;
    put_texts(alloc, out, run, &ways)?;
    write!(out, "</svg>\n")
}

/// The picture of this world, to which this schedule led, in which nothing settles, as an SVG that needs nothing else: a row for each event,
/// from the first down, and a lane for the orchestrator, the controller and each node that was ever there, which begins where the node joins
/// and ends where it is lost, at a recovery too. Each delivery is an arrow from where and when its frame was sent, each frame has its number
/// and what it is beside the place where it was sent, and a frame that nobody delivers ends in the open. Texts are escaped, so that the
/// picture is well-formed whatever they are. An `Err` is an allocation that was refused. What is drawn is tested, and not proved. This
/// profile's own.
pub fn draw(alloc: Global, schedule: &Schedule, world: &World) -> Result<Vec<u8>, NoMemory> {
    let found = audit(alloc, world)?;
    let run = run_of(alloc, schedule, world)?;
    let mut text = String::new(alloc);
    put_picture(alloc, &mut text, &run, found.is_none())?;
    Ok(text.into_bytes())
}
