//! The ways of frames: an arrow from where and when each was sent to where and when it is delivered, or a stub where nobody delivers
//! it.

use crate::run::{Row, Run, What};
use crate::scene::{receiver, sender, sent_number, way_of};
use csi_types::{Body, Frame};
use csi_world::{Event, Outcome};
use std::alloc::{AllocError, Global};

/// Of each frame of a run, by its number: the row where it was sent, and whether it is delivered.
#[derive(Drop)]
pub struct Ways {
    rows: Vec<usize>,
    marks: Vec<bool>,
}

// Notes the row where an event sent a frame, if it sent one.
fn note_sent(rows: &mut [usize], row: &Row<'_>) {
    let Some(number) = sent_number(row.outcome) else {
        return;
    };
    if let Some(noted) = rows.get_mut(number as usize) {
        *noted = row.number;
    }
}

// The number of the frame that an event delivers, if it delivers one that was sent before.
fn delivered(row: &Row<'_>) -> Option<u64> {
    match (row.what, row.outcome) {
        (_, Outcome::NoSuchFrame) => None,
        (What::Occurs(Event::Deliver(number)), _) => Some(*number),
        _ => None,
    }
}

// Marks the frame that an event delivers, if it delivers one.
fn mark_delivered(marks: &mut [bool], row: &Row<'_>) {
    let Some(number) = delivered(row) else {
        return;
    };
    if let Some(mark) = marks.get_mut(number as usize) {
        *mark = true;
    }
}

/// The ways of the frames of a run.
pub fn ways_of(alloc: Global, run: &Run<'_>) -> Result<Ways, AllocError> {
    let count = run.world.sent().len() + 1;
    let mut rows = vec![in alloc; 0; count]?;
    let mut marks = vec![in alloc; false; count]?;
    for row in &run.rows {
        note_sent(&mut rows, row);
        mark_delivered(&mut marks, row);
    }
    Ok(Ways { rows, marks })
}

// Appends an arrow from the band of a lane, in the row where a frame was sent, to that of another one, where it was delivered. A row is
// 100 units high and a lane 1,000 wide, of which its band has 90, so that a place is the number of a row or a lane and a few digits
// behind it.
fn put_arrow(
    out: &mut String,
    class: &str,
    from: usize,
    sent: usize,
    to: usize,
    row: usize,
) -> Result<(), AllocError> {
    if from < to {
        return write!(
            out,
            "<line class='{class}' x1='{from}090' y1='{sent}74' x2='{to}000' y2='{row}20'/>\n"
        );
    }
    write!(
        out,
        "<line class='{class}' x1='{from}000' y1='{sent}74' x2='{to}090' y2='{row}20'/>\n"
    )
}

/// Appends the arrow of an event that delivers a frame.
pub fn put_passage(
    out: &mut String,
    run: &Run<'_>,
    ways: &Ways,
    row: &Row<'_>,
) -> Result<(), AllocError> {
    let Some(number) = delivered(row) else {
        return Ok(());
    };
    let Some(frame) = run.world.frame(number) else {
        return Ok(());
    };
    let Some(sent) = ways.rows.get(number as usize) else {
        return Ok(());
    };
    let class = way_of(run.world, row.outcome);
    let from = sender(&run.nodes, frame);
    let to = receiver(&run.nodes, frame);
    put_arrow(out, class, from, *sent, to, row.number)
}

/// Appends the beginning of the way of a frame, in the row where it was sent, if nobody delivers it.
pub fn put_stub(
    out: &mut String,
    run: &Run<'_>,
    ways: &Ways,
    row: usize,
    number: u64,
    frame: &Frame,
) -> Result<(), AllocError> {
    if let Some(true) = ways.marks.get(number as usize) {
        return Ok(());
    }
    let lane = sender(&run.nodes, frame);
    match frame.body() {
        Body::Call(_) => write!(out, "<path class='lost' d='M{lane}090 {row}74l220 15'/>\n"),
        Body::Reply(..) => write!(out, "<path class='lost' d='M{lane}000 {row}74l-220 15'/>\n"),
    }
}
