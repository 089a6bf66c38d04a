//! Calls that are drawn by a linear congruence, the same ones in every run.
use super::plain::Plain;
use super::{Ask, B1, B3, B4, B6, B7, Volume};
use csi_types::{Mode, Number};

const B2: Mode = Mode::SingleNodeReaderOnly;

const B5: Mode = Mode::MultiNodeMultiWriter;

const NAMES: &[&str] = &[
    "v0", "v1", "v2", "v3", "v4", "v5", "v6", "v7", "v8", "v9", "v10", "v11", "v12", "v13", "v14",
    "v15", "v16", "v17", "v18", "v19", "v20", "v21", "v22", "v23", "v24", "v25", "v26", "v27",
    "v28", "v29", "v30", "v31", "v32", "v33", "v34", "v35", "v36", "v37", "v38", "v39", "v40",
    "v41", "v42", "v43", "v44", "v45", "v46", "v47", "v48", "v49",
];

const NODE_IDS: &[&str] = &["n1", "n2", "n3", "n4", "n5", "n6", "n7", "n8"];

const MODES: &[Mode] = &[B1, B2, B3, B4, B5, B6, B7];

const LISTS: &[&[Mode]] = &[
    &[],
    &[B1],
    &[B2],
    &[B4],
    &[B5],
    &[B1, B3],
    &[B3, B4],
    &[B4, B5],
    &[B3, B4, B5],
    &[B2, B3, B5],
    &[B6],
    &[B7],
    &[B5, B7],
    &[B1, B2, B3, B4, B5, B6, B7],
];

// What a volume is to have at least and at most.
const CAPACITIES: &[(u64, u64)] = &[
    (10, 0),
    (10, 20),
    (0, 15),
    (5, 0),
    (20, 10),
    (0, 0),
    (2000, 0),
    (11, 0),
    (0, 2000),
    (7, 9),
];

/// Where the congruence stands.
#[derive(Drop)]
pub(super) struct Draws {
    pub state: u64,
}

impl Draws {
    // A number below this one.
    fn below(&mut self, count: u64) -> u64 {
        self.state = self
            .state
            .wrapping_mul(6_364_136_223_846_793_005)
            .wrapping_add(1_442_695_040_888_963_407);
        (self.state >> 33).checked_rem(count).unwrap_or(0)
    }

    // One of these, of which there are some.
    fn one_of<T: Copy + Drop>(&mut self, all: &[T], other: T) -> T {
        let place = self.below(all.len() as u64) as usize;
        all.get(place).copied().unwrap_or(other)
    }

    // The id of a row, or now and then any that was given or is given next.
    fn id(&mut self, plain: &Plain) -> u64 {
        let count = plain.rows.len().saturating_add(2);
        let place = self.below(count as u64) as usize;
        match plain.rows.get(place) {
            Some(row) => row.id,
            None => self.below(plain.next_id).saturating_add(1),
        }
    }

    // One time in 32 it isn't configured.
    fn node(&mut self) -> &'static str {
        if self.below(32) == 0 {
            "n9"
        } else {
            self.one_of(NODE_IDS, "")
        }
    }

    fn create(&mut self) -> Ask {
        let name = self.one_of(NAMES, "");
        let (required, limit) = self.one_of(CAPACITIES, (0, 0));
        Ask::Create(name, required, limit, self.one_of(LISTS, &[]))
    }

    fn attach(&mut self, plain: &Plain) -> Ask {
        let id = self.id(plain);
        let node = self.node();
        let mode = self.one_of(MODES, B1);
        Ask::Attach(id, node, mode, self.below(2) == 1)
    }

    /// A call. Most volumes live long, and some 150 are deleted.
    pub(super) fn ask(&mut self, plain: &Plain) -> Ask {
        match self.below(64) {
            0..=3 => Ask::Delete(self.id(plain)),
            4..=12 => self.create(),
            13..=47 => self.attach(plain),
            _ => {
                let id = self.id(plain);
                Ask::Detach(id, self.node())
            }
        }
    }

    /// The number of a call: a new one, or the last one of its volume, one before that, or one of an earlier session.
    pub(super) fn number(&mut self, new: Number, row: Option<&Volume<'static>>) -> Number {
        let last = match row {
            Some(row) => row.last,
            None => new,
        };
        match self.below(16) {
            0 | 1 => last,
            2 => Number {
                session: last.session,
                call: last.call.saturating_sub(1),
            },
            3 => Number {
                session: last.session.saturating_sub(1),
                call: last.call.saturating_add(1),
            },
            _ => new,
        }
    }
}
