//! The script of six frames for a controller, what it is replied, and what a store has after each.
use crate::contents::{CONTROLLER_HEAD, Content, NOTHING};
use crate::serving::PluginKind;
use crate::turns::{Step, Turn};

const STEPS: &[Step] = &[
    // creates `v`
    (
        &[
            0, 0, 0, 40, 1, 1, 0, 0, 0, 0, 0, 0, 0, 1, 0, 0, 0, 0, 0, 0, 0, 1, 0, 1, 118, 0, 0, 0,
            0, 0, 0, 0, 10, 0, 0, 0, 0, 0, 0, 0, 0, 1, 0, 1,
        ],
        &[
            0, 0, 0, 29, 1, 129, 0, 0, 0, 0, 0, 0, 0, 1, 0, 0, 0, 0, 0, 0, 0, 1, 0, 0, 0, 0, 0, 0,
            0, 0, 0, 1, 0,
        ],
    ),
    // publishes it at `n1`
    (
        &[
            0, 0, 0, 33, 1, 3, 0, 0, 0, 0, 0, 0, 0, 1, 0, 0, 0, 0, 0, 0, 0, 2, 0, 0, 0, 0, 0, 0, 0,
            0, 1, 2, 110, 49, 0, 1, 0,
        ],
        &[
            0, 0, 0, 29, 1, 131, 0, 0, 0, 0, 0, 0, 0, 1, 0, 0, 0, 0, 0, 0, 0, 2, 0, 0, 0, 0, 0, 0,
            0, 0, 0, 0, 0,
        ],
    ),
    // and at `n2`, which is refused
    (
        &[
            0, 0, 0, 33, 1, 3, 0, 0, 0, 0, 0, 0, 0, 1, 0, 0, 0, 0, 0, 0, 0, 3, 0, 0, 0, 0, 0, 0, 0,
            0, 1, 2, 110, 50, 0, 1, 0,
        ],
        &[
            0, 0, 0, 31, 1, 131, 0, 0, 0, 0, 0, 0, 0, 1, 0, 0, 0, 0, 0, 0, 0, 3, 0, 9, 0, 0, 0, 0,
            0, 0, 0, 0, 2, 110, 49,
        ],
    ),
    // unpublishes it at `n1`
    (
        &[
            0, 0, 0, 30, 1, 4, 0, 0, 0, 0, 0, 0, 0, 1, 0, 0, 0, 0, 0, 0, 0, 4, 0, 0, 0, 0, 0, 0, 0,
            0, 1, 2, 110, 49,
        ],
        &[
            0, 0, 0, 29, 1, 132, 0, 0, 0, 0, 0, 0, 0, 1, 0, 0, 0, 0, 0, 0, 0, 4, 0, 0, 0, 0, 0, 0,
            0, 0, 0, 0, 0,
        ],
    ),
    // deletes it
    (
        &[
            0, 0, 0, 27, 1, 2, 0, 0, 0, 0, 0, 0, 0, 1, 0, 0, 0, 0, 0, 0, 0, 5, 0, 0, 0, 0, 0, 0, 0,
            0, 1,
        ],
        &[
            0, 0, 0, 29, 1, 130, 0, 0, 0, 0, 0, 0, 0, 1, 0, 0, 0, 0, 0, 0, 0, 5, 0, 0, 0, 0, 0, 0,
            0, 0, 0, 0, 0,
        ],
    ),
    // creates `w`
    (
        &[
            0, 0, 0, 40, 1, 1, 0, 0, 0, 0, 0, 0, 0, 1, 0, 0, 0, 0, 0, 0, 0, 6, 0, 1, 119, 0, 0, 0,
            0, 0, 0, 0, 10, 0, 0, 0, 0, 0, 0, 0, 0, 1, 0, 1,
        ],
        &[
            0, 0, 0, 29, 1, 129, 0, 0, 0, 0, 0, 0, 0, 1, 0, 0, 0, 0, 0, 0, 0, 6, 0, 0, 0, 0, 0, 0,
            0, 0, 0, 2, 0,
        ],
    ),
];

/// The heads after the frames that made a volume and another one.
pub(crate) const ONE_MADE: &[u8] = &[3, 0, 0, 0, 0, 0, 0, 0, 0, 2, 0, 0, 0, 0, 0, 0, 0, 1];

pub(crate) const TWO_MADE: &[u8] = &[3, 0, 0, 0, 0, 0, 0, 0, 0, 3, 0, 0, 0, 0, 0, 0, 0, 1];

/// The row of `v` after the frames that change it.
pub(crate) const MADE: &[u8] = &[
    3, 1, 1, 118, 0, 0, 0, 0, 0, 0, 0, 10, 1, 0, 1, 0, 0, 0, 0, 0, 0, 0, 0, 1, 0, 0, 0, 0, 0, 0, 0,
    1, 129, 0, 0, 0, 0, 0, 0, 0, 0, 1, 0,
];

const HELD: &[u8] = &[
    3, 1, 1, 118, 0, 0, 0, 0, 0, 0, 0, 10, 1, 0, 1, 1, 2, 110, 49, 0, 1, 0, 0, 0, 0, 0, 0, 0, 0, 1,
    0, 0, 0, 0, 0, 0, 0, 2, 131, 0, 0, 0, 0, 0, 0, 0, 0, 0, 0,
];

const REFUSED: &[u8] = &[
    3, 1, 1, 118, 0, 0, 0, 0, 0, 0, 0, 10, 1, 0, 1, 1, 2, 110, 49, 0, 1, 0, 0, 0, 0, 0, 0, 0, 0, 1,
    0, 0, 0, 0, 0, 0, 0, 3, 131, 9, 0, 0, 0, 0, 0, 0, 0, 0, 2, 110, 49,
];

const FREED: &[u8] = &[
    3, 1, 1, 118, 0, 0, 0, 0, 0, 0, 0, 10, 1, 0, 1, 0, 0, 0, 0, 0, 0, 0, 0, 1, 0, 0, 0, 0, 0, 0, 0,
    4, 132, 0, 0, 0, 0, 0, 0, 0, 0, 0, 0,
];

pub(crate) const GONE: &[u8] = &[
    3, 2, 1, 118, 0, 0, 0, 0, 0, 0, 0, 10, 1, 0, 1, 0, 0, 0, 0, 0, 0, 0, 0, 1, 0, 0, 0, 0, 0, 0, 0,
    5, 130, 0, 0, 0, 0, 0, 0, 0, 0, 0, 0,
];

/// The row of `w`.
pub(crate) const OTHER: &[u8] = &[
    3, 1, 1, 119, 0, 0, 0, 0, 0, 0, 0, 10, 1, 0, 1, 0, 0, 0, 0, 0, 0, 0, 0, 1, 0, 0, 0, 0, 0, 0, 0,
    6, 129, 0, 0, 0, 0, 0, 0, 0, 0, 2, 0,
];

/// What a store has after the script.
pub(crate) const PLAYED: Content = (TWO_MADE, GONE, OTHER);

/// How the script is read: so many bytes at a time, so many frames in each piece that ends one, and the reads that bring these pieces, counted from 1.
pub(crate) type Cut = (usize, usize, &'static [u64]);

/// All of it at once.
pub(crate) const AT_ONCE: Cut = (4096, 6, &[1]);

/// That, by two frames, and frame by frame.
pub(crate) const CUTS: &[Cut] = &[AT_ONCE, (81, 2, &[1, 2, 3]), (31, 1, &[2, 3, 4, 5, 6, 8])];

/// Where the script's frames end, and the replies to them.
const FRAMES: &[usize] = &[44, 81, 118, 152, 183, 227];

const ENDS: &[usize] = &[0, 33, 66, 101, 134, 167, 200];

/// How many frames end within so many bytes.
pub(crate) fn whole_frames(size: usize) -> usize {
    let mut frames = 0usize;
    for end in FRAMES {
        if *end <= size {
            frames = frames.saturating_add(1);
        }
    }
    frames
}

/// How many bytes the replies to so many frames are; to more than there are, none.
pub(crate) fn replied(frames: usize) -> usize {
    match ENDS.get(frames) {
        Some(end) => *end,
        None => 0,
    }
}

/// The script over a new store.
pub(crate) const SCRIPT: &Turn = &Turn {
    plugin: PluginKind::Controller,
    steps: STEPS,
    contents: &[
        NOTHING,
        (CONTROLLER_HEAD, &[], &[]),
        (ONE_MADE, MADE, &[]),
        (ONE_MADE, HELD, &[]),
        (ONE_MADE, REFUSED, &[]),
        (ONE_MADE, FREED, &[]),
        (ONE_MADE, GONE, &[]),
        PLAYED,
    ],
};
