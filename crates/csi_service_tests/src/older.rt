//! Stores of versions 1 and 2, and what becomes of them in version 3: without the empty rows of earlier sessions.
use crate::contents::Content;

// Heads and rows of version 1, and then of version 2.
pub(crate) const FIRST_ONE_MADE: &[u8] = &[1, 0, 0, 0, 0, 0, 0, 0, 0, 2];

pub(crate) const FIRST_MADE: &[u8] = &[
    1, 1, 1, 118, 0, 0, 0, 0, 0, 0, 0, 10, 1, 0, 1, 0, 0, 0, 0, 0, 0, 0, 0, 1, 0, 0, 0, 0, 0, 0, 0,
    1, 129, 0, 0, 0, 0, 0, 0, 0, 0, 1, 0,
];

pub(crate) const FIRST_TWO_MADE: &[u8] = &[1, 0, 0, 0, 0, 0, 0, 0, 0, 3];

pub(crate) const FIRST_GONE: &[u8] = &[
    1, 2, 1, 118, 0, 0, 0, 0, 0, 0, 0, 10, 1, 0, 1, 0, 0, 0, 0, 0, 0, 0, 0, 1, 0, 0, 0, 0, 0, 0, 0,
    5, 130, 0, 0, 0, 0, 0, 0, 0, 0, 0, 0,
];

pub(crate) const FIRST_OTHER: &[u8] = &[
    1, 1, 1, 119, 0, 0, 0, 0, 0, 0, 0, 10, 1, 0, 1, 0, 0, 0, 0, 0, 0, 0, 0, 1, 0, 0, 0, 0, 0, 0, 0,
    6, 129, 0, 0, 0, 0, 0, 0, 0, 0, 2, 0,
];

pub(crate) const SECOND_ONE_MADE: &[u8] = &[2, 0, 0, 0, 0, 0, 0, 0, 0, 2];

pub(crate) const SECOND_MADE: &[u8] = &[
    2, 1, 1, 118, 0, 0, 0, 0, 0, 0, 0, 10, 1, 0, 1, 0, 0, 0, 0, 0, 0, 0, 0, 1, 0, 0, 0, 0, 0, 0, 0,
    1, 129, 0, 0, 0, 0, 0, 0, 0, 0, 1, 0,
];

pub(crate) const SECOND_TWO_MADE: &[u8] = &[2, 0, 0, 0, 0, 0, 0, 0, 0, 3];

pub(crate) const SECOND_GONE: &[u8] = &[
    2, 2, 1, 118, 0, 0, 0, 0, 0, 0, 0, 10, 1, 0, 1, 0, 0, 0, 0, 0, 0, 0, 0, 1, 0, 0, 0, 0, 0, 0, 0,
    5, 130, 0, 0, 0, 0, 0, 0, 0, 0, 0, 0,
];

pub(crate) const SECOND_OTHER: &[u8] = &[
    2, 1, 1, 119, 0, 0, 0, 0, 0, 0, 0, 10, 1, 0, 1, 0, 0, 0, 0, 0, 0, 0, 0, 1, 0, 0, 0, 0, 0, 0, 0,
    6, 129, 0, 0, 0, 0, 0, 0, 0, 0, 2, 0,
];

// The row of `w` after a call of session 2, in versions 1 and 2; and the same in version 3, with the head then.
pub(crate) const FIRST_LATER: &[u8] = &[
    1, 1, 1, 119, 0, 0, 0, 0, 0, 0, 0, 10, 1, 0, 1, 0, 0, 0, 0, 0, 0, 0, 0, 2, 0, 0, 0, 0, 0, 0, 0,
    1, 129, 0, 0, 0, 0, 0, 0, 0, 0, 2, 0,
];

pub(crate) const SECOND_LATER: &[u8] = &[
    2, 1, 1, 119, 0, 0, 0, 0, 0, 0, 0, 10, 1, 0, 1, 0, 0, 0, 0, 0, 0, 0, 0, 2, 0, 0, 0, 0, 0, 0, 0,
    1, 129, 0, 0, 0, 0, 0, 0, 0, 0, 2, 0,
];

pub(crate) const LATER: &[u8] = &[
    3, 1, 1, 119, 0, 0, 0, 0, 0, 0, 0, 10, 1, 0, 1, 0, 0, 0, 0, 0, 0, 0, 0, 2, 0, 0, 0, 0, 0, 0, 0,
    1, 129, 0, 0, 0, 0, 0, 0, 0, 0, 2, 0,
];

pub(crate) const IN_SESSION_2: &[u8] = &[3, 0, 0, 0, 0, 0, 0, 0, 0, 3, 0, 0, 0, 0, 0, 0, 0, 2];

/// What the whole script leaves: two volumes, of which the first is deleted.
pub(crate) const FIRST: Content = (FIRST_TWO_MADE, FIRST_GONE, FIRST_OTHER);

pub(crate) const SECOND: Content = (SECOND_TWO_MADE, SECOND_GONE, SECOND_OTHER);

/// The first was deleted in session 1, and the other one's last call is of session 2; the same in version 1; and what becomes of these.
pub(crate) const FORGETS: Content = (SECOND_TWO_MADE, SECOND_GONE, SECOND_LATER);

pub(crate) const FIRST_FORGETS: Content = (FIRST_TWO_MADE, FIRST_GONE, FIRST_LATER);

pub(crate) const FORGOTTEN: Content = (IN_SESSION_2, &[], LATER);

/// A node `n1` that staged volume 1 and published it at `/a`; and the same in later versions.
pub(crate) const FIRST_NODE: Content = (FIRST_NODE_HEAD, FIRST_NODE_ROW, &[]);

pub(crate) const FIRST_NODE_HEAD: &[u8] = &[1, 1, 2, 110, 49];

pub(crate) const FIRST_NODE_ROW: &[u8] = &[
    1, 1, 0, 1, 1, 2, 47, 97, 0, 0, 0, 0, 0, 0, 0, 0, 1, 0, 0, 0, 0, 0, 0, 0, 2, 135, 0, 0, 0, 0,
    0, 0, 0, 0, 0, 0,
];

pub(crate) const SECOND_NODE: Content = (
    &[2, 1, 2, 110, 49],
    &[
        2, 1, 0, 1, 1, 2, 47, 97, 0, 0, 0, 0, 0, 0, 0, 0, 1, 0, 0, 0, 0, 0, 0, 0, 2, 135, 0, 0, 0,
        0, 0, 0, 0, 0, 0, 0,
    ],
    &[],
);

pub(crate) const NODE: Content = (NODE_IN_SESSION_1, NODE_ROW, &[]);

pub(crate) const NODE_IN_SESSION_1: &[u8] = &[3, 1, 2, 110, 49, 0, 0, 0, 0, 0, 0, 0, 1];

pub(crate) const NODE_ROW: &[u8] = &[
    3, 1, 0, 1, 1, 2, 47, 97, 0, 0, 0, 0, 0, 0, 0, 0, 1, 0, 0, 0, 0, 0, 0, 0, 2, 135, 0, 0, 0, 0,
    0, 0, 0, 0, 0, 0,
];

/// A node that took volume 1 from where it was staged, in session 1, and volume 2 in session 2; the same in version 1; and what becomes of these.
pub(crate) const NODE_FORGETS: Content = (
    &[2, 1, 2, 110, 49],
    &[
        2, 0, 0, 0, 0, 0, 0, 0, 0, 0, 1, 0, 0, 0, 0, 0, 0, 0, 5, 134, 0, 0, 0, 0, 0, 0, 0, 0, 0, 0,
    ],
    &[
        2, 0, 0, 0, 0, 0, 0, 0, 0, 0, 2, 0, 0, 0, 0, 0, 0, 0, 1, 134, 0, 0, 0, 0, 0, 0, 0, 0, 0, 0,
    ],
);

pub(crate) const FIRST_NODE_FORGETS: Content = (
    &[1, 1, 2, 110, 49],
    &[
        1, 0, 0, 0, 0, 0, 0, 0, 0, 0, 1, 0, 0, 0, 0, 0, 0, 0, 5, 134, 0, 0, 0, 0, 0, 0, 0, 0, 0, 0,
    ],
    &[
        1, 0, 0, 0, 0, 0, 0, 0, 0, 0, 2, 0, 0, 0, 0, 0, 0, 0, 1, 134, 0, 0, 0, 0, 0, 0, 0, 0, 0, 0,
    ],
);

pub(crate) const NODE_FORGOTTEN: Content = (
    &[3, 1, 2, 110, 49, 0, 0, 0, 0, 0, 0, 0, 2],
    &[],
    &[
        3, 0, 0, 0, 0, 0, 0, 0, 0, 0, 2, 0, 0, 0, 0, 0, 0, 0, 1, 134, 0, 0, 0, 0, 0, 0, 0, 0, 0, 0,
    ],
);
