//! Runs of plugins: what a store has, the frames that its plugin serves, and what the store has after each.
use crate::contents::{CONTROLLER_HEAD, Content, NODE_HEAD};
use crate::older::{
    FIRST_FORGETS, FIRST_NODE_FORGETS, FORGETS, FORGOTTEN, NODE_FORGETS, NODE_FORGOTTEN,
};
use crate::script::PLAYED;
use crate::serving::PluginKind;

/// A frame, and what it is replied.
pub(crate) type Step = (&'static [u8], &'static [u8]);

/// A plugin and its frames, with what the store has before, once it was opened, and after each frame.
pub(crate) struct Turn {
    pub(crate) plugin: PluginKind,
    pub(crate) steps: &'static [Step],
    pub(crate) contents: &'static [Content],
}

/// Stores of versions 1 and 2 are opened, of each of which a row is left out.
pub(crate) const REWRITTEN: &[Turn] = &[
    Turn {
        plugin: PluginKind::Controller,
        steps: &[],
        contents: &[FORGETS, FORGOTTEN],
    },
    Turn {
        plugin: PluginKind::Node,
        steps: &[],
        contents: &[NODE_FORGETS, NODE_FORGOTTEN],
    },
    Turn {
        plugin: PluginKind::Controller,
        steps: &[],
        contents: &[FIRST_FORGETS, FORGOTTEN],
    },
    Turn {
        plugin: PluginKind::Node,
        steps: &[],
        contents: &[FIRST_NODE_FORGETS, NODE_FORGOTTEN],
    },
];

// What the store has once `w` is deleted by the first call of session 2, which follows the script. `v` is forgotten then.
const PLAYED_NEXT: Content = (
    &[3, 0, 0, 0, 0, 0, 0, 0, 0, 3, 0, 0, 0, 0, 0, 0, 0, 2],
    &[],
    &[
        3, 2, 1, 119, 0, 0, 0, 0, 0, 0, 0, 10, 1, 0, 1, 0, 0, 0, 0, 0, 0, 0, 0, 2, 0, 0, 0, 0, 0,
        0, 0, 1, 130, 0, 0, 0, 0, 0, 0, 0, 0, 0, 0,
    ],
);

// A store of a node whose one volume isn't staged, and was unstaged by call 5 of session 1.
const UNSTAGED: Content = (
    &[3, 1, 2, 110, 49, 0, 0, 0, 0, 0, 0, 0, 1],
    &[
        3, 0, 0, 0, 0, 0, 0, 0, 0, 0, 1, 0, 0, 0, 0, 0, 0, 0, 5, 134, 0, 0, 0, 0, 0, 0, 0, 0, 0, 0,
    ],
    &[],
);

// What it has once that volume is unstaged by call 1 of session 2; and what such a call is replied.
const UNSTAGED_LATER: Content = (
    &[3, 1, 2, 110, 49, 0, 0, 0, 0, 0, 0, 0, 2],
    &[
        3, 0, 0, 0, 0, 0, 0, 0, 0, 0, 2, 0, 0, 0, 0, 0, 0, 0, 1, 134, 0, 0, 0, 0, 0, 0, 0, 0, 0, 0,
    ],
    &[],
);

const UNSTAGED_REPLY: &[u8] = &[
    0, 0, 0, 32, 1, 134, 0, 0, 0, 0, 0, 0, 0, 2, 0, 0, 0, 0, 0, 0, 0, 1, 1, 2, 110, 49, 0, 0, 0, 0,
    0, 0, 0, 0, 0, 0,
];

/// A call begins a session, by which a row goes: that of another volume, or its own, in whose place a new one is put in.
pub(crate) const BEGUN: &[Turn] = &[
    Turn {
        plugin: PluginKind::Controller,
        steps: &[(
            &[
                0, 0, 0, 27, 1, 2, 0, 0, 0, 0, 0, 0, 0, 2, 0, 0, 0, 0, 0, 0, 0, 1, 0, 0, 0, 0, 0,
                0, 0, 0, 2,
            ],
            &[
                0, 0, 0, 29, 1, 130, 0, 0, 0, 0, 0, 0, 0, 2, 0, 0, 0, 0, 0, 0, 0, 1, 0, 0, 0, 0, 0,
                0, 0, 0, 0, 0, 0,
            ],
        )],
        contents: &[PLAYED, PLAYED, PLAYED_NEXT],
    },
    Turn {
        plugin: PluginKind::Node,
        steps: &[(
            &[
                0, 0, 0, 30, 1, 6, 0, 0, 0, 0, 0, 0, 0, 2, 0, 0, 0, 0, 0, 0, 0, 1, 1, 2, 110, 49,
                0, 0, 0, 0, 0, 0, 0, 2,
            ],
            UNSTAGED_REPLY,
        )],
        contents: &[UNSTAGED, UNSTAGED, NODE_FORGOTTEN],
    },
    Turn {
        plugin: PluginKind::Node,
        steps: &[(
            &[
                0, 0, 0, 30, 1, 6, 0, 0, 0, 0, 0, 0, 0, 2, 0, 0, 0, 0, 0, 0, 0, 1, 1, 2, 110, 49,
                0, 0, 0, 0, 0, 0, 0, 1,
            ],
            UNSTAGED_REPLY,
        )],
        contents: &[UNSTAGED, UNSTAGED, UNSTAGED_LATER],
    },
];

/// A new plugin gets a call of session 0, which begins none.
pub(crate) const IN_SESSION_0: &[Turn] = &[
    Turn {
        plugin: PluginKind::Controller,
        steps: &[(
            &[
                0, 0, 0, 40, 1, 1, 0, 0, 0, 0, 0, 0, 0, 0, 0, 0, 0, 0, 0, 0, 0, 1, 0, 1, 118, 0, 0,
                0, 0, 0, 0, 0, 10, 0, 0, 0, 0, 0, 0, 0, 0, 1, 0, 1,
            ],
            &[
                0, 0, 0, 29, 1, 129, 0, 0, 0, 0, 0, 0, 0, 0, 0, 0, 0, 0, 0, 0, 0, 1, 0, 0, 0, 0, 0,
                0, 0, 0, 0, 1, 0,
            ],
        )],
        contents: &[
            (CONTROLLER_HEAD, &[], &[]),
            (CONTROLLER_HEAD, &[], &[]),
            (
                &[3, 0, 0, 0, 0, 0, 0, 0, 0, 2, 0, 0, 0, 0, 0, 0, 0, 0],
                &[
                    3, 1, 1, 118, 0, 0, 0, 0, 0, 0, 0, 10, 1, 0, 1, 0, 0, 0, 0, 0, 0, 0, 0, 0, 0,
                    0, 0, 0, 0, 0, 0, 1, 129, 0, 0, 0, 0, 0, 0, 0, 0, 1, 0,
                ],
                &[],
            ),
        ],
    },
    Turn {
        plugin: PluginKind::Node,
        steps: &[(
            &[
                0, 0, 0, 32, 1, 5, 0, 0, 0, 0, 0, 0, 0, 0, 0, 0, 0, 0, 0, 0, 0, 1, 1, 2, 110, 49,
                0, 0, 0, 0, 0, 0, 0, 1, 0, 1,
            ],
            &[
                0, 0, 0, 32, 1, 133, 0, 0, 0, 0, 0, 0, 0, 0, 0, 0, 0, 0, 0, 0, 0, 1, 1, 2, 110, 49,
                0, 0, 0, 0, 0, 0, 0, 0, 0, 0,
            ],
        )],
        contents: &[
            (NODE_HEAD, &[], &[]),
            (NODE_HEAD, &[], &[]),
            (
                NODE_HEAD,
                &[
                    3, 1, 0, 1, 0, 0, 0, 0, 0, 0, 0, 0, 0, 0, 0, 0, 0, 0, 0, 0, 1, 133, 0, 0, 0, 0,
                    0, 0, 0, 0, 0, 0,
                ],
                &[],
            ),
        ],
    },
];
