//! How plugins are opened: of new stores, of stores in every version, and of what is no record of theirs. Stores of versions 1 and 2 have all their
//! parts put in again, in version 3 and by one commit, without the empty rows of earlier sessions.
use crate::contents::{CONTROLLER_HEAD, Content, NODE_HEAD, NOTHING, has, puts};
use crate::older::{
    FIRST, FIRST_FORGETS, FIRST_GONE, FIRST_MADE, FIRST_NODE, FIRST_NODE_FORGETS, FIRST_NODE_HEAD,
    FIRST_NODE_ROW, FIRST_ONE_MADE, FIRST_OTHER, FIRST_TWO_MADE, FORGETS, FORGOTTEN, IN_SESSION_2,
    LATER, NODE, NODE_FORGETS, NODE_FORGOTTEN, NODE_IN_SESSION_1, NODE_ROW, SECOND, SECOND_MADE,
    SECOND_NODE, SECOND_ONE_MADE,
};
use crate::script::{GONE, MADE, ONE_MADE, OTHER, PLAYED, SCRIPT, TWO_MADE};
use crate::serving::{End, PluginKind, config, fault, joined, take};
use csi_service::{ControllerService, Keep, KeepFault, MemoryKeep, NodeUnopened, raise};
use csi_stores::{FailingKeep, Left};
use std::process::Abort;

// A store in memory that has this.
fn store(rt: &(impl Abort + AllocGlobal), content: Content) -> MemoryKeep {
    let mut keep = MemoryKeep::new(rt.alloc(), 1000);
    puts(rt, &mut keep, content);
    keep
}

// A store in version 3, of session 2, in which `v` lives since session 1.
const LATER_BOTH: Content = (IN_SESSION_2, MADE, LATER);

const NEW_NODE: Content = (NODE_HEAD, &[], &[]);

// What a store has, and what it has once its plugin is opened of it.
const OPENED: &[(PluginKind, Content, Content)] = &[
    (PluginKind::Controller, NOTHING, (CONTROLLER_HEAD, &[], &[])),
    (PluginKind::Node, NOTHING, NEW_NODE),
    (
        PluginKind::Controller,
        (&[2, 0, 0, 0, 0, 0, 0, 0, 0, 1], &[], &[]),
        (CONTROLLER_HEAD, &[], &[]),
    ),
    (PluginKind::Node, (&[2, 1, 2, 110, 49], &[], &[]), NEW_NODE),
    (
        PluginKind::Controller,
        (FIRST_ONE_MADE, FIRST_MADE, &[]),
        (ONE_MADE, MADE, &[]),
    ),
    (
        PluginKind::Controller,
        (SECOND_ONE_MADE, SECOND_MADE, &[]),
        (ONE_MADE, MADE, &[]),
    ),
    (PluginKind::Controller, FIRST, PLAYED),
    (PluginKind::Controller, SECOND, PLAYED),
    (PluginKind::Controller, FORGETS, FORGOTTEN),
    (PluginKind::Controller, FIRST_FORGETS, FORGOTTEN),
    (PluginKind::Controller, LATER_BOTH, LATER_BOTH),
    (PluginKind::Node, FIRST_NODE, NODE),
    (PluginKind::Node, SECOND_NODE, NODE),
    (PluginKind::Node, NODE_FORGETS, NODE_FORGOTTEN),
    (PluginKind::Node, FIRST_NODE_FORGETS, NODE_FORGOTTEN),
];

#[test]
fn a_store_has_version_3_when_it_is_opened(rt: HostRuntime) {
    for (plugin, before, after) in OPENED {
        let mut keep = store(&rt, *before);
        for _ in 0..2 {
            assert!(&rt; fault(&rt, *plugin, &mut keep).is_none());
            assert!(&rt; has(&mut keep, *after) && keep.faults() == 0);
        }
        drop(keep);
    }
}

// What a store has, a session that is raised in it, and what it has then: the head has the session where that is later, and empty rows are gone.
const RAISED: &[(PluginKind, Content, u64, Content)] = &[
    (
        PluginKind::Controller,
        PLAYED,
        2,
        (IN_SESSION_2, &[], OTHER),
    ),
    (PluginKind::Controller, PLAYED, 1, PLAYED),
    (
        PluginKind::Node,
        NODE,
        2,
        (&[3, 1, 2, 110, 49, 0, 0, 0, 0, 0, 0, 0, 2], NODE_ROW, &[]),
    ),
    (
        PluginKind::Node,
        NODE_FORGOTTEN,
        258,
        (&[3, 1, 2, 110, 49, 0, 0, 0, 0, 0, 0, 1, 2], &[], &[]),
    ),
];

// Whether the session is raised in the plugin of this store.
fn is_raised(
    rt: &(impl Abort + AllocGlobal),
    plugin: PluginKind,
    session: u64,
    keep: &mut MemoryKeep,
) -> bool {
    match plugin {
        PluginKind::Controller => match ControllerService::open(rt.alloc(), config(rt), keep) {
            Ok(mut service) => raise(&mut service, session, keep).is_ok(),
            Err(_) => false,
        },
        PluginKind::Node => match joined(rt, keep, 0) {
            Ok(mut service) => raise(&mut service, session, keep).is_ok(),
            Err(_) => false,
        },
    }
}

#[test]
fn a_session_is_raised_in_a_store(rt: HostRuntime) {
    for (plugin, before, session, after) in RAISED {
        let mut keep = store(&rt, *before);
        for _ in 0..2 {
            assert!(&rt; is_raised(&rt, *plugin, *session, &mut keep));
            assert!(&rt; has(&mut keep, *after) && keep.faults() == 0);
        }
        drop(keep);
    }
}

// What the whole script left in an earlier version is served it again, which changes nothing: each frame is stale or gets its kept reply.
#[test]
fn a_store_of_an_earlier_version_is_served(rt: HostRuntime) {
    for before in [FIRST, SECOND] {
        let mut keep = store(&rt, before);
        let last = SCRIPT.steps.len().saturating_sub(1);
        assert!(&rt; take(&rt, &mut keep, SCRIPT, (last, 4096)) == End::Served(6));
        assert!(&rt; has(&mut keep, PLAYED));
        drop(keep);
    }
}

// How much a store in memory takes for the head of a new plugin: 8 bytes and its value.
#[test]
fn a_head_fits_exactly(rt: HostRuntime) {
    for (plugin, size) in [(PluginKind::Controller, 26u64), (PluginKind::Node, 21)] {
        let mut small = MemoryKeep::new(rt.alloc(), size.saturating_sub(1));
        assert!(&rt; fault(&rt, plugin, &mut small) == Some(KeepFault::Full));
        assert!(&rt; has(&mut small, NOTHING));
        let mut enough = MemoryKeep::new(rt.alloc(), size);
        assert!(&rt; fault(&rt, plugin, &mut enough).is_none());
        drop((small, enough));
    }
}

// A volume of 0 bytes, and one in mode 6, which version 1 doesn't have.
const EMPTY: &[u8] = &[
    1, 1, 1, 119, 0, 0, 0, 0, 0, 0, 0, 0, 1, 0, 1, 0, 0, 0, 0, 0, 0, 0, 0, 1, 0, 0, 0, 0, 0, 0, 0,
    1, 129, 0, 0, 0, 0, 0, 0, 0, 0, 1, 0,
];

const IN_MODE_6: &[u8] = &[
    1, 1, 1, 118, 0, 0, 0, 0, 0, 0, 0, 10, 1, 0, 6, 0, 0, 0, 0, 0, 0, 0, 0, 1, 0, 0, 0, 0, 0, 0, 0,
    1, 129, 0, 0, 0, 0, 0, 0, 0, 0, 1, 0,
];

// Stores that no controller is opened of, and the part that is refused: a part of another version than the head, or than the part
// before it; rows that are none in version 1; a head of version 4, one of version 3 without a session, one of version 2 with one, and a
// node's; a volume whose last call is of a later session than the head's, and one that was deleted in an earlier one.
const REFUSED: &[(Content, u64)] = &[
    ((ONE_MADE, FIRST_MADE, &[]), 1),
    ((ONE_MADE, SECOND_MADE, &[]), 1),
    ((FIRST_ONE_MADE, MADE, &[]), 1),
    ((FIRST_ONE_MADE, SECOND_MADE, &[]), 1),
    ((SECOND_ONE_MADE, MADE, &[]), 1),
    ((SECOND_ONE_MADE, FIRST_MADE, &[]), 1),
    ((FIRST_TWO_MADE, FIRST_GONE, OTHER), 2),
    ((FIRST_ONE_MADE, EMPTY, &[]), 1),
    ((FIRST_ONE_MADE, IN_MODE_6, &[]), 1),
    ((FIRST_TWO_MADE, FIRST_OTHER, EMPTY), 2),
    ((&[4, 0, 0, 0, 0, 0, 0, 0, 0, 2], MADE, &[]), 0),
    ((&[3, 0, 0, 0, 0, 0, 0, 0, 0, 2], MADE, &[]), 0),
    (
        (
            &[2, 0, 0, 0, 0, 0, 0, 0, 0, 2, 0, 0, 0, 0, 0, 0, 0, 1],
            SECOND_MADE,
            &[],
        ),
        0,
    ),
    (FIRST_NODE, 0),
    (NEW_NODE, 0),
    ((TWO_MADE, MADE, LATER), 2),
    ((IN_SESSION_2, GONE, LATER), 1),
];

// The same of nodes: a controller's, another node's, a row that is damaged, and one of another version.
const REFUSED_NODES: &[(Content, u64)] = &[
    ((CONTROLLER_HEAD, &[], &[]), 0),
    ((&[3, 1, 2, 110, 50, 0, 0, 0, 0, 0, 0, 0, 0], &[], &[]), 0),
    ((NODE_IN_SESSION_1, &[3, 2], &[]), 1),
    ((NODE_IN_SESSION_1, FIRST_NODE_ROW, &[]), 1),
    ((FIRST_NODE_HEAD, NODE_ROW, &[]), 1),
];

// Such a store is refused there, and has what it had.
fn refuses(rt: &(impl Abort + AllocGlobal), plugin: PluginKind, rows: &[(Content, u64)]) {
    for (content, place) in rows {
        let mut keep = store(rt, *content);
        let fault = fault(rt, plugin, &mut keep);
        assert!(rt; fault == Some(KeepFault::BadRecord(*place)), "at {place}");
        assert!(rt; has(&mut keep, *content) && keep.faults() == 0);
        drop(keep);
    }
}

#[test]
fn what_is_no_record_is_refused_and_not_rewritten(rt: HostRuntime) {
    refuses(&rt, PluginKind::Controller, REFUSED);
    refuses(&rt, PluginKind::Node, REFUSED_NODES);
}

// The first opening fails where its one commit does, which leaves version 2 or version 3; the second one has version 3.
#[test]
fn a_refused_commit_leaves_version_2_or_version_3(rt: HostRuntime) {
    for (left, wanted) in [(Left::Old, FORGETS), (Left::New, FORGOTTEN)] {
        let mut keep = FailingKeep::new(store(&rt, FORGETS), None, Some(0), left);
        let refused = fault(&rt, PluginKind::Controller, &mut keep);
        assert!(&rt; refused == Some(KeepFault::Device) && keep.faults() == 1);
        assert!(&rt; has(&mut keep, wanted));
        assert!(&rt; fault(&rt, PluginKind::Controller, &mut keep).is_none());
        assert!(&rt; has(&mut keep, FORGOTTEN));
        drop(keep);
    }
}

// The head of a new store of `n1` that joined with session 2.
const JOINED: Content = (&[3, 1, 2, 110, 49, 0, 0, 0, 0, 0, 0, 0, 2], &[], &[]);

// A store, the session of a joining, and what the store has then; nothing where it is refused, as one of an earlier session, and has what it had.
// In versions 1 and 2 that is compared with the greatest session of the rows' last calls.
const JOININGS: &[(Content, u64, Option<Content>)] = &[
    (NOTHING, 2, Some(JOINED)),
    (JOINED, 0, Some(JOINED)),
    (JOINED, 2, Some(JOINED)),
    (JOINED, 3, None),
    (JOINED, u64::MAX, None),
    (FIRST_NODE, 1, Some(NODE)),
    (FIRST_NODE, 2, None),
    (NODE_FORGETS, 2, Some(NODE_FORGOTTEN)),
    (NODE_FORGETS, 3, None),
];

// Whether the node joins, and the store has that. A store that is refused isn't committed to: a commit that would fail isn't asked for.
fn joins(
    rt: &(impl Abort + AllocGlobal),
    before: Content,
    session: u64,
    after: Option<Content>,
) -> bool {
    let commit = if after.is_none() { Some(0) } else { None };
    let mut keep = FailingKeep::new(store(rt, before), None, commit, Left::New);
    let is_so = match joined(rt, &mut keep, session) {
        Ok(service) => {
            drop(service);
            after.is_some()
        }
        Err(fault) => after.is_none() && fault == NodeUnopened::EarlierSession,
    };
    let is_left = has(&mut keep, after.unwrap_or(before)) && keep.faults() == 0;
    drop(keep);
    is_so && is_left
}

#[test]
fn a_store_of_an_earlier_session_is_refused_and_left(rt: HostRuntime) {
    for (before, session, after) in JOININGS {
        assert!(&rt; joins(&rt, *before, *session, *after), "session {session}");
    }
}
