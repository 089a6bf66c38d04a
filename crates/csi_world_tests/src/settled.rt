//! A volume is let come to rest by the library's call. Where memory is refused that is done the second time, in another world.
use crate::events::events_of;
use crate::playing::{audited, world_after};
use crate::steps::{Does, ONE};
use crate::values::{config, name};
use csi_types::{Config, NoMemory};
use csi_world::{Event, Settled};
use std::alloc::Global;
use std::process::Abort;

// The world after these events, in which `v` is settled, or settled twice.
fn settled(
    rt: &(impl Abort + AllocGlobal),
    config: &Config,
    events: &[Event],
    again: bool,
) -> Result<Settled, NoMemory> {
    let volume = name(rt, "v");
    let first = world_after(rt, config, events).settle(&volume)?;
    if again {
        first.world.settle(&volume)
    } else {
        Ok(first)
    }
}

// Whether so many events happened then, and were logged in all, and the volume is at rest or isn't; the world is safe.
fn came(
    rt: &(impl Abort + AllocGlobal),
    config: &Config,
    events: &[Event],
    again: bool,
    (count, logged, at_rest): (u64, usize, bool),
) -> bool {
    let last = match settled(rt, config, events, again) {
        Ok(last) => last,
        Err(_) => settled(rt, config, events, again).expect(rt, "a world"),
    };
    let Settled {
        world,
        events: happened,
        rest,
    } = last;
    let is_logged = world.outcomes().len() == logged;
    let is_safe = audited(rt, &world).is_none();
    drop(world);
    happened == count && rest == at_rest && is_logged && is_safe
}

// What happens before; then how many events happen as `v` is settled, how many were logged in all, and whether it is at rest; and the same
// as it is settled once more.
type Row = (&'static [Does], (u64, usize, bool), (u64, usize, bool));

const ROWS: &[Row] = &[
    (&[], (0, 0, true), (0, 0, true)),
    (
        &[
            Does::Create(ONE),
            Does::Deliver(1),
            Does::Deliver(2),
            Does::Use("n1", "/a", ONE, false),
        ],
        (7, 11, true),
        (0, 11, true),
    ),
    // The staging that is due goes to no node, each time.
    (
        &[
            Does::Create(ONE),
            Does::Deliver(1),
            Does::Deliver(2),
            Does::Lose("n2"),
            Does::Lists(&["n1", "n2"]),
            Does::Use("n2", "/a", ONE, false),
        ],
        (4, 10, false),
        (2, 12, false),
    ),
];

#[test]
fn a_world_is_settled(rt: HostRuntime) {
    let config = config(&rt, &[("n1", 4), ("n2", 4)]);
    for (index, (list, first, second)) in ROWS.iter().enumerate() {
        let events = events_of(&rt, list);
        assert!(&rt; came(&rt, &config, &events, false, *first), "row {index}");
        assert!(&rt;
            came(&rt, &config, &events, true, *second),
            "row {index}, again"
        );
        drop(events);
    }
    drop(config);
}
