//! Texts that are read as schedules, or have a fault.
use csi_json::{ScheduleFault, read_schedule};
use std::alloc::{AllocError, Global};
use std::process::Abort;

// A text: a whole schedule, the configuration of one without events, or the events of one with a good configuration.
#[derive(Clone, Copy)]
enum Text {
    Whole(&'static str),
    Config(&'static str),
    Events(&'static str),
}

// A fault's number and its place.
type Fault = (u8, u64);

const NONE: Fault = (0, 0);

const NO_JSON: Fault = (1, 0);

// What isn't an event has none of the places of events.
const NO_SCHEDULE: Fault = (2, 0);

const CONFIG: &str = "{\"greatest\":1,\"nodes\":[]}";

// A schedule with this configuration and these events.
pub(super) fn schedule(rt: &(impl Abort + AllocGlobal), config: &str, events: &str) -> String {
    match format!(in rt.alloc(); "{{\"config\":{config},\"events\":{events}}}") {
        Ok(text) => text,
        Err(_) => format!(in rt.alloc(); "{{\"config\":{config},\"events\":{events}}}").expect(
            rt, "memory",
        ),
    }
}

// A schedule with these events.
pub(super) fn with_events(rt: &(impl Abort + AllocGlobal), events: &str) -> String {
    schedule(rt, CONFIG, events)
}

fn fault_of(alloc: Global, text: &str) -> Result<(), ScheduleFault> {
    match read_schedule(alloc, text) {
        Ok(_) => Ok(()),
        Err(fault) => Err(fault),
    }
}

// A text's fault. Where memory is refused it is read the second time.
fn fault_in(alloc: Global, text: &str) -> Fault {
    let read = match fault_of(alloc, text) {
        Err(ScheduleFault::NoMemory) => fault_of(alloc, text),
        read => read,
    };
    match read {
        Ok(()) => NONE,
        Err(fault) => (fault.number(), fault.place()),
    }
}

fn fault_of_text(rt: &(impl Abort + AllocGlobal), text: Text) -> Fault {
    match text {
        Text::Whole(text) => fault_in(rt.alloc(), text),
        Text::Config(config) => fault_in(rt.alloc(), &schedule(rt, config, "[]")),
        Text::Events(events) => fault_in(rt.alloc(), &with_events(rt, events)),
    }
}

// A list of so many empty objects, if there is memory for it.
fn try_objects(alloc: Global, count: usize) -> Result<String, AllocError> {
    let mut text = String::from_str(alloc, "[{}")?;
    for _ in 1..count {
        text.push_str(",{}")?;
    }
    text.push_str("]")?;
    Ok(text)
}

// A schedule with so many empty objects for events.
pub(super) fn with_objects(rt: &(impl Abort + AllocGlobal), count: usize) -> String {
    let objects = match try_objects(rt.alloc(), count) {
        Ok(objects) => objects,
        Err(_) => try_objects(rt.alloc(), count).expect(rt, "memory"),
    };
    with_events(rt, &objects)
}

const TEXTS: &[(Text, Fault)] = &[
    (Text::Whole(""), NO_JSON),
    (Text::Whole("{"), NO_JSON),
    (Text::Whole("[]"), NO_SCHEDULE),
    (Text::Whole("{}"), NO_SCHEDULE),
    (
        Text::Whole("{\"config\":{\"greatest\":1,\"nodes\":[]}}"),
        NO_SCHEDULE,
    ),
    (
        Text::Whole("{\"config\":{\"greatest\":1,\"nodes\":[]},\"events\":{}}"),
        NO_SCHEDULE,
    ),
    (
        Text::Whole("{\"config\":{\"greatest\":0,\"nodes\":[]},\"events\":[]}"),
        NO_SCHEDULE,
    ),
    (
        Text::Whole("{\"config\":{\"greatest\":0,\"nodes\":[]},\"events\":[{}]}"),
        NO_SCHEDULE,
    ),
    (
        Text::Whole("{\"config\":{\"greatest\":1,\"nodes\":[]},\"events\":[],\"more\":1}"),
        NO_SCHEDULE,
    ),
    (
        Text::Whole(
            "{\"config\":{\"greatest\":1,\"nodes\":[]},\"events\":[{\"deliver\":0},{\"drop\":1}]}",
        ),
        (2, 2),
    ),
    (
        Text::Whole("{\"config\":{\"greatest\":1,\"nodes\":[]},\"events\":[]}"),
        NONE,
    ),
    // configurations; of repeated keys the last stands
    (
        Text::Config("{\"greatest\":1,\"nodes\":[{\"id\":\"n1\",\"slots\":4}]}"),
        NONE,
    ),
    (
        Text::Config("{\"greatest\":1,\"nodes\":[{\"id\":\"\",\"slots\":4}]}"),
        NO_SCHEDULE,
    ),
    (
        Text::Config("{\"greatest\":1,\"nodes\":[{\"id\":\"n1\",\"slots\":4097}]}"),
        NO_SCHEDULE,
    ),
    (
        Text::Config(
            "{\"greatest\":1,\"nodes\":[{\"id\":\"a\",\"slots\":1},{\"id\":\"a\",\"slots\":1}]}",
        ),
        NO_SCHEDULE,
    ),
    (
        Text::Config("{\"greatest\":1,\"nodes\":[{\"id\":\"a\",\"slots\":1,\"more\":1}]}"),
        NO_SCHEDULE,
    ),
    (
        Text::Config("{\"greatest\":9223372036854775808,\"nodes\":[]}"),
        NO_SCHEDULE,
    ),
    (
        Text::Config("{\"greatest\":0,\"greatest\":1,\"nodes\":[]}"),
        NONE,
    ),
    (
        Text::Config("{\"greatest\":1,\"greatest\":0,\"nodes\":[]}"),
        NO_SCHEDULE,
    ),
    (Text::Events("[{\"deliver\":18446744073709551615}]"), NONE),
    (Text::Events("[{\"deliver\":18446744073709551616}]"), (2, 1)),
    (Text::Events("[{\"deliver\":1.0}]"), (2, 1)),
    (Text::Events("[{\"deliver\":1e2}]"), (2, 1)),
    (Text::Events("[{\"deliver\":-0}]"), (2, 1)),
    (Text::Events("[{\"deliver\":1.0,\"deliver\":1}]"), NONE),
    (Text::Events("[{\"deliver\":1,\"delete\":\"v\"}]"), (2, 1)),
    (Text::Events("[{\"delete\":\"v\"},{}]"), (2, 2)),
    (Text::Events("[{\"delete\":\"\"},{}]"), (2, 1)),
    (Text::Events("[{\"restart\":\"node\"}]"), (2, 1)),
    (Text::Events("[{\"restart_node\":\"\"}]"), (2, 1)),
    // events of nodes that come and go: a list of ids may have any length, and an id may stand there twice; a configuration is judged as the first one
    (
        Text::Events(
            "[{\"join\":\"n1\"},{\"lose\":\"n1\"},{\"restart_orchestrator\":[\"n1\",\"n1\"]},{\"restart_controller\":{\"nodes\":[],\"greatest\":1}}]",
        ),
        NONE,
    ),
    (
        Text::Events(
            "[{\"restart_orchestrator\":[\"n1\",\"n2\",\"n3\",\"n4\",\"n5\",\"n6\",\"n7\",\"n8\",\"n9\",\"n10\",\"n11\",\"n12\",\"n13\",\"n14\",\"n15\",\"n16\",\"n17\",\"n18\",\"n19\",\"n20\",\"n21\",\"n22\",\"n23\",\"n24\",\"n25\",\"n26\",\"n27\",\"n28\",\"n29\",\"n30\",\"n31\",\"n32\",\"n33\",\"n34\",\"n35\",\"n36\",\"n37\",\"n38\",\"n39\",\"n40\",\"n41\",\"n42\",\"n43\",\"n44\",\"n45\",\"n46\",\"n47\",\"n48\",\"n49\",\"n50\",\"n51\",\"n52\",\"n53\",\"n54\",\"n55\",\"n56\",\"n57\",\"n58\",\"n59\",\"n60\",\"n61\",\"n62\",\"n63\",\"n64\",\"n65\",\"n66\",\"n67\",\"n68\",\"n69\",\"n70\"]}]",
        ),
        NONE,
    ),
    (Text::Events("[{\"join\":\"\"}]"), (2, 1)),
    (Text::Events("[{\"join\":1}]"), (2, 1)),
    (
        Text::Events("[{\"join\":{\"id\":\"n1\",\"slots\":4}}]"),
        (2, 1),
    ),
    (
        Text::Events("[{\"join\":\"n1\"},{\"lose\":[\"n1\"]}]"),
        (2, 2),
    ),
    (Text::Events("[{\"join\":\"n1\"},{\"lose\":\"\"}]"), (2, 2)),
    (Text::Events("[{\"join\":\"n1\",\"lose\":\"n1\"}]"), (2, 1)),
    (Text::Events("[{\"restart_orchestrator\":\"n1\"}]"), (2, 1)),
    (
        Text::Events("[{\"restart_orchestrator\":[\"n1\",\"\"]}]"),
        (2, 1),
    ),
    (
        Text::Events("[{\"restart_orchestrator\":[\"n1\",2]}]"),
        (2, 1),
    ),
    (
        Text::Events("[{\"restart_orchestrator\":{\"nodes\":[\"n1\"]}}]"),
        (2, 1),
    ),
    (Text::Events("[{\"restart_controller\":[\"n1\"]}]"), (2, 1)),
    (
        Text::Events("[{\"restart_controller\":{\"nodes\":[]}}]"),
        (2, 1),
    ),
    (
        Text::Events("[{\"restart_controller\":{\"greatest\":0,\"nodes\":[]}}]"),
        (2, 1),
    ),
    (
        Text::Events(
            "[{\"deliver\":1},{\"restart_controller\":{\"greatest\":1,\"nodes\":[{\"id\":\"a\",\"slots\":1},{\"id\":\"a\",\"slots\":2}]}}]",
        ),
        (2, 2),
    ),
    (
        Text::Events(
            "[{\"restart_controller\":{\"greatest\":1,\"nodes\":[{\"id\":\"a\",\"slots\":4097}]}}]",
        ),
        (2, 1),
    ),
    (
        Text::Events(
            "[{\"create\":{\"capabilities\":[{\"access\":\"block\",\"mode\":5},{\"access\":\"block\",\"mode\":6}],\"limit\":0,\"name\":\"v\",\"required\":10}}]",
        ),
        NONE,
    ),
    (
        Text::Events(
            "[{\"use\":{\"capability\":{\"access\":\"mount\",\"fs\":\"ext4\",\"mode\":7},\"name\":\"v\",\"node\":\"n1\",\"readonly\":false,\"target\":\"/a\"}}]",
        ),
        NONE,
    ),
    (
        Text::Events(
            "[{\"create\":{\"capabilities\":[{\"access\":\"block\",\"mode\":0}],\"limit\":0,\"name\":\"v\",\"required\":10}}]",
        ),
        (2, 1),
    ),
    (
        Text::Events(
            "[{\"create\":{\"capabilities\":[{\"access\":\"block\",\"mode\":1},{\"access\":\"block\",\"mode\":8}],\"limit\":0,\"name\":\"v\",\"required\":10}}]",
        ),
        (2, 1),
    ),
    (
        Text::Events(
            "[{\"delete\":\"v\"},{\"use\":{\"capability\":{\"access\":\"mount\",\"fs\":\"ext4\",\"mode\":0},\"name\":\"v\",\"node\":\"n1\",\"readonly\":false,\"target\":\"/a\"}}]",
        ),
        (2, 2),
    ),
    (
        Text::Events(
            "[{\"delete\":\"v\"},{\"use\":{\"capability\":{\"access\":\"block\",\"mode\":8},\"name\":\"v\",\"node\":\"n1\",\"readonly\":false,\"target\":\"/a\"}}]",
        ),
        (2, 2),
    ),
    (
        Text::Events(
            "[{\"create\":{\"capabilities\":[{\"access\":\"block\",\"mode\":1},{\"access\":\"block\",\"mode\":1},{\"access\":\"block\",\"mode\":1},{\"access\":\"block\",\"mode\":1},{\"access\":\"block\",\"mode\":1},{\"access\":\"block\",\"mode\":1},{\"access\":\"block\",\"mode\":1},{\"access\":\"block\",\"mode\":1}],\"limit\":0,\"name\":\"v\",\"required\":10}}]",
        ),
        NONE,
    ),
    (
        Text::Events(
            "[{\"create\":{\"capabilities\":[{\"access\":\"block\",\"mode\":1},{\"access\":\"block\",\"mode\":1},{\"access\":\"block\",\"mode\":1},{\"access\":\"block\",\"mode\":1},{\"access\":\"block\",\"mode\":1},{\"access\":\"block\",\"mode\":1},{\"access\":\"block\",\"mode\":1},{\"access\":\"block\",\"mode\":1},{\"access\":\"block\",\"mode\":1}],\"limit\":0,\"name\":\"v\",\"required\":10}}]",
        ),
        (2, 1),
    ),
];

#[test]
fn texts_that_are_no_schedule_are_refused(rt: HostRuntime) {
    for (index, (text, fault)) in TEXTS.iter().enumerate() {
        assert_eq!(&rt; fault_of_text(&rt, *text), *fault, "text {index}");
    }
}

const FAULTS: &[(ScheduleFault, Fault)] = &[
    (ScheduleFault::NotJson, NO_JSON),
    (ScheduleFault::BadSchedule { place: 7 }, (2, 7)),
    (ScheduleFault::TooMany, (3, 0)),
    (ScheduleFault::NoMemory, (4, 0)),
];

#[test]
fn a_fault_has_a_number_and_a_place(rt: HostRuntime) {
    for (fault, (number, place)) in FAULTS {
        assert_eq!(&rt; fault.number(), *number);
        assert_eq!(&rt; fault.place(), *place);
    }
}
