//! Texts that are read as a configuration alone, or have a fault, which a lack of memory never hides: each is read the second time where
//! memory was refused.
use csi_json::{ScheduleFault, read_config};
use std::alloc::Global;

fn fault_once(alloc: Global, text: &str) -> Result<(), ScheduleFault> {
    match read_config(alloc, text) {
        Ok(_) => Ok(()),
        Err(fault) => Err(fault),
    }
}

fn fault_of(alloc: Global, text: &str) -> Result<(), ScheduleFault> {
    match fault_once(alloc, text) {
        Err(ScheduleFault::NoMemory) => fault_once(alloc, text),
        read => read,
    }
}

const BAD: Result<(), ScheduleFault> = Err(ScheduleFault::BadSchedule { place: 0 });

const TEXTS: &[(&str, Result<(), ScheduleFault>)] = &[
    ("", Err(ScheduleFault::NotJson)),
    ("{", Err(ScheduleFault::NotJson)),
    ("[]", BAD),
    ("{}", BAD),
    ("{\"greatest\":1,\"nodes\":[]}", Ok(())),
    // the greatest capacity is 0, above 2^63 - 1, or no number
    ("{\"greatest\":0,\"nodes\":[]}", BAD),
    ("{\"greatest\":9223372036854775808,\"nodes\":[]}", BAD),
    ("{\"greatest\":\"1\",\"nodes\":[]}", BAD),
    // a node without slots, one without an id, one with too many slots, and two of one id
    ("{\"greatest\":1,\"nodes\":[{\"id\":\"n\"}]}", BAD),
    (
        "{\"greatest\":1,\"nodes\":[{\"id\":\"\",\"slots\":1}]}",
        BAD,
    ),
    (
        "{\"greatest\":1,\"nodes\":[{\"id\":\"n\",\"slots\":4097}]}",
        BAD,
    ),
    (
        "{\"greatest\":1,\"nodes\":[{\"id\":\"n\",\"slots\":1},{\"id\":\"n\",\"slots\":2}]}",
        BAD,
    ),
    (
        "{\"greatest\":1,\"nodes\":[{\"id\":\"n\",\"slots\":1},{\"id\":\"m\",\"slots\":4096}]}",
        Ok(()),
    ),
];

#[test]
fn a_configuration_alone_is_judged(rt: HostRuntime) {
    for (index, (text, read)) in TEXTS.iter().enumerate() {
        assert_eq!(&rt; fault_of(rt.alloc(), text), *read, "text {index}");
    }
}
