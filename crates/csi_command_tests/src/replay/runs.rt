//! Schedules that are run to their reports, and bytes that are no schedule.
use super::running::{Written, gives, run_all};
use super::schedules::with_objects;
use super::{CREATE, CREATE_SIX, CREATED, Case, NO_EVENT, NO_EVENT_REPORT};
use csi_json::{MAX_EVENTS, ScheduleFault};
use csi_streams::{Ending, FileCommand, ScheduleCommand};

const DONE: Ending = Ending::Done;

// A volume is made, and used at a node, with every frame delivered in turn.
const USED: &str =
    "{\"config\":{\"greatest\":1000,\"nodes\":[{\"id\":\"n1\",\"slots\":4}]},\"events\":[{\"create\":{\"capabilities\":[{\"access\":\"block\",\"mode\":1}],\"limit\":0,\"name\":\"v\",\"required\":10}},{\"deliver\":1},{\"deliver\":2},{\"use\":{\"capability\":{\"access\":\"block\",\"mode\":1},\"name\":\"v\",\"node\":\"n1\",\"readonly\":false,\"target\":\"/a\"}},{\"deliver\":3},{\"deliver\":4},{\"deliver\":5},{\"deliver\":6},{\"deliver\":7},{\"deliver\":8}]}";

const USED_REPORT: &str =
    "{\"attached\":[{\"id\":1,\"mode\":1,\"node\":\"n1\",\"readonly\":false}],\"events\":[\"sent 1\",\"answered 2\",\"taken\",\"sent 3\",\"answered 4\",\"taken, sent 5\",\"answered 6\",\"taken, sent 7\",\"answered 8\",\"taken\"],\"frames\":8,\"known\":[{\"known\":\"yes\",\"name\":\"v\",\"thing\":\"exists\"},{\"known\":\"yes\",\"name\":\"v\",\"node\":\"n1\",\"thing\":\"attached\"},{\"known\":\"yes\",\"name\":\"v\",\"node\":\"n1\",\"thing\":\"staged\"},{\"known\":\"yes\",\"name\":\"v\",\"node\":\"n1\",\"target\":\"/a\",\"thing\":\"published\"}],\"published\":[{\"id\":1,\"node\":\"n1\",\"readonly\":false,\"target\":\"/a\"}],\"safe\":true,\"session\":1,\"staged\":[{\"id\":1,\"mode\":1,\"node\":\"n1\"}],\"volumes\":[{\"capacity\":10,\"id\":1,\"name\":\"v\"}]}\n";

// The same in mode 6, and two uses that are refused: a second target, and another node.
const ALONE: &str =
    "{\"config\":{\"greatest\":1000,\"nodes\":[{\"id\":\"n1\",\"slots\":4},{\"id\":\"n2\",\"slots\":4}]},\"events\":[{\"create\":{\"capabilities\":[{\"access\":\"block\",\"mode\":6}],\"limit\":0,\"name\":\"v\",\"required\":10}},{\"deliver\":1},{\"deliver\":2},{\"use\":{\"capability\":{\"access\":\"block\",\"mode\":6},\"name\":\"v\",\"node\":\"n1\",\"readonly\":false,\"target\":\"/a\"}},{\"deliver\":3},{\"deliver\":4},{\"deliver\":5},{\"deliver\":6},{\"deliver\":7},{\"deliver\":8},{\"use\":{\"capability\":{\"access\":\"block\",\"mode\":6},\"name\":\"v\",\"node\":\"n1\",\"readonly\":false,\"target\":\"/b\"}},{\"use\":{\"capability\":{\"access\":\"block\",\"mode\":6},\"name\":\"v\",\"node\":\"n2\",\"readonly\":true,\"target\":\"/a\"}}]}";

const ALONE_REPORT: &str =
    "{\"attached\":[{\"id\":1,\"mode\":6,\"node\":\"n1\",\"readonly\":false}],\"events\":[\"sent 1\",\"answered 2\",\"taken\",\"sent 3\",\"answered 4\",\"taken, sent 5\",\"answered 6\",\"taken, sent 7\",\"answered 8\",\"taken\",\"refused 10 TargetTaken\",\"refused 7 HeldElsewhere\"],\"frames\":8,\"known\":[{\"known\":\"yes\",\"name\":\"v\",\"thing\":\"exists\"},{\"known\":\"yes\",\"name\":\"v\",\"node\":\"n1\",\"thing\":\"attached\"},{\"known\":\"yes\",\"name\":\"v\",\"node\":\"n1\",\"thing\":\"staged\"},{\"known\":\"yes\",\"name\":\"v\",\"node\":\"n1\",\"target\":\"/a\",\"thing\":\"published\"}],\"published\":[{\"id\":1,\"node\":\"n1\",\"readonly\":false,\"target\":\"/a\"}],\"safe\":true,\"session\":1,\"staged\":[{\"id\":1,\"mode\":6,\"node\":\"n1\"}],\"volumes\":[{\"capacity\":10,\"id\":1,\"name\":\"v\"}]}\n";

// An orchestrator that restarts asks again, and the reply to its first call is ignored: `examples/restart.json`.
const RESTARTED: &str =
    "{\"config\":{\"greatest\":1000,\"nodes\":[{\"id\":\"n1\",\"slots\":4}]},\"events\":[{\"create\":{\"capabilities\":[{\"access\":\"block\",\"mode\":1}],\"limit\":0,\"name\":\"v\",\"required\":10}},{\"deliver\":1},{\"deliver\":2},{\"use\":{\"capability\":{\"access\":\"block\",\"mode\":1},\"name\":\"v\",\"node\":\"n1\",\"readonly\":false,\"target\":\"/a\"}},{\"deliver\":3},{\"restart\":\"orchestrator\"},{\"timeout\":\"v\"},{\"deliver\":4},{\"deliver\":5},{\"deliver\":6}]}";

const RESTARTED_REPORT: &str =
    "{\"attached\":[{\"id\":1,\"mode\":1,\"node\":\"n1\",\"readonly\":false}],\"events\":[\"sent 1\",\"answered 2\",\"taken\",\"sent 3\",\"answered 4\",\"restarted\",\"sent 5\",\"ignored\",\"answered 6\",\"taken, sent 7\"],\"frames\":7,\"known\":[{\"known\":\"yes\",\"name\":\"v\",\"thing\":\"exists\"},{\"known\":\"yes\",\"name\":\"v\",\"node\":\"n1\",\"thing\":\"attached\"},{\"known\":\"maybe\",\"name\":\"v\",\"node\":\"n1\",\"thing\":\"staged\"}],\"published\":[],\"safe\":true,\"session\":2,\"staged\":[],\"volumes\":[{\"capacity\":10,\"id\":1,\"name\":\"v\"}]}\n";

const NO_FRAME: &str =
    "{\"config\":{\"greatest\":1000,\"nodes\":[]},\"events\":[{\"deliver\":99}]}";

const NO_FRAME_REPORT: &str =
    "{\"attached\":[],\"events\":[\"no such frame\"],\"frames\":0,\"known\":[],\"published\":[],\"safe\":true,\"session\":1,\"staged\":[],\"volumes\":[]}\n";

// A name that JSON can spell in several ways. The report has the shortest escapes, and no other.
const ESCAPED: &str =
    "{\"config\":{\"greatest\":1000,\"nodes\":[]},\"events\":[{\"create\":{\"capabilities\":[],\"limit\":0,\"name\":\"\\\"\\\\\\u000a\\u0001\\u00e9\\/\",\"required\":10}}]}";

const ESCAPED_REPORT: &str =
    "{\"attached\":[],\"events\":[\"sent 1\"],\"frames\":1,\"known\":[{\"known\":\"maybe\",\"name\":\"\\\"\\\\\\n\\u0001\u{e9}/\",\"thing\":\"exists\"}],\"published\":[],\"safe\":true,\"session\":1,\"staged\":[],\"volumes\":[]}\n";

// A volume is asked for, and the call comes to the controller, whose reply nobody delivers.
const ASKED: &str =
    "{\"config\":{\"greatest\":1000,\"nodes\":[]},\"events\":[{\"create\":{\"capabilities\":[{\"access\":\"block\",\"mode\":1}],\"limit\":0,\"name\":\"v\",\"required\":10}},{\"deliver\":1}]}";

// The same in mode 6: the call is of version 2, and the reply of version 1.
const ASKED_ALONE: &str =
    "{\"config\":{\"greatest\":1000,\"nodes\":[]},\"events\":[{\"create\":{\"capabilities\":[{\"access\":\"block\",\"mode\":6}],\"limit\":0,\"name\":\"v\",\"required\":10}},{\"deliver\":1}]}";

const RUNS: &[Case] = &[
    Case::Runs(USED, USED_REPORT, DONE),
    Case::Runs(ALONE, ALONE_REPORT, DONE),
    Case::Runs(RESTARTED, RESTARTED_REPORT, DONE),
    Case::Runs(NO_FRAME, NO_FRAME_REPORT, DONE),
    Case::Runs(NO_EVENT, NO_EVENT_REPORT, DONE),
    Case::Runs(ESCAPED, ESCAPED_REPORT, DONE),
    Case::Sends(ASKED, &[CREATE, CREATED], DONE),
    Case::Sends(ASKED_ALONE, &[CREATE_SIX, CREATED], DONE),
    Case::Sends(NO_EVENT, &[], DONE),
    Case::Sends("{", &[], Ending::ScheduleFault(ScheduleFault::NotJson)),
    Case::Runs("{", "", Ending::ScheduleFault(ScheduleFault::NotJson)),
    Case::Runs("", "", Ending::ScheduleFault(ScheduleFault::NotJson)),
    Case::Runs(
        "[]",
        "",
        Ending::ScheduleFault(ScheduleFault::BadSchedule { place: 0 }),
    ),
    Case::Runs(
        "{\"config\":{\"greatest\":0,\"nodes\":[]},\"events\":[]}",
        "",
        Ending::ScheduleFault(ScheduleFault::BadSchedule { place: 0 }),
    ),
    Case::Runs(
        "{\"config\":{\"greatest\":1,\"nodes\":[]},\"events\":[{\"deliver\":0},{\"drop\":1}]}",
        "",
        Ending::ScheduleFault(ScheduleFault::BadSchedule { place: 2 }),
    ),
    Case::RunsBytes(&["ff"], Ending::NotUtf8),
    Case::RunsBytes(&["fe"], Ending::NotUtf8),
    Case::RunsBytes(&["7b c3"], Ending::NotUtf8),
];

#[test]
fn a_schedule_is_run_or_refused(rt: HostRuntime) {
    run_all(&rt, RUNS);
}

#[test]
fn too_many_events_are_not_run(rt: HostRuntime) {
    let text = with_objects(&rt, MAX_EVENTS + 1);
    let run = FileCommand::Schedule(ScheduleCommand::Run);
    let ending = Ending::ScheduleFault(ScheduleFault::TooMany);
    assert!(&rt; gives(&rt, run, text.as_bytes(), Written::Text(""), ending));
}
