//! Lines that are read as an orchestrator's requests, or have a fault.
use super::events::{is_create, is_use};
use csi_json::{Request, RequestFault, read_request};
use csi_world::Event;
use std::alloc::Global;

// What a line is to be read as: the creation or the use that a schedule is read with too, the deletion of `v`, another command, the bytes of a frame,
// or a fault.
#[derive(Clone, Copy)]
enum Read {
    Create,
    Use,
    Delete,
    Other,
    Bytes(&'static [u8]),
    Fault(RequestFault),
}

const BAD_LINE: Read = Read::Fault(RequestFault::BadLine);

const BAD_FRAME: Read = Read::Fault(RequestFault::BadFrame);

const NO_JSON: Read = Read::Fault(RequestFault::NotJson);

fn is_command(event: &Event, read: Read) -> bool {
    match read {
        Read::Create => is_create(event),
        Read::Use => is_use(event),
        Read::Delete => match event {
            Event::Delete(name) => name.as_str() == "v",
            _ => false,
        },
        Read::Other => true,
        Read::Bytes(_) | Read::Fault(_) => false,
    }
}

// Whether a line is read so. Where memory is refused it is read the second time.
fn is_read(alloc: Global, line: &[u8], read: Read) -> bool {
    let request = match read_request(alloc, line) {
        Err(RequestFault::NoMemory) => read_request(alloc, line),
        request => request,
    };
    match request {
        Ok(Request::Command(event)) => is_command(&event, read),
        Ok(Request::Reply(bytes)) => match read {
            Read::Bytes(wanted) => bytes.as_slice() == wanted,
            _ => false,
        },
        Err(fault) => match read {
            Read::Fault(wanted) => fault == wanted,
            _ => false,
        },
    }
}

const LINES: &[(&str, Read)] = &[
    (
        "{\"create\":{\"capabilities\":[{\"access\":\"block\",\"mode\":1},{\"access\":\"mount\",\"fs\":\"ext4\",\"mode\":5}],\"limit\":9,\"name\":\"v\",\"required\":7}}",
        Read::Create,
    ),
    (
        "{\"use\":{\"capability\":{\"access\":\"mount\",\"fs\":\"ext4\",\"mode\":5},\"name\":\"v\",\"node\":\"n1\",\"readonly\":true,\"target\":\"/a\"}}",
        Read::Use,
    ),
    (
        " {\"stop\" : {\"target\":\"/a\", \"node\":\"n1\", \"name\":\"v\"}}\r",
        Read::Other,
    ),
    ("{\"delete\":\"v\"}", Read::Delete),
    ("{\"timeout\":\"v\"}", Read::Other),
    ("{\"lose\":\"n1\"}", Read::Other),
    ("{\"delete\":\"w\",\"delete\":\"v\"}", Read::Delete),
    ("{\"reply\":\"\"}", Read::Bytes(&[])),
    ("{\"reply\":\"00\"}", Read::Bytes(&[0])),
    (
        "{\"reply\":\"0123456789abcdefff\"}",
        Read::Bytes(&[1, 35, 69, 103, 137, 171, 205, 239, 255]),
    ),
    ("{\"reply\":\"\\u0030a\"}", Read::Bytes(&[10])),
    ("{\"reply\":\"0\"}", BAD_FRAME),
    ("{\"reply\":\"0A\"}", BAD_FRAME),
    ("{\"reply\":\"0g\"}", BAD_FRAME),
    ("{\"reply\":\"0G\"}", BAD_FRAME),
    ("{\"reply\":\"00 00\"}", BAD_FRAME),
    ("{\"reply\":\"0x00\"}", BAD_FRAME),
    ("{\"reply\":\"00\\n\"}", BAD_FRAME),
    ("{\"reply\":0}", BAD_FRAME),
    ("{\"reply\":null}", BAD_FRAME),
    ("", NO_JSON),
    ("\r", NO_JSON),
    ("{", NO_JSON),
    ("{\"delete\":\"v\"} {}", NO_JSON),
    ("{}", BAD_LINE),
    ("[]", BAD_LINE),
    ("\"v\"", BAD_LINE),
    ("{\"delete\":\"v\",\"timeout\":\"v\"}", BAD_LINE),
    ("{\"reply\":\"zz\",\"x\":1}", BAD_LINE),
    ("{\"reply\":\"00\",\"x\":1}", BAD_LINE),
    ("{\"delete\":\"\"}", BAD_LINE),
    ("{\"delete\":1}", BAD_LINE),
    ("{\"use\":{\"name\":\"v\"}}", BAD_LINE),
    ("{\"deliver\":1}", BAD_LINE),
    ("{\"restart\":\"orchestrator\"}", BAD_LINE),
    ("{\"restart_node\":\"n1\"}", BAD_LINE),
    ("{\"restart_orchestrator\":[]}", BAD_LINE),
    ("{\"join\":\"n1\"}", BAD_LINE),
    (
        "{\"restart_controller\":{\"greatest\":1,\"nodes\":[]}}",
        BAD_LINE,
    ),
    ("{\"lose\":\"\"}", BAD_LINE),
    ("{\"settle\":\"v\"}", BAD_LINE),
    ("{\"lose\":[\"n1\"]}", BAD_LINE),
    ("{\"lose\":\"n1\",\"timeout\":\"v\"}", BAD_LINE),
    ("{\"Delete\":\"v\"}", BAD_LINE),
];

// A byte that is no text, where a name would be.
const NO_TEXT: &[u8] = &[
    123, 34, 100, 101, 108, 101, 116, 101, 34, 58, 34, 255, 34, 125,
];

#[test]
fn a_line_is_one_request(rt: HostRuntime) {
    for (index, (line, read)) in LINES.iter().enumerate() {
        assert!(&rt; is_read(rt.alloc(), line.as_bytes(), *read), "line {index}");
    }
    assert!(&rt; is_read(rt.alloc(), NO_TEXT, NO_JSON), "no text");
}
