//! Sessions that are asked for, and replies that tell that the store is an older one.
use super::{answers, answers_from, has_after, puts};
use crate::devices::{SOUND, new_store};
use csi_streams::Ending;
use std::alloc::Global;
use std::process::Abort;

// The session of a store, 0 of none; the one that is asked for; and the first line.
type Asked = (u8, u64, &'static [u8]);

const ASKED: &[Asked] = &[
    (0, 0, b"{\"session\":1,\"wanted\":[]}\n"),
    (0, 1, b"{\"session\":1,\"wanted\":[]}\n"),
    (0, 7, b"{\"session\":7,\"wanted\":[]}\n"),
    (4, 0, b"{\"session\":5,\"wanted\":[]}\n"),
    (4, 3, b"{\"session\":5,\"wanted\":[]}\n"),
    (4, 4, b"{\"session\":5,\"wanted\":[]}\n"),
    (4, 5, b"{\"session\":5,\"wanted\":[]}\n"),
    (4, 6, b"{\"session\":6,\"wanted\":[]}\n"),
    (4, 255, b"{\"session\":255,\"wanted\":[]}\n"),
    (
        4,
        18_446_744_073_709_551_615,
        b"{\"session\":18446744073709551615,\"wanted\":[]}\n",
    ),
];

// Whether it begins so, and ends.
fn begins(rt: &(impl Abort + AllocGlobal), asked: Asked) -> bool {
    let mut keep = new_store(rt.alloc(), 1000, SOUND);
    puts(rt, &mut keep, asked.0, 0);
    let (written, ending) = answers_from(rt, &mut keep, asked.1, b"", SOUND);
    let is_so = ending == Ending::Done && written.as_slice() == asked.2;
    drop((written, keep));
    is_so
}

#[test]
fn a_later_session_is_begun(rt: HostRuntime) {
    for asked in ASKED {
        assert!(&rt; begins(&rt, *asked));
    }
}

// The command that asks for a volume, and replies to its first call and to the second: it was stale.
const STALE: &[u8] =
    br#"{"create":{"capabilities":[{"access":"block","mode":1}],"limit":0,"name":"v","required":10}}
{"reply":"00000022018100000000000000010000000000000002000a0000000000000000057374616c65"}
{"reply":"00000022018100000000000000010000000000000001000a0000000000000000057374616c65"}
{"delete":"v"}
"#;

// The second call isn't open: its reply is ignored. The first one is.
const ANSWERED: &[u8] = br#"{"session":1,"wanted":[]}
{"goal":{"create":{"capabilities":[{"access":"block","mode":1}],"limit":0,"name":"v","required":10}},"name":"v","outcome":"sent","send":{"call":1,"frame":"00000028010100000000000000010000000000000001000176000000000000000a0000000000000000010001","kind":"CreateVolume","plugin":"controller","session":1}}
{"outcome":"ignored"}
"#;

// Its store has what was answered before.
#[test]
fn a_stale_reply_to_an_open_call_ends_it(rt: HostRuntime) {
    let mut keep = new_store(rt.alloc(), 1000, SOUND);
    let (written, ending) = answers(&rt, &mut keep, STALE, SOUND);
    assert!(&rt; ending == Ending::OlderStore);
    assert!(&rt; written.as_slice() == ANSWERED);
    assert!(&rt; has_after(&rt, &mut keep, 1, (1, 0)));
    drop((written, keep));
}
