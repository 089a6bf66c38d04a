//! What is written is flushed: a reply before more is read, and all at the end.
use super::devices::{AT_ONCE, Ways, outcome_of};
use super::running::{asked_in, bytes_of};
use super::{CREATE, CREATED, Case, DELETE, DELETED, NO_EVENT, NO_EVENT_REPORT};
use csi_streams::Ending;

// Each command with the most bytes that wait for a flush at one time. At a read come 31 bytes, as many as one call to delete has, and the one to
// create takes two reads. The replies have 33 bytes each, the first line has 32 and each of the others 33.
const FLUSHED: &[(Case, usize)] = &[
    (
        Case::Answers(
            &[DELETE, CREATE, DELETE],
            &[DELETED, CREATED, DELETED],
            Ending::Done,
        ),
        33,
    ),
    (
        Case::Shows(
            &[DELETE, DELETE, DELETE],
            "0 1.2 controller DeleteVolume 1\n31 1.2 controller DeleteVolume 1\n62 1.2 controller DeleteVolume 1\n",
            Ending::Done,
        ),
        33,
    ),
    (Case::Runs(NO_EVENT, NO_EVENT_REPORT, Ending::Done), 114),
];

const IN_FRAMES: Ways = Ways {
    gives: 31,
    ..AT_ONCE
};

#[test]
fn each_reply_is_flushed_before_more_is_read(rt: HostRuntime) {
    for (index, (case, most)) in FLUSHED.iter().enumerate() {
        let asked = asked_in(*case);
        let input = bytes_of(&rt, asked.input);
        let output = bytes_of(&rt, asked.output);
        let came = outcome_of(rt.alloc(), asked.command, (&input, &output), IN_FRAMES);
        let is_whole = came.is_wanted && came.taken == output.len();
        assert!(&rt; is_whole && came.ending == Ending::Done, "case {index}");
        assert_eq!(&rt;
            (came.waiting, came.most_waiting),
            (0, *most),
            "case {index}"
        );
    }
}

// A flush that fails is a device that failed, after all was written that was to be flushed.
#[test]
fn a_flush_that_fails_is_told(rt: HostRuntime) {
    let ways = Ways {
        flushes: false,
        ..IN_FRAMES
    };
    for (index, (case, most)) in FLUSHED.iter().enumerate() {
        let asked = asked_in(*case);
        let input = bytes_of(&rt, asked.input);
        let output = bytes_of(&rt, asked.output);
        let came = outcome_of(rt.alloc(), asked.command, (&input, &output), ways);
        assert!(&rt; came.ending == Ending::Device, "case {index}");
        assert!(&rt;
            came.is_wanted && came.taken >= 32 && came.taken <= *most,
            "case {index}"
        );
    }
}
