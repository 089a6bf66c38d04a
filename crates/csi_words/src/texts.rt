//! The texts of help.
use crate::help::Help;

const PROGRAM: &str = "\
Plugins and an orchestrator for the volume lifecycle of CSI over stores, and
simulations of them.

Usage: csi-replay SUBCOMMAND WORD..
       csi-replay SUBCOMMAND --help
       csi-replay --version

Subcommands:
  answer FILE             answer frames as a new controller
  show FILE               print a line for each frame
  run FILE                simulate a schedule, and print a report
  frames FILE             simulate a schedule, and write the frames sent in it
  draw FILE               simulate a schedule, and draw its run
  controller DB CONFIG    serve as the controller
  node DB ID [SESSION]    serve as a node
  orchestrator DB CONFIG [SESSION]  serve as the orchestrator, asked by lines
  record DB               print what a store has
  recover NEW.db CONFIG SESSION CONTROLLER.db NODE.db..  make a lost
                          orchestrator's store
  recover-controller NEW.db CONFIG NEXT ORCHESTRATOR.db NODE.db..  make a lost
                          controller's store

FILE is read, and may be /dev/stdin. DB is a store, a SQLite file. CONFIG is a
file of JSON. A word that begins with - stands behind --.

Exit status: 0 done, 1 bad input, 2 bad command line, 3 system error. If it
isn't 0, a line on standard error says why.

Example: csi-replay frames run.json | csi-replay show /dev/stdin

More: man csi-replay, and FORMATS.md in share/doc/tufayon
";

const VERSION: &str = "\
csi-replay 1.0.0
frames: versions 1 and 2
records: version 3; versions 1 and 2 are read
";

const ANSWER: &str = "\
Usage: csi-replay answer FILE

Answers the frames in FILE as a new controller without nodes, and writes the
replies to standard output, as frames. The first bad frame ends it.

  FILE  calls, as frames

Example: csi-replay answer calls.frames | csi-replay show /dev/stdin

More: csi-replay --help
";

const SHOW: &str = "\
Usage: csi-replay show FILE

Prints a line for each frame in FILE: its first byte's position, its number
(SESSION.CALL), the plugin, and the call or reply. The first bad frame ends it.

  FILE  frames

Example: csi-replay frames run.json | csi-replay show /dev/stdin

More: csi-replay --help
";

const RUN: &str = "\
Usage: csi-replay run FILE

Simulates the schedule in FILE, and prints a report as one line of JSON: what
each event came to, and what is attached, staged and published at the end.

  FILE  a schedule, in JSON: {\"config\":CONFIGURATION,\"events\":[EVENT,..]}

Example: csi-replay run run.json

More: csi-replay --help
";

const FRAMES: &str = "\
Usage: csi-replay frames FILE

Simulates the schedule in FILE, and writes the frames sent in it to standard
output, in the order in which they were sent.

  FILE  a schedule, in JSON: {\"config\":CONFIGURATION,\"events\":[EVENT,..]}

Example: csi-replay frames run.json > run.frames

More: csi-replay --help
";

const DRAW: &str = "\
Usage: csi-replay draw FILE

Simulates the schedule in FILE, and writes a picture of its run (SVG) to
standard output: a row for each event, an arrow for each frame delivered.

  FILE  a schedule, in JSON: {\"config\":CONFIGURATION,\"events\":[EVENT,..]}

Example: csi-replay draw run.json > run.svg

More: csi-replay --help
";

const CONTROLLER: &str = "\
Usage: csi-replay controller DB CONFIG

Reads calls from standard input, as frames, and writes the controller's replies
to standard output, each after its changes are committed to DB. It ends where
the input ends.

  DB      its store, a SQLite file, made if it is missing; while it runs, and
          after any exit status but 0, the log DB-wal is part of the store
  CONFIG  a file of JSON, {\"greatest\":N,\"nodes\":[{\"id\":\"n1\",\"slots\":N},..]}:
          the greatest capacity of a volume, in bytes, and of each node its id
          and how many volumes may be attached to it

Example: csi-replay controller volumes.db config < calls > replies

More: csi-replay --help
";

const NODE: &str = "\
Usage: csi-replay node DB ID [SESSION]

Reads calls from standard input, as frames, and writes the node's replies to
standard output, each after its changes are committed to DB. It ends where the
input ends.

  DB       its store, a SQLite file, made if it is missing; while it runs, and
           after any exit status but 0, the log DB-wal is part of the store
  ID       the node's id, 1 to 255 bytes
  SESSION  the orchestrator's present session when the node joins (csi-replay
           record tells it), at least the session that began when the id was
           lost, and not above the present one; given unchanged at each start.
           Without it 0, right only for an id that was never in an
           orchestrator's list. A store of an earlier session is refused

Example: csi-replay node n1.db n1 2 < calls > replies

More: csi-replay --help
";

const ORCHESTRATOR: &str = "\
Usage: csi-replay orchestrator DB CONFIG [SESSION]

Reads commands, timeouts and replies from standard input, as lines of JSON, and
writes a line for each to standard output, with the call that is to be sent,
after its changes are committed to DB. It ends where the input ends.

  DB       its store, a SQLite file, made if it is missing; while it runs, and
           after any exit status but 0, the log DB-wal is part of the store
  CONFIG   a file of JSON, {\"greatest\":N,\"nodes\":[{\"id\":\"n1\",\"slots\":N},..]}, as
           the controller's: its nodes; none that is in use may be left out
  SESSION  the session that begins, where it is later than the store's next one:
           seconds since 1970, by a clock that isn't set back. Without it a copy
           of the store that is started uses the same numbers again

Example: csi-replay orchestrator orchestrator.db config $(date +%s) < lines

More: csi-replay --help
";

const RECORD: &str = "\
Usage: csi-replay record DB

Prints what a store has, as one line of JSON, also while a program uses it. No
file is changed.

  DB  the store of a controller, a node or an orchestrator

Example: csi-replay record volumes.db

More: csi-replay --help
";

const RECOVER: &str = "\
Usage: csi-replay recover NEW.db CONFIG SESSION CONTROLLER.db NODE.db..

Makes the store of a new orchestrator, where the old one's is lost, of what the
plugins' stores have, and prints what it made as one line of JSON. Everything is
stopped. Every call that was ever sent is stale then. The old orchestrator must
never come back, nor a node whose store isn't given.

  NEW.db         the store that is made, a SQLite file, missing or without parts
  CONFIG         a file of JSON, as the orchestrator's: its nodes; no node where
                 something is staged may be left out
  SESSION        the greatest session that is known of the lost orchestrator, or
                 0 if none is
  CONTROLLER.db  the controller's store
  NODE.db        a node's store, for each node that isn't lost

After exit status 3, or if it was cut off, run it again.

Example: csi-replay recover new.db config 7 volumes.db n1.db n2.db

More: csi-replay --help
";

const RECOVER_CONTROLLER: &str = "\
Usage: csi-replay recover-controller NEW.db CONFIG NEXT ORCHESTRATOR.db NODE.db..

Makes the store of a new controller, where the old one's is lost, of what the
orchestrator's store has, and prints what it made as one line of JSON. Everything
is stopped, and no other store is changed. Every call that was ever sent to the
controller is stale then. The old one must never come back.

  NEW.db           the store that is made, a SQLite file, missing or without
                   parts
  CONFIG           a file of JSON, the controller's
  NEXT             the next id: above each that the lost controller gave, as one
                   more than the greatest that the storage has
  ORCHESTRATOR.db  the orchestrator's store, and no older copy of it
  NODE.db          a node's store, which is only held against it; none has to be
                   given

What only the lost controller knew is left over at the storage.

Example: csi-replay recover-controller new.db config 9 o.db n1.db n2.db

More: csi-replay --help
";

impl Help {
    /// The text, with a newline at its end. This profile's own.
    pub fn text(self) -> &'static str {
        match self {
            Help::Program => PROGRAM,
            Help::Version => VERSION,
            Help::Answer => ANSWER,
            Help::Show => SHOW,
            Help::Run => RUN,
            Help::Frames => FRAMES,
            Help::Draw => DRAW,
            Help::Controller => CONTROLLER,
            Help::Node => NODE,
            Help::Orchestrator => ORCHESTRATOR,
            Help::Record => RECORD,
            Help::Recover => RECOVER,
            Help::RecoverController => RECOVER_CONTROLLER,
        }
    }
}
