//! How a run of the program ends.
ghost use Rattle.std.specs.Prelude.{◌≡◌};
ghost use Rattle.csi_streams.specs.Public.Ending.{exit_status, ending_unless_memory};

use csi_frames::FaultKind;
use csi_json::ScheduleFault;
use csi_types::NoMemory;
use std::alloc::AllocError;
use std::fmt;
use std::io::ErrorKind;
use std::process::ExitCode;

/// How a run of the program ends. Its text is the program's line on standard error, without the newline, and none for
/// `Done`. This profile's own.
#[derive(Clone, Copy, Debug, PartialEq, Eq)]
pub enum Ending {
    /// All was done.
    Done,
    /// The input has a fault of this kind in this place, counted in bytes from its front.
    FrameFault(FaultKind, u64),
    /// The input is UTF-8 and no schedule: its fault, which is never `NoMemory`.
    ScheduleFault(ScheduleFault),
    /// The input is to be a text, and is no UTF-8.
    NotUtf8,
    /// The file of the configuration has none, or the id is no node's.
    ConfigRefused,
    /// The store has no record of this plugin: the position, from 0, of the first part that is refused.
    RecordFault(u64),
    /// One of several stores has no such record: the position, from 0, of its first part that is refused, and the store's place among the
    /// words, from 1.
    StoreFault(u64, u64),
    /// The store at this place among the words, from 1, disagrees with those before it.
    StoresDisagree(u64),
    /// The store that is to be made has parts.
    StoreNotNew,
    /// The next id that is asked for isn't above each that is known.
    IdTaken,
    /// The node's store is of an earlier session than that of its joining: it is a lost node's.
    EarlierSession,
    /// The line of this number, from 1, is too long.
    LineFault(u64),
    /// No session is left for an orchestrator that begins another.
    NumbersSpent,
    /// The configuration leaves out a node that is in use: a volume may be attached there, by an orchestrator's record, or is staged there, by
    /// the node's.
    NodeInUse,
    /// A reply tells that an orchestrator's store is an older one.
    OlderStore,
    /// The words on the command line are no command.
    Usage,
    /// A file, a stream or the store failed, or the store is full.
    Device,
    /// The store can't be opened.
    StoreNotOpened,
    /// The input has 2^63 bytes or more.
    Endless,
    /// An allocation was refused.
    Memory,
}

impl Ending {
    /// The exit status: 0, 1 for input that is refused, 2 for the command line, 3 for a device or memory. It takes no
    /// memory.
    pub fn status(self) -> u8
        ensures { result ≡ exit_status self }
    {
        match self {
            Ending::Done => 0,
            Ending::FrameFault(..) | Ending::ScheduleFault(_) | Ending::NotUtf8 => 1,
            Ending::ConfigRefused | Ending::RecordFault(_) | Ending::StoreFault(..) => 1,
            Ending::StoresDisagree(_) | Ending::StoreNotNew | Ending::EarlierSession => 1,
            Ending::LineFault(_) | Ending::NumbersSpent | Ending::IdTaken => 1,
            Ending::NodeInUse | Ending::OlderStore => 1,
            Ending::Usage => 2,
            Ending::Device | Ending::StoreNotOpened | Ending::Endless | Ending::Memory => 3,
        }
    }
}

impl Ending {
    /// The ending where a file or a stream fails so.
    pub fn of_device(kind: ErrorKind) -> Ending
        ensures { result ≡ ending_unless_memory kind Ending.Device }
    {
        match kind {
            ErrorKind::OutOfMemory => Ending::Memory,
            _ => Ending::Device,
        }
    }

    /// The ending where the words of the command line can't be read: they are no UTF-8, unless memory ran out.
    pub fn of_words(kind: ErrorKind) -> Ending
        ensures { result ≡ ending_unless_memory kind Ending.Usage }
    {
        match kind {
            ErrorKind::OutOfMemory => Ending::Memory,
            _ => Ending::Usage,
        }
    }
}

impl From<AllocError> for Ending {
    ghost use Rattle.std.specs.Prelude.{◌≡◌};
    ghost use Rattle.csi_streams.specs.declared.ending.Ending.TheVariants.{Memory as Refused};

    ghost from_gives = { λ _ ending. ending ≡ Refused };

    fn from(_refused: AllocError) -> Ending {
        Ending::Memory
    }
}

impl From<NoMemory> for Ending {
    ghost use Rattle.std.specs.Prelude.{◌≡◌};
    ghost use Rattle.csi_streams.specs.declared.ending.Ending.TheVariants.{Memory as Refused};

    ghost from_gives = { λ _ ending. ending ≡ Refused };

    fn from(_refused: NoMemory) -> Ending {
        Ending::Memory
    }
}

// What a process that ends so ends with: its exit status.
impl From<Ending> for ExitCode {
    ghost use Rattle.std.specs.Prelude.{◌≡◌};
    ghost use Rattle.std.specs.Process.{exit_status as process_status};
    ghost use Rattle.csi_streams.specs.Public.Ending.{exit_status};

    ghost from_gives = { λ ending code. process_status code ≡ exit_status ending };

    fn from(ending: Ending) -> ExitCode {
        ExitCode::from(ending.status())
    }
}

impl fmt::Display for Ending {
    fn fmt<W: fmt::Write>(&self, f: &mut fmt::Formatter<W>) -> fmt::Result {
        match self {
            Ending::Done => Ok(()),
            Ending::FrameFault(kind, place) => {
                let number = kind.number();
                write!(f, "csi-replay: frame fault {number} at {place}")
            }
            Ending::ScheduleFault(fault) => {
                let number = fault.number();
                let place = fault.place();
                write!(f, "csi-replay: schedule fault {number} at {place}")
            }
            Ending::NotUtf8 => write!(f, "csi-replay: not UTF-8"),
            Ending::ConfigRefused => write!(f, "csi-replay: config refused"),
            Ending::RecordFault(place) => write!(f, "csi-replay: record fault at {place}"),
            Ending::StoreFault(place, store) => {
                write!(f, "csi-replay: record fault at {place}, store {store}")
            }
            Ending::StoresDisagree(store) => write!(
                f,
                "csi-replay: stores disagree, store {store}"
            ),
            Ending::StoreNotNew => write!(f, "csi-replay: store not new"),
            Ending::IdTaken => write!(f, "csi-replay: id taken"),
            Ending::EarlierSession => write!(f, "csi-replay: store of an earlier session"),
            Ending::LineFault(number) => write!(f, "csi-replay: line fault at {number}"),
            Ending::NumbersSpent => write!(f, "csi-replay: numbers spent"),
            Ending::NodeInUse => write!(f, "csi-replay: node in use"),
            Ending::OlderStore => write!(f, "csi-replay: older store"),
            Ending::Usage => write!(f, "csi-replay: usage"),
            Ending::Device => write!(f, "csi-replay: device"),
            Ending::StoreNotOpened => write!(f, "csi-replay: store not opened"),
            Ending::Endless => write!(f, "csi-replay: endless"),
            Ending::Memory => write!(f, "csi-replay: memory"),
        }
    }
}
