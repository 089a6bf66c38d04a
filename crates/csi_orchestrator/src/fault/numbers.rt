//! The numbers and the names of refusals.
use crate::fault::OrchFault;

impl OrchFault {
    ghost use Rattle.std.specs.Prelude.{◌≡◌};
    ghost use Rattle.csi_orchestrator.specs.Public.Refusals.{refusal_number, fault_name};

    /// The refusal's number, from 1, in the order in which `OrchFault` names them. It takes no memory.
    pub fn number(self) -> u8
        ensures { result ≡ refusal_number self }
    {
        match self {
            OrchFault::NameUsed => 1,
            OrchFault::NoSuchVolume => 2,
            OrchFault::NotCreated => 3,
            OrchFault::Busy => 4,
            OrchFault::NoSuchNode => 5,
            OrchFault::NotCapable => 6,
            OrchFault::HeldElsewhere => 7,
            OrchFault::WriterElsewhere => 8,
            OrchFault::HeldOtherwise => 9,
            OrchFault::TargetTaken => 10,
            OrchFault::NoSuchTarget => 11,
            OrchFault::InUse => 12,
            OrchFault::Idle => 13,
            OrchFault::NumbersSpent => 14,
            OrchFault::Full => 15,
            OrchFault::NoMemory => 16,
            OrchFault::NodeInUse => 17,
        }
    }

    /// The refusal's name, as `OrchFault` has it. It takes no memory.
    pub fn name(self) -> &'static str
        ensures { result.now ≡ fault_name self }
    {
        match self {
            OrchFault::NameUsed => "NameUsed",
            OrchFault::NoSuchVolume => "NoSuchVolume",
            OrchFault::NotCreated => "NotCreated",
            OrchFault::Busy => "Busy",
            OrchFault::NoSuchNode => "NoSuchNode",
            OrchFault::NotCapable => "NotCapable",
            OrchFault::HeldElsewhere => "HeldElsewhere",
            OrchFault::WriterElsewhere => "WriterElsewhere",
            OrchFault::HeldOtherwise => "HeldOtherwise",
            OrchFault::TargetTaken => "TargetTaken",
            OrchFault::NoSuchTarget => "NoSuchTarget",
            OrchFault::InUse => "InUse",
            OrchFault::Idle => "Idle",
            OrchFault::NumbersSpent => "NumbersSpent",
            OrchFault::Full => "Full",
            OrchFault::NoMemory => "NoMemory",
            OrchFault::NodeInUse => "NodeInUse",
        }
    }
}
