//! The values of the volume lifecycle of the Container Storage Interface (CSI), as plugins and the
//! orchestrator pass them to one another, and the events of a run. Each type keeps its limits: no value
//! outside them can be made.
//! Beside them stand facts about lists that name no type of this product: what is among a list, what a search
//! finds, what a filter keeps, and how these go through changes. The definitions are in `specs/` (`Members`,
//! `Places`), the lemmas in `proofs/`.
#![tactic(auto)]

mod call;
mod capability;
mod capacity;
mod config;
mod event;
mod frame;
mod holding;
mod lent;
mod memory;
mod mode;
mod node_list;
mod node_use;
mod number;
mod reply;
mod rows;
mod sharing;
mod spelled;
mod status;
mod text;
mod volume_id;
mod worked;

pub use call::{Call, Kind, Party};
pub use capability::{Access, Capability, CapabilityList, has_capability, same_capability};
pub use capacity::{
    DEFAULT_CAPACITY, MAX_CAPACITY, grant, is_bad_range, is_empty_range, wanted_capacity,
};
pub use config::{Config, ConfigFault, NodeSlots};
pub use event::Event;
pub use frame::{Body, Frame};
pub use holding::{Holding, can_hold_both};
pub use lent::{AccessRef, CallRef, CapabilitiesRef, CapabilityRef};
pub use memory::NoMemory;
pub use mode::Mode;
pub use node_list::NodeList;
pub use node_use::{NodeUse, can_use_both, same_way};
pub use number::Number;
pub use reply::Reply;
pub use rows::MAX_ROWS;
pub use sharing::{allows_one_target, single_node, single_writer, two_writers, writes};
pub use spelled::SpelledCapabilities;
pub use status::Status;
pub use text::{Detail, FsType, LimitedText, Name, NodeId, Target, TextFault};
pub use volume_id::{VolumeId, VolumeIdRef};
