//! Capabilities, in JSON: how a volume is accessed, and in which mode.
ghost use Rattle.std.specs.Prelude.{◌≡◌, option_and_then, codes};
ghost use Rattle.serde_json.specs.Find.{get};
ghost use Rattle.serde_json.specs.View.{view};
ghost use Rattle.csi_json.specs.Private.Json.{Reads};
ghost use Rattle.csi_json.specs.Public.Capabilities.{mode_of, block_of, mount_of, access_of, capability_of, capabilities_of};

use crate::lists::read_capabilities;
use crate::texts::fs_type;
use crate::values::{Flaw, list, member, number_at, sized_object, text};
use csi_types::{Access, Capability, CapabilityList, Mode};
use serde_json::Value;
use std::alloc::Global;

// The access mode of an object, by its number.
#[tactic(auto, using(crate::proofs::Items::no_mode), unfolding(crate::specs::Public::Capabilities::mode_of))]
fn mode(object: &Value) -> Result<Mode, Flaw>
    ensures { Reads (λ mode. mode) result (option_and_then mode_of (get (codes "mode") (view object.now))) }
{
    let number = number_at(object, "mode")?;
    if number > u8::MAX as u64 {
        return Err(Flaw::Bad);
    }
    Mode::from_number(number as u8).ok_or(Flaw::Bad)
}

#[tactic(auto, unfolding(crate::specs::Public::Capabilities::block_of))]
fn block(value: &Value) -> Result<Access, Flaw>
    ensures { Reads (λ access. access) result (block_of (view value.now)) }
{
    sized_object(value, 2)?;
    Ok(Access::Block)
}

#[tactic(auto, unfolding(crate::specs::Public::Capabilities::mount_of))]
fn mount(alloc: Global, value: &Value) -> Result<Access, Flaw>
    ensures { Reads (λ access. access) result (mount_of (view value.now)) }
{
    let object = sized_object(value, 3)?;
    let fs_type = fs_type(alloc, member(object, "fs")?)?;
    Ok(Access::Mount(fs_type))
}

#[tactic(auto, unfolding(crate::specs::Public::Capabilities::access_of))]
fn access(alloc: Global, value: &Value) -> Result<Access, Flaw>
    ensures { Reads (λ access. access) result (access_of (view value.now)) }
{
    match text(member(value, "access")?)? {
        "block" => block(value),
        "mount" => mount(alloc, value),
        _ => Err(Flaw::Bad),
    }
}

/// A capability.
#[tactic(auto, unfolding(crate::specs::Public::Capabilities::capability_of))]
pub fn capability(alloc: Global, value: &Value) -> Result<Capability, Flaw>
    ensures { Reads (λ capability. capability) result (capability_of (view value.now)) }
{
    let access = access(alloc, value)?;
    let mode = mode(value)?;
    Ok(Capability { access, mode })
}

/// At most eight capabilities, at a key of an object.
#[tactic(auto, unfolding(crate::specs::Public::Capabilities::capabilities_of, crate::specs::Public::Json::all_of))]
pub fn capabilities_at(alloc: Global, object: &Value, key: &str) -> Result<CapabilityList, Flaw>
    ensures { Reads (λ list. list) result (option_and_then capabilities_of (get key.now (view object.now))) }
{
    let items = list(member(object, key)?)?;
    let capabilities = read_capabilities(alloc, items)?;
    CapabilityList::try_new(capabilities).ok_or(Flaw::Bad)
}
