//! Capabilities that C hands over, as a frame has them.
ghost use Rattle.std.specs.Prelude.{◌≡◌, ◌++◌, ◌≤◌, Ok, length, IfOk, IfErr};
ghost use Rattle.csi_frames.specs.Public.Reading.{capability_at as at_front};
ghost use Rattle.csi_embedded.specs.Public.Asking.{SpellsCapability, SpellsCapabilities, HasNone};
ghost use Rattle.csi_embedded.specs.Private.Asking.{IsNoFront};

use crate::ending::CallEnding;
use csi_frames::{Fields, Version, capability_at};
use csi_types::{Capability, CapabilityList};
use std::alloc::Global;

// The capability at the front.
fn front(alloc: Global, fields: &mut Fields<'_>) -> Result<Capability, CallEnding>
    ensures read { IfOk result (λ one. at_front Version.Two fields.old.bytes.now ≡ Ok (one, fields.new.bytes.now)) }
    ensures none { IfErr result (IsNoFront fields.old.bytes.now) }
{
    match capability_at(fields, Version::Two) {
        Ok(lent) => match lent.to_capability(alloc) {
            Ok(one) => Ok(one),
            Err(_) => Err(CallEnding::NoMemory),
        },
        Err(_) => Err(CallEnding::BadName),
    }
}

/// The capability that these bytes spell.
pub(crate) fn capability_of(alloc: Global, bytes: &[u8]) -> Result<Capability, CallEnding>
    ensures spelled { IfOk result (SpellsCapability bytes.now) }
    ensures none { IfErr result (HasNone (SpellsCapability bytes.now)) }
{
    let mut fields = Fields { bytes };
    let one = match front(alloc, &mut fields) {
        Ok(one) => one,
        Err(ending) => return Err(ending),
    };
    if !fields.bytes.is_empty() {
        return Err(CallEnding::BadName);
    }
    Ok(one)
}

// The list of so many, at most eight.
fn listed(list: Vec<Capability>) -> CapabilityList
    requires { length list.items ≤ 8 }
    ensures { result ≡ list.items }
{
    CapabilityList::try_new(list).unwrap()
}

/// The capabilities that these bytes spell, one after another.
pub(crate) fn capabilities_of(alloc: Global, bytes: &[u8]) -> Result<CapabilityList, CallEnding>
    ensures spelled { IfOk result (SpellsCapabilities bytes.now) }
    ensures none { IfErr result (HasNone (SpellsCapabilities bytes.now)) }
{
    let mut fields = Fields { bytes };
    let mut list = Vec::new(alloc);
    for _ in 0..CapabilityList::MAX_LEN {
        if fields.bytes.is_empty() {
            return Ok(listed(list));
        }
        let one = match front(alloc, &mut fields) {
            Ok(one) => one,
            Err(ending) => return Err(ending),
        };
        let Ok(()) = list.push(one) else {
            return Err(CallEnding::NoMemory);
        };
    }
    if !fields.bytes.is_empty() {
        return Err(CallEnding::BadName);
    }
    Ok(listed(list))
}
