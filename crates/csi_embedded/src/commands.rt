//! Commands and timeouts, of what C hands over.
ghost use Rattle.std.specs.Prelude.{IfOk, IfErr};
ghost use Rattle.csi_embedded.specs.Public.Asking.{command_input, AsksCreate, AsksUse, AsksStop, AsksDelete, AsksTimeout, HasNone};

use crate::capabilities::{capabilities_of, capability_of};
use crate::command::Command;
use crate::ending::CallEnding;
use crate::texts::{id_of, name_of, target_of};
use std::alloc::Global;

/// To create the volume of a name, for these capabilities.
pub(crate) fn create_of(
    alloc: Global,
    name: &[u8],
    required: u64,
    limit: u64,
    capabilities: &[u8],
) -> Result<Command, CallEnding>
    ensures asked { IfOk result (λ command. AsksCreate name.now required limit capabilities.now (command_input command)) }
    ensures none { IfErr result (HasNone (AsksCreate name.now required limit capabilities.now)) }
{
    let name = match name_of(alloc, name) {
        Ok(name) => name,
        Err(ending) => return Err(ending),
    };
    match capabilities_of(alloc, capabilities) {
        Ok(capabilities) => Ok(Command::Create {
            name,
            required,
            limit,
            capabilities,
        }),
        Err(ending) => Err(ending),
    }
}

/// To use the volume of a name at a target of a node, in this capability.
pub(crate) fn use_of(
    alloc: Global,
    name: &[u8],
    node: &[u8],
    target: &[u8],
    capability: &[u8],
    readonly: bool,
) -> Result<Command, CallEnding>
    ensures asked { IfOk result (λ command. AsksUse name.now node.now target.now capability.now readonly (command_input command)) }
    ensures none { IfErr result (HasNone (AsksUse name.now node.now target.now capability.now readonly)) }
{
    let name = match name_of(alloc, name) {
        Ok(name) => name,
        Err(ending) => return Err(ending),
    };
    let node = match id_of(alloc, node) {
        Ok(node) => node,
        Err(ending) => return Err(ending),
    };
    let target = match target_of(alloc, target) {
        Ok(target) => target,
        Err(ending) => return Err(ending),
    };
    match capability_of(alloc, capability) {
        Ok(capability) => Ok(Command::Use {
            name,
            node,
            target,
            capability,
            readonly,
        }),
        Err(ending) => Err(ending),
    }
}

/// To stop using the volume of a name there.
pub(crate) fn stop_of(
    alloc: Global,
    name: &[u8],
    node: &[u8],
    target: &[u8],
) -> Result<Command, CallEnding>
    ensures asked { IfOk result (λ command. AsksStop name.now node.now target.now (command_input command)) }
    ensures none { IfErr result (HasNone (AsksStop name.now node.now target.now)) }
{
    let name = match name_of(alloc, name) {
        Ok(name) => name,
        Err(ending) => return Err(ending),
    };
    let node = match id_of(alloc, node) {
        Ok(node) => node,
        Err(ending) => return Err(ending),
    };
    match target_of(alloc, target) {
        Ok(target) => Ok(Command::Stop { name, node, target }),
        Err(ending) => Err(ending),
    }
}

/// To delete the volume of a name.
pub(crate) fn delete_of(alloc: Global, name: &[u8]) -> Result<Command, CallEnding>
    ensures asked { IfOk result (λ command. AsksDelete name.now (command_input command)) }
    ensures none { IfErr result (HasNone (AsksDelete name.now)) }
{
    match name_of(alloc, name) {
        Ok(name) => Ok(Command::Delete(name)),
        Err(ending) => Err(ending),
    }
}

/// That the open call of the volume of a name timed out.
pub(crate) fn timeout_of(alloc: Global, name: &[u8]) -> Result<Command, CallEnding>
    ensures asked { IfOk result (λ command. AsksTimeout name.now (command_input command)) }
    ensures none { IfErr result (HasNone (AsksTimeout name.now)) }
{
    match name_of(alloc, name) {
        Ok(name) => Ok(Command::Timeout(name)),
        Err(ending) => Err(ending),
    }
}
