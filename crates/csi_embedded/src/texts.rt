//! Texts that C hands over.
ghost use Rattle.std.specs.Prelude.{◌≡◌, IfOk, IfErr, OnOk};
ghost use Rattle.csi_types.specs.Public.Text.{IsName, IsNodeId, IsTarget};
ghost use Rattle.csi_embedded.specs.Public.Making.{IsNoId};
ghost use Rattle.csi_embedded.specs.Public.Asking.{IsNoText};

use crate::ending::CallEnding;
use csi_types::{Name, NodeId, Target, TextFault};
use std::alloc::Global;

/// The name of a volume that these bytes are.
pub(crate) fn name_of(alloc: Global, bytes: &[u8]) -> Result<Name, CallEnding>
    ensures made { IfOk result (λ name. name ≡ bytes.now) }
    ensures fits { OnOk result (IsName bytes.now) }
    ensures refused { IfErr result (IsNoText IsName bytes.now) }
{
    let Ok(text) = str::from_utf8(bytes) else {
        return Err(CallEnding::BadName);
    };
    match Name::try_new(alloc, text) {
        Ok(name) => {
            let _text = name.as_str();
            Ok(name)
        }
        Err(TextFault::NoMemory) => Err(CallEnding::NoMemory),
        Err(_) => Err(CallEnding::BadName),
    }
}

/// The id of a node that these bytes are.
pub(crate) fn id_of(alloc: Global, bytes: &[u8]) -> Result<NodeId, CallEnding>
    ensures made { IfOk result (λ id. id ≡ bytes.now) }
    ensures fits { OnOk result (IsNodeId bytes.now) }
    ensures refused { IfErr result (IsNoId bytes.now) }
{
    let Ok(text) = str::from_utf8(bytes) else {
        return Err(CallEnding::BadName);
    };
    match NodeId::try_new(alloc, text) {
        Ok(id) => {
            let _text = id.as_str();
            Ok(id)
        }
        Err(TextFault::NoMemory) => Err(CallEnding::NoMemory),
        Err(_) => Err(CallEnding::BadName),
    }
}

/// The target that these bytes are.
pub(crate) fn target_of(alloc: Global, bytes: &[u8]) -> Result<Target, CallEnding>
    ensures made { IfOk result (λ target. target ≡ bytes.now) }
    ensures fits { OnOk result (IsTarget bytes.now) }
    ensures refused { IfErr result (IsNoText IsTarget bytes.now) }
{
    let Ok(text) = str::from_utf8(bytes) else {
        return Err(CallEnding::BadName);
    };
    match Target::try_new(alloc, text) {
        Ok(target) => {
            let _text = target.as_str();
            Ok(target)
        }
        Err(TextFault::NoMemory) => Err(CallEnding::NoMemory),
        Err(_) => Err(CallEnding::BadName),
    }
}
