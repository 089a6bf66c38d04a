//! The row of a volume that is made.
ghost use Rattle.std.specs.Prelude.{◌≡◌, [], IfOk};
ghost use Rattle.csi_types.specs.Public.Lent.{lent_capabilities};
ghost use Rattle.csi_controller.specs.Model.Shown.{volume_of_row};
ghost use Rattle.csi_controller.specs.Public.Making.{made_volume};

use crate::row::ControllerRow;
use csi_fence::CoreFault;
use csi_types::{CapabilitiesRef, Detail, Kind, Name, Number, Reply, Status, VolumeId};
use std::alloc::Global;

/// Done, with this id. It takes no memory.
pub fn done(alloc: Global, id: Option<VolumeId>) -> Reply
    ensures { result ≡ record { status = Status.Ok; id = id; detail = [] } }
{
    let detail = Detail::try_new(alloc, "").unwrap();
    Reply {
        status: Status::Ok,
        id,
        detail,
    }
}

/// The row of a volume that is made.
#[inline(always)]
pub fn new_row(
    alloc: Global,
    number: Number,
    id: VolumeId,
    name: &str,
    capacity: u64,
    capabilities: CapabilitiesRef<'_>,
) -> Result<ControllerRow, CoreFault>
    ensures volume { IfOk result (λ row. volume_of_row row ≡ made_volume number id name.now capacity (lent_capabilities capabilities.entry)) }
    ensures items { IfOk result (λ row. row.holdings.items ≡ []) }
{
    let Ok(name) = Name::try_new(alloc, name) else {
        return Err(CoreFault::NoMemory);
    };
    let Ok(capabilities) = capabilities.to_list(alloc) else {
        return Err(CoreFault::NoMemory);
    };
    Ok(ControllerRow {
        id,
        live: true,
        name,
        capacity,
        capabilities,
        holdings: Vec::new(alloc),
        last: number,
        kind: Kind::CreateVolume,
        reply: done(alloc, Some(id)),
    })
}
