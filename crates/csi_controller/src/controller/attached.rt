//! Where volumes are held, as a list.
ghost use Rattle.std.specs.Prelude.{◌≡◌, ◌++◌, IfOk, OnOk};
ghost use Rattle.csi_controller.specs.Model.Shown.{holdings_in_row};
ghost use Rattle.csi_controller.specs.Public.Views.{attached_holdings};
ghost use Rattle.csi_controller.specs.Public.Core.{volume_holding};

use crate::row::{ControllerRow, NodeHolding};
use csi_fence::CoreFault;
use csi_types::{Holding, VolumeId};
use std::alloc::Global;

// The holding of the volume of this id.
fn holding_of(id: VolumeId, held: &NodeHolding) -> Result<Holding, CoreFault>
    ensures { IfOk result (λ holding. holding ≡ volume_holding id held.now) }
{
    let node = held.node.clone()?;
    let capability = held.capability.clone()?;
    Ok(Holding {
        volume: id,
        node,
        capability,
        readonly: held.readonly,
    })
}

/// Adds a row's holdings, in order.
pub fn add_holdings(row: &ControllerRow, all: &mut Vec<Holding>) -> Result<(), CoreFault>
    ensures { OnOk result (all.new.items ≡ all.old.items ++ holdings_in_row row.now) }
{
    for held in &row.holdings {
        all.push(holding_of(row.id, held)?)?;
    }
    Ok(())
}

/// The holdings of all rows, in order.
pub fn attachments(rows: &[ControllerRow], alloc: Global) -> Result<Vec<Holding>, CoreFault>
    ensures { IfOk result (λ all. all.items ≡ attached_holdings rows.now) }
{
    let mut all = Vec::new(alloc);
    for row in rows {
        add_holdings(row, &mut all)?;
    }
    Ok(all)
}
