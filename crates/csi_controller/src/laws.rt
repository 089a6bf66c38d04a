//! The laws of the controller.
ghost use Rattle.std.specs.List.{AllByRecursion};
ghost use Rattle.csi_controller.specs.Model.Core.{Shows};
ghost use Rattle.csi_controller.specs.Public.Exclusive.{IsRowExclusive};
ghost use Rattle.csi_controller.specs.Public.Laws.{ControllerTableLaw};
ghost use Rattle.csi_controller.specs.Public.Safe.{ControllerSafetyLaw, ControllerSessionsLaw};
ghost use Rattle.csi_controller.specs.Model.State.{ControllerState};
ghost use Rattle.csi_controller.specs.Public.View.{ControllerDeliveryLaw, ControllerNamesLaw};

use crate::controller::{Controller, sound_law};

/// A law, and nothing that runs: in every state that frames lead to, and for every call that the table
/// answers there, a refusal changes nothing, a success brings about what the call asks, the same call again
/// in its session is met, and other volumes stay as they are (CSI's spec.md, "CreateVolume" to "ControllerUnpublishVolume"). A call
/// of a later session than the greatest that came is judged where that session has begun: volumes that were deleted are forgotten.
pub fn table_law()
    ensures { ControllerTableLaw }
{}

/// A law, and nothing that runs: in every state that frames lead to, whichever they are and whatever the controller's configuration is
/// when each comes, two holdings of one volume are at different nodes, neither of them in a mode for one node, and no two write where one of their
/// modes has a single writer; and what is attached wasn't deleted (CSI's spec.md, "CreateVolume",
/// `AccessMode`, and "Volume Lifecycle").
pub fn safety_law()
    ensures { ControllerSafetyLaw }
{}

/// A law, and nothing that runs: in every state that frames lead to, whichever call comes next is either carried
/// out, and then its number wasn't spent, an `Ok` leaves its thing as asked and the number spent, a refusal leaves
/// the thing as it was, and other things are as they were; or it isn't, since its number was spent, and then
/// nothing changes, and an `Ok` is the reply that was kept for that number; or the controller doesn't have its
/// volume, which it may have forgotten, and then all things are as they were, and an `Ok` asks for nothing. What was
/// spent stays so, also where a volume is forgotten (CSI's spec.md, "Concurrency"; numbers and sessions are this profile's own).
pub fn delivery_law()
    ensures { ControllerDeliveryLaw }
{}

/// A law, and nothing that runs: in every state that frames lead to, each volume that was deleted and isn't forgotten had its
/// last call in the greatest session that came, and none had one in a later session; so there are no more rows than live volumes
/// and volumes whose last call is of that session, however many were made (this profile's own).
pub fn sessions_law()
    ensures { ControllerSessionsLaw }
{}

/// A law, and nothing that runs: in every state that frames lead to, a volume that is found by its name is found
/// by its id, and the other way round; and whatever frame comes, each volume that is there then was there under its
/// id and name, or was made under the next id, for a name that no live volume had, a live volume keeps both, and
/// an id that was given never has a live volume again once it has none (this profile's own).
pub fn names_law()
    ensures { ControllerNamesLaw }
{}

/// A law, and nothing that runs: in every controller, however it was made, two holdings of one volume are at
/// different nodes, in modes for several nodes, and don't both write where one of the modes has a single writer
/// (`AccessMode` of CSI's spec.md, "CreateVolume"); and a volume that was deleted is held nowhere.
pub fn exclusive_law(controller: &Controller)
    ensures { AllByRecursion IsRowExclusive controller.now.rows }
{
    sound_law(controller);
}

/// A law, and nothing that runs: every controller, whatever it was asked and whichever record it was made of, shows a state, so
/// that what the other contracts say of each state that a controller shows is said of every controller. This profile's own.
pub fn showing_law(controller: &Controller)
    ensures { (state : ControllerState) × Shows controller.now state }
{
    sound_law(controller);
    let _next = controller.next_id();
}
