//! The controller's table, for CreateVolume: what is wrong with its arguments, and what the row of its name answers.
ghost use Rattle.std.specs.Prelude.{◌≡◌, List, ℕ, IsTrue, IfSome, [], Some, option_map};
ghost use Rattle.csi_types.specs.declared.call.Kind.TheVariants.{CreateVolume};
ghost use Rattle.csi_types.specs.Public.Lent.{lent_capabilities};
ghost use Rattle.csi_types.specs.Public.Reply.{has_id_by_rule};
ghost use Rattle.csi_types.specs.Model.Config.{Config};
ghost use Rattle.csi_controller.specs.Model.State.{ControllerState};
ghost use Rattle.csi_controller.specs.Model.Table.{Stays, argument_fault as fault_told, create_named, serves as is_served, unless};
ghost use Rattle.csi_controller.specs.Model.Shown.{volume_of_row};
ghost use Rattle.csi_controller.specs.Private.OneRow.{outcome_shown};
ghost use Rattle.csi_controller.specs.Public.Plan.{told_in};
ghost use Rattle.csi_fence.specs.Public.Line.{told_by};

use crate::row::ControllerRow;
use csi_fence::Line;
use csi_types::{CapabilitiesRef, Status, is_bad_range, is_empty_range};

// Whether the volume has a capacity in the range, where a limit of 0 is none, and each capability.
fn serves(row: &ControllerRow, required: u64, limit: u64, wished: CapabilitiesRef<'_>) -> bool
    ensures { result ≡ is_served (volume_of_row row.now) required limit (lent_capabilities wished.entry) }
{
    required <= row.capacity
        && (limit == 0 || row.capacity <= limit)
        && wished.are_among(row.capabilities.as_slice())
}

/// What is wrong with the arguments of a CreateVolume, as the table answers it, if anything is.
pub fn argument_fault(
    required: u64,
    limit: u64,
    wished: CapabilitiesRef<'_>,
) -> Option<Line<'static>>
    ensures ok { option_map (outcome_shown Stays) result ≡ fault_told required limit (lent_capabilities wished.entry) }
    ensures told { IfSome result (λ line. told_by line ≡ told_in (outcome_shown Stays line)) }
    ensures id { IfSome result (λ line. IsTrue (has_id_by_rule CreateVolume (told_by line).reply)) }
    ensures plain { IfSome result (λ line. (told_by line).reply.status ≡ Status.Ok → (told_by line).reply.detail ≡ []) }
{
    if wished.is_empty() {
        return Some(Line::Refused(Status::InvalidArgument, "capabilities"));
    }
    if is_bad_range(required, limit) {
        return Some(Line::Refused(Status::InvalidArgument, "capacity"));
    }
    if is_empty_range(required, limit) {
        return Some(Line::Refused(Status::OutOfRange, "range"));
    }
    None
}

/// CreateVolume of a name that has this row.
pub fn create_line(
    row: &ControllerRow,
    required: u64,
    limit: u64,
    wished: CapabilitiesRef<'_>,
) -> Line<'static>
    ensures line { (config : Config) (state : ControllerState) (name : List ℕ) →
        unless (fault_told required limit (lent_capabilities wished.entry))
        (create_named config state name required limit (lent_capabilities wished.entry) (Some (volume_of_row row.now))) ≡ outcome_shown Stays result }
    ensures told { told_by result ≡ told_in (outcome_shown Stays result) }
    ensures id { IsTrue (has_id_by_rule CreateVolume (told_by result).reply) }
    ensures plain { (told_by result).reply.status ≡ Status.Ok → (told_by result).reply.detail ≡ [] }
{
    if let Some(line) = argument_fault(required, limit, wished) {
        return line;
    }
    if row.live && serves(row, required, limit, wished) {
        return Line::Met(Some(row.id));
    }
    Line::Refused(Status::AlreadyExists, "name")
}
