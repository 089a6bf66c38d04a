//! The capacity that a volume gets.
ghost use Rattle.std.specs.Prelude.{◌≡◌};
ghost use Rattle.csi_types.specs.Model.Capacity.{is_bad_range as is_bad, is_empty_range as is_empty, capacity_wanted};
ghost use Rattle.csi_types.specs.Public.Capacity.{grant_of};

use crate::status::Status;

/// The greatest capacity that a call may name, in bytes: 2^63 - 1.
pub const MAX_CAPACITY: u64 = 9223372036854775807;

/// The capacity of a volume for which no least capacity is asked, in bytes: 2^30.
pub const DEFAULT_CAPACITY: u64 = 1073741824;

/// Whether a range of capacities, in bytes, is none that a call may name: `required` and `limit` are both
/// 0, or one is above `MAX_CAPACITY` (`CapacityRange` of CSI's spec.md, "CreateVolume"). It takes no
/// memory.
pub fn is_bad_range(required: u64, limit: u64) -> bool
    ensures { result ≡ is_bad required limit }
{
    (required == 0 && limit == 0) || required > MAX_CAPACITY || limit > MAX_CAPACITY
}

/// Whether no capacity is in the range: `limit`, where 0 is none, is below `required`, both in bytes
/// (`CapacityRange` of CSI's spec.md, "CreateVolume"). It takes no memory.
pub fn is_empty_range(required: u64, limit: u64) -> bool
    ensures { result ≡ is_empty required limit }
{
    limit != 0 && limit < required
}

/// The capacity in bytes that is asked for with this range: `required`, or where it is 0 the smaller of
/// `DEFAULT_CAPACITY` and `limit`. Which one of the range is this profile's own. It takes no memory.
pub fn wanted_capacity(required: u64, limit: u64) -> u64
    ensures { result ≡ capacity_wanted required limit }
{
    if required == 0 {
        DEFAULT_CAPACITY.min(limit)
    } else {
        required
    }
}

/// The capacity in bytes that a volume gets for `required` and `limit` (`CapacityRange` of CSI's spec.md,
/// "CreateVolume") from a controller that gives at most `greatest`: `required`, or where it is 0 the
/// smaller of `DEFAULT_CAPACITY` and `limit`. It is refused with `InvalidArgument` where both are 0 or one
/// is above `MAX_CAPACITY`, and else with `OutOfRange` where `limit` isn't 0 and is below `required`, or
/// what the volume would get is above `greatest`. It takes no memory.
pub fn grant(required: u64, limit: u64, greatest: u64) -> Result<u64, Status>
    ensures { result ≡ grant_of required limit greatest }
{
    if is_bad_range(required, limit) {
        return Err(Status::InvalidArgument);
    }
    if is_empty_range(required, limit) {
        return Err(Status::OutOfRange);
    }
    let capacity = wanted_capacity(required, limit);
    if capacity > greatest {
        return Err(Status::OutOfRange);
    }
    Ok(capacity)
}
