//! The rules of one row of a record.
ghost use Rattle.std.specs.Prelude.{◌≡◌, nat_lt};
ghost use Rattle.std.specs.List.{list_all};
ghost use Rattle.csi_controller.specs.Public.Core.{next_shown};
ghost use Rattle.csi_controller.specs.Private.SoundRow.{has_fit_numbers as are_fit_numbers, has_own_reply as is_own_reply, are_beside as beside};
ghost use Rattle.csi_controller.specs.Private.SoundRow.{are_fit as is_each_fit, has_fit_holdings as are_fit_holdings, is_sound_row as is_sound};

use crate::controller::holdings::{MAX_HOLDINGS, use_of};
use crate::row::{ControllerRow, NodeHolding};
use csi_types::{Capability, Kind, MAX_CAPACITY, Party, Status, can_use_both, has_capability};

// Whether the number is below the next id, where 0 stands for one above all.
fn is_given(next_id: u64, number: u64) -> bool
    ensures { result ≡ nat_lt number (next_shown next_id) }
{
    next_id == 0 || number < next_id
}

// Whether id and capacity are within their limits.
fn has_fit_numbers(next_id: u64, row: &ControllerRow) -> bool
    ensures { result ≡ are_fit_numbers next_id row.now }
{
    is_given(next_id, row.id.number()) && row.capacity >= 1 && row.capacity <= MAX_CAPACITY
}

// Whether the kept reply is one that a controller gives: it has an id exactly where a volume was made.
fn has_own_reply(row: &ControllerRow) -> bool
    ensures { result ≡ is_own_reply row.now }
{
    let must = row.kind == Kind::CreateVolume && row.reply.status == Status::Ok;
    row.kind.is_for(&Party::Controller) && row.reply.id.is_some() == must
}

// Whether the two are at different nodes, and can be held together.
fn are_beside(held: &NodeHolding, later: &NodeHolding) -> bool
    ensures { result ≡ beside held.now later.now }
{
    later.node != held.node && can_use_both(use_of(later), use_of(held))
}

// Whether it is so beside each of these.
fn is_beside_each(held: &NodeHolding, later: &[NodeHolding]) -> bool
    ensures { result ≡ list_all (beside held.now) later.now }
{
    for other in later {
        if !are_beside(held, other) {
            return false;
        }
    }
    true
}

// Whether each is in one of these capabilities, and beside each later one.
fn are_fit(capabilities: &[Capability], holdings: &[NodeHolding]) -> bool
    ensures { result ≡ is_each_fit capabilities.now holdings.now }
{
    for (place, held) in holdings.iter().enumerate() {
        if !has_capability(capabilities, held.capability.lend()) {
            return false;
        }
        if !is_beside_each(held, &holdings[place + 1..]) {
            return false;
        }
    }
    true
}

// Whether the row may be held at these nodes, in these ways.
fn has_fit_holdings(row: &ControllerRow) -> bool
    ensures { result ≡ are_fit_holdings row.now }
{
    row.holdings.len() <= MAX_HOLDINGS
        && (row.live || row.holdings.is_empty())
        && are_fit(row.capabilities.as_slice(), row.holdings.as_slice())
}

/// Whether a record with this next id may have this row, whichever rows are before it.
pub(crate) fn is_sound_row(next_id: u64, row: &ControllerRow) -> bool
    ensures { result ≡ is_sound next_id row.now }
{
    has_fit_numbers(next_id, row)
        && has_own_reply(row)
        && !row.capabilities.as_slice().is_empty()
        && has_fit_holdings(row)
}
