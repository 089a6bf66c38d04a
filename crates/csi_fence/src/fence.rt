//! The fence in front of the plugins' tables.
ghost use Rattle.std.specs.Prelude.{◌≡◌};
ghost use Rattle.csi_fence.specs.Model.Fence.{verdict_of};
ghost use Rattle.csi_fence.specs.Private.Fence.{SpentIsClosed};

use csi_types::Number;

/// What becomes of a call that a plugin gets (this profile's own).
#[derive(Clone, Copy, Debug, PartialEq, Eq)]
pub enum Verdict {
    /// A later call was answered for the volume. This one is refused, and does nothing.
    Stale,
    /// This call was answered, and no later one. It gets the kept reply, and does nothing.
    Repeated,
    /// The call is carried out by the plugin's table.
    Fresh,
}

/// What becomes of a call of this number, where `last` is the greatest number that was answered for its
/// volume, if there is one. It takes no memory.
pub fn verdict_of(last: Option<Number>, number: Number) -> Verdict
    ensures { result ≡ verdict_of last number }
{
    match last {
        None => Verdict::Fresh,
        Some(last) => {
            if last < number {
                Verdict::Fresh
            } else if number == last {
                Verdict::Repeated
            } else {
                Verdict::Stale
            }
        }
    }
}

fn spent_is_closed()
    ensures { SpentIsClosed }
{}
