//! The one call of many that fails.
ghost use Rattle.std.specs.Prelude.{◌≡◌};
ghost use Rattle.csi_stores.specs.Public.FailingCalls.{is_due, passing_after_call};

/// Whether the next call is the one that fails, where so many pass before it, if one fails at all; and counts that call.
pub(crate) fn falls(passing: &mut Option<u64>) -> bool
    ensures due { result ≡ is_due passing.old }
    ensures after { passing.new ≡ passing_after_call passing.old }
{
    match *passing {
        None => false,
        Some(0) => {
            *passing = None;
            true
        }
        Some(count) => {
            *passing = Some(count - 1);
            false
        }
    }
}
