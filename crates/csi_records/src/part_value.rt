//! The value of a part.
ghost use Rattle.std.specs.Prelude.{◌≡◌};
ghost use Rattle.csi_stores.specs.Public.Part.{value_in};

use csi_stores::Part;

/// The bytes of a part's value, none where it has no value.
pub(crate) fn value_of(part: &Part) -> &[u8]
    ensures { result.now ≡ value_in part.now.value }
{
    match &part.value {
        Some(value) => value.as_slice(),
        None => &[],
    }
}
