//! What a reply says beside its status.
ghost use Rattle.std.specs.Prelude.{◌≡◌, ◌<◌, ◌≤◌, length, nat_eq};
ghost use Rattle.std.specs.Cmp.Lexicographic.{pointwise, nat_list_eq_equiv};
ghost use Rattle.std.specs.Cmp.{partial_equiv_from_equiv};
ghost use Rattle.csi_types.specs.Public.Detail.{text_bytes};
ghost use Rattle.csi_types.specs.Public.Made.{IsCopyOf, Shows};
ghost use Rattle.csi_types.specs.Public.Text.{IsDetail};

use super::TextFault;
use arrayvec::ArrayString;
use std::alloc::Global;
use std::marker::Model;

// The most bytes of a text that lies in its own value. The constant texts that a plugin answers have 19 at the most; the
// name of a node or a target may have more.
const INLINE_LEN: usize = 23;

// A text, which takes memory only where it is long.
#[derive(Clone, Debug, Drop)]
enum Text {
    Inline(ArrayString<INLINE_LEN>),
    Heap(String),
}

/// What a reply says beside its status: at most 255 bytes of UTF-8, empty where the status says all
/// (this profile's own; CSI leaves a human-readable message to the RPC library).
#[derive(Clone, Debug)]
pub struct Detail {
    text: Text,
}

impl Drop for Detail {
    fn drop(self) {
        let Detail { text: _ } = self;
    }
}

impl Model for Detail {
    ghost use Rattle.std.specs.Prelude.{ℕ, List};
    ghost use Rattle.csi_types.specs.Public.Detail.{text_bytes};
    ghost use Rattle.csi_types.specs.Public.Text.{IsDetail};

    ghost Value = { List ℕ };

    ghost view = { λ detail. text_bytes detail.text };

    ghost invariant = { λ detail. IsDetail (text_bytes detail.text) };
}

impl Detail {
    /// The most bytes that a detail has.
    pub const MAX_LEN: usize = 255;

    /// A detail with this text: `TooLong` where it has more than 255 bytes, `NoMemory` where a growth is
    /// refused. `Empty` is never answered, and a text of at most 23 bytes takes no memory.
    pub fn try_new(alloc: Global, text: &str) -> Result<Detail, TextFault>
        ensures { IsCopyOf text.now (255 < length text.now) (IsDetail text.now) (length text.now ≤ 23) result }
    {
        if let Ok(text) = ArrayString::from(text) {
            return Ok(Detail {
                text: Text::Inline(text),
            });
        }
        if text.len() > Detail::MAX_LEN {
            return Err(TextFault::TooLong);
        }
        match String::from_str(alloc, text) {
            Ok(text) => Ok(Detail {
                text: Text::Heap(text),
            }),
            Err(_) => Err(TextFault::NoMemory),
        }
    }

    /// The detail's text.
    pub fn as_str(&self) -> &str
        ensures { Shows IsDetail self.now result.now }
    {
        match &self.text {
            Text::Inline(text) => text.as_str(),
            Text::Heap(text) => text.as_str(),
        }
    }
}

impl PartialEq for Detail {
    ghost eq = { pointwise nat_eq };

    ghost laws = { partial_equiv_from_equiv nat_list_eq_equiv };

    fn eq(&self, other: &Detail) -> bool {
        self.as_str() == other.as_str()
    }
}

impl Eq for Detail {
    ghost laws = { nat_list_eq_equiv };
}
