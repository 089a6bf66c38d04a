//! A file system's type.
ghost use Rattle.std.specs.Prelude.{◌≡◌, ◌<◌, [], length, nat_eq};
ghost use Rattle.std.specs.Cmp.Lexicographic.{pointwise, nat_list_eq_equiv};
ghost use Rattle.std.specs.Cmp.{partial_equiv_from_equiv};
ghost use Rattle.csi_types.specs.Public.Made.{IsCopyOf, Shows};
ghost use Rattle.csi_types.specs.Public.Text.{IsFsType};

use super::TextFault;
use std::alloc::Global;
use std::marker::Model;

/// The type of the file system that a mounted volume has: at most 128 bytes of UTF-8. An empty one
/// leaves the choice to the plugin (`MountVolume.fs_type` of CSI's spec.md, "CreateVolume").
#[derive(Clone, Debug)]
pub struct FsType {
    text: String,
}

impl Drop for FsType {
    fn drop(self) {
        let FsType { text: _ } = self;
    }
}

impl Model for FsType {
    ghost use Rattle.std.specs.Prelude.{ℕ, List};
    ghost use Rattle.std.specs.String.{string_bytes};
    ghost use Rattle.csi_types.specs.Public.Text.{IsFsType};

    ghost Value = { List ℕ };

    ghost view = { λ fs_type. string_bytes fs_type.text };

    ghost invariant = { λ fs_type. IsFsType (string_bytes fs_type.text) };
}

impl FsType {
    /// The most bytes that an fs type has.
    pub const MAX_LEN: usize = 128;

    /// An fs type with this text: `TooLong` where it has more than 128 bytes, `NoMemory` where a growth is
    /// refused. `Empty` is never answered, and an empty text takes no memory.
    pub fn try_new(alloc: Global, text: &str) -> Result<FsType, TextFault>
        ensures { IsCopyOf text.now (128 < length text.now) (IsFsType text.now) (text.now ≡ []) result }
    {
        if text.len() > FsType::MAX_LEN {
            return Err(TextFault::TooLong);
        }
        if text.is_empty() {
            return Ok(FsType {
                text: String::new(alloc),
            });
        }
        match String::from_str(alloc, text) {
            Ok(text) => Ok(FsType { text }),
            Err(_) => Err(TextFault::NoMemory),
        }
    }

    /// The fs type's text.
    pub fn as_str(&self) -> &str
        ensures { Shows IsFsType self.now result.now }
    {
        self.text.as_str()
    }
}

impl PartialEq for FsType {
    ghost eq = { pointwise nat_eq };

    ghost laws = { partial_equiv_from_equiv nat_list_eq_equiv };

    fn eq(&self, other: &FsType) -> bool {
        self.as_str() == other.as_str()
    }
}

impl Eq for FsType {
    ghost laws = { nat_list_eq_equiv };
}
