//! Texts that can't be empty: a volume's name, a node's id, and a path at which a volume is published.
ghost use Rattle.std.specs.Prelude.{nat_eq};
ghost use Rattle.std.specs.Cmp.Lexicographic.{pointwise, nat_list_eq_equiv};
ghost use Rattle.std.specs.Cmp.{partial_equiv_from_equiv};
ghost use Rattle.std.specs.Cmp.Rules.{hashing};
ghost use Rattle.std.specs.Hash as fed;
ghost use Rattle.std.proofs.Common.{rules};
ghost use Rattle.csi_types.specs.Public.Made.{IsTextOf, Shows};
ghost use Rattle.csi_types.specs.Public.Text.{IsText};

use super::TextFault;
use std::alloc::Global;
use std::hash::{Hash, Hasher};
use std::marker::{Model, PhantomData};

/// A text of 1 to `MOST` bytes of UTF-8. `Of` says of what it is the text, so that no text of one thing passes for
/// that of another. `Name`, `NodeId` and `Target` are such texts.
#[derive(Clone, Debug)]
pub struct LimitedText<Of, const MOST: usize> {
    text: String,
    of: PhantomData<Of>,
}

/// The mark of the texts that are names of volumes.
#[derive(Clone, Copy, Debug)]
pub struct OfVolume;

/// The mark of the texts that are ids of nodes.
#[derive(Clone, Copy, Debug)]
pub struct OfNode;

/// The mark of the texts that are targets.
#[derive(Clone, Copy, Debug)]
pub struct OfTarget;

/// The name that the orchestrator gives a volume: 1 to 128 bytes of UTF-8 (CSI's spec.md,
/// "CreateVolume"; every UTF-8 text within the limits is accepted).
pub type Name = LimitedText<OfVolume, 128>;

impl Name {
    /// The most bytes that a name has.
    pub const MAX_LEN: usize = 128;
}

/// The id of a node, from which the controller and the orchestrator tell nodes apart: 1 to 255 bytes of
/// UTF-8 (`node_id` of CSI's spec.md, "ControllerPublishVolume"; the limit is this profile's own).
pub type NodeId = LimitedText<OfNode, 255>;

impl NodeId {
    /// The most bytes that a node id has.
    pub const MAX_LEN: usize = 255;
}

/// The path on a node at which a volume is published: 1 to 255 bytes of UTF-8 (`target_path` of CSI's
/// spec.md, "NodePublishVolume"; the limit is this profile's own). That it is absolute is for the node to ask.
pub type Target = LimitedText<OfTarget, 255>;

impl Target {
    /// The most bytes that a target has.
    pub const MAX_LEN: usize = 255;
}

impl<Of, const MOST: usize> Drop for LimitedText<Of, MOST> {
    fn drop(self) {
        let LimitedText { text: _, of: _ } = self;
    }
}

impl<Of, const MOST: usize> Model for LimitedText<Of, MOST> {
    ghost use Rattle.std.specs.Prelude.{ℕ, List};
    ghost use Rattle.std.specs.String.{string_bytes};
    ghost use Rattle.csi_types.specs.Public.Text.{IsText};

    ghost Value = { List ℕ };

    ghost view = { λ limited. string_bytes limited.text };

    ghost invariant = { λ limited. IsText 1 MOST (string_bytes limited.text) };
}

impl<Of, const MOST: usize> LimitedText<Of, MOST> {
    /// A copy of this text: `Empty` where it has no bytes, `TooLong` where it has more than `MOST`, and
    /// `NoMemory` where a growth is refused.
    pub fn try_new(alloc: Global, text: &str) -> Result<Self, TextFault>
        ensures { IsTextOf MOST text.now result }
    {
        if text.is_empty() {
            return Err(TextFault::Empty);
        }
        if text.len() > MOST {
            return Err(TextFault::TooLong);
        }
        match String::from_str(alloc, text) {
            Ok(text) => Ok(LimitedText {
                text,
                of: PhantomData,
            }),
            Err(_) => Err(TextFault::NoMemory),
        }
    }

    /// The text itself.
    pub fn as_str(&self) -> &str
        ensures { Shows (IsText 1 MOST) self.now result.now }
    {
        self.text.as_str()
    }
}

impl<Of, const MOST: usize> PartialEq for LimitedText<Of, MOST> {
    ghost eq = { pointwise nat_eq };

    ghost laws = { partial_equiv_from_equiv nat_list_eq_equiv };

    fn eq(&self, other: &Self) -> bool {
        self.as_str() == other.as_str()
    }
}

impl<Of, const MOST: usize> Eq for LimitedText<Of, MOST> {
    ghost laws = { nat_list_eq_equiv };
}

impl<Of, const MOST: usize> Hash for LimitedText<Of, MOST> {
    ghost hash_input = { fed.str };

    ghost respects_eq = { Prim.search (hashing, rules) };

    fn hash<H: Hasher>(&self, state: &mut H) {
        self.as_str().hash(state);
    }
}
