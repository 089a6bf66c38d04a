//! What the access modes allow. Which mode allows what is told here and nowhere else.
ghost use Rattle.std.specs.Prelude.{◌≡◌, not, ◌&&◌};
ghost use Rattle.csi_types.specs.Model.Sharing.{is_single_node, is_multi_node, is_single_writer};
ghost use Rattle.csi_types.specs.Model.Sharing.{writes as writes_in, are_two_writers, allows_one_target as allows_one};

use crate::mode::Mode;

/// Whether a volume in this mode is at one node at a time (`AccessMode` of CSI's spec.md,
/// "CreateVolume"). It takes no memory.
pub fn single_node(mode: Mode) -> bool
    ensures { result ≡ is_single_node mode }
{
    match mode {
        Mode::SingleNodeWriter
        | Mode::SingleNodeReaderOnly
        | Mode::SingleNodeSingleWriter
        | Mode::SingleNodeMultiWriter => true,
        Mode::MultiNodeReaderOnly | Mode::MultiNodeSingleWriter | Mode::MultiNodeMultiWriter => {
            false
        }
    }
}

/// Whether a volume in this mode may be at several nodes, of which one may write (`AccessMode` of CSI's
/// spec.md, "CreateVolume"). It takes no memory.
pub fn single_writer(mode: Mode) -> bool
    ensures { result ≡ is_single_writer mode }
{
    match mode {
        Mode::MultiNodeSingleWriter => true,
        Mode::SingleNodeWriter
        | Mode::SingleNodeReaderOnly
        | Mode::MultiNodeReaderOnly
        | Mode::MultiNodeMultiWriter
        | Mode::SingleNodeSingleWriter
        | Mode::SingleNodeMultiWriter => false,
    }
}

/// Whether a holder in this mode, published readonly or not, may write. It takes no memory.
pub fn writes(mode: Mode, readonly: bool) -> bool
    ensures { result ≡ writes_in mode readonly }
{
    match mode {
        Mode::SingleNodeWriter
        | Mode::MultiNodeSingleWriter
        | Mode::MultiNodeMultiWriter
        | Mode::SingleNodeSingleWriter
        | Mode::SingleNodeMultiWriter => !readonly,
        Mode::SingleNodeReaderOnly | Mode::MultiNodeReaderOnly => false,
    }
}

/// Whether a volume in this mode is published at one target of a node at a time (CSI's spec.md,
/// "NodePublishVolume"). It takes no memory.
pub fn allows_one_target(mode: Mode) -> bool
    ensures { result ≡ allows_one mode }
{
    match mode {
        Mode::SingleNodeReaderOnly | Mode::SingleNodeWriter | Mode::SingleNodeSingleWriter => true,
        Mode::MultiNodeMultiWriter
        | Mode::MultiNodeSingleWriter
        | Mode::MultiNodeReaderOnly
        | Mode::SingleNodeMultiWriter => false,
    }
}

/// Whether two holders, each in its mode and readonly or not, both write, and one of the two modes has a
/// single writer (`AccessMode` of CSI's spec.md, "CreateVolume"). It takes no memory.
pub fn two_writers(mode: Mode, readonly: bool, other: Mode, other_readonly: bool) -> bool
    ensures { result ≡ are_two_writers mode readonly other other_readonly }
{
    writes(mode, readonly)
        && writes(other, other_readonly)
        && (single_writer(mode) || single_writer(other))
}

// Whether a volume can be at two different nodes, at each in its mode and readonly or not.
pub(crate) fn can_share(mode: Mode, readonly: bool, other: Mode, other_readonly: bool) -> bool
    ensures { result ≡ (is_multi_node mode && is_multi_node other && not (are_two_writers mode readonly other other_readonly)) }
{
    !single_node(mode) && !single_node(other) && !two_writers(mode, readonly, other, other_readonly)
}
