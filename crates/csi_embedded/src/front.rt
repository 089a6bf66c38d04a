//! The bytes that a frame may take.
ghost use Rattle.std.specs.Prelude.{◌≡◌};
ghost use Rattle.csi_embedded.specs.Public.Calls.{frame_front};

/// The most bytes of a frame: a length of four, and a body.
pub(crate) const MOST: usize = 1284;

/// So many of these bytes as a frame may take. It takes no memory.
pub(crate) fn front(bytes: &[u8]) -> &[u8]
    ensures { result.now ≡ frame_front bytes.now }
{
    if bytes.len() > MOST {
        &bytes[..MOST]
    } else {
        bytes
    }
}
