//! How far a splitter has come in its buffer.
ghost use Rattle.std.specs.Prelude.{◌≡◌, ◌≤◌, ◌+◌, ℕ, Option, Result, length, drop, IfOk, IfNone};
ghost use Rattle.csi_types.specs.Model.Frame.{Frame as Parts};
ghost use Rattle.csi_frames.specs.declared.fault.FrameFault.{FrameFault as Fault};
ghost use Rattle.csi_frames.specs.Private.Progress.{is_short};
ghost use Rattle.csi_frames.specs.Public.Splitting.{IsNextFrame, after_next};

use crate::body::first_frame;
use crate::fault::{FaultKind, FrameFault};
use crate::frame_ref::FrameRef;

/// Where in the buffer the bytes begin that are kept, how many bytes the frames took that were given, and the fault that
/// was answered.
#[derive(Clone, Copy)]
pub(crate) struct Progress {
    pub start: usize,
    pub taken: u64,
    pub fault: Option<FrameFault>,
}

// Whether the input ended within a frame.
fn is_short(kind: FaultKind) -> bool
    ensures { result ≡ is_short kind }
{
    match kind {
        FaultKind::Short => true,
        _ => false,
    }
}

impl Progress {
    ghost use Rattle.csi_frames.specs.Public.Lent.{lent_answer};
    ghost use Rattle.csi_frames.specs.Public.Progress.{progress_shown};

    // It is inlined, as all is that hands on a frame, so that the frame is made once, where it is given.
    /// The next frame of the buffer; none where the bytes that are kept wait for more; or a fault. It takes no memory.
    #[inline(always)]
    pub fn next<'a>(&mut self, buffer: &'a [u8]) -> Result<Option<FrameRef<'a>>, FrameFault>
        requires { self.old.start ≤ length buffer.now }
        ensures start { self.new.start ≤ length buffer.now }
        ensures step { self.new.start ≤ self.old.start + 1284 }
        ensures after { progress_shown self.new buffer.now ≡ after_next (progress_shown self.old buffer.now) (lent_answer result) }
        ensures next { IsNextFrame self.old.fault (drop self.old.start buffer.now) (lent_answer result) }
        ensures only { (other : Result (Option Parts) Fault) → IsNextFrame self.old.fault (drop self.old.start buffer.now) other → lent_answer result ≡ other }
        ensures few { IfOk result (λ next. IfNone next (length (drop self.old.start buffer.now) ≤ 1283)) }
    {
        if let Some(fault) = self.fault {
            return Err(fault);
        }
        match first_frame(&buffer[self.start..]) {
            Ok((frame, size)) => {
                self.start += size;
                self.taken = self.taken.saturating_add(size as u64);
                Ok(Some(FrameRef { frame }))
            }
            Err(fault) if is_short(fault.kind) => Ok(None),
            Err(fault) => {
                self.fault = Some(fault);
                Err(fault)
            }
        }
    }
}
