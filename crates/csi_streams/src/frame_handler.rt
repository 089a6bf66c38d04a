//! What is done with the frames of a stream.
ghost use Rattle.std.specs.Prelude.{◌≡◌, ℕ, Option, Some, None, OnOk, IfErr};
ghost use Rattle.csi_types.specs.Model.Frame.{Frame as FrameParts};
ghost use Rattle.csi_frames.specs.Public.Lent.{lent_frame};
ghost use Rattle.csi_streams.specs.Public.State.{State};

use csi_frames::FrameRef;

/// What is done with the frames of a stream, one after another: it works on a store, and writes to an output, at once or where it is told
/// to.
pub trait FrameHandler<S, O> {
    /// Why it stops.
    type Fault;

    /// The frame whose first byte is in this place of the stream leads from one state to the next.
    ghost handles: { State Self S O → ℕ → FrameParts → State Self S O → Type 0 };

    /// What waited was written.
    ghost flushes: { State Self S O → State Self S O → Type 0 };

    /// Nothing waits to be written.
    ghost is_flushed: { Self → Type 0 };

    /// It stopped, at this frame, or where it wrote what waited.
    ghost stops: { State Self S O → Option FrameParts → State Self S O → Self.Fault → Type 0 };

    /// Handles the next frame, whose first byte is in this place of the stream.
    fn handle(
        &mut self,
        store: &mut S,
        out: &mut O,
        place: u64,
        frame: &FrameRef<'_>,
    ) -> Result<(), Self::Fault>
        ensures ok { OnOk result (handles (record { own = self.old; store = store.old; out = out.old }) place (lent_frame frame.now) (record {
          own = self.new;
          store = store.new;
          out = out.new;
        })) }
        ensures err { IfErr result (stops (record { own = self.old; store = store.old; out = out.old }) (Some (lent_frame frame.now)) (record {
          own = self.new;
          store = store.new;
          out = out.new;
        })) };

    /// Writes what waits.
    fn flush(&mut self, store: &mut S, out: &mut O) -> Result<(), Self::Fault>
        ensures ok { OnOk result (flushes (record { own = self.old; store = store.old; out = out.old }) (record {
          own = self.new;
          store = store.new;
          out = out.new;
        })) }
        ensures flushed { OnOk result (is_flushed self.new) }
        ensures err { IfErr result (stops (record { own = self.old; store = store.old; out = out.old }) None (record {
          own = self.new;
          store = store.new;
          out = out.new;
        })) };
}
