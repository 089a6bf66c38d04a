//! That it doesn't matter where a stream is cut into pieces.
ghost use Rattle.std.specs.Prelude.{◌≡◌, ℕ, List};
ghost use Rattle.csi_types.specs.Model.Frame.{Frame};
ghost use Rattle.csi_frames.specs.Public.Bytes.{AreBytes};
ghost use Rattle.csi_frames.specs.Public.Stream.{FramesOf};
ghost use Rattle.csi_frames.specs.Public.Splitting.{Splitting};
ghost use Rattle.csi_frames.specs.Public.Cutting.{Splits, HasNoFrame, IsRestLeft};

/// A law: once a splitter would give no frame, those that it gave are the frames of the stream that it was fed, and it keeps
/// the rest or answered the rest's fault, however the stream was cut into pieces, and whenever the next frame was asked for.
pub fn any_cutting()
    ensures { (stream rest : List ℕ) (given frames : List Frame) (s : Splitting) → AreBytes stream → Splits stream given s → HasNoFrame s
        → FramesOf stream frames rest → (given ≡ frames) × IsRestLeft s.fault s.kept rest }
{}
