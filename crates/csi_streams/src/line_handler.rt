//! What is done with the lines of a stream.
ghost use Rattle.std.specs.Prelude.{ℕ, List, Option, Some, None, OnOk, IfErr};
ghost use Rattle.csi_streams.specs.Public.State.{State};

/// What is done with the lines of a stream, one after another: it works on a store, and writes to an output, at once or where it is told
/// to.
pub trait LineHandler<S, O> {
    /// Why it stops.
    type Fault;

    /// The line with this number, from 1, its bytes without the newline, leads from one state to the next.
    ghost handles: { State Self S O → ℕ → List ℕ → State Self S O → Type 0 };

    /// What waited was written.
    ghost flushes: { State Self S O → State Self S O → Type 0 };

    /// Nothing waits to be written.
    ghost is_flushed: { Self → Type 0 };

    /// It stopped, at this line, or where it wrote what waited.
    ghost stops: { State Self S O → Option (List ℕ) → State Self S O → Self.Fault → Type 0 };

    /// Handles the next line, which has this number.
    fn handle(
        &mut self,
        store: &mut S,
        out: &mut O,
        number: u64,
        line: &[u8],
    ) -> Result<(), Self::Fault>
        ensures ok { OnOk result (handles (record { own = self.old; store = store.old; out = out.old }) number line.now (record {
          own = self.new;
          store = store.new;
          out = out.new;
        })) }
        ensures err { IfErr result (stops (record { own = self.old; store = store.old; out = out.old }) (Some line.now) (record {
          own = self.new;
          store = store.new;
          out = out.new;
        })) };

    /// Writes what waits.
    fn flush(&mut self, store: &mut S, out: &mut O) -> Result<(), Self::Fault>
        ensures ok { OnOk result (flushes (record { own = self.old; store = store.old; out = out.old }) (record {
          own = self.new;
          store = store.new;
          out = out.new;
        })) }
        ensures flushed { OnOk result (is_flushed self.new) }
        ensures err { IfErr result (stops (record { own = self.old; store = store.old; out = out.old }) None (record {
          own = self.new;
          store = store.new;
          out = out.new;
        })) };
}
