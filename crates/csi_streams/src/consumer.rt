//! What takes a stream.
ghost use Rattle.std.specs.Prelude.{◌≡◌, ◌<◌, ◌+◌, ◌++◌, ◌^◌, ℕ, List, length, true, Ok};
ghost use Rattle.csi_streams.specs.Public.State.{State};
ghost use Rattle.csi_streams.specs.Public.Driving.{Feeds, Nexts};

/// What takes a stream that comes in pieces, splits it into items, and handles one after another: it works on a store, and writes to
/// an output.
pub trait Consumer<S, O> {
    /// Why it stops.
    type Fault;

    /// These bytes were fed since it was in the first state, and what it did with the items that it gave led to the second.
    ghost reaches: { State Self S O → List ℕ → State Self S O → Type 0 };

    /// The same, no item is there, and nothing waits to be written.
    ghost rests: { State Self S O → List ℕ → State Self S O → Type 0 };

    /// It stopped somewhere in these bytes.
    ghost stops: { State Self S O → List ℕ → State Self S O → Self.Fault → Type 0 };

    /// How many bytes it keeps: each item takes some of them.
    ghost kept: { Self → ℕ };

    /// Takes a piece of the stream.
    fn feed(&mut self, piece: &[u8]) -> Result<(), Self::Fault>
        ensures { (first : State Self S O) (bytes : List ℕ) (store : S) (out : O) →
            rests first bytes (record { own = self.old; store = store; out = out }) → length bytes + length piece.now < 2 ^ 64 →
            Feeds (reaches first (bytes ++ piece.now) (record { own = self.new; store = store; out = out }))
            (stops first (bytes ++ piece.now) (record { own = self.new; store = store; out = out })) result };

    /// Handles the next item, and says whether it was there. Where none is, what waits is written.
    fn next(&mut self, store: &mut S, out: &mut O) -> Result<bool, Self::Fault>
        ensures next { (first : State Self S O) (bytes : List ℕ) → reaches first bytes (record { own = self.old; store = store.old; out = out.old }) →
            Nexts (reaches first bytes (record { own = self.new; store = store.new; out = out.new }))
            (rests first bytes (record { own = self.new; store = store.new; out = out.new }))
            (stops first bytes (record { own = self.new; store = store.new; out = out.new })) result }
        ensures less { result ≡ Ok true → kept self.new < kept self.old };
}
