//! The law of lines.
ghost use Rattle.std.specs.Prelude.{◌≡◌, ℕ, List};
ghost use Rattle.csi_streams.specs.Public.LinesOf.{LinesOf};

/// A law, and nothing that runs: each list of bytes is lines and a rest, and in one way.
pub fn lines_law()
    ensures some { (bytes : List ℕ) → (lines : List (List ℕ)) × (rest : List ℕ) × LinesOf bytes lines rest }
    ensures one { (bytes : List ℕ) (lines others : List (List ℕ)) (rest left : List ℕ) →
        LinesOf bytes lines rest → LinesOf bytes others left → (lines ≡ others) × (rest ≡ left) }
{}
