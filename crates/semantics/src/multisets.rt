ghost use Rattle.std.specs.Prelude.{◌≡◌, ◌≤◌, ◌++◌, List, ℕ, IsPermutation};
ghost use Rattle.semantics.specs.Multiset.{Record, total, ◌≈◌, IsPartOf, less};

/// Whether multisets are equal, or part of one another, depends only on their counts.
pub fn law_equal_multisets()
    ensures itself { (xs : List Record) → xs ≈ xs }
    ensures other_way { (xs ys : List Record) → xs ≈ ys → ys ≈ xs }
    ensures onward { (xs ys zs : List Record) → xs ≈ ys → ys ≈ zs → xs ≈ zs }
    ensures from_parts { (xs ys : List Record) → IsPartOf xs ys → IsPartOf ys xs → xs ≈ ys }
    ensures reordered { (xs ys : List Record) → IsPermutation xs ys → xs ≈ ys }
    ensures only_reordered { (xs ys : List Record) → xs ≈ ys → IsPermutation xs ys }
{}

/// A sum over a part is at most the sum over the whole, and sums over equal multisets are equal.
pub fn law_sums()
    ensures part { (f : Record → ℕ) (xs ys : List Record) → IsPartOf xs ys → total f xs ≤ total f ys }
    ensures equal { (f : Record → ℕ) (xs ys : List Record) → xs ≈ ys → total f xs ≡ total f ys }
{}

/// What is there after, less what was there before, is what was gained.
pub fn law_gained()
    ensures { (after before : List Record) → IsPartOf before after → (less after before ++ before) ≈ after }
{}
