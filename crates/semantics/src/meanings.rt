ghost use Rattle.std.specs.Prelude.{◌≡◌, ◌<◌, ◌+◌, ◌*◌, ◌++◌, ◌&&◌, not, cond, List, ℕ, map, filter, length, ◌∷◌, ◌≤ℤ◌};
ghost use Rattle.semantics.specs.Multiset.{Record, same, one_if, count, total, ◌≈◌, is_present, each_once};
ghost use Rattle.semantics.specs.Meaning.{field, value, holds, project, left_columns, right_columns, aggregate, selected};
ghost use Rattle.semantics.specs.Meaning.{kept, paired, grouped, only_left, in_both, meaning, Names, program_meaning};
ghost use Rattle.semantics.specs.Query.{Scalar, Cond, Agg, Pair, Rel, Name, Program};

/// The count of a record in what each form means.
pub fn law_counts()
    ensures select { (ss : List Scalar) (xs : List Record) (s : Record) →
        count s (selected ss xs) ≡ total (λ r. one_if (same (map (λ t. value t r) ss) s)) xs }
    ensures filter { (c : Cond) (xs : List Record) (r : Record) → count r (kept c xs) ≡ cond (holds c r) (count r xs) 0 }
    ensures concat { (xs ys : List Record) (r : Record) → count r (xs ++ ys) ≡ count r xs + count r ys }
    ensures join { (ps : List Pair) (xs ys : List Record) (a b : Record) →
        ((x : Record) → 0 < count x xs → length x ≡ length a) →
        count (a ++ b) (paired ps xs ys)
        ≡ cond (same (project (left_columns ps) a) (project (right_columns ps) b)) (count a xs * count b ys) 0 }
    ensures distinct { (r : Record) (xs : List Record) → count r (each_once xs) ≡ one_if (is_present r xs) }
    ensures except { (xs ys : List Record) (r : Record) → count r (only_left xs ys) ≡ one_if (is_present r xs && not (is_present r ys)) }
    ensures intersect { (xs ys : List Record) (r : Record) → count r (in_both xs ys) ≡ one_if (is_present r xs && is_present r ys) }
{}

/// An except and an intersect are determined by the sets of their sides' records: each record of the left side, once, that the right side doesn't
/// have, or has. A set has the same records as the list it was made of.
pub fn law_of_sets()
    ensures except { (xs ys : List Record) → only_left xs ys ≈ filter (λ r. not (is_present r ys)) (each_once xs) }
    ensures intersect { (xs ys : List Record) → in_both xs ys ≈ filter (λ r. is_present r ys) (each_once xs) }
    ensures present { (r : Record) (xs : List Record) → is_present r (each_once xs) ≡ is_present r xs }
{}

/// The least and the greatest field of a group's records: each is a bound for all of them, and a field of one of them.
pub fn law_least_and_greatest()
    ensures least { (c : ℕ) (x : Record) (xs : List Record) (y : Record) →
        0 < count y (x ∷ xs) → aggregate (Agg.min c) (x ∷ xs) ≤ℤ field c y }
    ensures least_is_there { (c : ℕ) (x : Record) (xs : List Record) →
        (y : Record) × (0 < count y (x ∷ xs)) × (aggregate (Agg.min c) (x ∷ xs) ≡ field c y) }
    ensures greatest { (c : ℕ) (x : Record) (xs : List Record) (y : Record) →
        0 < count y (x ∷ xs) → field c y ≤ℤ aggregate (Agg.max c) (x ∷ xs) }
    ensures greatest_is_there { (c : ℕ) (x : Record) (xs : List Record) →
        (y : Record) × (0 < count y (x ∷ xs)) × (aggregate (Agg.max c) (x ∷ xs) ≡ field c y) }
{}

/// Equal multisets in give equal multisets out, for each form, for a relation and for a program.
pub fn law_of_multisets()
    ensures select { (ss : List Scalar) (xs ys : List Record) → xs ≈ ys → selected ss xs ≈ selected ss ys }
    ensures filter { (c : Cond) (xs ys : List Record) → xs ≈ ys → kept c xs ≈ kept c ys }
    ensures concat { (xs ys us vs : List Record) → xs ≈ ys → us ≈ vs → (xs ++ us) ≈ (ys ++ vs) }
    ensures join { (ps : List Pair) (xs zs ys us : List Record) → xs ≈ zs → ys ≈ us → paired ps xs ys ≈ paired ps zs us }
    ensures group { (ks : List ℕ) (aggs : List Agg) (xs ys : List Record) → xs ≈ ys → grouped ks aggs xs ≈ grouped ks aggs ys }
    ensures distinct { (xs ys : List Record) → xs ≈ ys → each_once xs ≈ each_once ys }
    ensures except { (xs zs ys us : List Record) → xs ≈ zs → ys ≈ us → only_left xs ys ≈ only_left zs us }
    ensures intersect { (xs zs ys us : List Record) → xs ≈ zs → ys ≈ us → in_both xs ys ≈ in_both zs us }
    ensures aggregate { (a : Agg) (xs ys : List Record) → xs ≈ ys → aggregate a xs ≡ aggregate a ys }
    ensures relation { (r : Rel) (a b : Names) → ((x : Name) → a x ≈ b x) → meaning r a ≈ meaning r b }
    ensures program { (p : Program) (output : ℕ) (xs ys : ℕ → List Record) → ((i : ℕ) → xs i ≈ ys i) →
        program_meaning p output xs ≈ program_meaning p output ys }
{}
