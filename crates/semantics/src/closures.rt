ghost use Rattle.std.specs.Prelude.{◌≡◌, ◌≤◌, ◌+◌, ◌++◌, ◌||◌, ℕ, suc, List, []};
ghost use Rattle.semantics.specs.Multiset.{Record, count, ◌≈◌, is_present, each_once};
ghost use Rattle.semantics.specs.Query.{Loop};
ghost use Rattle.semantics.specs.Meaning.{repeated, found_first, found_next, after_turns};

/// A closure, by what one turn makes of a multiset. Without turns it is its start's different records. It has no record twice, and more turns keep
/// what was found. If a turn makes nothing of nothing, then a turn that finds nothing new is the last that counts.
pub fn law_closure()
    ensures none { (f : List Record → List Record) (xs : List Record) → after_turns Loop.closure f 0 xs ≡ each_once xs }
    ensures once { (f : List Record → List Record) (n : ℕ) (xs : List Record) (r : Record) → count r (after_turns Loop.closure f n xs) ≤ 1 }
    ensures more { (f : List Record → List Record) (n : ℕ) (xs : List Record) (r : Record) →
        count r (after_turns Loop.closure f n xs) ≤ count r (after_turns Loop.closure f (suc n) xs) }
    ensures ends { (f : List Record → List Record) → f [] ≡ [] → (xs : List Record) (k m : ℕ) →
        (repeated (found_next f) k (found_first xs)).latest ≡ [] →
        after_turns Loop.closure f (m + k) xs ≡ after_turns Loop.closure f k xs }
{}

/// If what a turn makes of a sum is what it makes of both parts, as sets, then a closure is the iterate that keeps all records and makes a turn of all
/// of them: `closure(n; x = r; step)` is `iterate(n; x = distinct(r); distinct(concat(x, step)))`.
pub fn law_closure_of_linear()
    ensures { (f : List Record → List Record) →
        ((xs ys : List Record) (r : Record) → is_present r (f (xs ++ ys)) ≡ is_present r (f xs) || is_present r (f ys)) →
        ((xs ys : List Record) → ((r : Record) → is_present r xs ≡ is_present r ys) → (r : Record) → is_present r (f xs) ≡ is_present r (f ys)) →
        (n : ℕ) (xs : List Record) →
        after_turns Loop.closure f n xs ≈ after_turns Loop.iterate (λ ys. each_once (ys ++ f ys)) n (each_once xs) }
{}
