ghost use Rattle.std.specs.Prelude.{◌≡◌, ◌<◌, ◌==◌, ℕ, Bool, List, filter, Option, Some};
ghost use Rattle.semantics.specs.Multiset.{Record};
ghost use Rattle.semantics.specs.Kinds.{Kind, route_key};
ghost use Rattle.semantics.specs.Op.{IsSum, IsCut};
ghost use Rattle.semantics.specs.Route.{home_by};

/// Routing: a record goes to a worker that exists, and records with equal route keys go to the same worker, from any sender. So the workers' parts of
/// what comes to a vertex sum to the whole, and no route key is in two parts.
pub fn law_routing()
    ensures worker { (key : Option (Record → Record)) (from_input : Bool) (workers sender : ℕ) (r : Record) →
        sender < workers → home_by key from_input workers sender r < workers }
    ensures equal_keys_meet { (key : Option (Record → Record)) (f : Record → Record) → key ≡ Some f →
        (from_input : Bool) (workers sender other : ℕ) (r s : Record) → f r ≡ f s →
        home_by key from_input workers sender r ≡ home_by key from_input workers other s }
    ensures sum { (kind : Kind) (ins : ℕ → List Record) (from_input : Bool) (workers sender : ℕ) → sender < workers →
        IsSum kind ins (λ w i. filter (λ r. home_by (route_key kind i) from_input workers sender r == w) (ins i)) workers }
    ensures cut { (kind : Kind) (ins : ℕ → List Record) (from_input : Bool) (workers sender : ℕ) →
        IsCut kind (λ w i. filter (λ r. home_by (route_key kind i) from_input workers sender r == w) (ins i)) workers }
{}
