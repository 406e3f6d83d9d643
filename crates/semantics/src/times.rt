ghost use Rattle.std.specs.Prelude.{◌≡◌, length};
ghost use Rattle.semantics.specs.Multiset.{IsAmong};
ghost use Rattle.semantics.specs.Time.{Time, Action, after_action, times_before, IsTaken, IsAtMost};

/// The order of times is reflexive and transitive, and an action keeps the order of times of the same depth.
pub fn law_order()
    ensures itself { (t : Time) → IsAtMost t t }
    ensures onward { (t u v : Time) → IsAtMost t u → IsAtMost u v → IsAtMost t v }
    ensures after_action { (a : Action) (t u : Time) → length t.counters ≡ length u.counters → IsAtMost t u →
        IsAtMost (after_action a t) (after_action a u) }
{}

/// The times before u are those that the action takes to u.
pub fn law_times_before()
    ensures all { (a : Action) (t u : Time) → IsTaken a t → after_action a t ≡ u → IsAmong t (times_before a u) }
    ensures only { (a : Action) (t u : Time) → IsAmong t (times_before a u) → after_action a t ≡ u }
{}
