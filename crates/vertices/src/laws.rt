//! What holds of each shard.

ghost use Rattle.std.specs.Prelude.{ℕ};
ghost use Rattle.semantics.specs.Multiset.{◌≈◌};
ghost use Rattle.semantics.specs.Time.{Time};
ghost use Rattle.semantics.specs.Shard.{Absorbed};
ghost use Rattle.vertices.specs.Shards.{Shows};
ghost use Rattle.vertices.specs.declared.shard.Shard.{Shard};

/// A shard that shows to have absorbed some records shows the same records in any other order.
pub fn law_shows()
    ensures { (shard : Shard) (a b : Absorbed) → ((port : ℕ) (t : Time) → a port t ≈ b port t) → Shows shard a → Shows shard b }
{}
