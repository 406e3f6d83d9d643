//! The place of a vertex's shard on the board.

ghost use Rattle.std.specs.Prelude.{◌≡◌, Some, None, OnSome};
ghost use Rattle.board.specs.Forgetting.{LetsGoAt, LooksHere};
ghost use Rattle.vertices.specs.declared.shard.Shard as shard;

use loop_context::Time;
use std::marker::Model;
use vertices::Shard;

/// Holds the shard while it is at home; empty while the shard is out with an event.
#[derive(Drop)]
pub struct Slot {
    shard: Option<Box<Shard>>,
}

impl Model for Slot {
    ghost use Rattle.std.specs.Coded.{codes};
    ghost use Rattle.std.specs.Prelude.{Option, option_map};
    ghost use Rattle.vertices.specs.declared.shard.Shard as kind;
    ghost use Rattle.vertices.specs.contracts.shard.Shard as shard_row;
    ghost use Rattle.std.specs.contracts.alloc.Global as heap;
    ghost use Rattle.std.specs.contracts.impls.GlobalAllocator.TheImpl as allocates;
    ghost use Rattle.expr_tree.specs.contracts.scalar.Scalar as scalar;
    ghost use Rattle.expr_tree.specs.contracts.condition.Cond as condition;

    ghost Value = { Option kind.Shard };

    ghost coded = { Prim.hlevel (
      codes,
      shard_row.the_row.coded,
      (scalar.the_row heap.the_row allocates.ghosts).coded,
      (condition.the_row heap.the_row allocates.ghosts).coded,
    ) };

    ghost view = { λ s. option_map (λ b. b.value) s.shard };
}

impl Slot {
    /// A slot with its shard at home.
    pub fn full(shard: Box<Shard>) -> Slot
        ensures { result ≡ Some shard.value }
    {
        Slot { shard: Some(shard) }
    }

    /// Takes the shard out.
    #[inline(always)]
    pub fn take(&mut self) -> Box<Shard>
        requires { (x : shard.Shard) × (self.old ≡ Some x) }
        ensures shard { self.old ≡ Some result.value }
        ensures empty { self.new ≡ None }
    {
        self.shard.take().unwrap()
    }

    /// A time of which the shard keeps something that it may let go, and that may have passed when something comes at `now`.
    #[inline(always)]
    pub fn earlier(&self, now: &Time) -> Option<Time>
        ensures { OnSome result (LooksHere self.now) }
    {
        match &self.shard {
            Some(shard) => shard.earlier(now),
            None => None,
        }
    }

    /// Lets the shard go of what it keeps of a time.
    #[inline(always)]
    pub fn forget(&mut self, time: &Time)
        requires { (x : shard.Shard) × (self.old ≡ Some x) }
        ensures { LetsGoAt time.now self.old self.new }
    {
        if let Some(shard) = &mut self.shard {
            let shard: &mut Shard = shard;
            shard.forget(time);
        }
    }

    /// Puts the shard back.
    #[inline(always)]
    pub fn put(&mut self, shard: Box<Shard>)
        ensures { self.new ≡ Some shard.value }
    {
        self.shard = Some(shard);
    }
}
