//! What each seat of a mark knows about its word.

use atomic_table::{Join, Play, Split, TableRule};

/// What a seat knows: what it has published, if it is the publisher's, and what it has read. It has no values.
pub struct View {
    pub published: Option<u64>,
    pub read: u64,
}

/// The one publisher knows the word; the number that a seat has read is at most the word.
pub struct MarkRule;

impl TableRule<(), View, ()> for MarkRule {
    ghost use Rattle.workers.specs.Rule.{Keeps, publisher};

    ghost holds = { λ _ s. Keeps s.words s.views };

    ghost first = { λ _. publisher 0 };
}

/// An observer reads the word.
pub struct Load;

impl Play<(), View> for Load {
    ghost use Rattle.workers.specs.Rule.{Reads};

    ghost then = { λ _ before n after. Reads before n after };
}

/// The publisher raises the word.
pub struct Raise;

impl Play<(), View> for Raise {
    ghost use Rattle.workers.specs.Rule.{Publishes};

    ghost then = { λ s before n after. Publishes s.first before n after };
}

/// The publisher, who knows what an observer had read, reads the word.
pub struct Compare;

impl Play<(), View> for Compare {
    ghost use Rattle.workers.specs.Rule.{Compares};

    ghost then = { λ _ before n after. Compares before n after };
}

/// A new observer has read what the publisher has; one that goes leaves what it had read with the publisher.
pub struct Observer;

impl Split<View> for Observer {
    ghost use Rattle.workers.specs.Rule.{reader};

    ghost left = { λ v. v };

    ghost right = { λ v. reader v.read };
}

impl Join<View> for Observer {
    ghost use Rattle.workers.specs.Rule.{reader, with_read};

    ghost both = { with_read };

    ghost spent = { reader 0 };
}
