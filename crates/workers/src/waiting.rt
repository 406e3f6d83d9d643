//! Threads that wait for progress: that epochs pass, or that records are received.

ghost use Rattle.std.specs.Prelude.{◌≡◌, ◌≤◌, ◌<◌, None, Some, false, true, MatchBool};
ghost use Rattle.workers.specs.Waiting.{AreMissing, HasNotCome, first_of};
ghost use Rattle.workers.specs.Wakeups.{IsAtEnd};

use crate::held::{Held, Naming};
use views::Views;

/// What a thread waits for: that so many epochs have passed, or that it was published that more than so many records were received.
#[derive(Clone, Copy)]
pub struct News {
    pub passed: u64,
    pub received: u64,
}

impl News {
    /// Whether one of both has come.
    fn has_come<J: Naming, V: Views>(self, held: &Held<J, V>) -> bool
        ensures { result ≡ false → HasNotCome held.now self }
    {
        self.passed <= held.passed_count() || self.received < held.received_count()
    }
}

/// What comes first of all that threads wait for; None if nobody waits.
#[derive(Drop)]
pub struct Waiting {
    first: Option<News>,
}

impl Waiting {
    /// Nobody waits.
    pub fn none() -> Waiting
        ensures { result.first ≡ None }
    {
        Waiting { first: None }
    }

    /// Whether what a thread waits for has come, or nothing more will. If not, notes that the thread waits.
    pub fn has_come<J: Naming, V: Views>(
        &mut self,
        held: &Held<J, V>,
        at_end: bool,
        wanted: News,
    ) -> bool
        requires end { MatchBool at_end (IsAtEnd held.now.board.shown) (IsAtEnd held.now.board.shown → ⊥) }
        requires waits { AreMissing held.now self.old.first }
        ensures waits { AreMissing held.now self.new.first }
        ensures noted { result ≡ false → self.new.first ≡ Some (first_of wanted self.old.first) }
        ensures come { result ≡ true → self.new ≡ self.old }
    {
        if at_end || wanted.has_come(held) {
            return true;
        }
        let first = match self.first {
            None => wanted,
            Some(first) => News {
                passed: wanted.passed.min(first.passed),
                received: wanted.received.min(first.received),
            },
        };
        self.first = Some(first);
        false
    }

    /// Whether those that wait are to be woken, since what comes first has come, or nothing more will. Then nobody waits any longer.
    pub fn ring<J: Naming, V: Views>(&mut self, held: &Held<J, V>, at_end: bool) -> bool
        requires { MatchBool at_end (IsAtEnd held.now.board.shown) (IsAtEnd held.now.board.shown → ⊥) }
        ensures waits { AreMissing held.now self.new.first }
        ensures rings { result ≡ false → self.new ≡ self.old }
    {
        let Some(first) = self.first else {
            return false;
        };
        if !at_end && !first.has_come(held) {
            return false;
        }
        self.first = None;
        true
    }
}
