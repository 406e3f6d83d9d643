//! The counters that the lock protects, and the publisher of what they say was received.

ghost use Rattle.std.specs.Prelude.{◌≡◌, ◌≤◌, ◌+◌, None, Some, max};
ghost use Rattle.driver.specs.Received.{received_of};
ghost use Rattle.driver.specs.Tallies.{Raises};
ghost use Rattle.workers.specs.Counters.{IsBehind, published_by};

use crate::held::Naming;
use crate::mark::{Publisher, Seat};
use board::Sent;
use driver::{Tally, received};
use std::marker::PhantomData;

/// Publishes how many records vertices have taken in, each time that `every` more have come, since all counters are summed for it. `since` counts those
/// that came after the last sum.
#[derive(Drop)]
pub struct Receipts {
    publisher: Publisher,
    every: u64,
    since: u64,
}

impl Receipts {
    /// Counts the records that came with an event, which the tally has counted already.
    fn note(&mut self, came: u64, tally: &Tally)
        ensures table { self.new.publisher.table ≡ self.old.publisher.table }
        ensures most { self.old.publisher.number ≤ received_of tally.now → self.new.publisher.number ≤ received_of tally.now }
        ensures due { self.old.every ≤ self.old.since + came → self.new.publisher.number ≡ max self.old.publisher.number (received_of tally.now) }
    {
        self.since = self.since.saturating_add(came);
        if self.since < self.every {
            return;
        }
        self.since = 0;
        self.publisher.publish(received(tally));
    }

    /// Has an observer's seat read what is published.
    fn show(&mut self, seat: &mut Seat) -> u64
        requires { seat.old.table ≡ self.old.publisher.table }
        ensures receipts { self.new ≡ self.old }
        ensures table { seat.new.table ≡ seat.old.table }
        ensures read { (result ≡ self.old.publisher.number) × (seat.new.number ≡ result) }
        ensures rises { seat.old.number ≤ result }
    {
        self.publisher.show(seat)
    }
}

/// Counters, and who publishes what they say was received, if anybody does. What was published is at most that.
#[derive(Drop)]
pub struct Counters<J: Naming> {
    tally: Tally,
    receipts: Option<Receipts>,
    of: PhantomData<J>,
    ghost behind: { IsBehind J.received receipts tally },
}

impl<J: Naming> Counters<J> {
    /// Counters of which nothing is published.
    pub fn new(tally: Tally) -> Counters<J>
        requires unwatched { J.received ≡ None }
        ensures { result.tally ≡ tally }
    {
        Counters {
            tally,
            receipts: None,
            of: PhantomData,
        }
    }

    /// Counters of which is published, each time that `every` more records have come, how many were received.
    pub fn watched(tally: Tally, publisher: Publisher, every: u64) -> Counters<J>
        requires mark { J.received ≡ Some publisher.table }
        requires fresh { publisher.number ≡ 0 }
        ensures { result.tally ≡ tally }
    {
        let receipts = Receipts {
            publisher,
            every,
            since: 0,
        };
        Counters {
            tally,
            receipts: Some(receipts),
            of: PhantomData,
        }
    }

    /// Counts a commit, by what it says of its event.
    pub fn count(&mut self, sent: Sent)
        ensures { Raises self.old.tally sent self.new.tally }
    {
        self.tally.count(sent);
        if let Some(receipts) = &mut self.receipts {
            receipts.note(sent.received(), &self.tally);
        }
    }

    /// The number of received records that was published last; 0 if none is.
    pub fn published(&self) -> u64
        ensures { result ≡ published_by self.now.receipts }
    {
        match &self.receipts {
            Some(receipts) => receipts.publisher.number(),
            None => 0,
        }
    }

    /// Has an observer's seat read what is published. That is at most what was received.
    pub fn show(&mut self, seat: &mut Seat) -> u64
        requires { J.received ≡ Some seat.old.table }
        ensures tally { self.new.tally ≡ self.old.tally }
        ensures receipts { self.new.receipts ≡ self.old.receipts }
        ensures table { seat.new.table ≡ seat.old.table }
        ensures read { (result ≡ published_by self.old.receipts) × (seat.new.number ≡ result) }
        ensures rises { seat.old.number ≤ result }
        ensures most { result ≤ received_of self.old.tally }
    {
        match &mut self.receipts {
            Some(receipts) => receipts.show(seat),
            None => unreachable!(),
        }
    }

    /// The counters.
    pub fn into_tally(self) -> Tally
        ensures tally { result ≡ self.tally }
        ensures most { published_by self.receipts ≤ received_of result }
    {
        let Counters {
            tally,
            receipts: _,
            of: _,
        } = self;
        tally
    }
}
