//! A worker's part of the board.

ghost use Rattle.std.specs.Prelude.{◌≡◌, ◌≢◌, ◌<◌, ◌≤◌, ◌+◌, ℕ, [], length, remove, slice_get};
ghost use Rattle.std.specs.Prelude.{slice_index_or, Some, None, IfNone, IfOk, IfSome, OnOk, OnSome, MatchBool};
ghost use Rattle.machine.specs.World.{Event as Happens, Message as Mail, Request as RequestShown};
ghost use Rattle.tokens.specs.declared.rule.Place.TheVariants.{Home, Out, Lost};
ghost use Rattle.vertices.specs.declared.shard.Shard as shard;
ghost use Rattle.board.specs.Forgetting.{ForgetsIn, LooksHere};
ghost use Rattle.board.specs.WorkerShown.{IsIdle, is_out};
ghost use Rattle.board.specs.Merging.{AreAlike, AreMerged, window};
ghost use Rattle.board.specs.Steps.{out_with, settled, with_mail};

use crate::merging::{merge, next_alike};
use crate::slot::Slot;
use events::{Event, Happening, Message, Request, Wiring};
use exchange::{Cuts, Mailbox};
use loop_context::Time;
use path_summary::Pointstamp;
use record_core::NoMemory;
use std::alloc::{AllocError, Global};
use std::marker::Model;
use std::sync::Arc;
use tokens::tie::{Stub, Tie};
use vertices::Shard;

/// A worker's mailbox, its requests, its shards by vertex, the last batches that it has divided, and the token by which its event is known. While an
/// event is out, the wiring, the shard of that event and what was divided are out with it.
#[derive(Drop)]
pub struct Worker {
    wiring: Option<Arc<Wiring, Global>>,
    cuts: Cuts,
    lost: bool,
    mailbox: Mailbox<Message>,
    requests: Mailbox<Request>,
    tie: Tie<Event>,
    shards: Vec<Slot>,
}

impl Model for Worker {
    ghost use Rattle.std.specs.Coded.{codes};
    ghost use Rattle.vertices.specs.contracts.shard.Shard as shard_row;
    ghost use Rattle.std.specs.contracts.alloc.Global as heap;
    ghost use Rattle.std.specs.contracts.impls.GlobalAllocator.TheImpl as allocates;
    ghost use Rattle.expr_tree.specs.contracts.scalar.Scalar as scalar;
    ghost use Rattle.expr_tree.specs.contracts.condition.Cond as condition;
    ghost use Rattle.board.specs.WorkerShown.{WorkerShown, wired_of, IsHome};

    ghost Value = { WorkerShown };

    ghost coded = { Prim.hlevel (
      codes,
      shard_row.the_row.coded,
      (scalar.the_row heap.the_row allocates.ghosts).coded,
      (condition.the_row heap.the_row allocates.ghosts).coded,
    ) };

    ghost view = { λ w. record {
      side = record {
        wired = wired_of (λ x. x.value) w.tie.place w.wiring;
        table = w.tie.table;
        mail = w.mailbox.messages;
        requests = w.requests.messages;
        place = w.tie.place;
        shards = w.shards.items;
      };
      mail_room = w.mailbox.room;
      request_room = w.requests.room;
    } };

    ghost invariant = { λ w. IsHome w.tie.place w.wiring w.lost };
}

impl Worker {
    /// A worker with nothing to do.
    pub fn new(
        alloc: Global,
        wiring: Arc<Wiring, Global>,
        shards: Vec<Slot>,
    ) -> Result<Worker, AllocError>
        ensures wired { IfOk result (λ w. w.side.wired ≡ wiring.value) }
        ensures mail { IfOk result (λ w. w.side.mail ≡ []) }
        ensures requests { IfOk result (λ w. w.side.requests ≡ []) }
        ensures place { IfOk result (λ w. w.side.place ≡ Home) }
        ensures shards { IfOk result (λ w. w.side.shards ≡ shards.items) }
    {
        let tie = Tie::new(alloc)?;
        Ok(Worker {
            wiring: Some(wiring),
            cuts: Cuts::new(alloc),
            lost: false,
            mailbox: Mailbox::new(alloc),
            requests: Mailbox::new(alloc),
            tie,
            shards,
        })
    }

    /// Whether no event is out or abandoned.
    pub fn is_free(&self) -> bool
        ensures { MatchBool result (self.now.side.place ≡ Home) (self.now.side.place ≢ Home) }
    {
        self.wiring.is_some()
    }

    /// Whether an event is out that isn't abandoned.
    pub fn is_holding(&self) -> bool
        ensures { result ≡ is_out self.now.side.place }
    {
        self.wiring.is_none() && !self.lost
    }

    /// Whether nothing waits, and no event is out or abandoned.
    pub fn is_idle(&self) -> bool
        ensures { MatchBool result (IsIdle self.now.side) (IsIdle self.now.side → ⊥) }
    {
        self.wiring.is_some() && self.mailbox.is_empty() && self.requests.is_empty()
    }

    /// The messages that wait, in order of arrival.
    pub fn mailbox(&self) -> &Mailbox<Message>
        ensures { result.now.messages ≡ self.now.side.mail }
    {
        &self.mailbox
    }

    /// The requests that wait, in the order in which they were made.
    pub fn requests(&self) -> &Mailbox<Request>
        ensures { result.now.messages ≡ self.now.side.requests }
    {
        &self.requests
    }

    /// The first place, from `from` on and within the window, of a message that is like the first.
    pub fn next_alike(&self, from: usize) -> Option<usize>
        ensures found { IfSome result (λ at. (from ≤ at) × AreAlike self.now.side.mail at) }
        ensures none { IfNone result ((at : ℕ) → from ≤ at → at < window → AreAlike self.now.side.mail at → ⊥) }
    {
        next_alike(&self.mailbox, from)
    }

    /// Reserves room for that many more messages.
    #[inline(always)]
    pub fn reserve_mail(&mut self, more: usize) -> Result<(), NoMemory>
        ensures side { self.new.side ≡ self.old.side }
        ensures kept { self.old.mail_room ≤ self.new.mail_room }
        ensures requests { self.new.request_room ≡ self.old.request_room }
        ensures room { OnOk result (more ≤ self.new.mail_room) }
    {
        self.mailbox.reserve(more)
    }

    /// Reserves room for one more request.
    #[inline(always)]
    pub fn reserve_request(&mut self) -> Result<(), NoMemory>
        ensures side { self.new.side ≡ self.old.side }
        ensures mail { self.new.mail_room ≡ self.old.mail_room }
        ensures room { OnOk result (1 ≤ self.new.request_room) }
    {
        self.requests.reserve(1)
    }

    /// Appends a message to the mailbox. Takes no memory.
    #[inline(always)]
    pub fn put(&mut self, message: Message)
        requires { 0 < self.old.mail_room }
        ensures side { self.new.side ≡ with_mail self.old.side message }
        ensures room { self.new.mail_room + 1 ≡ self.old.mail_room }
        ensures requests { self.new.request_room ≡ self.old.request_room }
    {
        self.mailbox.put_reserved(message);
    }

    /// Merges the message at that place behind the first into the first, if they are alike and memory allows, and gives the pointstamp of the second.
    /// Otherwise nothing changes.
    pub fn merge(&mut self, place: usize) -> Option<Pointstamp>
        ensures merged { IfSome result (λ ends. AreMerged self.old.side.mail self.new.side.mail place ends) }
        ensures same { IfNone result (self.new.side.mail ≡ self.old.side.mail) }
        ensures rest { self.new.side ≡ record self.old.side { mail = self.new.side.mail } }
    {
        merge(&mut self.mailbox, place)
    }

    /// Hands out a message, with the shard of its vertex. Takes no memory.
    #[inline(always)]
    pub fn send_message(&mut self, place: usize, vertex: usize) -> (Event, Stub<Event>)
        requires free { self.old.side.place ≡ Home }
        requires there { place < length self.old.side.mail }
        requires vertex { vertex < length self.old.side.shards }
        requires shard { (x : shard.Shard) × (slice_index_or self.old.side.shards vertex None ≡ Some x) }
        ensures stub { result.1 ≡ record { table = self.old.side.table; job = result.0 } }
        ensures wired { result.0.wired ≡ self.old.side.wired }
        ensures message { (m : Mail) × (slice_get self.old.side.mail place ≡ Some m) × (result.0.happening ≡ Happens.arrival m) }
        ensures shard { slice_index_or self.old.side.shards vertex None ≡ Some result.0.before }
        ensures state { self.new.side ≡ out_with (record self.old.side { mail = remove self.old.side.mail place }) vertex result.0 }
    {
        let message = self.mailbox.take(place);
        let shard = self.shards[vertex].take();
        let wiring = self.wiring.take().unwrap();
        let event = Event {
            wiring,
            cuts: self.cuts.take(),
            happening: Happening::Arrival(message),
            shard,
        };
        let stub = self.tie.send(&event);
        (event, stub)
    }

    /// Hands out a request, with the shard of its vertex. Takes no memory.
    #[inline(always)]
    pub fn send_request(&mut self, place: usize, vertex: usize) -> (Event, Stub<Event>)
        requires free { self.old.side.place ≡ Home }
        requires there { place < length self.old.side.requests }
        requires vertex { vertex < length self.old.side.shards }
        requires shard { (x : shard.Shard) × (slice_index_or self.old.side.shards vertex None ≡ Some x) }
        ensures stub { result.1 ≡ record { table = self.old.side.table; job = result.0 } }
        ensures wired { result.0.wired ≡ self.old.side.wired }
        ensures request { (r : RequestShown) × (slice_get self.old.side.requests place ≡ Some r) × (result.0.happening ≡ Happens.notification r) }
        ensures shard { slice_index_or self.old.side.shards vertex None ≡ Some result.0.before }
        ensures state { self.new.side ≡ out_with (record self.old.side { requests = remove self.old.side.requests place }) vertex result.0 }
    {
        let request = self.requests.take(place);
        let shard = self.shards[vertex].take();
        let wiring = self.wiring.take().unwrap();
        let event = Event {
            wiring,
            cuts: self.cuts.take(),
            happening: Happening::Notification(request),
            shard,
        };
        let stub = self.tie.send(&event);
        (event, stub)
    }

    /// A time of which the shard of a vertex keeps something that it may let go, and that may have passed when something comes at `now`.
    #[inline(always)]
    pub fn earlier(&self, vertex: usize, now: &Time) -> Option<Time>
        requires { vertex < length self.now.side.shards }
        ensures { OnSome result (LooksHere (slice_index_or self.now.side.shards vertex None)) }
    {
        self.shards[vertex].earlier(now)
    }

    /// Lets the shard of a vertex go of what it keeps of a time.
    #[inline(always)]
    pub fn forget(&mut self, vertex: usize, time: &Time)
        requires vertex { vertex < length self.old.side.shards }
        requires shard { (x : shard.Shard) × (slice_index_or self.old.side.shards vertex None ≡ Some x) }
        ensures forgets { ForgetsIn self.old.side self.new.side vertex time.now }
    {
        self.shards[vertex].forget(time);
    }

    /// Shows by the token that its event is the one that is out. Changes nothing.
    pub fn show(&mut self, stub: Stub<Event>) -> Stub<Event>
        requires { stub.table ≡ self.old.side.table }
        ensures out { self.old.side.place ≡ Out stub.job }
        ensures state { self.new ≡ self.old }
        ensures stub { result ≡ stub }
    {
        self.tie.show(stub)
    }

    /// Ends the event: takes back its shard, the wiring and what was divided, and stores the request that it makes. Takes no memory.
    #[inline(always)]
    pub fn settle(
        &mut self,
        vertex: usize,
        stub: Stub<Event>,
        wiring: Arc<Wiring, Global>,
        cuts: Cuts,
        shard: Box<Shard>,
        asked: Option<Request>,
    )
        requires table { stub.table ≡ self.old.side.table }
        requires wired { wiring.value ≡ stub.job.wired }
        requires vertex { vertex < length self.old.side.shards }
        requires room { 0 < self.old.request_room }
        ensures out { self.old.side.place ≡ Out stub.job }
        ensures side { self.new.side ≡ settled self.old.side vertex shard.value asked }
        ensures mail { self.new.mail_room ≡ self.old.mail_room }
    {
        self.tie.take(stub);
        self.wiring = Some(wiring);
        self.cuts = cuts;
        self.shards[vertex].put(shard);
        if let Some(request) = asked {
            self.requests.put_reserved(request);
        }
    }

    /// Abandons the event. Takes no memory.
    pub fn abandon(&mut self, stub: Stub<Event>)
        requires { stub.table ≡ self.old.side.table }
        ensures out { self.old.side.place ≡ Out stub.job }
        ensures side { self.new.side ≡ record self.old.side { place = Lost stub.job } }
        ensures mail { self.new.mail_room ≡ self.old.mail_room }
        ensures requests { self.new.request_room ≡ self.old.request_room }
    {
        self.tie.lose(stub);
        self.lost = true;
    }
}
