//! What the lock protects: the board with its counters, and the publisher of the number of passed epochs.

ghost use Rattle.std.specs.Prelude.{◌≡◌, ◌<◌, ◌≤◌, ℕ, true, IfOk, MatchBool, OnErr, OnOk, Some, length, max};
ghost use Rattle.machine.specs.Step.{Step};
ghost use Rattle.board.specs.Answers.{AnswersOnly, AnswersOr, Claims, Gathers, HasChoice, HasNoChoice, IfNothing};
ghost use Rattle.board.specs.Answers.{feed_refusal, input_refusal, seal_refusal};
ghost use Rattle.board.specs.Kept.{Goes};
ghost use Rattle.board.specs.Lateness.{Applies, IsUpToDate};
ghost use Rattle.board.specs.Looks.{IsLookAt, ShowsEachOutput, ShowsPassed};
ghost use Rattle.board.specs.Promises.{CountsPassed, HasPassedAtAll, IsDrained};
ghost use Rattle.board.specs.Shown.{tables};
ghost use Rattle.driver.specs.Ends.{Ends, IsFaultOf, event_of};
ghost use Rattle.driver.specs.Received.{received_of};
ghost use Rattle.driver.specs.Tallies.{IsTally};
ghost use Rattle.workers.specs.Held.{IsNoLater, Publishes};
ghost use Rattle.workers.specs.Names.{GivesNamed, IsNamed};

use crate::counters::Counters;
use crate::mark::{Publisher, Seat};
use board::{Board, Claimed, Look, Sent, StepRefusal, gather};
use driver::{Tally, settle};
use events::{CutBatch, Done, Work};
use path_summary::Pointstamp;
use record_core::NoMemory;
use rows::WorkFault;
use std::alloc::Global;
use std::marker::{Brand, Model, PhantomData};
use views::Views;

/// Names a board by the tables by which its events are known, by the graph that it runs, by the mark that counts its passed epochs, by the one that counts
/// the records that its vertices received, if any does, and by what it showed when its counters were 0. It has no values; `Brand` stands for the board
/// that a call is about.
pub trait Naming {
    ghost use Rattle.std.specs.Prelude.{List, Option};
    ghost use Rattle.atomic_table.specs.Seated.{TableId};
    ghost use Rattle.graph.specs.Shown.{GraphValue};
    ghost use Rattle.board.specs.Shown.{Shown};

    ghost names: { List TableId };

    ghost graph: { GraphValue };

    ghost mark: { TableId };

    ghost received: { Option TableId };

    ghost first: { Shown };
}

impl Naming for Brand {
    ghost use Rattle.std.specs.Prelude.{[], None, false};

    ghost names = { [] };

    ghost graph = { record { vertices = []; inputs = []; outputs = []; arities = [] } };

    ghost mark = { record { words = 0; slots = 0; views_name = 0; atom = 0; block = 0; offset = 0; slot_names = [] } };

    ghost received = { None };

    ghost first = { record { graph = record { vertices = []; inputs = []; outputs = []; arities = [] }; inputs = []; sides = []; emitted = []; stopped = false } };
}

/// After this many events all that waits is applied for every worker, so that what waits for one that sleeps stays short.
const EVENTS: u32 = 1024;

/// A board, its counters and its publisher. Each call makes the board's call, then applies all that waits for worker 0, and publishes what has passed.
/// `events` counts those that ended since all that waited was applied for every worker.
#[derive(Drop)]
pub struct Held<J: Naming, V: Views> {
    board: Board<V>,
    counters: Counters<J>,
    publisher: Publisher,
    events: u32,
    of: PhantomData<J>,
}

impl<J: Naming, V: Views> Model for Held<J, V> {
    ghost use Rattle.std.specs.Prelude.{◌≡◌};
    ghost use Rattle.std.specs.Coded.{codes};
    ghost use Rattle.vertices.specs.contracts.shard.Shard as shard_row;
    ghost use Rattle.std.specs.contracts.alloc.Global as heap;
    ghost use Rattle.std.specs.contracts.impls.GlobalAllocator.TheImpl as allocates;
    ghost use Rattle.expr_tree.specs.contracts.scalar.Scalar as scalar;
    ghost use Rattle.expr_tree.specs.contracts.condition.Cond as condition;
    ghost use Rattle.driver.specs.Tallies.{IsTally};
    ghost use Rattle.workers.specs.Counters.{published_by};
    ghost use Rattle.workers.specs.Held.{HeldShown, IsHeld};

    ghost Value = { HeldShown };

    ghost coded = { Prim.hlevel (
      codes,
      shard_row.the_row.coded,
      (scalar.the_row heap.the_row allocates.ghosts).coded,
      (condition.the_row heap.the_row allocates.ghosts).coded,
    ) };

    ghost view = { λ h. record { board = h.board; published = h.publisher.number; received = published_by h.counters.receipts } };

    ghost invariant = { λ h. IsHeld J.names J.graph h.board h.publisher.number × (h.publisher.table ≡ J.mark)
        × IsTally J.first h.board.shown h.counters.tally };
}

impl<J: Naming, V: Views> Held<J, V> {
    /// Publishes the epochs that have passed already. The counters go on counting commits.
    pub fn new(board: Board<V>, publisher: Publisher, counters: Counters<J>) -> Held<J, V>
        requires names { tables board.shown ≡ J.names }
        requires graph { board.shown.graph ≡ J.graph }
        requires mark { publisher.table ≡ J.mark }
        requires fresh { publisher.number ≡ 0 }
        requires counts { IsTally J.first board.shown counters.tally }
        ensures shown { result.board.shown ≡ board.shown }
        ensures applies { Applies 0 board result.board }
    {
        let mut board = board;
        let mut publisher = publisher;
        publish(&mut board, &mut publisher);
        Held {
            board,
            counters,
            publisher,
            events: 0,
            of: PhantomData,
        }
    }

    /// Calls `Board::feed_cut`, then publishes. The batch must be cut by the board's plan. Drop what is left of it after the lock is released.
    pub fn feed_cut(&mut self, cut: CutBatch) -> (Result<(), StepRefusal>, Option<CutBatch>)
        requires { cut.wired ≡ record { graph = J.graph; workers = length J.names } }
        ensures step { OnOk result.0 (Goes self.old.board.shown (Step.feed cut.input cut.batch) self.new.board.shown) }
        ensures refused { OnErr result.0 (self.new.board ≡ self.old.board) }
        ensures answers { AnswersOr (feed_refusal self.old.board.shown cut.input cut.batch) result.0 }
        ensures published { CountsPassed self.new.board.shown self.new.published }
    {
        self.board.law_stays();
        let (result, left) = self.board.feed_cut(cut);
        if let Err(refusal) = result {
            return (Err(refusal), left);
        }
        publish(&mut self.board, &mut self.publisher);
        (Ok(()), left)
    }

    /// Calls `Board::input_refusal`.
    pub fn input_refusal(&self, input: u32) -> Option<StepRefusal>
        ensures { result ≡ input_refusal self.now.board.shown input }
    {
        self.board.input_refusal(input)
    }

    /// Calls `Board::seal`, then publishes.
    pub fn seal(&mut self, input: u32) -> Result<(), StepRefusal>
        ensures step { OnOk result (Goes self.old.board.shown (Step.seal input) self.new.board.shown) }
        ensures refused { OnErr result (self.new.board ≡ self.old.board) }
        ensures answers { AnswersOr (seal_refusal self.old.board.shown input) result }
        ensures published { CountsPassed self.new.board.shown self.new.published }
    {
        self.board.law_stays();
        self.board.seal(input)?;
        publish(&mut self.board, &mut self.publisher);
        Ok(())
    }

    /// Calls `Board::close`, then publishes. Takes no memory.
    pub fn close(&mut self, input: u32) -> Result<(), StepRefusal>
        ensures step { OnOk result (Goes self.old.board.shown (Step.close input) self.new.board.shown) }
        ensures refused { OnErr result (self.new.board ≡ self.old.board) }
        ensures answers { AnswersOnly (input_refusal self.old.board.shown input) result }
        ensures published { CountsPassed self.new.board.shown self.new.published }
    {
        self.board.law_stays();
        self.board.close(input)?;
        publish(&mut self.board, &mut self.publisher);
        Ok(())
    }

    /// Merges messages of a free worker that are alike, before it claims. An exchange cuts what one worker sends into as many messages as there are
    /// workers, and a loop's body may send to one edge from several places at each turn; each message would be an event by itself.
    pub fn gather(&mut self, worker: u32)
        ensures gathers { Gathers self.old.board.shown worker self.new.board.shown }
        ensures published { CountsPassed self.new.board.shown self.new.published }
    {
        if !gather(&mut self.board, worker) {
            return;
        }
        publish(&mut self.board, &mut self.publisher);
    }

    /// Calls `Board::next_pointstamp`.
    pub fn next_pointstamp(&self, worker: u32) -> Option<Pointstamp> {
        self.board.next_pointstamp(worker)
    }

    /// Calls `Board::claim`, then publishes. Takes no memory.
    pub fn claim(&mut self, worker: u32) -> Claimed
        ensures claims { Claims self.old.board.shown self.new.board.shown worker result }
        ensures named { GivesNamed J.names result }
        ensures applies { Applies worker self.old.board self.new.board }
        ensures idle { IfNothing result (IsUpToDate self.new.board worker) }
        ensures published { CountsPassed self.new.board.shown self.new.published }
    {
        self.board.law_count();
        self.board.law_stays();
        let claimed = self.board.claim(worker);
        publish_seen(&mut self.board, &mut self.publisher);
        claimed
    }

    /// Ends an event: commits one that was computed, or abandons one that was refused, or for whose commit memory is short.
    pub fn settle(&mut self, computed: Result<Done, (Work, WorkFault)>) -> Result<Sent, WorkFault>
        requires { IsNamed J.names (event_of computed) }
        ensures ends { Ends self.old.board.shown self.new.board.shown (event_of computed) result }
        ensures fault { IsFaultOf computed result }
        ensures views { OnErr result (IsNoLater self.old.board self.new.board) }
        ensures published { CountsPassed self.new.board.shown self.new.published }
    {
        self.board.law_stays();
        match settle(&mut self.board, computed) {
            Ok(sent) => {
                self.counters.count(sent);
                publish(&mut self.board, &mut self.publisher);
                self.count_event();
                Ok(sent)
            }
            Err(fault) => {
                publish_seen(&mut self.board, &mut self.publisher);
                Err(fault)
            }
        }
    }

    /// Counts an event that ended. A worker that sleeps applies nothing by itself, so after many events all that waits is applied for every worker.
    fn count_event(&mut self)
        ensures shown { self.new.board.shown ≡ self.old.board.shown }
        ensures published { self.new.published ≡ self.old.published }
    {
        self.events = self.events.saturating_add(1);
        if self.events < EVENTS {
            return;
        }
        self.events = 0;
        for worker in 0..self.board.workers() {
            self.catch_up(worker);
        }
    }

    /// Applies all that waits for the worker.
    fn catch_up(&mut self, worker: u32)
        ensures shown { self.new.board.shown ≡ self.old.board.shown }
        ensures applies { Applies worker self.old.board self.new.board }
        ensures prompt { IsUpToDate self.new.board worker }
        ensures published { self.new.published ≡ self.old.published }
    {
        self.board.catch_up(worker);
    }

    /// The number of epochs that have passed.
    pub fn passed_count(&self) -> u64
        ensures counts { CountsPassed self.now.board.shown result }
        ensures published { result ≡ self.now.published }
    {
        self.publisher.number()
    }

    /// The number of received records that was published last.
    pub fn received_count(&self) -> u64
        ensures { result ≡ self.now.received }
    {
        self.counters.published()
    }

    /// Whether a claim of the worker would hand out an event. Applies all that waits for the worker first.
    pub fn can_claim(&mut self, worker: u32) -> bool
        ensures choice { MatchBool result (HasChoice self.old.board.shown worker) (HasNoChoice self.old.board.shown worker) }
        ensures shown { self.new.board.shown ≡ self.old.board.shown }
        ensures applies { Applies worker self.old.board self.new.board }
        ensures published { self.new.published ≡ self.old.published }
    {
        self.catch_up(worker);
        self.board.can_claim(worker)
    }

    /// Whether an event was abandoned.
    pub fn is_stopped(&self) -> bool
        ensures { result ≡ self.now.board.shown.stopped }
    {
        self.board.is_stopped()
    }

    /// Whether nothing is left to do.
    pub fn is_drained(&self) -> bool
        ensures { MatchBool result (IsDrained self.now.board.shown) (IsDrained self.now.board.shown → ⊥) }
    {
        self.board.is_drained()
    }

    /// The number of workers: 1 to 64.
    pub fn workers(&self) -> u32
        ensures { result ≡ length self.now.board.shown.sides }
    {
        self.board.workers()
    }

    /// Has an observer's seat read the mark. Below what it reads, and so below all that it had read before, every epoch has passed at every output.
    pub fn observe(&mut self, seat: &mut Seat) -> u64
        requires { seat.old.table ≡ J.mark }
        ensures held { self.new ≡ self.old }
        ensures table { seat.new.table ≡ seat.old.table }
        ensures read { (result ≡ self.new.published) × (seat.new.number ≡ result) }
        ensures rises { seat.old.number ≤ result }
        ensures counts { CountsPassed self.new.board.shown result }
        ensures passed { (epoch : ℕ) → epoch < result → HasPassedAtAll self.new.board.shown epoch }
    {
        self.board.law_count();
        self.publisher.show(seat)
    }

    /// Has an observer's seat read how many records were received, as far as published.
    pub fn observe_received(&mut self, seat: &mut Seat) -> u64
        requires { J.received ≡ Some seat.old.table }
        ensures held { self.new ≡ self.old }
        ensures table { seat.new.table ≡ seat.old.table }
        ensures read { (result ≡ self.new.received) × (seat.new.number ≡ result) }
        ensures rises { seat.old.number ≤ result }
    {
        self.counters.show(seat)
    }

    /// Calls `Board::look`. Worker 0's view is up to date, so the look shows every epoch that has passed as passed.
    pub fn look(&self, alloc: Global, epoch: u32) -> Result<Look, NoMemory>
        ensures look { IfOk result (λ l. IsLookAt self.now.board epoch l) }
        ensures prompt { IsUpToDate self.now.board 0 }
        ensures graph { IfOk result (λ l. l.graph ≡ J.graph) }
        ensures whole { IfOk result (λ l. (l.epoch ≡ epoch) × ShowsEachOutput l) }
        ensures passed { IfOk result (λ l. (n : ℕ) → CountsPassed self.now.board.shown n → epoch < n → ShowsPassed l) }
    {
        self.board.law_count();
        let look = self.board.look(alloc, epoch)?;
        Ok(look)
    }

    /// The board and its counters, once nothing shares them.
    pub fn into_parts(self) -> (Board<V>, Tally)
        ensures board { result.0 ≡ self.board }
        ensures graph { result.0.shown.graph ≡ J.graph }
        ensures passed { CountsPassed result.0.shown self.published }
        ensures known { result.0.passed ≡ self.published }
        ensures prompt { IsUpToDate result.0 0 }
        ensures counts { IsTally J.first result.0.shown result.1 }
        ensures received { self.received ≤ received_of result.1 }
    {
        let Held {
            board,
            counters,
            publisher: _,
            events: _,
            of: _,
        } = self;
        (board, counters.into_tally())
    }
}

/// Applies all that waits for worker 0, and publishes the number of passed epochs.
fn publish<V: Views>(board: &mut Board<V>, publisher: &mut Publisher)
    ensures shown { board.new.shown ≡ board.old.shown }
    ensures applies { Applies 0 board.old board.new }
    ensures table { publisher.new.table ≡ publisher.old.table }
    ensures publishes { Publishes publisher.old.number board.new publisher.new.number }
{
    board.catch_up(0);
    publish_seen(board, publisher);
}

/// Publishes the number of epochs that have passed as worker 0 sees it.
fn publish_seen<V: Views>(board: &mut Board<V>, publisher: &mut Publisher)
    ensures shown { board.new.shown ≡ board.old.shown }
    ensures kept { board.new ≡ record board.old { passed = board.new.passed } }
    ensures rises { board.old.passed ≤ board.new.passed }
    ensures table { publisher.new.table ≡ publisher.old.table }
    ensures publishes { IsUpToDate board.old 0 → Publishes publisher.old.number board.new publisher.new.number }
{
    publisher.publish(board.passed_count());
}
