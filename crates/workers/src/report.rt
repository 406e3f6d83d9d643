//! The result of a run.

ghost use Rattle.std.specs.Prelude.{◌≡◌, ◌≤◌, ◌<◌, ℕ, [], All, MatchBool, Some, length, slice_index_or};
ghost use Rattle.graph.specs.Shown.{shown_graph};
ghost use Rattle.semantics.specs.Graph.{input_count, output_number, output_numbers};
ghost use Rattle.semantics.specs.Query.{Program};
ghost use Rattle.board.specs.Promises.{CountsPassed, HasPassed, IsDrained, IsOutputPlace, KeepsPromise, RunsProgram};
ghost use Rattle.board.specs.Shown.{emitted_by, input_at};
ghost use Rattle.driver.specs.Received.{received_of};
ghost use Rattle.driver.specs.Tallies.{IsTally};

use crate::engine::Engine;
use crate::held::{Held, Naming};
use crate::mark::Seat;
use board::Board;
use driver::Tally;
use graph::Graph;
use rows::Batch;
use std::marker::Model;
use views::Views;

/// What a finished engine shows: its board, on which no thread works.
#[derive(Drop)]
pub struct Report<V: Views> {
    board: Board<V>,
}

impl<V: Views> Model for Report<V> {
    ghost use Rattle.std.specs.Coded.{codes};
    ghost use Rattle.vertices.specs.contracts.shard.Shard as shard_row;
    ghost use Rattle.std.specs.contracts.alloc.Global as heap;
    ghost use Rattle.std.specs.contracts.impls.GlobalAllocator.TheImpl as allocates;
    ghost use Rattle.expr_tree.specs.contracts.scalar.Scalar as scalar;
    ghost use Rattle.expr_tree.specs.contracts.condition.Cond as condition;
    ghost use Rattle.board.specs.Lateness.{IsUpToDate};
    ghost use Rattle.board.specs.Promises.{CountsPassed};
    ghost use Rattle.board.specs.Shown.{Shown};

    ghost Value = { Shown };

    ghost coded = { Prim.hlevel (
      codes,
      shard_row.the_row.coded,
      (scalar.the_row heap.the_row allocates.ghosts).coded,
      (condition.the_row heap.the_row allocates.ghosts).coded,
    ) };

    ghost view = { λ r. r.board.shown };

    ghost invariant = { λ r. IsUpToDate r.board 0 × CountsPassed r.board.shown r.board.passed };
}

impl<V: Views> Report<V> {
    /// Whether every input is closed, nothing waits, and no event is held or abandoned.
    pub fn drained(&self) -> bool
        ensures { MatchBool result (IsDrained self.now) (IsDrained self.now → ⊥) }
    {
        self.board.is_drained()
    }

    /// Whether an event was abandoned.
    pub fn stopped(&self) -> bool
        ensures { result ≡ self.now.stopped }
    {
        self.board.is_stopped()
    }

    /// The number of epochs that have passed.
    pub fn passed(&self) -> u64
        ensures { CountsPassed self.now result }
    {
        self.board.known_passed()
    }

    /// The graph that was run.
    pub fn graph(&self) -> &Graph
        ensures { result.now ≡ self.now.graph }
    {
        self.board.graph()
    }

    /// The batches that were fed to an input for an epoch, in order; none if there is no such input.
    pub fn fed(&self, input: u32, epoch: u32) -> &[Batch]
        ensures { result.now ≡ slice_index_or (input_at self.now input).fed epoch [] }
    {
        self.board.fed(input, epoch)
    }

    /// The number of outputs.
    pub fn output_count(&self) -> u32
        ensures { result ≡ length (output_numbers (shown_graph self.now.graph)) }
    {
        self.board.output_count()
    }

    /// The batches that were emitted at an output for an epoch, in order. The output is given by its place.
    pub fn emitted(&self, output: u32, epoch: u32) -> &[Batch]
        requires { IsOutputPlace self.now output }
        ensures { result.now ≡ slice_index_or (emitted_by self.now.emitted (output_number (shown_graph self.now.graph) output)) epoch [] }
    {
        self.board.emitted(output, epoch)
    }

    /// The promise holds at each output, whatever program was run. Nothing is done.
    pub fn law_headline(&self)
        ensures { (p : Program) → RunsProgram p self.now → KeepsPromise p self.now }
    {
        self.board.law_headline();
    }

    /// There are as many inputs as in the graph. Nothing is done.
    pub fn law_inputs(&self)
        ensures { length self.now.inputs ≡ input_count (shown_graph self.now.graph) }
    {
        self.board.law_inputs();
    }

    /// If nothing is left to do, every epoch has passed at every output. Nothing is done.
    pub fn law_drained(&self)
        ensures { IsDrained self.now → (output epoch : ℕ) → HasPassed self.now output epoch }
    {
        self.board.law_drained();
    }
}

/// Ends a run of a board that was under no lock.
pub fn report_of<V: Views>(board: Board<V>) -> Report<V>
    ensures { result ≡ board.shown }
{
    let mut board = board;
    board.catch_up(0);
    let _passed = board.passed_count();
    Report { board }
}

/// Ends a run, once no thread shares the engine. None of the observers' seats has read more epochs than have passed.
pub fn finish<J: Naming, V: Views>(engine: Engine<J, V>, seats: Vec<Seat>) -> Report<V>
    requires { All (λ s. s.table ≡ J.mark) seats.items }
    ensures graph { result.graph ≡ J.graph }
    ensures seats { (n : ℕ) → CountsPassed result n → All (λ s. s.number ≤ n) seats.items }
{
    let mut held = engine.into_held();
    observe_all(&mut held, seats);
    let (report, _tally) = report_on(held);
    report
}

/// The same, with the counters, which say what was done since they were 0. None of the seats at the mark of received records has read more than they say.
pub fn finish_counting<J: Naming, V: Views>(
    engine: Engine<J, V>,
    seats: Vec<Seat>,
    received: Vec<Seat>,
) -> (Report<V>, Tally)
    requires seats { All (λ s. s.table ≡ J.mark) seats.items }
    requires received { All (λ s. J.received ≡ Some s.table) received.items }
    ensures graph { result.0.graph ≡ J.graph }
    ensures seats { (n : ℕ) → CountsPassed result.0 n → All (λ s. s.number ≤ n) seats.items }
    ensures received { All (λ s. s.number ≤ received_of result.1) received.items }
    ensures counts { IsTally J.first result.0 result.1 }
{
    let mut held = engine.into_held();
    observe_all(&mut held, seats);
    observe_all_received(&mut held, received);
    report_on(held)
}

/// The report and the counters. What was published is at most what they say.
fn report_on<J: Naming, V: Views>(held: Held<J, V>) -> (Report<V>, Tally)
    ensures graph { result.0.graph ≡ J.graph }
    ensures published { (n : ℕ) → CountsPassed result.0 n → held.published ≡ n }
    ensures received { held.received ≤ received_of result.1 }
    ensures counts { IsTally J.first result.0 result.1 }
{
    let (board, tally) = held.into_parts();
    board.law_count();
    (Report { board }, tally)
}

/// Has each seat read the mark once more.
fn observe_all<J: Naming, V: Views>(held: &mut Held<J, V>, seats: Vec<Seat>)
    requires { All (λ s. s.table ≡ J.mark) seats.items }
    ensures held { held.new ≡ held.old }
    ensures seats { All (λ s. s.number ≤ held.old.published) seats.items }
{
    for seat in seats {
        observe(held, seat);
    }
}

/// Has the seat read the mark once more.
fn observe<J: Naming, V: Views>(held: &mut Held<J, V>, mut seat: Seat)
    requires { seat.table ≡ J.mark }
    ensures held { held.new ≡ held.old }
    ensures seat { seat.number ≤ held.old.published }
{
    let _passed = held.observe(&mut seat);
}

/// Has each seat at the mark of received records read it once more.
fn observe_all_received<J: Naming, V: Views>(held: &mut Held<J, V>, seats: Vec<Seat>)
    requires { All (λ s. J.received ≡ Some s.table) seats.items }
    ensures held { held.new ≡ held.old }
    ensures seats { All (λ s. s.number ≤ held.old.received) seats.items }
{
    for seat in seats {
        observe_received(held, seat);
    }
}

/// Has the seat at the mark of received records read it once more.
fn observe_received<J: Naming, V: Views>(held: &mut Held<J, V>, mut seat: Seat)
    requires { J.received ≡ Some seat.table }
    ensures held { held.new ≡ held.old }
    ensures seat { seat.number ≤ held.old.received }
{
    let _received = held.observe_received(&mut seat);
}
