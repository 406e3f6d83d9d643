//! What a board holds besides its views. A method that is refused leaves it showing the same as before.

ghost use Rattle.std.specs.Prelude.{◌≡◌, ◌≢◌, ◌+◌, ◌<◌, ◌≤◌, ℕ, [], length, map, slice_index_or, None, MatchBool, OnOk, OnErr, IfOk, IfErr, IfSome, IfNone};
ghost use Rattle.semantics.specs.Could.{Pointstamp as Active};
ghost use Rattle.semantics.specs.Graph.{input_count, output_number, output_numbers, target, Graph as Definition};
ghost use Rattle.semantics.specs.Limits.{max_workers};
ghost use Rattle.tokens.specs.declared.rule.Place.TheVariants.{Home, Out};
ghost use Rattle.board.specs.Claims.{HandsMessage, HandsRequest, MergesMail};
ghost use Rattle.graph.specs.Locations.{IsIn, location_of};
ghost use Rattle.graph.specs.Shown.{shown_graph};
ghost use Rattle.graph.specs.Limits.{max_vertices};
ghost use Rattle.board.specs.Answers.{input_refusal};
ghost use Rattle.board.specs.Commits.{FeedsBy, IsOf, SettlesBy};
ghost use Rattle.board.specs.Counting.{TellsCommit};
ghost use Rattle.board.specs.WorkerShown.{is_out};
ghost use Rattle.board.specs.Forgetting.{ForgetsAt, MayForget};
ghost use Rattle.board.specs.Fresh.{IsNew};
ghost use Rattle.board.specs.Kept.{IsKept};
ghost use Rattle.board.specs.Merging.{AreAlike, window};
ghost use Rattle.board.specs.WorkerShown.{AreClosed, AreIdle};
ghost use Rattle.board.specs.Promises.{IsDrained, IsOutputPlace};
ghost use Rattle.board.specs.Seals.{IsMostSeals};
ghost use Rattle.board.specs.Shown.{emitted_by, input_at, location_vertex, side_at};
ghost use Rattle.board.specs.Steps.{after_abandon, after_close, after_seal, with_emitted};

use crate::delivery::{deliver, finish, note_letters, prepare, prepare_views, reserve_letters};
use crate::emitted::Emitted;
use crate::epochs::Batches;
use crate::inputs::Input;
use crate::look::{share_batches, share_fed};
use crate::new_parts::{new_inputs, new_workers};
use crate::order::{due_before, next_place};
use crate::refusal::StepRefusal;
use crate::sent::Sent;
use crate::worker::Worker;
use events::{CutBatch, Done, Event, Output, Request, Wiring, Work};
use exchange::Mailbox;
use graph::{Graph, Location, VertexId};
use path_summary::Pointstamp;
use record_core::NoMemory;
use rows::Batch;
use std::alloc::{AllocError, Global};
use std::marker::Model;
use std::sync::Arc;
use tokens::tie::Stub;
use views::Views;

/// The graph, its inputs, the workers, and what was emitted.
#[derive(Drop)]
pub struct State {
    wiring: Arc<Wiring, Global>,
    inputs: Vec<Input>,
    workers: Vec<Worker>,
    emitted: Emitted,
    stopped: bool,
}

impl Model for State {
    ghost use Rattle.std.specs.Coded.{codes};
    ghost use Rattle.vertices.specs.contracts.shard.Shard as shard_row;
    ghost use Rattle.std.specs.contracts.alloc.Global as heap;
    ghost use Rattle.std.specs.contracts.impls.GlobalAllocator.TheImpl as allocates;
    ghost use Rattle.expr_tree.specs.contracts.scalar.Scalar as scalar;
    ghost use Rattle.expr_tree.specs.contracts.condition.Cond as condition;
    ghost use Rattle.std.specs.Prelude.{◌≡◌, length};
    ghost use Rattle.board.specs.Shown.{Shown};
    ghost use Rattle.board.specs.WorkerShown.{sides_of};

    ghost Value = { Shown };

    ghost coded = { Prim.hlevel (
      codes,
      shard_row.the_row.coded,
      (scalar.the_row heap.the_row allocates.ghosts).coded,
      (condition.the_row heap.the_row allocates.ghosts).coded,
    ) };

    ghost view = { λ s. record {
      graph = s.wiring.value.graph;
      inputs = s.inputs.items;
      sides = sides_of s.workers.items;
      emitted = s.emitted;
      stopped = s.stopped;
    } };

    ghost invariant = { λ s. s.wiring.value.workers ≡ length s.workers.items };
}

impl State {
    /// A new state of a graph and that many workers, with nothing done yet.
    pub fn opening(alloc: Global, graph: Arc<Graph, Global>, count: u32) -> Result<State, NoMemory>
        requires some { 0 < count }
        requires few { count ≤ max_workers }
        ensures { IfOk result (λ s. IsNew graph.value count s) }
    {
        let inputs = new_inputs(alloc, graph.input_count())?;
        let emitted = Emitted::new(alloc, graph.vertex_count())?;
        let Ok(plan) = Wiring::of(alloc, graph, count) else {
            return Err(NoMemory);
        };
        let wiring = Arc::new(alloc, plan)?;
        let workers = new_workers(alloc, &wiring, count)?;
        Ok(State {
            wiring,
            inputs,
            workers,
            emitted,
            stopped: false,
        })
    }

    pub fn is_stopped(&self) -> bool
        ensures { result ≡ self.now.stopped }
    {
        self.stopped
    }

    /// The reason why any call on that input is refused.
    pub fn input_refusal(&self, input: u32) -> Option<StepRefusal>
        ensures { result ≡ input_refusal self.now input }
    {
        if self.stopped {
            return Some(StepRefusal::Stopped);
        }
        match self.inputs.get(input as usize) {
            None => Some(StepRefusal::UnknownInput),
            Some(state) if state.is_closed() => Some(StepRefusal::InputClosed),
            Some(_) => None,
        }
    }

    pub fn graph(&self) -> &Graph
        ensures { result.now ≡ self.now.graph }
    {
        self.wiring.graph()
    }

    /// The number of outputs.
    pub fn output_count(&self) -> usize
        ensures value { result ≡ length (output_numbers (shown_graph self.now.graph)) }
        ensures few { result ≤ max_vertices }
    {
        let graph = self.wiring.graph();
        let _few = graph.vertex_count();
        graph.outputs().len()
    }

    /// The vertex of an output, by its place.
    #[inline(always)]
    pub fn output(&self, place: usize) -> VertexId
        requires { IsOutputPlace self.now place }
        ensures { result.0 ≡ output_number (shown_graph self.now.graph) place }
    {
        self.wiring.graph().outputs()[place].vertex
    }

    /// The greatest number of seals of any input.
    #[inline(always)]
    pub fn seals(&self) -> u32
        ensures { IsMostSeals self.now result }
    {
        let mut most = 0;
        for input in &self.inputs {
            if most < input.open_epoch() {
                most = input.open_epoch();
            }
        }
        most
    }

    /// Whether every input is closed, nothing waits, and no event is out or abandoned.
    pub fn is_drained(&self) -> bool
        ensures { MatchBool result (IsDrained self.now) (IsDrained self.now → ⊥) }
    {
        self.are_closed() && self.are_idle()
    }

    /// Whether every input is closed.
    fn are_closed(&self) -> bool
        ensures { MatchBool result (AreClosed self.now) (AreClosed self.now → ⊥) }
    {
        for input in &self.inputs {
            if !input.is_closed() {
                return false;
            }
        }
        true
    }

    /// Whether every worker is idle.
    fn are_idle(&self) -> bool
        ensures { MatchBool result (AreIdle self.now) (AreIdle self.now → ⊥) }
    {
        for worker in &self.workers {
            if !worker.is_idle() {
                return false;
            }
        }
        true
    }

    /// The open epoch of an input.
    pub fn open_epoch(&self, input: usize) -> u32
        requires { input < length self.now.inputs }
        ensures { result ≡ (input_at self.now input).open_epoch }
    {
        self.inputs[input].open_epoch()
    }

    /// Ends the open epoch of an input, and opens the next.
    pub fn seal(&mut self, input: usize)
        requires there { input < length self.old.inputs }
        requires more { (input_at self.old input).open_epoch < 4294967295 }
        ensures { self.new ≡ after_seal self.old input }
    {
        self.inputs[input].seal();
    }

    /// Closes an input.
    pub fn close(&mut self, input: usize)
        requires { input < length self.old.inputs }
        ensures { self.new ≡ after_close self.old input }
    {
        self.inputs[input].close();
    }

    pub fn has_worker(&self, worker: usize) -> bool
        ensures { MatchBool result (worker < length self.now.sides) (length self.now.sides ≤ worker) }
    {
        worker < self.workers.len()
    }

    /// Whether no event of the worker is out or abandoned.
    #[inline(always)]
    pub fn is_free(&self, worker: usize) -> bool
        requires { worker < length self.now.sides }
        ensures { MatchBool result ((side_at self.now worker).place ≡ Home) ((side_at self.now worker).place ≢ Home) }
    {
        self.workers[worker].is_free()
    }

    /// Whether the worker holds an event that isn't abandoned.
    pub fn is_holding(&self, worker: usize) -> bool
        requires { worker < length self.now.sides }
        ensures { result ≡ is_out (side_at self.now worker).place }
    {
        self.workers[worker].is_holding()
    }

    /// The number of workers.
    pub fn worker_count(&self) -> u32
        ensures { result ≡ length self.now.sides }
    {
        self.wiring.workers()
    }

    /// What was emitted at an output for an epoch; nothing if the epoch has no entry.
    pub fn emitted(&self, output: usize, epoch: u32) -> &[Batch]
        requires { IsOutputPlace self.now output }
        ensures { result.now ≡ slice_index_or (emitted_by self.now.emitted (output_number (shown_graph self.now.graph) output)) epoch [] }
    {
        self.emitted.at(self.output(output).0 as usize, epoch)
    }

    /// What was fed to an input for an epoch; nothing if the input or the epoch has no entry.
    pub fn fed(&self, input: u32, epoch: u32) -> &[Batch]
        ensures { result.now ≡ slice_index_or (input_at self.now input).fed epoch [] }
    {
        match self.inputs.get(input as usize) {
            Some(state) => state.fed().at(epoch),
            None => &[],
        }
    }

    pub fn wiring(&self) -> &Arc<Wiring, Global>
        ensures { result.now.value ≡ record { graph = self.now.graph; workers = length self.now.sides } }
    {
        &self.wiring
    }

    /// The wiring, shared.
    pub fn share_wiring(&self) -> Result<Arc<Wiring, Global>, NoMemory>
        ensures { IfOk result (λ w. w.value ≡ record { graph = self.now.graph; workers = length self.now.sides }) }
    {
        let wiring = Arc::try_clone(&self.wiring)?;
        Ok(wiring)
    }

    /// What was fed to each input for an epoch, shared.
    pub fn share_fed(&self, alloc: Global, epoch: u32) -> Result<Vec<Batches>, NoMemory>
        ensures { IfOk result (λ fed. fed.items ≡ map (λ i. slice_index_or i.fed epoch []) self.now.inputs) }
    {
        let fed = share_fed(alloc, &self.inputs, epoch)?;
        Ok(fed)
    }

    /// What was emitted at an output for an epoch, shared.
    pub fn share_emitted(
        &self,
        alloc: Global,
        output: usize,
        epoch: u32,
    ) -> Result<Batches, NoMemory>
        requires { IsOutputPlace self.now output }
        ensures { IfOk result (λ emitted. emitted ≡ slice_index_or (emitted_by self.now.emitted (output_number (shown_graph self.now.graph) output)) epoch []) }
    {
        let emitted = share_batches(alloc, self.emitted(output, epoch))?;
        Ok(emitted)
    }

    /// The place of the message that the worker takes next; `None` if none waits.
    #[inline(always)]
    pub fn next_message(&self, worker: usize) -> Option<usize>
        requires { worker < length self.now.sides }
        ensures there { IfSome result (λ at. at < length (side_at self.now worker).mail) }
        ensures none { IfNone result (length (side_at self.now worker).mail ≡ 0) }
    {
        let mailbox = self.workers[worker].mailbox();
        if mailbox.len() == 0 {
            return None;
        }
        Some(next_place(self.wiring.graph().edges(), mailbox))
    }

    /// The pointstamp of the message that the worker takes next, or of a request that comes before it; without messages, of the request that has
    /// waited longest.
    pub fn next_pointstamp(&self, worker: usize) -> Option<Pointstamp>
        requires { worker < length self.now.sides }
    {
        let requests = self.workers[worker].requests();
        let Some(place) = self.next_message(worker) else {
            if requests.len() == 0 {
                return None;
            }
            return Some(place_of(requests.get(0)));
        };
        let message = self.workers[worker].mailbox().get(place);
        match due_before(message, requests) {
            Some(due) => Some(place_of(requests.get(due))),
            None => Some(Pointstamp::new(message.time().copied(), Location::Edge(message.edge()))),
        }
    }

    /// The place of a request at an earlier turn of the loop of the message that the worker takes next, or at an earlier epoch outside loops.
    #[inline(always)]
    pub fn due(&self, worker: usize) -> Option<usize>
        requires { worker < length self.now.sides }
        ensures { IfSome result (λ at. at < length (side_at self.now worker).requests) }
    {
        let worker = &self.workers[worker];
        let mailbox = worker.mailbox();
        if mailbox.len() == 0 || worker.requests().len() == 0 {
            return None;
        }
        let next = next_place(self.wiring.graph().edges(), mailbox);
        due_before(mailbox.get(next), worker.requests())
    }

    /// How many messages wait for the worker.
    pub fn mail_count(&self, worker: usize) -> usize
        requires { worker < length self.now.sides }
        ensures { result ≡ length (side_at self.now worker).mail }
    {
        self.workers[worker].mailbox().len()
    }

    /// Whether the message at that place behind the worker's first one is like it, and both are small. It decides only how many events there are.
    pub fn is_worth_merging(&self, worker: usize, place: usize) -> bool
        requires { worker < length self.now.sides }
    {
        let mailbox = self.workers[worker].mailbox();
        let behind = place.saturating_add(1);
        behind < mailbox.len() && mailbox.get(0).is_worth_merging(mailbox.get(behind))
    }

    /// The first place, from `from` on and within the window, of a message that is like the worker's first.
    #[inline(always)]
    pub fn next_alike(&self, worker: usize, from: usize) -> Option<usize>
        requires { worker < length self.now.sides }
        ensures found { IfSome result (λ at. (from ≤ at) × AreAlike (side_at self.now worker).mail at) }
        ensures none { IfNone result ((at : ℕ) → from ≤ at → at < window → AreAlike (side_at self.now worker).mail at → ⊥) }
    {
        self.workers[worker].next_alike(from)
    }

    /// The worker's requests.
    pub fn requests(&self, worker: usize) -> &Mailbox<Request>
        requires { worker < length self.now.sides }
        ensures { result.now.messages ≡ (side_at self.now worker).requests }
    {
        self.workers[worker].requests()
    }

    /// Feeds a batch at the open epoch of its input, and notes what becomes active. If memory runs out, nothing changes, and the batch comes back.
    pub fn feed<V: Views>(
        &mut self,
        views: &mut V,
        added: &mut Vec<Pointstamp>,
        cut: CutBatch,
    ) -> Result<(), CutBatch>
        requires there { cut.input < length self.old.inputs }
        requires own { cut.wired ≡ record { graph = self.old.graph; workers = length self.old.sides } }
        ensures feeds { OnOk result (FeedsBy self.old self.new added.new.items cut.input cut.batch) }
        ensures room { OnOk result (length added.new.items + input_count (shown_graph self.old.graph) ≤ V.room views.new) }
        ensures state { OnErr result (self.new ≡ self.old) }
        ensures graph { V.graph views.new ≡ V.graph views.old }
        ensures workers { V.workers views.new ≡ V.workers views.old }
        ensures content { (q : Active) → V.content views.new q ≡ V.content views.old q }
        ensures waiting { (worker sender : ℕ) → V.waiting views.new worker sender ≡ V.waiting views.old worker sender }
        ensures behind { (worker sender : ℕ) → V.behind views.new worker sender ≡ V.behind views.old worker sender }
        ensures kept { V.room views.old ≤ V.room views.new }
    {
        let mut cut = cut;
        let number = cut.input() as usize;
        cut.set_epoch(self.inputs[number].open_epoch());
        cut.law_of_letters();
        let Ok(batch) = cut.batch().share() else {
            return Err(cut);
        };
        let closing = self.wiring.graph().input_count() as u32;
        let count = cut.letters().len() as u32;
        if prepare_views(views, added, count, closing).is_err() {
            return Err(cut);
        }
        if reserve_letters(&mut self.workers, cut.letters()).is_err() {
            return Err(cut);
        }
        if self.inputs[number].feed(batch).is_err() {
            return Err(cut);
        }
        note_letters(added, cut.letters());
        deliver(&mut self.workers, cut.into_letters());
        Ok(())
    }

    /// Merges the message at that place behind the worker's first into the first, if both are on one edge at one time and memory allows, and gives
    /// the pointstamp of the second. Otherwise nothing changes.
    pub fn merge(&mut self, worker: usize, place: usize) -> Option<Pointstamp>
        requires { worker < length self.old.sides }
        ensures merges { IfSome result (λ ends. MergesMail self.old self.new worker place ends) }
        ensures same { IfNone result (self.new ≡ self.old) }
    {
        self.workers[worker].merge(place)
    }

    /// A time of which the shard of a message's vertex keeps something that it may let go, at that vertex, and that may have passed.
    #[inline(always)]
    pub fn earlier(&self, worker: usize, place: usize) -> Option<Pointstamp>
        requires there { worker < length self.now.sides }
        requires free { (side_at self.now worker).place ≡ Home }
        requires some { place < length (side_at self.now worker).mail }
        requires kept { (graph : Definition) × (content : Active → ℕ) × IsKept graph content self.now }
        ensures { IfSome result (λ p. MayForget self.now worker p) }
    {
        let worker = &self.workers[worker];
        let message = worker.mailbox().get(place);
        let depth = message.time().depth();
        let vertex = self.wiring.graph().edge(message.edge()).target;
        match worker.earlier(vertex.0 as usize, message.time()) {
            Some(time) if time.depth() == depth => {
                Some(Pointstamp::new(time, Location::Vertex(vertex)))
            }
            Some(_) => None,
            None => None,
        }
    }

    /// Lets the worker's shard of a vertex go of what it keeps of a time.
    #[inline(always)]
    pub fn forget(&mut self, worker: usize, passed: &Pointstamp)
        requires there { worker < length self.old.sides }
        requires may { MayForget self.old worker passed.now }
        requires kept { (graph : Definition) × (content : Active → ℕ) × IsKept graph content self.old }
        ensures { ForgetsAt self.old self.new worker passed.now }
    {
        match passed.location() {
            Location::Vertex(vertex) => {
                self.workers[worker].forget(vertex.0 as usize, passed.time());
            }
            Location::Edge(_) => unreachable!(),
        }
    }

    /// Hands out a message. Takes no memory.
    #[inline(always)]
    pub fn claim_message(&mut self, worker: usize, place: usize) -> Work
        requires there { worker < length self.old.sides }
        requires free { (side_at self.old worker).place ≡ Home }
        requires some { place < length (side_at self.old worker).mail }
        requires few { worker < max_workers }
        requires kept { (graph : Definition) × (content : Active → ℕ) × IsKept graph content self.old }
        ensures hands { HandsMessage self.old self.new worker place result.0 }
        ensures whole { result.1 ≡ None }
    {
        let edge = self.workers[worker].mailbox().get(place).edge();
        let vertex = self.wiring.graph().edge(edge).target;
        let (event, stub) = self.workers[worker].send_message(place, vertex.0 as usize);
        Work::new(worker as u32, event, stub)
    }

    /// Hands out a request. Takes no memory.
    #[inline(always)]
    pub fn claim_request(&mut self, worker: usize, place: usize) -> Work
        requires there { worker < length self.old.sides }
        requires free { (side_at self.old worker).place ≡ Home }
        requires some { place < length (side_at self.old worker).requests }
        requires few { worker < max_workers }
        requires kept { (graph : Definition) × (content : Active → ℕ) × IsKept graph content self.old }
        ensures hands { HandsRequest self.old self.new worker place result.0 }
        ensures whole { result.1 ≡ None }
    {
        let vertex = self.workers[worker].requests().get(place).vertex;
        let (event, stub) = self.workers[worker].send_request(place, vertex.0 as usize);
        Work::new(worker as u32, event, stub)
    }

    /// Abandons the event, and stops the board for good. Takes no memory.
    pub fn abandon(&mut self, worker: usize, stub: Stub<Event>)
        requires there { worker < length self.old.sides }
        requires table { stub.table ≡ (side_at self.old worker).table }
        ensures out { (side_at self.old worker).place ≡ Out stub.job }
        ensures state { self.new ≡ after_abandon self.old worker stub.job }
    {
        self.workers[worker].abandon(stub);
        self.stopped = true;
    }

    /// Ends the event, notes what becomes active, and gives the event's pointstamp and what it sends. If memory runs out, nothing changes, and the
    /// event comes back whole.
    #[inline(always)]
    pub fn commit<V: Views>(
        &mut self,
        views: &mut V,
        added: &mut Vec<Pointstamp>,
        done: Done,
    ) -> Result<(Pointstamp, Sent), Done>
        requires own { IsOf self.old done }
        requires kept { IsKept (V.graph views.old) (V.content views.old) self.old }
        ensures settles { IfOk result (λ ended. SettlesBy self.old self.new added.new.items ended.0 done) }
        ensures tells { IfOk result (λ ended. TellsCommit self.old self.new done ended.1) }
        ensures room { OnOk result (length added.new.items + 1 + input_count (shown_graph self.old.graph) ≤ V.room views.new) }
        ensures same { OnErr result (self.new ≡ self.old) }
        ensures back { IfErr result (λ back. back ≡ done) }
        ensures graph { V.graph views.new ≡ V.graph views.old }
        ensures workers { V.workers views.new ≡ V.workers views.old }
        ensures content { (q : Active) → V.content views.new q ≡ V.content views.old q }
        ensures waiting { (worker sender : ℕ) → V.waiting views.new worker sender ≡ V.waiting views.old worker sender }
        ensures behind { (worker sender : ℕ) → V.behind views.new worker sender ≡ V.behind views.old worker sender }
        ensures kept { V.room views.old ≤ V.room views.new }
    {
        let number = done.worker();
        let worker = number as usize;
        let (stub, output) = done.into_parts();
        let stub = self.workers[worker].show(stub);
        let closing = self.wiring.graph().input_count() as u32;
        let count = output.sent.len() as u32 + 1;
        if prepare_views(views, added, count, closing).is_err() {
            return Err(Done::from_parts(number, stub, output));
        }
        if prepare(&mut self.workers, worker, &output.sent).is_err() {
            return Err(Done::from_parts(number, stub, output));
        }
        let vertex = vertex_at(self.wiring.graph(), output.place.location());
        let epoch = output.place.time().epoch();
        match emit(&mut self.emitted, vertex, epoch, output) {
            Ok(output) => {
                let sends = Sent::of(&output.sent);
                let sent = sends.of_event(number, vertex, output.received);
                let place = finish(&mut self.workers, added, worker, vertex, stub, output);
                Ok((place, sent))
            }
            Err(output) => Err(Done::from_parts(number, stub, output)),
        }
    }
}

/// The vertex of a location.
#[inline(always)]
fn vertex_at(graph: &Graph, location: Location) -> usize
    requires { IsIn (shown_graph graph.now) (location_of location) }
    ensures { result ≡ location_vertex (shown_graph graph.now) (location_of location) }
{
    match location {
        Location::Edge(edge) => graph.edge(edge).target.0 as usize,
        Location::Vertex(vertex) => vertex.0 as usize,
    }
}

/// Stores what is emitted. If memory runs out, it comes back.
#[inline(always)]
fn emit(emitted: &mut Emitted, vertex: usize, epoch: u32, output: Output) -> Result<Output, Output>
    requires { vertex < length emitted.old }
    ensures ok { IfOk result (λ o. emitted.new ≡ with_emitted vertex epoch output.emitted emitted.old) }
    ensures rest { IfOk result (λ o. record o { emitted = output.emitted } ≡ output) }
    ensures same { OnErr result (emitted.new ≡ emitted.old) }
    ensures back { IfErr result (λ o. o ≡ output) }
{
    let mut output = output;
    match emitted.add_some(vertex, epoch, output.emitted.take()) {
        Ok(()) => Ok(output),
        Err(batch) => {
            output.emitted = batch;
            Err(output)
        }
    }
}

/// The pointstamp of a request.
fn place_of(request: &Request) -> Pointstamp {
    Pointstamp::new(request.time.copied(), Location::Vertex(request.vertex))
}
