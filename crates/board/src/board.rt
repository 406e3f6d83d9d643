//! The board: the core state of a run.

ghost use Rattle.std.specs.Prelude.{◌≡◌, ◌⊎◌, ◌↔◌, ◌-◌, ◌^◌, ◌<◌, ◌≤◌, ℕ, [], length, min, slice_index_or};
ghost use Rattle.std.specs.Prelude.{false, None, IfOk, IfSome, IfNone, IsTrue, MatchBool, OnOk, OnErr};
ghost use Rattle.graph.specs.Shown.{shown_graph};
ghost use Rattle.semantics.specs.Could.{Pointstamp as Active, at_vertex};
ghost use Rattle.views.specs.Opening.{active_at_first};
ghost use Rattle.semantics.specs.Graph.{input_count, output_number, output_numbers};
ghost use Rattle.semantics.specs.Query.{Program};
ghost use Rattle.semantics.specs.Time.{at_epoch};
ghost use Rattle.machine.specs.Step.{Step};
ghost use Rattle.machine.specs.World.{opening};
ghost use Rattle.semantics.specs.Limits.{max_workers};
ghost use Rattle.board.specs.Answers.{AnswersOnly, AnswersOr, Claims, Commits, Hands, HasChoice, HasNoChoice, Holds, IfNothing, Merges, feed_refusal, input_refusal, seal_refusal};
ghost use Rattle.board.specs.Kept.{Goes};
ghost use Rattle.board.specs.Forgetting.{KeepsLess};
ghost use Rattle.board.specs.Merging.{AreAlike, window};
ghost use Rattle.board.specs.Overflow.{DoesOverflow, NeverOverflows};
ghost use Rattle.board.specs.Commits.{IsOf};
ghost use Rattle.board.specs.Counting.{TellsCommit};
ghost use Rattle.events.specs.Jobs.{Pass};
ghost use Rattle.events.specs.TooMany.{CountsFit, CountsOver};
ghost use Rattle.tokens.specs.declared.rule.Place.TheVariants.{Home};
ghost use Rattle.board.specs.WorkerShown.{is_out};
ghost use Rattle.board.specs.Lateness.{Applies, AppliesOne, AreUpToDate, CallsPassed, IsAsLate, IsUpToDate, KeepsCalled, Posts, PostsSome, all_waits, waits_for};
ghost use Rattle.board.specs.Looks.{AreOutputLooks, IsLookAt};
ghost use Rattle.board.specs.Picks.{Picks};
ghost use Rattle.board.specs.Promises.{CountsPassed, HasPassed, HasPassedAtAll, IsDrained, IsOpening, IsOutputPlace, KeepsPromise, RunsProgram};
ghost use Rattle.board.specs.Reached.{IsReached};
ghost use Rattle.board.specs.Seals.{IsFirstUncalled};
ghost use Rattle.board.specs.Showing.{Shows};
ghost use Rattle.board.specs.Shown.{Shown, emitted_by, input_at, side_at, tables};

use crate::choices::kth_deliverable;
use crate::claimed::{Claimed, CommitRefusal};
use crate::frontier::{first_deliverable, first_seen, may_deliver};
use crate::lag::Lag;
use crate::look::{Look, OutputLook};
use crate::passed::{is_past, passed_now};
use crate::posting::{post, post_noted};
use crate::refusal::StepRefusal;
use crate::sent::Sent;
use crate::state::State;
use events::{CutBatch, Done, Wiring, Work};
use graph::{Graph, Location, VertexId};
use loop_context::Time;
use path_summary::Pointstamp;
use record_core::NoMemory;
use rows::Batch;
use std::alloc::Global;
use std::marker::Model;
use std::sync::Arc;
use views::{Views, catch_up, law_of_step, law_of_waiting};

/// The core state, with each worker's view of the active pointstamps, and the number of epochs known to have passed.
#[derive(Drop)]
pub struct Board<V: Views> {
    state: State,
    views: V,
    added: Vec<Pointstamp>,
    passed: u32,
    lag: Lag,
}

impl<V: Views> Model for Board<V> {
    ghost use Rattle.std.specs.Coded.{codes};
    ghost use Rattle.vertices.specs.contracts.shard.Shard as shard_row;
    ghost use Rattle.std.specs.contracts.alloc.Global as heap;
    ghost use Rattle.std.specs.contracts.impls.GlobalAllocator.TheImpl as allocates;
    ghost use Rattle.expr_tree.specs.contracts.scalar.Scalar as scalar;
    ghost use Rattle.expr_tree.specs.contracts.condition.Cond as condition;
    ghost use Rattle.board.specs.Kept.{Keeps};
    ghost use Rattle.std.specs.Prelude.{suc};
    ghost use Rattle.board.specs.Lateness.{BoardShown, counts_of, first_of};

    ghost Value = { BoardShown };

    ghost coded = { Prim.hlevel (
      codes,
      shard_row.the_row.coded,
      (scalar.the_row heap.the_row allocates.ghosts).coded,
      (condition.the_row heap.the_row allocates.ghosts).coded,
    ) };

    ghost view = { λ b. record {
      shown = b.state;
      waits = counts_of (V.workers b.views) (V.waiting b.views);
      behind = first_of (suc (V.workers b.views)) (V.behind b.views 0);
      passed = b.passed;
    } };

    ghost invariant = { λ b. Keeps (V.graph b.views) (V.workers b.views) (V.content b.views) (V.waiting b.views) (V.room b.views) V.late b.passed b.state };
}

impl<V: Views> Board<V> {
    /// A board that runs a graph on 1 to 64 workers, with the given views. They must be views of this graph for that many workers, with each input
    /// active at epoch 0 and nothing waiting. The inputs are open at epoch 0.
    pub fn with_views(
        alloc: Global,
        graph: Arc<Graph, Global>,
        workers: u32,
        mut views: V,
    ) -> Result<Board<V>, NoMemory>
        requires some { 0 < workers }
        requires few { workers ≤ max_workers }
        requires same { V.graph views ≡ shown_graph graph.value }
        requires viewers { V.workers views ≡ workers }
        requires first { (q : Active) → V.content views q ≡ active_at_first (shown_graph graph.value) q }
        requires none { (worker sender : ℕ) → worker < workers → V.waiting views worker sender ≡ [] }
        ensures opening { IfOk result (λ b. IsOpening graph.value workers b.shown) }
        ensures shows { IfOk result (λ b. Shows b.shown opening) }
        ensures prompt { IfOk result (λ b. AreUpToDate b) }
    {
        let lag = Lag::new(alloc, workers)?;
        let state = State::opening(alloc, graph, workers)?;
        let plan = state.graph();
        plan.law_of_dataflow();
        plan.law_of_ports();
        views.reserve(plan.input_count() as u32)?;
        machine::pointstamps::law_active();
        law_of_waiting();
        Ok(Board {
            state,
            views,
            added: Vec::new(alloc),
            passed: 0,
            lag,
        })
    }

    /// Feeds a batch to an input at its open epoch.
    pub fn feed(&mut self, alloc: Global, input: u32, batch: Batch) -> Result<(), StepRefusal>
        ensures step { OnOk result (Goes self.old.shown (Step.feed input batch) self.new.shown) }
        ensures refused { OnErr result (self.new ≡ self.old) }
        ensures answers { AnswersOr (feed_refusal self.old.shown input batch) result }
        ensures tables { tables self.new.shown ≡ tables self.old.shown }
        ensures posts { OnOk result (PostsSome V.late (length self.old.shown.sides) self.old self.new) }
        ensures passed { self.old.passed ≤ self.new.passed }
    {
        if let Some(refusal) = self.feed_refusal(input, &batch) {
            return Err(refusal);
        }
        let Ok(cut) = CutBatch::of(alloc, self.state.wiring(), input, batch) else {
            return Err(StepRefusal::NoMemory);
        };
        let (result, _left) = self.feed_cut(cut);
        result
    }

    /// Feeds a batch that was already cut for this board; computes nothing. The caller must drop what is left of the batch after releasing its lock.
    #[inline(always)]
    pub fn feed_cut(&mut self, cut: CutBatch) -> (Result<(), StepRefusal>, Option<CutBatch>)
        requires { cut.wired ≡ record { graph = self.old.shown.graph; workers = length self.old.shown.sides } }
        ensures step { OnOk result.0 (Goes self.old.shown (Step.feed cut.input cut.batch) self.new.shown) }
        ensures refused { OnErr result.0 (self.new ≡ self.old) }
        ensures answers { AnswersOr (feed_refusal self.old.shown cut.input cut.batch) result.0 }
        ensures tables { tables self.new.shown ≡ tables self.old.shown }
        ensures posts { OnOk result.0 (PostsSome V.late (length self.old.shown.sides) self.old self.new) }
        ensures passed { self.old.passed ≤ self.new.passed }
    {
        let batch = cut.batch();
        let _some = batch.len();
        let _fields = batch.arity();
        if let Some(refusal) = self.feed_refusal(cut.input(), batch) {
            return (Err(refusal), Some(cut));
        }
        match self.state.feed(&mut self.views, &mut self.added, cut) {
            Ok(()) => {
                law_of_step();
                let feeder = self.state.worker_count();
                post_noted(&mut self.views, feeder, &self.added, &[]);
                self.lag.post(0);
                (Ok(()), None)
            }
            Err(cut) => (Err(StepRefusal::NoMemory), Some(cut)),
        }
    }

    /// The reason why feeding this batch would be refused, apart from lack of memory; `None` if there is none.
    #[inline(always)]
    pub fn feed_refusal(&self, input: u32, batch: &Batch) -> Option<StepRefusal>
        ensures { result ≡ feed_refusal self.now.shown input batch.now }
    {
        if let Some(refusal) = self.state.input_refusal(input) {
            return Some(refusal);
        }
        if batch.arity() as u64 != self.state.graph().arity(VertexId(input)) {
            return Some(StepRefusal::WrongFieldCount);
        }
        None
    }

    /// Ends the open epoch of an input; the next one opens.
    #[inline(always)]
    pub fn seal(&mut self, input: u32) -> Result<(), StepRefusal>
        ensures step { OnOk result (Goes self.old.shown (Step.seal input) self.new.shown) }
        ensures refused { OnErr result (self.new ≡ self.old) }
        ensures answers { AnswersOr (seal_refusal self.old.shown input) result }
        ensures tables { tables self.new.shown ≡ tables self.old.shown }
        ensures posts { OnOk result (Posts V.late (length self.old.shown.sides) self.old self.new) }
        ensures passed { self.old.passed ≤ self.new.passed }
    {
        if let Some(refusal) = self.state.input_refusal(input) {
            return Err(refusal);
        }
        let epoch = self.state.open_epoch(input as usize);
        if epoch == u32::MAX {
            return Err(StepRefusal::LastEpoch);
        }
        let closing = self.state.graph().input_count() as u32;
        match self.views.reserve(closing + 2) {
            Ok(()) => {
                law_of_step();
                let feeder = self.state.worker_count();
                let opens = input_place(input, epoch + 1);
                let ends = input_place(input, epoch);
                post(&mut self.views, feeder, &[opens], &[ends]);
                self.lag.post(0);
                self.state.seal(input as usize);
                Ok(())
            }
            Err(_) => Err(StepRefusal::NoMemory),
        }
    }

    /// Closes an input: no more records will come. Takes no memory.
    pub fn close(&mut self, input: u32) -> Result<(), StepRefusal>
        ensures step { OnOk result (Goes self.old.shown (Step.close input) self.new.shown) }
        ensures refused { OnErr result (self.new ≡ self.old) }
        ensures answers { AnswersOnly (input_refusal self.old.shown input) result }
        ensures tables { tables self.new.shown ≡ tables self.old.shown }
        ensures posts { OnOk result (Posts V.late (length self.old.shown.sides) self.old self.new) }
        ensures passed { self.old.passed ≤ self.new.passed }
    {
        if let Some(refusal) = self.state.input_refusal(input) {
            return Err(refusal);
        }
        let epoch = self.state.open_epoch(input as usize);
        law_of_step();
        let feeder = self.state.worker_count();
        let ends = input_place(input, epoch);
        post(&mut self.views, feeder, &[], &[ends]);
        self.lag.post(0);
        self.state.close(input as usize);
        Ok(())
    }

    /// Merges a message of a free worker into its first message, if both are on one edge at one time; `place` is its place behind the first. False if
    /// they aren't, if there is no such message or worker, if the board is stopped, or if memory is short.
    pub fn merge(&mut self, worker: u32, place: usize) -> bool
        ensures merges { IsTrue result → Merges self.old.shown worker place self.new.shown }
        ensures refused { result ≡ false → self.new ≡ self.old }
        ensures tables { tables self.new.shown ≡ tables self.old.shown }
        ensures posts { IsTrue result → Posts V.late worker self.old self.new }
        ensures passed { self.old.passed ≤ self.new.passed }
    {
        if self.state.is_stopped() {
            return false;
        }
        let number = worker as usize;
        if !self.state.has_worker(number) {
            return false;
        }
        if !self.state.is_free(number) {
            return false;
        }
        let closing = self.state.graph().input_count() as u32;
        if self.views.reserve(closing + 1).is_err() {
            return false;
        }
        match self.state.merge(number, place) {
            Some(ends) => {
                law_of_step();
                post(&mut self.views, worker, &[], &[ends]);
                self.lag.post(0);
                true
            }
            None => false,
        }
    }

    /// Hands out an event to the worker, if it has one. If no message waits for it, or many batches of changes do, those batches are applied first.
    /// Takes no memory.
    #[inline(always)]
    pub fn claim(&mut self, worker: u32) -> Claimed
        ensures claims { Claims self.old.shown self.new.shown worker result }
        ensures tables { tables self.new.shown ≡ tables self.old.shown }
        ensures applies { Applies worker self.old self.new }
        ensures idle { IfNothing result (IsUpToDate self.new worker) }
    {
        if self.state.is_stopped() {
            return Claimed::Stopped;
        }
        let number = worker as usize;
        if !self.state.has_worker(number) || !self.state.is_free(number) {
            return Claimed::Busy;
        }
        self.refresh(worker);
        if let Some(work) = self.claim_due(worker) {
            return Claimed::Work(work);
        }
        if let Some(work) = self.claim_mail(worker) {
            return Claimed::Work(work);
        }
        self.catch_up(worker);
        self.claim_rest(worker)
    }

    /// Hands out a notification of a free worker that comes before its next message, if the worker sees that it may be delivered. So the turns of a
    /// loop go on together: what is handed round doesn't run ahead of what waits for a notification.
    #[inline(always)]
    fn claim_due(&mut self, worker: u32) -> Option<Work>
        requires there { worker < length self.old.shown.sides }
        requires free { (side_at self.old.shown worker).place ≡ Home }
        requires runs { self.old.shown.stopped ≡ false }
        ensures hands { IfSome result (λ x. Hands self.old.shown worker self.new.shown x.0 × (x.1 ≡ None)) }
        ensures none { IfNone result (self.new.shown ≡ self.old.shown) }
        ensures tables { tables self.new.shown ≡ tables self.old.shown }
        ensures views { IsAsLate self.old self.new }
    {
        let number = worker as usize;
        match self.state.due(number) {
            Some(place) => {
                if may_deliver(&self.views, worker, self.state.requests(number).get(place)) {
                    return Some(self.state.claim_request(number, place));
                }
                None
            }
            None => None,
        }
    }

    /// Hands out a message of a free worker, if one waits.
    #[inline(always)]
    fn claim_mail(&mut self, worker: u32) -> Option<Work>
        requires there { worker < length self.old.shown.sides }
        requires free { (side_at self.old.shown worker).place ≡ Home }
        requires runs { self.old.shown.stopped ≡ false }
        ensures hands { IfSome result (λ x. Hands self.old.shown worker self.new.shown x.0 × (x.1 ≡ None)) }
        ensures none { IfNone result ((self.new.shown ≡ self.old.shown) × (length (side_at self.old.shown worker).mail ≡ 0)) }
        ensures tables { tables self.new.shown ≡ tables self.old.shown }
        ensures views { IsAsLate self.old self.new }
    {
        let number = worker as usize;
        match self.state.next_message(number) {
            Some(place) => {
                self.forget(worker, place);
                Some(self.state.claim_message(number, place))
            }
            None => None,
        }
    }

    /// Lets go of what the shard of a message's vertex keeps of an earlier time, if the worker sees that it has passed there.
    #[inline(always)]
    fn forget(&mut self, worker: u32, place: usize)
        requires there { worker < length self.old.shown.sides }
        requires free { (side_at self.old.shown worker).place ≡ Home }
        requires some { place < length (side_at self.old.shown worker).mail }
        ensures less { KeepsLess self.old.shown self.new.shown worker }
        ensures views { IsAsLate self.old self.new }
    {
        let number = worker as usize;
        if let Some(earlier) = self.state.earlier(number, place) {
            if self.views.none_before(worker, &earlier) {
                self.state.forget(number, &earlier);
            }
        }
    }

    /// Hands out the first notification that may be delivered to a free worker that has no message and an up-to-date view.
    #[inline(always)]
    fn claim_rest(&mut self, worker: u32) -> Claimed
        requires there { worker < length self.old.shown.sides }
        requires free { (side_at self.old.shown worker).place ≡ Home }
        requires runs { self.old.shown.stopped ≡ false }
        requires mail { length (side_at self.old.shown worker).mail ≡ 0 }
        requires prompt { IsUpToDate self.old worker }
        ensures claims { Claims self.old.shown self.new.shown worker result }
        ensures tables { tables self.new.shown ≡ tables self.old.shown }
        ensures views { IsAsLate self.old self.new }
    {
        let number = worker as usize;
        match first_deliverable(&self.views, worker, self.state.requests(number)) {
            Some(place) => Claimed::Work(self.state.claim_request(number, place)),
            None => {
                if self.state.is_drained() {
                    Claimed::Drained
                } else {
                    Claimed::Idle
                }
            }
        }
    }

    /// Applies all the changes that wait for the worker to its view. Does nothing if none wait, or if there is no such worker. Takes no memory.
    pub fn catch_up(&mut self, worker: u32)
        ensures shown { self.new.shown ≡ self.old.shown }
        ensures applies { Applies worker self.old self.new }
        ensures prompt { IsUpToDate self.new worker }
        ensures known { self.new.passed ≡ self.old.passed }
    {
        let workers = self.state.worker_count();
        if worker >= workers {
            return;
        }
        if !self.views.waits(worker) {
            return;
        }
        catch_up(&mut self.views, worker, workers);
        self.lag.catch_up(worker);
    }

    /// The same only if many batches wait for the worker, so that no view lags without bound.
    #[inline(always)]
    fn refresh(&mut self, worker: u32)
        ensures shown { self.new.shown ≡ self.old.shown }
        ensures applies { Applies worker self.old self.new }
    {
        if self.lag.is_long(worker) {
            self.catch_up(worker);
        }
    }

    /// Applies the sender's next batch of changes to the worker's view. The senders are the workers, and then the feeder, which feeds, seals and
    /// closes. False if none waits, or if there is no such worker or sender. Takes no memory.
    pub fn apply(&mut self, worker: u32, sender: u32) -> bool
        ensures shown { self.new.shown ≡ self.old.shown }
        ensures applied { AppliesOne worker sender self.old self.new result }
        ensures others { (w s : ℕ) → (w ≡ worker → s ≡ sender → ⊥) → waits_for self.new w s ≡ waits_for self.old w s }
        ensures called { KeepsCalled self.old self.new }
        ensures passed { self.old.passed ≤ self.new.passed }
    {
        let workers = self.state.worker_count();
        if worker >= workers {
            return false;
        }
        if sender > workers {
            return false;
        }
        if !self.views.apply(worker, sender) {
            return false;
        }
        true
    }

    /// Hands out the worker's choice of that number: its messages as they came, then its requests, as made, that its view lets through. Takes no memory.
    pub fn pick(&mut self, worker: u32, choice: u64) -> Result<Work, StepRefusal>
        ensures picks { Picks (IsUpToDate self.old worker) self.old.shown self.new.shown worker choice result }
        ensures tables { tables self.new.shown ≡ tables self.old.shown }
        ensures views { IsAsLate self.old self.new }
    {
        if self.state.is_stopped() {
            return Err(StepRefusal::Stopped);
        }
        let number = worker as usize;
        if !self.state.has_worker(number) {
            return Err(StepRefusal::NoSuchEvent);
        }
        if !self.state.is_free(number) {
            return Err(StepRefusal::HoldsEvent);
        }
        let mail = self.state.mail_count(number) as u64;
        if choice < mail {
            return Ok(self.state.claim_message(number, choice as usize));
        }
        law_of_waiting();
        match kth_deliverable(
            &self.views,
            worker,
            self.state.requests(number),
            choice - mail,
        ) {
            Some(place) => Ok(self.state.claim_request(number, place)),
            None => Err(StepRefusal::NoSuchEvent),
        }
    }

    /// The graph and the number of workers, shared. A batch that is cut with them may be fed to this board.
    pub fn share_wiring(&self) -> Result<Arc<Wiring, Global>, NoMemory>
        ensures { IfOk result (λ w. w.value ≡ record { graph = self.now.shown.graph; workers = length self.now.shown.sides }) }
    {
        let wiring = self.state.share_wiring()?;
        Ok(wiring)
    }

    /// Whether the message at that place behind the worker's first one is like it, and both are small. It decides only how many events there are.
    #[inline(always)]
    pub fn is_worth_merging(&self, worker: u32, place: usize) -> bool {
        worker < self.state.worker_count() && self.state.is_worth_merging(worker as usize, place)
    }

    /// The first place, from `from` on and within a fixed window, of a message that can be merged with the worker's first: on the same edge at the
    /// same time, and with few enough records. `None` if there is no such message or worker.
    #[inline(always)]
    pub fn next_alike(&self, worker: u32, from: usize) -> Option<usize>
        ensures found { IfSome result (λ at. (from ≤ at) × AreAlike (side_at self.now.shown worker).mail at) }
        ensures none { IfNone result ((at : ℕ) → from ≤ at → at < window → AreAlike (side_at self.now.shown worker).mail at → ⊥) }
    {
        let number = worker as usize;
        if !self.state.has_worker(number) {
            return None;
        }
        self.state.next_alike(number, from)
    }

    /// The pointstamp of what the worker takes next, as far as is known without asking its view; `None` if nothing waits, or if there is no such worker.
    pub fn next_pointstamp(&self, worker: u32) -> Option<Pointstamp> {
        if worker < self.state.worker_count() {
            self.state.next_pointstamp(worker as usize)
        } else {
            None
        }
    }

    /// Whether the worker sees an event for it. While changes wait for the worker, there may be one that it doesn't see.
    pub fn can_claim(&self, worker: u32) -> bool
        ensures some { IsTrue result → HasChoice self.now.shown worker }
        ensures none { result ≡ false → IsUpToDate self.now worker → HasNoChoice self.now.shown worker }
    {
        if self.state.is_stopped() {
            return false;
        }
        let number = worker as usize;
        if !self.state.has_worker(number) {
            return false;
        }
        if !self.state.is_free(number) {
            return false;
        }
        let mail = self.state.mail_count(number);
        if mail > 0 {
            return true;
        }
        law_of_waiting();
        match first_seen(&self.views, worker, self.state.requests(number)) {
            Some(_) => true,
            None => false,
        }
    }

    /// Whether an epoch has passed at an output as the first worker sees it: no more records will come there for it. Once true, it stays so. True of
    /// each epoch that is counted as passed, whatever waits. The output is given by its place.
    pub fn passed(&self, output: u32, epoch: u32) -> bool
        requires { IsOutputPlace self.now.shown output }
        ensures called { IsTrue result ↔ CallsPassed self.now output epoch }
        ensures passed { IsTrue result → HasPassed self.now.shown output epoch }
        ensures seen { IsUpToDate self.now 0 → HasPassed self.now.shown output epoch → IsTrue result }
        ensures known { epoch < self.now.passed → IsTrue result }
    {
        law_of_waiting();
        is_past(&self.views, &self.state, output, epoch)
    }

    /// The number of epochs, from 0 on, that have passed at every output as the first worker sees it. Never more than the most seals of any input. Asks
    /// once for each epoch that has passed since the last call, and keeps the number.
    pub fn passed_count(&mut self) -> u64
        ensures shown { self.new.shown ≡ self.old.shown }
        ensures kept { self.new ≡ record self.old { passed = result } }
        ensures rises { self.old.passed ≤ result }
        ensures first { IsFirstUncalled self.old result }
        ensures most { (n : ℕ) → CountsPassed self.old.shown n → result ≤ n }
        ensures seen { IsUpToDate self.old 0 → CountsPassed self.old.shown result }
    {
        law_of_waiting();
        self.passed = passed_now(&self.views, &self.state, self.passed);
        self.passed as u64
    }

    /// The number that `passed_count` gave last; 0 before the first call.
    pub fn known_passed(&self) -> u64
        ensures { result ≡ self.now.passed }
    {
        self.passed as u64
    }

    /// The number of passed epochs is unique, and each epoch below it has passed at each output. Nothing is done.
    pub fn law_count(&self)
        ensures one { (m n : ℕ) → CountsPassed self.now.shown m → CountsPassed self.now.shown n → m ≡ n }
        ensures below { (n : ℕ) → CountsPassed self.now.shown n → (epoch : ℕ) → epoch < n → HasPassedAtAll self.now.shown epoch }
        ensures known { (epoch : ℕ) → epoch < self.now.passed → HasPassedAtAll self.now.shown epoch }
    {
        let _ = &self.state;
    }

    /// What has passed stays passed, and no step lowers the number of passed epochs. Nothing is done.
    pub fn law_stays(&self)
        ensures passed { (step : Step) (next : Shown) → Goes self.now.shown step next →
            (output epoch : ℕ) → HasPassed self.now.shown output epoch → HasPassed next output epoch }
        ensures count { (step : Step) (next : Shown) → Goes self.now.shown step next → (m n : ℕ) → CountsPassed self.now.shown m → CountsPassed next n → m ≤ n }
    {
        let _ = &self.state;
    }

    /// Abandons the event, and stops the board for good. Takes no memory.
    pub fn abandon(&mut self, work: Work)
        requires { IsOf self.old.shown work.0 }
        ensures holds { Holds self.old.shown work.0 }
        ensures step { Goes self.old.shown (Step.abandon work.0.worker work.0.job.happening) self.new.shown }
        ensures tables { tables self.new.shown ≡ tables self.old.shown }
        ensures views { IsAsLate self.old self.new }
    {
        let worker = work.worker();
        self.state.abandon(worker as usize, work.into_stub());
    }

    /// As `abandon`, for an event that was computed.
    pub fn abandon_done(&mut self, done: Done)
        requires { IsOf self.old.shown done }
        ensures holds { Holds self.old.shown done }
        ensures step { Goes self.old.shown (Step.abandon done.worker done.job.happening) self.new.shown }
        ensures tables { tables self.new.shown ≡ tables self.old.shown }
        ensures views { IsAsLate self.old self.new }
    {
        let worker = done.worker();
        let (stub, _output) = done.into_parts();
        self.state.abandon(worker as usize, stub);
    }

    /// Ends an event that the board handed out, and gives what it sends. A stopped board accepts it too.
    #[inline(always)]
    pub fn commit(&mut self, done: Done) -> Result<Sent, CommitRefusal>
        requires { IsOf self.old.shown done }
        ensures commits { Commits self.old.shown self.new.shown done result }
        ensures tells { IfOk result (λ sent. TellsCommit self.old.shown self.new.shown done sent) }
        ensures tables { tables self.new.shown ≡ tables self.old.shown }
        ensures refused { OnErr result (self.new ≡ self.old) }
        ensures posts { OnOk result (Posts V.late done.worker self.old self.new) }
        ensures passed { self.old.passed ≤ self.new.passed }
    {
        let worker = done.worker();
        match self.state.commit(&mut self.views, &mut self.added, done) {
            Ok((place, sent)) => {
                law_of_step();
                post_noted(&mut self.views, worker, &self.added, &[place]);
                self.lag.post(sent.rows());
                Ok(sent)
            }
            Err(done) => Err(CommitRefusal::NoMemory(done)),
        }
    }

    /// The reason why any call on that input would be refused; `None` if there is none.
    #[inline(always)]
    pub fn input_refusal(&self, input: u32) -> Option<StepRefusal>
        ensures { result ≡ input_refusal self.now.shown input }
    {
        self.state.input_refusal(input)
    }

    /// Whether the board is stopped: an event was abandoned.
    pub fn is_stopped(&self) -> bool
        ensures { result ≡ self.now.shown.stopped }
    {
        self.state.is_stopped()
    }

    /// Whether every input is closed, nothing waits, and no worker holds or has abandoned an event.
    pub fn is_drained(&self) -> bool
        ensures { MatchBool result (IsDrained self.now.shown) (IsDrained self.now.shown → ⊥) }
    {
        self.state.is_drained()
    }

    /// The graph that the board runs.
    pub fn graph(&self) -> &Graph
        ensures { result.now ≡ self.now.shown.graph }
    {
        self.state.graph()
    }

    /// The number of workers: 1 to 64.
    pub fn workers(&self) -> u32
        ensures { result ≡ length self.now.shown.sides }
    {
        self.state.worker_count()
    }

    /// Whether the worker holds an event that isn't abandoned; false if there is no such worker.
    pub fn holding(&self, worker: u32) -> bool
        ensures { result ≡ is_out (side_at self.now.shown worker).place }
    {
        let number = worker as usize;
        self.state.has_worker(number) && self.state.is_holding(number)
    }

    /// The batches that were fed to an input for an epoch, in order; none if there is no such input.
    pub fn fed(&self, input: u32, epoch: u32) -> &[Batch]
        ensures { result.now ≡ slice_index_or (input_at self.now.shown input).fed epoch [] }
    {
        self.state.fed(input, epoch)
    }

    /// The number of outputs.
    pub fn output_count(&self) -> u32
        ensures { result ≡ length (output_numbers (shown_graph self.now.shown.graph)) }
    {
        self.state.output_count() as u32
    }

    /// The batches that were emitted at an output for an epoch, in order. The output is given by its place.
    pub fn emitted(&self, output: u32, epoch: u32) -> &[Batch]
        requires { IsOutputPlace self.now.shown output }
        ensures { result.now ≡ slice_index_or (emitted_by self.now.shown.emitted (output_number (shown_graph self.now.shown.graph) output)) epoch [] }
    {
        self.state.emitted(output as usize, epoch)
    }

    /// What the board shows of an epoch, to be kept while the board goes on. The batches are shared, not copied.
    pub fn look(&self, alloc: Global, epoch: u32) -> Result<Look, NoMemory>
        ensures { IfOk result (λ l. IsLookAt self.now epoch l) }
    {
        let wiring = self.state.share_wiring()?;
        let fed = self.state.share_fed(alloc, epoch)?;
        let outputs = self.look_at_outputs(alloc, epoch)?;
        self.law_headline();
        Ok(Look::of(wiring, epoch, fed, outputs))
    }

    /// What each output shows of an epoch.
    fn look_at_outputs(&self, alloc: Global, epoch: u32) -> Result<Vec<OutputLook>, NoMemory>
        ensures { IfOk result (λ v. AreOutputLooks self.now epoch v.items) }
    {
        let count = self.output_count();
        let mut outputs = Vec::with_capacity(alloc, count as usize)?;
        for output in 0..count {
            outputs.push(OutputLook {
                emitted: self.state.share_emitted(alloc, output as usize, epoch)?,
                passed: self.passed(output, epoch),
            })?;
        }
        Ok(outputs)
    }

    /// The number of batches of changes that wait, over all workers; `u64::MAX` if there are more.
    pub fn waiting_changes(&self) -> u64
        ensures { result ≡ min (2 ^ 64 - 1) (all_waits self.now) }
    {
        self.views.waiting()
    }

    /// Nothing waits for a worker, or from a sender, that doesn't exist. Nothing is done.
    pub fn law_waits(&self)
        ensures { (w s : ℕ) → (length self.now.shown.sides ≤ w) ⊎ (length self.now.shown.sides < s) → waits_for self.now w s ≡ 0 }
    {
        let _ = &self.state;
    }

    /// If views aren't late, nothing waits. Nothing is done.
    pub fn law_prompt(&self)
        ensures { V.late ≡ false → AreUpToDate self.now }
    {
        let _ = &self.state;
    }

    /// The promise holds at each output, whatever program the board runs. Nothing is done.
    pub fn law_headline(&self)
        ensures { (p : Program) → RunsProgram p self.now.shown → KeepsPromise p self.now.shown }
    {
        let _ = &self.state;
    }

    /// A run of the machine leads to what the board shows. So every law of runs holds of it. Nothing is done.
    pub fn law_run(&self)
        ensures { IsReached self.now.shown }
    {
        let _ = &self.state;
    }

    /// An event that is out is refused for a count if it overflows in the worlds that the board shows, and not otherwise. Nothing is done.
    pub fn law_counts(&self)
        ensures over { (p : Pass) → Holds self.now.shown p → CountsOver p.job → DoesOverflow self.now.shown p }
        ensures fits { (p : Pass) → Holds self.now.shown p → CountsFit p.job → NeverOverflows self.now.shown p }
    {
        let _ = &self.state;
    }

    /// A board has as many inputs as its graph. Nothing is done.
    pub fn law_inputs(&self)
        ensures { length self.now.shown.inputs ≡ input_count (shown_graph self.now.shown.graph) }
    {
        let _ = &self.state;
    }

    /// On a drained board, every epoch has passed at every output. Nothing is done.
    pub fn law_drained(&self)
        ensures { IsDrained self.now.shown → (output epoch : ℕ) → HasPassed self.now.shown output epoch }
    {
        let _ = &self.state;
    }
}

/// Where an input is active while that epoch is open.
pub fn input_place(input: u32, epoch: u32) -> Pointstamp
    ensures { result ≡ at_vertex input (at_epoch epoch) }
{
    Pointstamp::new(Time::at_epoch(epoch), Location::Vertex(VertexId(input)))
}
