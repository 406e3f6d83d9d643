//! Cuts what is fed into messages, while another thread may hold the lock.

ghost use Rattle.std.specs.Prelude.{◌≡◌, length, IfErr, IfOk};
ghost use Rattle.workers.specs.Plans.{RefusesBatch};

use crate::held::Naming;
use board::{Sent, StepRefusal};
use events::{CutBatch, Wiring};
use graph::VertexId;
use rows::Batch;
use std::alloc::Global;
use std::collections::VecDeque;
use std::marker::{Model, PhantomData};
use std::sync::Arc;

/// The graph and the number of workers of a board.
#[derive(Drop)]
pub struct Plan<J: Naming> {
    wiring: Arc<Wiring, Global>,
    of: PhantomData<J>,
}

impl<J: Naming> Model for Plan<J> {
    ghost use Rattle.std.specs.Prelude.{◌≡◌, length};
    ghost use Rattle.std.specs.Coded.{codes};
    ghost use Rattle.std.specs.contracts.alloc.Global as heap;
    ghost use Rattle.std.specs.contracts.impls.GlobalAllocator.TheImpl as allocates;
    ghost use Rattle.expr_tree.specs.contracts.scalar.Scalar as scalar;
    ghost use Rattle.expr_tree.specs.contracts.condition.Cond as condition;
    ghost use Rattle.events.specs.Wired.{Wired};

    ghost Value = { Wired };

    ghost coded = { Prim.hlevel (codes, (scalar.the_row heap.the_row allocates.ghosts).coded, (condition.the_row heap.the_row allocates.ghosts).coded) };

    ghost view = { λ p. p.wiring.value };

    ghost invariant = { λ p. p.wiring.value ≡ record { graph = J.graph; workers = length J.names } };
}

/// A feed or a seal, for `feed_all`.
#[derive(Drop)]
pub enum Feed {
    /// A batch, to an input at its open epoch.
    Batch { input: u32, batch: Batch },
    /// Ends the open epoch of an input.
    Seal { input: u32 },
}

/// A feed that is cut, or a seal.
#[derive(Drop)]
pub enum ReadyFeed<J: Naming> {
    Batch(SizedBatch<J>),
    Seal(u32),
}

/// A batch that was cut for the board, and what it sends to the workers.
#[derive(Drop)]
pub struct SizedBatch<J: Naming> {
    cut: CutBatch,
    sent: Sent,
    of: PhantomData<J>,
}

impl<J: Naming> Model for SizedBatch<J> {
    ghost use Rattle.std.specs.Prelude.{◌≡◌, length};
    ghost use Rattle.std.specs.Coded.{codes};
    ghost use Rattle.std.specs.contracts.alloc.Global as heap;
    ghost use Rattle.std.specs.contracts.impls.GlobalAllocator.TheImpl as allocates;
    ghost use Rattle.expr_tree.specs.contracts.scalar.Scalar as scalar;
    ghost use Rattle.expr_tree.specs.contracts.condition.Cond as condition;
    ghost use Rattle.events.specs.Cuts.{Cut};

    ghost Value = { Cut };

    ghost coded = { Prim.hlevel (codes, (scalar.the_row heap.the_row allocates.ghosts).coded, (condition.the_row heap.the_row allocates.ghosts).coded) };

    ghost view = { λ s. s.cut };

    ghost invariant = { λ s. s.cut.wired ≡ record { graph = J.graph; workers = length J.names } };
}

impl<J: Naming> SizedBatch<J> {
    /// A batch that was cut, with what it sends.
    fn of(cut: CutBatch) -> SizedBatch<J>
        requires { cut.wired ≡ record { graph = J.graph; workers = length J.names } }
        ensures { result ≡ cut }
    {
        let sent = Sent::of(cut.letters());
        SizedBatch {
            cut,
            sent,
            of: PhantomData,
        }
    }

    /// The cut batch, and what it sends.
    pub fn into_parts(self) -> (CutBatch, Sent)
        ensures cut { result.0 ≡ self }
        ensures wired { result.0.wired ≡ record { graph = J.graph; workers = length J.names } }
    {
        let SizedBatch { cut, sent, of: _ } = self;
        (cut, sent)
    }
}

/// Why cutting came to no end, and at which input.
#[derive(Clone, Copy)]
pub struct CutError {
    pub input: u32,
    pub refusal: StepRefusal,
}

impl<J: Naming> Plan<J> {
    /// A plan with the board's wiring.
    pub fn new(wiring: Arc<Wiring, Global>) -> Plan<J>
        requires { wiring.value ≡ record { graph = J.graph; workers = length J.names } }
    {
        Plan {
            wiring,
            of: PhantomData,
        }
    }

    /// Cuts a batch for an input of the board. Refused if even an open input wouldn't take it.
    pub fn cut(&self, alloc: Global, input: u32, batch: Batch) -> Result<CutBatch, StepRefusal>
        ensures wired { IfOk result (λ c. c.wired ≡ record { graph = J.graph; workers = length J.names }) }
        ensures input { IfOk result (λ c. c.input ≡ input) }
        ensures batch { IfOk result (λ c. c.batch ≡ batch) }
        ensures refused { IfErr result (λ e. RefusesBatch J.graph input batch e) }
    {
        let graph = self.wiring.graph();
        let id = VertexId(input);
        if input as usize >= graph.vertex_count() || !graph.vertex(id).kind.is_input() {
            return Err(StepRefusal::UnknownInput);
        }
        if batch.arity() as u64 != graph.arity(id) {
            return Err(StepRefusal::WrongFieldCount);
        }
        match CutBatch::of(alloc, &self.wiring, input, batch) {
            Ok(cut) => Ok(cut),
            Err(_) => Err(StepRefusal::NoMemory),
        }
    }
}

impl<J: Naming> Plan<J> {
    /// As `cut`, with what the batch sends.
    pub fn cut_sized(
        &self,
        alloc: Global,
        input: u32,
        batch: Batch,
    ) -> Result<SizedBatch<J>, StepRefusal>
        ensures input { IfOk result (λ c. c.input ≡ input) }
        ensures batch { IfOk result (λ c. c.batch ≡ batch) }
        ensures refused { IfErr result (λ e. RefusesBatch J.graph input batch e) }
    {
        match self.cut(alloc, input, batch) {
            Ok(cut) => Ok(SizedBatch::of(cut)),
            Err(refusal) => Err(refusal),
        }
    }

    /// Cuts all of them in order and appends them, up to the first that can't be cut.
    pub fn cut_all(
        &self,
        alloc: Global,
        feeds: Vec<Feed>,
        cut: &mut VecDeque<ReadyFeed<J>>,
    ) -> Result<(), CutError> {
        for feed in feeds {
            self.cut_next(alloc, feed, cut)?;
        }
        Ok(())
    }

    /// Cuts one of them and appends it.
    fn cut_next(
        &self,
        alloc: Global,
        feed: Feed,
        cut: &mut VecDeque<ReadyFeed<J>>,
    ) -> Result<(), CutError> {
        let (input, next) = match feed {
            Feed::Batch { input, batch } => (
                input,
                match self.cut_sized(alloc, input, batch) {
                    Ok(sized) => ReadyFeed::Batch(sized),
                    Err(refusal) => return Err(CutError { input, refusal }),
                },
            ),
            Feed::Seal { input } => (input, ReadyFeed::Seal(input)),
        };
        match cut.push_back(next) {
            Ok(()) => Ok(()),
            Err(_) => Err(CutError {
                input,
                refusal: StepRefusal::NoMemory,
            }),
        }
    }
}
