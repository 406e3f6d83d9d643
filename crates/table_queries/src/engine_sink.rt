//! The input text of a run, which an engine takes as it comes.

ghost use Rattle.std.specs.Prelude.{◌≡◌, ◌++◌, ℕ, List, IfOk};
ghost use Rattle.query_answers.specs.Runs.{IsRun};

use diagnostics::{Fault, Texts};
use query_answers::Answering;
use std::alloc::Global;
use tables::{LineSink, SinkFault};

/// What an engine has taken of an input text, whose records go to it as numbers.
#[derive(Drop)]
pub struct EngineSink<'e, A: Answering> {
    engine: &'e A,
    alloc: Global,
    intake: A::Intake,
    /// The lines that the engine refused.
    texts: Texts,
    /// Why the engine takes no more.
    fault: Option<Fault>,
}

impl<'e, A: Answering> EngineSink<'e, A> {
    /// Of an engine's intake, which goes on with the first line.
    pub fn new(engine: &'e A, alloc: Global, intake: A::Intake) -> EngineSink<'e, A>
        ensures { result.intake ≡ intake }
    {
        EngineSink {
            engine,
            alloc,
            intake,
            texts: Texts::new(alloc),
            fault: None,
        }
    }

    /// Why the engine took no more. The lines that it refused are left in `texts`.
    pub fn into_fault(self, texts: &mut Texts) -> Fault {
        let EngineSink {
            texts: refused,
            fault,
            ..
        } = self;
        let Texts {
            input,
            input_from,
            ..
        } = refused;
        texts.input = input;
        texts.input_from = input_from;
        match fault {
            Some(fault) => fault,
            None => Fault::NoMemory,
        }
    }

    /// The answer to all that was taken.
    pub fn answer(self, texts: &mut Texts) -> Result<Vec<u8>, Fault>
        requires { A.is_usable }
        ensures { (query text : List ℕ) → A.holds self.entry.intake query text → IfOk result (λ answer. IsRun query text answer.items) }
    {
        let EngineSink {
            engine,
            alloc,
            intake,
            ..
        } = self;
        engine.answer(alloc, intake, texts)
    }
}

impl<'e, A: Answering> LineSink for EngineSink<'e, A> {
    ghost use Rattle.std.specs.Prelude.{◌++◌, ℕ, List, ⊤};

    ghost took = { λ first now taken. (query text : List ℕ) → A.holds first.intake query text → A.holds now.intake query (text ++ taken) };

    ghost stays = { λ _ _. ⊤ };

    fn append(&mut self, lines: &[u8]) -> Result<(), SinkFault> {
        match self
            .engine
            .take(self.alloc, &mut self.intake, lines, &mut self.texts)
        {
            Ok(()) => Ok(()),
            Err(fault) => {
                self.fault = Some(fault);
                Err(SinkFault::Stopped)
            }
        }
    }

    #[inline(always)]
    fn append_row(&mut self, name: &[u8], numbers: &[i64]) -> Result<(), SinkFault> {
        match self.engine.take_row(self.alloc, &mut self.intake, name, numbers, &mut self.texts) {
            Ok(()) => Ok(()),
            Err(fault) => {
                self.fault = Some(fault);
                Err(SinkFault::Stopped)
            }
        }
    }
}
