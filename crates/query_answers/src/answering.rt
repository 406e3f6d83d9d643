//! What answers queries over inputs, in memory.

ghost use Rattle.std.specs.Prelude.{◌++◌, ℕ, List, [], IfOk, OnOk};
ghost use Rattle.collector.specs.Piecewise.{row_line};
ghost use Rattle.query_answers.specs.Runs.{IsRun, read_part};

use command_line::Workers;
use diagnostics::{Fault, Texts};
use std::alloc::Global;

/// Answers queries over input texts that come in pieces: it begins, takes lines and records one after the other, and then answers.
pub trait Answering {
    // What must be known of its types where it is used: of one with threads, that they may share its handle.
    ghost is_usable: { Type 0 };

    /// A query, and what was taken of its input text.
    type Intake: Drop;

    // The intake is of that query text, and that text was taken as its input.
    ghost holds: { Self.Intake → List ℕ → List ℕ → Type 0 };

    /// Begins with a query, which that many workers are to answer, and nothing of its input text. What was read of the query is left in `texts`.
    fn begin(
        &self,
        alloc: Global,
        workers: Workers,
        query: &[u8],
        texts: &mut Texts,
    ) -> Result<Self::Intake, Fault>
        requires { is_usable }
        ensures { IfOk result (λ intake. holds intake (read_part query.now) []) };

    /// Takes the next lines of the input text, each with its line feed. A refusal counts lines from the text's first one, and these lines are left in
    /// `texts`, if there is memory for them. After a fault nothing is known of the intake.
    fn take(
        &self,
        alloc: Global,
        intake: &mut Self::Intake,
        lines: &[u8],
        texts: &mut Texts,
    ) -> Result<(), Fault>
        ensures { (query taken : List ℕ) → holds intake.old query taken → OnOk result (holds intake.new query (taken ++ lines.now)) };

    /// Takes a record of the input of that name in place of its line, as `take` takes that line.
    fn take_row(
        &self,
        alloc: Global,
        intake: &mut Self::Intake,
        name: &[u8],
        numbers: &[i64],
        texts: &mut Texts,
    ) -> Result<(), Fault>
        ensures { (query taken : List ℕ) → holds intake.old query taken → OnOk result (holds intake.new query (taken ++ row_line name.now numbers.now)) };

    /// The answer of the query to all that was taken.
    fn answer(
        &self,
        alloc: Global,
        intake: Self::Intake,
        texts: &mut Texts,
    ) -> Result<Vec<u8>, Fault>
        requires { is_usable }
        ensures { (query taken : List ℕ) → holds intake query taken → IfOk result (λ answer. IsRun query taken answer.items) };
}
