//! Typed programs.

ghost use Rattle.std.specs.Prelude.{◌≡◌};
ghost use Rattle.expr_tree.specs.Views.{program_tree};
ghost use Rattle.expr_tree.specs.Plain.{plain_program};
ghost use Rattle.semantics.specs.Typing.{WellTyped};

use crate::limits::MAX_OUTPUTS;
use arrayvec::ArrayVec;
use expr_tree::{Input, Program};
use std::alloc::Allocator;

/// The arities of a program's outputs, in order, each 1 to 16.
pub type OutputArities = ArrayVec<u64, MAX_OUTPUTS>;

/// A program that is well typed, with the arities of its outputs.
#[derive(Drop)]
pub struct Typed<A: Allocator> {
    program: Program<A>,
    arities: OutputArities,
    ghost typed: { ∥ WellTyped (plain_program (program_tree program)) arities.items ∥₁ },
}

impl<A: Allocator> Typed<A> {
    ghost use Rattle.typing.specs.Shown.{typed_program, output_arities};

    /// A program that is known to be well typed. Nothing is checked.
    pub fn new(program: Program<A>, arities: OutputArities) -> Typed<A>
        requires { WellTyped (plain_program (program_tree program)) arities.items }
        ensures program { typed_program result ≡ program_tree program }
        ensures arities { output_arities result ≡ arities.items }
    {
        Typed { program, arities }
    }

    /// The program.
    pub fn program(&self) -> &Program<A>
        ensures value { program_tree result.now ≡ typed_program self.now }
        ensures typed { WellTyped (plain_program (program_tree result.now)) (output_arities self.now) }
    {
        &self.program
    }

    /// The inputs in order, each with its name and arity.
    pub fn inputs(&self) -> &[Input]
        ensures { result.now ≡ (typed_program self.now).inputs }
    {
        &self.program.inputs
    }

    /// The arities of the outputs in order, each 1 to 16.
    pub fn output_arities(&self) -> &[u64]
        ensures { result.now ≡ output_arities self.now }
    {
        self.arities.as_slice()
    }

    /// The program itself, and the arities of its outputs.
    pub fn into_parts(self) -> (Program<A>, OutputArities)
        ensures program { program_tree result.0 ≡ typed_program self }
        ensures arities { result.1.items ≡ output_arities self }
        ensures typed { WellTyped (plain_program (program_tree result.0)) result.1.items }
    {
        (self.program, self.arities)
    }
}
