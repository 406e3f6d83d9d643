//! Programs: inputs, named relations, named outputs.

ghost use Rattle.std.specs.Prelude.{◌≡◌, ◌-◌, ◌^◌, IfOk, min};
ghost use Rattle.semantics.specs.Size.{program_depth, program_size};
ghost use Rattle.expr_tree.specs.Plain.{plain_program};
ghost use Rattle.expr_tree.specs.Views.{program_tree};

use crate::copy::{copy_inputs, copy_lets, copy_outputs};
use crate::depth::rel_depth;
use crate::relation::Rel;
use crate::size::rel_size;
use record_core::{Name, NoMemory, Span};
use std::alloc::Allocator;

/// A declared input and the number of its records' fields.
#[derive(Drop)]
pub struct Input {
    pub name_span: Span,
    pub name: Name,
    pub arity_span: Span,
    pub arity: u64,
}

/// A named relation.
#[derive(Drop)]
pub struct Let<A: Allocator> {
    pub name_span: Span,
    pub name: Name,
    pub relation: Box<Rel<A>, A>,
}

/// A relation that is put out, and its name. Where the text gives no name, the name is `out` and its span is the keyword's.
#[derive(Drop)]
pub struct Output<A: Allocator> {
    pub keyword_span: Span,
    pub name_span: Span,
    pub name: Name,
    pub relation: Box<Rel<A>, A>,
}

/// A query: its inputs, its named relations and its outputs, in order.
#[derive(Drop)]
pub struct Program<A: Allocator> {
    pub inputs: Vec<Input, A>,
    pub lets: Vec<Let<A>, A>,
    pub outputs: Vec<Output<A>, A>,
}

impl<A: Allocator> Program<A> {
    /// The same program, with the same spans, under the allocator `alloc`, which alone gives the memory.
    pub fn copy_in<B: Allocator + Copy>(&self, alloc: B) -> Result<Program<B>, NoMemory>
        ensures { IfOk result (λ copy. program_tree copy ≡ program_tree self.now) }
    {
        let inputs = copy_inputs(alloc, &self.inputs)?;
        let lets = copy_lets(alloc, &self.lets)?;
        let outputs = copy_outputs(alloc, &self.outputs)?;
        Ok(Program {
            inputs,
            lets,
            outputs,
        })
    }

    /// The size; at most 18446744073709551615, which stands for every greater number too. No memory is taken.
    pub fn size(&self) -> u64
        ensures { result ≡ min (program_size (plain_program (program_tree self.now))) (2 ^ 64 - 1) }
    {
        let mut size = 0u64;
        for item in &self.lets {
            size = size
                .saturating_add(rel_size(&item.relation))
                .saturating_add(1);
        }
        for output in &self.outputs {
            size = size.saturating_add(rel_size(&output.relation));
        }
        size
    }

    /// The depth; at most 18446744073709551615, which stands for every greater number too. No memory is taken.
    pub fn depth(&self) -> u64
        ensures { result ≡ min (program_depth (plain_program (program_tree self.now))) (2 ^ 64 - 1) }
    {
        let mut deepest = 0u64;
        for item in &self.lets {
            deepest = deepest.max(rel_depth(&item.relation));
        }
        for output in &self.outputs {
            deepest = deepest.max(rel_depth(&output.relation));
        }
        deepest
    }
}
