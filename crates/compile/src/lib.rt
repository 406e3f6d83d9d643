//! The compiler: a query's text to its dataflow graph, and what is printed of a query that isn't run.
//!
//! `compile` is the composition of the crates below, each of which promises its own step:
//!
//!     bytes -> tokens -> tree      parser::parse           the tokens of the lexis, and the one tree that the grammar relates them to
//!     tree -> typed tree           typing::check           well typed, with the arities of its outputs
//!     typed tree -> normal form    normalise::normalise    the same inputs, outputs, arities and meaning
//!     normal form -> graph         lowering::lower         the definition's graph, at most 4096 vertices
//!
//! The contract for the layers above is that of the composition. On any inputs the graph has exactly one flow, and it brings to each output what
//! the text's program means there; where there is no graph, the text's first fault is named, or its size. A text has one such graph. The check of
//! a query, alone or with an input, its canonical text and its script of SQL stop on the way: `checked_text`, `checked_input`, `canonical_text`, `script_text`.
//!
//! Nothing here runs a graph, reads a file or writes one: bytes come in, and bytes, a graph or a fault come out. Below are the crates of the
//! language, `graph`, the collector, which reads the input that is checked, and `diagnostics`, which has the faults.
#![tactic(auto)]

mod checking;
mod constants;
mod early;
mod fault;
mod formatting;
mod input_check;
mod laws;
mod scripting;
mod unused;
mod warnings;

ghost use Rattle.std.specs.Prelude.{◌≤◌, length, IfOk, IfErr};
ghost use Rattle.expr_tree.specs.Plain.{plain_program};
ghost use Rattle.semantics.specs.Rewriting.{IsNormalForm};
ghost use Rattle.semantics.specs.Typing.{WellTyped};
ghost use Rattle.typing.specs.Shown.{typed_program as shown_program, output_arities};
ghost use Rattle.graph.specs.Shown.{shown_graph, shown_inputs, shown_names};
ghost use Rattle.graph.specs.Limits.{max_vertices};
ghost use Rattle.compile.specs.Compiled.{IsCompiled, IsUncompiled};
ghost use Rattle.compile.specs.Queries.{IsRefusal, IsTypedQuery};

pub use checking::{checked_text, push_input, push_output};
pub use early::{input_places, noted_early};
use fault::compile_fault;
pub use fault::{CompileFault, graph_fault, input_fault};
pub use formatting::canonical_text;
use graph::Graph;
pub use input_check::{CheckedInput, checked_input};
pub use laws::law_one_graph;
use lowering::{LowerFault, lower};
use normalise::normalise;
use parser::parse;
use record_core::{NoMemory, Refusal};
pub use scripting::script_text;
pub use sql::{Arithmetic, Epochs, Form, Layout, Request};
use std::alloc::{Allocator, Global};
use typing::{Typed, check};
pub use warnings::warnings_of;

/// The typed program of a query text.
pub fn typed_program<A: Allocator + Copy>(
    alloc: Global,
    arena: A,
    text: &[u8],
) -> Result<Typed<A>, Refusal>
    ensures typed { IfOk result (λ t. IsTypedQuery text.now t) }
    ensures well { IfOk result (λ t. WellTyped (plain_program (shown_program t)) (output_arities t)) }
    ensures refusal { IfErr result (IsRefusal text.now) }
{
    let program = match parse(arena, text) {
        Ok(program) => program,
        Err(refusal) => return Err(refusal),
    };
    match check(alloc, program) {
        Ok(typed) => {
            let _ = typed.program();
            Ok(typed)
        }
        Err((_, refusal)) => Err(refusal),
    }
}

/// The normal form that a typed program rewrites to.
fn normal_form<A: Allocator + Copy>(typed: Typed<A>) -> Result<Typed<A>, NoMemory>
    ensures { IfOk result (λ q. IsNormalForm (plain_program (shown_program q)) (plain_program (shown_program typed))) }
{
    let normal = normalise(typed)?;
    Ok(normal)
}

/// The dataflow graph of a query text's normal form, at most 4096 vertices. On any inputs it has exactly one flow, and what comes to each output
/// is at each epoch what the text's program means there. The tree lies in the arena, and is dropped once the graph is made.
pub fn compile<A: Allocator + Copy>(
    alloc: Global,
    arena: A,
    text: &[u8],
) -> Result<Graph, CompileFault>
    ensures graph { IfOk result (λ g. IsCompiled text.now (shown_graph g) (shown_inputs g) (shown_names g)) }
    ensures few { IfOk result (λ g. length (shown_graph g) ≤ max_vertices) }
    ensures fault { IfErr result (IsUncompiled text.now) }
{
    let typed = match typed_program(alloc, arena, text) {
        Ok(typed) => typed,
        Err(refusal) => return Err(compile_fault(refusal)),
    };
    let normal = match normal_form(typed) {
        Ok(normal) => normal,
        Err(_) => return Err(CompileFault::NoMemory),
    };
    match lower(alloc, &normal) {
        Ok(graph) => Ok(graph),
        Err(LowerFault::TooMany) => Err(CompileFault::TooManyVertices),
        Err(LowerFault::NoMemory) => Err(CompileFault::NoMemory),
    }
}
