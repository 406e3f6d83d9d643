//! The arities of a graph's ports.

ghost use Rattle.std.specs.Prelude.{◌≡◌, ◌≤◌, ◌<◌, ℕ, List, map, slice_index_or, IfOk};
ghost use Rattle.expr_tree.specs.Plain.{plain_program};
ghost use Rattle.expr_tree.specs.Views.{program_tree};
ghost use Rattle.semantics.specs.Lower.{lowered};
ghost use Rattle.semantics.specs.Typing.{WellTyped};
ghost use Rattle.graph.specs.Arities.{AreArities};
ghost use Rattle.lowering.specs.Sent.{arity_in, sent};
ghost use Rattle.graph.specs.Views.{graph_of, kind_of, sources_of};
ghost use Rattle.semantics.specs.Limits.{max_fields};

use expr_tree::{Input, Program};
use graph::{Kind, Vertex, arity_at, two_sources};
use record_core::NoMemory;
use std::alloc::{Allocator, Global};

/// For each vertex of a program's graph the number of fields of the records that it sends, or for the output of those that come to it.
pub fn arities_of<A: Allocator>(
    alloc: Global,
    program: &Program<A>,
    vertices: &[Vertex],
) -> Result<Vec<u64>, NoMemory>
    requires typed { (ns : List ℕ) × WellTyped (plain_program (program_tree program.now)) ns }
    requires graph { graph_of vertices.now ≡ lowered (plain_program (program_tree program.now)) }
    ensures { IfOk result (λ a. AreArities a.items (plain_program (program_tree program.now))) }
{
    semantics::graphs::law_program();
    semantics::graphs::law_arities();
    let mut arities = Vec::with_capacity(alloc, vertices.len())?;
    for i in 0..vertices.len() {
        let declared = declared_arity(&program.inputs, i);
        arities.push(sent_arity(&vertices[i], declared, &arities))?;
    }
    Ok(arities)
}

/// The arity of the input of that number; 0 where there is none.
fn declared_arity(inputs: &[Input], number: usize) -> u64
    ensures { result ≡ slice_index_or (map (λ a. a.arity) inputs.now) number 0 }
{
    match inputs.get(number) {
        Some(input) => input.arity,
        None => 0,
    }
}

/// The arity of what a vertex sends, from those of the vertices before it.
fn sent_arity(vertex: &Vertex, declared: u64, arities: &[u64]) -> u64
    requires { (v : ℕ) → slice_index_or arities.now v 0 ≤ max_fields }
    ensures { result ≡ sent (kind_of vertex.now.kind) declared
        (arity_in arities.now (sources_of vertex.now.ins) 0) (arity_in arities.now (sources_of vertex.now.ins) 1) }
{
    let (first, second) = two_sources(vertex.ins);
    let first = arity_at(arities, first);
    let second = arity_at(arities, second);
    match &vertex.kind {
        Kind::Input => declared,
        Kind::Select(scalars) => scalars.len() as u64,
        Kind::Join(_) | Kind::Lookup(_) => first + second,
        Kind::Group(keys, aggregates) => keys.len() as u64 + aggregates.len() as u64,
        Kind::Output => first,
        Kind::Where(_) => first,
        Kind::Concat => first,
        Kind::Distinct => first,
        Kind::Except => first,
        Kind::Intersect => first,
        Kind::Ingress => first,
        Kind::Egress => first,
        Kind::Feedback => first,
        Kind::Gate(_) => first,
        Kind::Unseen(_) => first,
        Kind::Hold(_) => first,
    }
}
