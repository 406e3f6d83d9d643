//! Programs rewritten: the outputs, then the lets from the last to the first, of which those that nothing reaches are dropped.

ghost use Rattle.std.specs.Prelude.{◌≡◌, ◌≤◌, ℕ, List, IfOk, OnOk};
ghost use Rattle.std.specs.List.{AllZip};
ghost use Rattle.semantics.specs.Meaning.{program_meaning};
ghost use Rattle.semantics.specs.Multiset.{Record};
ghost use Rattle.semantics.specs.Normal.{NormalProgram};
ghost use Rattle.semantics.specs.Rewriting.{RewritesTo};
ghost use Rattle.semantics.specs.Size.{program_size};
ghost use Rattle.expr_tree.specs.Plain.{plain_output, plain_program};
ghost use Rattle.expr_tree.specs.PlainLists.{plain_lets, plain_outputs};
ghost use Rattle.expr_tree.specs.Views.{output_tree};
ghost use Rattle.typing.specs.Shown.{output_arities, typed_program};
ghost use Rattle.normalise.specs.Reached.{IsReachedOf};
ghost use Rattle.normalise.specs.Rewritten.{IsRewrittenOutput};

use crate::names::{NameSet, add_free, add_free_in_outputs};
use crate::relation::{rewritten, rewritten_in_box};
use expr_tree::{Let, Output, Program};
use record_core::NoMemory;
use std::alloc::Allocator;
use typing::Typed;

/// Rewrites the relation of an output.
fn rewrite_output<A: Allocator + Copy>(alloc: A, output: &mut Output<A>) -> Result<(), NoMemory>
    ensures { OnOk result (IsRewrittenOutput (plain_output (output_tree output.new)) (plain_output (output_tree output.old))) }
{
    let relation = output.relation.take();
    *output.relation = rewritten(alloc, relation)?;
    Ok(())
}

/// Rewrites the relation of each output.
fn rewrite_outputs<A: Allocator + Copy>(
    alloc: A,
    outputs: &mut Vec<Output<A>, A>,
) -> Result<(), NoMemory>
    ensures { OnOk result (AllZip IsRewrittenOutput (plain_outputs outputs.new.items) (plain_outputs outputs.old.items)) }
{
    for output in outputs.iter_mut() {
        rewrite_output(alloc, output)?;
    }
    Ok(())
}

/// The lets that the outputs reach, each rewritten, in their order.
fn reached_lets<A: Allocator + Copy>(
    mut lets: Vec<Let<A>, A>,
    outputs: &[Output<A>],
) -> Result<Vec<Let<A>, A>, NoMemory>
    ensures { IfOk result (λ kept. IsReachedOf (plain_lets kept.items) (plain_lets lets.items) (plain_outputs outputs.now)) }
{
    let alloc = *lets.allocator();
    let mut reached: NameSet<A> = NameSet::new(alloc);
    add_free_in_outputs(&mut reached, outputs)?;
    let mut kept = Vec::new(alloc);
    while let Some(item) = lets.pop() {
        let Let {
            name_span,
            name,
            relation,
        } = item;
        if reached.contains(&name) {
            let relation = rewritten_in_box(alloc, relation)?;
            add_free(&mut reached, &relation)?;
            kept.push(Let {
                name_span,
                name,
                relation,
            })?;
        }
    }
    kept.reverse();
    Ok(kept)
}

/// The query normalised: reached by the rules, from the inside out, and no rule applies to it; it means the same and is no larger.
///
/// - `+`, `-` and `*` of two literals and the negation of a literal become the literal of the wrapped value;
/// - a `where` of a `where` becomes one, with the inner condition first;
/// - a `select` of a `select` becomes one, where the outer scalars together use each column at most once;
/// - a `distinct` of a `distinct`, an `except` or an `intersect` becomes what it holds, and a loop of no turns its start;
/// - a let that no output reaches, directly or through other lets, is dropped.
///
/// Conditions and comparisons aren't folded, inputs are never dropped, and nothing crosses a name. A literal may become negative, and
/// then the query is none that a text has. Nodes are moved, in the tree's own allocator, which gives what memory is taken; what a rule
/// drops is dropped at once. An `Err` comes only where a growth was refused; then the tree is gone, and dropped.
pub fn normalise<A: Allocator + Copy>(typed: Typed<A>) -> Result<Typed<A>, NoMemory>
    ensures inputs { IfOk result (λ made. (typed_program made).inputs ≡ (typed_program typed).inputs) }
    ensures arities { IfOk result (λ made. output_arities made ≡ output_arities typed) }
    ensures meaning { IfOk result (λ made. (output : ℕ) (records : ℕ → List Record) →
        program_meaning (plain_program (typed_program made)) output records ≡ program_meaning (plain_program (typed_program typed)) output records) }
    ensures no_larger { IfOk result (λ made. program_size (plain_program (typed_program made)) ≤ program_size (plain_program (typed_program typed))) }
    ensures normal { IfOk result (λ made. NormalProgram (plain_program (typed_program made))) }
    ensures reached { IfOk result (λ made. RewritesTo (plain_program (typed_program typed)) (plain_program (typed_program made))) }
{
    let (program, arities) = typed.into_parts();
    let Program {
        inputs,
        lets,
        mut outputs,
    } = program;
    let alloc = *lets.allocator();
    rewrite_outputs(alloc, &mut outputs)?;
    let lets = reached_lets(lets, &outputs)?;
    Ok(Typed::new(
        Program {
            inputs,
            lets,
            outputs,
        },
        arities,
    ))
}
