//! Warnings: what is accepted in a query, and most likely a mistake.

ghost use Rattle.std.specs.Prelude.{IfOk};
ghost use Rattle.compile.specs.Unused.{IsUnusedIn};

use crate::constants::{number_in, truth_of};
use crate::fault::query_fault;
use crate::typed_program;
use crate::unused::unused_of;
use diagnostics::{Doubt, Fault, Warnings};
use expr_tree::{Cond, Pair, Program, Rel};
use record_core::{NoMemory, Span};
use std::alloc::{Allocator, Global};

/// The place of a condition.
fn place_of<A: Allocator>(condition: &Cond<A>) -> Span {
    match condition {
        Cond::Compare(span, _, _, _) | Cond::Logical(span, _, _, _) | Cond::Not(span, _) => *span,
    }
}

/// Appends what comes out alike for each record in a condition.
fn push_condition<A: Allocator>(
    doubts: &mut Vec<Doubt>,
    condition: &Cond<A>,
) -> Result<(), NoMemory> {
    if let Some(truth) = truth_of(condition) {
        doubts.push(Doubt::Condition(place_of(condition), truth))?;
    }
    Ok(())
}

/// Appends the pairs of columns of a join that never meet.
fn push_pairs<A: Allocator>(
    doubts: &mut Vec<Doubt>,
    left: &Rel<A>,
    right: &Rel<A>,
    pairs: &[Pair],
) -> Result<(), NoMemory> {
    for pair in pairs {
        if let Some(first) = number_in(left, pair.left.index) {
            if let Some(second) = number_in(right, pair.right.index) {
                if first != second {
                    doubts.push(Doubt::Pair(pair.left.span, first, second))?;
                }
            }
        }
    }
    Ok(())
}

/// Appends what comes out alike for each record in a relation, in the order of the text.
fn push_doubts<A: Allocator>(doubts: &mut Vec<Doubt>, relation: &Rel<A>) -> Result<(), NoMemory> {
    match relation {
        Rel::Named(_, _) => Ok(()),
        Rel::Select(_, of, _) | Rel::Group(_, of, _, _) | Rel::Distinct(_, of) => {
            push_doubts(doubts, of)
        }
        Rel::Where(_, of, condition) => {
            push_doubts(doubts, of)?;
            push_condition(doubts, condition)
        }
        Rel::SetOperation(_, _, left, right) => {
            push_doubts(doubts, left)?;
            push_doubts(doubts, right)
        }
        Rel::Join(_, left, right, pairs) => {
            push_doubts(doubts, left)?;
            push_doubts(doubts, right)?;
            push_pairs(doubts, left, right, pairs)
        }
        Rel::Loop { start, body, .. } => {
            push_doubts(doubts, start)?;
            push_doubts(doubts, body)
        }
    }
}

/// What comes out alike for each record in a program.
fn doubts_of<A: Allocator>(alloc: Global, program: &Program<A>) -> Result<Vec<Doubt>, NoMemory> {
    let mut doubts = Vec::new(alloc);
    for item in program.lets.iter() {
        push_doubts(&mut doubts, &item.relation)?;
    }
    for output in program.outputs.iter() {
        push_doubts(&mut doubts, &output.relation)?;
    }
    Ok(doubts)
}

/// The warnings of a query that is well typed.
pub fn warnings_of<A: Allocator + Copy>(
    alloc: Global,
    arena: A,
    query: &[u8],
) -> Result<Warnings, Fault>
    ensures { IfOk result (λ w. IsUnusedIn query.now w.unused) }
{
    let typed = match typed_program(alloc, arena, query) {
        Ok(typed) => typed,
        Err(refusal) => return Err(query_fault(refusal)),
    };
    let program = typed.program();
    let unused = match unused_of(alloc, program) {
        Ok(unused) => unused,
        Err(_) => return Err(Fault::NoMemory),
    };
    match doubts_of(alloc, program) {
        Ok(doubts) => Ok(Warnings { unused, doubts }),
        Err(_) => Err(Fault::NoMemory),
    }
}
