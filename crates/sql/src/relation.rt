//! Relations to tables.

ghost use Rattle.std.specs.Prelude.{◌≡◌, IfOk, OnOk};
ghost use Rattle.expr_tree.specs.Plain.{plain_rel};
ghost use Rattle.expr_tree.specs.Views.{rel_tree};
ghost use Rattle.semantics.specs.Query.{Loop};
ghost use Rattle.sql_meaning.specs.Translation.{stands, then_query, written, written_loop, written_term};
ghost use Rattle.sql.specs.Shown.{IsWritten, IsWrittenTerm, made_of, names_of, shown_table, turn_of};

use crate::linear::{is_linear, is_recursion};
use crate::scope::Scope;
use crate::table::{Query, Table, Term, add_table};
use expr_tree::{LoopForm, Rel, SetOperator};
use record_core::{Name, NoMemory};
use std::alloc::Allocator;

/// The term in a box of its own.
fn boxed<'a, A: Allocator>(
    term: Term<'a, A>,
    made: &Vec<Query<'a, A>>,
) -> Result<Box<Term<'a, A>>, NoMemory>
    ensures { IfOk result (λ b. b.value ≡ term.entry) }
{
    Ok(Box::new(*made.allocator(), term)?)
}

/// Makes the tables of a relation after those that are there, and gives the one that holds its rows.
#[cycle(write)]
pub fn write_rel<'a, A: Allocator>(
    recursive: bool,
    relation: &'a Rel<A>,
    scope: &mut Scope,
    made: &mut Vec<Query<'a, A>>,
) -> Result<Table, NoMemory>
    ensures made { IfOk result (IsWritten (written recursive (plain_rel (rel_tree relation.now)) (names_of scope.old) (made_of made.old.items)) made.new.items) }
    ensures scope { OnOk result (scope.new ≡ scope.old) }
{
    match relation {
        Rel::Named(_, name) => Ok(scope.find(name)),
        Rel::Select(_, of, scalars) => {
            let from = write_rel(recursive, of, scope, made)?;
            add_table(Query::Select(scalars, from), made)
        }
        Rel::Where(_, of, condition) => {
            let from = write_rel(recursive, of, scope, made)?;
            add_table(Query::Where(from, condition), made)
        }
        Rel::SetOperation(_, operator, left, right) => {
            let left = write_rel(recursive, left, scope, made)?;
            let right = write_rel(recursive, right, scope, made)?;
            add_table(Query::SetOperation(*operator, left, right), made)
        }
        Rel::Join(_, left, right, pairs) => {
            let left = write_rel(recursive, left, scope, made)?;
            let right = write_rel(recursive, right, scope, made)?;
            add_table(Query::Join(left, right, pairs), made)
        }
        Rel::Group(_, of, keys, aggregates) => {
            let from = write_rel(recursive, of, scope, made)?;
            add_table(Query::Group(keys, aggregates, from), made)
        }
        Rel::Distinct(_, of) => {
            let from = write_rel(recursive, of, scope, made)?;
            add_table(Query::Distinct(from), made)
        }
        Rel::Loop {
            form,
            turns,
            name,
            start,
            body,
            ..
        } => {
            let start = write_rel(recursive, start, scope, made)?;
            if is_recursion(recursive, *form, *turns, name, body) {
                let term = write_term(recursive, name, body, scope, made)?;
                return add_table(Query::Recursive(*turns, start, term), made);
            }
            match form {
                LoopForm::Iterate => {
                    write_iterate(recursive, *turns, name, start, body, scope, made)
                }
                LoopForm::Closure => {
                    write_closure(recursive, *turns, name, start, body, scope, made)
                }
            }
        }
    }
}

/// Makes the tables of one turn, in which the name stands for the table.
#[cycle(write)]
fn write_turn<'a, A: Allocator>(
    recursive: bool,
    name: &Name,
    table: Table,
    body: &'a Rel<A>,
    scope: &mut Scope,
    made: &mut Vec<Query<'a, A>>,
) -> Result<Table, NoMemory>
    ensures made { IfOk result (IsWritten (written recursive (plain_rel (rel_tree body.now)) (stands name.now (shown_table table) (names_of scope.old)) (made_of made.old.items)) made.new.items) }
    ensures scope { OnOk result (scope.new ≡ scope.old) }
{
    scope.bind(name, table)?;
    let gives = write_rel(recursive, body, scope, made)?;
    scope.forget();
    Ok(gives)
}

/// Makes the tables of all turns of an iterate, and gives the last turn's.
#[cycle(write)]
fn write_iterate<'a, A: Allocator>(
    recursive: bool,
    turns: u64,
    name: &Name,
    start: Table,
    body: &'a Rel<A>,
    scope: &mut Scope,
    made: &mut Vec<Query<'a, A>>,
) -> Result<Table, NoMemory>
    ensures made { IfOk result (IsWritten (written_loop Loop.iterate turns (turn_of recursive name.now (plain_rel (rel_tree body.now)) (names_of scope.old)) (record { tables = made_of made.old.items; result = shown_table start })) made.new.items) }
    ensures scope { OnOk result (scope.new ≡ scope.old) }
{
    let mut latest = start;
    for _turn in 0..turns {
        latest = write_turn(recursive, name, latest, body, scope, made)?;
    }
    Ok(latest)
}

/// Makes the tables of all turns of a closure, and gives the one with all that was found.
#[cycle(write)]
fn write_closure<'a, A: Allocator>(
    recursive: bool,
    turns: u64,
    name: &Name,
    start: Table,
    body: &'a Rel<A>,
    scope: &mut Scope,
    made: &mut Vec<Query<'a, A>>,
) -> Result<Table, NoMemory>
    ensures made { IfOk result (IsWritten (written_loop Loop.closure turns (turn_of recursive name.now (plain_rel (rel_tree body.now)) (names_of scope.old)) (record { tables = made_of made.old.items; result = shown_table start })) made.new.items) }
    ensures scope { OnOk result (scope.new ≡ scope.old) }
{
    let mut latest = add_table(Query::Distinct(start), made)?;
    let mut all = latest;
    for _turn in 0..turns {
        let gives = write_turn(recursive, name, latest, body, scope, made)?;
        latest = add_table(Query::SetOperation(SetOperator::Except, gives, all), made)?;
        all = add_table(Query::SetOperation(SetOperator::Concat, all, latest), made)?;
    }
    Ok(all)
}

/// Makes the tables of the other sides of the joins of a body that is linear in a name, and gives its recursive term.
#[cycle(write)]
fn write_term<'a, A: Allocator>(
    recursive: bool,
    name: &Name,
    relation: &'a Rel<A>,
    scope: &mut Scope,
    made: &mut Vec<Query<'a, A>>,
) -> Result<Term<'a, A>, NoMemory>
    ensures made { IfOk result (IsWrittenTerm (written_term recursive name.now (plain_rel (rel_tree relation.now)) (names_of scope.old) (made_of made.old.items)) made.new.items) }
    ensures scope { OnOk result (scope.new ≡ scope.old) }
{
    match relation {
        Rel::Select(_, of, scalars) => {
            let of = write_term(recursive, name, of, scope, made)?;
            Ok(Term::Select(scalars, boxed(of, made)?))
        }
        Rel::Where(_, of, condition) => {
            let of = write_term(recursive, name, of, scope, made)?;
            Ok(Term::Where(boxed(of, made)?, condition))
        }
        Rel::Join(_, left, right, pairs) => {
            if is_linear(name, left) {
                let left = write_term(recursive, name, left, scope, made)?;
                let left = boxed(left, made)?;
                let right = write_rel(recursive, right, scope, made)?;
                Ok(Term::JoinLeft(left, right, pairs))
            } else {
                let left = write_rel(recursive, left, scope, made)?;
                let right = write_term(recursive, name, right, scope, made)?;
                Ok(Term::JoinRight(left, boxed(right, made)?, pairs))
            }
        }
        Rel::Named(_, _)
        | Rel::SetOperation(_, _, _, _)
        | Rel::Group(_, _, _, _)
        | Rel::Distinct(_, _)
        | Rel::Loop { .. } => Ok(Term::Latest),
    }
}
