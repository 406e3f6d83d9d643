//! Relations.

ghost use Rattle.std.specs.Prelude.{◌≡◌, ◌++◌, ◌∷◌, [], map, OnOk, OnErr};
ghost use Rattle.lexer.specs.declared.mark.Mark.TheVariants as sign;
ghost use Rattle.expr_tree.specs.Trees.{RelTree};
ghost use Rattle.expr_tree.specs.Views.{cond_tree, rel_tree, scalar_tree};
ghost use Rattle.writer.specs.Pieces.{Extends, of_mark, text_of, word};
ghost use Rattle.writer.specs.Scalars.{nowhere};
ghost use Rattle.writer.specs.Relations.{loop_head, loop_word, operation_head, rel_pieces};

use crate::condition::write_cond;
use crate::list::{write_aggs, write_columns, write_pairs};
use crate::push::{push, push_number};
use crate::scalar::write_scalars;
use expr_tree::{Agg, Column, Cond, LoopForm, Pair, Rel, Scalar, SetOperator};
use record_core::Name;
use std::alloc::{AllocError, Allocator};

/// Appends the text of a relation.
#[cycle(write)]
pub fn write_rel<A: Allocator>(out: &mut Vec<u8>, relation: &Rel<A>) -> Result<(), AllocError>
    ensures ok { OnOk result (out.new.items ≡ out.old.items ++ text_of (rel_pieces (rel_tree relation.now))) }
    ensures err { OnErr result (Extends out.old.items out.new.items) }
{
    match relation {
        Rel::Named(_, name) => write_named(out, name),
        Rel::Select(_, of, scalars) => write_select(out, of, scalars),
        Rel::Where(_, of, condition) => write_filter(out, of, condition),
        Rel::SetOperation(_, operator, left, right) => {
            write_set_operation(out, *operator, left, right)
        }
        Rel::Join(_, left, right, pairs) => write_join(out, left, right, pairs),
        Rel::Group(_, of, keys, aggregates) => write_group(out, of, keys, aggregates),
        Rel::Distinct(_, of) => write_distinct(out, of),
        Rel::Loop {
            form,
            turns,
            name,
            start,
            body,
            ..
        } => write_loop(out, *form, *turns, name, start, body),
    }
}

/// Appends a name.
fn write_named(out: &mut Vec<u8>, name: &Name) -> Result<(), AllocError>
    ensures ok { OnOk result (out.new.items ≡ out.old.items ++ text_of (rel_pieces (RelTree.named nowhere name.now))) }
    ensures err { OnErr result (Extends out.old.items out.new.items) }
{
    push(out, name.bytes())
}

#[cycle(write)]
fn write_select<A: Allocator>(
    out: &mut Vec<u8>,
    of: &Rel<A>,
    scalars: &[Scalar<A>],
) -> Result<(), AllocError>
    ensures ok { OnOk result (out.new.items ≡ out.old.items ++ text_of (rel_pieces (RelTree.select nowhere (rel_tree of.now) (map scalar_tree scalars.now)))) }
    ensures err { OnErr result (Extends out.old.items out.new.items) }
{
    push(out, b"select(")?;
    write_rel(out, of)?;
    push(out, b"; ")?;
    write_scalars(out, scalars)?;
    push(out, b")")
}

#[cycle(write)]
fn write_filter<A: Allocator>(
    out: &mut Vec<u8>,
    of: &Rel<A>,
    condition: &Cond<A>,
) -> Result<(), AllocError>
    ensures ok { OnOk result (out.new.items ≡ out.old.items ++ text_of (rel_pieces (RelTree.filter nowhere (rel_tree of.now) (cond_tree condition.now)))) }
    ensures err { OnErr result (Extends out.old.items out.new.items) }
{
    push(out, b"where(")?;
    write_rel(out, of)?;
    push(out, b"; ")?;
    write_cond(out, condition)?;
    push(out, b")")
}

/// Appends what a set operation begins with.
fn write_operator(out: &mut Vec<u8>, operator: SetOperator) -> Result<(), AllocError>
    ensures ok { OnOk result (out.new.items ≡ out.old.items ++ text_of (operation_head operator)) }
    ensures err { OnErr result (Extends out.old.items out.new.items) }
{
    match operator {
        SetOperator::Concat => push(out, b"concat("),
        SetOperator::Except => push(out, b"except("),
        SetOperator::Intersect => push(out, b"intersect("),
    }
}

#[cycle(write)]
fn write_set_operation<A: Allocator>(
    out: &mut Vec<u8>,
    operator: SetOperator,
    left: &Rel<A>,
    right: &Rel<A>,
) -> Result<(), AllocError>
    ensures ok { OnOk result (out.new.items ≡ out.old.items
        ++ text_of (rel_pieces (RelTree.set_operation nowhere operator (rel_tree left.now) (rel_tree right.now)))) }
    ensures err { OnErr result (Extends out.old.items out.new.items) }
{
    write_operator(out, operator)?;
    write_rel(out, left)?;
    push(out, b", ")?;
    write_rel(out, right)?;
    push(out, b")")
}

#[cycle(write)]
fn write_join<A: Allocator>(
    out: &mut Vec<u8>,
    left: &Rel<A>,
    right: &Rel<A>,
    pairs: &[Pair],
) -> Result<(), AllocError>
    ensures ok { OnOk result (out.new.items ≡ out.old.items ++ text_of (rel_pieces (RelTree.join nowhere (rel_tree left.now) (rel_tree right.now) pairs.now))) }
    ensures err { OnErr result (Extends out.old.items out.new.items) }
{
    push(out, b"join(")?;
    write_rel(out, left)?;
    push(out, b", ")?;
    write_rel(out, right)?;
    push(out, b"; ")?;
    write_pairs(out, pairs)?;
    push(out, b")")
}

#[cycle(write)]
fn write_group<A: Allocator>(
    out: &mut Vec<u8>,
    of: &Rel<A>,
    keys: &[Column],
    aggregates: &[Agg],
) -> Result<(), AllocError>
    ensures ok { OnOk result (out.new.items ≡ out.old.items ++ text_of (rel_pieces (RelTree.group nowhere (rel_tree of.now) keys.now aggregates.now))) }
    ensures err { OnErr result (Extends out.old.items out.new.items) }
{
    push(out, b"group(")?;
    write_rel(out, of)?;
    push(out, b"; ")?;
    write_columns(out, keys)?;
    push(out, b"; ")?;
    write_aggs(out, aggregates)?;
    push(out, b")")
}

#[cycle(write)]
fn write_distinct<A: Allocator>(out: &mut Vec<u8>, of: &Rel<A>) -> Result<(), AllocError>
    ensures ok { OnOk result (out.new.items ≡ out.old.items ++ text_of (rel_pieces (RelTree.distinct nowhere (rel_tree of.now)))) }
    ensures err { OnErr result (Extends out.old.items out.new.items) }
{
    push(out, b"distinct(")?;
    write_rel(out, of)?;
    push(out, b")")
}

/// Appends the word of a loop, and its bracket.
fn write_word(out: &mut Vec<u8>, form: LoopForm) -> Result<(), AllocError>
    ensures ok { OnOk result (out.new.items ≡ out.old.items ++ text_of (word (loop_word form) ∷ of_mark sign.OpenRound ∷ [])) }
    ensures err { OnErr result (Extends out.old.items out.new.items) }
{
    match form {
        LoopForm::Iterate => push(out, b"iterate("),
        LoopForm::Closure => push(out, b"closure("),
    }
}

/// Appends what a loop begins with: its turns and its variable.
fn write_head(out: &mut Vec<u8>, form: LoopForm, turns: u64, name: &Name) -> Result<(), AllocError>
    ensures ok { OnOk result (out.new.items ≡ out.old.items ++ text_of (loop_head form turns name.now)) }
    ensures err { OnErr result (Extends out.old.items out.new.items) }
{
    write_word(out, form)?;
    push_number(out, turns)?;
    push(out, b"; ")?;
    push(out, name.bytes())?;
    push(out, b" = ")
}

#[cycle(write)]
fn write_loop<A: Allocator>(
    out: &mut Vec<u8>,
    form: LoopForm,
    turns: u64,
    name: &Name,
    start: &Rel<A>,
    body: &Rel<A>,
) -> Result<(), AllocError>
    ensures ok { OnOk result (out.new.items ≡ out.old.items
        ++ text_of (rel_pieces (RelTree.loop nowhere form nowhere turns nowhere name.now (rel_tree start.now) (rel_tree body.now)))) }
    ensures err { OnErr result (Extends out.old.items out.new.items) }
{
    write_head(out, form, turns, name)?;
    write_rel(out, start)?;
    push(out, b"; ")?;
    write_rel(out, body)?;
    push(out, b")")
}
