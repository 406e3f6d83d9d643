//! Programs to scripts.

ghost use Rattle.std.specs.Prelude.{◌≡◌, ◌<◌, ◌^◌, ◌+◌, ◌++◌, [], length, map, IfOk, OnOk};
ghost use Rattle.expr_tree.specs.Plain.{plain_input, plain_program};
ghost use Rattle.expr_tree.specs.PlainLists.{plain_lets, plain_outputs};
ghost use Rattle.expr_tree.specs.Views.{program_tree};
ghost use Rattle.sql_meaning.specs.Translation.{after_lets, input_tables, script_of, written_outputs};
ghost use Rattle.sql.specs.Shown.{made_of, names_of, shown_script, shown_table};

use crate::relation::write_rel;
use crate::scope::Scope;
use crate::table::{Query, Script, Table};
use expr_tree::{Input, Let, Output, Program};
use record_core::NoMemory;
use std::alloc::{Allocator, Global};

/// The script of a program: the tables of its lets, then those of its outputs.
pub fn make_script<'a, A: Allocator>(
    alloc: Global,
    recursive: bool,
    program: &'a Program<A>,
) -> Result<Script<'a, A>, NoMemory>
    ensures { IfOk result (λ s. shown_script s ≡ script_of recursive (plain_program (program_tree program.now))) }
{
    let mut scope = Scope::new(alloc, program.inputs.len() as u64);
    let mut made = Vec::new(alloc);
    let mut results = Vec::new(alloc);
    bind_inputs(&program.inputs, 0, &mut scope)?;
    write_lets(recursive, &program.lets, &mut scope, &mut made)?;
    write_outputs(
        recursive,
        &program.outputs,
        &mut scope,
        &mut made,
        &mut results,
    )?;
    Ok(Script { made, results })
}

/// In the scope each input's name stands for its table, the first of which has the number `first`.
fn bind_inputs(inputs: &[Input], first: u64, scope: &mut Scope) -> Result<(), NoMemory>
    requires none { scope.old ≡ record { entries = []; inputs = first + length inputs.now } }
    requires room { first + length inputs.now < 2 ^ 64 }
    ensures { OnOk result (names_of scope.new ≡ input_tables (map plain_input inputs.now) first) }
{
    match inputs {
        [] => Ok(()),
        [input, rest @ ..] => {
            bind_inputs(rest, first + 1, scope)?;
            scope.bind(&input.name, Table::Given(first))
        }
    }
}

/// Makes the tables of lets in order; in the scope each name then stands for the one that holds its relation's rows.
fn write_lets<'a, A: Allocator>(
    recursive: bool,
    lets: &'a [Let<A>],
    scope: &mut Scope,
    made: &mut Vec<Query<'a, A>>,
) -> Result<(), NoMemory>
    ensures { OnOk result (after_lets recursive (plain_lets lets.now) (record { names = names_of scope.old; tables = made_of made.old.items })
        ≡ record { names = names_of scope.new; tables = made_of made.new.items }) }
{
    for i in 0..lets.len() {
        let item = &lets[i];
        let table = write_rel(recursive, &item.relation, scope, made)?;
        scope.bind(&item.name, table)?;
    }
    Ok(())
}

/// Makes the tables of outputs in order, at most 16, and adds those that hold their rows to `results`.
fn write_outputs<'a, A: Allocator>(
    recursive: bool,
    outputs: &'a [Output<A>],
    scope: &mut Scope,
    made: &mut Vec<Query<'a, A>>,
    results: &mut Vec<Table>,
) -> Result<(), NoMemory>
    ensures made { OnOk result ((written_outputs recursive (plain_outputs outputs.now) (names_of scope.old) (made_of made.old.items)).tables ≡ made_of made.new.items) }
    ensures results { OnOk result (map shown_table results.new.items ≡
        map shown_table results.old.items ++ (written_outputs recursive (plain_outputs outputs.now) (names_of scope.old) (made_of made.old.items)).results) }
{
    match outputs {
        [] => Ok(()),
        [output, rest @ ..] => {
            let table = write_rel(recursive, &output.relation, scope, made)?;
            results.push(table)?;
            write_outputs(recursive, rest, scope, made, results)
        }
    }
}
