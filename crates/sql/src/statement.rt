//! The text of a script or a statement.

ghost use Rattle.std.specs.Prelude.{◌≡◌, ◌≤◌, ◌++◌, [], cond, length, map, option_map, take, true, IfErr, IfOk, OnOk};
ghost use Rattle.expr_tree.specs.Plain.{plain_input, plain_program};
ghost use Rattle.expr_tree.specs.PlainLists.{plain_outputs};
ghost use Rattle.expr_tree.specs.Views.{program_tree};
ghost use Rattle.sql.specs.Asked.{asked_of, has_layout, has_output, is_asked, layout_of};
ghost use Rattle.sql.specs.Dialects.{dialect_of};
ghost use Rattle.sql.specs.Limits.{IsSqlRefusal};
ghost use Rattle.sql.specs.Shown.{made_of, shown_query, shown_table};
ghost use Rattle.sql.specs.Text.{create_text, declaration_text, fill_text, head_text, inputs_text, keep_text, made_fill, made_keep, names_text, quoted, result_text, results_text, row_title, script_text, tables_text, title_text, titles_text};
ghost use Rattle.sql.specs.Widths.{AreWidths, width_in};

use crate::columns::{push_declared, push_made_columns, push_places};
use crate::counting::{TOO_MANY_TABLES, count_program};
use crate::form::{Dialect, Epochs, Layout, Making, Request, Style};
use crate::push::push;
use crate::query::{push_made, push_query, push_table};
use crate::table::{Query, Table};
use crate::wanted::{
    NO_SUCH_OUTPUT, SEVERAL_OUTPUTS, has_layout, has_output, is_asked, is_in, push_asked,
    push_reads,
};
use crate::whole::make_script;
use crate::widths::{query_width, table_width};
use expr_tree::{Input, Output, Program};
use record_core::{Name, NoMemory, Refusal, Span};
use std::alloc::{Allocator, Global};

/// Appends what stands between a table's columns and its query.
fn push_fill(text: &mut Vec<u8>, dialect: Dialect, number: u64) -> Result<(), NoMemory>
    ensures { OnOk result (text.new.items ≡ text.old.items ++ fill_text dialect number) }
{
    match dialect {
        Dialect::Postgres => push(text, b") ON COMMIT DROP AS\n"),
        Dialect::Sqlite => {
            push(text, b");\nINSERT INTO ")?;
            push_made(text, dialect, number)?;
            push(text, b"\n")
        }
        Dialect::Spark => push(text, b") AS\n"),
    }
}

/// Appends what stands after a table's query.
fn push_keep(text: &mut Vec<u8>, dialect: Dialect, number: u64) -> Result<(), NoMemory>
    ensures { OnOk result (text.new.items ≡ text.old.items ++ keep_text dialect number) }
{
    match dialect {
        Dialect::Postgres | Dialect::Sqlite => push(text, b";\n"),
        Dialect::Spark => {
            push(text, b";\nCACHE TABLE ")?;
            push_made(text, dialect, number)?;
            push(text, b";\n")
        }
    }
}

/// Appends what stands between the columns and the query of a table that is made alone or in a WITH.
fn push_made_fill(
    text: &mut Vec<u8>,
    making: Making,
    dialect: Dialect,
    number: u64,
) -> Result<(), NoMemory>
    ensures { OnOk result (text.new.items ≡ text.old.items ++ made_fill making dialect number) }
{
    match making {
        Making::Alone => push_fill(text, dialect, number),
        Making::Within(_) => push(text, b") AS (\n"),
    }
}

/// Appends what stands after the query of such a table.
fn push_made_keep(
    text: &mut Vec<u8>,
    making: Making,
    dialect: Dialect,
    number: u64,
) -> Result<(), NoMemory>
    ensures { OnOk result (text.new.items ≡ text.old.items ++ made_keep making dialect number) }
{
    match making {
        Making::Alone => push_keep(text, dialect, number),
        Making::Within(last) => {
            if number == last {
                push(text, b")\n")
            } else {
                push(text, b"),\n")
            }
        }
    }
}

/// Appends what makes a table; `widths` has the columns of those that are made.
fn push_create<A: Allocator>(
    text: &mut Vec<u8>,
    style: Style,
    inputs: &[Input],
    widths: &[u64],
    number: u64,
    query: &Query<'_, A>,
) -> Result<(), NoMemory>
    ensures { OnOk result (text.new.items ≡ text.old.items ++ create_text style.form style.epochs style.making (map plain_input inputs.now)
        (width_in (map plain_input inputs.now) widths.now) number (shown_query query.now)) }
{
    let dialect = style.form.dialect();
    let width = table_width(inputs, widths, Table::Made(number));
    push(text, style.making.word(dialect))?;
    push_made(text, dialect, number)?;
    push(text, b" (")?;
    push_made_columns(text, dialect, style.epochs, width)?;
    push_made_fill(text, style.making, dialect, number)?;
    push_query(
        text,
        style.form,
        style.epochs,
        inputs,
        widths,
        number,
        query,
    )?;
    push_made_keep(text, style.making, dialect, number)
}

/// How many columns each table has.
fn table_widths<A: Allocator>(
    alloc: Global,
    inputs: &[Input],
    made: &[Query<'_, A>],
) -> Result<Vec<u64>, NoMemory>
    ensures { IfOk result (λ ws. AreWidths (map plain_input inputs.now) ws.items (made_of made.now)) }
{
    let mut widths = Vec::new(alloc);
    for i in 0..made.len() {
        let width = query_width(inputs, &widths, &made[i])?;
        widths.push(width)?;
    }
    Ok(widths)
}

/// Appends what makes each of the first tables that is wanted, or that one reads that is made, in order.
fn push_tables<A: Allocator>(
    text: &mut Vec<u8>,
    style: Style,
    inputs: &[Input],
    made: &[Query<'_, A>],
    widths: &[u64],
    wanted: &mut Vec<u64>,
    count: usize,
) -> Result<(), NoMemory>
    requires count { count ≤ length made.now }
    ensures { OnOk result (text.new.items ≡ text.old.items ++ tables_text style.form style.epochs style.making (map plain_input inputs.now)
        (width_in (map plain_input inputs.now) widths.now) wanted.old.items (made_of (take count made.now))) }
{
    if count == 0 {
        return Ok(());
    }
    let number = count - 1;
    if !is_in(number as u64, wanted) {
        return push_tables(text, style, inputs, made, widths, wanted, number);
    }
    let query = &made[number];
    push_reads(wanted, query)?;
    push_tables(text, style, inputs, made, widths, wanted, number)?;
    push_create(text, style, inputs, widths, number as u64, query)
}

/// Appends an output's name.
fn push_title(text: &mut Vec<u8>, name: &Name) -> Result<(), NoMemory>
    ensures { OnOk result (text.new.items ≡ text.old.items ++ title_text name.now) }
{
    push(text, b"-- ")?;
    push(text, name.bytes())?;
    push(text, b"\n")
}

/// Appends an output's name, if the output is asked for.
fn push_title_if_asked(
    text: &mut Vec<u8>,
    asked: Option<&[u8]>,
    name: &Name,
) -> Result<(), NoMemory>
    ensures { OnOk result (text.new.items ≡ text.old.items ++ cond (is_asked (option_map (λ s. s.now) asked.entry) name.now) (title_text name.now) []) }
{
    if is_asked(asked, name) {
        push_title(text, name)
    } else {
        Ok(())
    }
}

/// Appends the names of the outputs that are asked for.
fn push_names<A: Allocator>(
    text: &mut Vec<u8>,
    asked: Option<&[u8]>,
    results: &[Table],
    outputs: &[Output<A>],
) -> Result<(), NoMemory>
    ensures { OnOk result (text.new.items ≡ text.old.items
        ++ names_text (option_map (λ s. s.now) asked.entry) (map shown_table results.now) (plain_outputs outputs.now)) }
{
    match results {
        [] => Ok(()),
        [_, results @ ..] => match outputs {
            [] => Ok(()),
            [output, outputs @ ..] => {
                push_title_if_asked(text, asked, &output.name)?;
                push_names(text, asked, results, outputs)
            }
        },
    }
}

/// Appends the names that stand before the tables.
fn push_titles<A: Allocator>(
    text: &mut Vec<u8>,
    layout: Layout,
    asked: Option<&[u8]>,
    results: &[Table],
    outputs: &[Output<A>],
) -> Result<(), NoMemory>
    ensures { OnOk result (text.new.items ≡ text.old.items
        ++ titles_text layout (option_map (λ s. s.now) asked.entry) (map shown_table results.now) (plain_outputs outputs.now)) }
{
    match layout {
        Layout::Script => Ok(()),
        Layout::Statement => push_names(text, asked, results, outputs),
    }
}

/// Appends an output's name, if it stands before the rows.
fn push_row_title(text: &mut Vec<u8>, layout: Layout, name: &Name) -> Result<(), NoMemory>
    ensures { OnOk result (text.new.items ≡ text.old.items ++ row_title layout name.now) }
{
    match layout {
        Layout::Script => push_title(text, name),
        Layout::Statement => Ok(()),
    }
}

/// Appends what gives the rows of an output's table, in order.
fn push_result(
    text: &mut Vec<u8>,
    request: Request<'_>,
    inputs: &[Input],
    width: u64,
    table: Table,
    name: &Name,
) -> Result<(), NoMemory>
    ensures { OnOk result (text.new.items ≡ text.old.items ++ result_text (layout_of (asked_of request.entry)) (dialect_of request.entry.form)
        request.entry.epochs (map plain_input inputs.now) width (shown_table table) name.now) }
{
    push_row_title(text, request.layout(), name)?;
    push(text, b"SELECT * FROM ")?;
    push_table(text, request.form.dialect(), inputs, table)?;
    push(text, b" ORDER BY ")?;
    push_places(text, request.epochs, width)?;
    push(text, b";\n")
}

/// Appends what gives the rows of an output's table, in order, if the output is asked for.
fn push_if_asked(
    text: &mut Vec<u8>,
    request: Request<'_>,
    inputs: &[Input],
    widths: &[u64],
    table: Table,
    name: &Name,
) -> Result<(), NoMemory>
    ensures { OnOk result (text.new.items ≡ text.old.items ++ cond (is_asked (asked_of request.entry).output name.now)
        (result_text (layout_of (asked_of request.entry)) (dialect_of request.entry.form) request.entry.epochs (map plain_input inputs.now)
        (width_in (map plain_input inputs.now) widths.now (shown_table table)) (shown_table table) name.now) []) }
{
    if !is_asked(request.output, name) {
        return Ok(());
    }
    let width = table_width(inputs, widths, table);
    push_result(text, request, inputs, width, table, name)
}

/// Appends what gives the rows of each output that is asked for, in order.
fn push_results<A: Allocator>(
    text: &mut Vec<u8>,
    request: Request<'_>,
    inputs: &[Input],
    widths: &[u64],
    results: &[Table],
    outputs: &[Output<A>],
) -> Result<(), NoMemory>
    ensures { OnOk result (text.new.items ≡ text.old.items
        ++ results_text (layout_of (asked_of request.entry)) (dialect_of request.entry.form) request.entry.epochs (map plain_input inputs.now)
        (width_in (map plain_input inputs.now) widths.now) (asked_of request.entry).output (map shown_table results.now) (plain_outputs outputs.now)) }
{
    match results {
        [] => Ok(()),
        [table, results @ ..] => match outputs {
            [] => Ok(()),
            [output, outputs @ ..] => {
                push_if_asked(text, request, inputs, widths, *table, &output.name)?;
                push_results(text, request, inputs, widths, results, outputs)
            }
        },
    }
}

/// Appends a name in quotes.
fn push_named(text: &mut Vec<u8>, dialect: Dialect, name: &Name) -> Result<(), NoMemory>
    ensures { OnOk result (text.new.items ≡ text.old.items ++ quoted dialect name.now) }
{
    push(text, dialect.quote())?;
    push(text, name.bytes())?;
    push(text, dialect.quote())
}

/// Appends a given table as it should be, in a comment.
fn push_declaration(
    text: &mut Vec<u8>,
    dialect: Dialect,
    epochs: Epochs,
    input: &Input,
) -> Result<(), NoMemory>
    ensures { OnOk result (text.new.items ≡ text.old.items ++ declaration_text dialect epochs (plain_input input.now)) }
{
    push(text, b"--   CREATE TABLE ")?;
    push_named(text, dialect, &input.name)?;
    push(text, b" (")?;
    push_declared(text, epochs, input.arity)?;
    push(text, b");\n")
}

/// Appends the given tables as they should be.
fn push_inputs(
    text: &mut Vec<u8>,
    dialect: Dialect,
    epochs: Epochs,
    inputs: &[Input],
) -> Result<(), NoMemory>
    ensures { OnOk result (text.new.items ≡ text.old.items ++ inputs_text dialect epochs (map plain_input inputs.now)) }
{
    match inputs {
        [] => Ok(()),
        [input, rest @ ..] => {
            push_declaration(text, dialect, epochs, input)?;
            push_inputs(text, dialect, epochs, rest)
        }
    }
}

/// Appends what stands before the tables.
fn push_head(text: &mut Vec<u8>, request: Request<'_>, inputs: &[Input]) -> Result<(), NoMemory>
    ensures { OnOk result (text.new.items ≡ text.old.items
        ++ head_text request.entry.form (layout_of (asked_of request.entry)) request.entry.epochs (map plain_input inputs.now)) }
{
    let dialect = request.form.dialect();
    push(text, b"-- A query as SQL, for ")?;
    push(text, dialect.database_name())?;
    push(text, request.epochs.reads_text())?;
    push_inputs(text, dialect, request.epochs, inputs)?;
    push(text, request.form.arithmetic().promise_text())?;
    push(text, request.layout().opening_text(dialect))
}

/// The text of a program's script or statement.
fn text_of<A: Allocator>(
    alloc: Global,
    program: &Program<A>,
    request: Request<'_>,
) -> Result<Vec<u8>, NoMemory>
    ensures { IfOk result (λ t. t.items ≡ script_text (asked_of request.entry) (plain_program (program_tree program.now))) }
{
    let script = make_script(alloc, request.form.dialect().has_recursion(), program)?;
    let inputs = &program.inputs;
    let outputs = &program.outputs;
    let widths = table_widths(alloc, inputs, &script.made)?;
    let mut wanted = Vec::new(alloc);
    push_asked(&mut wanted, request.output, &script.results, outputs)?;
    let layout = request.layout();
    let style = Style {
        form: request.form,
        epochs: request.epochs,
        making: layout.making(&wanted),
    };
    let mut text = Vec::new(alloc);
    push_head(&mut text, request, inputs)?;
    push_titles(&mut text, layout, request.output, &script.results, outputs)?;
    push(&mut text, style.making.with_text())?;
    push_tables(
        &mut text,
        style,
        inputs,
        &script.made,
        &widths,
        &mut wanted,
        script.made.len(),
    )?;
    push_results(
        &mut text,
        request,
        inputs,
        &widths,
        &script.results,
        outputs,
    )?;
    push(&mut text, layout.closing_text(request.form.dialect()))?;
    Ok(text)
}

/// The place of the name of the output with that number, from 0.
fn output_place<A: Allocator>(program: &Program<A>, number: usize) -> Span {
    match program.outputs.get(number) {
        Some(output) => output.name_span,
        None => Span { start: 0, end: 0 },
    }
}

/// The text of a program's script: each table that its outputs need, then the rows of each output, in order; or of the one output that is asked for. It
/// is refused where no output has that name, at the name of the first, and where one statement is asked for of several outputs, at the name of the
/// second. A program that takes more than 4096 tables is refused, at the name of the let or output where they become too many. A loop takes its
/// body's tables at each turn, unless it is a closure that becomes one recursive table.
pub fn sql_text<A: Allocator>(
    alloc: Global,
    program: &Program<A>,
    request: Request<'_>,
) -> Result<Vec<u8>, Refusal>
    ensures text { IfOk result (λ t. t.items ≡ script_text (asked_of request.entry) (plain_program (program_tree program.now))) }
    ensures output { IfOk result (λ t. has_output (asked_of request.entry).output (plain_program (program_tree program.now)).outputs ≡ true) }
    ensures layout { IfOk result (λ t. has_layout (asked_of request.entry) (plain_program (program_tree program.now)).outputs ≡ true) }
    ensures refusal { IfErr result (IsSqlRefusal (asked_of request.entry) (plain_program (program_tree program.now))) }
{
    if !has_output(request.output, &program.outputs) {
        return Err(Refusal::At {
            code: NO_SUCH_OUTPUT,
            span: output_place(program, 0),
        });
    }
    if !has_layout(request.layout(), request.output, &program.outputs) {
        return Err(Refusal::At {
            code: SEVERAL_OUTPUTS,
            span: output_place(program, 1),
        });
    }
    match count_program(request.form.dialect().has_recursion(), program) {
        Ok(_) => {}
        Err(span) => {
            return Err(Refusal::At {
                code: TOO_MANY_TABLES,
                span,
            });
        }
    }
    match text_of(alloc, program, request) {
        Ok(text) => Ok(text),
        Err(_) => Err(Refusal::NoMemory),
    }
}
