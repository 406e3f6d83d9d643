//! The dispatcher: from the words of a command line to what is written, and the status.

ghost use Rattle.std.specs.Prelude.{◌≡◌, map, option_map, IfNone, IfSome};
ghost use Rattle.collector.specs.Watching.{inner_of};
ghost use Rattle.command_line.specs.Faults.{line_status_of};
ghost use Rattle.console.specs.Asked.{arithmetic_asked, asks_inline, epochs_asked, form_asked, layout_asked, layout_by, on_line, queries_of, query_word, script_asked};
ghost use Rattle.sql.specs.Asked.{asked_of};
ghost use Rattle.console.specs.Commands.{Answers, EndsOn, Obeys, status_after};
ghost use Rattle.console.specs.Transcribed.{EndsOnRead};
ghost use Rattle.console.specs.Views.{kind_asked};

use crate::named_texts::{
    Kept, Place, Task, check_named, follow_named, format_named, graph_named, replay_named,
    run_named, script_named,
};
use crate::on_line::OnLine;
use crate::transcripts::Transcripts;
use bumpalo::Bump;
use collector::{Sources, Watched};
use command_line::{LineFault, Options, Query, ScriptForm, options};
use commands::{Fault, Streams, Texts, ViewKind};
use compile::{Arithmetic, Epochs, Form, Layout, Request, input_places, warnings_of};
use diagnostics::{
    Plain, TextNames, Word, explain_fault, row_of_word, write_early, write_explanation,
    write_path_hint, write_told, write_warnings,
};
use refusals::NUMBERS;
use std::alloc::Global;
use std::io;
use std::io::Write;
use std::sync::Wait;
use std::thread::Threads;

/// The kind of the workers' views.
fn view_kind(views: bool) -> ViewKind
    ensures { result ≡ kind_asked views }
{
    if views {
        ViewKind::Local
    } else {
        ViewKind::Shared
    }
}

/// The arithmetic of a script.
fn arithmetic_of(wrapped: bool) -> Arithmetic
    ensures { result ≡ arithmetic_asked wrapped }
{
    if wrapped {
        Arithmetic::Wrapped
    } else {
        Arithmetic::Plain
    }
}

/// The form of a script.
fn form_of(form: ScriptForm) -> Form
    ensures { result ≡ form_asked form }
{
    match form {
        ScriptForm::Postgres { wrapped, .. } => Form::Postgres(arithmetic_of(wrapped)),
        ScriptForm::Sqlite => Form::Sqlite,
        ScriptForm::Spark { wrapped } => Form::Spark(arithmetic_of(wrapped)),
    }
}

/// The layout that a flag asks for.
fn layout_by(statement: bool) -> Layout
    ensures { result ≡ layout_by statement }
{
    if statement {
        Layout::Statement
    } else {
        Layout::Script
    }
}

/// How a script is laid out.
fn layout_of(form: ScriptForm) -> Layout
    ensures { result ≡ layout_asked form }
{
    match form {
        ScriptForm::Postgres { statement, .. } => layout_by(statement),
        ScriptForm::Sqlite | ScriptForm::Spark { .. } => Layout::Script,
    }
}

/// Of which epochs a script is.
fn epochs_of(epochs: bool) -> Epochs
    ensures { result ≡ epochs_asked epochs }
{
    if epochs { Epochs::Every } else { Epochs::One }
}

/// The script that is asked for.
fn request_of<'a>(form: ScriptForm, epochs: bool, output: Option<&'a str>) -> Request<'a>
    ensures { asked_of result ≡ script_asked form epochs (option_map (λ s. s.now) output.entry) }
{
    let output = match output {
        None => None,
        Some(name) => Some(name.as_bytes()),
    };
    Request {
        form: form_of(form),
        layout: layout_of(form),
        epochs: epochs_of(epochs),
        output,
    }
}

/// The word that stands for a query.
fn word_of<'a>(query: Query<'a>) -> &'a str
    ensures { result.now ≡ query_word query.entry }
{
    match query {
        Query::File(path) => path,
        Query::Inline(text) => text,
    }
}

/// Whether a query is on the line itself.
fn is_on_line(query: Query<'_>) -> bool
    ensures { result ≡ on_line query.entry }
{
    match query {
        Query::File(_) => false,
        Query::Inline(_) => true,
    }
}

/// Whether the query of the options is on the line itself.
fn is_inline(asked: Options<'_>) -> bool
    ensures { result ≡ asks_inline asked.entry }
{
    match asked {
        Options::Run { query, .. }
        | Options::Follow { query, .. }
        | Options::Check { query, .. }
        | Options::Graph { query, .. }
        | Options::Format { query, .. }
        | Options::Sql { query, .. }
        | Options::Replay { query, .. } => is_on_line(query),
        Options::Explain { .. } => false,
    }
}

/// What a query is called where something is told of it.
fn shown_name<'a>(query: Query<'a>) -> &'a str {
    match query {
        Query::File(path) => path,
        Query::Inline(_) => "-e",
    }
}

/// The names of a command's texts, and whether a fault is to be explained. A name is empty where the command has no such text.
fn texts_of<'a>(asked: &Options<'a>) -> (&'a str, &'a str, bool) {
    match *asked {
        Options::Run {
            query,
            input,
            explain,
            ..
        } => (shown_name(query), input, explain),
        Options::Replay {
            query,
            schedule,
            explain,
            ..
        } => (shown_name(query), schedule, explain),
        Options::Follow {
            query,
            input,
            explain,
            ..
        } => (shown_name(query), input, explain),
        Options::Check {
            query,
            input,
            explain,
            ..
        } => (shown_name(query), input.unwrap_or(""), explain),
        Options::Graph { query, explain, .. }
        | Options::Format { query, explain }
        | Options::Sql { query, explain, .. } => (shown_name(query), "", explain),
        Options::Explain { .. } => ("", "", false),
    }
}

/// Writes a fault's line, and what is wrong at its place where that is asked for: by one write, so that lines of several programs don't
/// mix. Where no memory is left for the text, the line goes out in parts.
fn write_fault<E: Write>(
    alloc: Global,
    asked: &Options,
    fault: &Fault,
    texts: &Texts,
    err: &mut E,
) -> io::Result<()> {
    let (query, input, explain) = texts_of(asked);
    let names = TextNames { query, input };
    let mut text = Vec::new(alloc);
    if write_told(fault, names, texts, &mut text).is_err() {
        return write_told(fault, names, texts, err);
    }
    if explain {
        let _ = explain_fault(alloc, fault, names, texts, &mut text);
        let _ = write_path_hint(fault, names, &mut text);
    }
    err.write_all(text.as_slice())
}

/// Appends what a query has by mistake most likely; nothing where there is no memory for it.
fn push_query_warnings(
    alloc: Global,
    query: &str,
    texts: &Texts,
    text: &mut Vec<u8>,
) -> io::Result<()> {
    let arena = Bump::new(alloc);
    match warnings_of(alloc, &arena, &texts.query) {
        Ok(warnings) => write_warnings(query, &texts.query, &warnings, text),
        Err(_) => Ok(()),
    }
}

/// Appends which inputs were fed in the first epoch alone, where others were fed later; nothing where there is no memory for it.
fn push_early(alloc: Global, query: &str, texts: &Texts, text: &mut Vec<u8>) -> io::Result<()> {
    if texts.early.is_empty() {
        return Ok(());
    }
    let arena = Bump::new(alloc);
    match input_places(alloc, &arena, &texts.query) {
        Ok(places) => write_early(query, &texts.query, &places, &texts.early, text),
        Err(_) => Ok(()),
    }
}

/// Writes what a query that was checked, or an input that was read, has by mistake most likely, where that is asked for.
fn warn<E: Write>(alloc: Global, asked: &Options, texts: &Texts, err: &mut E) -> io::Result<()> {
    let mut text = Vec::new(alloc);
    match asked {
        Options::Check {
            query,
            explain: true,
            ..
        } => {
            let query = shown_name(*query);
            push_query_warnings(alloc, query, texts, &mut text)?;
            push_early(alloc, query, texts, &mut text)?;
        }
        Options::Run {
            query,
            explain: true,
            ..
        } => push_early(alloc, shown_name(*query), texts, &mut text)?,
        _ => return Ok(()),
    }
    err.write_all(text.as_slice())
}

/// Reports how a command has ended. Gives the status, which says it also where the writer of errors fails, here and below.
fn report<E: Write>(
    alloc: Global,
    asked: &Options,
    done: &Result<(), Fault>,
    texts: &Texts,
    err: &mut E,
) -> u8
    ensures { result ≡ status_after done.now }
{
    match done {
        Ok(()) => {
            let _ = warn(alloc, asked, texts, err);
            0
        }
        Err(fault) => {
            let _ = write_fault(alloc, asked, fault, texts, err);
            fault.status()
        }
    }
}

/// Reports which numbers refusals have, where none has the one that is to be explained.
fn report_numbers<E: Write>(asked: &Options, err: &mut E) -> u8
    ensures { result ≡ 2 }
{
    if let Options::Explain { code } = asked {
        let code = Word(code.as_bytes());
        let _ = writeln!(err, "{code} is no error number; these are {NUMBERS}");
    }
    2
}

/// Where a query is found, and its name there.
fn place_of<'a, 'q, Q>(queries: &'q Q, query: Query<'a>) -> Place<'a, 'q, Q>
    ensures queries { result.queries.now ≡ queries.now }
    ensures name { result.name.now ≡ query_word query.entry }
{
    Place {
        queries,
        name: word_of(query),
    }
}

/// Does what the options ask for, if that needs no engine. None if it needs one, or if no refusal has the number that is to be explained;
/// then nothing is written.
fn answer_alone<'a, Q: Sources<'a>, S: Sources<'a>, W: Write>(
    alloc: Global,
    queries: &Q,
    sources: &S,
    asked: Options<'a>,
    out: &mut Watched<W>,
    kept: &mut Kept<'a>,
) -> Option<Result<(), Fault>>
    ensures done { IfSome result (EndsOn (Q.content queries.now) (S.content sources.now) asked.entry (W.contents (inner_of out.old)) (W.contents (inner_of out.new))) }
    ensures read { IfSome result (EndsOnRead (Q.content queries.now) kept.new.transcripts asked.entry (W.contents (inner_of out.old)) (W.contents (inner_of out.new))) }
    ensures none { IfNone result (W.contents (inner_of out.new) ≡ W.contents (inner_of out.old)) }
{
    match asked {
        Options::Check {
            query,
            input,
            heap,
            ..
        } => {
            let query = place_of(queries, query);
            Some(check_named(alloc, sources, heap, query, input, out, kept))
        }
        Options::Graph {
            query,
            form,
            heap,
            ..
        } => {
            let query = place_of(queries, query);
            Some(graph_named(alloc, heap, form, query, out, kept))
        }
        Options::Format { query, .. } => {
            let query = place_of(queries, query);
            Some(format_named(alloc, query, out, kept))
        }
        Options::Sql {
            query,
            form,
            epochs,
            output,
            ..
        } => {
            let query = place_of(queries, query);
            Some(script_named(alloc, request_of(form, epochs, output), query, out, kept))
        }
        Options::Explain { code } => match row_of_word(code) {
            Some(row) => Some(write_explanation(alloc, row, out)),
            None => None,
        },
        Options::Run { .. } | Options::Follow { .. } | Options::Replay { .. } => None,
    }
}

/// Does what the options ask for, if one thread makes all calls on the engine, or there is none. None as `answer_alone`.
fn answer_in_one_thread<'a, R: Threads + Sync, Q: Sources<'a>, S: Sources<'a>, W: Write>(
    rt: &R,
    alloc: Global,
    queries: &Q,
    sources: &S,
    asked: Options<'a>,
    out: &mut Watched<W>,
    kept: &mut Kept<'a>,
) -> Option<Result<(), Fault>>
    ensures done { IfSome result (EndsOn (Q.content queries.now) (S.content sources.now) asked.entry (W.contents (inner_of out.old)) (W.contents (inner_of out.new))) }
    ensures read { IfSome result (EndsOnRead (Q.content queries.now) kept.new.transcripts asked.entry (W.contents (inner_of out.old)) (W.contents (inner_of out.new))) }
    ensures none { IfNone result (W.contents (inner_of out.new) ≡ W.contents (inner_of out.old)) }
{
    match asked {
        Options::Follow {
            query,
            input,
            workers,
            first,
            end_mark,
            ..
        } => {
            let task = Task {
                query: place_of(queries, query),
                input,
                end_mark,
                workers,
            };
            Some(follow_named(rt, alloc, sources, task, first, out, kept))
        }
        Options::Replay {
            query,
            schedule,
            workers,
            views,
            ..
        } => {
            let task = Task {
                query: place_of(queries, query),
                input: schedule,
                end_mark: false,
                workers,
            };
            let kind = view_kind(views);
            Some(replay_named(alloc, sources, task, kind, out, kept))
        }
        Options::Run { .. }
        | Options::Check { .. }
        | Options::Graph { .. }
        | Options::Format { .. }
        | Options::Sql { .. }
        | Options::Explain { .. } => answer_alone(alloc, queries, sources, asked, out, kept),
    }
}

/// Does what the options ask for. None if no refusal has the number that is to be explained; then nothing is written. Drops the watcher unless
/// `--watch` was given to a run.
fn answer_asked<
    'a,
    R: Threads + Wait + Sync,
    Q: Sources<'a>,
    S: Sources<'a>,
    W: Write,
    E: Write,
    O: Write + Send + Drop,
>(
    rt: &R,
    alloc: Global,
    queries: &Q,
    sources: &S,
    asked: Options<'a>,
    streams: &mut Streams<W, E, O>,
    kept: &mut Kept<'a>,
) -> Option<Result<(), Fault>>
    ensures done { IfSome result (EndsOn (Q.content queries.now) (S.content sources.now) asked.entry (W.contents (inner_of streams.old.out)) (W.contents (inner_of streams.new.out))) }
    ensures read { IfSome result (EndsOnRead (Q.content queries.now) kept.new.transcripts asked.entry (W.contents (inner_of streams.old.out)) (W.contents (inner_of streams.new.out))) }
    ensures none { IfNone result (W.contents (inner_of streams.new.out) ≡ W.contents (inner_of streams.old.out)) }
{
    match asked {
        Options::Run {
            query,
            input,
            workers,
            watch,
            stats,
            end_mark,
            ..
        } => {
            if !watch {
                streams.watcher = None;
            }
            let task = Task {
                query: place_of(queries, query),
                input,
                end_mark,
                workers,
            };
            Some(run_named(rt, alloc, sources, task, stats, streams, kept))
        }
        Options::Follow { .. }
        | Options::Replay { .. }
        | Options::Check { .. }
        | Options::Graph { .. }
        | Options::Format { .. }
        | Options::Sql { .. }
        | Options::Explain { .. } => {
            answer_in_one_thread(rt, alloc, queries, sources, asked, &mut streams.out, kept)
        }
    }
}

/// The same, with a query on the line or among the texts.
#[tactic(auto, using(crate::proofs::Commanding::found_on_line, crate::proofs::Commanding::found_in_texts, crate::proofs::Commanding::read_on_line, crate::proofs::Commanding::read_in_texts))]
fn answer_found<
    'a,
    R: Threads + Wait + Sync,
    S: Sources<'a>,
    W: Write,
    E: Write,
    O: Write + Send + Drop,
>(
    rt: &R,
    alloc: Global,
    sources: &S,
    asked: Options<'a>,
    streams: &mut Streams<W, E, O>,
    kept: &mut Kept<'a>,
) -> Option<Result<(), Fault>>
    ensures done { IfSome result (EndsOn (queries_of asked.entry (S.content sources.now)) (S.content sources.now) asked.entry
        (W.contents (inner_of streams.old.out)) (W.contents (inner_of streams.new.out))) }
    ensures read { IfSome result (EndsOnRead (queries_of asked.entry (S.content sources.now)) kept.new.transcripts asked.entry
        (W.contents (inner_of streams.old.out)) (W.contents (inner_of streams.new.out))) }
    ensures none { IfNone result (W.contents (inner_of streams.new.out) ≡ W.contents (inner_of streams.old.out)) }
{
    if is_inline(asked) {
        answer_asked(rt, alloc, &OnLine, sources, asked, streams, kept)
    } else {
        answer_asked(rt, alloc, sources, sources, asked, streams, kept)
    }
}

/// Does what the options ask for, and reports a fault. Gives the status.
#[tactic(auto, using(crate::proofs::Commanding::ended))]
fn obey<'a, R: Threads + Wait + Sync, S: Sources<'a>, W: Write, E: Write, O: Write + Send + Drop>(
    rt: &R,
    alloc: Global,
    sources: &S,
    asked: Options<'a>,
    streams: &mut Streams<W, E, O>,
    kept: &mut Kept<'a>,
) -> u8
    ensures { Obeys (S.content sources.now) kept.new.transcripts asked.entry (W.contents (inner_of streams.old.out)) (W.contents (inner_of streams.new.out)) result }
{
    match answer_found(rt, alloc, sources, asked, streams, kept) {
        Some(done) => report(alloc, &asked, &done, &kept.texts, &mut streams.err),
        None => report_numbers(&asked, &mut streams.err),
    }
}

/// Reports why a line is refused, and gives the status.
pub fn refuse<E: Write>(fault: &LineFault, err: &mut E) -> u8
    ensures { result ≡ line_status_of fault.now }
{
    let _ = match fault {
        LineFault::Line(text) => write!(err, "{text}"),
        _ => writeln!(err, "{fault}"),
    };
    fault.status()
}

/// What is reported of words that are refused, with escapes for what in them might disturb a terminal.
fn refusal_text(alloc: Global, fault: &LineFault) -> io::Result<Vec<u8>> {
    let text_of_fault = format!(in alloc; "{fault}")?;
    let mut text = Vec::new(alloc);
    if let LineFault::Line(_) = fault {
        for line in text_of_fault.lines() {
            let line = Plain(line);
            writeln!(text, "{line}")?;
        }
    } else {
        let line = Plain(text_of_fault.as_str());
        writeln!(text, "{line}")?;
    }
    Ok(text)
}

/// Reports why words are refused, by one write, and gives the status.
fn refuse_words<E: Write>(alloc: Global, fault: &LineFault, err: &mut E) -> u8
    ensures { result ≡ line_status_of fault.now }
{
    let Ok(text) = refusal_text(alloc, fault) else {
        return refuse(fault, err);
    };
    let _ = err.write_all(text.as_slice());
    fault.status()
}

/// Answers a command line, whose first word is the program's own: does what it asks for over the texts that it names, and reports a fault.
/// Gives the status. What `--watch` reports goes to the watcher, which is dropped where a run isn't to be watched. The transcripts are of the
/// texts that were opened.
#[tactic(auto, using(crate::proofs::Commanding::obeyed, crate::proofs::Commanding::refused))]
pub fn answer<
    'a,
    R: Threads + Wait + Sync,
    S: Sources<'a>,
    W: Write,
    E: Write,
    O: Write + Send + Drop,
>(
    rt: &R,
    alloc: Global,
    sources: &S,
    words: &'a [&'a str],
    streams: &mut Streams<W, E, O>,
    transcripts: &mut Transcripts<'a>,
) -> u8
    ensures { Answers (S.content sources.now) transcripts.new (map (λ s. s.now) words.entry.now)
        (W.contents (inner_of streams.old.out)) (W.contents (inner_of streams.new.out)) result }
{
    match options(alloc, words) {
        Ok(asked) => {
            let mut kept = Kept::new(alloc);
            let status = obey(rt, alloc, sources, asked, streams, &mut kept);
            *transcripts = kept.transcripts;
            status
        }
        Err(fault) => refuse_words(alloc, &fault, &mut streams.err),
    }
}
