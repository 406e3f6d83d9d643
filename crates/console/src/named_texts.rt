//! The commands over the texts that a line names: each opens its texts, does its work, and keeps what was read of them.

ghost use Rattle.std.specs.Prelude.{◌≡◌, [], None, option_map};
ghost use Rattle.collector.specs.Watching.{inner_of};
ghost use Rattle.console.specs.Asked.{known_inputs};
ghost use Rattle.sql.specs.Asked.{asked_of};
ghost use Rattle.console.specs.Commands.{ChecksOn, FollowsOn, FormatsOn, GraphsOn, ReplaysOn, RunsOn, ScriptsOn};
ghost use Rattle.commands.specs.Readings.{ChecksBothOnHanded, ChecksBothOver, ChecksOnHanded, ChecksOver, GraphsOnHanded, GraphsOver};
ghost use Rattle.console.specs.Transcribed.{ChecksOnTexts, FollowsOnTexts, FormatsOnTexts, GraphsOnTexts, IsClosed, ReplaysOnTexts, RunsOnTexts, ScriptsOnTexts, StartsSeveral};

use crate::transcripts::Transcripts;
use bumpalo::Bump;
use collector::{Opened, Sources, Watched, open_marked, open_named};
use command_line::{FirstEpoch, GraphForm, HeapSize, Workers};
use commands::{
    Fault, FollowOptions, NoGate, RunOptions, Streams, Texts, ViewKind, check_input, check_query,
    follow_query, format_query, graph_query, replay_schedule, run, script_query,
};
use compile::Request;
use linked_list_allocator::LocalHeap;
use std::alloc::Global;
use std::io::{Read, Write};
use std::sync::Wait;
use std::thread::Threads;

/// Where a query is found, and its name there.
#[derive(Clone, Copy)]
pub struct Place<'a, 'q, Q> {
    pub queries: &'q Q,
    pub name: &'a str,
}

/// A query and the name of its other text, and the workers that are asked for.
#[derive(Clone, Copy)]
pub struct Task<'a, 'q, Q> {
    pub query: Place<'a, 'q, Q>,
    /// An input or a schedule.
    pub input: &'a str,
    /// Whether the input has to end with the mark. Of a schedule nothing is asked.
    pub end_mark: bool,
    pub workers: Workers,
}

/// What is kept of the texts that a command has read: to quote from them, and what each handed over.
#[derive(Drop)]
pub struct Kept<'a> {
    pub texts: Texts,
    pub transcripts: Transcripts<'a>,
}

impl<'a> Kept<'a> {
    /// No text was opened.
    pub fn new(alloc: Global) -> Kept<'a> {
        Kept {
            texts: Texts::new(alloc),
            transcripts: Transcripts::new(),
        }
    }

    /// Keeps what the system said of a text that couldn't be read.
    fn keep_reason<T>(&mut self, text: &Watched<T>)
        ensures { self.new.transcripts ≡ self.old.transcripts }
    {
        if let Some(reason) = text.reason() {
            self.texts.reason = Some(reason);
        }
    }

    /// Closes the query.
    fn keep_query<R: Read + Drop>(&mut self, query: Opened<'a, R>)
        ensures closed { IsClosed self.new.transcripts.query query.entry }
        ensures other { self.new.transcripts.input ≡ self.old.transcripts.input }
    {
        self.keep_reason(&query.text);
        self.transcripts.query = Some(query.close());
    }

    /// Closes the input or the schedule.
    fn keep_input<R: Read + Drop>(&mut self, input: Opened<'a, R>)
        ensures closed { IsClosed self.new.transcripts.input input.entry }
        ensures other { self.new.transcripts.query ≡ self.old.transcripts.query }
    {
        self.keep_reason(&input.text);
        self.transcripts.input = Some(input.close());
    }
}

/// Runs a query over an input.
#[tactic(auto, using(crate::proofs::OpenedTexts::both_closed))]
pub fn run_named<
    'a,
    R: Threads + Wait + Sync,
    Q: Sources<'a>,
    S: Sources<'a>,
    W: Write,
    E: Write,
    O: Write + Send + Drop,
>(
    rt: &R,
    alloc: Global,
    sources: &S,
    task: Task<'a, '_, Q>,
    stats: Option<GraphForm>,
    streams: &mut Streams<W, E, O>,
    kept: &mut Kept<'a>,
) -> Result<(), Fault>
    ensures known { RunsOn (Q.content task.entry.query.queries.now) (known_inputs task.entry.end_mark (S.content sources.now)) task.entry.query.name.now task.entry.input.now
        (W.contents (inner_of streams.old.out)) (W.contents (inner_of streams.new.out)) result }
    ensures read { RunsOnTexts (Q.content task.entry.query.queries.now) kept.new.transcripts task.entry.query.name.now task.entry.input.now task.entry.end_mark
        (W.contents (inner_of streams.old.out)) (W.contents (inner_of streams.new.out)) result }
    ensures several { StartsSeveral task.entry.workers result }
{
    let mut query = open_named(task.query.queries, task.query.name);
    let mut input = open_marked(sources, task.input, task.end_mark);
    let options = RunOptions {
        workers: task.workers,
        gate: &NoGate,
        stats,
    };
    let done = run(
        rt,
        alloc,
        options,
        &mut query.text,
        &mut input.text,
        &mut kept.texts,
        streams,
    );
    kept.keep_query(query);
    kept.keep_input(input);
    done
}

/// Follows an input.
#[tactic(auto, using(crate::proofs::OpenedTexts::followed_closed))]
pub fn follow_named<'a, R: Threads + Sync, Q: Sources<'a>, S: Sources<'a>, W: Write>(
    rt: &R,
    alloc: Global,
    sources: &S,
    task: Task<'a, '_, Q>,
    first: FirstEpoch,
    out: &mut Watched<W>,
    kept: &mut Kept<'a>,
) -> Result<(), Fault>
    ensures known { FollowsOn first.number (Q.content task.entry.query.queries.now) (known_inputs task.entry.end_mark (S.content sources.now)) task.entry.query.name.now task.entry.input.now
        (W.contents (inner_of out.old)) (W.contents (inner_of out.new)) result }
    ensures read { FollowsOnTexts first.number (Q.content task.entry.query.queries.now) kept.new.transcripts task.entry.query.name.now task.entry.input.now task.entry.end_mark
        (W.contents (inner_of out.old)) (W.contents (inner_of out.new)) result }
{
    let mut query = open_named(task.query.queries, task.query.name);
    let mut input = open_marked(sources, task.input, task.end_mark);
    let options = FollowOptions {
        workers: task.workers,
        first,
    };
    let done = follow_query(
        rt,
        alloc,
        options,
        &mut query.text,
        &mut input.text,
        &mut kept.texts,
        out,
    );
    kept.keep_query(query);
    kept.keep_input(input);
    done
}

/// Does a schedule's steps over a query.
#[tactic(auto, using(crate::proofs::OpenedTexts::both_closed))]
pub fn replay_named<'a, Q: Sources<'a>, S: Sources<'a>, W: Write>(
    alloc: Global,
    sources: &S,
    task: Task<'a, '_, Q>,
    kind: ViewKind,
    out: &mut Watched<W>,
    kept: &mut Kept<'a>,
) -> Result<(), Fault>
    ensures known { ReplaysOn (Q.content task.entry.query.queries.now) (S.content sources.now) task.entry.workers kind task.entry.query.name.now task.entry.input.now
        (W.contents (inner_of out.old)) (W.contents (inner_of out.new)) result }
    ensures read { ReplaysOnTexts (Q.content task.entry.query.queries.now) kept.new.transcripts task.entry.workers kind task.entry.query.name.now task.entry.input.now
        (W.contents (inner_of out.old)) (W.contents (inner_of out.new)) result }
{
    let mut query = open_named(task.query.queries, task.query.name);
    let mut schedule = open_named(sources, task.input);
    let done = replay_schedule(
        alloc,
        task.workers,
        kind,
        &mut query.text,
        &mut schedule.text,
        &mut kept.texts,
        out,
    );
    kept.keep_query(query);
    kept.keep_input(schedule);
    done
}

/// Checks a query, with its tree in a heap of the size that is asked for.
#[tactic(auto, using(commands::proofs::HandedOver::check_unread, commands::proofs::HandedOver::hands_nothing))]
fn check_in_heap<Q: Read, W: Write>(
    alloc: Global,
    heap: Option<HeapSize>,
    query: &mut Watched<Q>,
    texts: &mut Texts,
    out: &mut Watched<W>,
) -> Result<(), Fault>
    ensures known { ChecksOver (Q.remaining (inner_of query.old)) (W.contents (inner_of out.old)) (W.contents (inner_of out.new)) result }
    ensures handed { ChecksOnHanded Q.remaining query.old query.new (W.contents (inner_of out.old)) (W.contents (inner_of out.new)) result }
{
    match heap {
        None => {
            let arena = Bump::new(alloc);
            check_query(alloc, &arena, query, texts, out)
        }
        Some(size) => match LocalHeap::new(alloc, size.bytes() as usize) {
            Ok(heap) => check_query(alloc, &heap, query, texts, out),
            Err(_) => Err(Fault::NoMemory),
        },
    }
}

/// Checks a query and an input, with the query's tree in a heap of the size that is asked for.
#[tactic(auto, using(commands::proofs::HandedOver::check_input_unread, commands::proofs::HandedOver::hands_nothing))]
fn check_both_in_heap<Q: Read, I: Read, W: Write>(
    alloc: Global,
    heap: Option<HeapSize>,
    query: &mut Watched<Q>,
    input: &mut Watched<I>,
    texts: &mut Texts,
    out: &mut Watched<W>,
) -> Result<(), Fault>
    ensures known { ChecksBothOver (Q.remaining (inner_of query.old)) (I.remaining (inner_of input.old))
        (W.contents (inner_of out.old)) (W.contents (inner_of out.new)) result }
    ensures handed { ChecksBothOnHanded Q.remaining query.old query.new input.old input.new (W.contents (inner_of out.old)) (W.contents (inner_of out.new)) result }
{
    match heap {
        None => {
            let arena = Bump::new(alloc);
            check_input(alloc, &arena, query, input, texts, out)
        }
        Some(size) => match LocalHeap::new(alloc, size.bytes() as usize) {
            Ok(heap) => check_input(alloc, &heap, query, input, texts, out),
            Err(_) => Err(Fault::NoMemory),
        },
    }
}

/// Checks a query alone.
#[tactic(auto, using(crate::proofs::OpenedTexts::one_closed))]
fn check_alone<'a, Q: Sources<'a>, W: Write>(
    alloc: Global,
    heap: Option<HeapSize>,
    query: Place<'a, '_, Q>,
    out: &mut Watched<W>,
    kept: &mut Kept<'a>,
) -> Result<(), Fault>
    ensures known { ChecksOver (Q.content query.entry.queries.now query.entry.name.now) (W.contents (inner_of out.old)) (W.contents (inner_of out.new)) result }
    ensures read { ChecksOnTexts (Q.content query.entry.queries.now) kept.new.transcripts query.entry.name.now None (W.contents (inner_of out.old)) (W.contents (inner_of out.new)) result }
{
    let mut query = open_named(query.queries, query.name);
    let done = check_in_heap(alloc, heap, &mut query.text, &mut kept.texts, out);
    kept.keep_query(query);
    done
}

/// Checks a query and an input.
#[tactic(auto, using(crate::proofs::OpenedTexts::both_closed))]
fn check_both<'a, Q: Sources<'a>, S: Sources<'a>, W: Write>(
    alloc: Global,
    sources: &S,
    heap: Option<HeapSize>,
    query: Place<'a, '_, Q>,
    input: &'a str,
    out: &mut Watched<W>,
    kept: &mut Kept<'a>,
) -> Result<(), Fault>
    ensures known { ChecksOn (Q.content query.entry.queries.now) (S.content sources.now) query.entry.name.now (Some input.now) (W.contents (inner_of out.old)) (W.contents (inner_of out.new)) result }
    ensures read { ChecksOnTexts (Q.content query.entry.queries.now) kept.new.transcripts query.entry.name.now (Some input.now) (W.contents (inner_of out.old)) (W.contents (inner_of out.new)) result }
{
    let mut query = open_named(query.queries, query.name);
    let mut input = open_named(sources, input);
    let done = check_both_in_heap(
        alloc,
        heap,
        &mut query.text,
        &mut input.text,
        &mut kept.texts,
        out,
    );
    kept.keep_query(query);
    kept.keep_input(input);
    done
}

/// Checks a query, and an input where one is named.
pub fn check_named<'a, Q: Sources<'a>, S: Sources<'a>, W: Write>(
    alloc: Global,
    sources: &S,
    heap: Option<HeapSize>,
    query: Place<'a, '_, Q>,
    input: Option<&'a str>,
    out: &mut Watched<W>,
    kept: &mut Kept<'a>,
) -> Result<(), Fault>
    ensures known { ChecksOn (Q.content query.entry.queries.now) (S.content sources.now) query.entry.name.now (option_map (λ s. s.now) input.entry)
        (W.contents (inner_of out.old)) (W.contents (inner_of out.new)) result }
    ensures read { ChecksOnTexts (Q.content query.entry.queries.now) kept.new.transcripts query.entry.name.now (option_map (λ s. s.now) input.entry)
        (W.contents (inner_of out.old)) (W.contents (inner_of out.new)) result }
{
    match input {
        None => check_alone(alloc, heap, query, out, kept),
        Some(input) => check_both(alloc, sources, heap, query, input, out, kept),
    }
}

/// Writes the graph of a query, whose tree is kept in a heap of the size that is asked for.
#[tactic(auto, using(commands::proofs::HandedOver::graph_unread, commands::proofs::HandedOver::hands_nothing))]
fn graph_in_heap<Q: Read, W: Write>(
    alloc: Global,
    heap: Option<HeapSize>,
    form: GraphForm,
    query: &mut Watched<Q>,
    texts: &mut Texts,
    out: &mut Watched<W>,
) -> Result<(), Fault>
    ensures known { GraphsOver form (Q.remaining (inner_of query.old)) (W.contents (inner_of out.old)) (W.contents (inner_of out.new)) result }
    ensures handed { GraphsOnHanded form Q.remaining query.old query.new (W.contents (inner_of out.old)) (W.contents (inner_of out.new)) result }
{
    match heap {
        None => {
            let arena = Bump::new(alloc);
            graph_query(alloc, &arena, form, query, texts, out)
        }
        Some(size) => match LocalHeap::new(alloc, size.bytes() as usize) {
            Ok(heap) => graph_query(alloc, &heap, form, query, texts, out),
            Err(_) => Err(Fault::NoMemory),
        },
    }
}

/// Writes the graph of a query.
#[tactic(auto, using(crate::proofs::OpenedTexts::one_closed))]
pub fn graph_named<'a, Q: Sources<'a>, W: Write>(
    alloc: Global,
    heap: Option<HeapSize>,
    form: GraphForm,
    query: Place<'a, '_, Q>,
    out: &mut Watched<W>,
    kept: &mut Kept<'a>,
) -> Result<(), Fault>
    ensures known { GraphsOn (Q.content query.entry.queries.now) form query.entry.name.now (W.contents (inner_of out.old)) (W.contents (inner_of out.new)) result }
    ensures read { GraphsOnTexts (Q.content query.entry.queries.now) kept.new.transcripts form query.entry.name.now (W.contents (inner_of out.old)) (W.contents (inner_of out.new)) result }
{
    let mut query = open_named(query.queries, query.name);
    let done = graph_in_heap(alloc, heap, form, &mut query.text, &mut kept.texts, out);
    kept.keep_query(query);
    done
}

/// Writes a query in its canonical form.
#[tactic(auto, using(crate::proofs::OpenedTexts::one_closed))]
pub fn format_named<'a, Q: Sources<'a>, W: Write>(
    alloc: Global,
    query: Place<'a, '_, Q>,
    out: &mut Watched<W>,
    kept: &mut Kept<'a>,
) -> Result<(), Fault>
    ensures known { FormatsOn (Q.content query.entry.queries.now) query.entry.name.now (W.contents (inner_of out.old)) (W.contents (inner_of out.new)) result }
    ensures read { FormatsOnTexts (Q.content query.entry.queries.now) kept.new.transcripts query.entry.name.now (W.contents (inner_of out.old)) (W.contents (inner_of out.new)) result }
{
    let mut query = open_named(query.queries, query.name);
    let arena = Bump::new(alloc);
    let done = format_query(alloc, &arena, &mut query.text, &mut kept.texts, out);
    kept.keep_query(query);
    done
}

/// Writes a query's script of SQL.
#[tactic(auto, using(crate::proofs::OpenedTexts::one_closed))]
pub fn script_named<'a, Q: Sources<'a>, W: Write>(
    alloc: Global,
    request: Request<'_>,
    query: Place<'a, '_, Q>,
    out: &mut Watched<W>,
    kept: &mut Kept<'a>,
) -> Result<(), Fault>
    ensures known { ScriptsOn (Q.content query.entry.queries.now) (asked_of request.entry) query.entry.name.now (W.contents (inner_of out.old)) (W.contents (inner_of out.new)) result }
    ensures read { ScriptsOnTexts (Q.content query.entry.queries.now) kept.new.transcripts (asked_of request.entry) query.entry.name.now (W.contents (inner_of out.old)) (W.contents (inner_of out.new)) result }
{
    let mut query = open_named(query.queries, query.name);
    let arena = Bump::new(alloc);
    let done = script_query(
        alloc,
        &arena,
        request,
        &mut query.text,
        &mut kept.texts,
        out,
    );
    kept.keep_query(query);
    done
}
