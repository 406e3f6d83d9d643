//! Follows a CSV file, by the files and the dictionary of a line.

ghost use Rattle.std.specs.Prelude.{◌≡◌, ◌∷◌, [], IfErr, IfOk, None, OnOk, Some, get_or, map, option_map};
ghost use Rattle.collector.specs.Watching.{inner_of};
ghost use Rattle.csv_cells.specs.Texts.{texts_of};
ghost use Rattle.tables.specs.Answers.{header_of};
ghost use Rattle.tables.specs.Files.{csv_text};
ghost use Rattle.table_epochs.specs.Followed.{FailsText, IsStart};
ghost use Rattle.table_epochs.specs.Going.{HasHeader, followed_by, reached_by};
ghost use Rattle.table_follows.specs.Followed.{FailsFile, FailsSo, FollowsFile, FollowsFrom, HasFollowed, IsStream};
ghost use Rattle.table_follows.specs.Ready.{IsReady};

use crate::stream::{other_texts, stream_of};
use collector::{Sources, Watched, open_named};
use csv_cells::Dictionary;
use diagnostics::{Fault, Texts};
use query_answers::Answering;
use schema::Table;
use schema_words::TableRun;
use std::alloc::Global;
use std::io::Write;
use table_commands::{Drafts, begin_dictionary, encoding_dictionary, grown_text, keep_dictionary};
use table_epochs::{Following, Stream, check_files, follow_end, follow_text};
use table_queries::{Job, RunFault, asked_output, begin_run};
use table_runs::run_job;
use tables::decode;

/// The header row of a table's file.
fn header_row<'a>(alloc: Global, table: &Table, with_epochs: bool) -> Result<Vec<u8>, RunFault<'a>>
    ensures { IfOk result (λ row. row.items ≡ csv_text (header_of table.now with_epochs ∷ [])) }
{
    let none = Dictionary::new(alloc);
    match decode(alloc, table, with_epochs, &none, b"") {
        Ok(header) => Ok(header),
        Err(_) => Err(RunFault::Run(Fault::NoMemory)),
    }
}

/// The header row of an input, and nothing where there is none.
fn own_header<'a>(alloc: Global, tables: &[Table], place: usize) -> Result<Vec<u8>, RunFault<'a>> {
    match tables.get(place) {
        Some(table) => header_row(alloc, table, false),
        None => Ok(Vec::new(alloc)),
    }
}

/// The path of a file.
fn path_at<'a>(paths: &[&'a str], place: usize) -> &'a str
    ensures { result.now ≡ get_or (map (λ s. s.now) paths.now) place [] }
{
    if place < paths.len() {
        paths[place]
    } else {
        ""
    }
}

/// Follows the file that arrives. What is wrong with the others is told before.
fn follow_file<'a, A: Answering, S: Sources<'a>, W: Write>(
    engine: &A,
    alloc: Global,
    sources: &S,
    following: &mut Following<'_, 'a>,
    texts: &mut Texts,
    out: &mut Watched<W>,
) -> Result<(), RunFault<'a>>
    requires { A.is_usable }
    ensures written { HasHeader following.old → IsStart (reached_by following.old)
        → OnOk result (FollowsFrom (S.content sources.now (get_or (map (λ s. s.now) following.old.job.paths.now) following.old.stream.place []))
        (followed_by following.old) (texts_of following.old.dictionary) (W.contents (inner_of out.old)) (W.contents (inner_of out.new))) }
    ensures fault { HasHeader following.old → IsStart (reached_by following.old)
        → IfErr result (FailsText (S.content sources.now (get_or (map (λ s. s.now) following.old.job.paths.now) following.old.stream.place []))
        (followed_by following.old) (W.contents (inner_of out.old)) (W.contents (inner_of out.new))) }
{
    let place = following.stream.place;
    let header = own_header(alloc, &following.job.schema.inputs, place)?;
    check_files(alloc, following, header)?;
    let path = path_at(following.job.paths, place);
    let mut opened = open_named(sources, path);
    let header = follow_text(engine, alloc, following, path, &mut opened.text, texts, out)?;
    follow_end(alloc, following, header, out)
}

/// A query, its files, and the input whose file arrives.
#[derive(Clone, Copy)]
struct Streamed<'p, 'a> {
    job: Job<'p, 'a>,
    stream: Stream,
}

/// What is followed, by a dictionary.
fn begin_following<'p, 'a, S: Sources<'a>>(
    alloc: Global,
    sources: &S,
    streamed: Streamed<'p, 'a>,
    dictionary: Dictionary,
) -> Result<Following<'p, 'a>, RunFault<'a>>
    ensures { IsStream streamed.entry.job.schema.now.inputs.items streamed.entry.stream.place streamed.entry.stream.column
        streamed.entry.stream.cells → IfOk result (IsReady (S.content sources.now) streamed.entry.job.schema.now streamed.entry.job.table.now
        (map (λ s. s.now) streamed.entry.job.paths.now) streamed.entry.job.query.now (texts_of dictionary)) }
{
    let Streamed { job, stream } = streamed;
    Ok(Following {
        job,
        stream,
        header: header_row(alloc, job.table, true)?,
        files: other_texts(alloc, sources, job.paths, stream.place)?,
        dictionary,
        count: 0,
        last: None,
    })
}

/// Follows with a dictionary that isn't kept.
fn follow_without<'a, A: Answering, S: Sources<'a>, W: Write>(
    engine: &A,
    alloc: Global,
    sources: &S,
    streamed: Streamed<'_, 'a>,
    texts: &mut Texts,
    out: &mut Watched<W>,
) -> Result<(), RunFault<'a>>
    requires { A.is_usable }
    ensures written { IsStream streamed.entry.job.schema.now.inputs.items streamed.entry.stream.place streamed.entry.stream.column
        streamed.entry.stream.cells
        → OnOk result (FollowsFile (S.content sources.now) streamed.entry.job.schema.now streamed.entry.job.table.now
        (map (λ s. s.now) streamed.entry.job.paths.now) streamed.entry.job.query.now None (W.contents (inner_of out.old))
        (W.contents (inner_of out.new))) }
    ensures fault { IsStream streamed.entry.job.schema.now.inputs.items streamed.entry.stream.place streamed.entry.stream.column
        streamed.entry.stream.cells
        → IfErr result (FailsFile (S.content sources.now) streamed.entry.job.schema.now streamed.entry.job.table.now
        (map (λ s. s.now) streamed.entry.job.paths.now) streamed.entry.job.query.now (W.contents (inner_of out.old))
        (W.contents (inner_of out.new))) }
{
    let none = Dictionary::new(alloc);
    let mut following = begin_following(alloc, sources, streamed, none)?;
    follow_file(engine, alloc, sources, &mut following, texts, out)
}

/// The text of the dictionary's file, if it has more than that many texts.
fn grown_after<'a>(
    alloc: Global,
    dictionary: &Dictionary,
    count: usize,
) -> Result<Option<Vec<u8>>, RunFault<'a>> {
    let kept = grown_text(alloc, dictionary, count)?;
    Ok(kept)
}

/// Follows the file that arrives. Gives the text of the dictionary's file if it has more than that many texts then.
fn follow_counted<'a, A: Answering, S: Sources<'a>, W: Write>(
    engine: &A,
    alloc: Global,
    sources: &S,
    following: &mut Following<'_, 'a>,
    count: usize,
    texts: &mut Texts,
    out: &mut Watched<W>,
) -> Result<Option<Vec<u8>>, RunFault<'a>>
    requires { A.is_usable }
    ensures written { HasHeader following.old → IsStart (reached_by following.old)
        → OnOk result (FollowsFrom (S.content sources.now (get_or (map (λ s. s.now) following.old.job.paths.now) following.old.stream.place []))
        (followed_by following.old) (texts_of following.old.dictionary) (W.contents (inner_of out.old)) (W.contents (inner_of out.new))) }
    ensures fault { HasHeader following.old → IsStart (reached_by following.old)
        → IfErr result (FailsText (S.content sources.now (get_or (map (λ s. s.now) following.old.job.paths.now) following.old.stream.place []))
        (followed_by following.old) (W.contents (inner_of out.old)) (W.contents (inner_of out.new))) }
{
    follow_file(engine, alloc, sources, following, texts, out)?;
    grown_after(alloc, &following.dictionary, count)
}

/// Follows by the dictionary of that name. Gives the text of its file if it has grown.
fn follow_with<'a, A: Answering, S: Sources<'a>, W: Write>(
    engine: &A,
    alloc: Global,
    sources: &S,
    streamed: Streamed<'_, 'a>,
    name: &'a str,
    texts: &mut Texts,
    out: &mut Watched<W>,
) -> Result<Option<Vec<u8>>, RunFault<'a>>
    requires { A.is_usable }
    ensures written { IsStream streamed.entry.job.schema.now.inputs.items streamed.entry.stream.place streamed.entry.stream.column
        streamed.entry.stream.cells
        → OnOk result (FollowsFile (S.content sources.now) streamed.entry.job.schema.now streamed.entry.job.table.now
        (map (λ s. s.now) streamed.entry.job.paths.now) streamed.entry.job.query.now (Some name.now) (W.contents (inner_of out.old))
        (W.contents (inner_of out.new))) }
    ensures fault { IsStream streamed.entry.job.schema.now.inputs.items streamed.entry.stream.place streamed.entry.stream.column
        streamed.entry.stream.cells
        → IfErr result (FailsFile (S.content sources.now) streamed.entry.job.schema.now streamed.entry.job.table.now
        (map (λ s. s.now) streamed.entry.job.paths.now) streamed.entry.job.query.now (W.contents (inner_of out.old))
        (W.contents (inner_of out.new))) }
{
    let dictionary = encoding_dictionary(alloc, sources, streamed.job.schema, name)?;
    let count = dictionary.len();
    let mut following = begin_following(alloc, sources, streamed, dictionary)?;
    follow_counted(engine, alloc, sources, &mut following, count, texts, out)
}

/// Follows, and keeps the dictionary if there is one, which no other command writes meanwhile.
fn follow_streamed<'a, A: Answering, S: Sources<'a>, D: Drafts, W: Write>(
    engine: &A,
    alloc: Global,
    sources: &S,
    drafts: &D,
    streamed: Streamed<'_, 'a>,
    texts: &mut Texts,
    out: &mut Watched<W>,
) -> Result<(), RunFault<'a>>
    requires { A.is_usable }
    ensures written { IsStream streamed.entry.job.schema.now.inputs.items streamed.entry.stream.place streamed.entry.stream.column
        streamed.entry.stream.cells
        → OnOk result (FollowsFile (S.content sources.now) streamed.entry.job.schema.now streamed.entry.job.table.now
        (map (λ s. s.now) streamed.entry.job.paths.now) streamed.entry.job.query.now (option_map (λ s. s.now) streamed.entry.job.dictionary) (W.contents (inner_of out.old))
        (W.contents (inner_of out.new))) }
    ensures fault { IsStream streamed.entry.job.schema.now.inputs.items streamed.entry.stream.place streamed.entry.stream.column
        streamed.entry.stream.cells
        → IfErr result (FailsFile (S.content sources.now) streamed.entry.job.schema.now streamed.entry.job.table.now
        (map (λ s. s.now) streamed.entry.job.paths.now) streamed.entry.job.query.now (W.contents (inner_of out.old))
        (W.contents (inner_of out.new))) }
{
    let Some(name) = streamed.job.dictionary else {
        return follow_without(engine, alloc, sources, streamed, texts, out);
    };
    let draft = begin_dictionary(drafts, name)?;
    match follow_with(engine, alloc, sources, streamed, name, texts, out) {
        Ok(kept) => Ok(keep_dictionary(drafts, draft, name, kept)?),
        Err(fault) => {
            drafts.discard(draft);
            Err(fault)
        }
    }
}

/// Writes the CSV file of a query's answer while one of the files arrives: that of the input which has an epoch for each value of a column. The
/// rows of an epoch are written once it is complete. Where no input has epochs of its own it does what `run_tables` does.
///
/// Faults are reported in this order: those of `begin_run`, the dictionary, the other files, and then those of the file that arrives and of the
/// runs, epoch by epoch. The rows that were written before a fault stay.
pub fn follow_tables<'a, A: Answering, S: Sources<'a>, D: Drafts, W: Write>(
    engine: &A,
    alloc: Global,
    sources: &S,
    drafts: &D,
    asked: &TableRun<'a>,
    texts: &mut Texts,
    out: &mut Watched<W>,
) -> Result<(), RunFault<'a>>
    requires { A.is_usable }
    ensures written { OnOk result (HasFollowed (S.content sources.now) asked.now (W.contents (inner_of out.old)) (W.contents (inner_of out.new))) }
    ensures fault { IfErr result (FailsSo (S.content sources.now) asked.now (W.contents (inner_of out.old)) (W.contents (inner_of out.new))) }
{
    let begun = begin_run(alloc, sources, asked, texts)?;
    let job = Job {
        schema: &begun.schema,
        paths: begun.paths.as_slice(),
        table: asked_output(&begun.schema, asked.output)?,
        query: begun.query.as_slice(),
        workers: asked.workers,
        dictionary: asked.dictionary,
    };
    match stream_of(&begun.schema.inputs) {
        Some(stream) => {
            let streamed = Streamed { job, stream };
            follow_streamed(engine, alloc, sources, drafts, streamed, texts, out)
        }
        None => run_job(engine, alloc, sources, drafts, &job, texts, out),
    }
}
