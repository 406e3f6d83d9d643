//! What a command line asks for.

use crate::first_epoch::FirstEpoch;
use crate::heap_size::HeapSize;
use crate::query::Query;
use crate::script_form::ScriptForm;
use crate::worker_count::Workers;

/// What the words of the line ask for. Paths are kept as they were given. With `-e` QUERY is the query itself.
#[derive(Clone, Copy)]
pub enum Options<'a> {
    /// `loom run QUERY INPUT`, on one worker or `--workers N`; with `--watch` it says how many epochs have passed, with `--stats` what
    /// each vertex did, with `--dot` in a drawing; with `--end-mark` the input has to end with a line `end`; and a fault explained with
    /// `--explain`
    Run {
        query: Query<'a>,
        input: &'a str,
        workers: Workers,
        watch: bool,
        stats: Option<GraphForm>,
        end_mark: bool,
        explain: bool,
    },
    /// `loom follow QUERY`, or `loom follow QUERY INPUT`, on one worker or `--workers N`; the first epoch is called 0, or with
    /// `--first-epoch E` E; with `--end-mark` the input has to end with a line `end`; and a fault explained with `--explain`
    Follow {
        query: Query<'a>,
        input: &'a str,
        workers: Workers,
        first: FirstEpoch,
        end_mark: bool,
        explain: bool,
    },
    /// `loom check QUERY`, or `loom check QUERY INPUT`, which reads the input too; in a heap of that size with `--heap BYTES`; and a fault
    /// explained with `--explain`
    Check {
        query: Query<'a>,
        input: Option<&'a str>,
        heap: Option<HeapSize>,
        explain: bool,
    },
    /// `loom graph QUERY`, or `loom graph --dot QUERY`, in a heap of that size with `--heap BYTES`, and a fault explained with `--explain`
    Graph {
        query: Query<'a>,
        form: GraphForm,
        heap: Option<HeapSize>,
        explain: bool,
    },
    /// `loom format QUERY`, and a fault explained with `--explain`
    Format {
        query: Query<'a>,
        explain: bool,
    },
    /// `loom sql QUERY`, for PostgreSQL or `--dialect NAME`, as one statement with `--with`, by wrapped arithmetic with `--wrapped`; with
    /// `--epochs` of all epochs at once; with `--output NAME` of that output alone; and a fault explained with `--explain`
    Sql {
        query: Query<'a>,
        form: ScriptForm,
        epochs: bool,
        output: Option<&'a str>,
        explain: bool,
    },
    /// `loom replay QUERY SCHEDULE`, on one worker or `--workers N`; with `--views` each has a view of its own; and a fault explained with
    /// `--explain`
    Replay {
        query: Query<'a>,
        schedule: &'a str,
        workers: Workers,
        views: bool,
        explain: bool,
    },
    /// `loom explain CODE`: the word that should be a refusal's number
    Explain {
        code: &'a str,
    },
}

/// How a graph is written.
#[derive(Clone, Copy)]
pub enum GraphForm {
    /// A line for each vertex.
    Lines,
    /// A text that Graphviz draws.
    Dot,
}
