//! Counts what each vertex does in a run, and reports it, where that is asked for.

ghost use Rattle.std.specs.Prelude.{◌<◌, ◌≤◌, IfOk};
ghost use Rattle.collector.specs.WrittenBytes.{AppendsFront};
ghost use Rattle.semantics.specs.Limits.{max_workers};
ghost use Rattle.commands.specs.Reported.{AreReporting, ReportsBy, ReportsIn};

use collector::Epochs;
use command_line::GraphForm;
use driver::Tally;
use execution::takes_all;
use graph::Graph;
use record_core::NoMemory;
use statistics::Statistics;
use std::alloc::Global;
use std::io::Write;
use std::sync::Arc;

/// What stands in the place of the counters where there is no memory for them.
const NO_COUNTERS: &[u8] = b"out of memory for the counters\n";

/// How what is counted is reported.
#[derive(Drop)]
pub struct Reporting {
    form: GraphForm,
    statistics: Statistics,
}

impl Reporting {
    /// A report of a run of the graph on that many workers, if one is asked for. What is fed is counted already.
    pub fn of(
        alloc: Global,
        stats: Option<GraphForm>,
        graph: &Arc<Graph, Global>,
        workers: u32,
        epochs: &Epochs,
    ) -> Result<Option<Reporting>, NoMemory>
        requires some { 0 < workers }
        requires few { workers ≤ max_workers }
        ensures { IfOk result (AreReporting stats graph.now.value) }
    {
        match stats {
            None => Ok(None),
            Some(form) => {
                let statistics = Statistics::of(alloc, graph, workers, epochs)?;
                Ok(Some(Reporting { form, statistics }))
            }
        }
    }

    /// Writes the lines or the drawing, or that there is no memory for them; a writer that fails was given a beginning.
    fn write<E: Write>(&self, alloc: Global, tally: &Tally, err: &mut E)
        ensures { ReportsIn self.now.form self.now.statistics.graph.value tally.now (E.contents err.old) (E.contents err.new) }
    {
        match self.form {
            GraphForm::Lines => write_lines(alloc, &self.statistics, tally, err),
            GraphForm::Dot => write_dot(alloc, &self.statistics, tally, err),
        }
    }
}

/// Writes the lines of counters that each vertex has.
fn write_lines<E: Write>(alloc: Global, statistics: &Statistics, tally: &Tally, err: &mut E)
    ensures { ReportsIn GraphForm.Lines statistics.now.graph.value tally.now (E.contents err.old) (E.contents err.new) }
{
    if tally.len() != statistics.vertex_count() {
        return;
    }
    match statistics.text(alloc, tally) {
        Ok(text) => write_front(err, &text),
        Err(_) => write_front(err, NO_COUNTERS),
    }
}

/// Writes the drawing.
fn write_dot<E: Write>(alloc: Global, statistics: &Statistics, tally: &Tally, err: &mut E) {
    match statistics.dot(alloc, tally) {
        Ok(text) => write_front(err, &text),
        Err(_) => write_front(err, NO_COUNTERS),
    }
}

/// Writes a text, or a beginning of it where the writer fails.
fn write_front<E: Write>(err: &mut E, text: &[u8])
    ensures { AppendsFront (E.contents err.old) (E.contents err.new) text.now }
{
    let _whole = takes_all(err, text);
}

/// Writes a report, if it is asked for.
pub fn report_counts<E: Write>(
    alloc: Global,
    report: &Option<Reporting>,
    tally: &Tally,
    err: &mut E,
)
    ensures { ReportsBy report.now tally.now (E.contents err.old) (E.contents err.new) }
{
    match report {
        None => {}
        Some(report) => report.write(alloc, tally, err),
    }
}
