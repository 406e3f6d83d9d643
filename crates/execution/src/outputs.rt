//! What a report has emitted.

ghost use Rattle.std.specs.Prelude.{◌≡◌, IfOk, map};
ghost use Rattle.board.specs.Promises.{IsOutputPlace, emitted_at};
ghost use Rattle.graph.specs.Shown.{shown_names};
ghost use Rattle.collector.specs.Emitted.{names_of, records_of};
ghost use Rattle.rows.specs.FlatRows.{joined};
ghost use Rattle.execution.specs.Fed.{EmittedBelow, HasEpochs};

use collector::OutputEpochs;
use rows::Batch;
use std::alloc::{AllocError, Global};
use views::Views;
use workers::Report;

/// What was emitted at an output for an epoch.
fn emitted_for<'a, V: Views>(report: &'a Report<V>, output: u32, epoch: u32) -> &'a [Batch]
    requires { IsOutputPlace report.now output }
    ensures { joined result.now ≡ emitted_at report.entry.now output epoch }
{
    report.emitted(output, epoch)
}

/// What was emitted at an output for each of the first `count` epochs.
fn emitted_at_output<'a, V: Views>(
    alloc: Global,
    report: &'a Report<V>,
    output: u32,
    count: u32,
) -> Result<Vec<&'a [Batch]>, AllocError>
    requires { IsOutputPlace report.now output }
    ensures { IfOk result (λ v. HasEpochs report.entry.now output count (map (λ r. joined r.now) v.items)) }
{
    let mut lists = Vec::with_capacity(alloc, count as usize)?;
    for epoch in 0..count {
        lists.push(emitted_for(report, output, epoch))?;
    }
    Ok(lists)
}

/// What was emitted at each output, with its name, for each of the first `count` epochs.
pub fn emitted<'a, V: Views>(
    alloc: Global,
    report: &'a Report<V>,
    count: u32,
) -> Result<Vec<OutputEpochs<'a>>, AllocError>
    ensures names { IfOk result (λ v. names_of v.items ≡ shown_names report.entry.now.graph) }
    ensures each { IfOk result (λ v. EmittedBelow report.entry.now count (records_of v.items)) }
{
    let outputs = report.graph().outputs();
    let mut emitted = Vec::with_capacity(alloc, outputs.len())?;
    for output in 0..report.output_count() {
        emitted.push(OutputEpochs {
            name: outputs[output as usize].name.bytes(),
            epochs: emitted_at_output(alloc, report, output, count)?,
        })?;
    }
    Ok(emitted)
}
