//! Checks that a report was fed what was read.

ghost use Rattle.std.specs.Prelude.{◌≡◌, ◌<◌, ℕ, IsTrue};
ghost use Rattle.collector.specs.ReadEpochs.{records_at};
ghost use Rattle.execution.specs.Fed.{HoldsFed, fed_at};

use collector::{Epochs, same_batches};
use views::Views;
use workers::Report;

/// Whether an input was fed, at an epoch, exactly what was read.
fn is_same<V: Views>(report: &Report<V>, input: u32, epochs: &Epochs, epoch: u32) -> bool
    ensures { IsTrue result → fed_at report.now input epoch ≡ records_at epochs.now epoch input }
{
    same_batches(report.fed(input, epoch), epochs.batches(input, epoch))
}

/// Whether all inputs were fed, at an epoch, exactly what was read.
fn is_fed_at<V: Views>(report: &Report<V>, inputs: u32, epochs: &Epochs, epoch: u32) -> bool
    ensures { IsTrue result → (i : ℕ) → i < inputs → fed_at report.now i epoch ≡ records_at epochs.now epoch i }
{
    for input in 0..inputs {
        if !is_same(report, input, epochs, epoch) {
            return false;
        }
    }
    true
}

/// Whether all inputs were fed exactly what was read.
pub fn is_fed<V: Views>(report: &Report<V>, inputs: u32, epochs: &Epochs, count: u32) -> bool
    ensures { IsTrue result → HoldsFed report.now inputs epochs.now count }
{
    for epoch in 0..count {
        if !is_fed_at(report, inputs, epochs, epoch) {
            return false;
        }
    }
    true
}
