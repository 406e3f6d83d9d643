//! What the vertices took in.

ghost use Rattle.std.specs.Prelude.{◌≡◌};
ghost use Rattle.driver.specs.Received.{received_in, received_of};

use crate::tally::{Counts, Tally};

/// How many records a tally says that the vertices took in, at all workers together; 18446744073709551615 if there were more.
pub fn received(tally: &Tally) -> u64
    ensures { result ≡ received_of tally.now }
{
    let mut all: u64 = 0;
    'vertices: for vertex in 0..tally.len() {
        all = all.saturating_add(received_by(tally.row(vertex)));
    }
    all
}

/// The same of one vertex.
fn received_by(row: &[Counts]) -> u64
    ensures { result ≡ received_in row.now }
{
    let mut all: u64 = 0;
    'workers: for counts in row {
        all = all.saturating_add(counts.received);
    }
    all
}
