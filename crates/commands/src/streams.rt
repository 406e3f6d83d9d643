//! Where a command writes.

use collector::Watched;
use execution::Watcher;

/// Standard output, standard error, and what is told of a run that `--watch` asks for.
#[derive(Drop)]
pub struct Streams<W, E, O> {
    pub out: Watched<W>,
    pub err: E,
    pub watcher: Option<Watcher<O>>,
}
