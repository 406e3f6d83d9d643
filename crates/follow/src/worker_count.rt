//! How many workers a board has.

ghost use Rattle.std.specs.Prelude.{◌≡◌, ◌<◌, ◌≤◌};
ghost use Rattle.semantics.specs.Limits.{max_workers};

/// The number of a board's workers, 1 to 64.
#[derive(Clone, Copy)]
pub struct WorkerCount {
    count: u32,
    ghost some: { 0 < count },
    ghost few: { count ≤ max_workers },
}

impl WorkerCount {
    /// That many workers.
    pub fn new(count: u32) -> WorkerCount
        requires some { 0 < count }
        requires few { count ≤ max_workers }
        ensures { result.count ≡ count }
    {
        WorkerCount { count }
    }

    /// The number of workers.
    pub fn count(self) -> u32
        ensures value { result ≡ self.count }
        ensures some { 0 < result }
        ensures few { result ≤ max_workers }
    {
        self.count
    }
}
