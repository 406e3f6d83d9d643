//! How many workers a command line asks for.

ghost use Rattle.std.specs.Prelude.{◌≡◌, ◌<◌, ◌≤◌, IfNone, IfSome};

/// A number of workers, 1 to 64.
#[derive(Clone, Copy)]
pub struct Workers {
    count: u32,
    ghost some: { 0 < count },
    ghost few: { count ≤ 64 },
}

impl Workers {
    /// One worker.
    pub fn one() -> Workers
        ensures { result.count ≡ 1 }
    {
        Workers { count: 1 }
    }

    /// That many workers. None exactly where it isn't 1 to 64.
    pub fn new(count: u32) -> Option<Workers>
        ensures found { IfSome result (λ w. w.count ≡ count) }
        ensures none { IfNone result (0 < count → count ≤ 64 → ⊥) }
    {
        if 0 < count && count <= 64 {
            Some(Workers { count })
        } else {
            None
        }
    }

    /// The number.
    pub fn count(self) -> u32
        ensures value { result ≡ self.count }
        ensures some { 0 < result }
        ensures few { result ≤ 64 }
    {
        self.count
    }
}
