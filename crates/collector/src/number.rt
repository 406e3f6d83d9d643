//! Numbers as the program prints them.

ghost use Rattle.std.specs.Prelude.{Some, decimal};

use itoa::Buffer;
use std::fmt;

/// A number that a line shows, printed by `itoa`.
#[derive(Clone, Copy)]
pub struct Number(pub u64);

impl fmt::Display for Number {
    ghost output = { λ n. Some (decimal n.0) };

    fn fmt<W: fmt::Write>(&self, f: &mut fmt::Formatter<W>) -> fmt::Result {
        let mut buffer = Buffer::new();
        buffer.format(self.0).fmt(f)
    }
}
