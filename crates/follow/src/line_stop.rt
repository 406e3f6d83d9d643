//! Why taking lines stopped.

ghost use Rattle.std.specs.Prelude.{◌↔◌, ◌≤◌, ℕ, List, length, IsTrue};
ghost use Rattle.semantics.specs.Query.{Input};
ghost use Rattle.collector.specs.Lines.{Item, Says};
ghost use Rattle.collector.specs.Pieces.{split_on};
ghost use Rattle.follow.specs.Follows.{IsTooLong, max_line};

use collector::find;

/// Why taking lines stopped.
#[derive(Clone, Copy)]
pub enum Taken {
    /// Every whole line was taken; part of the next line may be left.
    Whole,
    /// The next line has the fault of that code.
    Fault(u8),
    /// The last line taken began an epoch, and the board has taken enough lines.
    Epoch,
}

/// The bytes of the longest line that says something.
const MAX_LINE: usize = 368;

/// Whether the text begins with a line, or a part of one, that is too long to say anything.
pub fn is_too_long(text: &[u8]) -> bool
    ensures { IsTrue result ↔ IsTooLong (split_on 10 text.now) }
{
    if text.len() <= MAX_LINE {
        return false;
    }
    let (front, _) = text.split_at(MAX_LINE + 1);
    find(front, b'\n').is_none()
}

/// A line that says something isn't too long: so one that is too long is faulty, whatever comes after it.
pub fn law_longest_line()
    ensures { (inputs : List Input) (epochs : ℕ) (line : List ℕ) (item : Item) → Says inputs epochs line item → length line ≤ max_line }
{}
