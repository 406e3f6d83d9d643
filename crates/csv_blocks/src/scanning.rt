//! The records that end in a piece of a text.

ghost use Rattle.std.specs.Prelude.{◌≡◌, None, Some, IfNone, IfSome};
ghost use Rattle.csv_strict.specs.Strict.{run};
ghost use Rattle.csv_blocks.specs.Texts.{IsScanned};

use csv_strict::State;

/// Reads on in a text: how many of the bytes come before the end of the last record that ends in them, or 0, and the state after all of them. `None` if one
/// of them may not come.
pub fn scan(before: State, bytes: &[u8]) -> Option<(usize, State)>
    ensures scanned { IfSome result (λ r. IsScanned before bytes.now r.0 r.1) }
    ensures refused { IfNone result (run (Some before) bytes.now ≡ None) }
{
    let mut state = before;
    let mut count = 0;
    for i in 0..bytes.len() {
        if state.stays(bytes[i]) {
            continue;
        }
        let Some(next) = state.next(bytes[i]) else {
            return None;
        };
        state = next;
        if next == State::Record {
            count = i + 1;
        }
    }
    Some((count, state))
}
