//! Compares records in batches.

ghost use Rattle.std.specs.Prelude.{◌≡◌, ◌↔◌, IsTrue};

use rows::Batch;

/// Whether two lists have the same batches, in the same order.
pub fn same_batches(left: &[Batch], right: &[Batch]) -> bool
    ensures { IsTrue result ↔ (left.now ≡ right.now) }
{
    let mut rest = right;
    for batch in left {
        let Some((other, after)) = rest.split_first() else {
            return false;
        };
        if !batch.same(other) {
            return false;
        }
        rest = after;
    }
    rest.is_empty()
}
