//! Ways to sort the records of an epoch.

ghost use Rattle.std.specs.Prelude.{OnOk};
ghost use Rattle.rows.specs.FlatRows.{joined};
ghost use Rattle.collector.specs.OutputText.{AppendsSorted};

use crate::output::push_sorted;
use rows::Batch;
use std::alloc::{AllocError, Global};

/// A way to sort records and to append their lines.
pub trait Sorter {
    // What must be known of its types where it is used: of one with threads, that they may share its handle.
    ghost is_usable: { Type 0 };

    /// Appends the lines of records, in ascending order.
    fn append(&self, alloc: Global, out: &mut Vec<u8>, batches: &[Batch]) -> Result<(), AllocError>
        requires { is_usable }
        ensures { OnOk result (AppendsSorted out.old.items out.new.items (joined batches.now)) };
}

/// Sorts and formats in the caller's thread.
pub struct Alone;

impl Sorter for Alone {
    ghost use Rattle.std.specs.Prelude.{⊤};

    ghost is_usable = { ⊤ };

    fn append(
        &self,
        alloc: Global,
        out: &mut Vec<u8>,
        batches: &[Batch],
    ) -> Result<(), AllocError> {
        push_sorted(alloc, out, batches)
    }
}
