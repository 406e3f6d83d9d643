//! Counts by place: 1 where none is written.

ghost use Rattle.std.specs.Prelude.{◌≡◌, ◌≢◌, ℕ, ◌≤◌, ◌<◌, ◌+◌, length, slice_index_or, IfErr, OnOk, OnErr};
ghost use Rattle.rows.specs.Counts.{AreCounts, most};
ghost use Rattle.rows.specs.declared.fault.WorkFault.TheVariants.{Count};

use crate::counted::MAX_COUNT;
use crate::fault::WorkFault;
use record_core::NoMemory;

/// Writes the counts that aren't written, up to that many.
pub(crate) fn fill(counts: &mut Vec<u64>, len: usize) -> Result<(), NoMemory>
    ensures full { OnOk result (len ≤ length counts.new.items) }
    ensures short { (rows : ℕ) → len ≤ rows → length counts.old.items ≤ rows → length counts.new.items ≤ rows }
    ensures same { (k : ℕ) → slice_index_or counts.new.items k 1 ≡ slice_index_or counts.old.items k 1 }
{
    while counts.len() < len {
        counts.push(1)?;
    }
    Ok(())
}

/// Raises the count of a place. After a refusal the counts are as they were.
#[inline(always)]
pub(crate) fn raise(counts: &mut Vec<u64>, place: usize, count: u64) -> Result<(), WorkFault>
    requires counts { AreCounts counts.old.items }
    requires place { place < 18446744073709551615 }
    requires some { 1 ≤ count }
    requires fits { count ≤ most }
    ensures here { OnOk result (slice_index_or counts.new.items place 1 ≡ slice_index_or counts.old.items place 1 + count) }
    ensures beside { (k : ℕ) → k ≢ place → slice_index_or counts.new.items k 1 ≡ slice_index_or counts.old.items k 1 }
    ensures kept { OnErr result (slice_index_or counts.new.items place 1 ≡ slice_index_or counts.old.items place 1) }
    ensures short { (rows : ℕ) → place < rows → length counts.old.items ≤ rows → length counts.new.items ≤ rows }
    ensures counts { AreCounts counts.new.items }
    ensures over { IfErr result (λ e. e ≡ Count → most < slice_index_or counts.old.items place 1 + count) }
{
    fill(counts, place + 1)?;
    let sum = counts[place] + count;
    if sum > MAX_COUNT {
        return Err(WorkFault::Count);
    }
    counts[place] = sum;
    Ok(())
}
