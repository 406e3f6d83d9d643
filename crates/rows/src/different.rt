//! Whether rows are different.

ghost use Rattle.std.specs.Prelude.{◌≡◌, ◌≤◌, ◌<◌, [], length, slice_index_or, IfOk, IsTrue, IfSome};
ghost use Rattle.rows.specs.Indexes.{AreDifferent, any_below};
ghost use Rattle.semantics.specs.Multiset.{same};

use crate::builder::Rows;
use crate::chains::{Chains, bucket_of};
use crate::columns::{hash_row, is_same};
use record_core::NoMemory;
use std::alloc::Global;

/// So few rows are compared each with each, without a table.
const FEW: usize = 8;

/// The number of buckets for each row, so that most rows are the first of theirs.
const BUCKETS: usize = 4;

/// The number of rows at most whose places the table can hold.
const MOST: usize = u32::MAX as usize;

/// Whether the rows are different. The first row of a bucket is its owner; one that comes later is compared with it, and where it is
/// another row it is in doubt. Those in doubt, which are few, are looked up. Different rows may get `false`, too.
pub(crate) fn are_different(alloc: Global, rows: &Rows) -> Result<bool, NoMemory>
    ensures { IfOk result (λ d. IsTrue d → AreDifferent rows.now.rows) }
{
    if rows.len() <= FEW {
        return Ok(few_are_different(rows));
    }
    if rows.len() > MOST {
        return Ok(false);
    }
    let Some(doubtful) = doubtful(alloc, rows)? else {
        return Ok(false);
    };
    if doubtful.len() <= FEW {
        return Ok(few_are_different(&doubtful));
    }
    chained_are_different(alloc, doubtful)
}

/// The rows that aren't the first of their bucket, and differ from it: where they are different, all rows are. Nothing where a row
/// equals the first of its bucket.
fn doubtful(alloc: Global, rows: &Rows) -> Result<Option<Rows>, NoMemory>
    requires { length rows.now.rows ≤ 4294967295 }
    ensures { IfOk result (λ doubtful. IfSome doubtful (λ d. AreDifferent d.rows → AreDifferent rows.now.rows)) }
{
    let mut owners = vec![in alloc; 0u32; rows.len() * BUCKETS]?;
    let mut doubtful = Rows::new(alloc, rows.arity());
    for place in 0..rows.len() {
        let row = rows.row(place);
        let bucket = bucket_of(hash_row(row), owners.len());
        let owner = owners[bucket] as usize;
        if owner == 0 {
            owners[bucket] = place as u32 + 1;
            continue;
        }
        if is_same(rows.row(owner - 1), row) {
            return Ok(None);
        }
        doubtful.push(row)?;
    }
    Ok(Some(doubtful))
}

/// Whether the rows are different, each looked up among those before it.
fn chained_are_different(alloc: Global, rows: Rows) -> Result<bool, NoMemory>
    ensures { IfOk result (λ d. IsTrue d → AreDifferent rows.rows) }
{
    let arity = rows.arity();
    let mut columns = Vec::with_capacity(alloc, arity)?;
    for column in 0..arity {
        columns.push(column as u64)?;
    }
    let mut chains = Chains::over(alloc, columns, rows)?;
    let different = chains.are_different()?;
    Ok(different)
}

/// Whether the rows are different, each compared with each.
fn few_are_different(rows: &Rows) -> bool
    ensures { IsTrue result → AreDifferent rows.now.rows }
{
    for place in 0..rows.len() {
        if stands_before(rows, place) {
            return false;
        }
    }
    true
}

/// Whether a row before that one is equal to it.
fn stands_before(rows: &Rows, place: usize) -> bool
    requires { place < length rows.now.rows }
    ensures { result ≡ any_below (λ k. same (slice_index_or rows.now.rows k []) (slice_index_or rows.now.rows place [])) place }
{
    let row = rows.row(place);
    let mut newer = place;
    while newer > 0 {
        newer -= 1;
        if is_same(rows.row(newer), row) {
            return true;
        }
    }
    false
}
