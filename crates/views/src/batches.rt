//! Batches in a list of changes, each with an end marker.

ghost use Rattle.std.specs.Prelude.{◌≡◌, ◌+◌, ◌<◌, ◌≤◌, ◌++◌, ℕ, false, drop, length, map, slice_index_or, vec_capacity, vec_len};
ghost use Rattle.machine.specs.Active.{one_if_same};
ghost use Rattle.views.specs.Queued.{EndsFrom, IsOneOf, IsTaken, adds_in, as_changes, batches_of, removes_in};
ghost use Rattle.views.specs.declared.queue.Change.TheVariants.{Add, Remove};

use crate::queue::Change;
use path_summary::Pointstamp;

/// Appends a batch.
pub fn push_batch(changes: &mut Vec<Change>, added: &[Pointstamp], removed: &[Pointstamp])
    requires { vec_len changes.old + (length added.now + length removed.now + 1) ≤ vec_capacity changes.old }
    ensures items { changes.new.items ≡ changes.old.items ++ as_changes added.now removed.now }
    ensures len { vec_len changes.new ≡ vec_len changes.old + (length added.now + length removed.now + 1) }
    ensures capacity { vec_capacity changes.new ≡ vec_capacity changes.old }
{
    push_added(changes, added);
    push_removed(changes, removed);
    changes.push_reserved(Change::End);
}

/// Appends additions.
fn push_added(changes: &mut Vec<Change>, added: &[Pointstamp])
    requires { vec_len changes.old + length added.now ≤ vec_capacity changes.old }
    ensures items { changes.new.items ≡ changes.old.items ++ map Add added.now }
    ensures len { vec_len changes.new ≡ vec_len changes.old + length added.now }
    ensures capacity { vec_capacity changes.new ≡ vec_capacity changes.old }
{
    for i in 0..added.len() {
        changes.push_reserved(Change::Add(added[i].copied()));
    }
}

/// Appends removals.
fn push_removed(changes: &mut Vec<Change>, removed: &[Pointstamp])
    requires { vec_len changes.old + length removed.now ≤ vec_capacity changes.old }
    ensures items { changes.new.items ≡ changes.old.items ++ map Remove removed.now }
    ensures len { vec_len changes.new ≡ vec_len changes.old + length removed.now }
    ensures capacity { vec_capacity changes.new ≡ vec_capacity changes.old }
{
    for i in 0..removed.len() {
        changes.push_reserved(Change::Remove(removed[i].copied()));
    }
}

/// The place where the batch that begins at `from` ends, and the next one begins.
pub fn end_of_batch(changes: &[Change], from: usize) -> usize
    requires some { from < length changes.now }
    requires ends { EndsFrom false (drop from changes.now) }
    ensures taken { IsTaken (drop from changes.now) (drop result changes.now) }
    ensures within { result ≤ length changes.now }
    ensures ends { EndsFrom false (drop result changes.now) }
{
    for i in from..changes.len() {
        match &changes[i] {
            Change::Add(_) => {}
            Change::Remove(_) => {}
            Change::End => return i + 1,
        }
    }
    changes.len()
}

/// The number of changes that every worker has applied.
pub fn least(taken: &[usize], all: usize) -> usize
    ensures all { result ≤ all }
    ensures each { (w : ℕ) → w < length taken.now → result ≤ slice_index_or taken.now w all }
    ensures some { IsOneOf taken.now all result }
{
    let mut least = all;
    for i in 0..taken.len() {
        least = least.min(taken[i]);
    }
    least
}

/// Drops the first `count` changes.
pub fn forget(changes: &mut Vec<Change>, count: usize)
    requires { count ≤ vec_len changes.old }
    ensures items { changes.new.items ≡ drop count changes.old.items }
    ensures len { vec_len changes.new + count ≡ vec_len changes.old }
    ensures capacity { vec_capacity changes.new ≡ vec_capacity changes.old }
{
    let kept = changes.len() - count;
    changes.rotate_left(count);
    changes.truncate(kept);
}

/// Lowers each place by `by`.
pub fn lower(taken: &mut Vec<usize>, by: usize)
    requires { (w : ℕ) → w < length taken.old.items → by ≤ slice_index_or taken.old.items w by }
    ensures long { length taken.new.items ≡ length taken.old.items }
    ensures each { (w d : ℕ) → w < length taken.old.items → slice_index_or taken.new.items w d + by ≡ slice_index_or taken.old.items w d }
{
    for i in 0..taken.len() {
        taken[i] -= by;
    }
}

/// The number of batches that end among these changes.
pub fn ends(changes: &[Change]) -> usize
    ensures { (s : ℕ) → result ≡ length (batches_of s changes.now) }
{
    let mut count = 0;
    for i in 0..changes.len() {
        match &changes[i] {
            Change::Add(_) => {}
            Change::Remove(_) => {}
            Change::End => count += 1,
        }
    }
    count
}

/// How often changes add a pointstamp, and how often they remove it.
pub fn times(changes: &[Change], p: &Pointstamp) -> (usize, usize)
    ensures adds { result.0 ≡ adds_in changes.now p.now }
    ensures removes { result.1 ≡ removes_in changes.now p.now }
{
    let mut adds = 0;
    let mut removes = 0;
    for i in 0..changes.len() {
        match &changes[i] {
            Change::Add(q) => adds += one_if_same(p, q),
            Change::Remove(q) => removes += one_if_same(p, q),
            Change::End => {}
        }
    }
    (adds, removes)
}

/// 1 if the two are equal, and otherwise 0.
fn one_if_same(p: &Pointstamp, q: &Pointstamp) -> usize
    ensures { result ≡ one_if_same p.now q.now }
{
    if p.same(q) { 1 } else { 0 }
}
