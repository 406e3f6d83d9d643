//! Pointstamps with their occurrence and precursor counts, kept up to date.

ghost use Rattle.std.specs.Prelude.{◌≡◌, ◌<◌, ◌↔◌, ◌^◌, ◌-◌, ℕ, IsTrue, IfSome, IfNone, Some, true, false, length, slice_get, vec_capacity, vec_len};
ghost use Rattle.graph.specs.Shown.{shown_graph};
ghost use Rattle.semantics.specs.Graph.{Graph as Definition};
ghost use Rattle.semantics.specs.Could.{IsTimeAt, Pointstamp as Active};
ghost use Rattle.progress.specs.Content.{IsBlocked, IsClear};
ghost use Rattle.simple_trackers.specs.Counts.{AllCountPrecursor, AllHavePrecursor, AreExact, AreKnown, CountsPrecursor, IsPrecursor};
ghost use Rattle.simple_trackers.specs.Counts.{IsPrecursorCount, OccursOnceMore, all_occurrences, occurrences_in, pointstamps};
ghost use Rattle.simple_trackers.specs.declared.counted.Counted.{Counted as Declared};

use path_summary::{Paths, Pointstamp};

/// An active pointstamp, how often it is active, and how many other active pointstamps could result in it.
#[derive(Drop)]
pub struct Counted {
    pub pointstamp: Pointstamp,
    pub occurrences: usize,
    pub precursors: usize,
}

/// The place of a pointstamp in the list.
pub fn place_of(active: &[Counted], p: &Pointstamp) -> Option<usize>
    ensures some { IfSome result (λ i. slice_get (pointstamps active.now) i ≡ Some p.now) }
    ensures none { IfNone result (occurrences_in active.now p.now ≡ 0) }
{
    for i in 0..active.len() {
        if active[i].pointstamp.same(p) {
            return Some(i);
        }
    }
    None
}

/// Whether none of these, `p` included, could result in `p`.
pub fn is_clear(paths: &Paths, active: &[Counted], p: &Pointstamp) -> bool
    requires known { IsTimeAt (shown_graph paths.now) p.now.location p.now.time }
    requires exact { AreExact (shown_graph paths.now) active.now }
    ensures clear { result ≡ true → IsClear (shown_graph paths.now) (occurrences_in active.now) p.now false }
    ensures blocked { result ≡ false → IsBlocked (shown_graph paths.now) (occurrences_in active.now) p.now false }
{
    for i in 0..active.len() {
        if paths.could(&active[i].pointstamp, p) {
            return false;
        }
    }
    true
}

/// Adds one occurrence of `p`.
pub fn put(paths: &Paths, active: &mut Vec<Counted>, p: &Pointstamp)
    requires known { IsTimeAt (shown_graph paths.now) p.now.location p.now.time }
    requires exact { AreExact (shown_graph paths.now) active.old.items }
    requires room { all_occurrences active.old.items < vec_capacity active.old }
    ensures exact { AreExact (shown_graph paths.now) active.new.items }
    ensures occurs { OccursOnceMore p.now active.old.items active.new.items }
    ensures capacity { vec_capacity active.new ≡ vec_capacity active.old }
{
    match place_of(active, p) {
        Some(place) => occur_again(active, place),
        None => enter(paths, active, p),
    }
}

/// Removes one occurrence of `p`.
pub fn take(paths: &Paths, active: &mut Vec<Counted>, p: &Pointstamp)
    requires exact { AreExact (shown_graph paths.now) active.old.items }
    requires there { 0 < occurrences_in active.old.items p.now }
    ensures exact { AreExact (shown_graph paths.now) active.new.items }
    ensures occurs { OccursOnceMore p.now active.new.items active.old.items }
    ensures capacity { vec_capacity active.new ≡ vec_capacity active.old }
{
    if let Some(place) = place_of(active, p) {
        if active[place].occurrences > 1 {
            occur_less(active, place);
        } else {
            leave(paths, active, p, place);
        }
    }
}

/// Adds one occurrence of the pointstamp at that place.
fn occur_again(active: &mut Vec<Counted>, place: usize)
    requires there { place < length active.old.items }
    requires room { all_occurrences active.old.items < 2 ^ 64 - 1 }
    ensures exact { (g : Definition) → AreExact g active.old.items → AreExact g active.new.items }
    ensures occurs { (p : Active) → slice_get (pointstamps active.old.items) place ≡ Some p → OccursOnceMore p active.old.items active.new.items }
    ensures capacity { vec_capacity active.new ≡ vec_capacity active.old }
{
    let counted = &mut active[place];
    counted.occurrences += 1;
}

/// Removes one occurrence of the pointstamp at that place, which has more.
fn occur_less(active: &mut Vec<Counted>, place: usize)
    requires there { place < length active.old.items }
    requires again { (c : Declared) → slice_get active.old.items place ≡ Some c → 1 < c.occurrences }
    ensures exact { (g : Definition) → AreExact g active.old.items → AreExact g active.new.items }
    ensures occurs { (p : Active) → slice_get (pointstamps active.old.items) place ≡ Some p → OccursOnceMore p active.new.items active.old.items }
    ensures capacity { vec_capacity active.new ≡ vec_capacity active.old }
{
    let counted = &mut active[place];
    counted.occurrences -= 1;
}

/// Adds the first occurrence of `p`.
fn enter(paths: &Paths, active: &mut Vec<Counted>, p: &Pointstamp)
    requires known { IsTimeAt (shown_graph paths.now) p.now.location p.now.time }
    requires exact { AreExact (shown_graph paths.now) active.old.items }
    requires fresh { occurrences_in active.old.items p.now ≡ 0 }
    requires room { vec_len active.old < vec_capacity active.old }
    ensures exact { AreExact (shown_graph paths.now) active.new.items }
    ensures occurs { OccursOnceMore p.now active.old.items active.new.items }
    ensures capacity { vec_capacity active.new ≡ vec_capacity active.old }
{
    let precursors = precursor_count(paths, active, p);
    add_precursor(paths, active, p);
    active.push_reserved(Counted {
        pointstamp: p.copied(),
        occurrences: 1,
        precursors,
    });
}

/// Removes the only occurrence of `p`, which is at that place.
fn leave(paths: &Paths, active: &mut Vec<Counted>, p: &Pointstamp, place: usize)
    requires exact { AreExact (shown_graph paths.now) active.old.items }
    requires there { slice_get (pointstamps active.old.items) place ≡ Some p.now }
    requires once { (c : Declared) → slice_get active.old.items place ≡ Some c → c.occurrences ≡ 1 }
    ensures exact { AreExact (shown_graph paths.now) active.new.items }
    ensures occurs { OccursOnceMore p.now active.new.items active.old.items }
    ensures capacity { vec_capacity active.new ≡ vec_capacity active.old }
{
    let _ = active.remove(place);
    remove_precursor(paths, active, p);
}

/// The number of these that are precursors of `p`.
fn precursor_count(paths: &Paths, active: &[Counted], p: &Pointstamp) -> usize
    requires known { IsTimeAt (shown_graph paths.now) p.now.location p.now.time }
    requires all { AreKnown (shown_graph paths.now) active.now }
    ensures { IsPrecursorCount (shown_graph paths.now) (pointstamps active.now) p.now result }
{
    let mut count = 0;
    for i in 0..active.len() {
        if is_precursor(paths, &active[i].pointstamp, p) {
            count += 1;
        }
    }
    count
}

/// Adds one to the precursor count of each pointstamp of which `p` is a precursor.
fn add_precursor(paths: &Paths, active: &mut Vec<Counted>, p: &Pointstamp)
    requires known { IsTimeAt (shown_graph paths.now) p.now.location p.now.time }
    requires all { AreKnown (shown_graph paths.now) active.old.items }
    requires room { (i : ℕ) (c : Declared) → slice_get active.old.items i ≡ Some c → c.precursors < 2 ^ 64 - 1 }
    ensures counted { AllCountPrecursor (shown_graph paths.now) p.now active.old.items active.new.items }
    ensures len { vec_len active.new ≡ vec_len active.old }
    ensures capacity { vec_capacity active.new ≡ vec_capacity active.old }
{
    for i in 0..active.len() {
        let counted = &mut active[i];
        count_precursor(paths, counted, p);
    }
}

/// Subtracts one from the precursor count of each pointstamp of which `p` is a precursor.
fn remove_precursor(paths: &Paths, active: &mut Vec<Counted>, p: &Pointstamp)
    requires known { IsTimeAt (shown_graph paths.now) p.now.location p.now.time }
    requires all { AreKnown (shown_graph paths.now) active.old.items }
    requires counted { AllHavePrecursor (shown_graph paths.now) p.now active.old.items }
    ensures counted { AllCountPrecursor (shown_graph paths.now) p.now active.new.items active.old.items }
    ensures capacity { vec_capacity active.new ≡ vec_capacity active.old }
{
    for i in 0..active.len() {
        let counted = &mut active[i];
        discount_precursor(paths, counted, p);
    }
}

/// Adds one to the precursor count, if `p` is a precursor.
fn count_precursor(paths: &Paths, counted: &mut Counted, p: &Pointstamp)
    requires from { IsTimeAt (shown_graph paths.now) p.now.location p.now.time }
    requires to { IsTimeAt (shown_graph paths.now) counted.old.pointstamp.location counted.old.pointstamp.time }
    requires room { counted.old.precursors < 2 ^ 64 - 1 }
    ensures { CountsPrecursor (shown_graph paths.now) p.now counted.old counted.new }
{
    if is_precursor(paths, p, &counted.pointstamp) {
        counted.precursors += 1;
    }
}

/// Subtracts one from the precursor count, if `p` is a precursor.
fn discount_precursor(paths: &Paths, counted: &mut Counted, p: &Pointstamp)
    requires from { IsTimeAt (shown_graph paths.now) p.now.location p.now.time }
    requires to { IsTimeAt (shown_graph paths.now) counted.old.pointstamp.location counted.old.pointstamp.time }
    requires counted { IsPrecursor (shown_graph paths.now) p.now counted.old.pointstamp → 0 < counted.old.precursors }
    ensures { CountsPrecursor (shown_graph paths.now) p.now counted.new counted.old }
{
    if is_precursor(paths, p, &counted.pointstamp) {
        counted.precursors -= 1;
    }
}

/// Whether `q` is a precursor of `p`.
fn is_precursor(paths: &Paths, q: &Pointstamp, p: &Pointstamp) -> bool
    requires from { IsTimeAt (shown_graph paths.now) q.now.location q.now.time }
    requires to { IsTimeAt (shown_graph paths.now) p.now.location p.now.time }
    ensures { IsTrue result ↔ IsPrecursor (shown_graph paths.now) q.now p.now }
{
    !q.same(p) && paths.could(q, p)
}
