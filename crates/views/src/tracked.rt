//! Applies changes to a tracker.

ghost use Rattle.std.specs.Prelude.{◌≡◌, ◌+◌, ◌<◌, ◌≤◌, length};
ghost use Rattle.semantics.specs.Could.{IsTimeAt, Pointstamp as Active};
ghost use Rattle.progress.specs.Content.{times_in};

use path_summary::Pointstamp;
use progress::Progress;

/// Adds one occurrence of each.
#[inline(always)]
pub fn add_all<P: Progress>(tracker: &mut P, added: &[Pointstamp])
    requires room { length added.now ≤ P.room tracker.old }
    requires known { (q : Active) → 0 < times_in added.now q → IsTimeAt (P.graph tracker.old) q.location q.time }
    ensures graph { P.graph tracker.new ≡ P.graph tracker.old }
    ensures content { (q : Active) → P.content tracker.new q ≡ times_in added.now q + P.content tracker.old q }
    ensures room { P.room tracker.old ≤ P.room tracker.new + length added.now }
{
    for i in 0..added.len() {
        tracker.add(&added[i]);
    }
}

/// Removes one occurrence of each.
#[inline(always)]
pub fn remove_all<P: Progress>(tracker: &mut P, removed: &[Pointstamp])
    requires there { (q : Active) → times_in removed.now q ≤ P.content tracker.old q }
    ensures graph { P.graph tracker.new ≡ P.graph tracker.old }
    ensures content { (q : Active) → P.content tracker.old q ≡ times_in removed.now q + P.content tracker.new q }
    ensures room { P.room tracker.old ≤ P.room tracker.new }
{
    for i in 0..removed.len() {
        tracker.remove(&removed[i]);
    }
}
