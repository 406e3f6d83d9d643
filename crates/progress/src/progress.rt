//! The trait of all trackers of progress.

ghost use Rattle.std.specs.Prelude.{◌≡◌, ◌+◌, ◌<◌, ◌≤◌, ◌↔◌, ℕ, IsTrue, OnOk};
ghost use Rattle.semantics.specs.Graph.{Graph as Definition};
ghost use Rattle.semantics.specs.Could.{CouldResultIn, IsTimeAt, NoOtherOf, NoneOf, Pointstamp as Active};
ghost use Rattle.machine.specs.Active.{one_if_same};

use path_summary::Pointstamp;
use record_core::NoMemory;

/// A multiset of active pointstamps of a graph, and room for more. Only `reserve` takes memory.
pub trait Progress: Drop {
    ghost graph: { Self → Definition };

    ghost content: { Self → Active → ℕ };

    ghost room: { Self → ℕ };

    /// Makes room for `count` more. After a refusal the active pointstamps are unchanged, and the room hasn't shrunk.
    fn reserve(&mut self, count: u32) -> Result<(), NoMemory>
        ensures content { content self.new ≡ content self.old }
        ensures graph { graph self.new ≡ graph self.old }
        ensures kept { room self.old ≤ room self.new }
        ensures room { OnOk result (count ≤ room self.new) };

    /// The number of additions that there is room for.
    fn spare(&self) -> u32
        ensures { result ≡ room self.now };

    /// Adds one occurrence of `p`.
    fn add(&mut self, p: &Pointstamp)
        requires room { 0 < room self.old }
        requires known { IsTimeAt (graph self.old) p.now.location p.now.time }
        ensures content { (q : Active) → content self.new q ≡ one_if_same q p.now + content self.old q }
        ensures graph { graph self.new ≡ graph self.old }
        ensures room { room self.old ≤ room self.new + 1 };

    /// Removes one occurrence of `p`.
    fn remove(&mut self, p: &Pointstamp)
        requires { 0 < content self.old p.now }
        ensures content { (q : Active) → content self.old q ≡ one_if_same q p.now + content self.new q }
        ensures graph { graph self.new ≡ graph self.old }
        ensures room { room self.old ≤ room self.new };

    /// Whether no active pointstamp other than `p` could result in `p`.
    fn in_frontier(&self, p: &Pointstamp) -> bool
        requires { IsTimeAt (graph self.now) p.now.location p.now.time }
        ensures { IsTrue result ↔ NoOtherOf (CouldResultIn (graph self.now)) (λ q. 0 < content self.now q) p.now };

    /// Whether no active pointstamp, `p` included, could result in `p`.
    fn none_before(&self, p: &Pointstamp) -> bool
        requires { IsTimeAt (graph self.now) p.now.location p.now.time }
        ensures { IsTrue result ↔ NoneOf (CouldResultIn (graph self.now)) (λ q. 0 < content self.now q) p.now };
}
