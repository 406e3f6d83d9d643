//! The active times of one location, with counts, in a search tree. The top of each subtree has the least counters of all its times. A subtree
//! divides the others by epoch and counters, so that the next epochs are soon in different parts. A fork with an empty side is removed together with
//! its entry. So the tree is at most about 90 deep, except for times of one key, and a question follows one path down.

ghost use Rattle.std.specs.Prelude.{◌≡◌, ◌≤◌, ◌<◌, ◌+◌, ◌^◌, ◌↔◌, [], ℕ, Some, None, true, false, IsTrue, IfSome, IfNone, length};
ghost use Rattle.progress.specs.TimeCounts.{Adds, IsAsked, IsFirst, IsLeast, IsNone, IsNoneAsked, count, counted_time, top, with_times};
ghost use Rattle.progress.specs.NodeCounts.{IsNode, node_counts};
ghost use Rattle.progress.specs.Kept.{HasSome};
ghost use Rattle.progress.specs.Sifting.{IsSifted, Leads, entry_of};
ghost use Rattle.progress.specs.Times.{key_of, mixed_from};

use loop_context::Time;
use std::marker::Model;
use std::mem;

/// A time, and how often it is active.
#[derive(Drop)]
pub struct Entry {
    pub time: Time,
    pub count: u32,
}

/// Room for one more entry.
#[derive(Drop)]
pub struct Room {
    pub left: Box<Tree>,
    pub right: Box<Tree>,
}

/// Keys from `low` up to `high`, and the greatest distance, one less than a power of 2, at which keys count as near each other.
#[derive(Clone, Copy)]
pub struct Range {
    low: u64,
    high: u64,
    near: u64,
}

impl Range {
    /// All keys. Those of 256 epochs count as near each other.
    pub const WHOLE: Range = Range {
        low: 0,
        high: u64::MAX,
        near: 0xff_ffff_ffff,
    };

    #[inline(always)]
    fn is_wide(&self) -> bool {
        self.near < self.high.saturating_sub(self.low)
    }

    #[inline(always)]
    fn middle(&self) -> u64 {
        self.low
            .saturating_add(self.high.saturating_sub(self.low) / 2)
    }

    /// The key at which a new fork divides the range. A wide range is divided at an end of the keys near this one, since the next keys most likely
    /// fall there; any other in the middle.
    #[inline(always)]
    fn split(&self, key: u64) -> u64 {
        let end = (key | self.near).saturating_add(1);
        let start = key & !self.near;
        if !self.is_wide() {
            self.middle()
        } else if end < self.high {
            end
        } else if self.low < start {
            start
        } else {
            self.middle()
        }
    }

    /// The near distance for a part of the range: twice as great for a wide range, so that few wide ranges are nested.
    #[inline(always)]
    fn near_below(&self) -> u64 {
        if self.is_wide() {
            self.near.saturating_mul(2) | 1
        } else {
            self.near
        }
    }

    #[inline(always)]
    fn lower(&self, split: u64) -> Range {
        Range {
            low: self.low,
            high: split,
            near: self.near_below(),
        }
    }

    #[inline(always)]
    fn upper(&self, split: u64) -> Range {
        Range {
            low: split,
            high: self.high,
            near: self.near_below(),
        }
    }
}

/// Active times with counts.
#[cycle(tree)]
#[derive(Drop)]
pub struct Tree {
    node: Node,
}

/// A fork has an entry, and the number that separates the keys on its left from those on its right.
#[cycle(tree)]
#[derive(Drop)]
enum Node {
    Leaf,
    Fork(Box<Tree>, Entry, u64, Box<Tree>),
}

impl Model for Tree {
    ghost use Rattle.progress.specs.TimeCounts.{TimeCounts};

    ghost Value = { TimeCounts };

    ghost use Rattle.progress.specs.NodeCounts.{IsNode, node_counts};

    ghost view = { λ t. node_counts t.node };

    ghost invariant = { λ t. IsNode t.node };

    ghost use Rattle.std.specs.Prelude.{length};

    ghost size = { length };

    ghost use Rattle.progress.specs.ForkSizes.{deep_entries};

    ghost size_decreases = { λ t h. deep_entries t.node };
}

impl Tree {
    /// An empty tree.
    pub fn new() -> Tree
        ensures { result ≡ [] }
    {
        Tree { node: Node::Leaf }
    }

    /// The time with the least counters.
    #[inline(always)]
    fn top(&self) -> Option<&Time>
        ensures none { IfNone result (IsNone self.now × (top self.now ≡ None)) }
        ensures top { IfSome result (λ t. (n : ℕ) × (top self.now ≡ Some (counted_time t.now n))) }
        ensures there { IfSome result (λ t. 0 < count self.now t.now) }
        ensures first { IfSome result (λ t. IsFirst t.now self.now) }
    {
        match &self.node {
            Node::Leaf => None,
            Node::Fork(_, here, _, _) => Some(&here.time),
        }
    }

    /// Whether the tree has no time.
    #[inline(always)]
    pub fn is_empty(&self) -> bool
        ensures empty { result ≡ true → IsNone self.now }
        ensures some { result ≡ false → HasSome self.now }
    {
        match self.top() {
            None => true,
            Some(_) => false,
        }
    }

    /// Adds an entry. Uses a room only if the tree has no entry of its time whose count could be raised.
    pub fn add(&mut self, entry: Entry, range: Range, rooms: &mut Vec<Room>)
        requires some { 0 < entry.count }
        requires room { 0 < length rooms.old.items }
        ensures adds { Adds self.old self.new entry.time entry.count }
        ensures room { length rooms.old.items ≤ length rooms.new.items + 1 }
    {
        match &mut self.node {
            Node::Leaf => {
                let split = range.split(key(&entry.time));
                if let Some(room) = rooms.pop() {
                    self.node = single(room, entry, split);
                }
            }
            Node::Fork(left, here, split, right) => {
                if here.time == entry.time
                    && let Some(count) = here.count.checked_add(entry.count)
                {
                    here.count = count;
                    return;
                }
                let lower = sift(here, entry);
                if key(&lower.time) < *split {
                    left.add(lower, range.lower(*split), rooms);
                } else {
                    right.add(lower, range.upper(*split), rooms);
                }
            }
        }
    }

    /// Removes the top of a fork with an empty side: the other side moves up. Otherwise nothing changes.
    fn lift(&mut self, rooms: &mut Vec<Room>) -> Option<Entry>
        ensures none { IfNone result (self.new ≡ self.old) }
        ensures top { IfSome result (λ e. top self.old ≡ Some (counted_time e.time e.count)) }
        ensures taken { IfSome result (λ e. Adds self.new self.old e.time e.count) }
        ensures first { IfSome result (λ e. IsFirst e.time self.old) }
        ensures some { IfSome result (λ e. 0 < e.count) }
        ensures room { length rooms.old.items ≤ length rooms.new.items }
    {
        if !self.is_one_sided() {
            return None;
        }
        match mem::replace(&mut self.node, Node::Leaf) {
            Node::Leaf => None,
            Node::Fork(mut left, here, split, mut right) => {
                if left.is_empty() {
                    self.node = mem::replace(&mut right.node, Node::Leaf);
                    keep(rooms, left, right);
                    Some(here)
                } else if right.is_empty() {
                    self.node = mem::replace(&mut left.node, Node::Leaf);
                    keep(rooms, left, right);
                    Some(here)
                } else {
                    self.node = Node::Fork(left, here, split, right);
                    None
                }
            }
        }
    }

    /// Removes all entries.
    fn clear(&mut self, rooms: &mut Vec<Room>)
        ensures none { self.new ≡ [] }
        ensures room { length rooms.old.items ≤ length rooms.new.items }
    {
        match mem::replace(&mut self.node, Node::Leaf) {
            Node::Leaf => {}
            Node::Fork(left, _, _, right) => keep(rooms, left, right),
        }
    }

    /// Whether this is a fork with an empty side.
    #[inline(always)]
    fn is_one_sided(&self) -> bool {
        match &self.node {
            Node::Leaf => false,
            Node::Fork(left, _, _, right) => left.is_empty() || right.is_empty(),
        }
    }

    /// Removes the entry with the least counters, and gives it.
    pub fn pull(&mut self, rooms: &mut Vec<Room>) -> Option<Entry>
        ensures none { IfNone result (IsNone self.old × (top self.old ≡ None)) }
        ensures still { IfNone result (IsNone self.new) }
        ensures top { IfSome result (λ e. top self.old ≡ Some (counted_time e.time e.count)) }
        ensures taken { IfSome result (λ e. Adds self.new self.old e.time e.count) }
        ensures first { IfSome result (λ e. IsFirst e.time self.old) }
        ensures some { IfSome result (λ e. 0 < e.count) }
        ensures room { length rooms.old.items ≤ length rooms.new.items }
    {
        if let Some(entry) = self.lift(rooms) {
            return Some(entry);
        }
        match &mut self.node {
            Node::Leaf => None,
            Node::Fork(left, here, _, right) => {
                if leads(left, right) {
                    match left.pull(rooms) {
                        Some(next) => Some(mem::replace(here, next)),
                        None => entry_of(mem::replace(&mut self.node, Node::Leaf)),
                    }
                } else {
                    match right.pull(rooms) {
                        Some(next) => Some(mem::replace(here, next)),
                        None => entry_of(mem::replace(&mut self.node, Node::Leaf)),
                    }
                }
            }
        }
    }

    /// Removes one occurrence of a time.
    pub fn remove(&mut self, time: &Time, rooms: &mut Vec<Room>)
        requires { 0 < count self.old time.now }
        ensures removed { Adds self.new self.old time.now 1 }
        ensures room { length rooms.old.items ≤ length rooms.new.items }
    {
        match &mut self.node {
            Node::Leaf => {}
            Node::Fork(left, here, split, right) => {
                if here.time == *time {
                    if here.count > 1 {
                        here.count -= 1;
                    } else if are_empty(left, right) {
                        self.clear(rooms);
                    } else {
                        let _ = self.pull(rooms);
                    }
                } else if key(time) < *split {
                    left.remove(time, rooms);
                } else {
                    right.remove(time, rooms);
                }
            }
        }
    }

    /// A time with the least counters, among those in no later epoch than `until` and, if `other`, different from it.
    pub fn least(&self, until: &Time, other: bool) -> Option<&Time>
        ensures none { IfNone result (IsNoneAsked self.now until.now other) }
        ensures some { IfSome result (λ t. IsLeast self.now until.now other t.now) }
    {
        match &self.node {
            Node::Leaf => None,
            Node::Fork(left, here, split, right) => {
                if is_asked(&here.time, until, other) {
                    return Some(&here.time);
                }
                let near = left.least(until, other);
                if *split / 4294967296 > until.epoch() as u64 {
                    return near;
                }
                let far = right.least(until, other);
                match near {
                    None => far,
                    Some(on_left) => match far {
                        None => Some(on_left),
                        Some(on_right) => {
                            if on_left.counters_leq(on_right) {
                                Some(on_left)
                            } else {
                                Some(on_right)
                            }
                        }
                    },
                }
            }
        }
    }
}

/// Keeps the room of a removed fork for reuse, if that takes no memory.
#[inline(always)]
fn keep(rooms: &mut Vec<Room>, left: Box<Tree>, right: Box<Tree>)
    ensures { length rooms.old.items ≤ length rooms.new.items }
{
    if rooms.len() < rooms.capacity() {
        rooms.push_reserved(Room { left, right });
    }
}

/// A fork of one entry.
#[inline(always)]
fn single(room: Room, entry: Entry, split: u64) -> Node
    requires { 0 < entry.count }
    ensures node { IsNode result }
    ensures times { node_counts result ≡ with_times [] entry.time entry.count [] }
{
    let Room {
        mut left,
        mut right,
    } = room;
    *left = Tree::new();
    *right = Tree::new();
    Node::Fork(left, entry, split, right)
}

/// The entry of a fork.
fn entry_of(node: Node) -> Option<Entry>
    ensures { result ≡ entry_of node }
{
    match node {
        Node::Leaf => None,
        Node::Fork(_left, here, _, _right) => Some(here),
    }
}

/// Keeps the entry with the lesser counters here, and gives the other.
#[inline(always)]
fn sift(here: &mut Entry, entry: Entry) -> Entry
    ensures { IsSifted here.old entry here.new result }
{
    if here.time.counters_leq(&entry.time) {
        entry
    } else {
        mem::replace(here, entry)
    }
}

/// Whether both trees are empty.
#[inline(always)]
fn are_empty(left: &Tree, right: &Tree) -> bool
    ensures { result ≡ true → IsNone left.now × IsNone right.now }
{
    left.is_empty() && right.is_empty()
}

/// Whether the entry to move up next is on the left.
fn leads(left: &Tree, right: &Tree) -> bool
    ensures left { result ≡ true → Leads left.now right.now }
    ensures right { result ≡ false → Leads right.now left.now }
{
    match left.top() {
        None => false,
        Some(on_left) => match right.top() {
            None => true,
            Some(on_right) => on_left.counters_leq(on_right),
        },
    }
}

/// Whether a time is in no later epoch than `until` and, if `other`, different from it.
#[inline(always)]
fn is_asked(time: &Time, until: &Time, other: bool) -> bool
    ensures { IsTrue result ↔ IsAsked until.now other time.now }
{
    time.epoch() <= until.epoch() && !(other && time == until)
}

/// The number by which times are distributed over the tree: the epoch, then the mixed counters.
#[inline(always)]
fn key(time: &Time) -> u64
    ensures { result ≡ key_of time.now }
{
    (time.epoch() as u64) * 4294967296 + mixed(0, time.counters())
}

/// The counters mixed into a number below 2^32.
fn mixed(from: u64, counters: &[u32]) -> u64
    requires { from < 2 ^ 32 }
    ensures value { result ≡ mixed_from from counters.now }
    ensures small { result < 2 ^ 32 }
{
    match counters {
        [] => from,
        [counter, rest @ ..] => mixed((from * 31 + *counter as u64) % 4294967296, rest),
    }
}
