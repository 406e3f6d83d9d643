//! A tracker by location, which checks one time of each.

ghost use Rattle.std.specs.Prelude.{◌≡◌, ◌+◌, ◌<◌, ◌≤◌, ◌↔◌, ℕ, [], IsTrue, IfOk, IfSome, IfNone, OnOk, Some};
ghost use Rattle.std.specs.Prelude.{None, true, false, length, map, slice_get, slice_index_or, vec_capacity, vec_len};
ghost use Rattle.graph.specs.Locations.{location_of};
ghost use Rattle.graph.specs.Shown.{shown_graph};
ghost use Rattle.semantics.specs.Time.{Time as Instant};
ghost use Rattle.semantics.specs.Graph.{edge_count};
ghost use Rattle.semantics.specs.Could.{IsTimeAt, Location as Place, Pointstamp as Active};
ghost use Rattle.progress.specs.TimeCounts.{Adds, IsNone, count};
ghost use Rattle.progress.specs.Content.{AllAt, IsBlocked, IsClear, bag_at, times_at};
ghost use Rattle.progress.specs.Kept.{AddsOne, Among, HasSome, IsBlockedAt, IsChangedAt, IsClearAt, IsIn, IsKept};

use crate::progress::Progress;
use crate::tree::{Entry, Range, Room, Tree};
use loop_context::Time;
use path_summary::{Location, Paths, Pointstamp, same_location};
use record_core::NoMemory;
use std::alloc::Global;
use std::marker::Model;
use std::sync::Arc;

/// The most rooms of removed forks that are kept for reuse.
const ROOMS: usize = 512;

/// A tracker that keeps the active times of each location in order. A question checks one time at each location where something is active: one with
/// the least counters among those in no later epoch.
#[derive(Drop)]
pub struct LocationTracker {
    alloc: Global,
    paths: Arc<Paths, Global>,
    edges: Vec<Tree>,
    vertices: Vec<Tree>,
    listed: Vec<Location>,
    rooms: Vec<Room>,
    spare: u32,
}

impl Model for LocationTracker {
    ghost use Rattle.expr_tree.specs.contracts.scalar.Scalar as scalar;
    ghost use Rattle.expr_tree.specs.contracts.condition.Cond as condition;
    ghost use Rattle.std.specs.Coded.{codes};
    ghost use Rattle.std.specs.Prelude.{◌+◌, ◌≤◌, length, map, vec_capacity, vec_len};
    ghost use Rattle.std.specs.contracts.alloc.Global as heap;
    ghost use Rattle.std.specs.contracts.impls.GlobalAllocator.TheImpl as allocates;
    ghost use Rattle.graph.specs.Locations.{location_of};
    ghost use Rattle.graph.specs.Shown.{shown_graph};
    ghost use Rattle.progress.specs.Kept.{IsKept};
    ghost use Rattle.progress.specs.Shown.{Located};

    ghost Value = { Located };

    ghost coded = { Prim.hlevel (codes, (scalar.the_row heap.the_row allocates.ghosts).coded, (condition.the_row heap.the_row allocates.ghosts).coded) };

    ghost view = { λ t. record { graph = t.paths.value; edges = t.edges.items; vertices = t.vertices.items; spare = t.spare } };

    ghost invariant = { λ t. (t.spare ≤ length t.rooms.items) × (vec_len t.listed + t.spare ≤ vec_capacity t.listed)
        × IsKept (shown_graph t.paths.value) t.edges.items t.vertices.items (map location_of t.listed.items) };
}

impl LocationTracker {
    /// A tracker in which nothing is active.
    pub fn new(alloc: Global, paths: Arc<Paths, Global>) -> Result<LocationTracker, NoMemory>
        ensures graph { IfOk result (λ t. t.graph ≡ paths.value) }
        ensures none { IfOk result (λ t. (q : Active) → times_at t.edges t.vertices q ≡ 0) }
        ensures spare { IfOk result (λ t. t.spare ≡ 0) }
    {
        let edges = empty_trees(alloc, paths.graph().edge_count())?;
        let vertices = empty_trees(alloc, paths.graph().vertex_count())?;
        Ok(LocationTracker {
            alloc,
            paths,
            edges,
            vertices,
            listed: Vec::new(alloc),
            rooms: Vec::with_capacity(alloc, ROOMS)?,
            spare: 0,
        })
    }
}

impl Progress for LocationTracker {
    ghost graph = { λ t. shown_graph t.graph };

    ghost content = { λ t. times_at t.edges t.vertices };

    ghost room = { λ t. t.spare };

    fn reserve(&mut self, count: u32) -> Result<(), NoMemory> {
        if count > self.spare {
            self.listed.reserve(count as usize)?;
            make_rooms(self.alloc, &mut self.rooms, count)?;
            self.spare = count;
        }
        Ok(())
    }

    #[inline(always)]
    fn spare(&self) -> u32 {
        self.spare
    }

    #[inline(always)]
    fn add(&mut self, p: &Pointstamp) {
        let fresh = is_empty_at(&self.edges, &self.vertices, p.location());
        put(&mut self.edges, &mut self.vertices, p, &mut self.rooms);
        list(&mut self.listed, p.location(), fresh);
        self.spare -= 1;
    }

    #[inline(always)]
    fn remove(&mut self, p: &Pointstamp) {
        take(&mut self.edges, &mut self.vertices, p, &mut self.rooms);
        let empty = is_empty_at(&self.edges, &self.vertices, p.location());
        unlist(&mut self.listed, p.location(), empty);
    }

    #[inline(always)]
    fn in_frontier(&self, p: &Pointstamp) -> bool {
        is_clear(
            &self.paths,
            &self.edges,
            &self.vertices,
            &self.listed,
            p,
            true,
        )
    }

    #[inline(always)]
    fn none_before(&self, p: &Pointstamp) -> bool {
        is_clear(
            &self.paths,
            &self.edges,
            &self.vertices,
            &self.listed,
            p,
            false,
        )
    }
}

/// That many empty trees.
fn empty_trees(alloc: Global, count: usize) -> Result<Vec<Tree>, NoMemory>
    ensures long { IfOk result (λ ts. length ts.items ≡ count) }
    ensures empty { IfOk result (λ ts. (i : ℕ) → slice_index_or ts.items i [] ≡ []) }
{
    let mut trees = Vec::with_capacity(alloc, count)?;
    for _ in 0..count {
        trees.push(Tree::new())?;
    }
    Ok(trees)
}

/// Makes room for `count` entries in all.
fn make_rooms(alloc: Global, rooms: &mut Vec<Room>, count: u32) -> Result<(), NoMemory>
    ensures more { length rooms.old.items ≤ length rooms.new.items }
    ensures room { OnOk result (count ≤ length rooms.new.items) }
{
    let missing = (count as usize).saturating_sub(rooms.len());
    for _ in 0..missing {
        let left = Box::new(alloc, Tree::new())?;
        let right = Box::new(alloc, Tree::new())?;
        rooms.push(Room { left, right })?;
    }
    Ok(())
}

/// The tree of a location, if there is one.
#[inline(always)]
fn tree_at<'a>(edges: &'a [Tree], vertices: &'a [Tree], location: Location) -> Option<&'a Tree>
    ensures some { IfSome result (λ t. t.now ≡ bag_at edges.now vertices.now (location_of location)) }
    ensures none { IfNone result (bag_at edges.now vertices.now (location_of location) ≡ []) }
{
    match location {
        Location::Edge(edge) => edges.get(edge.0 as usize),
        Location::Vertex(vertex) => vertices.get(vertex.0 as usize),
    }
}

/// Whether nothing is active at the location.
#[inline(always)]
fn is_empty_at(edges: &[Tree], vertices: &[Tree], location: Location) -> bool
    ensures empty { result ≡ true → IsNone (bag_at edges.now vertices.now (location_of location)) }
    ensures some { result ≡ false → HasSome (bag_at edges.now vertices.now (location_of location)) }
{
    match tree_at(edges, vertices, location) {
        Some(tree) => tree.is_empty(),
        None => true,
    }
}

/// Adds one occurrence of `p`.
#[inline(always)]
fn put(edges: &mut Vec<Tree>, vertices: &mut Vec<Tree>, p: &Pointstamp, rooms: &mut Vec<Room>)
    requires known { IsIn (length edges.old.items) (length vertices.old.items) p.now.location }
    requires room { 0 < length rooms.old.items }
    ensures content { AddsOne (times_at edges.old.items vertices.old.items) (times_at edges.new.items vertices.new.items) p.now }
    ensures edges { length edges.new.items ≡ length edges.old.items }
    ensures vertices { length vertices.new.items ≡ length vertices.old.items }
    ensures room { length rooms.old.items ≤ length rooms.new.items + 1 }
{
    match p.location() {
        Location::Edge(edge) => add_at(edges, edge.0, p.time(), rooms),
        Location::Vertex(vertex) => add_at(vertices, vertex.0, p.time(), rooms),
    }
}

/// Adds one occurrence of a time to the tree of that number.
#[inline(always)]
fn add_at(trees: &mut Vec<Tree>, number: u32, time: &Time, rooms: &mut Vec<Room>)
    requires there { number < length trees.old.items }
    requires room { 0 < length rooms.old.items }
    ensures changed { IsChangedAt trees.old.items trees.new.items number }
    ensures adds { Adds (slice_index_or trees.old.items number []) (slice_index_or trees.new.items number []) time.now 1 }
    ensures room { length rooms.old.items ≤ length rooms.new.items + 1 }
{
    let tree = &mut trees[number as usize];
    let entry = Entry {
        time: time.copied(),
        count: 1,
    };
    tree.add(entry, Range::WHOLE, rooms);
}

/// Removes one occurrence of `p`.
#[inline(always)]
fn take(edges: &mut Vec<Tree>, vertices: &mut Vec<Tree>, p: &Pointstamp, rooms: &mut Vec<Room>)
    requires known { IsIn (length edges.old.items) (length vertices.old.items) p.now.location }
    requires active { 0 < times_at edges.old.items vertices.old.items p.now }
    ensures content { AddsOne (times_at edges.new.items vertices.new.items) (times_at edges.old.items vertices.old.items) p.now }
    ensures edges { length edges.new.items ≡ length edges.old.items }
    ensures vertices { length vertices.new.items ≡ length vertices.old.items }
    ensures room { length rooms.old.items ≤ length rooms.new.items }
{
    match p.location() {
        Location::Edge(edge) => remove_at(edges, edge.0, p.time(), rooms),
        Location::Vertex(vertex) => remove_at(vertices, vertex.0, p.time(), rooms),
    }
}

/// Removes one occurrence of a time from the tree of that number.
#[inline(always)]
fn remove_at(trees: &mut Vec<Tree>, number: u32, time: &Time, rooms: &mut Vec<Room>)
    requires there { number < length trees.old.items }
    requires active { 0 < count (slice_index_or trees.old.items number []) time.now }
    ensures changed { IsChangedAt trees.old.items trees.new.items number }
    ensures takes { Adds (slice_index_or trees.new.items number []) (slice_index_or trees.old.items number []) time.now 1 }
    ensures room { length rooms.old.items ≤ length rooms.new.items }
{
    let tree = &mut trees[number as usize];
    tree.remove(time, rooms);
}

/// Adds a location to the list if it is fresh.
#[inline(always)]
fn list(listed: &mut Vec<Location>, location: Location, fresh: bool)
    requires { vec_len listed.old < vec_capacity listed.old }
    ensures fresh { fresh ≡ true → Among (map location_of listed.new.items) (location_of location) }
    ensures still { (l : Place) → Among (map location_of listed.old.items) l → Among (map location_of listed.new.items) l }
    ensures one { vec_len listed.new ≤ vec_len listed.old + 1 }
    ensures room { vec_capacity listed.new ≡ vec_capacity listed.old }
{
    if fresh {
        listed.push_reserved(location);
    }
}

/// Removes a location from the list if nothing is active there any more.
#[inline(always)]
fn unlist(listed: &mut Vec<Location>, location: Location, empty: bool)
    ensures still { (l : Place) → (empty ≡ true → l ≡ location_of location → ⊥) →
        Among (map location_of listed.old.items) l → Among (map location_of listed.new.items) l }
    ensures fewer { vec_len listed.new ≤ vec_len listed.old }
    ensures room { vec_capacity listed.new ≡ vec_capacity listed.old }
{
    if !empty {
        return;
    }
    if let Some(place) = place_of(listed, location) {
        let _ = listed.remove(place);
    }
}

/// The place of a location in the list.
fn place_of(listed: &[Location], location: Location) -> Option<usize>
    ensures { IfSome result (λ i. slice_get (map location_of listed.now) i ≡ Some (location_of location)) }
{
    for i in 0..listed.len() {
        if same_location(listed[i], location) {
            return Some(i);
        }
    }
    None
}

/// The location at that place in the list.
#[inline(always)]
#[tactic(auto, using(crate::proofs::Places::get_mapped))]
fn location_at(listed: &[Location], place: usize) -> Location
    requires { place < length listed.now }
    ensures { slice_get (map location_of listed.now) place ≡ Some (location_of result) }
{
    listed[place]
}

/// Whether nothing active could result in `p`; if `other`, nothing but `p` itself.
#[inline(always)]
fn is_clear(
    paths: &Paths,
    edges: &[Tree],
    vertices: &[Tree],
    listed: &[Location],
    p: &Pointstamp,
    other: bool,
) -> bool
    requires to { IsTimeAt (shown_graph paths.now) p.now.location p.now.time }
    requires kept { IsKept (shown_graph paths.now) edges.now vertices.now (map location_of listed.now) }
    ensures clear { result ≡ true → IsClear (shown_graph paths.now) (times_at edges.now vertices.now) p.now other }
    ensures blocked { result ≡ false → IsBlocked (shown_graph paths.now) (times_at edges.now vertices.now) p.now other }
{
    for i in 0..listed.len() {
        let location = location_at(listed, i);
        if !is_clear_at(paths, edges, vertices, location, p, other) {
            return false;
        }
    }
    true
}

/// As `is_clear`, for what is active at one location.
#[inline(always)]
fn is_clear_at(
    paths: &Paths,
    edges: &[Tree],
    vertices: &[Tree],
    location: Location,
    p: &Pointstamp,
    other: bool,
) -> bool
    requires to { IsTimeAt (shown_graph paths.now) p.now.location p.now.time }
    requires known { AllAt (shown_graph paths.now) (times_at edges.now vertices.now) }
    ensures clear { result ≡ true →
        IsClearAt (shown_graph paths.now) (bag_at edges.now vertices.now (location_of location)) (location_of location) p.now other }
    ensures blocked { result ≡ false →
        IsBlockedAt (shown_graph paths.now) (bag_at edges.now vertices.now (location_of location)) (location_of location) p.now other }
{
    match tree_at(edges, vertices, location) {
        Some(tree) => is_clear_in(paths, tree, location, p, other),
        None => true,
    }
}

/// Whether none of these times of a location could result in `p`. Checks one of them.
#[inline(always)]
fn is_clear_in(paths: &Paths, tree: &Tree, location: Location, p: &Pointstamp, other: bool) -> bool
    requires to { IsTimeAt (shown_graph paths.now) p.now.location p.now.time }
    requires known { (t : Instant) → 0 < count tree.now t → IsTimeAt (shown_graph paths.now) (location_of location) t }
    ensures clear { result ≡ true → IsClearAt (shown_graph paths.now) tree.now (location_of location) p.now other }
    ensures blocked { result ≡ false → IsBlockedAt (shown_graph paths.now) tree.now (location_of location) p.now other }
{
    paths.law_of_dataflow();
    let excepting = is_excepting(location, p, other);
    match tree.least(p.time(), excepting) {
        None => true,
        Some(time) => !paths.could(&Pointstamp::new(time.copied(), location), p),
    }
}

/// Whether `p` itself is excepted and is at that location.
#[inline(always)]
fn is_excepting(location: Location, p: &Pointstamp, other: bool) -> bool
    ensures { IsTrue result ↔ ((other ≡ true) × (location_of location ≡ p.now.location)) }
{
    other && same_location(location, p.location())
}
