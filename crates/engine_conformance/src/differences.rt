//! Two trackers over the same list of pointstamps that come and go.

ghost use Rattle.std.specs.Prelude.{◌≡◌, ◌<◌, OnOk, OnSome};
ghost use Rattle.graph.specs.Shown.{shown_graph};
ghost use Rattle.semantics.specs.Could.{IsTimeAt, Pointstamp as Active};
ghost use Rattle.progress.specs.Content.{times_at, times_in};

use graph::{Location, VertexId};
use loop_context::Time;
use path_summary::{Paths, Pointstamp};
use progress::{LocationTracker, Progress};
use record_core::NoMemory;
use simple_trackers::PlainTracker;
use std::alloc::Global;
use std::sync::Arc;

fn stamp(epoch: u32, counter: u32, vertex: u32) -> Option<Pointstamp> {
    let time = Time::new(epoch, &[counter])?;
    Some(Pointstamp::new(time, Location::Vertex(VertexId(vertex))))
}

/// Puts it in on both sides, or, where it is there, takes it out.
fn toggle(
    plain: &mut PlainTracker,
    located: &mut LocationTracker,
    p: &Pointstamp,
) -> Result<(), NoMemory>
    requires plain { IsTimeAt (shown_graph plain.old.graph) p.now.location p.now.time }
    requires located { IsTimeAt (shown_graph located.old.graph) p.now.location p.now.time }
    requires same { (q : Active) → times_in plain.old.active q ≡ times_at located.old.edges located.old.vertices q }
    ensures plain { shown_graph plain.new.graph ≡ shown_graph plain.old.graph }
    ensures located { shown_graph located.new.graph ≡ shown_graph located.old.graph }
    ensures same { OnOk result ((q : Active) → times_in plain.new.active q ≡ times_at located.new.edges located.new.vertices q) }
{
    if plain.is_active(p) {
        plain.remove(p);
        located.remove(p);
        return Ok(());
    }
    plain.reserve(1)?;
    located.reserve(1)?;
    plain.add(p);
    located.add(p);
    Ok(())
}

/// Whether both answer the same about it.
fn agree(plain: &PlainTracker, located: &LocationTracker, p: &Pointstamp) -> bool
    requires plain { IsTimeAt (shown_graph plain.now.graph) p.now.location p.now.time }
    requires located { IsTimeAt (shown_graph located.now.graph) p.now.location p.now.time }
{
    plain.in_frontier(p) == located.in_frontier(p) && plain.none_before(p) == located.none_before(p)
}

/// The n-th of a list that looks random: at vertex 2, 3 or 4, in epochs 0 to 4, with counters 0 to 3.
fn nth(n: u32) -> Option<Pointstamp> {
    let mixed = (n % 1000) * 7919 % 611;
    stamp(mixed % 5, mixed / 5 % 4, 2 + mixed / 20 % 3)
}

/// Toggles the n-th pointstamp. Whether both then answer the same about a later one.
fn turn(
    paths: &Paths,
    plain: &mut PlainTracker,
    located: &mut LocationTracker,
    n: u32,
) -> Option<bool>
    requires few { n < 1000 }
    requires plain { shown_graph plain.old.graph ≡ shown_graph paths.now }
    requires located { shown_graph located.old.graph ≡ shown_graph paths.now }
    requires same { (q : Active) → times_in plain.old.active q ≡ times_at located.old.edges located.old.vertices q }
    ensures plain { shown_graph plain.new.graph ≡ shown_graph paths.now }
    ensures located { shown_graph located.new.graph ≡ shown_graph paths.now }
    ensures same { OnSome result ((q : Active) → times_in plain.new.active q ≡ times_at located.new.edges located.new.vertices q) }
{
    let p = nth(n)?;
    let later = nth(n + 37)?;
    if !paths.fits(&p) || !paths.fits(&later) || toggle(plain, located, &p).is_err() {
        return None;
    }
    Some(agree(plain, located, &later))
}

/// How many of that many answers differ. Before each of them one pointstamp comes or goes.
fn differences_of(
    paths: &Paths,
    plain: &mut PlainTracker,
    located: &mut LocationTracker,
    count: u32,
) -> Option<u32>
    requires few { count < 1000 }
    requires plain { shown_graph plain.old.graph ≡ shown_graph paths.now }
    requires located { shown_graph located.old.graph ≡ shown_graph paths.now }
    requires same { (q : Active) → times_in plain.old.active q ≡ times_at located.old.edges located.old.vertices q }
{
    let mut differ = 0;
    for n in 0..count {
        if !turn(paths, plain, located, n)? {
            differ += 1;
        }
    }
    Some(differ)
}

/// The differences of new trackers; nothing where the graph doesn't have a pointstamp of the list.
pub fn differences(
    alloc: Global,
    paths: &Arc<Paths, Global>,
    count: u32,
) -> Result<Option<u32>, NoMemory>
    requires { count < 1000 }
{
    let mut plain = PlainTracker::new(alloc, Arc::try_clone(paths)?);
    let mut located = LocationTracker::new(alloc, Arc::try_clone(paths)?)?;
    Ok(differences_of(paths, &mut plain, &mut located, count))
}
