//! Two workers, of which one applies the seal of the input's first epoch before the other.

ghost use Rattle.std.specs.Prelude.{◌≡◌, ◌<◌, ℕ};
ghost use Rattle.graph.specs.Shown.{shown_graph};
ghost use Rattle.semantics.specs.Could.{IsTimeAt, Location as Place, Pointstamp as Active, at_vertex};
ghost use Rattle.semantics.specs.Time.{at_epoch};
ghost use Rattle.views.specs.Opening.{active_at_first};

use graph::{Location, VertexId};
use loop_context::Time;
use path_summary::{Paths, Pointstamp};
use record_core::NoMemory;
use simple_trackers::CountTracker;
use std::alloc::Global;
use std::sync::Arc;
use views::{Direct, LocalViews, Views};

/// Whether each worker sees nothing that could result in the output's first epoch, and how many batches wait.
pub type Seen = (bool, bool, u64);

fn at_input(epoch: u32) -> Pointstamp
    ensures { result ≡ at_vertex 0 (at_epoch epoch) }
{
    Pointstamp::new(Time::at_epoch(epoch), Location::Vertex(VertexId(0)))
}

fn seen<V: Views>(views: &V, output: &Pointstamp) -> Seen
    requires two { V.workers views.now ≡ 2 }
    requires known { IsTimeAt (V.graph views.now) output.now.location output.now.time }
{
    let first = views.none_before(0, output);
    let second = views.none_before(1, output);
    (first, second, views.waiting())
}

/// The feeder seals the input's first epoch.
fn seal<V: Views>(views: &mut V) -> Result<(), NoMemory>
    requires two { V.workers views.old ≡ 2 }
    requires known { IsTimeAt (V.graph views.old) (Place.vertex 0) (at_epoch 0) }
    requires open { 0 < V.content views.old (at_vertex 0 (at_epoch 0)) }
    ensures graph { V.graph views.new ≡ V.graph views.old }
    ensures workers { V.workers views.new ≡ V.workers views.old }
{
    views.reserve(2)?;
    views.post(2, &[at_input(1)], &[at_input(0)]);
    Ok(())
}

/// What is seen at first, once the epoch is sealed, once the second worker has applied that, and once the first has.
fn turns<V: Views>(views: &mut V, output: &Pointstamp) -> Result<[Seen; 4], NoMemory>
    requires two { V.workers views.old ≡ 2 }
    requires input { IsTimeAt (V.graph views.old) (Place.vertex 0) (at_epoch 0) }
    requires output { IsTimeAt (V.graph views.old) output.now.location output.now.time }
    requires open { 0 < V.content views.old (at_vertex 0 (at_epoch 0)) }
{
    let opened = seen(views, output);
    seal(views)?;
    let sealed = seen(views, output);
    let _ = views.apply(1, 2);
    let second = seen(views, output);
    let _ = views.apply(0, 2);
    Ok([opened, sealed, second, seen(views, output)])
}

/// The same over new views; nothing where the graph doesn't have the input or the output.
fn new_turns<V: Views>(views: &mut V, paths: &Paths, output: &Pointstamp) -> Option<[Seen; 4]>
    requires graph { V.graph views.old ≡ shown_graph paths.now }
    requires two { V.workers views.old ≡ 2 }
    requires content { (q : Active) → V.content views.old q ≡ active_at_first (shown_graph paths.now) q }
{
    let fits = paths.fits(&at_input(0)) && paths.fits(output);
    if !fits || paths.graph().input_count() == 0 {
        return None;
    }
    turns(views, output).ok()
}

/// Two workers with a view each.
pub fn late_turns(
    alloc: Global,
    paths: &Arc<Paths, Global>,
    output: &Pointstamp,
) -> Option<[Seen; 4]> {
    let shared = Arc::try_clone(paths).ok()?;
    let Ok(mut views) = LocalViews::new(alloc, shared, 2) else {
        return None;
    };
    new_turns(&mut views, paths, output)
}

/// Two workers that see one tracker.
pub fn direct_turns(
    alloc: Global,
    paths: &Arc<Paths, Global>,
    output: &Pointstamp,
) -> Option<[Seen; 4]> {
    let tracker = CountTracker::new(alloc, Arc::try_clone(paths).ok()?);
    let Ok(mut views) = Direct::new(alloc, paths, 2, tracker) else {
        return None;
    };
    new_turns(&mut views, paths, output)
}
