//! States by time.

ghost use Rattle.std.specs.Prelude.{◌≡◌, cond, None, OnOk, Some};
ghost use Rattle.indexmap.specs.IndexMap.{get};
ghost use Rattle.semantics.specs.Time.{Time as TimeShown, same_time};

use indexmap::IndexMap;
use loop_context::{MAX_LOOPS, Time};
use record_core::NoMemory;

/// With more states than this, some are of times that had passed, but weren't seen to have.
const FEW: usize = 4;

/// A time that has a state, and that may have passed when something comes at `now`: the turn before in the same loop, or the epoch before
/// outside loops. Where that has none, and where many are kept, another one by turns.
#[inline(always)]
pub(crate) fn earlier<S: Drop>(times: &IndexMap<Time, S>, now: &Time) -> Option<Time> {
    let kept = times.len();
    if kept > 1 && kept <= FEW {
        if let Some(before) = before(now) {
            if times.contains_key(&before) {
                return Some(before);
            }
        }
    }
    let turn = now.epoch().wrapping_add(now.last_counter()) as usize;
    match times.get_index(turn % kept.max(1)) {
        Some((time, _)) => Some(time.copied()),
        None => None,
    }
}

/// Keeps a state for a time that has none.
#[inline(always)]
pub(crate) fn put<S: Drop>(
    times: &mut IndexMap<Time, S>,
    time: &Time,
    state: S,
) -> Result<(), NoMemory>
    ensures { OnOk result ((t : TimeShown) → get same_time times.new t ≡ cond (same_time time.now t) (Some state) (get same_time times.old t)) }
{
    times.insert(time.copied(), state)?;
    Ok(())
}

/// Lets go of the state of a time, and gives it, if there is one. Takes constant time.
#[inline(always)]
pub(crate) fn forget<S: Drop>(times: &mut IndexMap<Time, S>, time: &Time) -> Option<S>
    ensures { (t : TimeShown) → get same_time times.new t ≡ cond (same_time time.now t) None (get same_time times.old t) }
{
    times.swap_remove(time)
}

/// The turn before in the same loop, or the epoch before outside loops.
#[inline(always)]
fn before(time: &Time) -> Option<Time> {
    let counters = time.counters();
    let depth = time.depth();
    if depth == 0 {
        return match time.epoch().checked_sub(1) {
            Some(epoch) => Some(Time::at_epoch(epoch)),
            None => None,
        };
    }
    let last = time.last_counter();
    if last == 0 {
        return None;
    }
    let mut earlier = [0u32; MAX_LOOPS];
    for place in 0..depth {
        earlier[place] = counters[place];
    }
    earlier[depth - 1] = last - 1;
    Time::new(time.epoch(), &earlier[..depth])
}
