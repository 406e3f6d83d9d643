//! An event that a thread computes.

ghost use Rattle.std.specs.Prelude.{◌≡◌};
ghost use Rattle.driver.specs.Ends.{event_of};
ghost use Rattle.follow.specs.Slots.{event_in};

use core::mem::replace_with;
use events::{Done, Work};
use rows::WorkFault;
use std::alloc::Global;

/// An event that was claimed.
pub enum Slot {
    /// It isn't computed yet.
    Claimed(Work),
    /// It was computed.
    Computed(Done),
    /// Computing it was refused.
    Refused(Work, WorkFault),
}

impl Slot {
    /// Computes the event, if that wasn't done yet.
    pub fn compute(&mut self, alloc: Global)
        ensures { event_in self.new ≡ event_in self.old }
    {
        replace_with(self, alloc, computed);
    }

    /// The event with its output, or the reason why it has none. For an event that wasn't computed that is lack of memory.
    pub fn into_result(self) -> Result<Done, (Work, WorkFault)>
        ensures { event_of result ≡ event_in self }
    {
        match self {
            Slot::Claimed(work) => Err((work, WorkFault::NoMemory)),
            Slot::Computed(done) => Ok(done),
            Slot::Refused(work, fault) => Err((work, fault)),
        }
    }
}

/// The slot once its event is computed.
fn computed(slot: Slot, alloc: Global) -> (Slot, ())
    ensures { event_in result.0 ≡ event_in slot }
{
    match slot {
        Slot::Claimed(work) => match work.compute(alloc) {
            Ok(done) => (Slot::Computed(done), ()),
            Err((work, fault)) => (Slot::Refused(work, fault), ()),
        },
        other => (other, ()),
    }
}
