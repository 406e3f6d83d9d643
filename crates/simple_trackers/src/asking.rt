//! Runs a list of changes and questions on any tracker.

ghost use Rattle.std.specs.Prelude.{◌≡◌, ◌+◌, ◌≤◌, IfOk, OnErr, OnOk, length, vec_capacity, vec_len};
ghost use Rattle.semantics.specs.Could.{CouldResultIn, Pointstamp as Active};
ghost use Rattle.simple_trackers.specs.Asked.{AreAnswers, ArePossible, content_after};

use crate::change::Change;
use progress::Progress;
use record_core::NoMemory;
use std::alloc::Global;

/// Makes the changes in order, and answers each question as `in_frontier` does, from what is active at that point. Reserves all room first, so that
/// after a refusal the active pointstamps are unchanged.
pub fn changes<P: Progress>(
    alloc: Global,
    tracker: &mut P,
    changes: &[Change],
) -> Result<Vec<bool>, NoMemory>
    requires { ArePossible (P.graph tracker.old) (P.content tracker.old) changes.now }
    ensures graph { P.graph tracker.new ≡ P.graph tracker.old }
    ensures answers { IfOk result (λ bs. AreAnswers (CouldResultIn (P.graph tracker.old)) (P.content tracker.old) changes.now bs.items) }
    ensures content { OnOk result ((q : Active) → P.content tracker.new q ≡ content_after (P.content tracker.old) changes.now q) }
    ensures refused { OnErr result ((q : Active) → P.content tracker.new q ≡ P.content tracker.old q) }
{
    let room = room_for(changes)?;
    let mut answers = Vec::with_capacity(alloc, changes.len())?;
    tracker.reserve(room)?;
    make(tracker, changes, &mut answers);
    Ok(answers)
}

/// Enough room for all of them.
fn room_for(changes: &[Change]) -> Result<u32, NoMemory>
    ensures { IfOk result (λ n. n ≡ length changes.now) }
{
    match u32::try_from(changes.len()) {
        Ok(room) => Ok(room),
        Err(_) => Err(NoMemory),
    }
}

/// Makes the changes and answers the questions; there must be room for all.
fn make<P: Progress>(tracker: &mut P, changes: &[Change], answers: &mut Vec<bool>)
    requires possible { ArePossible (P.graph tracker.old) (P.content tracker.old) changes.now }
    requires room { length changes.now ≤ P.room tracker.old }
    requires answers { vec_len answers.old + length changes.now ≤ vec_capacity answers.old }
    requires none { vec_len answers.old ≡ 0 }
    ensures graph { P.graph tracker.new ≡ P.graph tracker.old }
    ensures answers { AreAnswers (CouldResultIn (P.graph tracker.old)) (P.content tracker.old) changes.now answers.new.items }
    ensures content { (q : Active) → P.content tracker.new q ≡ content_after (P.content tracker.old) changes.now q }
{
    for i in 0..changes.len() {
        match &changes[i] {
            Change::Add(p) => tracker.add(p),
            Change::Remove(p) => tracker.remove(p),
            Change::Ask(p) => answers.push_reserved(tracker.in_frontier(p)),
        }
    }
}
