//! Calls on the inputs of an engine.

use crate::boards::{batch_of, batch_of_range, wide_batch};
use board::StepRefusal;
use rows::Batch;
use std::alloc::Global;
use std::sync::Wait;
use views::Views;
use workers::{Engine, Feed, Naming};

/// The answer to a call that isn't refused.
pub const TAKEN: u64 = 0;
/// The answer to a call for which there is no memory.
pub const NO_MEMORY: u64 = 255;

/// A call. It is answered by the number of its refusal, as ERRORS.md has it, or by one of the above.
#[derive(Clone, Copy)]
pub enum Call {
    /// Feeds an input a record of one field.
    Feed(u32, i64),
    /// Feeds an input a record of two fields.
    FeedWide(u32),
    /// Feeds input 0 a record for each number from the first up to the second, without that, each by a call of its own.
    FeedEach(i64, i64),
    /// The same by one call.
    FeedAtOnce(i64, i64),
    /// The same in one batch.
    FeedBatch(i64, i64),
    /// Ends the open epoch of an input.
    Seal(u32),
    Close(u32),
}

fn answer_of(done: Result<(), StepRefusal>) -> u64 {
    match done {
        Ok(()) => TAKEN,
        Err(StepRefusal::InputClosed) => 31,
        Err(StepRefusal::UnknownInput) => 32,
        Err(StepRefusal::WrongFieldCount) => 33,
        Err(StepRefusal::Stopped) => 37,
        Err(StepRefusal::LastEpoch) => 38,
        Err(StepRefusal::HoldsEvent) => 35,
        Err(StepRefusal::NoSuchEvent) => 34,
        Err(StepRefusal::NoMemory) => NO_MEMORY,
    }
}

fn feed<J: Naming, V: Views, R: Wait>(
    rt: &R,
    alloc: Global,
    engine: &Engine<J, V>,
    input: u32,
    batch: Option<Batch>,
) -> u64 {
    match batch {
        Some(batch) => answer_of(engine.feed(rt, alloc, input, batch)),
        None => NO_MEMORY,
    }
}

/// Feeds numbers, each in a batch of its own, up to the first that is refused.
fn feed_each<J: Naming, V: Views, R: Wait>(
    rt: &R,
    alloc: Global,
    engine: &Engine<J, V>,
    from: i64,
    to: i64,
) -> u64 {
    for field in from..to {
        let answer = feed(rt, alloc, engine, 0, batch_of(alloc, field));
        if answer != TAKEN {
            return answer;
        }
    }
    TAKEN
}

/// The same in one call.
fn feed_at_once<J: Naming, V: Views, R: Wait>(
    rt: &R,
    alloc: Global,
    engine: &Engine<J, V>,
    from: i64,
    to: i64,
) -> u64 {
    let mut feeds = Vec::new(alloc);
    for field in from..to {
        if let Some(batch) = batch_of(alloc, field) {
            let _pushed = feeds.push(Feed::Batch { input: 0, batch });
        }
    }
    answer_of(engine.feed_all(rt, alloc, feeds))
}

/// Makes a call.
pub fn answer_to_call<J: Naming, V: Views, R: Wait>(
    rt: &R,
    alloc: Global,
    engine: &Engine<J, V>,
    call: Call,
) -> u64 {
    match call {
        Call::Feed(input, field) => feed(rt, alloc, engine, input, batch_of(alloc, field)),
        Call::FeedWide(input) => feed(rt, alloc, engine, input, wide_batch(alloc)),
        Call::FeedEach(from, to) => feed_each(rt, alloc, engine, from, to),
        Call::FeedAtOnce(from, to) => feed_at_once(rt, alloc, engine, from, to),
        Call::FeedBatch(from, to) => feed(rt, alloc, engine, 0, batch_of_range(alloc, from, to)),
        Call::Seal(input) => answer_of(engine.seal(rt, input)),
        Call::Close(input) => answer_of(engine.close(rt, input)),
    }
}

/// Makes calls in order, up to the first that isn't taken, and gives its answer.
pub fn make<J: Naming, V: Views, R: Wait>(
    rt: &R,
    alloc: Global,
    engine: &Engine<J, V>,
    calls: &[Call],
) -> u64 {
    for call in calls {
        let answer = answer_to_call(rt, alloc, engine, *call);
        if answer != TAKEN {
            return answer;
        }
    }
    TAKEN
}
