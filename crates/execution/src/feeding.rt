//! Feeds an engine epoch by epoch.

use crate::task::{AHEAD, Task};
use crate::unfinished::Unfinished;
use rows::Batch;
use std::alloc::Global;
use std::mem::replace;
use std::sync::Wait;
use views::Views;
use workers::{Engine, Feed, Naming};

/// The most epochs that are fed under one lock.
const EPOCHS_AT_ONCE: u32 = AHEAD / 2;

/// Once this many records are gathered, they are fed.
const RECORDS_AT_ONCE: usize = 4096;

/// What is to be fed next, and its number of records.
#[derive(Drop)]
struct Portion {
    feeds: Vec<Feed>,
    records: usize,
}

impl Portion {
    fn new(alloc: Global) -> Portion {
        Portion {
            feeds: Vec::new(alloc),
            records: 0,
        }
    }

    /// Adds a batch. Its records are shared, not copied.
    fn add(&mut self, input: u32, batch: &Batch) -> Result<(), Unfinished> {
        self.records = self.records.saturating_add(batch.len());
        let batch = batch.share()?;
        self.put(Feed::Batch { input, batch })
    }

    /// Adds the end of an epoch.
    fn seal(&mut self, input: u32) -> Result<(), Unfinished> {
        self.put(Feed::Seal { input })
    }

    fn put(&mut self, feed: Feed) -> Result<(), Unfinished> {
        match self.feeds.push(feed) {
            Ok(()) => Ok(()),
            Err(_) => Err(Unfinished::NoMemory),
        }
    }

    fn is_large(&self) -> bool {
        self.records >= RECORDS_AT_ONCE
    }
}

/// Feeds what is gathered.
fn feed_portion<J: Naming, V: Views, R: Wait>(
    rt: &R,
    alloc: Global,
    engine: &Engine<J, V>,
    portion: &mut Portion,
) -> Result<(), Unfinished> {
    portion.records = 0;
    let feeds = replace(&mut portion.feeds, Vec::new(alloc));
    engine.feed_all(rt, alloc, feeds)?;
    Ok(())
}

/// Gathers the batches of one input's epoch, and feeds what is gathered once it is large.
fn feed_batches<J: Naming, V: Views, R: Wait>(
    rt: &R,
    alloc: Global,
    engine: &Engine<J, V>,
    portion: &mut Portion,
    input: u32,
    batches: &[Batch],
) -> Result<(), Unfinished> {
    for batch in batches {
        portion.add(input, batch)?;
        if portion.is_large() {
            feed_portion(rt, alloc, engine, portion)?;
        }
    }
    Ok(())
}

/// Gathers one epoch of every input, with its end.
fn feed_epoch<J: Naming, V: Views, R: Wait>(
    rt: &R,
    alloc: Global,
    engine: &Engine<J, V>,
    task: Task<'_>,
    portion: &mut Portion,
    epoch: u32,
) -> Result<(), Unfinished> {
    for input in 0..task.inputs {
        feed_batches(
            rt,
            alloc,
            engine,
            portion,
            input,
            task.epochs.batches(input, epoch),
        )?;
        portion.seal(input)?;
    }
    Ok(())
}

/// Feeds and seals epoch by epoch, many small epochs at once. Stays at most `AHEAD` epochs ahead of what has passed, and sleeps until half of them have
/// passed.
pub fn feed_epochs<J: Naming, V: Views, R: Wait>(
    rt: &R,
    alloc: Global,
    engine: &Engine<J, V>,
    task: Task<'_>,
) -> Result<(), Unfinished> {
    let mut portion = Portion::new(alloc);
    for epoch in 0..task.epochs.count() {
        feed_epoch(rt, alloc, engine, task, &mut portion, epoch)?;
        if epoch % EPOCHS_AT_ONCE == EPOCHS_AT_ONCE - 1 {
            feed_portion(rt, alloc, engine, &mut portion)?;
            engine.wait_for(rt, u64::from(epoch.saturating_sub(EPOCHS_AT_ONCE - 1)));
        }
    }
    feed_portion(rt, alloc, engine, &mut portion)
}

/// Closes every input. On a stopped board no input can be closed, and none needs to be.
pub fn close_inputs<J: Naming, V: Views, R: Wait>(rt: &R, engine: &Engine<J, V>, inputs: u32) {
    for input in 0..inputs {
        let _ = engine.close(rt, input);
    }
}
