//! The epochs of an input text while it is read.

ghost use Rattle.std.specs.Prelude.{◌≡◌, ◌<◌, ◌+◌, ◌^◌, ◌-◌, OnOk, IfOk, length};
ghost use Rattle.record_core.specs.Records.{IsRecord};
ghost use Rattle.collector.specs.Drafts.{draft_count, IsKept};
ghost use Rattle.collector.specs.DraftGrowth.{HasNone, IsEven, Begins, Gains};

use crate::epochs::Epochs;
use crate::input_records::Track;
use record_core::NoMemory;
use std::alloc::Global;

/// The epochs read so far: for each input, a list of records by epoch.
#[derive(Drop)]
pub struct Draft {
    count: u32,
    tracks: Vec<Track>,
}

impl Draft {
    /// A draft without epochs, for that many inputs.
    pub fn new(alloc: Global, inputs: usize) -> Result<Draft, NoMemory>
        ensures none { IfOk result HasNone }
        ensures inputs { IfOk result (λ e. length e.tracks.items ≡ inputs) }
    {
        let mut tracks = Vec::with_capacity(alloc, inputs)?;
        for _input in 0..inputs {
            tracks.push(Track::new(alloc))?;
        }
        Ok(Draft { count: 0, tracks })
    }

    /// The number of epochs that have begun.
    pub fn count(&self) -> u32
        ensures { result ≡ draft_count self.now }
    {
        self.count
    }

    /// The number of inputs.
    pub fn inputs(&self) -> usize
        ensures { result ≡ length self.now.tracks.items }
    {
        self.tracks.len()
    }

    /// Begins the next epoch, without records.
    pub fn begin(&mut self, alloc: Global) -> Result<(), NoMemory>
        requires few { draft_count self.old < 2 ^ 32 - 1 }
        requires even { IsEven self.old }
        ensures { OnOk result (Begins self.old self.new) }
    {
        for input in 0..self.tracks.len() {
            self.tracks[input].begin(alloc)?;
        }
        self.count += 1;
        Ok(())
    }

    /// Appends a record to the last epoch of an input.
    pub fn push(&mut self, alloc: Global, input: usize, row: &[i64]) -> Result<(), NoMemory>
        requires some { 0 < draft_count self.old }
        requires within { input < length self.old.tracks.items }
        requires even { IsEven self.old }
        requires record { IsRecord row.now }
        ensures { OnOk result (Gains self.old self.new input row.now) }
    {
        self.tracks[input].push(alloc, row)
    }

    /// Turns the draft into epochs, once the whole text is read.
    pub fn finish(self, alloc: Global) -> Result<Epochs, NoMemory>
        ensures { IfOk result (IsKept self) }
    {
        let Draft { count, tracks } = self;
        let mut kept = Vec::with_capacity(alloc, tracks.len())?;
        for track in tracks {
            kept.push(track.finish(alloc)?)?;
        }
        Ok(Epochs {
            count,
            tracks: kept,
        })
    }
}
