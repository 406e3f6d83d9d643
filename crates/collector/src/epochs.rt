//! The epochs of an input text.

ghost use Rattle.std.specs.Prelude.{◌≡◌, true, IfOk};
ghost use Rattle.rows.specs.FlatRows.{joined};
ghost use Rattle.collector.specs.Parts.{Appends};
ghost use Rattle.collector.specs.ReadEpochs.{epoch_count, records_at};

use crate::input_records::Kept;
use record_core::NoMemory;
use rows::Batch;

/// The epochs of a text: for each input, its records by epoch, in batches.
#[derive(Drop)]
pub struct Epochs {
    pub(crate) count: u32,
    pub(crate) tracks: Vec<Kept>,
}

impl Epochs {
    /// The number of epochs.
    pub fn count(&self) -> u32
        ensures { result ≡ epoch_count self.now }
    {
        self.count
    }

    /// The records of an input in an epoch, in batches of at most 16,384; a batch stores equal records once, with a count. None if there is no such
    /// input or epoch.
    pub fn batches(&self, input: u32, epoch: u32) -> &[Batch]
        ensures { joined result.now ≡ records_at self.now epoch input }
    {
        match self.tracks.get(input as usize) {
            Some(track) => track.batches(epoch as usize),
            None => &[],
        }
    }

    /// Puts what the next part of the same text holds behind: its first epoch is the last one here. False where there are too many epochs, or no
    /// epoch or other inputs on one side. Without `true`, what is here is spoiled.
    pub(crate) fn append(&mut self, part: Epochs) -> Result<bool, NoMemory>
        ensures { IfOk result (λ b. b ≡ true → Appends self.old part self.new) }
    {
        let Epochs { count, mut tracks } = part;
        if self.count == 0 || count == 0 || tracks.len() != self.tracks.len() {
            return Ok(false);
        }
        let begun = self.count as usize;
        let Some(sum) = self.count.checked_add(count - 1) else {
            return Ok(false);
        };
        self.count = sum;
        while let Some(track) = tracks.pop() {
            let mine = &mut self.tracks[tracks.len()];
            if mine.len() != begun || track.len() == 0 {
                return Ok(false);
            }
            mine.append(track)?;
        }
        Ok(true)
    }
}
