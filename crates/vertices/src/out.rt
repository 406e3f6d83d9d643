//! What a shard sends and asks for.

ghost use Rattle.std.specs.Prelude.{◌≡◌, None, OnOk, IfErr, false, cond, []};
ghost use Rattle.rows.specs.Counts.{AllFit, expanded, rows_of};
ghost use Rattle.rows.specs.Indexes.{AreDifferent};
ghost use Rattle.rows.specs.declared.fault.WorkFault.TheVariants.{NoMemory};
ghost use Rattle.vertices.specs.Outs.{records_of, two};

use rows::{Batch, CountedRows, WorkFault};
use std::alloc::Global;

/// What a shard sends for one event, by out port, and whether it asks to be notified once nothing more can come to it at the
/// event's time.
#[derive(Drop)]
pub struct Out {
    pub(crate) first: Option<Batch>,
    pub(crate) second: Option<Batch>,
    pub(crate) asked: bool,
}

impl Out {
    /// Nothing.
    #[inline(always)]
    pub fn new() -> Out
        ensures { result ≡ record { first = None; second = None; asked = false } }
    {
        Out {
            first: None,
            second: None,
            asked: false,
        }
    }

    /// What is sent by out ports 0 and 1; `None` where nothing is.
    #[inline(always)]
    pub fn into_batches(self) -> (Option<Batch>, Option<Batch>)
        ensures first { records_of result.0 ≡ two self 0 }
        ensures second { records_of result.1 ≡ two self 1 }
    {
        (self.first, self.second)
    }

    /// Whether a notification is asked for.
    #[inline(always)]
    pub fn asked(&self) -> bool
        ensures { result ≡ self.now.asked }
    {
        self.asked
    }

    /// Sends rows by port 0, if there are some. They are different.
    #[inline(always)]
    pub(crate) fn send(&mut self, alloc: Global, rows: CountedRows) -> Result<(), WorkFault>
        requires { AreDifferent (rows_of rows.runs) }
        ensures sent { OnOk result (records_of self.new.first ≡ expanded rows.runs) }
        ensures fits { OnOk result (AllFit (records_of self.new.first)) }
        ensures never { IfErr result (λ e. e ≡ NoMemory) }
        ensures asked { self.new.asked ≡ self.old.asked }
    {
        let _empty = rows.is_empty();
        self.first = Batch::from_counted(alloc, rows)?;
        Ok(())
    }

    /// Sends rows by port 1, if there are some, and the same ones by port 0 if they go around. They are different.
    #[inline(always)]
    pub(crate) fn send_new(
        &mut self,
        alloc: Global,
        rows: CountedRows,
        around: bool,
    ) -> Result<(), WorkFault>
        requires { AreDifferent (rows_of rows.runs) }
        ensures first { OnOk result (records_of self.new.first ≡ cond around (expanded rows.runs) []) }
        ensures second { OnOk result (records_of self.new.second ≡ expanded rows.runs) }
        ensures fits_first { OnOk result (AllFit (records_of self.new.first)) }
        ensures fits_second { OnOk result (AllFit (records_of self.new.second)) }
        ensures never { IfErr result (λ e. e ≡ NoMemory) }
        ensures asked { self.new.asked ≡ self.old.asked }
    {
        let _empty = rows.is_empty();
        let batch = Batch::from_counted(alloc, rows)?;
        self.first = None;
        if around {
            if let Some(batch) = &batch {
                self.first = Some(batch.share()?);
            }
        }
        self.second = batch;
        Ok(())
    }
}
