//! Batches by epoch.

ghost use Rattle.std.specs.Prelude.{◌≡◌, ◌++◌, ◌∷◌, [], List, ℤ, ◌+◌, ◌<◌, ◌≤◌, slice_index_or, vec_len, vec_capacity, IfErr, IfOk, OnOk, OnErr};
ghost use Rattle.board.specs.Batches.{batches_in};
ghost use Rattle.board.specs.Steps.{more_at};

use rows::Batch;
use std::alloc::Global;
use std::marker::Model;
use std::mem::replace;
use std::slice::from_ref;

/// Some batches, in order. One alone takes no memory of its own, since of many small epochs each has one.
#[derive(Drop)]
enum Listed {
    One(Batch),
    Many(Vec<Batch>),
}

/// The same with a batch more at the end. If memory is short, both come back.
#[inline(always)]
fn longer(alloc: Global, listed: Listed, batch: Batch) -> Result<Listed, (Listed, Batch)>
    ensures ok { IfOk result (λ l. batches_in l ≡ batches_in listed ++ batch ∷ []) }
    ensures same { IfErr result (λ back. batches_in back.0 ≡ batches_in listed) }
    ensures back { IfErr result (λ back. back.1 ≡ batch) }
{
    match listed {
        Listed::One(first) => match Vec::with_capacity(alloc, 2) {
            Ok(mut both) => {
                both.push_reserved(first);
                both.push_reserved(batch);
                Ok(Listed::Many(both))
            }
            Err(_) => Err((Listed::One(first), batch)),
        },
        Listed::Many(mut batches) => {
            if batches.is_empty() {
                return Ok(Listed::One(batch));
            }
            match batches.push(batch) {
                Ok(()) => Ok(Listed::Many(batches)),
                Err(failed) => Err((Listed::Many(batches), failed.value)),
            }
        }
    }
}

/// A list of batches, in order.
#[derive(Drop)]
pub struct Batches {
    list: Listed,
}

impl Model for Batches {
    ghost use Rattle.std.specs.Prelude.{List, ℤ};
    ghost use Rattle.board.specs.Batches.{batches_in};

    ghost Value = { List (List (List ℤ)) };

    ghost view = { λ b. batches_in b.list };
}

impl Batches {
    /// Creates an empty list.
    pub fn new(alloc: Global) -> Batches
        ensures { result ≡ [] }
    {
        Batches {
            list: Listed::Many(Vec::new(alloc)),
        }
    }

    /// A list of one batch.
    fn one(batch: Batch) -> Batches
        ensures { result ≡ batch ∷ [] }
    {
        Batches {
            list: Listed::One(batch),
        }
    }

    pub fn as_slice(&self) -> &[Batch]
        ensures { result.now ≡ self.now }
    {
        match &self.list {
            Listed::One(batch) => from_ref(batch),
            Listed::Many(batches) => batches.as_slice(),
        }
    }

    /// Appends a batch, or gives it back if memory is short.
    #[inline(always)]
    pub fn push(&mut self, alloc: Global, batch: Batch) -> Result<(), Batch>
        ensures ok { OnOk result (self.new ≡ self.old ++ batch ∷ []) }
        ensures err { OnErr result (self.new ≡ self.old) }
        ensures back { IfErr result (λ back. back ≡ batch) }
    {
        let listed = replace(&mut self.list, Listed::Many(Vec::new(alloc)));
        match longer(alloc, listed, batch) {
            Ok(list) => {
                self.list = list;
                Ok(())
            }
            Err((list, batch)) => {
                self.list = list;
                Err(batch)
            }
        }
    }
}

/// Batches by epoch, from epoch 0 on.
#[derive(Drop)]
pub struct Epochs {
    alloc: Global,
    lists: Vec<Batches>,
}

impl Model for Epochs {
    ghost use Rattle.std.specs.Prelude.{List, ℤ};

    ghost Value = { List (List (List (List ℤ))) };

    ghost view = { λ e. e.lists.items };
}

impl Epochs {
    /// Creates an empty list of epochs.
    pub fn new(alloc: Global) -> Epochs
        ensures { result ≡ [] }
    {
        Epochs {
            alloc,
            lists: Vec::new(alloc),
        }
    }

    /// The batches of an epoch; none if it has no entry yet.
    pub fn at(&self, epoch: u32) -> &[Batch]
        ensures { result.now ≡ slice_index_or self.now epoch [] }
    {
        match self.lists.get(epoch as usize) {
            Some(batches) => batches.as_slice(),
            None => &[],
        }
    }

    /// Adds a batch to an epoch, and makes the epoch's entry if it has none. If memory runs out, nothing changes, and the batch comes back.
    #[inline(always)]
    pub fn add(&mut self, epoch: u32, batch: Batch) -> Result<(), Batch>
        ensures ok { OnOk result (self.new ≡ more_at epoch (batch ∷ []) self.old) }
        ensures err { OnErr result (self.new ≡ self.old) }
        ensures back { IfErr result (λ back. back ≡ batch) }
    {
        let at = epoch as usize;
        let len = self.lists.len();
        if at < len {
            return self.lists[at].push(self.alloc, batch);
        }
        if self.lists.reserve(at - len + 1).is_err() {
            return Err(batch);
        }
        pad(&mut self.lists, self.alloc, at);
        self.lists.push_reserved(Batches::one(batch));
        Ok(())
    }
}

/// Appends epochs without batches until there are `len` of them.
fn pad(lists: &mut Vec<Batches>, alloc: Global, len: usize)
    requires room { len < vec_capacity lists.old }
    requires shorter { vec_len lists.old ≤ len }
    ensures same { (bs : List (List (List ℤ))) → more_at len bs lists.new.items ≡ more_at len bs lists.old.items }
    ensures len { vec_len lists.new ≡ len }
    ensures capacity { vec_capacity lists.new ≡ vec_capacity lists.old }
{
    for _k in lists.len()..len {
        lists.push_reserved(Batches::new(alloc));
    }
}
