//! Decides to which worker a record goes.

ghost use Rattle.std.specs.Prelude.{◌≡◌, ◌<◌, ◌≤◌, ◌%◌, ℕ, IfOk, IsTrue, fold};
ghost use Rattle.semantics.specs.Meaning.{field as column_of, project};
ghost use Rattle.semantics.specs.Route.{route as route_of};
ghost use Rattle.exchange.specs.Homes.{home_of};
ghost use Rattle.exchange.specs.Hashes.{step};
ghost use Rattle.semantics.specs.Limits.{max_workers};

use record_core::NoMemory;
use rows::field;
use std::alloc::Global;

/// The most workers.
pub const MAX_WORKERS: u32 = 64;

/// How an edge routes its records to workers.
#[derive(Drop)]
pub enum Routing {
    /// By these columns, in this order, for a vertex that needs equal keys on one worker.
    ByKey(Vec<u64>),
    /// By all fields.
    ByRecord,
    /// The record stays at its sender.
    Stay,
}

/// The worker of a key, out of 1 to 64. The hash reads the fields as unsigned numbers, modulo 2^64. Takes no memory.
#[tactic(auto, using(crate::proofs::Folds::route_folds))]
pub fn route(key: &[i64], workers: u32) -> u32
    requires some { 0 < workers }
    requires fits { workers ≤ max_workers }
    ensures value { result ≡ route_of key.now workers }
    ensures there { result < workers }
{
    remainder(hash_of_key(key), workers)
}

/// The remainder of a division by the number of workers. For the usual numbers no division is made: one takes as long as the whole hash.
fn remainder(hash: u64, workers: u32) -> u32
    requires some { 0 < workers }
    requires fits { workers ≤ max_workers }
    ensures { result ≡ hash % workers }
{
    let rest = match workers {
        2 => hash % 2,
        4 => hash % 4,
        8 => hash % 8,
        16 => hash % 16,
        32 => hash % 32,
        64 => hash % 64,
        _ => hash % workers as u64,
    };
    rest as u32
}

fn hash_of_key(key: &[i64]) -> u64
    ensures { result ≡ fold step 7 key.now }
{
    let mut hash = 7;
    for value in key {
        hash = hash_step(hash, *value);
    }
    hash
}

fn hash_of_columns(columns: &[u64], row: &[i64]) -> u64
    ensures { result ≡ fold (λ h c. step h (column_of c row.now)) 7 columns.now }
{
    let mut hash = 7;
    for column in columns {
        hash = hash_step(hash, field(row, *column));
    }
    hash
}

fn hash_step(hash: u64, value: i64) -> u64
    ensures { result ≡ step hash value }
{
    hash.wrapping_mul(31).wrapping_add(value.cast_unsigned())
}

fn same_columns(columns: &[u64], others: &[u64]) -> bool
    ensures { IsTrue result → columns.now ≡ others.now }
{
    columns == others
}

/// The worker of the key that a row has in these columns.
#[tactic(auto, using(crate::proofs::Folds::route_projects))]
fn route_columns(columns: &[u64], row: &[i64], workers: u32) -> u32
    requires some { 0 < workers }
    requires fits { workers ≤ max_workers }
    ensures value { result ≡ route_of (project columns.now row.now) workers }
    ensures there { result < workers }
{
    remainder(hash_of_columns(columns, row), workers)
}

impl Routing {
    /// The same routing once more.
    pub(crate) fn copy(&self, alloc: Global) -> Result<Routing, NoMemory>
        ensures { IfOk result (λ r. home_of r ≡ home_of self.now) }
    {
        match self {
            Routing::ByKey(columns) => Ok(Routing::ByKey(Vec::from_slice(alloc, columns)?)),
            Routing::ByRecord => Ok(Routing::ByRecord),
            Routing::Stay => Ok(Routing::Stay),
        }
    }

    /// Whether it is the same routing.
    pub(crate) fn same(&self, other: &Routing) -> bool
        ensures { IsTrue result → home_of self.now ≡ home_of other.now }
    {
        match (self, other) {
            (Routing::ByKey(columns), Routing::ByKey(others)) => same_columns(columns, others),
            (Routing::ByRecord, Routing::ByRecord) => true,
            (Routing::Stay, Routing::Stay) => true,
            _ => false,
        }
    }

    /// The worker, out of 1 to 64, to which a record from `sender` goes. Takes no memory.
    pub fn home(&self, workers: u32, sender: u32, row: &[i64]) -> u32
        requires fits { workers ≤ max_workers }
        requires sender { sender < workers }
        ensures value { result ≡ home_of self.now workers sender row.now }
        ensures there { result < workers }
    {
        match self {
            Routing::ByKey(columns) => route_columns(columns.as_slice(), row, workers),
            Routing::ByRecord => route(row, workers),
            Routing::Stay => sender,
        }
    }
}
