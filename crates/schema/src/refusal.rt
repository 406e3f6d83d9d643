//! Why a schema is refused.

ghost use Rattle.std.specs.Prelude.{◌≡◌};
ghost use Rattle.schema.specs.declared.refusal.SchemaRefusal.TheVariants as refusal;

use schema_lines::Fault;
use std::alloc::{AllocError, AllocFailed};

/// A faulty line of a schema, counted from 1, or lack of memory.
#[derive(Clone, Copy)]
pub enum SchemaRefusal {
    At { fault: Fault, line: u64 },
    NoMemory,
}

impl From<AllocError> for SchemaRefusal {
    ghost from_gives = { λ _ e. e ≡ refusal.NoMemory };

    fn from(_e: AllocError) -> SchemaRefusal {
        SchemaRefusal::NoMemory
    }
}

impl<T: Drop> From<AllocFailed<T>> for SchemaRefusal {
    ghost from_gives = { λ _ e. e ≡ refusal.NoMemory };

    fn from(_e: AllocFailed<T>) -> SchemaRefusal {
        SchemaRefusal::NoMemory
    }
}
