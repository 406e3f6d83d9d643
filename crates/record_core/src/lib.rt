//! The common types of all layers: records, names, keywords, inputs, places in a text, refusals, lack of memory.
//!
//! The contract for the layers above: a record is its list of fields, a name is its list of bytes, and both compare, order and hash like those lists.
//! Nothing here takes memory. Built on `semantics` and `arrayvec`.
#![tactic(auto)]

mod input;
mod keyword;
mod name;
mod no_memory;
mod record;
mod span;

pub use input::DeclaredInput;
pub use keyword::Keyword;
pub use name::Name;
pub use no_memory::NoMemory;
pub use record::{MAX_FIELDS, Record};
pub use span::{Refusal, Span};
