//! What the answer of a query text to an input text is, and the trait of what gives it.
//!
//! The contract: `Answering` takes an input text as lines and records, and then gives the output text of what the query means on the epochs of that text.
//! `commands` answers so by the engine. The crates for CSV files ask for any such, so they know no engine, and no threads.
#![tactic(auto)]

mod answering;

pub use answering::Answering;
