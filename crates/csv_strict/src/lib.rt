//! Whether the text of a CSV file is written as RFC 4180 says.
//!
//! The reader of crate `csv` reads any bytes: of a quote that is never closed it makes one field of all that follows. So a text is checked first. The
//! contract for the layers above: `check_text` passes just the texts that the six states of `specs/Strict.antt` allow, which were written from the RFC's
//! grammar, and refuses others at the first byte that they don't allow.
#![tactic(auto)]

mod checking;
mod state;

pub use checking::{Fault, Refusal, check_text, law_refused, line_of_record};
pub use state::State;
