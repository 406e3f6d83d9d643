//! Pages of calls with what they are answered, for the programs that compare them.
//!
//! A page is a Markdown text. Its blocks are lines that begin with four spaces: the first one names what the block is about, and each
//! further one is a call. After ` -> ` stands what a line is answered; nothing where it has no arrow. A line whose answer is another one is
//! printed, with the right answer.
#![tactic(auto)]

mod blocks;
mod lines;

pub use blocks::{Blocks, all_hold};
pub use lines::{Subject, call_of, compared, play_on};
