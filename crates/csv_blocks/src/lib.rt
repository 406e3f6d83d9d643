//! The blocks of a CSV text as it is read.
//!
//! A text is read in pieces and handed out in blocks of whole records, so a file of any length takes the memory of a block and of the record behind it. Each
//! byte is checked as it comes, by the states of `csv_strict`. The contract for the layers above (`specs/Blocks.antt`): the blocks, one behind the other,
//! are the text without its byte order mark; each but the last is whole records, so a reader may read each block by itself; and a text that is refused has
//! just that fault, at that line of the whole text.
#![tactic(auto)]

mod blocks;
mod fault;
mod lines;
mod scanning;

pub use blocks::Blocks;
pub use fault::BlockFault;
