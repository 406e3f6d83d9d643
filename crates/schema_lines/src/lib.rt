//! The lines of a schema, each by itself: what a line says, and how names and kinds are spelled.
//!
//! A line of a right schema is read as what it says (`IsLine`). In any other line that is read, a column's name and a constant's text are parts of the
//! line (`IsSaid`). The order of lines, and which names are in use, are looked at in the crate `schema`.
#![tactic(auto)]

mod fault;
mod kinds;
mod lines;
mod names;
mod writing;

pub use fault::Fault;
pub use lines::{HeadEpochs, Line, LineError, cut_line, named_column, read_line};
pub use names::{is_header, is_name, place_of};
pub use writing::push_column;
