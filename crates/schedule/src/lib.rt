//! Schedules: texts that say, line by line, what to do with a board.
//!
//! A schedule feeds, seals and closes inputs, lets a worker take one of its choices or commit what it holds, and asks for an epoch's answer so far.
//! If each worker has its own view, a schedule also says when a worker applies what another posted. `read_schedule` reads a whole text before
//! anything is done. The contract for the layers above: the lines read are exactly those that the text spells, and a refusal names the first faulty
//! line, by the definitions of `specs/`. Whether a line can be done, for example whether its input exists, isn't decided here: the replay finds that
//! out.
//!
//! Built on `collector`, which cuts a text into lines, on `decimal`, and on the crates below the collector.
#![tactic(auto)]

mod arguments;
mod laws;
mod line;
mod reading;
mod refusal;
mod verb;

pub use laws::law_one_reading;
pub use line::Line;
pub use reading::read_schedule;
pub use refusal::{Fault, ScheduleRefusal};
pub use verb::ViewKind;
