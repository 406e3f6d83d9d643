//! Schemas: what the CSV files of a query's inputs and outputs hold.
//!
//! A schema is a text of lines. `input NAME` and `output NAME` begin a table, and under them stands a line for each column, in the file's order: two
//! spaces, the column's name, and what its cells are: `int`, `decimal(2)`, `date`, `time` or `text`. After that may stand ` or VALUE`: what an empty
//! cell stands for. `constant NAME = TEXT` gives a text its number before the texts of any file. A text is taken only if it is, byte for byte, what
//! `push_schema` writes of a right schema (`IsSchemaText`, `IsSchema`), and refused for a line only if it is no right schema's. Which line is named
//! is only tested. No column's name ends with ` or`: what comes after it would be taken for the cell that an empty one stands for.
#![tactic(auto)]

mod draft;
mod epochs;
mod names;
mod reading;
mod refusal;
mod tables;
mod writing;

pub use reading::read_schema;
pub use refusal::SchemaRefusal;
pub use schema_lines::Fault;
pub use tables::{Constant, Epochs, Schema, Table};
pub use writing::push_schema;
