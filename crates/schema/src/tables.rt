//! What a schema says.

use csv_cells::Column;

/// In which epochs the rows of an input are.
#[derive(Clone, Copy)]
pub enum Epochs {
    /// All in the only one.
    One,
    /// Each in the epoch of its value in the column of that number, from 0. A new value begins an epoch.
    By(usize),
    /// All in each epoch.
    Every,
}

/// An input or an output, and its columns in the order of its file's.
#[derive(Drop)]
pub struct Table {
    pub name: Vec<u8>,
    pub epochs: Epochs,
    /// The names in the header row, one for each column.
    pub headers: Vec<Vec<u8>>,
    pub columns: Vec<Column>,
}

/// A text that a query's author knows by a name.
#[derive(Drop)]
pub struct Constant {
    pub name: Vec<u8>,
    pub text: Vec<u8>,
}

/// What the CSV files of a query's inputs and outputs hold.
#[derive(Drop)]
pub struct Schema {
    pub inputs: Vec<Table>,
    pub outputs: Vec<Table>,
    pub constants: Vec<Constant>,
}
