//! What may be wrong with a schema.

use thiserror::Error;

/// What is wrong with a line.
#[derive(Clone, Copy, Debug, Error)]
pub enum Fault {
    /// The line has none of the forms of a schema's lines, or ends with no line feed, or the order of the parts is another one.
    #[error("no line of a schema")]
    Malformed,
    /// `int`, `decimal(1)` to `decimal(18)`, `date`, `time` and `text` are the kinds.
    #[error("no kind of cells")]
    UnknownKind,
    /// The value after `or` is no cell of its column.
    #[error("no cell of this column")]
    BadValue,
    /// Another input, output, constant or column of the table has that name, or another constant that text.
    #[error("a name or a constant's text that is in use")]
    NameInUse,
    /// A table has 1 to 16 columns.
    #[error("a table without columns, or with more than 16")]
    WrongColumns,
    /// `by` names no column of the table, or one of texts.
    #[error("no column whose values can be in order")]
    BadEpochs,
    /// Where one input has an epoch for each value, the others have to be `every epoch`, and without such an input none may be.
    #[error("an input whose epochs aren't said")]
    NoEpochs,
}

impl Fault {
    /// The number of the refusal.
    pub fn code(self) -> u8 {
        match self {
            Fault::Malformed => MALFORMED,
            Fault::UnknownKind => UNKNOWN_KIND,
            Fault::BadValue => BAD_VALUE,
            Fault::NameInUse => NAME_IN_USE,
            Fault::WrongColumns => WRONG_COLUMNS,
            Fault::BadEpochs => BAD_EPOCHS,
            Fault::NoEpochs => NO_EPOCHS,
        }
    }
}

const MALFORMED: u8 = 51;

const UNKNOWN_KIND: u8 = 52;

const BAD_VALUE: u8 = 53;

const NAME_IN_USE: u8 = 54;

const WRONG_COLUMNS: u8 = 55;

const BAD_EPOCHS: u8 = 56;

const NO_EPOCHS: u8 = 57;
