//! Why a command line is refused.

ghost use Rattle.std.specs.Prelude.{◌≡◌};
ghost use Rattle.command_line.specs.Faults.{line_status_of};

use clap::Error;

/// Why a line is refused.
#[derive(Debug, Drop, thiserror::Error)]
pub enum LineFault {
    #[error("out of memory")]
    NoMemory,
    /// The word after `--workers` is no number of workers.
    #[error("error: invalid value '{word}' for '--workers <N>': {word} is not in 1..=64")]
    Workers {
        word: String,
    },
    /// The word after `--heap` is no size of a heap.
    #[error("error: invalid value '{word}' for '--heap <BYTES>': {word} is not in 64..=16777216")]
    Heap {
        word: String,
    },
    /// The word after `--first-epoch` is no number of an epoch.
    #[error("error: invalid value '{word}' for '--first-epoch <E>': {word} is not in 0..=9223372036854775807")]
    FirstEpoch {
        word: String,
    },
    /// The word after `--dialect` is no database's.
    #[error("error: invalid value '{word}' for '--dialect <NAME>': {word} is not postgres, sqlite or spark")]
    Dialect {
        word: String,
    },
    /// Numbers are to wrap where they can't.
    #[error("error: '--wrapped' cannot be used with '--dialect sqlite': SQLite has no numbers of more than 64 bits")]
    Unwrapped,
    /// One statement is asked for, and not for PostgreSQL.
    #[error("error: '--with' cannot be used with '--dialect {word}': one statement is for PostgreSQL alone")]
    Statement {
        word: String,
    },
    /// An option that the command doesn't take, and others do: its name, and theirs.
    #[error("error: unexpected argument '--{option}' found; it is an option of {commands}")]
    Misplaced {
        option: String,
        commands: String,
    },
    /// An option that no command takes, as it was written; the command, and the options that it takes.
    #[error("error: unexpected argument '{option}' found; the options of 'loom {command}' are {options}")]
    Unknown {
        option: String,
        command: String,
        options: String,
    },
    /// The first word is no command: the word, and the commands.
    #[error("error: unrecognized subcommand '{word}'; the commands are {commands}; a query is answered by loom run QUERY INPUT")]
    Unrecognized {
        word: String,
        commands: String,
    },
    /// Both texts are to be standard input.
    #[error("error: only one of the two files can be '-', which is standard input")]
    InputTwice,
    /// A word of the line is no UTF-8 text.
    #[error("error: invalid UTF-8 was detected in one or more arguments")]
    NoText,
    /// The words were taken, and yet hold no command or not all of its words. No line is known at which it comes.
    #[error("error: the arguments hold no command")]
    NoCommand,
    /// The words are none of a command, or they ask for help: with the text to be shown, whose last line is ended.
    #[error(transparent)]
    Line(Error),
}

impl LineFault {
    /// The status that the program ends with.
    pub fn status(&self) -> u8
        ensures { result ≡ line_status_of self.now }
    {
        match self {
            LineFault::NoMemory => 5,
            LineFault::Workers { .. }
            | LineFault::Heap { .. }
            | LineFault::FirstEpoch { .. }
            | LineFault::Dialect { .. }
            | LineFault::Unwrapped
            | LineFault::Statement { .. }
            | LineFault::Misplaced { .. }
            | LineFault::Unknown { .. }
            | LineFault::Unrecognized { .. }
            | LineFault::InputTwice
            | LineFault::NoText
            | LineFault::NoCommand
            | LineFault::Line(_) => 2,
        }
    }
}
