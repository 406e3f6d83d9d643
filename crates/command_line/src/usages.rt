//! The commands of the line, as data.

use crate::usage::{Form, Parameter, Usage};

/// The flag `--explain`.
pub const EXPLAIN: Parameter<'static> = Parameter {
    name: "explain",
    form: Form::Flag,
    about: "Show where an error is, and what is wrong there",
};

/// The flag `-e`, or `--inline`.
pub const INLINE: Parameter<'static> = Parameter {
    name: "inline",
    form: Form::LetterFlag('e'),
    about: "QUERY is the query itself, and not a file",
};

/// The word of the query.
pub const QUERY: Parameter<'static> = Parameter {
    name: "QUERY",
    form: Form::Word,
    about: "The file with the query; - is standard input; with -e the query itself",
};

/// The flag `--end-mark`.
const END_MARK: Parameter<'static> = Parameter {
    name: "end-mark",
    form: Form::Flag,
    about: "The input has to end with a line 'end', or it was cut off",
};

/// The option `--workers N`.
pub const WORKERS: Parameter<'static> = Parameter {
    name: "workers",
    form: Form::Number("N", 1, 64),
    about: "Number of workers, 1 to 64; default 1",
};

/// The option `--heap BYTES`.
const HEAP: Parameter<'static> = Parameter {
    name: "heap",
    form: Form::Number("BYTES", 64, 16_777_216),
    about: "Keep the query's tree in a heap of BYTES bytes, 64 to 16777216",
};

const RUN: Usage<'static> = Usage {
    name: "run",
    about: "Answer a query over an input; over CSV files: loom run --help --schema",
    parameters: &[
        WORKERS,
        Parameter {
            name: "watch",
            form: Form::Flag,
            about: "Report on standard error how many epochs have passed",
        },
        Parameter {
            name: "stats",
            form: Form::Flag,
            about: "After the run, report on standard error what each vertex did",
        },
        Parameter {
            name: "dot",
            form: Form::Flag,
            about: "The same as --stats, in a drawing for Graphviz",
        },
        END_MARK,
        EXPLAIN,
        INLINE,
        QUERY,
        Parameter {
            name: "INPUT",
            form: Form::Word,
            about: "The file with the input; - is standard input",
        },
    ],
};

const FOLLOW: Usage<'static> = Usage {
    name: "follow",
    about: "Answer a query as its input arrives, and report each complete epoch",
    parameters: &[
        WORKERS,
        Parameter {
            name: "first-epoch",
            form: Form::Number("E", 0, 9_223_372_036_854_775_807),
            about: "What the first epoch is called; default 0",
        },
        END_MARK,
        EXPLAIN,
        INLINE,
        QUERY,
        Parameter {
            name: "INPUT",
            form: Form::OptionalWord,
            about: "The file with the input; without it, and with -, standard input",
        },
    ],
};

const CHECK: Usage<'static> = Usage {
    name: "check",
    about: "Check a query, and an input if given; print the number of fields of each",
    parameters: &[
        HEAP,
        EXPLAIN,
        INLINE,
        QUERY,
        Parameter {
            name: "INPUT",
            form: Form::OptionalWord,
            about: "An input to check too; - is standard input",
        },
    ],
};

const GRAPH: Usage<'static> = Usage {
    name: "graph",
    about: "Compile a query, and write its dataflow graph",
    parameters: &[
        Parameter {
            name: "dot",
            form: Form::Flag,
            about: "Write the graph for Graphviz to draw",
        },
        HEAP,
        EXPLAIN,
        INLINE,
        QUERY,
    ],
};

const FORMAT: Usage<'static> = Usage {
    name: "format",
    about: "Write a query in its canonical form",
    parameters: &[EXPLAIN, INLINE, QUERY],
};

const SQL: Usage<'static> = Usage {
    name: "sql",
    about: "Write a query as a script of SQL",
    parameters: &[
        Parameter {
            name: "with",
            form: Form::Flag,
            about: "One statement in place of a script, for PostgreSQL",
        },
        Parameter {
            name: "wrapped",
            form: Form::Flag,
            about: "Wrap numbers at 64 bits; else one of more bits ends the script with an error",
        },
        Parameter {
            name: "epochs",
            form: Form::Flag,
            about: "All epochs at once: the first column of each table is the epoch",
        },
        Parameter {
            name: "dialect",
            form: Form::Named("NAME"),
            about: "The database: postgres, sqlite or spark; default postgres",
        },
        Parameter {
            name: "output",
            form: Form::Named("NAME"),
            about: "Only the output of that name, and the tables that it needs",
        },
        EXPLAIN,
        INLINE,
        QUERY,
    ],
};

const REPLAY: Usage<'static> = Usage {
    name: "replay",
    about: "Run a schedule step by step, and print what it asks for",
    parameters: &[
        WORKERS,
        Parameter {
            name: "views",
            form: Form::Flag,
            about: "Give each worker a view of its own; lines `v W S` bring it up to date",
        },
        EXPLAIN,
        INLINE,
        QUERY,
        Parameter {
            name: "SCHEDULE",
            form: Form::Word,
            about: "The file with the schedule; - is standard input",
        },
    ],
};

const EXPLAIN_CODE: Usage<'static> = Usage {
    name: "explain",
    about: "Explain an error number, with examples",
    parameters: &[Parameter {
        name: "CODE",
        form: Form::Word,
        about: "An error number, such as 13",
    }],
};

const ENCODE: Usage<'static> = Usage {
    name: "encode",
    about: "Write CSV files as an input, by a schema",
    parameters: &[],
};

const DECODE: Usage<'static> = Usage {
    name: "decode",
    about: "Write an answer as a CSV file, by a schema",
    parameters: &[],
};

const KINDS: Usage<'static> = Usage {
    name: "kinds",
    about: "Say what a query's fields stand for, by a schema",
    parameters: &[],
};

/// All commands. What `encode`, `decode` and `kinds` take is read apart.
pub const COMMANDS: &[Usage<'static>] = &[
    RUN,
    FOLLOW,
    CHECK,
    GRAPH,
    FORMAT,
    SQL,
    REPLAY,
    EXPLAIN_CODE,
    ENCODE,
    DECODE,
    KINDS,
];
