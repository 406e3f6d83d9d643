//! The words of `encode`, `decode` and `kinds`, read by `clap`.

ghost use Rattle.std.specs.Prelude.{◌≡◌, IfOk, IfSome, codes, map, option_map};
ghost use Rattle.clap.specs.Words.{HasMatchesOf, all_of, found_of, rows_of};
ghost use Rattle.command_line.specs.Usages.{with_usages};
ghost use Rattle.table_words.specs.Line.{Asks, HoldsAt, line_app, top_app};

use clap::error::ErrorKind;
use clap::{ArgMatches, Command, Error};
use command_line::{Form, Parameter, Usage, flag_of, text_of, with_usages};
use std::alloc::{AllocError, Global};

/// What `decode` is asked for.
#[derive(Clone, Copy)]
pub struct Decoding<'a> {
    pub schema: &'a str,
    pub answer: &'a str,
    pub dictionary: Option<&'a str>,
    pub output: Option<&'a str>,
}

/// What `kinds` is asked for.
#[derive(Clone, Copy)]
pub struct Listing<'a> {
    pub schema: &'a str,
    pub query: &'a str,
}

/// What a line of words asks for.
#[derive(Drop)]
pub enum Asked<'a> {
    /// `loom encode SCHEMA NAME=FILE ..`, with or without `--dictionary FILE`; with `--end-mark` a line `end` is to end the input text
    Encode {
        schema: &'a str,
        files: Vec<&'a str>,
        dictionary: Option<&'a str>,
        end_mark: bool,
    },
    /// `loom decode SCHEMA ANSWER`, with or without `--dictionary FILE` and `--output NAME`
    Decode(Decoding<'a>),
    /// `loom kinds SCHEMA QUERY`
    Kinds(Listing<'a>),
}

/// Why a line is refused.
#[derive(Drop)]
pub enum LineError {
    Words(Error),
    NoMemory,
}

impl From<AllocError> for LineError {
    fn from(_e: AllocError) -> LineError {
        LineError::NoMemory
    }
}

/// The option `--dictionary FILE`.
pub const DICTIONARY: Parameter<'static> = Parameter {
    name: "dictionary",
    form: Form::Named("FILE"),
    about: "The file that keeps the numbers of texts",
};

/// The option `--output NAME`.
pub const OUTPUT: Parameter<'static> = Parameter {
    name: "output",
    form: Form::Named("NAME"),
    about: "The output, if the schema has several",
};

/// The words of the inputs' files.
pub const FILES: Parameter<'static> = Parameter {
    name: "NAME=FILE",
    form: Form::Words,
    about: "An input's name, =, and its CSV file; - is standard input",
};

/// The word of the schema.
const SCHEMA: Parameter<'static> = Parameter {
    name: "SCHEMA",
    form: Form::Word,
    about: "The file with the schema; - is standard input",
};

const ENCODE: Usage<'static> = Usage {
    name: "encode",
    about: "Write CSV files as an input, by a schema",
    parameters: &[
        DICTIONARY,
        Parameter {
            name: "end-mark",
            form: Form::Flag,
            about: "End the input with a line 'end', for run --end-mark",
        },
        SCHEMA,
        FILES,
    ],
};

const DECODE: Usage<'static> = Usage {
    name: "decode",
    about: "Write an answer as a CSV file, by a schema",
    parameters: &[
        DICTIONARY,
        OUTPUT,
        SCHEMA,
        Parameter {
            name: "ANSWER",
            form: Form::OptionalWord,
            about: "The file with the answer; without it, and with -, standard input",
        },
    ],
};

const KINDS: Usage<'static> = Usage {
    name: "kinds",
    about: "Check what a query computes by a schema, and say what its fields stand for",
    parameters: &[
        SCHEMA,
        Parameter {
            name: "QUERY",
            form: Form::Word,
            about: "The file with the query; - is standard input",
        },
    ],
};

const COMMANDS: &[Usage<'static>] = &[ENCODE, DECODE, KINDS];

/// The texts of an argument.
pub fn texts_of<'f, 'a>(found: &'f ArgMatches<'a>, id: &str) -> Option<&'f [&'a str]>
    ensures { option_map (λ v. map (λ s. s.now) v.now) result ≡ all_of id.now (rows_of (found_of found.now)) }
{
    found.get_strs(id)
}

/// What the matches of `encode` hold.
fn encode_asked<'a>(alloc: Global, found: &ArgMatches<'a>) -> Result<Option<Asked<'a>>, AllocError>
    ensures { IfOk result (λ asked. IfSome asked (HoldsAt (codes "encode") (rows_of (found_of found.now)))) }
{
    let Some(schema) = text_of(found, "SCHEMA") else {
        return Ok(None);
    };
    let Some(words) = texts_of(found, "NAME=FILE") else {
        return Ok(None);
    };
    let files = Vec::from_slice(alloc, words)?;
    let dictionary = text_of(found, "dictionary");
    let end_mark = flag_of(found, "end-mark");
    Ok(Some(Asked::Encode {
        schema,
        files,
        dictionary,
        end_mark,
    }))
}

/// What the matches of `decode` hold.
fn decode_asked<'a>(found: &ArgMatches<'a>) -> Option<Asked<'a>>
    ensures { IfSome result (HoldsAt (codes "decode") (rows_of (found_of found.now))) }
{
    Some(Asked::Decode(Decoding {
        schema: text_of(found, "SCHEMA")?,
        answer: text_of(found, "ANSWER").unwrap_or("-"),
        dictionary: text_of(found, "dictionary"),
        output: text_of(found, "output"),
    }))
}

/// What the matches of `kinds` hold.
fn kinds_asked<'a>(found: &ArgMatches<'a>) -> Option<Asked<'a>>
    ensures { IfSome result (HoldsAt (codes "kinds") (rows_of (found_of found.now))) }
{
    Some(Asked::Kinds(Listing {
        schema: text_of(found, "SCHEMA")?,
        query: text_of(found, "QUERY")?,
    }))
}

/// What the matches of the command of that name hold.
fn asked_at<'a>(
    alloc: Global,
    name: &str,
    found: &ArgMatches<'a>,
) -> Result<Option<Asked<'a>>, AllocError>
    ensures { IfOk result (λ asked. IfSome asked (HoldsAt name.now (rows_of (found_of found.now)))) }
{
    match name {
        "encode" => encode_asked(alloc, found),
        "decode" => Ok(decode_asked(found)),
        "kinds" => Ok(kinds_asked(found)),
        _ => Ok(None),
    }
}

/// The matches of the words by a line with these commands.
pub fn matches_of<'a>(
    alloc: Global,
    usages: &[Usage<'a>],
    words: &'a [&'a str],
) -> Result<ArgMatches<'a>, LineError>
    ensures { IfOk result (HasMatchesOf (with_usages top_app usages.now) (map (λ s. s.now) words.entry.now)) }
{
    let top = Command::new(alloc, "loom").subcommand_required(true);
    let line = with_usages(alloc, top, usages)?;
    match line.try_get_matches_from(words) {
        Ok(found) => Ok(found),
        Err(error) => match error.kind() {
            ErrorKind::OutOfMemory => Err(LineError::NoMemory),
            _ => Err(LineError::Words(error)),
        },
    }
}

fn line_matches<'a>(alloc: Global, words: &'a [&'a str]) -> Result<ArgMatches<'a>, LineError>
    ensures { IfOk result (HasMatchesOf line_app (map (λ s. s.now) words.entry.now)) }
{
    matches_of(alloc, COMMANDS, words)
}

/// What the words ask for; `None` where they hold no command after all.
#[tactic(auto, unfolding(crate::specs::Line::Asks))]
pub fn read_words<'a>(alloc: Global, words: &'a [&'a str]) -> Result<Option<Asked<'a>>, LineError>
    ensures { IfOk result (λ asked. IfSome asked (Asks (map (λ s. s.now) words.entry.now))) }
{
    let found = line_matches(alloc, words)?;
    match found.subcommand() {
        None => Ok(None),
        Some((name, matches)) => Ok(asked_at(alloc, name, matches)?),
    }
}
