//! What is told of words that clap doesn't take: which commands take an option, which options and commands there are, and which number is out of
//! its range.

ghost use Rattle.std.specs.Prelude.{◌≡◌, IfOk, IfSome};
ghost use Rattle.command_line.specs.Faults.{IsOfWords};

use crate::line_fault::LineFault;
use crate::usage::Usage;
use crate::usages::COMMANDS;
use clap::Error;
use clap::error::ErrorKind;
use std::alloc::{AllocError, Global};

/// The text between two others, of which the first is at the beginning.
fn between<'a>(text: &'a str, before: &str, after: &str) -> Option<&'a str> {
    let rest = text.strip_prefix(before)?;
    let (found, _) = rest.split_once(after)?;
    Some(found)
}

/// The option that clap doesn't expect, by the text of its error.
fn unexpected_option(text: &str) -> Option<&str> {
    between(text, "error: unexpected argument '--", "' found")
}

/// The command whose usage the text of an error shows.
fn used_command(text: &str) -> Option<&str> {
    let (_, usage) = text.split_once("\nUsage: loom ")?;
    let (name, _) = usage.split_once(' ')?;
    Some(name)
}

/// Whether a command takes an option of that name.
fn is_taken(usage: &Usage<'_>, option: &str) -> bool {
    for parameter in usage.parameters {
        if parameter.option_name() == Some(option) {
            return true;
        }
    }
    false
}

/// The names of the commands that take an option.
fn owners<'a>(
    alloc: Global,
    usages: &[Usage<'a>],
    option: &str,
) -> Result<Vec<&'a str>, AllocError> {
    let mut names = Vec::new(alloc);
    for usage in usages {
        if is_taken(usage, option) {
            names.push(usage.name)?;
        }
    }
    Ok(names)
}

/// The options of a command, by its name.
fn options_of<'a>(
    alloc: Global,
    usages: &[Usage<'a>],
    command: &str,
) -> Result<Vec<&'a str>, AllocError> {
    let mut options = Vec::new(alloc);
    for usage in usages {
        if usage.name == command {
            for parameter in usage.parameters {
                if let Some(option) = parameter.option_name() {
                    options.push(option)?;
                }
            }
        }
    }
    Ok(options)
}

/// The names of the commands.
fn command_names<'a>(alloc: Global, usages: &[Usage<'a>]) -> Result<Vec<&'a str>, AllocError> {
    let mut names = Vec::new(alloc);
    for usage in usages {
        names.push(usage.name)?;
    }
    Ok(names)
}

/// Names as they are listed, each after the same text and in quotes: `'loom run'`, `'loom check' and 'loom graph'`.
fn listed(alloc: Global, before: &str, names: &[&str]) -> Result<String, AllocError> {
    let mut text = String::new(alloc);
    for (index, name) in names.iter().enumerate() {
        let separator = if index == 0 {
            ""
        } else if index.saturating_add(1) == names.len() {
            " and "
        } else {
            ", "
        };
        write!(text, "{separator}'{before}{name}'")?;
    }
    Ok(text)
}

/// The fault of an option that the command doesn't take, and these do.
fn misplaced_option(
    alloc: Global,
    option: &str,
    owners: &[&str],
) -> Result<Option<LineFault>, AllocError>
    ensures { IfOk result (λ told. IfSome told IsOfWords) }
{
    let option = String::from_str(alloc, option)?;
    let commands = listed(alloc, "loom ", owners)?;
    Ok(Some(LineFault::Misplaced { option, commands }))
}

/// The fault of an option that no command takes, as clap names it, and the options of the command.
fn option_of_none(
    alloc: Global,
    option: &str,
    command: &str,
    options: &[&str],
) -> Result<Option<LineFault>, AllocError>
    ensures { IfOk result (λ told. IfSome told IsOfWords) }
{
    let option = format!(in alloc; "-{option}")?;
    let command = String::from_str(alloc, command)?;
    let options = listed(alloc, "--", options)?;
    Ok(Some(LineFault::Unknown {
        option,
        command,
        options,
    }))
}

/// The same, by the text of clap's error, if no option of the command is similar.
fn unknown_option(
    alloc: Global,
    usages: &[Usage<'_>],
    text: &str,
) -> Result<Option<LineFault>, AllocError>
    ensures { IfOk result (λ told. IfSome told IsOfWords) }
{
    let Some(option) = between(text, "error: unexpected argument '-", "' found") else {
        return Ok(None);
    };
    let Some(command) = used_command(text) else {
        return Ok(None);
    };
    let options = options_of(alloc, usages, command)?;
    if options.is_empty() || text.contains("a similar argument exists") {
        return Ok(None);
    }
    option_of_none(alloc, option, command, options.as_slice())
}

/// The fault of a word that the command doesn't know.
fn unknown_argument(
    alloc: Global,
    usages: &[Usage<'_>],
    text: &str,
) -> Result<Option<LineFault>, AllocError>
    ensures { IfOk result (λ told. IfSome told IsOfWords) }
{
    if let Some(option) = unexpected_option(text) {
        let owners = owners(alloc, usages, option)?;
        if !owners.is_empty() {
            return misplaced_option(alloc, option, owners.as_slice());
        }
    }
    unknown_option(alloc, usages, text)
}

/// The fault of a first word that is no command, if no command is similar.
fn unrecognized_word(
    alloc: Global,
    usages: &[Usage<'_>],
    text: &str,
) -> Result<Option<LineFault>, AllocError>
    ensures { IfOk result (λ told. IfSome told IsOfWords) }
{
    let Some(word) = between(text, "error: unrecognized subcommand '", "'\n") else {
        return Ok(None);
    };
    if text.contains("tip:") {
        return Ok(None);
    }
    let word = String::from_str(alloc, word)?;
    let commands = listed(alloc, "loom ", command_names(alloc, usages)?.as_slice())?;
    Ok(Some(LineFault::Unrecognized { word, commands }))
}

/// The fault of a word that isn't in its option's range.
fn word_out_of_range(alloc: Global, text: &str) -> Result<Option<LineFault>, AllocError>
    ensures { IfOk result (λ told. IfSome told IsOfWords) }
{
    let before = "error: invalid value '";
    if let Some(word) = between(text, before, "' for '--workers <N>': ") {
        let word = String::from_str(alloc, word)?;
        return Ok(Some(LineFault::Workers { word }));
    }
    if let Some(word) = between(text, before, "' for '--heap <BYTES>': ") {
        let word = String::from_str(alloc, word)?;
        return Ok(Some(LineFault::Heap { word }));
    }
    if let Some(word) = between(text, before, "' for '--first-epoch <E>': ") {
        let word = String::from_str(alloc, word)?;
        return Ok(Some(LineFault::FirstEpoch { word }));
    }
    Ok(None)
}

/// The fault of a word that isn't taken, by the kind and the text of clap's error.
fn told_of(alloc: Global, kind: ErrorKind, text: &str) -> Result<Option<LineFault>, AllocError>
    ensures { IfOk result (λ told. IfSome told IsOfWords) }
{
    match kind {
        ErrorKind::ValueValidation => word_out_of_range(alloc, text),
        ErrorKind::UnknownArgument => unknown_argument(alloc, COMMANDS, text),
        ErrorKind::InvalidSubcommand => unrecognized_word(alloc, COMMANDS, text),
        _ => Ok(None),
    }
}

/// The fault of words that clap refuses, where more is told of it than clap's error shows.
pub fn told(alloc: Global, error: &Error) -> Result<Option<LineFault>, AllocError>
    ensures { IfOk result (λ told. IfSome told IsOfWords) }
{
    let kind = error.kind();
    match kind {
        ErrorKind::OutOfMemory => Ok(Some(LineFault::NoMemory)),
        ErrorKind::ValueValidation | ErrorKind::UnknownArgument | ErrorKind::InvalidSubcommand => {
            let text = format!(in alloc; "{error}")?;
            told_of(alloc, kind, text.as_str())
        }
        _ => Ok(None),
    }
}
