//! The commands and options that the help, the manual page and the completion list: each as a text `run --watch`, or `run` for the command itself.

use std::alloc::{AllocError, Global};

/// An option by its forms, `--watch`, or `-e` and `--inline`.
#[derive(Clone, Copy)]
pub struct Forms<'a> {
    first: &'a str,
    second: Option<&'a str>,
}

impl<'a> Forms<'a> {
    /// The form with two hyphens.
    fn long(self) -> &'a str {
        self.second.unwrap_or(self.first)
    }

    /// Whether it asks for the help itself.
    fn is_help(self) -> bool {
        self.long() == "--help"
    }
}

/// A command, and the options that its help lists.
#[derive(Drop)]
pub struct Listed<'a> {
    pub command: &'a str,
    pub options: Vec<Forms<'a>>,
}

/// The lines of a help text under a heading, up to an empty one.
fn lines_under<'a>(
    alloc: Global,
    help: &'a str,
    heading: &str,
) -> Result<Vec<&'a str>, AllocError> {
    let mut found = Vec::new(alloc);
    for line in help
        .lines()
        .skip_while(|line| *line != heading)
        .skip(1)
        .take_while(|line| !line.is_empty())
    {
        found.push(line.trim())?;
    }
    Ok(found)
}

/// The text before a mark, or all of it where there is none.
fn before<'a>(text: &'a str, mark: &str) -> &'a str {
    match text.split_once(mark) {
        Some((front, _)) => front,
        None => text,
    }
}

/// The commands that the program's help lists.
pub fn commands_of<'a>(alloc: Global, help: &'a str) -> Result<Vec<&'a str>, AllocError> {
    let mut names = Vec::new(alloc);
    for line in lines_under(alloc, help, "Commands:")? {
        names.push(before(line, " "))?;
    }
    Ok(names)
}

/// The options that a help lists.
pub fn options_of<'a>(alloc: Global, help: &'a str) -> Result<Vec<Forms<'a>>, AllocError> {
    let mut options = Vec::new(alloc);
    for line in lines_under(alloc, help, "Options:")? {
        let forms = before(before(line, "  "), " <");
        options.push(match forms.split_once(", ") {
            Some((first, second)) => Forms {
                first,
                second: Some(second),
            },
            None => Forms {
                first: forms,
                second: None,
            },
        })?;
    }
    Ok(options)
}

/// Appends the options that aren't there.
pub fn add_options<'a>(
    options: &mut Vec<Forms<'a>>,
    others: Vec<Forms<'a>>,
) -> Result<(), AllocError> {
    for other in others {
        if !options.iter().any(|option| option.long() == other.long()) {
            options.push(other)?;
        }
    }
    Ok(())
}

/// Appends `COMMAND` or `COMMAND OPTION`.
fn push_entry(
    alloc: Global,
    entries: &mut Vec<String>,
    command: &str,
    option: &str,
) -> Result<(), AllocError> {
    let text = format!(in alloc; "{command} {option}")?;
    entries.push(String::from_str(alloc, text.as_str().trim())?)?;
    Ok(())
}

/// What the completion should list: the commands, and of each that has more than the help the options with two hyphens.
pub fn to_complete(alloc: Global, help: &[Listed<'_>]) -> Result<Vec<String>, AllocError> {
    let mut entries = Vec::new(alloc);
    for listed in help {
        push_entry(alloc, &mut entries, listed.command, "")?;
        if listed.options.len() > 1 {
            for option in &listed.options {
                push_entry(alloc, &mut entries, listed.command, option.long())?;
            }
        }
    }
    Ok(entries)
}

/// What the completion lists, in lines `commands="..."` and `COMMAND) words="..."`.
pub fn completed(alloc: Global, page: &str) -> Result<Vec<String>, AllocError> {
    let mut entries = Vec::new(alloc);
    for line in page.lines() {
        if let Some((_, names)) = line.split_once(" commands=\"") {
            for name in before(names, "\"").split(' ') {
                push_entry(alloc, &mut entries, name, "")?;
            }
        }
        if let Some((command, words)) = line.split_once(") words=\"") {
            for word in before(words, "\"").split(' ') {
                push_entry(alloc, &mut entries, command.trim(), word)?;
            }
        }
    }
    Ok(entries)
}

/// What the manual page should list: under each command its options by their first forms, but for the help; and all forms of any option.
pub fn to_describe(
    alloc: Global,
    help: &[Listed<'_>],
    own: &[Forms<'_>],
) -> Result<Vec<String>, AllocError> {
    let mut entries = Vec::new(alloc);
    for listed in help {
        push_entry(alloc, &mut entries, listed.command, "")?;
        for option in &listed.options {
            if !option.is_help() {
                push_entry(alloc, &mut entries, listed.command, option.first)?;
            }
            push_forms(alloc, &mut entries, *option)?;
        }
    }
    for option in own {
        push_forms(alloc, &mut entries, *option)?;
    }
    Ok(entries)
}

/// Appends each form of an option, of no command.
fn push_forms(
    alloc: Global,
    entries: &mut Vec<String>,
    option: Forms<'_>,
) -> Result<(), AllocError> {
    push_entry(alloc, entries, "", option.first)?;
    match option.second {
        Some(second) => push_entry(alloc, entries, "", second),
        None => Ok(()),
    }
}

/// What the manual page lists: in the synopsis, after `.Nm`, lines `.Cm COMMAND`, `.Fl OPTION` and `.Op Fl OPTION`; and lines `.It Fl OPTION` or `.It Fl OPTION , Fl OPTION`.
/// The option `--build` is the script's own.
pub fn described(alloc: Global, page: &str) -> Result<Vec<String>, AllocError> {
    let mut entries = Vec::new(alloc);
    let mut command = String::new(alloc);
    for line in before(page, ".Sh DESCRIPTION").lines() {
        if line == ".Nm" {
            command = String::new(alloc);
        }
        if let Some(name) = line.strip_prefix(".Cm ") {
            command = format!(in alloc; "{name}")?;
            push_entry(alloc, &mut entries, name, "")?;
        }
        let option = line.strip_prefix(".Op Fl ");
        if let Some(option) = option.or(line.strip_prefix(".Fl ")) {
            push_flag(alloc, &mut entries, command.as_str(), option)?;
        }
    }
    for line in page.lines() {
        if let Some(options) = line.strip_prefix(".It Fl ") {
            for option in options.split(',') {
                let option = option.trim();
                let option = option.strip_prefix("Fl ").unwrap_or(option);
                if option != "-build" {
                    push_flag(alloc, &mut entries, "", option)?;
                }
            }
        }
    }
    Ok(entries)
}

/// Appends an option of the manual page, which has a hyphen less, and perhaps an argument.
fn push_flag(
    alloc: Global,
    entries: &mut Vec<String>,
    command: &str,
    option: &str,
) -> Result<(), AllocError> {
    let name = before(option, " ");
    let flag = format!(in alloc; "-{name}")?;
    push_entry(alloc, entries, command, flag.as_str())
}

/// The first list's entries that the second doesn't have.
pub fn lacking<'a>(
    alloc: Global,
    entries: &'a [String],
    others: &[String],
) -> Result<Vec<&'a str>, AllocError> {
    let mut found = Vec::new(alloc);
    for entry in entries {
        if !others.iter().any(|other| other == entry) {
            found.push(entry.as_str())?;
        }
    }
    Ok(found)
}
