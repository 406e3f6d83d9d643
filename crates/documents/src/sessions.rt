//! Console sessions in a Markdown text: what was typed, and what it printed.

use std::alloc::{AllocError, Global};

/// A command of a session.
#[derive(Drop)]
pub struct Session<'a> {
    /// The number of its line, from 1.
    pub line: usize,
    /// The command, without `$ `.
    pub typed: &'a str,
    /// The lines under it, each with its line feed.
    pub printed: String,
}

/// The fence round a block of code.
const FENCE: &str = "```";

/// What a line is to the sessions of a text.
enum Line<'a> {
    /// A command, without `$ `.
    Typed(&'a str),
    /// What a command prints.
    Printed(&'a str),
    /// An empty line, which may be a part of what is printed.
    Empty,
    /// No line of a code block.
    Outside,
}

/// What a line is. A line of a code block is between fences or begins with four spaces.
fn line_of<'a>(line: &'a str, is_fenced: bool) -> Line<'a> {
    if line.is_empty() {
        return Line::Empty;
    }
    let inside = if is_fenced {
        Some(line)
    } else {
        line.strip_prefix("    ")
    };
    match inside {
        Some(code) if !line.starts_with(FENCE) => match code.strip_prefix("$ ") {
            Some(typed) => Line::Typed(typed),
            None => Line::Printed(code),
        },
        _ => Line::Outside,
    }
}

/// Appends a line to what a session prints, after the empty lines before it.
fn add_line(session: &mut Session, empty: usize, text: &str) -> Result<(), AllocError> {
    for _ in 0..empty {
        session.printed.push_str("\n")?;
    }
    session.printed.push_str(text)?;
    session.printed.push_str("\n")?;
    Ok(())
}

/// The sessions of a text, in order. Each begins with a line `$ ..` of a code block, and what it prints reaches to the next such line
/// or to the end of the block, without the empty lines there.
pub fn sessions<'a>(alloc: Global, text: &'a str) -> Result<Vec<Session<'a>>, AllocError> {
    let mut found = Vec::new(alloc);
    let mut open: Option<Session<'a>> = None;
    let mut is_fenced = false;
    let mut empty = 0usize;
    for (before, line) in text.lines().enumerate() {
        if line.starts_with(FENCE) {
            is_fenced = !is_fenced;
        }
        match line_of(line, is_fenced) {
            Line::Typed(typed) => {
                let session = Session {
                    line: before.saturating_add(1),
                    typed,
                    printed: String::new(alloc),
                };
                if let Some(last) = open.replace(session) {
                    found.push(last)?;
                }
                empty = 0;
            }
            Line::Printed(code) => {
                if let Some(session) = &mut open {
                    add_line(session, empty, code)?;
                }
                empty = 0;
            }
            Line::Empty => empty = empty.saturating_add(1),
            Line::Outside => {
                if let Some(last) = open.take() {
                    found.push(last)?;
                }
            }
        }
    }
    if let Some(last) = open {
        found.push(last)?;
    }
    Ok(found)
}
