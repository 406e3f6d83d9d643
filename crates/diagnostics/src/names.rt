//! Names that a reader of a query may have meant.

use crate::bracket::{FORMS, is_form, shape_of};
use crate::display::Part::{Text, Word};
use crate::display::{write_line, write_parts};
use crate::words::{is_among, split_word};
use bumpalo::Bump;
use expr_tree::Program;
use parser::parse;
use record_core::{Keyword, Span};
use std::alloc::{Allocator, Global};
use std::io;
use std::io::Write;

/// How many bytes two names share at their beginnings.
fn shared_front(left: &[u8], right: &[u8]) -> usize {
    let mut count: usize = 0;
    for (first, second) in left.iter().zip(right.iter()) {
        if first != second {
            break;
        }
        count = count.saturating_add(1);
    }
    count
}

/// How many bytes two names share at their ends.
fn shared_back(left: &[u8], right: &[u8]) -> usize {
    let mut count: usize = 0;
    for (first, second) in left.iter().rev().zip(right.iter().rev()) {
        if first != second {
            break;
        }
        count = count.saturating_add(1);
    }
    count
}

/// Whether two names differ in at most two bytes side by side, and share two others at their ends.
pub fn is_like(left: &[u8], right: &[u8]) -> bool {
    let front = shared_front(left, right);
    let shorter = left.len().min(right.len());
    let longer = left.len().max(right.len());
    let back = shared_back(left, right).min(shorter.saturating_sub(front));
    let shared = front.saturating_add(back);
    longer.saturating_sub(shared) <= 2 && shared >= 2
}

/// What a word means that is no name at its place: a name that may be empty, and what comes before and after it.
type Meaning<'a> = (&'static str, &'a [u8], &'static str);

/// That a name is meant by a word, if it is a similar one before the word's place, or the same one behind it or around it.
fn meant<'a>(name: &'a [u8], place: Span, word: &[u8], span: Span) -> Option<Meaning<'a>> {
    if place.start > span.start && name == word {
        Some((": it is named further down", &[], ""))
    } else if name == word {
        let text = ": a let can't use itself; a loop does, as in closure(3; x = a; select(x; #0))";
        Some((text, &[], ""))
    } else if place.start < span.start && is_like(name, word) {
        Some(("; did you mean ", name, "?"))
    } else {
        None
    }
}

/// Whether a word names an output and no relation.
fn is_output<A: Allocator>(program: &Program<A>, word: &[u8]) -> bool {
    for item in program.lets.iter() {
        if item.name.bytes() == word {
            return false;
        }
    }
    for output in program.outputs.iter() {
        if output.name.bytes() == word {
            return true;
        }
    }
    false
}

/// Whether a part of a query, behind a `;`, begins with a loop's variable of that name.
fn is_head_of(part: &[u8], word: &[u8]) -> bool {
    let part = part.trim_ascii_start();
    match part.get(word.len()..) {
        Some(rest) => part.starts_with(word) && rest.trim_ascii_start().starts_with(b"="),
        None => false,
    }
}

/// Whether a word names the variable of a loop: in a query nothing else comes between a `;` and a `=`.
fn is_variable(text: &[u8], word: &[u8]) -> bool {
    for (at, byte) in text.iter().enumerate() {
        let behind = text.get(at.saturating_add(1)..).unwrap_or(&[]);
        if *byte == b';' && is_head_of(behind, word) {
            return true;
        }
    }
    is_head_of(text, word)
}

/// Which input or let of a program is meant by a word, if one is, or how the form is written that the word names.
fn named<'a, A: Allocator>(
    program: &'a Program<A>,
    word: &[u8],
    span: Span,
) -> Option<Meaning<'a>> {
    for input in program.inputs.iter() {
        let meaning = meant(input.name.bytes(), input.name_span, word, span);
        if meaning.is_some() {
            return meaning;
        }
    }
    for item in program.lets.iter() {
        let meaning = meant(item.name.bytes(), item.name_span, word, span);
        if meaning.is_some() {
            return meaning;
        }
    }
    let shape = shape_of(word)?;
    Some(("; ", &[], shape))
}

/// Writes what a word means.
fn write_meaning<W: Write>(meaning: Meaning<'_>, writer: &mut W) -> io::Result<()> {
    let (front, name, end) = meaning;
    write_parts(&[Text(front), Word(name), Text(end)], writer)
}

/// Writes what a word that names no relation at its place means elsewhere in the query, or which name is meant by it.
fn write_similar<W: Write>(
    alloc: Global,
    text: &[u8],
    word: &[u8],
    span: Span,
    writer: &mut W,
) -> io::Result<()> {
    let arena = Bump::new(alloc);
    let Ok(program) = parse(&arena, text) else {
        return Ok(());
    };
    if is_output(&program, word) {
        write_parts(
            &[
                Text(": it names an output; write let "),
                Word(word),
                Text(" = ..; before the outputs, and output "),
                Word(word),
                Text(" = "),
                Word(word),
                Text(";"),
            ],
            writer,
        )
    } else if is_variable(text, word) {
        let hint = ": it is a loop's variable, which is known in that loop's body alone";
        write_parts(&[Text(hint)], writer)
    } else {
        match named(&program, word, span) {
            Some(meaning) => write_meaning(meaning, writer),
            None => Ok(()),
        }
    }
}

/// Writes that no relation has that name, and which one is meant.
pub fn write_unknown<W: Write>(
    alloc: Global,
    text: &[u8],
    word: &[u8],
    span: Span,
    writer: &mut W,
) -> io::Result<()> {
    let parts = [Text("no relation is called "), Word(word), Text(" here")];
    write_parts(&parts, writer)?;
    write_similar(alloc, text, word, span, writer)?;
    write_line(&[], writer)
}

/// The word before a bracket where it stands as the name of a form, and is none.
pub fn form_name(before: &[u8]) -> Option<&[u8]> {
    let (front, word) = split_word(before);
    let (_, first) = split_word(front);
    if is_name(word) && !is_form(word) && !is_among(&["input", "let"], first) {
        Some(word)
    } else {
        None
    }
}

/// The form whose name is like a word.
fn similar_form(word: &[u8]) -> Option<&'static str> {
    for form in FORMS {
        if is_like(form.as_bytes(), word) {
            return Some(form);
        }
    }
    None
}

/// Writes that a word names no form, and which form is meant.
pub fn write_no_form<W: Write>(word: &[u8], writer: &mut W) -> io::Result<()> {
    let (hint, form, end) = match similar_form(word) {
        Some(form) => ("did you mean ", form, "?"),
        None => (
            "the forms are select, where, concat, except, intersect, join, group, distinct, iterate and closure",
            "",
            "",
        ),
    };
    let parts = [
        Word(word),
        Text(" is not a form; "),
        Text(hint),
        Text(form),
        Text(end),
    ];
    write_line(&parts, writer)
}

/// Whether a word could be the name of a relation.
pub fn is_name(word: &[u8]) -> bool {
    matches!(word, [b'a'..=b'z', ..]) && Keyword::of(word).is_none()
}
