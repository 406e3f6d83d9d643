//! What a refusal's number means, as it is printed.

ghost use Rattle.std.specs.Prelude.{◌≡◌, ◌++◌, true, decimal, IfOk, IfSome, OnOk, IsErrOf};
ghost use Rattle.collector.specs.Watching.{has_failed, inner_of};
ghost use Rattle.diagnostics.specs.Explanations.{ExplanationEnds, example_text, examples_text, explanation_text, indented, place_text};
ghost use Rattle.diagnostics.specs.declared.fault.Fault.TheVariants as fault;

use crate::fault::Fault;
use collector::{Watched, put};
use decimal::number;
use itoa::Buffer;
use refusals::{Explanation, explanation_of};
use std::alloc::{AllocError, Global};
use std::io::Write;

/// What the table says of the number that a word spells. None where no row has that number.
pub fn row_of_word(word: &str) -> Option<&'static Explanation>
    ensures { IfSome result (λ row. word.now ≡ decimal row.now.code) }
{
    let number = number(word.as_bytes())?;
    let code = u8::try_from(number).ok()?;
    explanation_of(code)
}

/// Appends what the place covers, in brackets, where there is one.
fn push_place(text: &mut Vec<u8>, place: &[u8]) -> Result<(), AllocError>
    ensures { OnOk result (text.new.items ≡ text.old.items ++ place_text place.now) }
{
    if !place.is_empty() {
        text.extend_from_slice(b" (the place covers ")?;
        text.extend_from_slice(place)?;
        text.extend_from_slice(b")")?;
    }
    Ok(())
}

/// Appends lines, each but the first after four spaces, without the last one's line feed.
fn push_indented(text: &mut Vec<u8>, lines: &[u8]) -> Result<(), AllocError>
    ensures { OnOk result (text.new.items ≡ text.old.items ++ indented lines.now) }
{
    if let Some((byte, rest)) = lines.split_first() {
        if *byte != b'\n' {
            text.push(*byte)?;
        } else if !rest.is_empty() {
            text.extend_from_slice(b"\n    ")?;
        }
        push_indented(text, rest)?;
    }
    Ok(())
}

/// Appends an example and its label: a query on one line, an input or a schedule on lines of its own.
fn push_example(
    text: &mut Vec<u8>,
    label: &[u8],
    code: u8,
    example: &[u8],
) -> Result<(), AllocError>
    ensures { OnOk result (text.new.items ≡ text.old.items ++ example_text label.now code example.now) }
{
    text.extend_from_slice(label)?;
    if code < 31 {
        text.extend_from_slice(b"  ")?;
    } else {
        text.extend_from_slice(b"\n    ")?;
    }
    push_indented(text, example)?;
    text.extend_from_slice(b"\n")?;
    Ok(())
}

/// Appends the examples, where there are some.
fn push_examples(text: &mut Vec<u8>, row: &Explanation) -> Result<(), AllocError>
    ensures { OnOk result (text.new.items ≡ text.old.items ++ examples_text row.now.code row.now.wrong.now row.now.right.now) }
{
    if !row.wrong.is_empty() {
        text.extend_from_slice(b"\n")?;
        push_example(text, b"wrong:", row.code, row.wrong.as_bytes())?;
        push_example(text, b"right:", row.code, row.right.as_bytes())?;
    }
    Ok(())
}

/// The text of a row.
fn row_text(alloc: Global, row: &Explanation) -> Result<Vec<u8>, AllocError>
    ensures { IfOk result (λ t. t.items ≡ explanation_text row.now) }
{
    let mut buffer = Buffer::new();
    let mut text = Vec::new(alloc);
    text.extend_from_slice(buffer.format(row.code).as_bytes())?;
    text.extend_from_slice(b": ")?;
    text.extend_from_slice(row.summary.as_bytes())?;
    push_place(&mut text, row.place.as_bytes())?;
    text.extend_from_slice(b"\n\n")?;
    text.extend_from_slice(row.text.as_bytes())?;
    text.extend_from_slice(b"\n")?;
    push_examples(&mut text, row)?;
    Ok(text)
}

/// Writes what the table says of a refusal: its number and what is wrong, what it means, and an example with its mended form.
pub fn write_explanation<W: Write>(
    alloc: Global,
    row: &Explanation,
    writer: &mut Watched<W>,
) -> Result<(), Fault>
    ensures ends { ExplanationEnds row.now (W.contents (inner_of writer.old)) (W.contents (inner_of writer.new)) result }
    ensures writer { IsErrOf result fault.Write → has_failed writer.new ≡ true }
{
    let text = match row_text(alloc, row) {
        Ok(text) => text,
        Err(_) => return Err(Fault::NoMemory),
    };
    match put(writer, text.as_slice()) {
        Ok(()) => Ok(()),
        Err(_) => Err(Fault::Write),
    }
}
