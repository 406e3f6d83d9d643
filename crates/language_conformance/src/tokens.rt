//! Tokens of texts.

use crate::texts::{add, place, refused, word};
use bumpalo::Bump;
use lexer::{Token, TokenKind, lex};
use linked_list_allocator::LocalHeap;
use record_core::Refusal;
use std::alloc::{AllocError, Allocator, Global};

/// A token: what it is, and where.
fn shown(alloc: Global, token: &Token) -> Result<String, AllocError> {
    let place = place(alloc, token.span)?;
    match token.kind {
        TokenKind::Name => format!(in alloc; "name {place}"),
        TokenKind::Number(number) => format!(in alloc; "{number} {place}"),
        TokenKind::Column(column) => format!(in alloc; "#{column} {place}"),
        TokenKind::Mark(mark) => marked(alloc, mark.text(), place.as_str()),
        TokenKind::Keyword(keyword) => marked(alloc, keyword.text(), place.as_str()),
    }
}

/// A word, and where it is.
fn placed(alloc: Global, word: &str, place: &str) -> Result<String, AllocError> {
    format!(in alloc; "{word} {place}")
}

fn marked(alloc: Global, text: &[u8], place: &str) -> Result<String, AllocError> {
    let text = String::from_utf8_lossy(alloc, text)?;
    placed(alloc, text.as_str(), place)
}

/// All tokens of a text, or why it is refused.
pub fn tokens(alloc: Global, text: &[u8]) -> Result<String, AllocError> {
    match lex(alloc, text) {
        Ok(tokens) => listed(alloc, tokens.as_slice()),
        Err(refusal) => refused(alloc, refusal),
    }
}

fn listed(alloc: Global, tokens: &[Token]) -> Result<String, AllocError> {
    let mut list = String::new(alloc);
    for token in tokens {
        add(&mut list, shown(alloc, token)?.as_str())?;
    }
    if list.is_empty() {
        return word(alloc, "nothing");
    }
    Ok(list)
}

/// How many tokens a text has under an allocator.
fn count<A: Allocator>(alloc: A, text: &[u8]) -> Result<usize, Refusal> {
    let tokens = lex(alloc, text)?;
    Ok(tokens.len())
}

/// How many tokens a text has in an arena.
pub fn in_arena(alloc: Global, text: &[u8]) -> Result<String, AllocError> {
    let mut arena = Bump::new(alloc);
    let counted = count(&arena, text);
    if arena.reset().is_err() {
        return word(alloc, "the arena is in use");
    }
    match counted {
        Ok(number) => format!(in alloc; "{number}"),
        Err(refusal) => refused(alloc, refusal),
    }
}

fn in_heap(heap: &LocalHeap, text: &[u8]) -> Result<usize, Refusal> {
    count(heap, text)
}

/// How many tokens a text has in a heap of that many bytes, which is empty before and after.
fn in_new_heap(
    alloc: Global,
    bytes: usize,
    text: &[u8],
) -> Result<Option<Result<usize, Refusal>>, AllocError> {
    let heap = LocalHeap::new(alloc, bytes)?;
    let counted = in_heap(&heap, text);
    Ok(if heap.used() == 0 {
        Some(counted)
    } else {
        None
    })
}

/// What comes of a text under a rising budget, in which each growth of the list is refused in turn, until all of them succeed: how often it
/// is refused first, and how many tokens it has from then on.
pub fn growths(alloc: Global, text: &[u8]) -> Result<String, AllocError> {
    let mut found = None;
    let mut refusals = 0usize;
    for step in 0..128usize {
        match in_new_heap(alloc, 64 + 16 * step, text)? {
            Some(Ok(number)) if found.is_none() || found == Some(number) => found = Some(number),
            Some(Err(Refusal::NoMemory)) if found.is_none() => refusals = refusals.saturating_add(
                1,
            ),
            _ => return word(alloc, "another answer"),
        }
    }
    match found {
        Some(number) if refusals > 0 => format!(in alloc; "refused, then {number}"),
        _ => word(alloc, "never refused, or always"),
    }
}
