//! The tokens of a query.

use crate::mark::Mark;
use record_core::{Keyword, Span};

/// The kind of a token. The text of a name is its span's slice of the text.
#[derive(Clone, Copy, PartialEq, Eq)]
pub enum TokenKind {
    Name,
    /// At most 9223372036854775807.
    Number(u64),
    /// A `#` directly followed by a number, at most 9223372036854775807.
    Column(u64),
    Mark(Mark),
    Keyword(Keyword),
}

/// A token, and its place.
#[derive(Clone, Copy)]
pub struct Token {
    pub kind: TokenKind,
    pub span: Span,
}
