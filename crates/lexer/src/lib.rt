//! From the bytes of a query to its tokens.
//!
//! The contract for the layers above: `lex` is `Ok` only with the tokens of the text, at each place the longest, and only white space between them;
//! no other list has that property. A numbered refusal is the first fault of the text, with its code and place; such a text has no list of tokens.
//! Built on `record_core` and `decimal`; the parser uses it.
#![tactic(auto)]

mod lexeme;
mod lexing;
mod mark;
mod refusals;
mod spelling;
mod token;

pub use lexing::{MAX_LENGTH, lex};
pub use mark::Mark;
pub use token::{Token, TokenKind};
