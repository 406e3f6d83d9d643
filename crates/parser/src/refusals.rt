//! The codes of the refusals, with the place of each. The codes 1, 2, 3 and 6 are those of the lexer.

/// A token that can't follow the tokens before it, or the end of the text where a token must follow. Its place is the token, or the empty one at the
/// end.
pub const UNEXPECTED: u8 = 4;
/// A bracket that would be the 65th open one, or a phrase higher than 64. Its place is the bracket, or the phrase's head.
pub const TOO_HIGH: u8 = 5;
