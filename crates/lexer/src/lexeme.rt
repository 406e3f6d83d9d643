//! Finds the length of the token at the front of some bytes.

ghost use Rattle.std.specs.Prelude.{◌≡◌, ◌<◌, ◌≤◌, ℕ, length, slice_index, take, IsTrue, IsFalse, IfSome, IfNone};
ghost use Rattle.std.specs.List.{list_all};
ghost use Rattle.lexer.specs.Lexemes.{shape_of, passes, IsLexeme, IsLongest};

use crate::mark::Mark;

/// What begins with a byte.
#[derive(Clone, Copy)]
pub(crate) enum Shape {
    /// A letter: a name or a keyword.
    Word,
    /// A digit: a number.
    Numeral,
    /// A `#`: a column.
    Reference,
    /// Any other byte: a mark, or nothing.
    Sign,
}

/// Bytes that may follow one another in one token, or between tokens.
#[derive(Clone, Copy)]
pub(crate) enum Class {
    Space,
    Digit,
    NameByte,
}

pub(crate) fn shape_at(byte: u8) -> Shape
    ensures { result ≡ shape_of byte }
{
    match byte {
        b'a'..=b'z' => Shape::Word,
        b'0'..=b'9' => Shape::Numeral,
        b'#' => Shape::Reference,
        _ => Shape::Sign,
    }
}

impl Class {
    fn has(self, byte: u8) -> bool
        ensures { result ≡ passes self byte }
    {
        match self {
            Class::Space => matches!(byte, b' ' | b'\t' | b'\n' | b'\r'),
            Class::Digit => byte.is_ascii_digit(),
            Class::NameByte => byte.is_ascii_lowercase() || byte.is_ascii_digit() || byte == b'_',
        }
    }
}

/// The number of bytes of a class at the front.
pub(crate) fn run(bytes: &[u8], class: Class) -> usize
    ensures within { result ≤ length bytes.now }
    ensures each { IsTrue (list_all (passes class) (take result bytes.now)) }
    ensures stop { result < length bytes.now → IsFalse (passes class (slice_index bytes.now result)) }
{
    for (i, byte) in bytes.iter().enumerate() {
        if !class.has(*byte) {
            return i;
        }
    }
    bytes.len()
}

/// The number of bytes of the token at the front, if one begins there.
pub(crate) fn lexeme_len(bytes: &[u8]) -> Option<usize>
    ensures found { IfSome result (λ n. IsLongest bytes.now n) }
    ensures none { IfNone result ((k : ℕ) → k ≤ length bytes.now → ¬ (IsLexeme (take k bytes.now))) }
{
    let Some((first, rest)) = bytes.split_first() else {
        return None;
    };
    match shape_at(*first) {
        Shape::Word => Some(run(rest, Class::NameByte) + 1),
        Shape::Numeral => Some(run(rest, Class::Digit) + 1),
        Shape::Reference => {
            let digits = run(rest, Class::Digit);
            if digits == 0 { None } else { Some(digits + 1) }
        }
        Shape::Sign => match Mark::at_front(bytes) {
            None => None,
            Some(mark) => Some(mark.text().len()),
        },
    }
}
