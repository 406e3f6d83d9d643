//! Words in a text, and tables of words and of what is said of them. A word is looked up here, since a `match` of texts compares each of
//! their bytes.

/// Some words, and what is said of each of them.
pub type Said = (&'static [&'static str], &'static str);

/// Whether a word is one of some.
pub fn is_among(words: &[&str], word: &[u8]) -> bool {
    for one in words {
        if one.as_bytes() == word {
            return true;
        }
    }
    false
}

/// What a table's first row with a word says of it.
pub fn said_of(table: &'static [Said], word: &[u8]) -> Option<&'static str> {
    for (words, text) in table {
        if is_among(words, word) {
            return Some(text);
        }
    }
    None
}

/// Whether a text begins with one of some.
pub fn begins_with(beginnings: &[&str], text: &[u8]) -> bool {
    for beginning in beginnings {
        if text.starts_with(beginning.as_bytes()) {
            return true;
        }
    }
    false
}

/// Whether a text ends in one of some.
pub fn ends_in(ends: &[&str], text: &[u8]) -> bool {
    for end in ends {
        if text.ends_with(end.as_bytes()) {
            return true;
        }
    }
    false
}

/// Whether a byte can stand in a word of a query: a name, a keyword or a number.
fn is_word_byte(byte: u8) -> bool {
    matches!(byte, b'a'..=b'z' | b'0'..=b'9' | b'_')
}

/// The word at the beginning of a text; empty where the text begins with a sign or a space.
pub fn first_word(text: &[u8]) -> &[u8] {
    for (at, byte) in text.iter().enumerate() {
        if !is_word_byte(*byte) {
            return text.get(..at).unwrap_or(&[]);
        }
    }
    text
}

/// The text up to the first of those bytes.
pub fn until(text: &[u8], end: u8) -> &[u8] {
    for (at, byte) in text.iter().enumerate() {
        if *byte == end {
            return text.get(..at).unwrap_or(&[]);
        }
    }
    text
}

/// The word at the end of a text, and what comes before it; empty where the text ends in a sign or a space.
pub fn split_word(text: &[u8]) -> (&[u8], &[u8]) {
    let mut start: usize = 0;
    for (at, byte) in text.iter().enumerate() {
        if !is_word_byte(*byte) {
            start = at.saturating_add(1);
        }
    }
    let front = text.get(..start).unwrap_or(&[]);
    (front.trim_ascii_end(), text.get(start..).unwrap_or(&[]))
}

/// The word at the end of a text.
pub fn last_word(text: &[u8]) -> &[u8] {
    let (_, word) = split_word(text);
    word
}
