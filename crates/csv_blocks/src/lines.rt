//! Lines of a text, and the mark before it.

ghost use Rattle.std.specs.Prelude.{◌≡◌};
ghost use Rattle.csv.specs.Reading.{strip_bom};
ghost use Rattle.csv_blocks.specs.Texts.{lines};

/// What a byte order mark is, which may stand before a text.
const MARK: &[u8] = b"\xEF\xBB\xBF";

/// A text without the byte order mark that may stand before it.
pub fn without_mark(text: &[u8]) -> &[u8]
    ensures { result.now ≡ strip_bom text.now }
{
    match text.strip_prefix(MARK) {
        Some(rest) => rest,
        None => text,
    }
}

/// The number of line feeds.
pub fn count_lines(text: &[u8]) -> u64
    ensures { result ≡ lines text.now }
{
    let mut count = 0;
    for byte in text {
        if *byte == b'\n' {
            count += 1;
        }
    }
    count
}
