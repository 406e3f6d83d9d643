//! Lines of a text.

ghost use Rattle.std.specs.Prelude.{◌≡◌, ◌↔◌, ◌∷◌, [], IsTrue};
ghost use Rattle.csv.specs.Reading.{strip_bom};
ghost use Rattle.csv_epochs.specs.Epochs.{lines};

/// What a byte order mark is, which may stand before a text.
const MARK: &[u8] = b"\xEF\xBB\xBF";

/// Whether these bytes are a byte order mark.
pub fn is_mark(bytes: &[u8]) -> bool
    ensures { IsTrue result ↔ (bytes.now ≡ 239 ∷ 187 ∷ 191 ∷ []) }
{
    bytes == MARK
}

/// A text without the byte order mark that may stand before it.
pub fn without_mark(text: &[u8]) -> &[u8]
    ensures { result.now ≡ strip_bom text.now }
{
    match text.strip_prefix(MARK) {
        Some(rest) => rest,
        None => text,
    }
}

/// The number of line feeds.
pub fn count_lines(text: &[u8]) -> u64
    ensures { result ≡ lines text.now }
{
    let mut count = 0;
    for byte in text {
        if *byte == b'\n' {
            count += 1;
        }
    }
    count
}
