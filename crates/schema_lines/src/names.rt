//! The names of a schema, and of the columns of a table.

ghost use Rattle.std.specs.Prelude.{◌≡◌, ◌↔◌, IfNone, IfSome, IsTrue, length, map};
ghost use Rattle.std.specs.List.{list_all, list_any};
ghost use Rattle.std.specs.Str.{bytes_eq};
ghost use Rattle.schema_lines.specs.Words.{IsName, begins_name, is_name_byte, place_in};

/// The longest name of an input, an output or a constant, in bytes.
const MAX_NAME: usize = 32;

/// Whether the first byte is no digit.
fn begins(bytes: &[u8]) -> bool
    ensures { result ≡ begins_name bytes.now }
{
    match bytes {
        [] => false,
        [b, ..] => !b.is_ascii_digit(),
    }
}

/// Whether all bytes are letters, digits and `_`.
fn goes_on(bytes: &[u8]) -> bool
    ensures { result ≡ list_all is_name_byte bytes.now }
{
    bytes.iter().all(|b| b.is_ascii_lowercase() || b.is_ascii_digit() || *b == b'_')
}

/// Whether a name is spelled like one of a query: lower-case letters, digits and `_`, with no digit first.
pub fn is_name(name: &[u8]) -> bool
    ensures { IsTrue result ↔ IsName name.now }
{
    begins(name) && name.len() <= MAX_NAME && goes_on(name)
}

/// Whether a header row has that name.
pub fn is_header(headers: &[Vec<u8>], name: &[u8]) -> bool
    ensures { result ≡ list_any (λ h. bytes_eq h.items name.now) headers.now }
{
    headers.iter().any(|header| header.as_slice() == name)
}

/// The place of a column by its name in the header row.
pub fn place_of(headers: &[Vec<u8>], name: &[u8]) -> Option<usize>
    ensures found { IfSome result (λ i. i ≡ place_in name.now (map (λ v. v.items) headers.now)) }
    ensures none { IfNone result (place_in name.now (map (λ v. v.items) headers.now) ≡ length headers.now) }
{
    for i in 0..headers.len() {
        if headers[i].as_slice() == name {
            return Some(i);
        }
    }
    None
}
