//! Which names of a schema are in use.

ghost use Rattle.std.specs.Prelude.{◌≡◌, ◌||◌};
ghost use Rattle.std.specs.List.{list_any};
ghost use Rattle.std.specs.Str.{bytes_eq};

use crate::tables::{Constant, Table};

/// Whether a table has that name.
pub fn is_table(tables: &[Table], name: &[u8]) -> bool
    ensures { result ≡ list_any (λ t. bytes_eq t.name.items name.now) tables.now }
{
    tables.iter().any(|table| table.name.as_slice() == name)
}

/// Whether a constant has that name, or that text.
pub fn is_constant(constants: &[Constant], name: &[u8], text: &[u8]) -> bool
    ensures { result ≡ list_any (λ c. bytes_eq c.name.items name.now || bytes_eq c.text.items text.now) constants.now }
{
    constants.iter().any(|constant| constant.name.as_slice() == name
        || constant.text.as_slice() == text)
}
