//! What the text of a script says.

ghost use Rattle.std.specs.Prelude.{◌≡◌, ◌^◌, ◌<◌, List, ℕ, length};
ghost use Rattle.semantics.specs.Query.{Program};
ghost use Rattle.semantics.specs.Typing.{WellTyped};
ghost use Rattle.sql.specs.Asked.{Asked};
ghost use Rattle.sql.specs.Text.{asked_script, script_text};
ghost use Rattle.sql_reading.specs.Readable.{HasNames, IsReadable};
ghost use Rattle.sql_reading.specs.Said.{said};

/// A text says one script: of two scripts with the same text, the form, whether they are of one epoch, the given tables, the tables
/// that are made and the results are the same.
pub fn law_reads_back()
    ensures { (a b : Asked) (p q : Program) → IsReadable (said a p) → IsReadable (said b q) → script_text a p ≡ script_text b q → said a p ≡ said b q }
{}

/// So it is of each well-typed program whose inputs and outputs have names, and whose script doesn't have 2^64 tables.
pub fn law_readable()
    ensures { (a : Asked) (p : Program) (ns : List ℕ) → WellTyped p ns → HasNames p → length (asked_script a p).tables < 2 ^ 64 → IsReadable (said a p) }
{}
