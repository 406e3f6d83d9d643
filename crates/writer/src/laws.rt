//! What is written is what is read. Each law is the contract of a function that does nothing.

ghost use Rattle.std.specs.Prelude.{◌≤◌, ℕ, List, length};
ghost use Rattle.expr_tree.specs.Trees.{ProgramTree};
ghost use Rattle.lexer.specs.Tokens.{max_length};
ghost use Rattle.grammar.specs.Texts.{Reads};
ghost use Rattle.writer.specs.Programs.{program_text};
ghost use Rattle.writer.specs.Sources.{IsSource, ReadsAs};

/// The canonical text of a source is that program, spans aside, where it is no longer than 1,048,576 bytes.
pub fn written_reads_back()
    ensures { (p : ProgramTree) → IsSource p → length (program_text p) ≤ max_length → ReadsAs (program_text p) p }
{}

/// Every program that a text is, and so every one that `parse` gives, is a source.
pub fn read_is_source()
    ensures { (text : List ℕ) (p : ProgramTree) → Reads text p → IsSource p }
{}
