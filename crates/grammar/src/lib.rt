//! The grammar of queries: definitions and laws, no program code.
//!
//! Each class of phrases (scalars, conditions, relations, programs) is a relation between tokens and trees in `specs/`; its constructors are next to
//! their lines of the grammar. The relation says which tree the tokens begin with, how high the tree is, and which tokens are left. A text is the
//! program that its tokens are.
//!
//! The contract for the layers above: no tokens are read in two ways, and no text is two programs. Built on `lexer` with the tokens, `expr_tree` with
//! the trees, and `record_core`; the parser reads by these relations.
#![tactic(auto)]

mod laws;
mod level;

pub use laws::{one_condition, one_program, one_relation, one_scalar, one_text};
pub use level::{ConnectiveLevel, OperatorLevel};
