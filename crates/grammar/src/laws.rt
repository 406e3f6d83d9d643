//! No tokens are read in two ways. Each law is the contract of a function that does nothing.

ghost use Rattle.std.specs.Prelude.{◌≡◌, ℕ, List};
ghost use Rattle.lexer.specs.declared.token.Token.{Token};
ghost use Rattle.expr_tree.specs.Trees.{ProgramTree};
ghost use Rattle.grammar.specs.Phrases.{IsOne};
ghost use Rattle.grammar.specs.Scalars.{ScalarAt};
ghost use Rattle.grammar.specs.Conditions.{ConditionAt};
ghost use Rattle.grammar.specs.Relations as relation;
ghost use Rattle.grammar.specs.Programs.{ReadsProgram};
ghost use Rattle.grammar.specs.Texts.{Reads};

/// Tokens begin with at most one scalar.
pub fn one_scalar()
    ensures { IsOne ScalarAt }
{}

/// Tokens begin with at most one condition.
pub fn one_condition()
    ensures { IsOne ConditionAt }
{}

/// Tokens begin with at most one relation.
pub fn one_relation()
    ensures { (text : List ℕ) → IsOne (relation.Reads text) }
{}

/// Tokens are at most one program.
pub fn one_program()
    ensures { (text : List ℕ) (ts : List Token) (p q : ProgramTree) (h k : ℕ) → ReadsProgram text ts p h → ReadsProgram text ts q k → (p ≡ q) × (h ≡ k) }
{}

/// A text is at most one program.
pub fn one_text()
    ensures { (text : List ℕ) (p q : ProgramTree) → Reads text p → Reads text q → p ≡ q }
{}
