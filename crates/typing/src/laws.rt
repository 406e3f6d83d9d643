//! What the definition of a first fault comes to.

ghost use Rattle.std.specs.Prelude.{◌≡◌, ℕ, List, ◌⊎◌};
ghost use Rattle.expr_tree.specs.Trees.{ProgramTree};
ghost use Rattle.expr_tree.specs.Plain.{plain_program};
ghost use Rattle.semantics.specs.Typing.{WellTyped};
ghost use Rattle.typing.specs.Fault.{Fault};
ghost use Rattle.typing.specs.FirstFault.{FirstFault};

/// Each program is well typed or has a first fault, and not both; its outputs have their arities alone, and its first fault is one.
pub fn law_first_fault()
    ensures decided { (p : ProgramTree) → ((ns : List ℕ) × WellTyped (plain_program p) ns) ⊎ ((f : Fault) × FirstFault p f) }
    ensures apart { (p : ProgramTree) (ns : List ℕ) (f : Fault) → WellTyped (plain_program p) ns → FirstFault p f → ⊥ }
    ensures one_fault { (p : ProgramTree) (f g : Fault) → FirstFault p f → FirstFault p g → f ≡ g }
    ensures same_arities { (p : ProgramTree) (ms ns : List ℕ) → WellTyped (plain_program p) ms → WellTyped (plain_program p) ns → ms ≡ ns }
{}
