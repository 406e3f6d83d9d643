//! The law of kinds.

ghost use Rattle.std.specs.Prelude.{◌≡◌, List, [], ℕ, ℤ, map, slice_index_or, Some};
ghost use Rattle.semantics.specs.Multiset.{Record};
ghost use Rattle.semantics.specs.Meaning.{program_meaning};
ghost use Rattle.semantics.specs.Query.{Program};
ghost use Rattle.kinds.specs.declared.kind.Kind.{Kind};
ghost use Rattle.kinds.specs.Relations.{program_kinds};
ghost use Rattle.kinds.specs.Renaming.{HaveKinds, IsRenaming, renamed, renamed_inputs};

/// Where the fields of a program have kinds, the answer doesn't depend on which numbers stand for which texts: with other numbers in the inputs it is the
/// same but for those.
pub fn law_renaming()
    ensures { (named : List ℤ) (p : Program) (kinds outs : List (List Kind)) (new : ℤ → ℤ) (records : ℕ → List Record) (output : ℕ) →
        program_kinds named p kinds ≡ Some outs → IsRenaming named new → HaveKinds kinds records →
        program_meaning p output (renamed_inputs new kinds records) ≡ map (renamed new (slice_index_or outs output [])) (program_meaning p output records) }
{}
