ghost use Rattle.std.specs.Prelude.{◌≡◌, ◌≤◌, ◌++◌, List, ℕ, ◌∷◌, map, ℤ, ◌+ℤ◌, ◌-ℤ◌, ◌*ℤ◌, neg_ℤ};
ghost use Rattle.std.specs.Int.{int_wrap};
ghost use mir.Syntax.{w64};
ghost use Rattle.semantics.specs.Multiset.{Record};
ghost use Rattle.semantics.specs.Query.{Scalar, Cond, Name, Loop, Rel, Input, Let, Output, Program};
ghost use Rattle.semantics.specs.Meaning.{value, Names, meaning, program_meaning};
ghost use Rattle.semantics.specs.Size.{rel_size, program_size};
ghost use Rattle.semantics.specs.Normal.{UsesOnce, replaced, Reaches, AllReached, NormalRel, NormalProgram};
ghost use Rattle.semantics.specs.Rewriting.{RelStep, ProgramStep, RewritesTo, IsNormalForm};
ghost use Rattle.semantics.specs.Typing.{Scope, HasArity, WellTyped};

/// Folding literals keeps a scalar's value.
pub fn law_folding()
    ensures plus { (a b : ℤ) (r : Record) →
        value (Scalar.literal (int_wrap w64 (a +ℤ b))) r ≡ value (Scalar.plus (Scalar.literal a) (Scalar.literal b)) r }
    ensures minus { (a b : ℤ) (r : Record) →
        value (Scalar.literal (int_wrap w64 (a -ℤ b))) r ≡ value (Scalar.minus (Scalar.literal a) (Scalar.literal b)) r }
    ensures times { (a b : ℤ) (r : Record) →
        value (Scalar.literal (int_wrap w64 (a *ℤ b))) r ≡ value (Scalar.times (Scalar.literal a) (Scalar.literal b)) r }
    ensures negation { (a : ℤ) (r : Record) →
        value (Scalar.literal (int_wrap w64 (neg_ℤ a))) r ≡ value (Scalar.negation (Scalar.literal a)) r }
{}

/// A scalar's value depends only on its parts' values, so a part may be replaced by one of the same value.
pub fn law_parts_of_scalars()
    ensures plus { (s t : Scalar) (r : Record) → value (Scalar.plus s t) r ≡ int_wrap w64 (value s r +ℤ value t r) }
    ensures minus { (s t : Scalar) (r : Record) → value (Scalar.minus s t) r ≡ int_wrap w64 (value s r -ℤ value t r) }
    ensures times { (s t : Scalar) (r : Record) → value (Scalar.times s t) r ≡ int_wrap w64 (value s r *ℤ value t r) }
    ensures negation { (s : Scalar) (r : Record) → value (Scalar.negation s) r ≡ int_wrap w64 (neg_ℤ (value s r)) }
{}

/// Each rule on relations keeps the meaning, as the same list. The one rule that could grow a tree is restricted so that it doesn't: a `select` of a
/// `select` becomes one only if the outer scalars together use each column at most once.
pub fn law_rules()
    ensures where_of_where { (r : Rel) (c d : Cond) (names : Names) →
        meaning (Rel.filter (Rel.filter r c) d) names ≡ meaning (Rel.filter r (Cond.conjunction c d)) names }
    ensures select_of_select { (r : Rel) (ss ts : List Scalar) (names : Names) →
        meaning (Rel.select (Rel.select r ss) ts) names ≡ meaning (Rel.select r (map (replaced ss) ts)) names }
    ensures no_larger { (r : Rel) (ss ts : List Scalar) → UsesOnce ts →
        rel_size (Rel.select r (map (replaced ss) ts)) ≤ rel_size (Rel.select (Rel.select r ss) ts) }
    ensures distinct_of_distinct { (r : Rel) (names : Names) →
        meaning (Rel.distinct (Rel.distinct r)) names ≡ meaning (Rel.distinct r) names }
    ensures distinct_of_except { (p q : Rel) (names : Names) →
        meaning (Rel.distinct (Rel.except p q)) names ≡ meaning (Rel.except p q) names }
    ensures distinct_of_intersect { (p q : Rel) (names : Names) →
        meaning (Rel.distinct (Rel.intersect p q)) names ≡ meaning (Rel.intersect p q) names }
    ensures loop_of_no_turns { (x : Name) (r b : Rel) (names : Names) → meaning (Rel.loop Loop.iterate 0 x r b) names ≡ meaning r names }
{}

/// A let that no output reaches, directly or through later lets, may be dropped.
pub fn law_unreached_let()
    ensures { (inputs : List Input) (before : List Let) (a : Let) (after : List Let) (outs : List Output) (output : ℕ)
        (records : ℕ → List Record) →
        (Reaches a.name after outs → ⊥) →
        program_meaning (record { inputs = inputs; lets = before ++ (a ∷ after); outputs = outs }) output records
        ≡ program_meaning (record { inputs = inputs; lets = before ++ after; outputs = outs }) output records }
{}

/// Each rule on relations keeps the arity.
pub fn law_rules_keep_arity()
    ensures where_of_where { (r : Rel) (c d : Cond) (scope : Scope) (loops n : ℕ) →
        HasArity (Rel.filter (Rel.filter r c) d) scope loops n →
        HasArity (Rel.filter r (Cond.conjunction c d)) scope loops n }
    ensures select_of_select { (r : Rel) (ss ts : List Scalar) (scope : Scope) (loops n : ℕ) →
        HasArity (Rel.select (Rel.select r ss) ts) scope loops n →
        HasArity (Rel.select r (map (replaced ss) ts)) scope loops n }
    ensures distinct_of_distinct { (r : Rel) (scope : Scope) (loops n : ℕ) →
        HasArity (Rel.distinct (Rel.distinct r)) scope loops n → HasArity (Rel.distinct r) scope loops n }
    ensures distinct_of_except { (p q : Rel) (scope : Scope) (loops n : ℕ) →
        HasArity (Rel.distinct (Rel.except p q)) scope loops n → HasArity (Rel.except p q) scope loops n }
    ensures distinct_of_intersect { (p q : Rel) (scope : Scope) (loops n : ℕ) →
        HasArity (Rel.distinct (Rel.intersect p q)) scope loops n → HasArity (Rel.intersect p q) scope loops n }
    ensures loop_of_no_turns { (x : Name) (r b : Rel) (scope : Scope) (loops n : ℕ) →
        HasArity (Rel.loop Loop.iterate 0 x r b) scope loops n → HasArity r scope loops n }
{}

/// A program stays well typed without a let that no output reaches, if the lets after it are reached; so unreached lets are dropped from the last to
/// the first.
pub fn law_unreached_let_keeps_arity()
    ensures { (inputs : List Input) (before : List Let) (a : Let) (after : List Let) (outs : List Output) (ns : List ℕ) →
        AllReached after outs → (Reaches a.name after outs → ⊥) →
        WellTyped (record { inputs = inputs; lets = before ++ (a ∷ after); outputs = outs }) ns →
        WellTyped (record { inputs = inputs; lets = before ++ after; outputs = outs }) ns }
{}

/// A step of a relation keeps the meaning and the arity, and doesn't make it larger. A relation to which no rule applies has no step.
pub fn law_steps()
    ensures meaning { (p q : Rel) (names : Names) → RelStep p q → meaning p names ≡ meaning q names }
    ensures arity { (p q : Rel) (scope : Scope) (loops n : ℕ) → RelStep p q → HasArity p scope loops n → HasArity q scope loops n }
    ensures no_larger { (p q : Rel) → RelStep p q → rel_size q ≤ rel_size p }
    ensures normal { (p q : Rel) → NormalRel p → RelStep p q → ⊥ }
{}

/// Rewriting a program keeps its inputs, its outputs' names, its meaning and its type, and doesn't make it larger. Rewriting can go on from its
/// result, and from a normal form there is no step.
pub fn law_rewriting()
    ensures inputs { (p q : Program) → RewritesTo p q → q.inputs ≡ p.inputs }
    ensures names { (p q : Program) → RewritesTo p q → map (λ (o : Output). o.name) q.outputs ≡ map (λ (o : Output). o.name) p.outputs }
    ensures meaning { (p q : Program) (output : ℕ) (records : ℕ → List Record) →
        RewritesTo p q → program_meaning q output records ≡ program_meaning p output records }
    ensures typed { (p q : Program) (ns : List ℕ) → RewritesTo p q → WellTyped p ns → WellTyped q ns }
    ensures no_larger { (p q : Program) → RewritesTo p q → program_size q ≤ program_size p }
    ensures composed { (p q r : Program) → RewritesTo p q → RewritesTo q r → RewritesTo p r }
    ensures normal { (p q : Program) → NormalProgram p → ProgramStep p q → ⊥ }
{}

/// A program rewrites to at most one normal form.
pub fn law_one_normal_form()
    ensures { (p q r : Program) → IsNormalForm q p → IsNormalForm r p → q ≡ r }
{}
