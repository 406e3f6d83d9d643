//! The laws of origins.

ghost use Rattle.std.specs.Prelude.{◌≡◌, List, [], ℕ, ℤ, slice_get, slice_index_or, Some};
ghost use Rattle.semantics.specs.Multiset.{Record, IsAmong};
ghost use Rattle.semantics.specs.Meaning.{program_meaning};
ghost use Rattle.semantics.specs.Query.{Program};
ghost use Rattle.semantics.specs.Typing.{WellTyped};
ghost use Rattle.field_origins.specs.declared.source.Source.{Source};
ghost use Rattle.origins.specs.Relations.{program_origins};
ghost use Rattle.field_origins.specs.Sources.{Origin};
ghost use Rattle.origins.specs.Standing.{AreDifferent, AreRecords, Stands};

/// Of a well-typed program: where a field of an output has sources, each record of the program's meaning there has a number in that field which stands in
/// one of these columns, in some record of that input.
pub fn law_origins()
    ensures { (p : Program) (arities : List ℕ) (records : ℕ → List Record) (output column : ℕ) (sources : List Source) (r : Record) →
        WellTyped p arities → AreRecords p.inputs 0 records → slice_get (slice_index_or (program_origins p) output []) column ≡ Some (Origin.taken sources) →
        IsAmong r (program_meaning p output records) → (z : ℤ) × (slice_get r column ≡ Some z) × Stands p.inputs records sources z }
{}

/// No source of a field is there twice.
pub fn law_different_sources()
    ensures { (p : Program) (output column : ℕ) (sources : List Source) →
        slice_get (slice_index_or (program_origins p) output []) column ≡ Some (Origin.taken sources) → AreDifferent sources }
{}
