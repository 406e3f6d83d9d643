//! Consequences of the text formats' definitions.

ghost use Rattle.std.specs.Prelude.{◌≡◌, ◌<◌, ℕ, List, length};
ghost use Rattle.semantics.specs.Multiset.{Record, ◌≈◌};
ghost use Rattle.semantics.specs.Query.{Input};
ghost use Rattle.collector.specs.InputText.{IsInputText, IsRefused};
ghost use Rattle.collector.specs.declared.refusal.InputRefusal.TheVariants.{At};
ghost use Rattle.collector.specs.OutputText.{IsTextFrom};

/// For the inputs of a query, a text either has one number of epochs with their records, or is refused with one code and line.
pub fn law_one_reading()
    ensures epochs { (inputs : List Input) (text : List ℕ) (m n : ℕ) (r s : ℕ → ℕ → List Record) →
        IsInputText inputs text m r → IsInputText inputs text n s → (m ≡ n) × ((epoch input : ℕ) → r epoch input ≡ s epoch input) }
    ensures apart { (inputs : List Input) (text : List ℕ) (m : ℕ) (r : ℕ → ℕ → List Record) (code line : ℕ) →
        IsInputText inputs text m r → IsRefused inputs text (At code line) → ⊥ }
    ensures refusal { (inputs : List Input) (text : List ℕ) (code line other place : ℕ) →
        IsRefused inputs text (At code line) → IsRefused inputs text (At other place) → (code ≡ other) × (line ≡ place) }
{}

/// Epochs with the same multisets at each output have one output text.
pub fn law_one_answer()
    ensures { (names : List (List ℕ)) (r s : (output epoch : ℕ) → List Record) (count : ℕ) (t u : List ℕ) →
        ((output epoch : ℕ) → output < length names → epoch < count → r output epoch ≈ s output epoch) →
        IsTextFrom names r 0 count t → IsTextFrom names s 0 count u → t ≡ u }
{
    semantics::multisets::law_equal_multisets();
}
