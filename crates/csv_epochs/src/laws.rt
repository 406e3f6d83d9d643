//! What follows for a whole text.

ghost use Rattle.std.specs.Prelude.{◌≡◌, ◌++◌, ℕ, List, ◌∷◌};
ghost use Rattle.csv.specs.Reading.{strip_bom};
ghost use Rattle.csv_strict.specs.Strict.{IsStrict};
ghost use Rattle.csv_epochs.specs.Epochs.{AreEpochs, HandsOut, Held, IsHeader, text_of};
ghost use Rattle.csv_epochs.specs.declared.epoch.Epoch as epoch;

/// An epoch that was handed out, and then the epochs of what is held and of all that comes after it, are the epochs of what was held before and of all
/// that came after it.
pub fn law_next_epoch()
    ensures { (old new : Held) (piece : List ℕ) (first : epoch.Epoch) (behind more : List ℕ) (epochs : List epoch.Epoch) → HandsOut old new piece first behind
        → AreEpochs new.column new.header new.before (new.bytes ++ (behind ++ more)) epochs
        → (bytes : List ℕ) × (text_of old ++ (piece ++ more) ≡ new.header ++ bytes) × AreEpochs new.column new.header old.before bytes (first ∷ epochs) }
{}

/// A header row and epochs are a strict text.
pub fn law_strict()
    ensures { (column : ℕ) (header : List ℕ) (before : ℕ) (bytes : List ℕ) (epochs : List epoch.Epoch) → IsHeader column header
        → AreEpochs column header before bytes epochs → IsStrict (strip_bom (header ++ bytes)) }
{}
