//! Consequences of the definition of a schedule text.

ghost use Rattle.std.specs.Prelude.{◌≡◌, ℕ, List};
ghost use Rattle.schedule.specs.Commands.{Command};
ghost use Rattle.schedule.specs.ScheduleText.{IsRefused, IsScheduleText};
ghost use Rattle.schedule.specs.declared.refusal.ScheduleRefusal.TheVariants.{At};
ghost use Rattle.schedule.specs.declared.verb.ViewKind.{ViewKind};

/// A text is either one list of commands, or is refused with one code and line.
pub fn law_one_reading()
    ensures commands { (kind : ViewKind) (text : List ℕ) (cs ds : List Command) → IsScheduleText kind text cs → IsScheduleText kind text ds → cs ≡ ds }
    ensures apart { (kind : ViewKind) (text : List ℕ) (cs : List Command) (code line : ℕ) →
        IsScheduleText kind text cs → IsRefused kind text (At code line) → ⊥ }
    ensures refusal { (kind : ViewKind) (text : List ℕ) (code line other place : ℕ) →
        IsRefused kind text (At code line) → IsRefused kind text (At other place) → (code ≡ other) × (line ≡ place) }
{}
