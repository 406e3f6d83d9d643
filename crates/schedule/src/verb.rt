//! The verbs: what a line's first word says to do.

ghost use Rattle.std.specs.Prelude.{◌≡◌, ◌≢◌, ◌∷◌, [], IfSome, IfNone};
ghost use Rattle.schedule.specs.Commands.{IsKnown, letter};
ghost use Rattle.schedule.specs.declared.verb.Verb.{Verb};
ghost use Rattle.schedule.specs.declared.verb.Verb.TheVariants.{Apply};

/// What a line says to do.
#[derive(Clone, Copy)]
pub enum Verb {
    Feed,
    Seal,
    Close,
    Take,
    Commit,
    Deliver,
    Print,
    Apply,
}

/// How the workers of a schedule see the progress of the run.
#[derive(Clone, Copy)]
pub enum ViewKind {
    /// All workers see the same, at once.
    Shared,
    /// Each worker has its own view, and a schedule says when it applies what others posted.
    Local,
}

/// The verb about views, if each worker has its own.
fn view_verb(kind: ViewKind) -> Option<Verb>
    ensures found { IfSome result (λ verb. IsKnown kind verb × (verb ≡ Apply)) }
    ensures none { IfNone result (IsKnown kind Apply → ⊥) }
{
    match kind {
        ViewKind::Shared => None,
        ViewKind::Local => Some(Verb::Apply),
    }
}

/// The verb that a first word names; `None` if it isn't a verb's letter. The verb about views counts only if each worker has its own.
pub fn verb_of(kind: ViewKind, word: &[u8]) -> Option<Verb>
    ensures found { IfSome result (λ verb. IsKnown kind verb × (word.now ≡ letter verb ∷ [])) }
    ensures none { IfNone result ((verb : Verb) → IsKnown kind verb → word.now ≢ letter verb ∷ []) }
{
    match word {
        [b'f'] => Some(Verb::Feed),
        [b's'] => Some(Verb::Seal),
        [b'x'] => Some(Verb::Close),
        [b't'] => Some(Verb::Take),
        [b'c'] => Some(Verb::Commit),
        [b'd'] => Some(Verb::Deliver),
        [b'p'] => Some(Verb::Print),
        [b'v'] => view_verb(kind),
        _ => None,
    }
}
