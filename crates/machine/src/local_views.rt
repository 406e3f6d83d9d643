ghost use Rattle.std.specs.Prelude.{◌<◌, ◌++◌, ℕ, Bool, List, [], ◌∷◌};
ghost use Rattle.semantics.specs.Graph.{Graph};
ghost use Rattle.semantics.specs.Could.{CouldResultIn, NoOtherOf, NoneOf, Pointstamp};
ghost use Rattle.machine.specs.World.{World, opening};
ghost use Rattle.machine.specs.Frontier.{NoOtherBefore, NoneBefore};
ghost use Rattle.machine.specs.Step.{Step};
ghost use Rattle.machine.specs.Engine.{network};
ghost use Rattle.machine.specs.Headline.{IsRunOn};
ghost use Rattle.machine.specs.Views.{AllApplied, AppliesMore, Changes, IsSeen, IsThere};
ghost use Rattle.machine.specs.Posting.{IsView};
ghost use Rattle.machine.specs.RunViews.{AppliesInOrder, SeesNoOtherBefore, SeesNoneBefore, log_of};

/// A viewer has applied some of the changes, each sender's in order. It sees that no pointstamp could result in p, or none but p itself, only if that
/// is true of the pointstamps that are there, and exactly then if nothing waits. Once it sees that none could, that stays so when more is applied,
/// and when changes are posted that add nothing that could result in p. The changes may come from any caller, as long as they may be posted.
pub fn law_view()
    ensures none { (g : Graph) (workers : ℕ) (first : Pointstamp → ℕ) (log : List Changes) → IsView g workers first log →
        (p : Pointstamp) → NoneOf (CouldResultIn g) (IsSeen first log) p → NoneOf (CouldResultIn g) (IsThere first log) p }
    ensures no_other { (g : Graph) (workers : ℕ) (first : Pointstamp → ℕ) (log : List Changes) → IsView g workers first log →
        (p : Pointstamp) → NoOtherOf (CouldResultIn g) (IsSeen first log) p → NoOtherOf (CouldResultIn g) (IsThere first log) p }
    ensures exact_none { (g : Graph) (workers : ℕ) (first : Pointstamp → ℕ) (log : List Changes) → IsView g workers first log →
        (p : Pointstamp) → AllApplied log →
        NoneOf (CouldResultIn g) (IsThere first log) p → NoneOf (CouldResultIn g) (IsSeen first log) p }
    ensures exact_no_other { (g : Graph) (workers : ℕ) (first : Pointstamp → ℕ) (log : List Changes) → IsView g workers first log →
        (p : Pointstamp) → AllApplied log →
        NoOtherOf (CouldResultIn g) (IsThere first log) p → NoOtherOf (CouldResultIn g) (IsSeen first log) p }
    ensures apply { (g : Graph) (workers : ℕ) (first : Pointstamp → ℕ) (log : List Changes) → IsView g workers first log →
        (p : Pointstamp) (more : List Changes) → AppliesMore log more →
        NoneOf (CouldResultIn g) (IsSeen first log) p → NoneOf (CouldResultIn g) (IsSeen first more) p }
    ensures post { (g : Graph) (workers : ℕ) (first : Pointstamp → ℕ) (log : List Changes) → IsView g workers first log →
        (p : Pointstamp) (b : Changes) → ((q : Pointstamp) → 0 < b.adds q → CouldResultIn g q p → ⊥) →
        NoneOf (CouldResultIn g) (IsSeen first log) p → NoneOf (CouldResultIn g) (IsSeen first (log ++ b ∷ [])) p }
{}

/// A worker has applied some of a run's changes, each sender's in order. It sees that no active pointstamp could result in p, or no other one, only
/// if that is true in the world, and exactly then if nothing waits for it.
pub fn law_view_of_run()
    ensures none { (g : Graph) (workers : ℕ) (steps : List Step) (w : World) →
        IsRunOn g workers steps w → (flags : List Bool) → AppliesInOrder (network g workers) steps flags → (p : Pointstamp) →
        SeesNoneBefore (network g workers) steps flags p → NoneBefore (network g workers) w p }
    ensures no_other { (g : Graph) (workers : ℕ) (steps : List Step) (w : World) →
        IsRunOn g workers steps w → (flags : List Bool) → AppliesInOrder (network g workers) steps flags → (p : Pointstamp) →
        SeesNoOtherBefore (network g workers) steps flags p → NoOtherBefore (network g workers) w p }
    ensures exact_none { (g : Graph) (workers : ℕ) (steps : List Step) (w : World) →
        IsRunOn g workers steps w → (flags : List Bool) → AppliesInOrder (network g workers) steps flags → (p : Pointstamp) →
        AllApplied (log_of (network g workers) opening steps flags) →
        NoneBefore (network g workers) w p → SeesNoneBefore (network g workers) steps flags p }
    ensures exact_no_other { (g : Graph) (workers : ℕ) (steps : List Step) (w : World) →
        IsRunOn g workers steps w → (flags : List Bool) → AppliesInOrder (network g workers) steps flags → (p : Pointstamp) →
        AllApplied (log_of (network g workers) opening steps flags) →
        NoOtherBefore (network g workers) w p → SeesNoOtherBefore (network g workers) steps flags p }
{}
