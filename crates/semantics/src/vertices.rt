ghost use Rattle.std.specs.Prelude.{◌≡◌, ◌<◌, ◌↔◌, ◌&&◌, not, ℕ, List, []};
ghost use Rattle.semantics.specs.Multiset.{Record, one_if, count, is_present, ◌≈◌, IsPartOf, end_to_end, less};
ghost use Rattle.semantics.specs.Time.{Time};
ghost use Rattle.semantics.specs.Kinds.{Kind, in_ports, role, Role};
ghost use Rattle.semantics.specs.Op.{places, port_at, op, IsSum, IsCut};
ghost use Rattle.semantics.specs.Shard.{SendsBy, SendsAtNotification};
ghost use Rattle.semantics.specs.PortArity.{HaveFields, PortsFit};

/// The laws of the equation of a vertex. Nothing in gives nothing out. If the inputs are cut into parts with no route key in two parts (in any way
/// for a kind without route key), the results of the parts add up. Equal multisets in give equal multisets out. More in gives more out, except at a
/// vertex that waits for its notification. Records of the right arities give records of the right arity.
pub fn law_vertex()
    ensures nothing { (kind : Kind) (t : Time) (out : ℕ) → op kind t (λ p. []) out ≡ [] }
    ensures parts { (kind : Kind) (t : Time) (ins : ℕ → List Record) (parts : ℕ → ℕ → List Record) (n out : ℕ) →
        IsSum kind ins parts n → IsCut kind parts n →
        op kind t ins out ≈ end_to_end (λ w. op kind t (parts w) out) n }
    ensures equal { (kind : Kind) (t : Time) (xs ys : ℕ → List Record) (out : ℕ) →
        ((i : ℕ) → i < places kind → xs i ≈ ys i) → op kind t xs out ≈ op kind t ys out }
    ensures more { (kind : Kind) → (role kind ≡ Role.notified → ⊥) → (t : Time) (xs ys : ℕ → List Record) (out : ℕ) →
        ((i : ℕ) → i < in_ports kind → IsPartOf (xs i) (ys i)) → IsPartOf (op kind t xs out) (op kind t ys out) }
    ensures fields { (kind : Kind) (arity : ℕ → ℕ) (n : ℕ) → PortsFit kind arity n → (t : Time) (ins : ℕ → List Record) →
        ((i : ℕ) → i < places kind → HaveFields (arity (port_at kind i)) (ins i)) → (out : ℕ) → HaveFields n (op kind t ins out) }
{}

/// Whatever a stateful shard had absorbed before and has absorbed now, it can send what is gained; and what it may send is one multiset for each out
/// port.
pub fn law_stateful_shard()
    ensures gained { (kind : Kind) → role kind ≡ Role.stateful → (t : Time) (before now : ℕ → List Record) →
        ((i : ℕ) → i < in_ports kind → IsPartOf (before i) (now i)) → (port : ℕ) (records : List Record) →
        SendsBy (role kind) (λ q ins. op kind t ins q) before now port records
        (λ q. less (op kind t now q) (op kind t before q)) }
    ensures alone { (op : ℕ → (ℕ → List Record) → List Record) (before now : ℕ → List Record) (port : ℕ) (records : List Record)
        (out other : ℕ → List Record) →
        SendsBy Role.stateful op before now port records out → SendsBy Role.stateful op before now port records other →
        (q : ℕ) → out q ≈ other q }
{}

/// What must be sent at the two kinds that compare their ports, for each record. An except sends the record at the notification, once, if it is
/// present on port 0 and not on port 1. An intersect sends it once, for the message that makes it present on both.
pub fn law_compared_ports()
    ensures except { (t : Time) (absorbed : ℕ → List Record) (out : ℕ → List Record) →
        SendsAtNotification (λ q ins. op Kind.except t ins q) absorbed out
        ↔ ((q : ℕ) (r : Record) → count r (out q) ≡ one_if (is_present r (absorbed 0) && not (is_present r (absorbed 1)))) }
    ensures intersect { (t : Time) (before now : ℕ → List Record) →
        ((i : ℕ) → i < in_ports Kind.intersect → IsPartOf (before i) (now i)) → (port : ℕ) (records : List Record)
        (out : ℕ → List Record) →
        SendsBy (role Kind.intersect) (λ q ins. op Kind.intersect t ins q) before now port records out
        ↔ ((q : ℕ) (r : Record) →
        count r (out q)
        ≡ one_if (is_present r (now 0) && is_present r (now 1) && not (is_present r (before 0) && is_present r (before 1)))) }
{}
