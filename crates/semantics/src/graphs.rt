ghost use Rattle.std.specs.Prelude.{◌≡◌, ◌≤◌, ◌<◌, ◌↔◌, ℕ, List, [], true, length, map, slice_index_or};
ghost use Rattle.semantics.specs.Multiset.{◌≈◌};
ghost use Rattle.semantics.specs.Query.{Program};
ghost use Rattle.semantics.specs.Meaning.{program_meaning};
ghost use Rattle.semantics.specs.Typing.{WellTyped};
ghost use Rattle.semantics.specs.Time.{Time, at_epoch, last, turn_count};
ghost use Rattle.semantics.specs.Kinds.{Kind, ends_turn};
ghost use Rattle.semantics.specs.Graph.{Graph, vertex, source, edge_count, edge_into, in_port, input_count, output_numbers, output_number, target};
ghost use Rattle.semantics.specs.PortArity.{HaveFields, IsTyped, program_arities};
ghost use Rattle.semantics.specs.Flow.{Inputs, Flow, IsFlow, IsEdgeTime, HasOneFlow};
ghost use Rattle.semantics.specs.Dataflow.{IsDataflow};
ghost use Rattle.semantics.specs.Lower.{lowered};

/// A dataflow graph has exactly one flow on any inputs.
pub fn law_one_flow()
    ensures { (g : Graph) → IsDataflow g → (inputs : Inputs) → HasOneFlow g inputs }
{}

/// A graph's edges by their numbers: each enters an in port of a vertex, and each in port is entered by the edge of one number.
pub fn law_edges()
    ensures entered { (g : Graph) (edge : ℕ) → edge < edge_count g →
        (target g edge < length g) × (in_port g edge < length (vertex g (target g edge)).ins) × (edge_into g (target g edge) (in_port g edge) ≡ edge) }
    ensures into { (g : Graph) (v port : ℕ) → port < length (vertex g v).ins →
        (v < length g) × (edge_into g v port < edge_count g) × (target g (edge_into g v port) ≡ v) × (in_port g (edge_into g v port) ≡ port) }
{}

/// A graph's inputs by their places: each is an input vertex, of the same number, and a dataflow graph has no other input vertex.
pub fn law_inputs()
    ensures input { (g : Graph) (input : ℕ) → input < input_count g → (input < length g) × ((vertex g input).kind ≡ Kind.input) }
    ensures all { (g : Graph) → IsDataflow g → (v : ℕ) → v < length g → (vertex g v).kind ≡ Kind.input → v < input_count g }
{}

/// A graph's outputs by their places: each is an output vertex, each output vertex has a place, and the numbers rise.
pub fn law_outputs()
    ensures output { (g : Graph) (output : ℕ) → output < length (output_numbers g) →
        (output_number g output < length g) × ((vertex g (output_number g output)).kind ≡ Kind.output) }
    ensures all { (g : Graph) (v : ℕ) → v < length g → (vertex g v).kind ≡ Kind.output →
        (output : ℕ) × (output < length (output_numbers g)) × (output_number g output ≡ v) }
    ensures in_order { (g : Graph) (j k : ℕ) → j < k → k < length (output_numbers g) → output_number g j < output_number g k }
{}

/// The graph of a well-typed program is a dataflow graph, so it has exactly one flow. Any program's graph has the program's inputs, which are its first
/// vertices, and the program's outputs. At each epoch, its edge into each output vertex has what the program means at that output on that epoch's
/// inputs. On an edge into a feedback or an egress a flow is empty at last counters over the limit of turns.
pub fn law_program()
    ensures dataflow { (p : Program) (ns : List ℕ) → WellTyped p ns → IsDataflow (lowered p) }
    ensures one_flow { (p : Program) (ns : List ℕ) (inputs : Inputs) → WellTyped p ns → HasOneFlow (lowered p) inputs }
    ensures inputs { (p : Program) → input_count (lowered p) ≡ length p.inputs }
    ensures input_vertices { (p : Program) (v : ℕ) → ((vertex (lowered p) v).kind ≡ Kind.input) ↔ (v < length p.inputs) }
    ensures outputs { (p : Program) → length (output_numbers (lowered p)) ≡ length p.outputs }
    ensures meaning { (p : Program) (ns : List ℕ) (inputs : Inputs) (f : Flow) (output epoch : ℕ) →
        WellTyped p ns → IsFlow (lowered p) inputs f → output < length p.outputs →
        f (output_number (lowered p) output) 0 (at_epoch epoch) ≈ program_meaning p output (λ i. inputs i epoch) }
    ensures quiet { (p : Program) (ns : List ℕ) (inputs : Inputs) (f : Flow) (w i : ℕ) (u : Time) →
        WellTyped p ns → IsFlow (lowered p) inputs f → IsEdgeTime (lowered p) w i u →
        ends_turn (vertex (lowered p) w).kind ≡ true → turn_count ≤ last u.counters →
        f w i u ≈ [] }
{}

/// Each port of a well-typed program's graph has its arity, including the inputs and outputs. In a flow on inputs of the right arities, each edge's
/// records have the arity of the port at which the edge begins.
pub fn law_arities()
    ensures ports { (p : Program) (ns : List ℕ) → WellTyped p ns → IsTyped (lowered p) (λ v. slice_index_or (program_arities p) v 0) }
    ensures inputs { (p : Program) (i : ℕ) → i < length p.inputs →
        slice_index_or (program_arities p) i 0 ≡ slice_index_or (map (λ a. a.arity) p.inputs) i 0 }
    ensures outputs { (p : Program) (ns : List ℕ) → WellTyped p ns → length ns ≡ length p.outputs }
    ensures output { (p : Program) (ns : List ℕ) (output : ℕ) → WellTyped p ns → output < length p.outputs →
        slice_index_or (program_arities p) (output_number (lowered p) output) 0 ≡ slice_index_or ns output 0 }
    ensures flow { (g : Graph) → IsDataflow g → (arity : ℕ → ℕ) → IsTyped g arity → (inputs : Inputs) →
        ((v epoch : ℕ) → v < length g → (vertex g v).kind ≡ Kind.input → HaveFields (arity v) (inputs v epoch)) →
        (f : Flow) → IsFlow g inputs f → (w i : ℕ) (u : Time) → IsEdgeTime g w i u →
        HaveFields (arity (source g w i).vertex) (f w i u) }
{}
