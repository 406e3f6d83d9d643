ghost use Rattle.std.specs.Prelude.{◌≡◌, ◌++◌, ℕ, List, [], ◌∷◌, pos, negsuc};
ghost use Rattle.semantics.specs.Multiset.{Record, ◌≈◌};
ghost use Rattle.semantics.specs.Query.{Scalar, Comparison, Cond, Agg};
ghost use Rattle.semantics.specs.Meaning.{program_meaning};
ghost use Rattle.semantics.specs.Typing.{WellTyped};
ghost use Rattle.semantics.specs.Time.{at_epoch};
ghost use Rattle.semantics.specs.Could.{at_vertex, CouldResultIn};
ghost use Rattle.semantics.specs.Kinds.{Kind};
ghost use Rattle.semantics.specs.Graph.{output_numbers};
ghost use Rattle.semantics.specs.Lower.{lowered, port, new_vertex};
ghost use Rattle.semantics.specs.Examples.{one_field, two_fields, three_fields, first_plus_1, twice, sums_by_key, reachability};
ghost use Rattle.semantics.specs.Examples.{connected, no_turns, outer_name, loop_in_loop, two_turns, outer_name_in_loops, in_a_alone, in_a_and_b};
ghost use Rattle.semantics.specs.Examples.{except_in_loop, small_and_all, least_of_let, twice_out, a_and_b, one_and_two, turn};

/// The meanings of small programs. `a` concatenated with itself has each record twice as often; a sum wraps at 64 bits; the edges 1-2, 2-3 and 3-4
/// give all pairs that are connected by up to four of them; a closure gives such pairs once, also where edges go round; a loop of no turns gives its start; a loop whose body is a name from outside gives what
/// that name means; and two turns of three turns of `#0 + 1` add 6. An except of `a` and `b` has each record once that only `a` has, and an intersect
/// each that both have. Each of two outputs means its own relation, and an output beyond the last means nothing. A relation that names a let means
/// what the let's relation means.
pub fn law_meanings()
    ensures twice { (records : List Record) → program_meaning twice 0 (λ i. records) ≡ records ++ records }
    ensures sum_wraps { program_meaning sums_by_key 0 (λ i. two_fields 1 9223372036854775807 ∷ two_fields 1 1 ∷ [])
        ≡ three_fields (pos 1) (negsuc 9223372036854775807) (pos 2) ∷ [] }
    ensures reaches { program_meaning reachability 0 (λ i. two_fields 1 2 ∷ two_fields 2 3 ∷ two_fields 3 4 ∷ [])
        ≈ (two_fields 1 2 ∷ two_fields 1 3 ∷ two_fields 1 4 ∷ two_fields 2 3 ∷ two_fields 2 4 ∷ two_fields 3 4 ∷ []) }
    ensures connects { program_meaning connected 0 (λ i. two_fields 1 2 ∷ two_fields 1 2 ∷ two_fields 2 1 ∷ two_fields 2 3 ∷ [])
        ≈ (two_fields 1 1 ∷ two_fields 1 2 ∷ two_fields 1 3 ∷ two_fields 2 1 ∷ two_fields 2 2 ∷ two_fields 2 3 ∷ []) }
    ensures no_turns { program_meaning no_turns 0 (λ i. one_field (pos 5) ∷ []) ≡ one_field (pos 5) ∷ [] }
    ensures outer_name { (records : ℕ → List Record) → program_meaning outer_name 0 records ≡ records 1 }
    ensures loop_in_loop { program_meaning loop_in_loop 0 (λ i. one_field (pos 10) ∷ []) ≡ one_field (pos 16) ∷ [] }
    ensures in_a_alone { program_meaning in_a_alone 0 a_and_b ≡ one_field (pos 1) ∷ [] }
    ensures in_a_and_b { program_meaning in_a_and_b 0 a_and_b ≡ one_field (pos 2) ∷ [] }
    ensures except_in_loop { program_meaning except_in_loop 0 one_and_two ≡ one_field (pos 1) ∷ [] }
    ensures small { program_meaning small_and_all 0 (λ i. one_field (pos 3) ∷ one_field (pos 7) ∷ []) ≡ one_field (pos 3) ∷ [] }
    ensures all { program_meaning small_and_all 1 (λ i. one_field (pos 3) ∷ one_field (pos 7) ∷ [])
        ≡ one_field (pos 3) ∷ one_field (pos 7) ∷ [] }
    ensures least_of_let { program_meaning least_of_let 1 (λ i. one_field (pos 5) ∷ []) ≡ two_fields 6 6 ∷ [] }
    ensures no_more { program_meaning small_and_all 2 (λ i. one_field (pos 3) ∷ one_field (pos 7) ∷ []) ≡ [] }
{}

/// Programs with loops are well typed, and so is one with two outputs; a program whose outputs have the same name isn't.
pub fn law_well_typed()
    ensures reachability { WellTyped reachability (2 ∷ []) }
    ensures connected { WellTyped connected (2 ∷ []) }
    ensures loops { WellTyped outer_name_in_loops (1 ∷ []) }
    ensures outputs { WellTyped small_and_all (1 ∷ 1 ∷ []) }
    ensures one_name { (ns : List ℕ) → WellTyped twice_out ns → ⊥ }
{}

/// The graphs of four programs with loops, of an except, of two outputs, and of a let with two outputs, vertex by vertex: a vertex is its kind, its
/// depth and the ports that feed it. The vertices of the two outputs of `small_and_all` are 2 and 3.
pub fn law_graphs()
    ensures two_turns { lowered two_turns ≡
        new_vertex Kind.input 0 []
        ∷ new_vertex Kind.ingress 0 (port 0 0 ∷ [])
        ∷ new_vertex Kind.concat 1 (port 1 0 ∷ port 5 0 ∷ [])
        ∷ new_vertex (Kind.gate 2) 1 (port 2 0 ∷ [])
        ∷ new_vertex (Kind.select first_plus_1) 1 (port 3 0 ∷ [])
        ∷ new_vertex Kind.feedback 1 (port 4 0 ∷ [])
        ∷ new_vertex Kind.egress 1 (port 3 1 ∷ [])
        ∷ new_vertex Kind.output 0 (port 6 0 ∷ [])
        ∷ [] }
    ensures connected { lowered connected ≡
        new_vertex Kind.input 0 []
        ∷ new_vertex Kind.ingress 0 (port 0 0 ∷ [])
        ∷ new_vertex Kind.concat 1 (port 1 0 ∷ port 10 0 ∷ [])
        ∷ new_vertex (Kind.unseen 3) 1 (port 2 0 ∷ [])
        ∷ new_vertex Kind.ingress 0 (port 0 0 ∷ [])
        ∷ new_vertex Kind.concat 1 (port 4 0 ∷ port 7 0 ∷ [])
        ∷ new_vertex (Kind.hold 1) 1 (port 5 0 ∷ [])
        ∷ new_vertex Kind.feedback 1 (port 6 1 ∷ [])
        ∷ new_vertex (Kind.lookup (record { left = 1; right = 0 } ∷ [])) 1 (port 3 0 ∷ port 6 0 ∷ [])
        ∷ new_vertex (Kind.select (Scalar.column 0 ∷ Scalar.column 3 ∷ [])) 1 (port 8 0 ∷ [])
        ∷ new_vertex Kind.feedback 1 (port 9 0 ∷ [])
        ∷ new_vertex Kind.egress 1 (port 3 1 ∷ [])
        ∷ new_vertex Kind.output 0 (port 11 0 ∷ [])
        ∷ [] }
    ensures outer_name { lowered outer_name ≡
        new_vertex Kind.input 0 []
        ∷ new_vertex Kind.input 0 []
        ∷ new_vertex Kind.ingress 0 (port 0 0 ∷ [])
        ∷ new_vertex Kind.concat 1 (port 2 0 ∷ port 9 0 ∷ [])
        ∷ new_vertex (Kind.gate 2) 1 (port 3 0 ∷ [])
        ∷ new_vertex Kind.ingress 0 (port 1 0 ∷ [])
        ∷ new_vertex Kind.concat 1 (port 5 0 ∷ port 8 0 ∷ [])
        ∷ new_vertex (Kind.hold 2) 1 (port 6 0 ∷ [])
        ∷ new_vertex Kind.feedback 1 (port 7 1 ∷ [])
        ∷ new_vertex Kind.feedback 1 (port 7 0 ∷ [])
        ∷ new_vertex Kind.egress 1 (port 4 1 ∷ [])
        ∷ new_vertex Kind.output 0 (port 10 0 ∷ [])
        ∷ [] }
    ensures loops { lowered outer_name_in_loops ≡
        new_vertex Kind.input 0 []
        ∷ new_vertex Kind.input 0 []
        ∷ new_vertex Kind.ingress 0 (port 0 0 ∷ [])
        ∷ new_vertex Kind.concat 1 (port 2 0 ∷ port 19 0 ∷ [])
        ∷ new_vertex (Kind.gate 2) 1 (port 3 0 ∷ [])
        ∷ new_vertex Kind.ingress 0 (port 1 0 ∷ [])
        ∷ new_vertex Kind.concat 1 (port 5 0 ∷ port 8 0 ∷ [])
        ∷ new_vertex (Kind.hold 2) 1 (port 6 0 ∷ [])
        ∷ new_vertex Kind.feedback 1 (port 7 1 ∷ [])
        ∷ new_vertex Kind.ingress 1 (port 4 0 ∷ [])
        ∷ new_vertex Kind.concat 2 (port 9 0 ∷ port 17 0 ∷ [])
        ∷ new_vertex (Kind.gate 1) 2 (port 10 0 ∷ [])
        ∷ new_vertex Kind.ingress 1 (port 7 0 ∷ [])
        ∷ new_vertex Kind.concat 2 (port 12 0 ∷ port 15 0 ∷ [])
        ∷ new_vertex (Kind.hold 1) 2 (port 13 0 ∷ [])
        ∷ new_vertex Kind.feedback 2 (port 14 1 ∷ [])
        ∷ new_vertex Kind.concat 2 (port 11 0 ∷ port 14 0 ∷ [])
        ∷ new_vertex Kind.feedback 2 (port 16 0 ∷ [])
        ∷ new_vertex Kind.egress 2 (port 11 1 ∷ [])
        ∷ new_vertex Kind.feedback 1 (port 18 0 ∷ [])
        ∷ new_vertex Kind.egress 1 (port 4 1 ∷ [])
        ∷ new_vertex Kind.output 0 (port 20 0 ∷ [])
        ∷ [] }
    ensures in_a_alone { lowered in_a_alone ≡
        new_vertex Kind.input 0 []
        ∷ new_vertex Kind.input 0 []
        ∷ new_vertex Kind.except 0 (port 0 0 ∷ port 1 0 ∷ [])
        ∷ new_vertex Kind.output 0 (port 2 0 ∷ [])
        ∷ [] }
    ensures small_and_all { lowered small_and_all ≡
        new_vertex Kind.input 0 []
        ∷ new_vertex (Kind.filter (Cond.compare Comparison.less (Scalar.column 0) (Scalar.literal (pos 5)))) 0 (port 0 0 ∷ [])
        ∷ new_vertex Kind.output 0 (port 1 0 ∷ [])
        ∷ new_vertex Kind.output 0 (port 0 0 ∷ [])
        ∷ [] }
    ensures least_of_let { lowered least_of_let ≡
        new_vertex Kind.input 0 []
        ∷ new_vertex (Kind.select first_plus_1) 0 (port 0 0 ∷ [])
        ∷ new_vertex Kind.output 0 (port 0 0 ∷ [])
        ∷ new_vertex (Kind.group (0 ∷ []) (Agg.min 0 ∷ [])) 0 (port 1 0 ∷ [])
        ∷ new_vertex Kind.output 0 (port 3 0 ∷ [])
        ∷ [] }
    ensures outputs { output_numbers (lowered small_and_all) ≡ 2 ∷ 3 ∷ [] }
{}

/// In the graph of `two_turns`, the gate (vertex 3) at one turn could result in itself, in the concat (vertex 2) at the next turn and in the output
/// (vertex 7), but not in the concat at the same turn.
pub fn law_could_result_in()
    ensures itself { CouldResultIn (lowered two_turns) (at_vertex 3 (turn 1)) (at_vertex 3 (turn 1)) }
    ensures round { CouldResultIn (lowered two_turns) (at_vertex 3 (turn 1)) (at_vertex 2 (turn 2)) }
    ensures out { CouldResultIn (lowered two_turns) (at_vertex 3 (turn 1)) (at_vertex 7 (at_epoch 0)) }
    ensures not_back { CouldResultIn (lowered two_turns) (at_vertex 3 (turn 1)) (at_vertex 2 (turn 1)) → ⊥ }
{}
