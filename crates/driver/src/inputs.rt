//! The inputs that a board is fed at.

ghost use Rattle.std.specs.Prelude.{◌≡◌, ℕ, Some, slice_get};
ghost use Rattle.semantics.specs.Query.{Input};
ghost use Rattle.semantics.specs.Typing.{IsArity};
ghost use Rattle.graph.specs.Shown.{shown_inputs};
ghost use Rattle.driver.specs.Inputs.{AreInputsOf};

use graph::Graph;

/// The inputs that a graph declares are its input vertices, with their arities, so a board takes records of that many fields there. Nothing is done.
pub fn law_inputs(graph: &Graph)
    ensures inputs { AreInputsOf graph.now (shown_inputs graph.now) }
    ensures fields { (i : ℕ) (input : Input) → slice_get (shown_inputs graph.now) i ≡ Some input → IsArity input.arity }
{
    semantics::graphs::law_program();
    semantics::graphs::law_arities();
    graph.law_of_arities();
    graph.law_of_ports();
    let _ = graph.vertex_count();
}
