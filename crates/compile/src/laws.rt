//! A query has one graph, or is too large, and not both.

ghost use Rattle.std.specs.Prelude.{◌≡◌, ◌<◌, ℕ, List, length};
ghost use Rattle.semantics.specs.Graph as graph;
ghost use Rattle.semantics.specs.Query.{Input, Name};
ghost use Rattle.graph.specs.Limits.{max_vertices};
ghost use Rattle.compile.specs.Compiled.{IsCompiled, IsTooLarge};

/// A text has at most one graph, and where it is too large that graph has over 4096 vertices, so that none is given.
pub fn law_one_graph()
    ensures same { (text : List ℕ) (g h : graph.Graph) (i j : List Input) (m n : List Name) → IsCompiled text g i m → IsCompiled text h j n → g ≡ h }
    ensures large { (text : List ℕ) (g : graph.Graph) (i : List Input) (m : List Name) → IsCompiled text g i m → IsTooLarge text → max_vertices < length g }
{}
