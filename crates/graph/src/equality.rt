//! Equality of graphs: of what they show, wherever it lies in memory, and whatever the places of its scalars and conditions in a text.

ghost use Rattle.std.specs.Prelude.{◌≡◌, ◌↔◌, IsTrue, map, nat_eq};
ghost use Rattle.std.specs.Cmp.{on_equiv, partial_equiv_from_equiv};
ghost use Rattle.std.specs.Cmp.Lexicographic.{pointwise};
ghost use Rattle.expr_tree.specs.Plain.{plain_agg, plain_cond, plain_pair};
ghost use Rattle.expr_tree.specs.PlainLists.{plain_scalars};
ghost use Rattle.expr_tree.specs.Views.{cond_tree};
ghost use Rattle.semantics.specs.Meaning.{same_name};
ghost use Rattle.graph.specs.Edges.{same_port};
ghost use Rattle.graph.specs.Equality.{agg_eq, cond_eq, graph_eq, input_eq, kind_eq, pair_eq, scalar_eq, vertex_eq};
ghost use Rattle.graph.specs.EqualityLaws.{graph_equiv, kind_equiv, vertex_equiv};
ghost use Rattle.graph.specs.Shown.{ShowSame};
ghost use Rattle.graph.specs.Views.{graph_of, kind_of, name_of_output, port_of, sources_of, vertex_of};
ghost use Rattle.record_core.specs.Inputs.{input_of};

use crate::graph::{Graph, GraphOutput};
use crate::vertex::{Kind, Port, Sources, Vertex};
use expr_tree::{
    Agg, Column, Cond, Pair, Scalar, same_aggs, same_columns, same_cond, same_pairs, same_scalars,
};
use record_core::DeclaredInput;
use std::alloc::Global;

impl PartialEq for Graph {
    ghost eq = { graph_eq };

    ghost laws = { partial_equiv_from_equiv graph_equiv };

    /// Whether both graphs show the same vertices, inputs, names of outputs and arities, in order. No memory is taken.
    fn eq(&self, other: &Self) -> bool
        ensures value { result ≡ graph_eq self.now other.now }
        ensures decides { IsTrue result ↔ ShowSame self.now other.now }
    {
        equal_graphs(self, other)
    }
}

impl Eq for Graph {
    ghost laws = { graph_equiv };
}

impl PartialEq for Vertex {
    ghost eq = { λ v w. vertex_eq (vertex_of v) (vertex_of w) };

    ghost laws = { partial_equiv_from_equiv (on_equiv vertex_of vertex_equiv) };

    fn eq(&self, other: &Self) -> bool {
        self.depth == other.depth && same_sources(self.ins, other.ins) && self.kind == other.kind
    }
}

impl Eq for Vertex {
    ghost laws = { on_equiv vertex_of vertex_equiv };
}

impl PartialEq for Kind {
    ghost eq = { λ k l. kind_eq (kind_of k) (kind_of l) };

    ghost laws = { partial_equiv_from_equiv (on_equiv kind_of kind_equiv) };

    fn eq(&self, other: &Self) -> bool {
        match (self, other) {
            (Kind::Input, Kind::Input) => true,
            (Kind::Output, Kind::Output) => true,
            (Kind::Select(ss), Kind::Select(ts)) => equal_scalars(ss, ts),
            (Kind::Where(c), Kind::Where(d)) => equal_conds(c, d),
            (Kind::Concat, Kind::Concat) => true,
            (Kind::Join(ps), Kind::Join(qs)) => equal_pairs(ps, qs),
            (Kind::Lookup(ps), Kind::Lookup(qs)) => equal_pairs(ps, qs),
            (Kind::Group(ks, gs), Kind::Group(ls, hs)) => {
                equal_columns(ks, ls) && equal_aggs(gs, hs)
            }
            (Kind::Distinct, Kind::Distinct) => true,
            (Kind::Except, Kind::Except) => true,
            (Kind::Intersect, Kind::Intersect) => true,
            (Kind::Ingress, Kind::Ingress) => true,
            (Kind::Egress, Kind::Egress) => true,
            (Kind::Feedback, Kind::Feedback) => true,
            (Kind::Gate(m), Kind::Gate(n)) => *m == *n,
            (Kind::Unseen(m), Kind::Unseen(n)) => *m == *n,
            (Kind::Hold(m), Kind::Hold(n)) => *m == *n,
            _ => false,
        }
    }
}

impl Eq for Kind {
    ghost laws = { on_equiv kind_of kind_equiv };
}

/// Whether both graphs show the same.
fn equal_graphs(left: &Graph, right: &Graph) -> bool
    ensures { result ≡ graph_eq left.now right.now }
{
    equal_vertices(left.vertices(), right.vertices())
        && equal_inputs(left.inputs(), right.inputs())
        && same_outputs(left.outputs(), right.outputs())
        && left.arities() == right.arities()
}

/// Whether the vertices are equal, one by one.
fn equal_vertices(left: &[Vertex], right: &[Vertex]) -> bool
    ensures { result ≡ pointwise vertex_eq (graph_of left.now) (graph_of right.now) }
{
    left == right
}

/// Whether the inputs are equal, one by one.
fn equal_inputs(left: &[DeclaredInput], right: &[DeclaredInput]) -> bool
    ensures { result ≡ pointwise input_eq (map input_of left.now) (map input_of right.now) }
{
    match (left, right) {
        ([], []) => true,
        ([x, xs @ ..], [y, ys @ ..]) => {
            x.arity == y.arity && x.name == y.name && equal_inputs(xs, ys)
        }
        _ => false,
    }
}

/// Whether the outputs have the same names, one by one.
fn same_outputs(left: &[GraphOutput], right: &[GraphOutput]) -> bool
    ensures { result ≡ pointwise same_name (map name_of_output left.now) (map name_of_output right.now) }
{
    match (left, right) {
        ([], []) => true,
        ([x, xs @ ..], [y, ys @ ..]) => x.name == y.name && same_outputs(xs, ys),
        _ => false,
    }
}

/// Whether two lists of ports are equal.
fn same_sources(left: Sources, right: Sources) -> bool
    ensures { result ≡ pointwise same_port (sources_of left) (sources_of right) }
{
    match (left, right) {
        (Sources::Nothing, Sources::Nothing) => true,
        (Sources::One(p), Sources::One(q)) => equal_ports(p, q),
        (Sources::Two(p, q), Sources::Two(r, s)) => equal_ports(p, r) && equal_ports(q, s),
        _ => false,
    }
}

fn equal_ports(left: Port, right: Port) -> bool
    ensures { result ≡ same_port (port_of left) (port_of right) }
{
    left.vertex.0 == right.vertex.0 && left.out == right.out
}

/// Whether two conditions are equal, spans aside.
fn equal_conds(left: &Cond<Global>, right: &Cond<Global>) -> bool
    ensures { result ≡ cond_eq (plain_cond (cond_tree left.now)) (plain_cond (cond_tree right.now)) }
{
    same_cond(left, right)
}

/// Whether the scalars are equal one by one, spans aside.
fn equal_scalars(left: &[Scalar<Global>], right: &[Scalar<Global>]) -> bool
    ensures { result ≡ pointwise scalar_eq (plain_scalars left.now) (plain_scalars right.now) }
{
    same_scalars(left, right)
}

/// Whether the columns are equal one by one, spans aside.
fn equal_columns(left: &[Column], right: &[Column]) -> bool
    ensures { result ≡ pointwise nat_eq (map (λ k. k.index) left.now) (map (λ k. k.index) right.now) }
{
    same_columns(left, right)
}

/// Whether the pairs are equal one by one, spans aside.
fn equal_pairs(left: &[Pair], right: &[Pair]) -> bool
    ensures { result ≡ pointwise pair_eq (map plain_pair left.now) (map plain_pair right.now) }
{
    same_pairs(left, right)
}

/// Whether the aggregates are equal one by one, spans aside.
fn equal_aggs(left: &[Agg], right: &[Agg]) -> bool
    ensures { result ≡ pointwise agg_eq (map plain_agg left.now) (map plain_agg right.now) }
{
    same_aggs(left, right)
}
