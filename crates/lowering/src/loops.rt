//! The vertices of a loop.

ghost use Rattle.std.specs.Prelude.{◌≡◌, ◌≤◌, ◌<◌, ◌++◌, ◌∷◌, [], suc, ◌+◌, ◌*◌, length, slice_set, IfOk, IfErr, OnOk};
ghost use Rattle.semantics.specs.Kinds as semantics;
ghost use Rattle.semantics.specs.Limits.{max_loops};
ghost use Rattle.expr_tree.specs.Plain.{plain_form};
ghost use Rattle.semantics.specs.Lower.{carried_ports, carry, gate_of, held_turns, new_vertex, port};
ghost use Rattle.lowering.specs.Faults.{IsOver};
ghost use Rattle.lowering.specs.Loops.{body_port, carry_one, entry_of, inside_of, names_carried, names_once, with_loop_exit};
ghost use Rattle.lowering.specs.Scopes.{Extends, ports_of};
ghost use Rattle.graph.specs.Limits.{max_vertices};
ghost use Rattle.graph.specs.Views.{graph_of, kind_of, port_of};

use crate::fault::LowerFault;
use crate::names::{carried_names, names_once, stands_in};
use crate::scope::Scope;
use crate::vertex::add_vertex;
use expr_tree::{LoopForm, Rel};
use graph::{Kind, Port, Sources, Vertex, VertexId};
use record_core::{Name, NoMemory};
use std::alloc::{Allocator, Global};

/// What stands at the head of a loop: its form, its limit of turns and its variable; and the names that come once where it stands.
#[derive(Clone, Copy)]
pub struct LoopHead<'a> {
    pub form: LoopForm,
    pub turns: u64,
    pub variable: &'a Name,
    pub once: &'a [Name],
}

/// The vertex that lets records into a turn of a loop, and out of the loop.
fn gate_kind(form: LoopForm, turns: u64) -> Kind
    ensures { kind_of result ≡ gate_of (plain_form form) turns }
{
    match form {
        LoopForm::Iterate => Kind::Gate(turns),
        LoopForm::Closure => Kind::Unseen(turns),
    }
}

/// Makes the vertices of a loop that stand before its body: an ingress, a concat whose second source isn't known yet, and a gate
/// for the variable, then the four of each carried name. In the scope the names then stand for what they mean inside the loop.
/// Gives the gate's out port 0, and the names that come once in the body.
pub fn open_loop<A: Allocator>(
    alloc: Global,
    head: LoopHead<'_>,
    body: &Rel<A>,
    start: Port,
    scope: &mut Scope,
    depth: u32,
    made: &mut Vec<Vertex>,
) -> Result<(Port, Vec<Name>), LowerFault>
    requires { depth < max_loops }
    ensures made { OnOk result (graph_of made.new.items ≡ graph_of made.old.items
        ++ entry_of head.entry.form head.entry.turns head.entry.variable.now body.now (port_of start) (ports_of scope.old) depth (length made.old.items)) }
    ensures gives { IfOk result (λ r. port_of r.0 ≡ body_port (length made.old.items)) }
    ensures once { IfOk result (λ r. r.1.items ≡ names_once head.entry.form head.entry.variable.now body.now) }
    ensures inside { OnOk result (ports_of scope.new ≡
        inside_of (ports_of scope.old) head.entry.variable.now (length made.old.items) (names_carried head.entry.variable.now body.now)) }
    ensures outside { OnOk result (Extends scope.old scope.new) }
    ensures many { IfErr result (λ e. IsOver e (length made.old.items
        + length (entry_of head.entry.form head.entry.turns head.entry.variable.now body.now (port_of start) (ports_of scope.old) depth (length made.old.items)))) }
{
    let names = carried_names(alloc, head.variable, body)?;
    let once = names_once(alloc, head.form, head.variable, body, &names)?;
    let first = add_vertex(made, Kind::Ingress, depth, Sources::One(start))?;
    let both = add_vertex(made, Kind::Concat, depth + 1, Sources::Two(first, first))?;
    let kind = gate_kind(head.form, head.turns);
    let gate = add_vertex(made, kind, depth + 1, Sources::One(both))?;
    carry_names(head.turns, &once, &names, scope, depth, made)?;
    scope.bind(head.variable, gate)?;
    Ok((gate, once))
}

/// Makes the vertices of a loop that stand after its body, and gives the concat its second source. Gives the egress's out port.
pub fn close_loop(
    made: &mut Vec<Vertex>,
    gate: Port,
    body: Port,
    depth: u32,
) -> Result<Port, LowerFault>
    requires shallow { depth < max_loops }
    requires first { 2 ≤ gate.vertex.0 }
    requires made { gate.vertex.0 < length made.old.items }
    ensures made { OnOk result (graph_of made.new.items ≡ with_loop_exit made.old.items gate.vertex.0 (port_of body) depth) }
    ensures gives { IfOk result (λ p. port_of p ≡ port (suc (length made.old.items)) 0) }
    ensures many { IfErr result (λ e. IsOver e (length made.old.items + 2)) }
{
    let first = Port {
        vertex: VertexId(gate.vertex.0 - 2),
        out: 0,
    };
    let feedback = add_vertex(made, Kind::Feedback, depth + 1, Sources::One(body))?;
    set_concat(
        made,
        (gate.vertex.0 - 1) as usize,
        depth + 1,
        first,
        feedback,
    );
    let last = Port {
        vertex: gate.vertex,
        out: 1,
    };
    let egress = add_vertex(made, Kind::Egress, depth + 1, Sources::One(last))?;
    Ok(egress)
}

/// Makes the four vertices of each carried name, in order; in the scope the name then stands for its hold.
fn carry_names(
    turns: u64,
    once: &[Name],
    names: &[Name],
    scope: &mut Scope,
    depth: u32,
    made: &mut Vec<Vertex>,
) -> Result<(), LowerFault>
    requires shallow { depth < max_loops }
    requires few { length made.old.items ≤ max_vertices }
    ensures made { OnOk result (graph_of made.new.items ≡ graph_of made.old.items ++ carry (held_turns turns once.now) (ports_of scope.old) depth (length made.old.items) names.now) }
    ensures inside { OnOk result (ports_of scope.new ≡ carried_ports (ports_of scope.old) (length made.old.items) names.now) }
    ensures outside { OnOk result (Extends scope.old scope.new) }
    ensures many { IfErr result (λ e. IsOver e (length made.old.items
        + length (carry (held_turns turns once.now) (ports_of scope.old) depth (length made.old.items) names.now))) }
{
    let first = made.len();
    make_carried(turns, once, names, scope, depth, made)?;
    bind_carried(names, first, scope)?;
    Ok(())
}

/// Makes the four vertices of each carried name, in order.
fn make_carried(
    turns: u64,
    once: &[Name],
    names: &[Name],
    scope: &Scope,
    depth: u32,
    made: &mut Vec<Vertex>,
) -> Result<(), LowerFault>
    requires shallow { depth < max_loops }
    requires few { length made.old.items ≤ max_vertices }
    ensures made { OnOk result (graph_of made.new.items ≡ graph_of made.old.items ++ carry (held_turns turns once.now) (ports_of scope.now) depth (length made.old.items) names.now) }
    ensures few { OnOk result (length made.old.items + 4 * length names.now ≤ max_vertices) }
    ensures many { IfErr result (λ e. IsOver e (length made.old.items
        + length (carry (held_turns turns once.now) (ports_of scope.now) depth (length made.old.items) names.now))) }
{
    for i in 0..names.len() {
        let name = &names[i];
        let from = scope.find(name);
        let held = turns_held(turns, once, name);
        carry_one(held, from, depth, made)?;
    }
    Ok(())
}

/// For how many turns a name is held in a loop of that many.
fn turns_held(turns: u64, once: &[Name], name: &Name) -> u64
    ensures { result ≡ held_turns turns once.now name.now }
{
    if stands_in(once, name) { 1 } else { turns }
}

/// In the scope each carried name stands for its hold. The vertices of the first name begin at number `first`, and a name hides
/// those behind it.
fn bind_carried(names: &[Name], first: usize, scope: &mut Scope) -> Result<(), NoMemory>
    requires { first + 4 * length names.now ≤ max_vertices }
    ensures inside { OnOk result (ports_of scope.new ≡ carried_ports (ports_of scope.old) first names.now) }
    ensures outside { OnOk result (Extends scope.old scope.new) }
{
    let mut left = names.len();
    while left > 0 {
        left -= 1;
        let hold = Port {
            vertex: VertexId((first + 4 * left + 2) as u32),
            out: 0,
        };
        scope.bind(&names[left], hold)?;
    }
    Ok(())
}

/// Makes the four vertices of a carried name: it comes in at turn 0, and the hold sends it on at that many turns.
fn carry_one(turns: u64, from: Port, depth: u32, made: &mut Vec<Vertex>) -> Result<(), LowerFault>
    requires { depth < max_loops }
    ensures made { OnOk result (graph_of made.new.items ≡ graph_of made.old.items ++ carry_one turns (port_of from) depth (length made.old.items)) }
    ensures few { OnOk result (length made.new.items ≤ max_vertices) }
    ensures many { IfErr result (λ e. IsOver e (length made.old.items + 4)) }
{
    let first = add_vertex(made, Kind::Ingress, depth, Sources::One(from))?;
    let back = Port {
        vertex: VertexId(first.vertex.0 + 3),
        out: 0,
    };
    let both = add_vertex(made, Kind::Concat, depth + 1, Sources::Two(first, back))?;
    let hold = add_vertex(made, Kind::Hold(turns), depth + 1, Sources::One(both))?;
    let next = Port {
        vertex: hold.vertex,
        out: 1,
    };
    add_vertex(made, Kind::Feedback, depth + 1, Sources::One(next))?;
    Ok(())
}

/// The vertex of that number is the concat of these.
#[tactic(auto, using(crate::proofs::MoreVertices::graph_of_set))]
fn set_concat(made: &mut Vec<Vertex>, number: usize, depth: u32, first: Port, second: Port)
    requires { number < length made.old.items }
    ensures { graph_of made.new.items ≡
        slice_set (graph_of made.old.items) number (new_vertex semantics.Kind.concat depth (port_of first ∷ port_of second ∷ [])) }
{
    made[number] = Vertex {
        kind: Kind::Concat,
        depth,
        ins: Sources::Two(first, second),
    };
}
