//! The text of a graph: a line for each vertex.

ghost use Rattle.std.specs.Prelude.{◌≡◌, ◌++◌, codes, decimal, map, IfOk, OnOk, OnErr};
ghost use Rattle.graph.specs.Shown.{shown_graph, shown_names};
ghost use Rattle.graph_text.specs.Text.{graph_text, kind_text, line, line_head, line_rest, lines, name_beside, output_text, port_text, ports_text, vertex_text};
ghost use Rattle.graph.specs.Views.{graph_of, kind_of, name_of_output, number_of_output, port_of, sources_of, vertex_of};

use graph::{Graph, GraphOutput, Kind, Port, Sources, Vertex};
use itoa::Buffer;
use record_core::NoMemory;
use std::alloc::Global;

/// Puts the text of a graph at the end: for each vertex in order its number, its kind, its depth, and after `<-` the out ports
/// that feed it, each as `VERTEX.PORT`. An output has its name in brackets, unless it is `out`. After a refusal the bytes are as
/// before.
pub fn graph_text(alloc: Global, graph: &Graph, text: &mut Vec<u8>) -> Result<(), NoMemory>
    ensures ok { OnOk result (text.new.items ≡ text.old.items ++ graph_text (shown_graph graph.now) (shown_names graph.now)) }
    ensures err { OnErr result (text.new.items ≡ text.old.items) }
{
    let lines = all_lines(alloc, graph.vertices(), graph.outputs())?;
    text.extend_from_slice(&lines)?;
    Ok(())
}

/// The lines of the vertices.
#[tactic(auto, using(crate::proofs::Lines::one_line_more))]
fn all_lines(
    alloc: Global,
    vertices: &[Vertex],
    outputs: &[GraphOutput],
) -> Result<Vec<u8>, NoMemory>
    ensures { IfOk result (λ t. t.items ≡ lines 0 (graph_of vertices.now) (name_beside (map number_of_output outputs.now) (map name_of_output outputs.now))) }
{
    let mut text = Vec::new(alloc);
    for i in 0..vertices.len() {
        let name = name_of(outputs, i as u64);
        put_line(&mut text, i as u64, &vertices[i], name)?;
    }
    Ok(text)
}

/// The name of the output whose vertex has that number; nothing where there is none.
pub fn name_of(outputs: &[GraphOutput], number: u64) -> &[u8]
    ensures { result.now ≡ name_beside (map number_of_output outputs.now) (map name_of_output outputs.now) number }
{
    match outputs {
        [] => &[],
        [output, rest @ ..] => {
            if output.vertex.0 as u64 == number {
                output.name.bytes()
            } else {
                name_of(rest, number)
            }
        }
    }
}

/// A vertex's line.
fn put_line(text: &mut Vec<u8>, number: u64, vertex: &Vertex, name: &[u8]) -> Result<(), NoMemory>
    ensures { OnOk result (text.new.items ≡ text.old.items ++ line number (vertex_of vertex.now) name.now) }
{
    put_head(text, number, &vertex.kind, name)?;
    put_rest(text, vertex.depth, &vertex.ins)?;
    Ok(())
}

/// Puts the number and the kind of a vertex at the end, of an output with its name.
pub fn put_vertex(text: &mut Vec<u8>, number: u64, kind: &Kind, name: &[u8]) -> Result<(), NoMemory>
    ensures { OnOk result (text.new.items ≡ text.old.items ++ vertex_text number (kind_of kind.now) name.now) }
{
    put_number(text, number)?;
    text.extend_from_slice(b" ")?;
    put_kind(text, kind, name)
}

/// A line up to the depth.
fn put_head(text: &mut Vec<u8>, number: u64, kind: &Kind, name: &[u8]) -> Result<(), NoMemory>
    ensures { OnOk result (text.new.items ≡ text.old.items ++ line_head number (kind_of kind.now) name.now) }
{
    put_number(text, number)?;
    text.extend_from_slice(b" ")?;
    put_kind(text, kind, name)?;
    text.extend_from_slice(b" ")?;
    Ok(())
}

/// A line from the depth on.
fn put_rest(text: &mut Vec<u8>, depth: u32, ins: &Sources) -> Result<(), NoMemory>
    ensures { OnOk result (text.new.items ≡ text.old.items ++ line_rest depth (sources_of ins.now)) }
{
    put_number(text, depth as u64)?;
    text.extend_from_slice(b" <-")?;
    put_ports(text, ins)?;
    text.extend_from_slice(b"\n")?;
    Ok(())
}

/// A kind's name, with the number of turns of a gate, an unseen and a hold, and the name of an output.
pub fn put_kind(text: &mut Vec<u8>, kind: &Kind, name: &[u8]) -> Result<(), NoMemory>
    ensures { OnOk result (text.new.items ≡ text.old.items ++ kind_text (kind_of kind.now) name.now) }
{
    match kind {
        Kind::Gate(turns) => put_turns(text, b"gate(", *turns)?,
        Kind::Unseen(turns) => put_turns(text, b"unseen(", *turns)?,
        Kind::Hold(turns) => put_turns(text, b"hold(", *turns)?,
        Kind::Input => text.extend_from_slice(b"input")?,
        Kind::Output => put_output(text, name)?,
        Kind::Select(_) => text.extend_from_slice(b"select")?,
        Kind::Where(_) => text.extend_from_slice(b"where")?,
        Kind::Concat => text.extend_from_slice(b"concat")?,
        Kind::Join(_) => text.extend_from_slice(b"join")?,
        Kind::Lookup(_) => text.extend_from_slice(b"lookup")?,
        Kind::Group(_, _) => text.extend_from_slice(b"group")?,
        Kind::Distinct => text.extend_from_slice(b"distinct")?,
        Kind::Except => text.extend_from_slice(b"except")?,
        Kind::Intersect => text.extend_from_slice(b"intersect")?,
        Kind::Ingress => text.extend_from_slice(b"ingress")?,
        Kind::Egress => text.extend_from_slice(b"egress")?,
        Kind::Feedback => text.extend_from_slice(b"feedback")?,
    }
    Ok(())
}

/// An output, with its name unless it is `out`.
fn put_output(text: &mut Vec<u8>, name: &[u8]) -> Result<(), NoMemory>
    ensures { OnOk result (text.new.items ≡ text.old.items ++ output_text name.now) }
{
    if name == b"out".as_slice() {
        text.extend_from_slice(b"output")?;
    } else {
        text.extend_from_slice(b"output(")?;
        text.extend_from_slice(name)?;
        text.extend_from_slice(b")")?;
    }
    Ok(())
}

/// A word that ends in a bracket, with the number of turns in it.
fn put_turns(text: &mut Vec<u8>, word: &[u8], turns: u64) -> Result<(), NoMemory>
    ensures { OnOk result (text.new.items ≡ text.old.items ++ (word.now ++ (decimal turns ++ codes ")"))) }
{
    text.extend_from_slice(word)?;
    put_number(text, turns)?;
    text.extend_from_slice(b")")?;
    Ok(())
}

/// The ports that feed a vertex, each after a space.
fn put_ports(text: &mut Vec<u8>, ins: &Sources) -> Result<(), NoMemory>
    ensures { OnOk result (text.new.items ≡ text.old.items ++ ports_text (sources_of ins.now)) }
{
    match ins {
        Sources::Nothing => Ok(()),
        Sources::One(port) => {
            put_port(text, *port)?;
            Ok(())
        }
        Sources::Two(first, second) => {
            put_port(text, *first)?;
            put_port(text, *second)?;
            Ok(())
        }
    }
}

/// A port after a space.
fn put_port(text: &mut Vec<u8>, port: Port) -> Result<(), NoMemory>
    ensures { OnOk result (text.new.items ≡ text.old.items ++ port_text (port_of port)) }
{
    text.extend_from_slice(b" ")?;
    put_number(text, port.vertex.0 as u64)?;
    text.extend_from_slice(b".")?;
    put_number(text, port.out as u64)?;
    Ok(())
}

/// A number's decimal digits.
pub fn put_number(text: &mut Vec<u8>, number: u64) -> Result<(), NoMemory>
    ensures { OnOk result (text.new.items ≡ text.old.items ++ decimal number) }
{
    let mut buffer = Buffer::new();
    text.extend_from_slice(buffer.format(number).as_bytes())?;
    Ok(())
}
