//! The relations that are read at a place of a query.

use expr_tree::{Let, Output, Pair, Program, Rel, copy_rel};
use record_core::{Name, NoMemory, Span};
use std::alloc::{Allocator, Global};

/// More than a tree of a query's text is deep.
const MAX_DEPTH: u32 = 65;

/// The place of no column.
const NOWHERE: Span = Span { start: 0, end: 0 };

/// Of a relation that is read: which of two it is, empty where there is one, and where the text names its columns.
#[derive(Clone, Copy)]
pub struct Part {
    pub words: &'static str,
    pub columns: Span,
}

/// The inputs and the lets that are known at a place, and as outputs the relations that are read there, each with its part. A loop's variable is a
/// let with the relation that it starts with.
#[derive(Drop)]
pub struct Reading<A: Allocator> {
    pub program: Program<A>,
    pub parts: Vec<Part>,
}

/// A let or an output, and the number of lets before it.
#[derive(Drop)]
struct Item<'a, A: Allocator> {
    name: &'a Name,
    name_span: Span,
    relation: &'a Rel<A>,
    lets: usize,
}

impl<A: Allocator + Copy> Reading<A> {
    /// Adds a relation that is read.
    fn add(
        &mut self,
        arena: A,
        name: &Name,
        relation: &Rel<A>,
        part: Part,
    ) -> Result<(), NoMemory> {
        let relation = Box::new(arena, copy_rel(arena, relation)?)?;
        self.program.outputs.push(Output {
            keyword_span: NOWHERE,
            name_span: NOWHERE,
            name: name.copied(),
            relation,
        })?;
        self.parts.push(part)?;
        Ok(())
    }

    /// Adds two relations that are read together.
    fn add_two(
        &mut self,
        arena: A,
        name: &Name,
        left: &Rel<A>,
        right: &Rel<A>,
        words: (&'static str, &'static str),
        columns: (Span, Span),
    ) -> Result<(), NoMemory> {
        let first = Part {
            words: words.0,
            columns: columns.0,
        };
        let second = Part {
            words: words.1,
            columns: columns.1,
        };
        self.add(arena, name, left, first)?;
        self.add(arena, name, right, second)
    }
}

/// What a relation covers of the text.
fn span_of<A: Allocator>(relation: &Rel<A>) -> Span {
    match relation {
        Rel::Named(span, _)
        | Rel::Select(span, _, _)
        | Rel::Where(span, _, _)
        | Rel::SetOperation(span, _, _, _)
        | Rel::Join(span, _, _, _)
        | Rel::Group(span, _, _, _)
        | Rel::Distinct(span, _) => *span,
        Rel::Loop { span, .. } => *span,
    }
}

/// Whether a place lies in a relation.
fn holds<A: Allocator>(relation: &Rel<A>, place: Span) -> bool {
    let span = span_of(relation);
    span.start <= place.start && place.end <= span.end
}

/// The let or the output in which a place lies, or which is named there.
fn item_at<A: Allocator>(program: &Program<A>, place: Span) -> Option<Item<'_, A>> {
    for (lets, item) in program.lets.iter().enumerate() {
        if holds(&item.relation, place) {
            return Some(Item {
                name: &item.name,
                name_span: item.name_span,
                relation: &item.relation,
                lets,
            });
        }
    }
    for output in program.outputs.iter() {
        if output.name_span == place || holds(&output.relation, place) {
            return Some(Item {
                name: &output.name,
                name_span: output.name_span,
                relation: &output.relation,
                lets: program.lets.len(),
            });
        }
    }
    None
}

/// The one of two relations in which a place lies.
fn one_at<'a, A: Allocator>(
    first: &'a Rel<A>,
    second: &'a Rel<A>,
    place: Span,
) -> Option<&'a Rel<A>> {
    if holds(first, place) {
        Some(first)
    } else if holds(second, place) {
        Some(second)
    } else {
        None
    }
}

/// The relation in which a place lies, of those that a relation is made of.
fn inner_at<A: Allocator>(relation: &Rel<A>, place: Span) -> Option<&Rel<A>> {
    match relation {
        Rel::Named(_, _) => None,
        Rel::Select(_, of, _)
        | Rel::Where(_, of, _)
        | Rel::Group(_, of, _, _)
        | Rel::Distinct(_, of) => one_at(of, of, place),
        Rel::SetOperation(_, _, first, second) | Rel::Join(_, first, second, _) => {
            one_at(first, second, place)
        }
        Rel::Loop { start, body, .. } => one_at(start, body, place),
    }
}

/// Adds the variable of a loop, if the relation is one and the place isn't in its start.
fn declare_variable<A: Allocator + Copy>(
    arena: A,
    lets: &mut Vec<Let<A>, A>,
    relation: &Rel<A>,
    place: Span,
) -> Result<(), NoMemory> {
    match relation {
        Rel::Loop {
            name_span,
            name,
            start,
            ..
        } if !holds(start, place) => {
            let relation = Box::new(arena, copy_rel(arena, start)?)?;
            lets.push(Let {
                name_span: *name_span,
                name: name.copied(),
                relation,
            })?;
            Ok(())
        }
        _ => Ok(()),
    }
}

/// The smallest relation in which a place lies. The variables of the loops round the place are added to the lets.
fn smallest_at<'a, A: Allocator + Copy>(
    arena: A,
    lets: &mut Vec<Let<A>, A>,
    relation: &'a Rel<A>,
    place: Span,
) -> Result<&'a Rel<A>, NoMemory> {
    let mut smallest = relation;
    for _depth in 0..MAX_DEPTH {
        declare_variable(arena, lets, smallest, place)?;
        match inner_at(smallest, place) {
            Some(inner) => smallest = inner,
            None => return Ok(smallest),
        }
    }
    Ok(smallest)
}

/// The pair of a join that names a column at a place.
fn pair_at(pairs: &[Pair], place: Span) -> Option<(Span, Span)> {
    for pair in pairs {
        if pair.left.span == place || pair.right.span == place {
            return Some((pair.left.span, pair.right.span));
        }
    }
    None
}

/// Adds the relations that a relation reads at a place outside them.
fn add_read<A: Allocator + Copy>(
    arena: A,
    reading: &mut Reading<A>,
    name: &Name,
    relation: &Rel<A>,
    place: Span,
) -> Result<(), NoMemory> {
    let two = (" of the first relation", " of the second relation");
    match relation {
        Rel::Named(_, _) | Rel::Distinct(_, _) => Ok(()),
        Rel::Select(_, of, _) | Rel::Where(_, of, _) | Rel::Group(_, of, _, _) => {
            let part = Part {
                words: "",
                columns: place,
            };
            reading.add(arena, name, of, part)
        }
        Rel::SetOperation(_, _, first, second) => {
            reading.add_two(arena, name, first, second, two, (NOWHERE, NOWHERE))
        }
        Rel::Join(_, first, second, pairs) => match pair_at(pairs, place) {
            Some(columns) => reading.add_two(arena, name, first, second, two, columns),
            None => Ok(()),
        },
        Rel::Loop { start, body, .. } => {
            let words = (" of the start", " of the body");
            reading.add_two(arena, name, start, body, words, (NOWHERE, NOWHERE))
        }
    }
}

/// What is read at a place of a program: of the name of an output its relation, in a relation what the smallest one there reads.
pub fn reading_at<A: Allocator + Copy>(
    alloc: Global,
    arena: A,
    program: &Program<A>,
    place: Span,
) -> Result<Reading<A>, NoMemory> {
    let mut reading = Reading {
        program: program.copy_in(arena)?,
        parts: Vec::new(alloc),
    };
    reading.program.outputs.clear();
    let Some(item) = item_at(program, place) else {
        return Ok(reading);
    };
    reading.program.lets.truncate(item.lets);
    if item.name_span == place {
        let part = Part {
            words: "",
            columns: NOWHERE,
        };
        reading.add(arena, item.name, item.relation, part)?;
    } else {
        let smallest = smallest_at(arena, &mut reading.program.lets, item.relation, place)?;
        add_read(arena, &mut reading, item.name, smallest, place)?;
    }
    Ok(reading)
}
