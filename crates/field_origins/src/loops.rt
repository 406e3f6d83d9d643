//! Origins of the fields of loops.

ghost use Rattle.std.specs.Prelude.{◌≡◌, IfOk, map, nat_eq};
ghost use Rattle.field_origins.specs.Loops as turns;
ghost use Rattle.field_origins.specs.Shown.{origin, origins};
ghost use Rattle.field_origins.specs.Sources as spec;

use crate::fields::{merged, origin_at};
use crate::source::{Origin, Source};
use crate::sources::{either, same_origins, taken_from};
use std::alloc::{AllocError, Global};

/// Whether the column is one of that input.
fn is_of_input(source: Source, input: u64) -> bool
    ensures { result ≡ nat_eq source.input input }
{
    source.input == input
}

/// What a column of a loop's variable comes from, where its fields come from these; any other comes from itself.
fn traced_source(
    alloc: Global,
    variable: u64,
    fields: &[Origin],
    source: Source,
) -> Result<Origin, AllocError>
    ensures { IfOk result (λ o. origin o ≡ spec.traced_source variable (origins fields.now) source) }
{
    if is_of_input(source, variable) {
        origin_at(alloc, fields, source.column)
    } else {
        taken_from(alloc, source)
    }
}

/// What these columns come from.
fn traced_sources(
    alloc: Global,
    variable: u64,
    fields: &[Origin],
    sources: &[Source],
) -> Result<Origin, AllocError>
    ensures { IfOk result (λ o. origin o ≡ spec.traced variable (origins fields.now) (spec.Origin.taken sources.now)) }
{
    let mut found = Origin::Taken(Vec::new(alloc));
    for source in sources {
        let more = traced_source(alloc, variable, fields, *source)?;
        found = either(alloc, &found, &more)?;
    }
    Ok(found)
}

/// The origin, with what the variable's fields come from in their place.
fn traced(
    alloc: Global,
    variable: u64,
    fields: &[Origin],
    from: &Origin,
) -> Result<Origin, AllocError>
    ensures { IfOk result (λ o. origin o ≡ spec.traced variable (origins fields.now) (origin from.now)) }
{
    match from {
        Origin::Computed => Ok(Origin::Computed),
        Origin::Taken(sources) => traced_sources(alloc, variable, fields, sources),
    }
}

/// What a turn adds to the origins of a loop's variable, by what it makes of the variable's fields.
fn turned(
    alloc: Global,
    variable: u64,
    turn: &[Origin],
    fields: &[Origin],
) -> Result<Vec<Origin>, AllocError>
    ensures { IfOk result (λ v. origins v.items ≡ turns.turned variable (origins turn.now) (origins fields.now)) }
{
    let mut made = Vec::new(alloc);
    for from in turn {
        made.push(traced(alloc, variable, fields, from)?)?;
    }
    merged(alloc, fields, &made)
}

/// As many fields, all computed.
fn all_computed(alloc: Global, fields: &[Origin]) -> Result<Vec<Origin>, AllocError>
    ensures { IfOk result (λ v. origins v.items ≡ map (λ o. spec.Origin.computed) (origins fields.now)) }
{
    let mut computed = Vec::new(alloc);
    for _field in fields {
        computed.push(Origin::Computed)?;
    }
    Ok(computed)
}

/// These origins, if one more turn adds nothing.
fn closed(
    alloc: Global,
    variable: u64,
    turn: &[Origin],
    fields: Vec<Origin>,
) -> Result<Vec<Origin>, AllocError>
    ensures { IfOk result (λ v. origins v.items ≡ turns.closed variable (origins turn.now) (origins fields.items)) }
{
    let more = turned(alloc, variable, turn, &fields)?;
    if same_origins(&more, &fields) {
        Ok(fields)
    } else {
        all_computed(alloc, &fields)
    }
}

/// The origins of a loop's variable, by those of its start and by what a turn makes of its fields.
pub fn settled(
    alloc: Global,
    variable: u64,
    turn: &[Origin],
    start: Vec<Origin>,
) -> Result<Vec<Origin>, AllocError>
    ensures { IfOk result (λ v. origins v.items ≡ turns.settled variable (origins turn.now) (origins start.items)) }
{
    let count = start.len();
    let mut fields = start;
    for _turn in 0..count {
        fields = turned(alloc, variable, turn, &fields)?;
    }
    closed(alloc, variable, turn, fields)
}
