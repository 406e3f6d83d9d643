//! Sources and origins, put together.

ghost use Rattle.std.specs.Prelude.{◌≡◌, ◌∷◌, [], IfOk, OnOk};
ghost use Rattle.field_origins.specs.Shown.{origin, origins};
ghost use Rattle.field_origins.specs.Sources as spec;

use crate::source::{Origin, Source};
use std::alloc::{AllocError, Global};

/// Whether the columns are the same.
fn same_source(left: Source, right: Source) -> bool
    ensures { result ≡ spec.same_source left right }
{
    left.input == right.input && left.column == right.column
}

/// Whether the column is among the sources.
fn has(sources: &[Source], source: Source) -> bool
    ensures { result ≡ spec.has sources.now source }
{
    match sources {
        [] => false,
        [first, sources @ ..] => same_source(*first, source) || has(sources, source),
    }
}

/// Adds a source, unless it is there.
fn add_source(sources: &mut Vec<Source>, source: Source) -> Result<(), AllocError>
    ensures { OnOk result (sources.new.items ≡ spec.with_source sources.old.items source) }
{
    if has(sources, source) {
        return Ok(());
    }
    sources.push(source)?;
    Ok(())
}

/// The sources, and with them the others.
fn with_sources(
    alloc: Global,
    sources: &[Source],
    others: &[Source],
) -> Result<Vec<Source>, AllocError>
    ensures { IfOk result (λ v. v.items ≡ spec.with_sources sources.now others.now) }
{
    let mut all = copied_sources(alloc, sources)?;
    for source in others {
        add_source(&mut all, *source)?;
    }
    Ok(all)
}

/// The same sources in a list of its own.
fn copied_sources(alloc: Global, sources: &[Source]) -> Result<Vec<Source>, AllocError>
    ensures { IfOk result (λ v. v.items ≡ sources.now) }
{
    let mut copy = Vec::with_capacity(alloc, sources.len())?;
    copy.extend_from_slice(sources)?;
    Ok(copy)
}

/// Of values of which each comes from one of two.
pub(crate) fn either(alloc: Global, left: &Origin, right: &Origin) -> Result<Origin, AllocError>
    ensures { IfOk result (λ o. origin o ≡ spec.either (origin left.now) (origin right.now)) }
{
    match (left, right) {
        (Origin::Taken(sources), Origin::Taken(others)) => {
            let all = with_sources(alloc, sources, others)?;
            Ok(Origin::Taken(all))
        }
        (Origin::Computed, _) | (_, Origin::Computed) => Ok(Origin::Computed),
    }
}

/// Of values that are taken from one column.
pub(crate) fn taken_from(alloc: Global, source: Source) -> Result<Origin, AllocError>
    ensures { IfOk result (λ o. origin o ≡ spec.Origin.taken (source ∷ [])) }
{
    let mut sources = Vec::new(alloc);
    sources.push(source)?;
    Ok(Origin::Taken(sources))
}

/// The same origin in memory of its own.
pub(crate) fn copied(alloc: Global, from: &Origin) -> Result<Origin, AllocError>
    ensures { IfOk result (λ o. origin o ≡ origin from.now) }
{
    match from {
        Origin::Computed => Ok(Origin::Computed),
        Origin::Taken(sources) => {
            let copy = copied_sources(alloc, sources)?;
            Ok(Origin::Taken(copy))
        }
    }
}

/// Whether the sources are the same.
fn same_sources(left: &[Source], right: &[Source]) -> bool
    ensures { result ≡ spec.same_sources left.now right.now }
{
    match left {
        [] => right.is_empty(),
        [first, left @ ..] => match right {
            [] => false,
            [second, right @ ..] => same_source(*first, *second) && same_sources(left, right),
        },
    }
}

/// Whether the origins are the same.
fn same_origin(left: &Origin, right: &Origin) -> bool
    ensures { result ≡ spec.same_origin (origin left.now) (origin right.now) }
{
    match (left, right) {
        (Origin::Computed, Origin::Computed) => true,
        (Origin::Taken(sources), Origin::Taken(others)) => same_sources(sources, others),
        _ => false,
    }
}

/// Whether the fields have the same origins.
pub(crate) fn same_origins(left: &[Origin], right: &[Origin]) -> bool
    ensures { result ≡ spec.same_origins (origins left.now) (origins right.now) }
{
    match left {
        [] => right.is_empty(),
        [first, left @ ..] => match right {
            [] => false,
            [second, right @ ..] => same_origin(first, second) && same_origins(left, right),
        },
    }
}
