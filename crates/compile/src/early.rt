//! Inputs that are fed in the first epoch alone: each epoch is answered by itself, so a later one has nothing of them.

ghost use Rattle.std.specs.Prelude.{◌≡◌, ◌⊎◌, ◌&&◌, [], map, not, IfOk};
ghost use Rattle.std.specs.List.{list_any};
ghost use Rattle.semantics.specs.Time.{below};
ghost use Rattle.compile.specs.Early.{ArePlacesIn, early_inputs as early_numbers, is_fed as has_records, is_fed_later as has_later_records};

use crate::fault::query_fault;
use crate::typed_program;
use collector::Epochs;
use diagnostics::Fault;
use expr_tree::Input;
use record_core::{NoMemory, Span};
use std::alloc::{Allocator, Global};

/// Whether the input has records in that epoch.
fn is_fed(epochs: &Epochs, input: u32, epoch: u32) -> bool
    ensures { result ≡ has_records epochs.now input epoch }
{
    let batches = epochs.batches(input, epoch);
    for i in 0..batches.len() {
        if batches[i].weight() > 0 {
            return true;
        }
    }
    false
}

/// Whether the input has records in a later epoch than the first.
fn is_fed_later(epochs: &Epochs, input: u32) -> bool
    ensures { result ≡ has_later_records epochs.now input }
{
    let mut left = epochs.count();
    while left > 1 {
        left -= 1;
        if is_fed(epochs, input, left) {
            return true;
        }
    }
    false
}

/// Whether one of the inputs has records in a later epoch than the first.
fn is_any_fed_later(epochs: &Epochs, inputs: u32) -> bool
    ensures { result ≡ list_any (has_later_records epochs.now) (below inputs) }
{
    let mut left = inputs;
    while left > 0 {
        left -= 1;
        if is_fed_later(epochs, left) {
            return true;
        }
    }
    false
}

/// Whether the input is fed in the first epoch and in no later one, where it is known whether some input is fed in a later one.
fn is_early(epochs: &Epochs, is_later: bool, input: u32) -> bool
    ensures { result ≡ (is_later && (has_records epochs.now input 0 && not (has_later_records epochs.now input))) }
{
    is_later && is_fed(epochs, input, 0) && !is_fed_later(epochs, input)
}

/// The numbers of the inputs that are fed in the first epoch and in no later one, where some input is fed in a later one.
fn early_inputs(alloc: Global, epochs: &Epochs, inputs: u32) -> Result<Vec<u32>, NoMemory>
    ensures { IfOk result (λ early. early.items ≡ early_numbers epochs.now inputs) }
{
    let is_later = is_any_fed_later(epochs, inputs);
    let mut early = Vec::new(alloc);
    for input in 0..inputs {
        if is_early(epochs, is_later, input) {
            early.push(input)?;
        }
    }
    Ok(early)
}

/// The numbers of the inputs that are fed in the first epoch and in no later one, where some input is fed in a later one. None where there is no
/// memory for them.
pub fn noted_early(alloc: Global, epochs: &Epochs, inputs: usize) -> Vec<u32>
    ensures { (result.items ≡ []) ⊎ (result.items ≡ early_numbers epochs.now inputs) }
{
    let Ok(inputs) = u32::try_from(inputs) else {
        return Vec::new(alloc);
    };
    match early_inputs(alloc, epochs, inputs) {
        Ok(early) => early,
        Err(NoMemory) => Vec::new(alloc),
    }
}

/// The places of the inputs' names.
fn places_of(alloc: Global, inputs: &[Input]) -> Result<Vec<Span>, NoMemory>
    ensures { IfOk result (λ places. places.items ≡ map (λ i. i.name_span) inputs.now) }
{
    let mut places = Vec::with_capacity(alloc, inputs.len())?;
    for i in 0..inputs.len() {
        places.push(inputs[i].name_span)?;
    }
    Ok(places)
}

/// Where a query that is well typed declares its inputs.
pub fn input_places<A: Allocator + Copy>(
    alloc: Global,
    arena: A,
    query: &[u8],
) -> Result<Vec<Span>, Fault>
    ensures { IfOk result (λ places. ArePlacesIn query.now places.items) }
{
    let typed = match typed_program(alloc, arena, query) {
        Ok(typed) => typed,
        Err(refusal) => return Err(query_fault(refusal)),
    };
    match places_of(alloc, &typed.program().inputs) {
        Ok(places) => Ok(places),
        Err(_) => Err(Fault::NoMemory),
    }
}
