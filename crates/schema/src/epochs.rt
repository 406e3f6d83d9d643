//! Whether the epochs of inputs fit together.

ghost use Rattle.std.specs.Prelude.{◌≡◌, ◌↔◌, map, IsTrue};
ghost use Rattle.std.specs.List.{count_by};
ghost use Rattle.schema.specs.Schemas.{HaveEpochs, is_by, is_every, said};

use crate::tables::{Epochs, Table};

fn is_by(table: &Table) -> bool
    ensures { result ≡ is_by table.now.epochs }
{
    match table.epochs {
        Epochs::By(_) => true,
        Epochs::One | Epochs::Every => false,
    }
}

fn is_every(table: &Table) -> bool
    ensures { result ≡ is_every table.now.epochs }
{
    match table.epochs {
        Epochs::Every => true,
        Epochs::One | Epochs::By(_) => false,
    }
}

/// How many inputs have an epoch for each value of a column.
fn count_by_columns(inputs: &[Table]) -> usize
    ensures { result ≡ count_by (λ t. is_by t.epochs) inputs.now }
{
    inputs.iter().filter(|table| is_by(table)).count()
}

/// How many inputs are part of each epoch.
fn count_every(inputs: &[Table]) -> usize
    ensures { result ≡ count_by (λ t. is_every t.epochs) inputs.now }
{
    inputs.iter().filter(|table| is_every(table)).count()
}

/// Whether the epochs of the inputs fit together: all rows are in one, or one input has an epoch for each value and the others are part of each.
pub fn have_epochs(inputs: &[Table]) -> bool
    ensures { IsTrue result ↔ HaveEpochs (map said inputs.now) }
{
    let by = count_by_columns(inputs);
    let every = count_every(inputs);
    if by == 0 {
        every == 0
    } else {
        by == 1 && every < inputs.len() && inputs.len() - every == 1
    }
}
