//! The file that arrives, and the texts of the others.

ghost use Rattle.std.specs.Prelude.{◌≡◌, IfNone, IfOk, IfSome, get_or, map};
ghost use Rattle.csv_cells.specs.Cells.{plain};
ghost use Rattle.table_follows.specs.Followed.{AreOthers, HasNoneIn, IsStream};

use collector::Sources;
use csv_cells::{Column, Empty, Kind};
use schema::{Epochs, Table};
use std::alloc::Global;
use table_commands::{Fault, read_file};
use table_epochs::Stream;

/// What the cells of a column are.
fn cells_at(columns: &[Column], column: usize) -> Column
    ensures { result ≡ get_or columns.now column plain }
{
    match columns.get(column) {
        Some(cells) => *cells,
        None => Column {
            kind: Kind::Int,
            empty: Empty::Refused,
        },
    }
}

/// The input that has an epoch for each value of a column, if there is one.
pub fn stream_of(tables: &[Table]) -> Option<Stream>
    ensures stream { IfSome result (λ s. IsStream tables.now s.place s.column s.cells) }
    ensures none { IfNone result (HasNoneIn tables.now) }
{
    for place in 0..tables.len() {
        if let Epochs::By(column) = tables[place].epochs {
            let cells = cells_at(tables[place].columns.as_slice(), column);
            return Some(Stream {
                place,
                column,
                cells,
            });
        }
    }
    None
}

/// The texts of the files, but that the one at that place is empty.
pub fn other_texts<'a, S: Sources<'a>>(
    alloc: Global,
    sources: &S,
    paths: &[&'a str],
    place: usize,
) -> Result<Vec<Vec<u8>>, Fault<'a>>
    ensures { IfOk result (λ texts. AreOthers (S.content sources.now) place (map (λ s. s.now) paths.now) (map (λ v. v.items) texts.items)) }
{
    let mut texts = Vec::new(alloc);
    for i in 0..paths.len() {
        let text = if i == place {
            Vec::new(alloc)
        } else {
            read_file(alloc, sources, paths[i])?
        };
        texts.push(text)?;
    }
    Ok(texts)
}
