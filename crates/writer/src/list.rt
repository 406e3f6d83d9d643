//! Columns, pairs and aggregates, and lists of them.

ghost use Rattle.std.specs.Prelude.{◌≡◌, ◌++◌, OnOk, OnErr};
ghost use Rattle.writer.specs.Pieces.{Extends, listed, text_of};
ghost use Rattle.writer.specs.Relations.{agg_of, agg_pieces, column_pieces, pair_pieces};

use crate::push::{push, push_column};
use expr_tree::{Agg, Column, Pair};
use record_core::Keyword;
use std::alloc::AllocError;

fn write_column(out: &mut Vec<u8>, column: &Column) -> Result<(), AllocError>
    ensures ok { OnOk result (out.new.items ≡ out.old.items ++ text_of (column_pieces column.now)) }
    ensures err { OnErr result (Extends out.old.items out.new.items) }
{
    push_column(out, column.index)
}

fn write_pair(out: &mut Vec<u8>, pair: &Pair) -> Result<(), AllocError>
    ensures ok { OnOk result (out.new.items ≡ out.old.items ++ text_of (pair_pieces pair.now)) }
    ensures err { OnErr result (Extends out.old.items out.new.items) }
{
    write_column(out, &pair.left)?;
    push(out, b" = ")?;
    write_column(out, &pair.right)
}

/// Appends an aggregate of a column.
fn write_agg_of(out: &mut Vec<u8>, keyword: Keyword, column: &Column) -> Result<(), AllocError>
    ensures ok { OnOk result (out.new.items ≡ out.old.items ++ text_of (agg_of keyword column.now)) }
    ensures err { OnErr result (Extends out.old.items out.new.items) }
{
    push(out, keyword.text())?;
    push(out, b" ")?;
    write_column(out, column)
}

fn write_agg(out: &mut Vec<u8>, aggregate: &Agg) -> Result<(), AllocError>
    ensures ok { OnOk result (out.new.items ≡ out.old.items ++ text_of (agg_pieces aggregate.now)) }
    ensures err { OnErr result (Extends out.old.items out.new.items) }
{
    match aggregate {
        Agg::Count(_) => push(out, b"count"),
        Agg::Sum(_, column) => write_agg_of(out, Keyword::Sum, column),
        Agg::Min(_, column) => write_agg_of(out, Keyword::Min, column),
        Agg::Max(_, column) => write_agg_of(out, Keyword::Max, column),
    }
}

/// Appends columns, with a comma and a space between each two.
pub fn write_columns(out: &mut Vec<u8>, columns: &[Column]) -> Result<(), AllocError>
    ensures ok { OnOk result (out.new.items ≡ out.old.items ++ text_of (listed column_pieces columns.now)) }
    ensures err { OnErr result (Extends out.old.items out.new.items) }
{
    let Some((first, rest)) = columns.split_first() else {
        return Ok(());
    };
    write_column(out, first)?;
    for column in rest {
        push(out, b", ")?;
        write_column(out, column)?;
    }
    Ok(())
}

/// Appends pairs, with a comma and a space between each two.
pub fn write_pairs(out: &mut Vec<u8>, pairs: &[Pair]) -> Result<(), AllocError>
    ensures ok { OnOk result (out.new.items ≡ out.old.items ++ text_of (listed pair_pieces pairs.now)) }
    ensures err { OnErr result (Extends out.old.items out.new.items) }
{
    let Some((first, rest)) = pairs.split_first() else {
        return Ok(());
    };
    write_pair(out, first)?;
    for pair in rest {
        push(out, b", ")?;
        write_pair(out, pair)?;
    }
    Ok(())
}

/// Appends aggregates, with a comma and a space between each two.
pub fn write_aggs(out: &mut Vec<u8>, aggregates: &[Agg]) -> Result<(), AllocError>
    ensures ok { OnOk result (out.new.items ≡ out.old.items ++ text_of (listed agg_pieces aggregates.now)) }
    ensures err { OnErr result (Extends out.old.items out.new.items) }
{
    let Some((first, rest)) = aggregates.split_first() else {
        return Ok(());
    };
    write_agg(out, first)?;
    for aggregate in rest {
        push(out, b", ")?;
        write_agg(out, aggregate)?;
    }
    Ok(())
}
