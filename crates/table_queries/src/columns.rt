//! What is said of the columns at the place where a query is refused.

use bumpalo::Bump;
use diagnostics::{Fault, Texts};
use query_kinds::told_columns;
use record_core::Span;
use schema::Schema;
use std::alloc::Global;
use std::io;
use std::io::Write;

/// Lines for the columns at the place of a query's fault; none for another fault, or where there is no memory for them.
pub(crate) fn columns_at(alloc: Global, query: &[u8], schema: &Schema, fault: &Fault) -> Vec<u8> {
    let Fault::Query { code, start, end } = fault else {
        return Vec::new(alloc);
    };
    let arena = Bump::new(alloc);
    let span = Span {
        start: *start,
        end: *end,
    };
    match told_columns(alloc, &arena, query, schema, *code, span) {
        Ok(text) => text,
        Err(_) => Vec::new(alloc),
    }
}

/// Writes the lines for the columns at the place of a query's fault, which stand where the text of an input would.
pub fn write_columns<W: Write>(fault: &Fault, texts: &Texts, out: &mut W) -> io::Result<()> {
    match fault {
        Fault::Query { .. } => out.write_all(texts.input.as_slice()),
        _ => Ok(()),
    }
}
