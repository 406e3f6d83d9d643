//! The canonical form of a query.

ghost use Rattle.std.specs.Prelude.{IfErr, IfOk};
ghost use Rattle.compile.specs.Canonical.{IsCanonical, IsFormatFault};

use crate::fault::query_fault;
use diagnostics::Fault;
use parser::parse;
use std::alloc::{Allocator, Global};
use writer::{read_is_source, write_program, written_reads_back};

/// The canonical text of a query.
#[tactic(auto, using(crate::proofs::QueryFaults::format_refused))]
pub fn canonical_text<A: Allocator + Copy>(
    alloc: Global,
    arena: A,
    query: &[u8],
) -> Result<Vec<u8>, Fault>
    ensures text { IfOk result (λ t. IsCanonical query.now t.items) }
    ensures fault { IfErr result (IsFormatFault query.now) }
{
    let program = match parse(arena, query) {
        Ok(program) => program,
        Err(refusal) => return Err(query_fault(refusal)),
    };
    read_is_source();
    written_reads_back();
    let mut text = Vec::new(alloc);
    match write_program(&program, &mut text) {
        Ok(()) => Ok(text),
        Err(_) => Err(Fault::NoMemory),
    }
}
