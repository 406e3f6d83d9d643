//! The script of a query.

ghost use Rattle.std.specs.Prelude.{IfErr, IfOk};
ghost use Rattle.compile.specs.Scripts.{IsScript, IsScriptFault};
ghost use Rattle.sql.specs.Asked.{asked_of};

use crate::fault::query_fault;
use crate::typed_program;
use diagnostics::Fault;
use sql::{Request, sql_text};
use std::alloc::{Allocator, Global};

/// The script of a query: what `sql_text` writes of the typed program.
#[tactic(auto, using(crate::proofs::Scripts::script_refused, crate::proofs::Scripts::script_unwritten, crate::proofs::Scripts::script_written))]
pub fn script_text<A: Allocator + Copy>(
    alloc: Global,
    arena: A,
    query: &[u8],
    request: Request<'_>,
) -> Result<Vec<u8>, Fault>
    ensures text { IfOk result (λ t. IsScript (asked_of request.entry) query.now t.items) }
    ensures fault { IfErr result (IsScriptFault (asked_of request.entry) query.now) }
{
    let typed = match typed_program(alloc, arena, query) {
        Ok(typed) => typed,
        Err(refusal) => return Err(query_fault(refusal)),
    };
    match sql_text(alloc, typed.program(), request) {
        Ok(text) => Ok(text),
        Err(refusal) => Err(query_fault(refusal)),
    }
}
