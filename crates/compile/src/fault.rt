//! Why a query has no graph, and the faults of what the layers below refuse.

ghost use Rattle.std.specs.Prelude.{◌≡◌};
ghost use Rattle.compile.specs.Faults.{compile_fault_of, fault_of, graph_fault_of, input_fault_of};

use collector::{InputRefusal, Number};
use diagnostics::Fault;
use record_core::{Refusal, Span};
use thiserror::Error;

/// Why a query text has no graph.
#[derive(Clone, Copy, Debug, Error)]
pub enum CompileFault {
    /// The query's first fault: its code, and the bytes where it is.
    #[error("refused {code} at {start}..{end}", code = Number(u64::from(*.code)), start = Number(u64::from(.span.start)), end = Number(u64::from(.span.end)))]
    Query { code: u8, span: Span },
    /// The graph would have more than 4096 vertices.
    #[error("more than 4096 vertices")]
    TooManyVertices,
    #[error("out of memory")]
    NoMemory,
}

/// The fault of a query that is refused.
pub fn query_fault(refusal: Refusal) -> Fault
    ensures { result ≡ fault_of refusal }
{
    match refusal {
        Refusal::NoMemory => Fault::NoMemory,
        Refusal::At { code, span } => Fault::Query {
            code,
            start: span.start,
            end: span.end,
        },
    }
}

/// Why a query that is refused has no graph.
pub fn compile_fault(refusal: Refusal) -> CompileFault
    ensures { result ≡ compile_fault_of refusal }
{
    match refusal {
        Refusal::NoMemory => CompileFault::NoMemory,
        Refusal::At { code, span } => CompileFault::Query { code, span },
    }
}

/// The fault of a query that has no graph.
pub fn graph_fault(fault: CompileFault) -> Fault
    ensures { result ≡ graph_fault_of fault }
{
    match fault {
        CompileFault::Query { code, span } => Fault::Query {
            code,
            start: span.start,
            end: span.end,
        },
        CompileFault::TooManyVertices => Fault::TooManyVertices,
        CompileFault::NoMemory => Fault::NoMemory,
    }
}

/// The fault of an input that is refused.
pub fn input_fault(refusal: InputRefusal) -> Fault
    ensures { result ≡ input_fault_of refusal }
{
    match refusal {
        InputRefusal::NoMemory => Fault::NoMemory,
        InputRefusal::At { code, line } => Fault::Input { code, line },
    }
}
