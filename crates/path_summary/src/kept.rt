//! A finished row of the table, stored in little memory.

ghost use Rattle.std.specs.Prelude.{◌≡◌, ◌≤◌, ℕ, IfOk, slice_index_or};
ghost use Rattle.path_summary.specs.Codes.{AreCodes};

use crate::row::Row;
use crate::summaries::Summaries;
use record_core::NoMemory;
use std::alloc::Global;
use std::marker::Model;

/// The codes of a row, in 2 bytes each if the number of summaries so far allows it.
#[derive(Drop)]
pub struct Kept {
    codes: Codes,
}

/// Codes in 2 bytes each, or in full width.
#[derive(Drop)]
enum Codes {
    Narrow(Vec<u16>),
    Wide(Vec<usize>),
}

impl Model for Kept {
    ghost use Rattle.std.specs.Prelude.{List, ℕ};
    ghost use Rattle.path_summary.specs.KeptCodes.{codes_of};

    ghost Value = { List ℕ };

    ghost view = { λ k. codes_of k.codes };
}

impl Kept {
    /// Stores the codes of a row over these summaries.
    pub fn of(alloc: Global, row: Row, summaries: &Summaries) -> Result<Kept, NoMemory>
        requires { AreCodes summaries.now row }
        ensures { IfOk result (λ k. k ≡ row) }
    {
        if summaries.count() > 65535 {
            return Ok(Kept {
                codes: Codes::Wide(row.into_codes()),
            });
        }
        Ok(Kept {
            codes: Codes::Narrow(narrow(alloc, row.codes())?),
        })
    }

    /// The code at a vertex; 0 beyond the last vertex.
    pub fn code(&self, x: u32) -> usize
        ensures { result ≡ slice_index_or self.now x 0 }
    {
        match &self.codes {
            Codes::Narrow(codes) => match codes.get(x as usize) {
                Some(code) => *code as usize,
                None => 0,
            },
            Codes::Wide(codes) => match codes.get(x as usize) {
                Some(code) => *code,
                None => 0,
            },
        }
    }
}

/// The same codes in 2 bytes each.
fn narrow(alloc: Global, codes: &[usize]) -> Result<Vec<u16>, NoMemory>
    requires { (x : ℕ) → slice_index_or codes.now x 0 ≤ 65535 }
    ensures { IfOk result (λ n. n.items ≡ codes.now) }
{
    let mut out = Vec::with_capacity(alloc, codes.len())?;
    for code in codes {
        out.push(*code as u16)?;
    }
    Ok(out)
}
