//! A query that is cut off at each of its bytes, and that has each of its bytes replaced by each other one.

use collector::Watched;
use console::{Fault, Texts, check_query};
use std::alloc::{Allocator, Global};
use std::test::Fail;

/// A loop, with most forms of relation.
pub const REACH: &[u8] =
    b"input e/2; output iterate(3; x = e; distinct(concat(x, select(join(x, e; #1 = #0); #0, #3))));";

/// What a check says of a query.
#[derive(Clone, Copy, Debug, PartialEq, Eq)]
pub enum Verdict {
    /// It is taken, with one input `e` and an output, of two fields each.
    Taken,
    /// It is taken, with another name of the input.
    Renamed,
    /// It is refused with this number at this place, and nothing is written.
    Refused(u8, u32, u32),
    /// There is no memory, and nothing is written.
    NoMemory,
    Other,
}

/// What a check says of a query whose tree lies there.
pub fn checked<A: Allocator + Copy>(alloc: Global, arena: A, query: &[u8]) -> Verdict {
    let mut query = Watched::new(query);
    let mut texts = Texts::new(alloc);
    let mut out = Watched::new(Vec::new(alloc));
    let done = check_query(alloc, arena, &mut query, &mut texts, &mut out);
    let written = out.into_inner();
    let written = written.as_slice();
    let is_renamed = written.starts_with(b"input ") && written.ends_with(b"/2\noutput 2\n");
    match done {
        Ok(()) if written == b"input e/2\noutput 2\n".as_slice() => Verdict::Taken,
        Ok(()) if is_renamed => Verdict::Renamed,
        Err(Fault::Query { code, start, end }) if written.is_empty() => {
            Verdict::Refused(code, start, end)
        }
        Err(Fault::NoMemory) if written.is_empty() => Verdict::NoMemory,
        _ => Verdict::Other,
    }
}

// A `#` without its number is no word; after all else that a cut leaves, the text ends too early or in a word that can't come there.
#[test]
fn beginnings(rt: HostRuntime) {
    for cut in 0..REACH.len() {
        let query = &REACH[..cut];
        let wanted = if query.ends_with(b"#") { 1 } else { 4 };
        match checked(rt.alloc(), rt.alloc(), query) {
            Verdict::Refused(code, _, end) => {
                assert_eq!(rt; code, wanted);
                assert_eq!(rt; end as usize, cut);
            }
            _ => assert!(rt; false),
        }
    }
    assert_eq!(rt; checked(rt.alloc(), rt.alloc(), REACH), Verdict::Taken);
}

// Each of them is refused at a place in it, with nothing written, or it is taken: no change of one byte fits another number of fields.
#[test]
fn changed_bytes(rt: HostRuntime) -> Result<(), Fail> {
    let mut query = REACH.to_vec(rt.alloc())?;
    let mut taken = 0u32;
    for at in 0..REACH.len() {
        for byte in 0..=255u8 {
            if at >= query.len() {
                Err("shortened")?
            }
            query[at] = byte;
            match checked(rt.alloc(), rt.alloc(), query.as_slice()) {
                Verdict::Taken | Verdict::Renamed => taken = taken.saturating_add(1),
                Verdict::Refused(_, start, end) => {
                    assert!(rt; start <= end && end as usize <= REACH.len());
                }
                Verdict::NoMemory | Verdict::Other => Err("another end")?,
            }
        }
        if at < query.len() {
            query[at] = REACH[at];
        }
    }
    assert!(rt; taken > 0);
    Ok(())
}
