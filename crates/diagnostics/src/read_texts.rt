//! The texts that a command has read, kept so that a fault can be explained.

ghost use Rattle.std.specs.Prelude.{◌≡◌, []};

use std::alloc::Global;
use std::io::ErrorKind;

/// The query text, and the input text or the schedule, each empty until it is read. A text that couldn't be read to its end is not kept.
/// Of an input that is followed, the text from its faulty line on is kept.
#[derive(Drop)]
pub struct Texts {
    /// At most 1,048,577 bytes: one more than a query may have.
    pub query: Vec<u8>,
    pub input: Vec<u8>,
    /// The number of the first line of `input`, counted from 1.
    pub input_from: u64,
    /// What the system said where one of them couldn't be read.
    pub reason: Option<ErrorKind>,
    /// The numbers of the inputs that were fed in the first epoch alone, where others were fed later.
    pub early: Vec<u32>,
}

impl Texts {
    /// No text yet.
    pub fn new(alloc: Global) -> Texts
        ensures query { result.query.items ≡ [] }
        ensures input { result.input.items ≡ [] }
    {
        Texts {
            query: Vec::new(alloc),
            input: Vec::new(alloc),
            input_from: 1,
            reason: None,
            early: Vec::new(alloc),
        }
    }
}
