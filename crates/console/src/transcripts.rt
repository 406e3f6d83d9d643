//! What the texts of a command handed over.

use collector::Transcript;

/// The transcripts of the texts that a command has opened: of its query, and of its input or its schedule.
#[derive(Drop)]
pub struct Transcripts<'a> {
    pub query: Option<Transcript<'a>>,
    pub input: Option<Transcript<'a>>,
}

impl<'a> Transcripts<'a> {
    /// No text was opened.
    pub fn new() -> Transcripts<'a> {
        Transcripts {
            query: None,
            input: None,
        }
    }
}
