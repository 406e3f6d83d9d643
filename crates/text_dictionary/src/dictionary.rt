//! The dictionary: different texts, each at its place, from 0.

ghost use Rattle.std.specs.Prelude.{◌≡◌, ◌↔◌, [], ℕ, ℤ, pos, Some, IfOk, OnOk, IfSome, IsTrue, length, option_map, slice_get};
ghost use Rattle.text_dictionary.specs.Texts.{IsAdded, text_at, texts_of};

use indexmap::IndexSet;
use std::alloc::{AllocError, Global};

/// The number of a place.
fn numbered(place: usize) -> Result<i64, AllocError>
    ensures { IfOk result (λ z. z ≡ pos place) }
{
    match i64::try_from(place) {
        Ok(number) => Ok(number),
        Err(_) => Err(AllocError),
    }
}

/// Different texts, in the order of their first appearance.
#[derive(Drop)]
pub struct Dictionary {
    texts: IndexSet<Vec<u8>>,
}

impl Dictionary {
    /// No texts.
    pub fn new(alloc: Global) -> Dictionary
        ensures { texts_of result ≡ [] }
    {
        Dictionary {
            texts: IndexSet::new(alloc),
        }
    }

    /// How many texts there are.
    pub fn len(&self) -> usize
        ensures { result ≡ length (texts_of self.now) }
    {
        self.texts.len()
    }

    /// Whether there is no text.
    pub fn is_empty(&self) -> bool
        ensures { IsTrue result ↔ (texts_of self.now ≡ []) }
    {
        self.texts.is_empty()
    }

    /// The place of a text that is there.
    fn place_of(&self, text: &[u8]) -> Option<usize>
        ensures found { IfSome result (λ i. slice_get (texts_of self.now) i ≡ Some text.now) }
        ensures only { IfSome result (λ i. (j : ℕ) → slice_get (texts_of self.now) j ≡ Some text.now → j ≡ i) }
    {
        let (place, found) = self.texts.get_full(text)?;
        if place < self.texts.len() && found.as_slice() == text {
            Some(place)
        } else {
            None
        }
    }

    /// The number of a text, which goes to the end if it is new.
    pub fn number(&mut self, alloc: Global, text: &[u8]) -> Result<i64, AllocError>
        ensures found { IfOk result (λ z. text_at (texts_of self.new) z ≡ Some text.now) }
        ensures only { IfOk result (λ z. (y : ℤ) → text_at (texts_of self.new) y ≡ Some text.now → y ≡ z) }
        ensures added { OnOk result (IsAdded text.now (texts_of self.old) (texts_of self.new)) }
    {
        if let Some(place) = self.place_of(text) {
            return numbered(place);
        }
        let kept = Vec::from_slice(alloc, text)?;
        let (place, _) = self.texts.insert_full(kept)?;
        numbered(place)
    }

    /// The text at a place.
    pub fn text(&self, z: i64) -> Option<&[u8]>
        ensures { option_map (λ s. s.now) result ≡ text_at (texts_of self.now) z }
    {
        let Ok(place) = usize::try_from(z) else {
            return None;
        };
        match self.texts.get_index(place) {
            Some(text) => Some(text.as_slice()),
            None => None,
        }
    }
}
