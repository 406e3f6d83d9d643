//! What is kept of an input text that is read piece by piece.

ghost use Rattle.std.specs.Prelude.{◌≡◌, Some};
ghost use Rattle.collector.specs.DraftGrowth.{IsEven};
ghost use Rattle.collector.specs.declared.draft.Draft.{Draft};

use crate::draft::Draft;

/// An input text that is read piece by piece, by lines or by records.
#[derive(Drop)]
pub struct InputReader {
    /// None once a call has failed.
    pub(crate) draft: Option<Draft>,
    ghost even: { (d : Draft) → draft ≡ Some d → IsEven d },
}
