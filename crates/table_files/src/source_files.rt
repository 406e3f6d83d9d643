//! The files of the inputs, by their names.

ghost use Rattle.std.specs.Prelude.{◌≡◌, [], get_or, map};

use collector::Sources;
use tables::TableFiles;

/// The path of a file; empty where there is none.
fn path_at<'a>(paths: &[&'a str], place: usize) -> &'a str
    ensures { result.now ≡ get_or (map (λ s. s.now) paths.now) place [] }
{
    if place < paths.len() {
        paths[place]
    } else {
        ""
    }
}

/// The files of these paths, in the inputs' order.
#[derive(Clone, Copy)]
pub struct SourceFiles<'s, 'w, 'a, S> {
    pub sources: &'s S,
    pub paths: &'w [&'a str],
}

impl<'s, 'w, 'a, S: Sources<'a>> TableFiles for SourceFiles<'s, 'w, 'a, S> {
    type Reader = S::Reader;

    ghost use Rattle.std.specs.Prelude.{[], get_or, map};

    ghost content = { λ files place. S.content files.sources.now (get_or (map (λ s. s.now) files.paths.now) place []) };

    fn open(&self, place: usize) -> S::Reader {
        self.sources.open(path_at(self.paths, place))
    }
}
