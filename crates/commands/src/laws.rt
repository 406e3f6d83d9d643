//! A query and an input have one answer; what following writes and replaying prints is what the query means.

ghost use Rattle.std.specs.Prelude.{◌≡◌, ℕ, List};
ghost use Rattle.semantics.specs.Multiset.{Record};
ghost use Rattle.graph.specs.Shown.{GraphValue};
ghost use Rattle.follow.specs.Entries.{Entry};
ghost use Rattle.replay.specs.Replays.{Setting};
ghost use Rattle.replay.specs.Waits.{State};
ghost use Rattle.commands.specs.Followed.{IsPartByText, IsWholeByText};
ghost use Rattle.commands.specs.Replayed.{IsPromisedByText};
ghost use Rattle.commands.specs.Runs.{IsRun};

/// A query and an input have one answer: whatever the engine did on the way, what is written of them is the same text.
pub fn law_one_answer()
    ensures { (query input t u : List ℕ) → IsRun query input t → IsRun query input u → t ≡ u }
{
    semantics::multisets::law_equal_multisets();
    collector::law_one_reading();
    collector::law_one_answer();
}

/// What is whole, or a part, by the graph is so by the query's text: the lines of a complete epoch are, at each output, all of what the
/// text's program means there on the epoch's records; the lines of the next one are part of it.
pub fn law_followed()
    ensures whole { (query : List ℕ) (g : GraphValue) (records : ℕ → List Record) (entries : List Entry) → IsWholeByText query g records entries }
    ensures part { (query : List ℕ) (g : GraphValue) (records : ℕ → List Record) (entries : List Entry) → IsPartByText query g records entries }
{}

/// What a schedule's question prints keeps the promise by the query's text: the answer at an output so far is part of what the text's program means
/// there on what was fed for the epoch, and all of it once the epoch has passed.
pub fn law_replayed()
    ensures { (query : List ℕ) (s : Setting) (x : State) (epoch output : ℕ) (label text : List ℕ) → IsPromisedByText query s x epoch output label text }
{}
