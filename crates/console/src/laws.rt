//! A run that ends well has answered.

ghost use Rattle.std.specs.Prelude.{◌≡◌, ℕ, Bool, List, Some};
ghost use Rattle.command_line.specs.declared.line_options.Options.{Options};
ghost use Rattle.commands.specs.Readings.{Known};
ghost use Rattle.console.specs.Asked.{queries_of};
ghost use Rattle.console.specs.Commands.{AsksRun, HasEnded, IsAnswered};
ghost use Rattle.console.specs.declared.transcripts.Transcripts.{Transcripts};

/// A run that has ended with status 0 has read both texts to their ends, whatever is known of them, and what was written is their answer. An input
/// that has to end with the mark did.
pub fn law_answered()
    ensures { (texts : Known) (read : Transcripts) (options : Options) (query input : List ℕ) (marked : Bool) (old new : List ℕ) → AsksRun options query input marked
        → HasEnded texts read options (Some old) (Some new) 0 → IsAnswered (queries_of options texts) read query input marked old new }
{}
