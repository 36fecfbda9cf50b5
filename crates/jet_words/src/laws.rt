//! Laws of the words. Each is a function that does nothing: its contract is the law.

ghost use Rattle.std.specs.Prelude.{◌≡◌, ◌↔◌, ℕ, List, None, false};
ghost use Rattle.clap.specs.Words.{takes};
ghost use Rattle.jet_words.specs.CommandLine.{jet_app};
ghost use Rattle.jet_words.specs.Commands.{command_of};

/// The words stand for no command exactly where the command line doesn't take them.
pub fn command_where_taken()
    ensures { (words : List (List ℕ)) → (command_of words ≡ None) ↔ (takes jet_app words ≡ false) }
{}
