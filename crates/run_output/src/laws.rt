//! Laws of the definitions: each is the contract of a function that does nothing.

ghost use Rattle.std.specs.Prelude.{◌≡◌, ◌≤◌, ◌++◌, ◌∷◌, [], List, ℕ, length, codes};
ghost use Rattle.std.specs.List.{flat_map};
ghost use Rattle.isa.specs.Machine.{State};
ghost use Rattle.log_model.specs.Logs.{Log};
ghost use Rattle.run_output.specs.Summary.{number_line};
ghost use Rattle.run_output.specs.Stacks.{stacks_text, with_lines_end};
ghost use Rattle.run_output.specs.Pieces.{LinesTileChannels};

/// The text of several times is, of each of them in their order, a line `stack T` and the text that the time has alone,
/// and then the number of those lines.
pub fn parts_are_the_texts_alone()
    ensures { (s : State) (log : Log) (ts : List ℕ) → 2 ≤ length ts → stacks_text s log ts
        ≡ with_lines_end (flat_map (λ t. number_line (codes "stack") t ++ stacks_text s log (t ∷ [])) ts) }
{}

/// On each channel the pieces that the lines of reads tell are the bytes that the run read, and those that the lines of
/// writes tell the bytes that it wrote: in order, and each from where the one before it ends.
pub fn lines_tile_channels()
    ensures { LinesTileChannels }
{}
