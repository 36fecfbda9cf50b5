//! The files of a run's inputs.
ghost use Rattle.std.specs.Prelude.{◌≡◌, ◌≤◌, ◌^◌, length, map, is_ok, IfOk};
ghost use Rattle.std.specs.List.{All};
ghost use Rattle.outer_io.specs.Reads.{Reads};
ghost use Rattle.jet_model.specs.Contents.{inputs_at};
ghost use Rattle.command_parts.specs.Outcome.{IsOutcomeOf, seen_by};
ghost use Rattle.jet_commands.specs.Outcome.{inputs_of};

use command_parts::read_file;
use jet_refusal::Refusal;
use outer_io::Store;
use std::alloc::Global;

/// Reads the files of these names, one after another. It gives up as `read_file` does, at the first that is
/// refused.
pub fn open_inputs<S: Store>(
    alloc: Global,
    store: &mut S,
    names: &[&str],
) -> Result<Vec<Vec<u8>>, Refusal>
    ensures outcome { IsOutcomeOf (λ file. inputs_at file (map (λ name. name.now) names.now)) (S.shown store.old)
        (S.shown store.new) (seen_by inputs_of result) }
    ensures many { IfOk result (λ inputs. length inputs.items ≡ length names.now) }
    ensures short { IfOk result (λ inputs. All (λ v. length v.items ≤ 2 ^ 26) inputs.items) }
    ensures reads { Reads (map (λ name. name.now) names.now) (is_ok result) (S.shown store.old) (S.shown store.new) }
{
    let mut inputs = Vec::new(alloc);
    for name in names {
        let input = read_file(alloc, store, name)?;
        inputs.push(input)?;
    }
    Ok(inputs)
}
