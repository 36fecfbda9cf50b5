//! Runs as a set of bytes.

ghost use Rattle.std.specs.Prelude.{◌≡◌, ◌++◌, [], OnOk};
ghost use Rattle.lists.specs.Sets.{Ascends, has};
ghost use Rattle.flow_model.specs.Orders.{source_cmp};
ghost use Rattle.flow_model.specs.declared.SourceByte.{SourceByte as Source};
ghost use Rattle.source_runs.specs.Runs.{all_bytes, bytes_of, AreLongest, AreRising};

use crate::runs::SourceRun;
use flow_model::SourceByte;
use no_memory::NoMemory;

/// Makes of runs in any order those of the same bytes, ascending, each byte once, and each run as long as can be. Only the room
/// of `spare` is used. It fails only where there is no memory.
pub fn normalise(runs: &mut Vec<SourceRun>, spare: &mut Vec<SourceRun>) -> Result<(), NoMemory>
    ensures members { OnOk result
        ((b : Source) → has source_cmp b (all_bytes runs.new.items) ≡ has source_cmp b (all_bytes runs.old.items)) }
    ensures ascending { OnOk result (Ascends source_cmp (all_bytes runs.new.items)) }
    ensures longest { OnOk result (AreLongest runs.new.items) }
{
    spare.clear();
    join_neighbours(runs, spare)?;
    spare.sort_unstable();
    runs.clear();
    join_neighbours(spare, runs)
}

/// The runs, with each that overlaps or touches those just before it joined to them: where runs nearly ascend or descend, few are
/// left to be sorted; and where they ascend by channel and first offset, none that are left overlap or touch.
fn join_neighbours(runs: &[SourceRun], joined: &mut Vec<SourceRun>) -> Result<(), NoMemory>
    requires { joined.old.items ≡ [] }
    ensures members { OnOk result
        ((b : Source) → has source_cmp b (all_bytes joined.new.items) ≡ has source_cmp b (all_bytes runs.now)) }
    ensures ascending { OnOk result (AreRising runs.now → Ascends source_cmp (all_bytes joined.new.items)) }
    ensures longest { OnOk result (AreRising runs.now → AreLongest joined.new.items) }
{
    let Some((first, more)) = runs.split_first() else {
        return Ok(());
    };
    let mut current = *first;
    for run in more {
        if current.touches(*run) {
            current = current.hull(*run);
        } else {
            joined.push(current)?;
            current = *run;
        }
    }
    joined.push(current)?;
    Ok(())
}

/// Appends the bytes of runs, one run after another. It fails only where there is no memory.
pub fn push_bytes(out: &mut Vec<SourceByte>, runs: &[SourceRun]) -> Result<(), NoMemory>
    ensures { OnOk result (out.new.items ≡ out.old.items ++ all_bytes runs.now) }
{
    for run in runs {
        push_run(out, *run)?;
    }
    Ok(())
}

/// Appends the bytes of a run.
fn push_run(out: &mut Vec<SourceByte>, run: SourceRun) -> Result<(), NoMemory>
    ensures { OnOk result (out.new.items ≡ out.old.items ++ bytes_of run) }
{
    for offset in run.first as u64..run.last as u64 + 1 {
        out.push(SourceByte {
            channel: run.channel,
            offset: offset as u32,
        })?;
    }
    Ok(())
}
