//! The call: words, and an outside.
ghost use Rattle.std.specs.Prelude.{◌≡◌, ◌⊎◌, ◌≤◌, false, map, string_bytes, IfOk, IfErr};
ghost use Rattle.log_model.specs.Logs.{steps};
ghost use Rattle.no_memory.specs.Faults.{IsCausedBy};
ghost use Rattle.epoch_model.specs.Cutting.{IsCutting};
ghost use Rattle.replayer.specs.Checks.{IsChecked, IsMisfit};
ghost use Rattle.clap.specs.Words.{takes};
ghost use Rattle.jet_words.specs.CommandLine.{jet_app};
ghost use Rattle.jet_commands.specs.Targets.{IfFile, OpensAll, OpensFirst, KeepsAll, KeepsBut};
ghost use Rattle.jet_commands.specs.Plans.{command_in, target_in, files_of, IfUntimedIn};
ghost use Rattle.outer_io.specs.Outside.{change};
ghost use Rattle.epoch_engine.specs.Collecting.{AreAtBeginnings, AreRowsOf, IsCollectedOf};
ghost use Rattle.epoch_engine.specs.Texts.{AreTextsOf};
ghost use Rattle.command_parts.specs.Saying.{Says};
ghost use Rattle.jet_commands.specs.Ending.{IsUnwritten};
ghost use Rattle.jet_cli.specs.Statuses.{IsStatus, IsDone, IsDoneInPart, IsRefused, IsDecided, IsComplete};

use checkpoints::Checkpoints;
use command_parts::conclude;
use elf_image::Program;
use epoch_cut::Cuts;
use epoch_engine::{ClosureEngine, Collected, Parallelism};
use epoch_line::{checked_rows, rows, work};
use jet_commands::obey;
use no_memory::NoMemory;
use outer_io::{Clock, Gate, Sink, Store};
use query_lang::Query;
use replay_log::Log;
use replayer::{CheckFault, Job};
use sink_collect::{SinkSet, SinkSets, texts_at_once};
use std::sync::Wait;
use std::thread::Threads;

/// All that the program does, but for what `main` makes: the words begin with the program's name. The
/// status is 0 where what the words stand for was written whole, and else says why not (docs/FORMATS.md), as does one line
/// on `err`. Epochs are analysed in threads of `rt`, and `gate` is told of each.
pub fn jet<R: Threads + Wait + Sync + AllocGlobal, S: Store, O: Sink, E: Sink, K: Clock, G: Gate>(
    rt: &R,
    words: &[String],
    store: &mut S,
    out: &mut O,
    err: &mut E,
    clock: &mut K,
    gate: &G,
) -> u8
    ensures status { IsStatus result }
    // 2: the command line doesn't take the words.
    ensures usage { result ≡ 2 → takes jet_app (map string_bytes words.now) ≡ false }
    ensures unread { takes jet_app (map string_bytes words.now) ≡ false → (result ≡ 2) ⊎ (result ≡ 10) }
    // 0: what the words stand for was written whole, all files that they name were opened, and nothing is said.
    ensures done { result ≡ 0 → IsDone (command_in words.now)
        (change S.shown O.shown K.answers store.old out.old clock.old store.new out.new clock.new) }
    ensures all { result ≡ 0 → OpensAll (files_of (command_in words.now)) (S.shown store.old) (S.shown store.new) }
    ensures quiet { result ≡ 0 → err.new ≡ err.old }
    // 2 to 11: a refusal with its cause, whose line is said. At 8 a part may have been written. But for a log that is too
    // long, a fault in writing and out of memory, the clock gave no answer.
    ensures refused { 2 ≤ result → IsRefused result (command_in words.now) (Says (E.shown err.old) (E.shown err.new))
        (change S.shown O.shown K.answers store.old out.old clock.old store.new out.new clock.new) }
    ensures part { result ≡ 8 → IsDoneInPart (command_in words.now)
        (change S.shown O.shown K.answers store.old out.old clock.old store.new out.new clock.new) }
    // Where the outside doesn't fail, the files decide, whatever `err` does.
    ensures decided { IsDecided result (command_in words.now)
        (change S.shown O.shown K.answers store.old out.old clock.old store.new out.new clock.new) }
    ensures complete { IsComplete result (command_in words.now)
        (change S.shown O.shown K.answers store.old out.old clock.old store.new out.new clock.new) }
    // What is opened, in order, and what stays.
    ensures opened { OpensFirst (files_of (command_in words.now)) (S.shown store.old) (S.shown store.new) }
    ensures keeps { KeepsBut (target_in (command_in words.now)) (S.shown store.old) (S.shown store.new) }
    ensures untouched { IsUnwritten result → KeepsAll (S.shown store.old) (S.shown store.new) }
    ensures silent { IsUnwritten result → out.new ≡ out.old }
    ensures aside { IfFile (target_in (command_in words.now)) (out.new ≡ out.old) }
    ensures clock { IfUntimedIn (command_in words.now) (clock.new ≡ clock.old) }
{
    let alloc = rt.alloc();
    let line = ClosureEngine {
        gate,
        checked_rows: |program: Program, log: Log, query: &Query, cuts: Cuts, parallelism: Parallelism| -> Result<
            (Job, SinkSets),
            CheckFault,
        >
            requires cutting { IsCutting (steps log) cuts }
            ensures checked { IfOk result (λ r. IsChecked program.bytes.items program.image log r.0) }
            ensures rows { IfOk result (λ r. AreRowsOf query.entry.now r.0 r.1) }
            ensures fault { IfErr result (IsCausedBy (IsMisfit program.bytes.items program.image log)) }
        { checked_rows(rt, alloc, gate, program, log, query, cuts, parallelism) },
        rows: |checkpoints: &Checkpoints<
            '_,
        >, query: &Query, cuts: Cuts, parallelism: Parallelism| -> Result<SinkSets, NoMemory>
            requires { AreAtBeginnings cuts checkpoints.now }
            ensures { IfOk result (AreRowsOf query.entry.now checkpoints.entry.now.job) }
        { rows(rt, alloc, gate, checkpoints, query, cuts, parallelism) },
        work: |checkpoints: &Checkpoints<
            '_,
        >, query: &Query, cuts: Cuts, parallelism: Parallelism| -> Result<Collected, NoMemory>
            requires { AreAtBeginnings cuts checkpoints.now }
            ensures { IfOk result (IsCollectedOf query.entry.now checkpoints.entry.now.job cuts) }
        { work(rt, alloc, gate, checkpoints, query, cuts, parallelism) },
        texts: |rows: &[SinkSet], workers: u32| -> Result<Vec<Vec<u8>>, NoMemory>
            ensures { IfOk result (λ texts. AreTextsOf rows.entry.now texts.items) }
        { texts_at_once(rt, alloc, rows, workers) },
    };
    let outcome = obey(&line, alloc, words, store, out, clock);
    conclude(err, outcome)
}
