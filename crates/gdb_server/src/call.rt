//! The call: words, and an outside.

ghost use Rattle.std.specs.Prelude.{◌≡◌, ◌≤◌, ◌⊎◌, false, map, nat_eq, string_bytes, Err, IsErrAnd};
ghost use Rattle.clap.specs.Words.{takes};
ghost use Rattle.outer_io.specs.Reads.{Reads};
ghost use Rattle.jet_refusal.specs.Faults.{IsOutOfMemory};
ghost use Rattle.command_parts.specs.Saying.{Says};
ghost use Rattle.gdb_words.specs.Requests.{gdb_app};
ghost use Rattle.gdb_server.specs.Serving.{change, request_in, names_in, Obeys};
ghost use Rattle.gdb_server.specs.Serving.{IsStatus, IsDone, IsRefused, IsDecided, IsSoFar};

use crate::serve::serve;
use command_parts::conclude;
use gdb_words::read_words;
use jet_refusal::Refusal;
use no_memory::Fault;
use outer_io::{Sink, Store};
use outer_wire::Wire;
use std::alloc::Global;

/// What the words stand for is done; of these the first is the program's name.
fn obey<S: Store, W: Wire>(
    alloc: Global,
    words: &[String],
    store: &mut S,
    wire: &mut W,
) -> Result<(), Refusal>
    ensures usage { result ≡ Err Refusal.Usage → takes gdb_app (map string_bytes words.now) ≡ false }
    ensures unread { takes gdb_app (map string_bytes words.now) ≡ false
        → IsErrAnd result (λ r. (r ≡ Refusal.Usage) ⊎ IsOutOfMemory r) }
    ensures obeys { Obeys (request_in words.now)
        (change S.shown W.shown store.old wire.old store.new wire.new) (wire.new ≡ wire.old) result }
{
    match read_words(alloc, words) {
        Ok(request) => serve(alloc, request, store, wire),
        Err(Fault::At(_)) => Err(Refusal::Usage),
        Err(Fault::NoMemory(no_memory)) => Err(Refusal::NoMemory(no_memory)),
    }
}

/// All that the program does, but for what `main` makes: the words begin with the program's name. The log is checked, and
/// then the run is debugged over the wire (docs/FORMATS.md). The status is 0 where the session ended, or the wire was found
/// at its end, and else says why not, as does one line on `err`.
pub fn jet_gdb<S: Store, W: Wire, E: Sink>(
    alloc: Global,
    words: &[String],
    store: &mut S,
    wire: &mut W,
    err: &mut E,
) -> u8
    ensures status { IsStatus result }
    // 2: the command line doesn't take the words.
    ensures usage { result ≡ 2 → takes gdb_app (map string_bytes words.now) ≡ false }
    ensures unread { takes gdb_app (map string_bytes words.now) ≡ false → (result ≡ 2) ⊎ (result ≡ 10) }
    // 0: what went over the wire is the dialogue of what came, each answer before more came, up to its end; and nothing is
    // said.
    ensures done { result ≡ 0 → IsDone (request_in words.now)
        (change S.shown W.shown store.old wire.old store.new wire.new) }
    ensures quiet { result ≡ 0 → err.new ≡ err.old }
    // 2 to 11: a refusal with its cause, whose line is said.
    ensures refused { 2 ≤ result → IsRefused result (request_in words.now) (Says (E.shown err.old) (E.shown err.new))
        (change S.shown W.shown store.old wire.old store.new wire.new) (wire.new ≡ wire.old) }
    // Where the store and the wire don't fail, the files decide, whatever `err` does and whatever comes.
    ensures decided { IsDecided result (request_in words.now)
        (change S.shown W.shown store.old wire.old store.new wire.new) }
    // In any case: nothing passed, or a talk as far as it went; and no file differs.
    ensures so_far { IsSoFar (request_in words.now)
        (change S.shown W.shown store.old wire.old store.new wire.new) (wire.new ≡ wire.old) }
    ensures reads { Reads (names_in (request_in words.now)) (nat_eq result 0) (S.shown store.old) (S.shown store.new) }
{
    let outcome = obey(alloc, words, store, wire);
    conclude(err, outcome)
}
