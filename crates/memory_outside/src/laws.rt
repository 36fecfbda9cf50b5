//! Laws of the sure forms. The functions do nothing: their contracts are the laws.

ghost use Rattle.std.specs.Prelude.{◌≡◌, ◌≤◌, ℕ, List, Option, Some, length, IsSome, IsTrue};
ghost use Rattle.outer_io.specs.Files.{Text};
ghost use Rattle.outer_io.specs.Outside.{IsUndisturbed, change};
ghost use Rattle.memory_outside.specs.Held.{name_fits, put_fits, file_fits, sure_files_of};
ghost use Rattle.memory_outside.specs.Names.{has_room_for, after_note};
ghost use Rattle.memory_outside.specs.SureStores.{StaysWithinRoom, sure_begin_read, sure_read, sure_create, sure_put, sure_finish};
ghost use Rattle.memory_outside.specs.MemorySinks.{StaysWithinRoom as SinkStaysWithinRoom, sure_write};

use crate::{SureSink, SureStore};
use outer_io::{Sink, Store};

/// A sure store tells its files while it stays within its room, and it does where there is room for what a call asks. It
/// never fails.
pub fn sure_store_stays_within_room(store: &SureStore)
    ensures tells { StaysWithinRoom store.now
        → (⟦<SureStore as Store>⟧.shown store.now).files ≡ Some (sure_files_of store.now.held) }
    ensures faults { (⟦<SureStore as Store>⟧.shown store.now).faults ≡ 0 }
    ensures begin_read { StaysWithinRoom store.now → (name : Text) → IsTrue (name_fits name)
        → StaysWithinRoom (sure_begin_read name store.now).1 }
    ensures read { StaysWithinRoom store.now → (room : ℕ) → StaysWithinRoom (sure_read room store.now).1 }
    ensures create { StaysWithinRoom store.now → (name : Text) → IsTrue (name_fits name)
        → StaysWithinRoom (sure_create name store.now).1 }
    ensures put { StaysWithinRoom store.now → (piece : List ℕ) → IsTrue (put_fits piece store.now.held)
        → StaysWithinRoom (sure_put piece store.now).1 }
    ensures finish { StaysWithinRoom store.now → IsTrue (file_fits store.now.held)
        → StaysWithinRoom (sure_finish store.now).1 }
    ensures names { IsSome store.now.opened.names → (name : Text) → IsTrue (has_room_for name store.now.opened)
        → IsSome (after_note name store.now.opened).names }
{
    let _ = store;
}

/// A sure sink tells what was written while it stays within its room, and it does where there is room for a piece. It never
/// fails.
pub fn sure_sink_stays_within_room(sink: &SureSink)
    ensures tells { SinkStaysWithinRoom sink.now
        → (⟦<SureSink as Sink>⟧.shown sink.now).written ≡ Some sink.now.buffer.bytes }
    ensures faults { (⟦<SureSink as Sink>⟧.shown sink.now).faults ≡ 0 }
    ensures put { SinkStaysWithinRoom sink.now → (piece : List ℕ) → length piece ≤ sink.now.buffer.room
        → SinkStaysWithinRoom (sure_write piece sink.now).1 }
{
    let _ = sink;
}

/// A sure store and a sure output are never disturbed, where no call wanted more than the store's room.
pub fn sure_is_undisturbed(
    store: &SureStore,
    store_after: &SureStore,
    out: &SureSink,
    out_after: &SureSink,
)
    ensures { (heard heard_after : Option (List ℕ)) → StaysWithinRoom store.now → StaysWithinRoom store_after.now
        → IsUndisturbed
        (change ⟦<SureStore as Store>⟧.shown ⟦<SureSink as Sink>⟧.shown
        (λ heard. heard) store.now out.now heard store_after.now out_after.now heard_after) }
{
    let _ = store;
    let _ = store_after;
    let _ = out;
    let _ = out_after;
}
