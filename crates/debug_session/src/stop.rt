//! The packet that tells why a run stopped.

ghost use Rattle.std.specs.Prelude.{◌≡◌, ◌++◌, codes, IfOk, OnOk};
ghost use Rattle.debug_model.specs.StopTexts.{signal_of as signal_of_trap, watch_name as name_of_kind, address_text, stop_text as text_of_stop};

use no_memory::NoMemory;
use run_travel::{Cause, Watch, WatchKind};
use std::alloc::Global;

/// A misaligned target, as GDB numbers signals.
const SIGBUS: u8 = 10;

/// An illegal instruction.
const SIGILL: u8 = 4;

/// A breakpoint.
const SIGTRAP: u8 = 5;

/// A fetch, a load or a store outside the window.
const SIGSEGV: u8 = 11;

/// The signal of a trap, by its kind.
fn signal_of(kind: u32) -> u8
    ensures { result ≡ signal_of_trap kind }
{
    match kind {
        0 => SIGBUS,
        2 => SIGILL,
        3 => SIGTRAP,
        _ => SIGSEGV,
    }
}

/// The stop reason of a watchpoint.
fn watch_name(kind: WatchKind) -> &'static [u8]
    ensures { result.now ≡ name_of_kind kind }
{
    match kind {
        WatchKind::Writes => b"watch",
        WatchKind::Reads => b"rwatch",
        WatchKind::Both => b"awatch",
    }
}

/// Appends an address as eight digits.
fn push_address(text: &mut Vec<u8>, place: u32) -> Result<(), NoMemory>
    ensures { OnOk result (text.new.items ≡ text.old.items ++ address_text place) }
{
    let mut digits = [0; 8];
    let bytes = place.to_be_bytes();
    let _ = hex::encode_to_slice(bytes.as_slice(), &mut digits);
    text.extend_from_slice(&digits)?;
    Ok(())
}

/// The packet of a stop at a watchpoint.
fn watched_text(alloc: Global, watch: Watch) -> Result<Vec<u8>, NoMemory>
    ensures { IfOk result (λ text. text.items ≡ text_of_stop (Cause.Watched watch)) }
{
    let mut text = Vec::from_slice(alloc, b"T05")?;
    text.extend_from_slice(watch_name(watch.kind))?;
    text.push(b':')?;
    push_address(&mut text, watch.place)?;
    text.push(b';')?;
    Ok(text)
}

/// The packet of a stop at a trap.
fn trapped_text(alloc: Global, kind: u32) -> Result<Vec<u8>, NoMemory>
    ensures { IfOk result (λ text. text.items ≡ text_of_stop (Cause.Trapped kind)) }
{
    let mut digits = [0; 2];
    let signal = [signal_of(kind)];
    let _ = hex::encode_to_slice(signal.as_slice(), &mut digits);
    let mut text = Vec::from_slice(alloc, b"T")?;
    text.extend_from_slice(&digits)?;
    Ok(text)
}

/// The packet of a stop. It gives up with NoMemory alone (GDB Remote Serial Protocol, "Stop Reply Packets").
pub(crate) fn stop_text(alloc: Global, cause: Cause) -> Result<Vec<u8>, NoMemory>
    ensures { IfOk result (λ text. text.items ≡ text_of_stop cause) }
{
    match cause {
        Cause::Arrived => Ok(Vec::from_slice(alloc, b"T05")?),
        Cause::Watched(watch) => watched_text(alloc, watch),
        Cause::End => Ok(Vec::from_slice(alloc, b"T05replaylog:end;")?),
        Cause::Trapped(kind) => trapped_text(alloc, kind),
        Cause::Beginning => Ok(Vec::from_slice(alloc, b"T05replaylog:begin;")?),
    }
}
