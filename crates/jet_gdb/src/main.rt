//! `jet-gdb` lets GDB debug a recorded run, forwards and back, over its standard input and output.
//!
//! What each status says is told by the contract of `gdb_server::jet_gdb`.
#![tactic(auto)]

use command_parts::conclude;
use gdb_server::jet_gdb;
use jet_refusal::Refusal;
use no_memory::NoMemory;
use outer_io::{FileStore, OutSink};
use outer_wire::MachineWire;
use std::alloc::AllocError;
use std::env;
use std::io::ErrorKind;
use std::process::ExitCode;

/// What a file would begin with that may be replaced. None is written.
const MARK: &[u8] = b"JETLOG";

/// The words of the command line, of which the first is the program's name. A word that isn't UTF-8 is no word of a
/// command.
fn words_of(rt: HostRuntime) -> Result<Vec<String>, Refusal> {
    let args = match env::args(&rt) {
        Ok(args) => args,
        // `io` tells of a refused allocation by a kind of its own.
        Err(error) if error.kind() == ErrorKind::OutOfMemory => {
            return Err(Refusal::NoMemory(NoMemory::from(AllocError)));
        }
        Err(_) => return Err(Refusal::Usage),
    };
    let words: Vec<String> = args.collect(rt.alloc())?;
    Ok(words)
}

/// Makes the real outside, calls `jet_gdb` and ends with its status.
fn main(rt: HostRuntime) -> ExitCode {
    let mut err = OutSink::new(rt.stderr());
    let words = match words_of(rt) {
        Ok(words) => words,
        Err(refusal) => return ExitCode::from(conclude(&mut err, Err(refusal))),
    };
    let mut store = FileStore::new(rt, MARK);
    let mut wire = MachineWire::new(rt.stdin(), rt.stdout());
    let status = jet_gdb(rt.alloc(), &words, &mut store, &mut wire, &mut err);
    ExitCode::from(status)
}
