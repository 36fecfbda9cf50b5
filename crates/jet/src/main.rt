//! `jet` answers, of a recorded run, from which input bytes each output byte came.
//!
//! What each status says is told by the contract of `jet_cli::jet`.
#![tactic(auto)]

use command_parts::conclude;
use jet_cli::jet;
use jet_commands::mark_for;
use jet_refusal::Refusal;
use no_memory::NoMemory;
use outer_io::{FileStore, MachineClock, OpenGate, OutSink};
use std::alloc::AllocError;
use std::env;
use std::io::ErrorKind;
use std::process::ExitCode;

/// The words of the command line, of which the first is the program's name. A word that isn't UTF-8 is no word of a
/// command.
fn words_of(rt: HostRuntime) -> Result<Vec<String>, Refusal> {
    let args = match env::args(&rt) {
        Ok(args) => args,
        // `io` tells of a refused allocation by a kind of its own.
        Err(error) if error.kind() == ErrorKind::OutOfMemory => {
            return Err(Refusal::NoMemory(NoMemory::from(AllocError)));
        }
        Err(_) => return Err(Refusal::Usage),
    };
    let words: Vec<String> = args.collect(rt.alloc())?;
    Ok(words)
}

/// Makes the real outside, calls `jet` and ends with its status.
fn main(rt: HostRuntime) -> ExitCode {
    let mut err = OutSink::new(rt.stderr());
    let words = match words_of(rt) {
        Ok(words) => words,
        Err(refusal) => return ExitCode::from(conclude(&mut err, Err(refusal))),
    };
    let mark = match mark_for(rt.alloc(), &words) {
        Ok(mark) => mark,
        Err(no_memory) => {
            return ExitCode::from(conclude(&mut err, Err(Refusal::NoMemory(no_memory))));
        }
    };
    let mut store = FileStore::new(rt, mark);
    let mut out = OutSink::new(rt.stdout());
    let mut clock = MachineClock::new(rt);
    let status = jet(
        &rt, &words, &mut store, &mut out, &mut err, &mut clock, &OpenGate,
    );
    ExitCode::from(status)
}
