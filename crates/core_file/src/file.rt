//! The whole file.

ghost use Rattle.std.specs.Prelude.{◌≡◌, ◌+◌, ◌<◌, ◌≤◌, ◌++◌, length, IfOk, OnOk};
ghost use Rattle.log_model.specs.Logs.{steps};
ghost use Rattle.replayer.specs.Positions.{state_at};
ghost use Rattle.core_file.specs.Headers.{core_mark as mark_of_cores, load_header, header_bytes};
ghost use Rattle.core_file.specs.CoreFile.{core_of, core_file as core_of_run};

use crate::note::{push_note, signal_after};
use crate::words::push_words;
use no_memory::NoMemory;
use replayer::{Cursor, Job, Next};
use std::alloc::Global;

/// How many bytes stand before the window.
const WINDOW_OFFSET: u32 = 340;

/// The type of a program header whose bytes are loaded.
const PT_LOAD: u32 = 1;

/// The permissions of the window: it may be read, written and executed.
const PF_R_W_X: u32 = 7;

/// What each core file begins with, and no log and no page: its first 84 bytes.
#[tactic(auto, unfolding(crate::specs::Headers::core_mark))]
pub fn core_mark() -> &'static [u8]
    ensures mark { result.now ≡ mark_of_cores }
    ensures long { length result.now ≡ 84 }
{
    &[
        0x7f, 0x45, 0x4c, 0x46, 1, 1, 1, 0, 0, 0, 0, 0, 0, 0, 0, 0, 4, 0, 243, 0, 1, 0, 0, 0, 0, 0,
        0, 0, 52, 0, 0, 0, 0, 0, 0, 0, 0, 0, 0, 0, 52, 0, 32, 0, 2, 0, 0, 0, 0, 0, 0, 0, 4, 0, 0,
        0, 116, 0, 0, 0, 0, 0, 0, 0, 0, 0, 0, 0, 224, 0, 0, 0, 0, 0, 0, 0, 4, 0, 0, 0, 4, 0, 0, 0,
    ]
}

/// Appends the program header of a window of so many bytes from the base on.
fn push_load_header(file: &mut Vec<u8>, base: u32, size: usize) -> Result<(), NoMemory>
    ensures { OnOk result (file.new.items ≡ file.old.items ++ header_bytes (load_header base size) 7 1) }
{
    // A window has at most 2^24 bytes.
    let size = (size % (1 << 32)) as u32;
    push_words(
        file,
        &[PT_LOAD, WINDOW_OFFSET, base, base, size, size, PF_R_W_X, 1],
    )
}

/// The core file of where a cursor stands, with this signal.
fn file_of(alloc: Global, cursor: &Cursor<'_>, signal: u16) -> Result<Vec<u8>, NoMemory>
    ensures { IfOk result (λ file. file.items ≡ core_of signal (state_at cursor.now)) }
{
    let window = cursor.window();
    let mut file = Vec::with_capacity(alloc, WINDOW_OFFSET as usize + window.len())?;
    file.extend_from_slice(core_mark())?;
    push_load_header(&mut file, cursor.base(), window.len())?;
    push_note(&mut file, signal, cursor)?;
    file.extend_from_slice(window)?;
    Ok(file)
}

/// Makes the next step of the run.
fn make_step(cursor: &mut Cursor)
    requires { cursor.old.time < steps cursor.old.job.log }
    ensures { cursor.new ≡ record { job = cursor.old.job; time = cursor.old.time + 1 } }
{
    let Next::Step(_) = cursor.next() else {
        unreachable!()
    };
}

/// A cursor after so many steps of the run of a job.
fn cursor_at<'a>(alloc: Global, job: &'a Job, time: u64) -> Result<Cursor<'a>, NoMemory>
    requires { time ≤ steps job.now.log }
    ensures { IfOk result (λ cursor. cursor ≡ record { job = job.now; time = time }) }
{
    let mut cursor = Cursor::start(alloc, job)?;
    for _step in 0..time {
        make_step(&mut cursor);
    }
    Ok(cursor)
}

/// The core file of the run of a job after so many steps: the registers and the window of memory as they are then,
/// and the signal of the trap where the run stands at its trap, else SIGTRAP. Past the run's steps the time counts as
/// their number. It has 340 bytes and those of the window, and gives up with NoMemory alone (System V gABI, "ELF
/// Header" and "Program Header"; Linux, `struct elf_prstatus`).
pub fn core_file(alloc: Global, job: &Job, time: u64) -> Result<Vec<u8>, NoMemory>
    ensures { IfOk result (λ file. file.items ≡ core_of_run job.now.start job.now.log time) }
{
    let cursor = cursor_at(alloc, job, time.min(job.steps()))?;
    file_of(alloc, &cursor, signal_after(job.log().end(), time))
}
