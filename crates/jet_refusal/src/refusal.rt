//! Why a command gave up, its status and its line.

ghost use Rattle.std.specs.Prelude.{◌≡◌, ◌+◌, ◌≤◌, ◌++◌, length};
ghost use Rattle.jet_refusal.specs.Lines.{log_fault_text, program_text, place_text, values_text, divergence_text};
ghost use Rattle.jet_refusal.specs.Lines.{query_text, query_of_text, query_place_text, rules_text};
ghost use Rattle.jet_refusal.specs.Refusals.{status_of, text_of, line_of};

use crate::line::Line;
use crate::names::{image_text, log_fault_name, push_field, query_kind, rule_name};
use elf_model::ImageKind;
use flow_model::Rule;
use log_model::LogKind;
use no_memory::NoMemory;
use replay_model::Divergence;
use report_model::QueryKind;

/// Why a command gave up.
#[derive(Clone, Copy)]
pub enum Refusal {
    /// The command line's words are no command.
    Usage,
    /// The program is no image: its first fault.
    Image(ImageKind),
    /// The window of so many pages of 4096 bytes can't hold the image.
    Window {
        pages: u32,
    },
    /// The log's bytes are no log: the first fault, and its offset in bytes.
    Log {
        kind: LogKind,
        offset: u64,
    },
    /// The log keeps the SHA-256 digest of one program, and the program seen has another.
    Program {
        kept: [u8; 32],
        seen: [u8; 32],
    },
    /// The log and the run of its program differ.
    Diverged(Divergence),
    /// The query's text is no query: the line, counted from 1 (0 is the whole text), and its first fault.
    Query {
        line: u32,
        kind: QueryKind,
    },
    /// Of several query files the text of one is no query: the file, counted from 1, the line, counted from 1 (0 is the
    /// whole text), and its first fault.
    QueryOf {
        file: u32,
        line: u32,
        kind: QueryKind,
    },
    /// Several queries don't have one rule: that of the first, and the first other one, with its query's place, counted
    /// from 1.
    Rules {
        first: Rule,
        index: u32,
        other: Rule,
    },
    /// A file has more than 2^26 bytes.
    TooLong,
    /// The log of the run has so many bytes, more than 2^26.
    LogTooLong(u64),
    /// The run would be cut into so many epochs, more than 4096.
    TooManyEpochs(u64),
    /// The store failed while a file was read.
    ReadFault,
    /// The output failed, or the store while a file was written.
    WriteFault,
    /// Out of memory.
    NoMemory(NoMemory),
}

impl Refusal {
    /// The status that a command ends with.
    pub fn status(&self) -> u8
        ensures { result ≡ status_of self.now }
    {
        match self {
            Refusal::Usage => 2,
            Refusal::Image(_) => 3,
            Refusal::Window { .. } => 3,
            Refusal::Log { .. } => 4,
            Refusal::Program { .. } => 5,
            Refusal::Diverged(_) => 5,
            Refusal::Query { .. } => 6,
            Refusal::QueryOf { .. } => 6,
            Refusal::ReadFault => 7,
            Refusal::WriteFault => 8,
            Refusal::TooLong => 9,
            Refusal::LogTooLong(_) => 9,
            Refusal::TooManyEpochs(_) => 9,
            Refusal::NoMemory(_) => 10,
            Refusal::Rules { .. } => 11,
        }
    }

    /// The line that a command prints on standard error.
    pub fn line(&self) -> Line
        ensures { result ≡ line_of self.now }
    {
        let mut line = Line::new();
        line.push_str("jet: ");
        push_text(&mut line, self);
        line.push(b"\n");
        line
    }
}

/// Appends what the line says, which is 190 bytes at most.
fn push_text(line: &mut Line, refusal: &Refusal)
    requires { length line.old + 190 ≤ 256 }
    ensures text { line.new ≡ line.old ++ text_of refusal.now }
    ensures short { length line.new ≤ length line.old + 190 }
{
    match refusal {
        Refusal::Usage => line.push_str("usage"),
        Refusal::Image(kind) => line.push_str(image_text(*kind)),
        Refusal::Window { pages } => {
            line.push_str("window ");
            line.push_number(*pages);
        }
        Refusal::Log { kind, offset } => push_log(line, *kind, *offset),
        Refusal::Program { kept, seen } => push_program(line, kept, seen),
        Refusal::Diverged(divergence) => push_divergence(line, divergence),
        Refusal::Query { line: number, kind } => push_query(line, *number, *kind),
        Refusal::QueryOf {
            file,
            line: number,
            kind,
        } => push_query_of(line, *file, *number, *kind),
        Refusal::Rules {
            first,
            index,
            other,
        } => push_rules(line, *first, *index, *other),
        Refusal::TooLong => line.push_str("limit file"),
        Refusal::LogTooLong(size) => {
            line.push_str("limit log ");
            line.push_number(*size);
        }
        Refusal::TooManyEpochs(count) => {
            line.push_str("limit epochs ");
            line.push_number(*count);
        }
        Refusal::ReadFault => line.push_str("read fault"),
        Refusal::WriteFault => line.push_str("write fault"),
        Refusal::NoMemory(_) => line.push_str("memory"),
    }
}

fn push_log(line: &mut Line, kind: LogKind, offset: u64)
    requires { length line.old + 58 ≤ 256 }
    ensures text { line.new ≡ line.old ++ log_fault_text kind offset }
    ensures short { length line.new ≤ length line.old + 58 }
{
    line.push_str("log ");
    line.push_str(log_fault_name(kind));
    line.push_str(" at ");
    line.push_number(offset);
}

fn push_program(line: &mut Line, kept: &[u8; 32], seen: &[u8; 32])
    requires { length line.old + 147 ≤ 256 }
    ensures text { line.new ≡ line.old ++ program_text kept.now seen.now }
    ensures short { length line.new ≤ length line.old + 147 }
{
    line.push_str("program kept ");
    line.push_digest(kept);
    line.push_str(" seen ");
    line.push_digest(seen);
}

fn push_divergence(line: &mut Line, divergence: &Divergence)
    requires { length line.old + 190 ≤ 256 }
    ensures text { line.new ≡ line.old ++ divergence_text divergence.now }
    ensures short { length line.new ≤ length line.old + 190 }
{
    push_place(line, divergence);
    push_values(line, divergence);
}

fn push_place(line: &mut Line, divergence: &Divergence)
    requires { length line.old + 98 ≤ 256 }
    ensures text { line.new ≡ line.old ++ place_text divergence.now.step divergence.now.field }
    ensures short { length line.new ≤ length line.old + 98 }
{
    line.push_str("diverged at ");
    line.push_number(divergence.step);
    line.push_str(" ");
    push_field(line, divergence.field);
}

fn push_values(line: &mut Line, divergence: &Divergence)
    requires { length line.old + 92 ≤ 256 }
    ensures text { line.new ≡ line.old ++ values_text divergence.now.kept divergence.now.seen }
    ensures short { length line.new ≤ length line.old + 92 }
{
    line.push_str(" kept ");
    line.push_number(divergence.kept);
    line.push_str(" seen ");
    line.push_number(divergence.seen);
}

fn push_query(line: &mut Line, number: u32, kind: QueryKind)
    requires { length line.old + 62 ≤ 256 }
    ensures text { line.new ≡ line.old ++ query_text number kind }
    ensures short { length line.new ≤ length line.old + 62 }
{
    line.push_str("query ");
    push_query_place(line, number, kind);
}

fn push_query_of(line: &mut Line, file: u32, number: u32, kind: QueryKind)
    requires { length line.old + 103 ≤ 256 }
    ensures text { line.new ≡ line.old ++ query_of_text file number kind }
    ensures short { length line.new ≤ length line.old + 103 }
{
    line.push_str("query ");
    line.push_number(file);
    line.push_str(" ");
    push_query_place(line, number, kind);
}

fn push_query_place(line: &mut Line, number: u32, kind: QueryKind)
    requires { length line.old + 56 ≤ 256 }
    ensures text { line.new ≡ line.old ++ query_place_text number kind }
    ensures short { length line.new ≤ length line.old + 56 }
{
    line.push_str("line ");
    line.push_number(number);
    line.push_str(" ");
    line.push_str(query_kind(kind));
}

fn push_rules(line: &mut Line, first: Rule, index: u32, other: Rule)
    requires { length line.old + 62 ≤ 256 }
    ensures text { line.new ≡ line.old ++ rules_text first index other }
    ensures short { length line.new ≤ length line.old + 62 }
{
    line.push_str("rules ");
    line.push_str(rule_name(first));
    line.push_str(" ");
    line.push_number(index);
    line.push_str(" ");
    line.push_str(rule_name(other));
}
