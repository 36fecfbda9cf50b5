//! The text of decisions.

ghost use Rattle.std.specs.Prelude.{◌≡◌, ◌++◌, List, IfOk, OnOk};
ghost use Rattle.decision_find.specs.Decisions.{Decision};
ghost use Rattle.source_labels.specs.Words.{label_words};
ghost use Rattle.decision_find.specs.Text.{mnemonic_text, ranges_text, place_text, line_text, decisions_text};
ghost use Rattle.decision_find.specs.Groups.{AreGroups, HaveLabels};

use crate::Place;
use crate::groups::Group;
use crate::tracking::DecisionTracking;
use instruction_text::mnemonic;
use isa::Instr;
use itoa::Buffer;
use merge_log::TermsReader;
use no_memory::NoMemory;
use printed_names::{push_lines_end, push_location, push_pc};
use source_labels::SourceLabels;
use source_ranges::{SourceSet, push_range};
use std::alloc::Global;
use taint_shadow::Label;

/// The text of the decisions of a run: a line for each place, and `end N`.
pub(crate) fn text(alloc: Global, tracking: &DecisionTracking) -> Result<Vec<u8>, NoMemory>
    requires { HaveLabels tracking.now.labels tracking.now.groups }
    ensures { IfOk result (λ text. (ds : List Decision) → AreGroups tracking.now.labels ds tracking.now.groups
        → text.items ≡ decisions_text ds) }
{
    let mut reader = TermsReader::new(alloc);
    let mut out = Vec::new(alloc);
    for (place, group) in &tracking.groups.by_place {
        push_group(
            alloc,
            &mut out,
            &tracking.labels,
            *place,
            group,
            &mut reader,
        )?;
    }
    push_lines_end(&mut out, tracking.groups.by_place.len() as u64)?;
    Ok(out)
}

/// Appends the line of a place.
fn push_group(
    alloc: Global,
    out: &mut Vec<u8>,
    labels: &SourceLabels,
    place: Place,
    group: &Group,
    reader: &mut TermsReader,
) -> Result<(), NoMemory>
    requires { label_words.stands labels.now group.now.label }
    ensures { OnOk result (out.new.items ≡ out.old.items
        ++ line_text place group.now.instr group.now.count group.now.first
        (label_words.means labels.now group.now.label)) }
{
    let sources = sources_of(alloc, labels, group.label, reader)?;
    let pushed = push_line(out, place, group, &sources);
    drop(sources);
    pushed
}

/// The source bytes of a label.
fn sources_of(
    alloc: Global,
    labels: &SourceLabels,
    label: Label,
    reader: &mut TermsReader,
) -> Result<SourceSet, NoMemory>
    requires { label_words.stands labels.now label }
    ensures { IfOk result (λ sources. sources ≡ label_words.means labels.now label) }
{
    labels.read(label, reader)?;
    SourceSet::of_runs(alloc, reader.runs())
}

/// Appends the line of a place, whose decisions have these source bytes.
fn push_line(
    out: &mut Vec<u8>,
    place: Place,
    group: &Group,
    sources: &SourceSet,
) -> Result<(), NoMemory>
    ensures { OnOk result (out.new.items ≡ out.old.items
        ++ line_text place group.now.instr group.now.count group.now.first sources.now) }
{
    let mut buffer = Buffer::new();
    push_place(out, place, &group.instr)?;
    out.push(b' ')?;
    out.extend_from_slice(buffer.format(group.count).as_bytes())?;
    out.push(b' ')?;
    out.extend_from_slice(buffer.format(group.first).as_bytes())?;
    push_ranges(out, sources)?;
    out.push(b'\n')?;
    Ok(())
}

/// Appends a place, and the mnemonic of the instruction there.
fn push_place(out: &mut Vec<u8>, place: Place, instr: &Option<Instr>) -> Result<(), NoMemory>
    ensures { OnOk result (out.new.items ≡ out.old.items ++ place_text place instr.now) }
{
    push_pc(out, place.pc)?;
    out.push(b' ')?;
    push_mnemonic(out, instr)?;
    out.push(b' ')?;
    push_location(out, place.loc)
}

/// Appends the mnemonic of an instruction; `.word` where there is none.
fn push_mnemonic(out: &mut Vec<u8>, instr: &Option<Instr>) -> Result<(), NoMemory>
    ensures { OnOk result (out.new.items ≡ out.old.items ++ mnemonic_text instr.now) }
{
    match instr {
        Some(instr) => out.extend_from_slice(mnemonic(instr).as_bytes())?,
        None => out.extend_from_slice(b".word")?,
    }
    Ok(())
}

/// Appends the ranges of source bytes, each after a blank.
fn push_ranges(out: &mut Vec<u8>, sources: &SourceSet) -> Result<(), NoMemory>
    ensures { OnOk result (out.new.items ≡ out.old.items ++ ranges_text sources.now) }
{
    for range in sources.ranges() {
        out.push(b' ')?;
        push_range(out, *range)?;
    }
    Ok(())
}
