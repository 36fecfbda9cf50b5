//! What is asked for a sink, and for a request of the next epoch.

ghost use Rattle.std.specs.Prelude.{◌≡◌, ◌<◌, length, take, Some, false, IfOk, OnOk, OnErr};
ghost use Rattle.epoch_model.specs.Crossing.{added, added_all};
ghost use Rattle.stream_model.specs.Streams.{places_up_to};
ghost use Rattle.stream_model.specs.Passes.{asked_more};
ghost use Rattle.source_labels.specs.Words.{log_of};
ghost use Rattle.epoch_summary.specs.Summaries.{nodes_of, summary_of};
ghost use Rattle.pass_parts.specs.Known.{known};
ghost use Rattle.pass_parts.specs.Requests.{IsCounted, AreCounted};
ghost use Rattle.backward_pass.specs.Backward.{AreAsked, IsWalked, IsRequested};
ghost use Rattle.backward_pass.specs.Needs.{AreOfLog};

use crate::node_needs::NodeNeeds;
use epoch_summary::{Asked, Summary};
use flow_model::Loc;
use no_memory::NoMemory;
use pass_parts::{Request, Requests, is_location, share_end_terms};

/// Asks for a start location. It gives how many of the asked locations there are up to it. When out of memory nothing is
/// asked.
pub(crate) fn add_start(asked: &mut Asked, start: Loc) -> Result<usize, NoMemory>
    ensures added { OnOk result (asked.new ≡ added asked.old start) }
    ensures up_to { IfOk result (λ n. n ≡ places_up_to asked.new start) }
    ensures err { OnErr result (asked.new ≡ asked.old) }
{
    let place = asked.add(start)?;
    asked.form();
    let _count = asked.count(); // so that the number after a place fits
    Ok(place + 1)
}

/// Asks for some start locations in turn. When out of memory, part of them may be asked.
pub(crate) fn add_all(starts: &[Loc], asked: &mut Asked) -> Result<(), NoMemory>
    ensures { OnOk result (asked.new ≡ added_all asked.old starts.now) }
{
    for start in starts {
        asked.add(*start)?;
    }
    Ok(())
}

/// Asks for where the content of a sink was at the epoch's start. The first epoch asks nothing, and a sink with the
/// label of the one before it nothing more. When out of memory, part of it may be asked.
pub(crate) fn add_sink(
    summary: &Summary,
    needs: &mut NodeNeeds,
    number: usize,
    first: bool,
    asked: &mut Asked,
) -> Result<(), NoMemory>
    requires inside { number < length (summary_of summary.now).sinks }
    requires of_log { AreOfLog (log_of (nodes_of summary.now)) asked.old needs.old }
    requires walked { first ≡ false → AreAsked asked.old (take number (summary_of summary.now).sinks) }
    ensures of_log { AreOfLog (log_of (nodes_of summary.now)) asked.new needs.new }
    ensures walked { OnOk result (IsWalked first (summary_of summary.now).sinks number asked.old asked.new) }
{
    if first || summary.shares_terms(number) {
        return Ok(());
    }
    needs.ask(summary.nodes(), summary.sinks()[number].label, asked)?;
    Ok(())
}

/// Asks for where the content of a location was at the epoch's start, and counts what must be answered before it. One
/// with the label of the location that was requested last needs the same, and nothing more is asked. When out of memory,
/// part of it may be asked.
fn add_location(
    summary: &Summary,
    needs: &mut NodeNeeds,
    loc: Loc,
    asked: &mut Asked,
    requests: &Requests,
) -> Result<usize, NoMemory>
    requires of_log { AreOfLog (log_of (nodes_of summary.now)) asked.old needs.old }
    requires counted { AreCounted asked.old (known (Some summary.now)) requests.now.items }
    ensures of_log { AreOfLog (log_of (nodes_of summary.now)) asked.new needs.new }
    ensures asked { OnOk result (asked.new ≡ added_all asked.old ((known (Some summary.now)).ends loc).starts) }
    ensures counted { IfOk result (λ n.
        IsCounted asked.new (known (Some summary.now)) (record { loc = loc; needed_first = n })) }
{
    if let Some(last) = requests.last() {
        if share_end_terms(summary, last.loc, loc) {
            return Ok(last.needed_first);
        }
    }
    if !is_location(loc) {
        return add_start(asked, loc);
    }
    needs.ask(summary.nodes(), summary.end_label(loc), asked)
}

/// Asks for where the content of a requested location was at the epoch's start, and notes the request. The first epoch
/// asks nothing. When out of memory, part of it may be asked.
pub(crate) fn add_request(
    summary: &Summary,
    needs: &mut NodeNeeds,
    loc: Loc,
    first: bool,
    asked: &mut Asked,
    requests: &mut Requests,
) -> Result<(), NoMemory>
    requires of_log { AreOfLog (log_of (nodes_of summary.now)) asked.old needs.old }
    requires counted { first ≡ false → AreCounted asked.old (known (Some summary.now)) requests.old.items }
    ensures of_log { AreOfLog (log_of (nodes_of summary.now)) asked.new needs.new }
    ensures asked { OnOk result (asked.new ≡ asked_more first asked.old ((known (Some summary.now)).ends loc).starts) }
    ensures noted { OnOk result
        (IsRequested first asked.new (known (Some summary.now)) loc requests.old.items requests.new.items) }
{
    let mut needed_first = 0;
    if !first {
        needed_first = add_location(summary, needs, loc, asked, requests)?;
    }
    requests.push(Request { loc, needed_first })?;
    Ok(())
}
