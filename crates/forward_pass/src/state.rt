//! What the pass forwards is made of.

ghost use Rattle.std.specs.Prelude.{◌≡◌, true};
ghost use Rattle.std.specs.Option.{ForSome};
ghost use Rattle.epoch_model.specs.Join.{answer_to, resolved};
ghost use Rattle.pass_parts.specs.Known.{known};
ghost use Rattle.pass_parts.specs.PassSummaries.{IsOfEpoch, summary_in};
ghost use Rattle.forward_pass.specs.Rows.{is_due};

use crate::received::Received;
use crate::rows::{SinkRows, make_rows};
use crate::sending::Sending;
use epoch_summary::{Asked, TermsAhead};
use flow_model::Loc;
use merge_log::TermsReader;
use no_memory::NoMemory;
use pass_parts::{PassSummary, Requests};
use sink_collect::SinkSets;

/// Answers what the next node asked, and resolves the sinks of the epoch.
///
/// It is broken from where a growth is refused or an End comes that isn't whole. A broken pass takes no memory, sends
/// nothing of what waits, and ends, not whole.
pub struct Fore {
    pub(crate) epoch: PassSummary,
    pub(crate) asked: Asked,
    pub(crate) requests: Requests,
    // How many of the requests are answered, the one whose answer is being sent among them.
    pub(crate) answered: usize,
    pub(crate) sending: Sending,
    // The location that it was built for, as long as no message came since.
    pub(crate) last: Option<Loc>,
    pub(crate) received: Received,
    pub(crate) rows: SinkRows,
    // It keeps its marks from one set to the next.
    pub(crate) reader: TermsReader,
    // Terms of locations that may be answered next.
    pub(crate) ahead: TermsAhead,
    pub(crate) over: bool,
    ghost of_epoch: { IsOfEpoch epoch ahead },
    ghost due: { is_due rows ≡ true → received.is_ended ≡ true },
    ghost last_answer: { ForSome last (λ l. sending.set ≡ resolved (answer_to asked received.answers) ((known (summary_in epoch)).ends l)) },
}

impl Fore {
    ghost use Rattle.std.specs.Prelude.{IfOk};
    ghost use Rattle.stream_model.specs.Passes.{rows_or_none};
    ghost use Rattle.forward_pass.specs.Forward.{fore_of};

    /// The rows of the epoch's sinks, none if they were not resolved, and what was asked. Rows that are due are made, which
    /// fails only where there is no memory.
    pub fn into_sets(self) -> (Result<SinkSets, NoMemory>, Asked)
        ensures rows { IfOk result.0 (λ sets. sets ≡ rows_or_none (fore_of self).rows) }
        ensures asked { result.1 ≡ (fore_of self).asked }
    {
        let Fore {
            epoch,
            asked,
            requests,
            answered: _,
            sending: _sending,
            last: _,
            received,
            rows,
            mut reader,
            ahead: _ahead,
            over: _,
        } = self;
        let alloc = *requests.allocator();
        let sets = match rows {
            SinkRows::Unresolved => Ok(SinkSets::from_vec(Vec::new(alloc))),
            SinkRows::Due => make_rows(alloc, &mut reader, &epoch, &asked, received.answers()),
            SinkRows::Made(sets) => Ok(sets),
        };
        (sets, asked)
    }
}

// Written out: where a value that has one is let go, a derived drop is proved anew, with all that is below it.
impl Drop for Fore {
    /// Lets all its parts go.
    fn drop(self) {
        let Fore {
            epoch: _epoch,
            asked: _asked,
            requests: _requests,
            answered: _,
            sending: _sending,
            last: _,
            received: _received,
            rows: _rows,
            reader: _reader,
            ahead: _ahead,
            over: _,
        } = self;
    }
}
