//! How far a node has come.

ghost use Rattle.std.specs.Prelude.{◌≡◌, None, IfSome};
ghost use Rattle.pass_parts.specs.Ends.{IsEndFrom, IsRefused};
ghost use Rattle.pass_parts.specs.Turns.{OnNotYet};
ghost use Rattle.forward_pass.specs.Forward.{fore_of};
ghost use Rattle.epoch_node.specs.Cores.{stage_of, phase_of, uses_asks, StageView as view};
ghost use Rattle.epoch_node.specs.Events.{phase_traffic, CanAct, Acts, WaitsAt};

use backward_pass::Back;
use epoch_cut::EpochTicket;
use epoch_link::{Inlet, Outlet};
use flow_model::Message;
use forward_pass::Fore;
use pass_parts::PassTurn;

/// The phase of a node.
#[derive(Clone, Copy, Debug, PartialEq, Eq)]
pub enum Phase {
    /// It hasn't begun.
    Fresh,
    /// It asks the previous node for what its epoch needs.
    Asking,
    /// It answers the next node.
    Answering,
    /// Its last End is sent.
    Done,
}

impl Phase {
    /// Whether the links of the phase are those of the asks, and not those of the answers.
    pub(crate) fn uses_asks(self) -> bool
        ensures { result ≡ uses_asks self }
    {
        match self {
            Phase::Fresh => true,
            Phase::Asking => true,
            Phase::Answering => false,
            Phase::Done => false,
        }
    }
}

/// The phase, with what a node has then.
#[derive(Drop)]
pub enum Stage {
    Fresh(EpochTicket),
    Asking(Back),
    Answering(Fore),
    Done(Fore),
    /// For the time of an event alone.
    Between,
}

impl Stage {
    /// The phase of the stage.
    pub fn phase(&self) -> Phase
        ensures { result ≡ phase_of (stage_of self.now) }
    {
        match self {
            Stage::Fresh(_) => Phase::Fresh,
            Stage::Asking(_) => Phase::Asking,
            Stage::Answering(_) => Phase::Answering,
            Stage::Done(_) => Phase::Done,
            Stage::Between => Phase::Done,
        }
    }

    /// The event of the pass that runs. Before there is one, it counts as over.
    pub(crate) fn act<I: Inlet<Message>, O: Outlet<Message>>(
        &mut self,
        inlet: &mut Option<I>,
        outlet: &mut Option<O>,
    ) -> PassTurn
        requires { CanAct (stage_of self.old) (phase_traffic I.end O.end inlet.old outlet.old) }
        ensures acts { Acts (stage_of self.old) (phase_traffic I.end O.end inlet.old outlet.old)
            (stage_of self.new) (phase_traffic I.end O.end inlet.new outlet.new) result }
        ensures inlet { IsEndFrom I.end inlet.new inlet.old }
        ensures outlet { IsEndFrom O.end outlet.new outlet.old }
        ensures waits { OnNotYet result (WaitsAt (stage_of self.old) (phase_traffic I.end O.end inlet.old outlet.old)
            (IsRefused I.end inlet.old inlet.new) (IsRefused O.end outlet.old outlet.new)) }
    {
        match self {
            Stage::Fresh(_) => PassTurn::Over,
            Stage::Asking(back) => back.event(inlet, outlet),
            Stage::Answering(fore) => fore.event(inlet, outlet),
            Stage::Done(_) => unreachable!(),
            Stage::Between => unreachable!(),
        }
    }

    /// Makes the rows of the epoch's sinks, if they are due in a node that is done.
    pub(crate) fn make_rows(&mut self)
        ensures { stage_of self.new ≡ stage_of self.old }
    {
        match self {
            Stage::Fresh(_) | Stage::Asking(_) | Stage::Answering(_) | Stage::Between => {}
            Stage::Done(fore) => fore.make_rows(),
        }
    }

    /// The pass forwards of a node that is done.
    pub(crate) fn into_done(self) -> Option<Fore>
        ensures done { IfSome result (λ fore. stage_of self ≡ view.Done (fore_of fore)) }
        ensures between { result ≡ None → phase_of (stage_of self) ≡ Phase.Done → stage_of self ≡ view.Between }
    {
        match self {
            Stage::Done(fore) => Some(fore),
            other => {
                drop(other);
                None
            }
        }
    }
}
