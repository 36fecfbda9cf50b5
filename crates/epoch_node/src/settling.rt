//! How a node begins to answer, once it has asked.

ghost use Rattle.backward_pass.specs.Backward.{back_of};
ghost use Rattle.forward_pass.specs.Forward.{fore_of};
ghost use Rattle.epoch_node.specs.Keeping.{CanSettle, IsSettled};

use backward_pass::Back;
use forward_pass::Fore;
use std::alloc::Global;

/// The pass forwards, after this pass backwards. A broken pass has no requests left. It takes no memory.
pub(crate) fn settle(alloc: Global, back: Back, first: bool, last: bool) -> Fore
    requires { CanSettle first last (back_of back) }
    ensures { IsSettled first last (back_of back) (fore_of result) }
{
    let whole = back.whole();
    let (summary, asked, noted) = back.into_parts();
    let requests = if whole { noted } else { Vec::new(alloc) };
    Fore::new(alloc, summary, asked, requests, whole, first, last)
}
